//! The powers of the parts that the monomials of a list ask for.

ghost use Rattle.std.specs.Prelude.{◌≡◌, ◌≢◌, ◌≤◌, ◌<◌, [], max, length, get_or, IfOk, All, Contains, map};
ghost use Rattle.poly_law.specs.ExpList.{exps};
ghost use Rattle.poly_law.specs.Poly.{monomial_of};
ghost use Rattle.ring_law.specs.Refusals.{OnFault};
ghost use Rattle.jet_law.specs.Terms.{exp_of};
ghost use Rattle.jet_subst.specs.Powers.{IsTruncatedJet};
ghost use Rattle.jet_subst.specs.Parts.{part_of, IsPart, IsTable, HasPowers, IsTermHigh};
ghost use Rattle.jet_subst.specs.Substitutions.{ArePowersOfHigh};

use crate::power::powers;
use crate::truncated::{one, product};
use jet_poly::JetOf;
use mono_exp::Exp;
use ring_law::{Fault, Ring};
use sqlite_items::Items;
use std::alloc::Global;

/// The larger of two numbers.
fn larger(a: u8, b: u8) -> u8
    ensures { result ≡ max a b }
{
    if a < b { b } else { a }
}

/// The greatest exponent of variable i.
pub fn greatest_exponent<E: Copy>(terms: &[(Exp, E)], i: usize) -> u8
    requires { i < 8 }
    ensures greatest { All (λ t. get_or t.0.e i 0 ≤ result) terms.now }
    ensures among { terms.now ≢ [] → Contains (map (λ t. get_or t.0.e i 0) terms.now) result }
{
    let mut greatest = 0;
    for t in terms {
        greatest = larger(greatest, t.0.e[i]);
    }
    greatest
}

/// For each part its powers, up to the greatest exponent of its variable in the terms.
pub fn power_table<R: Ring>(
    alloc: Global,
    ring: &R,
    terms: &[(Exp, R::Elem)],
    parts: &[JetOf<R>],
    n: u8,
    k: u8,
) -> Result<Vec<Items<JetOf<R>>>, Fault>
    requires ring { R.is_ring ring.now }
    requires given { terms.now ≢ [] }
    requires at_most_8_parts { length parts.now ≤ 8 }
    requires at_most_8_variables { n ≤ 8 }
    requires order_at_most_17 { k ≤ 17 }
    requires parts { All (IsPart (R.meaning ring.now) n) parts.now }
    ensures count { IfOk result (λ table. length table.items ≡ length parts.now) }
    ensures table { IfOk result (λ table. IsTable (R.meaning ring.now) n k parts.now table.items) }
    ensures powers { IfOk result (λ table. All (λ t. HasPowers table.items t.0) terms.now) }
    ensures range { OnFault result (IsTermHigh (R.meaning ring.now) n k parts.now terms.now) }
{
    let mut table = Vec::new(alloc);
    for i in 0..parts.len() {
        let most = greatest_exponent(terms, i);
        let row = powers(alloc, ring, &parts[i], most, k)?;
        table.push(Items::from_vec(row))?;
    }
    Ok(table)
}

/// The product of the powers of the parts to the exponents of a, by the table.
pub fn monomial_product<R: Ring>(
    alloc: Global,
    ring: &R,
    table: &[Items<JetOf<R>>],
    parts: &[JetOf<R>],
    a: Exp,
    n: u8,
    k: u8,
) -> Result<JetOf<R>, Fault>
    requires ring { R.is_ring ring.now }
    requires at_most_8_parts { length parts.now ≤ 8 }
    requires at_most_8_variables { n ≤ 8 }
    requires order_at_most_17 { k ≤ 17 }
    requires count { length table.now ≡ length parts.now }
    requires table { IsTable (R.meaning ring.now) n k parts.now table.now }
    requires powers { HasPowers table.now a }
    ensures product { IfOk result (let m = R.meaning ring.now in
        IsTruncatedJet m n k (monomial_of (exps (length parts.now)) (exps n) m.scalars.ops (part_of n m.value parts.now) (exp_of (length parts.now) a))) }
    ensures range { OnFault result (let m = R.meaning ring.now in
        ArePowersOfHigh (exps (length parts.now)) (exps n) m.scalars k (part_of n m.value parts.now) (exp_of (length parts.now) a)) }
{
    let mut power = one(alloc, ring, n, k)?;
    for i in 0..parts.len() {
        let exponent = usize::from(a.e[i]);
        if exponent > 0 {
            let factor = &table[i].as_slice()[exponent];
            let next = product(alloc, ring, &power, factor, k)?;
            power = next;
        }
    }
    Ok(power)
}
