//! Multiples of partials, and monomials, as rows.

ghost use Rattle.std.specs.Prelude.{◌≡◌, ℕ, ◌+◌, ◌<◌, ◌≤◌, map, filter, leb, length, sum, get_or, All, IfOk};
ghost use Rattle.ring_law.specs.Refusals.{OnFault};
ghost use Rattle.poly_law.specs.Exps.{plus};
ghost use Rattle.poly_law.specs.ExpList.{exps};
ghost use Rattle.mono_exp.specs.Exponents.{IsIn};
ghost use Rattle.jet_law.specs.Terms.{exp_of};
ghost use Rattle.jet_poly.specs.JetTerms.{JetTerms};
ghost use Rattle.jacobian_row.specs.Numbers.{number, count_to};
ghost use Rattle.poly_law.specs.Polynomials.{term_in};
ghost use Rattle.jacobian_row.specs.Rows.{IsRowOf, AreRowsOf, AreMonomialRows, IsJetIn};

use crate::multiple::Multiple;
use jet_poly::JetOf;
use lin_row::Row;
use mono_exp::{Exp, degree, rank, times};
use ring_law::{Fault, Ring};
use sqlite_items::Items;
use std::alloc::Global;

/// The row of the product of a monomial and terms, cut at degree k.
fn product_row<E: Copy>(
    alloc: Global,
    n: u8,
    k: u8,
    factor: Exp,
    terms: &[(Exp, E)],
) -> Result<Row<E>, Fault>
    requires at_most_8_variables { n ≤ 8 }
    requires order_at_most_17 { k ≤ 17 }
    requires unused { IsIn n factor.e }
    requires variables { All (λ t. IsIn n t.0.e) terms.now }
    ensures entries { IfOk result (λ r. r.entries ≡ map (λ t. (number n (plus (exps n) (exp_of n factor) (exp_of n t.0)), t.1)) (filter (λ t. leb (sum factor.e + sum t.0.e) k) terms.now)) }
    ensures memory { OnFault result ⊥ }
{
    let mut entries = Vec::new(alloc);
    for t in terms {
        if degree(factor) + degree(t.0) > u16::from(k) {
            continue;
        }
        let product = times(factor, t.0).unwrap();
        entries.push((rank(n, product), t.1))?;
    }
    Ok(Row {
        entries: Items::from_vec(entries),
    })
}

/// The rows of the multiples, cut at degree k, in order: the entry in the column r is the coefficient at the monomial with number r.
pub fn multiple_rows<R: Ring>(
    alloc: Global,
    ring: &R,
    n: u8,
    k: u8,
    multiples: &[Multiple],
    partials: &[JetOf<R>],
) -> Result<Vec<Row<R::Elem>>, Fault>
    requires ring { R.is_ring ring.now }
    requires at_most_8_variables { n ≤ 8 }
    requires order_at_most_17 { k ≤ 17 }
    requires unused { All (λ u. IsIn n u.factor.e) multiples.now }
    requires variables { All (λ u. u.variable < length partials.now) multiples.now }
    requires jets { All (IsJetIn (R.meaning ring.now) n) partials.now }
    ensures rows { IfOk result (λ v. AreRowsOf (R.meaning ring.now) n (count_to n k) k partials.now multiples.now v.items) }
    ensures memory { OnFault result ⊥ }
{
    let _ = ring;
    let mut rows = Vec::new(alloc);
    for u in multiples {
        let partial = &partials[usize::from(u.variable)];
        let row = product_row(alloc, n, k, u.factor, partial.terms())?;
        rows.push(row)?;
    }
    Ok(rows)
}

/// The row of a monomial of degree at most k.
fn monomial_row<R: Ring>(
    alloc: Global,
    ring: &R,
    n: u8,
    k: u8,
    a: Exp,
) -> Result<Row<R::Elem>, Fault>
    requires ring { R.is_ring ring.now }
    requires at_most_8_variables { n ≤ 8 }
    requires order_at_most_17 { k ≤ 17 }
    requires unused { IsIn n a.e }
    requires degree { sum a.e ≤ k }
    ensures row { IfOk result (λ r. IsRowOf (R.meaning ring.now) n (count_to n k) (term_in n (R.meaning ring.now).scalars.ops (exp_of n a)) r.entries) }
    ensures memory { OnFault result ⊥ }
{
    let _ = k;
    let mut entries = Vec::new(alloc);
    entries.push((rank(n, a), ring.one()))?;
    Ok(Row {
        entries: Items::from_vec(entries),
    })
}

/// The rows of monomials of degree at most k, in order: entry 1 at the number of the monomial.
pub fn monomial_rows<R: Ring>(
    alloc: Global,
    ring: &R,
    n: u8,
    k: u8,
    monomials: &[Exp],
) -> Result<Vec<Row<R::Elem>>, Fault>
    requires ring { R.is_ring ring.now }
    requires at_most_8_variables { n ≤ 8 }
    requires order_at_most_17 { k ≤ 17 }
    requires unused { All (λ a. IsIn n a.e) monomials.now }
    requires degrees { All (λ a. sum a.e ≤ k) monomials.now }
    ensures rows { IfOk result (λ v. AreMonomialRows (R.meaning ring.now) n (count_to n k) monomials.now v.items) }
    ensures memory { OnFault result ⊥ }
{
    let mut rows = Vec::new(alloc);
    for a in monomials {
        let row = monomial_row(alloc, ring, n, k, *a)?;
        rows.push(row)?;
    }
    Ok(rows)
}
