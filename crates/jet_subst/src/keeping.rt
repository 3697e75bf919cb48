//! Products of powers that are kept, so that each is formed once.

ghost use Rattle.std.specs.Prelude.{◌≡◌, ℕ, ◌<◌, ◌≤◌, length, get_or, IfOk, OnOk, IfSome, IfNone, All, sum};
ghost use Rattle.poly_law.specs.ExpList.{exps};
ghost use Rattle.poly_law.specs.Poly.{monomial_of};
ghost use Rattle.ring_law.specs.Refusals.{OnFault};
ghost use Rattle.mono_exp.specs.Exponents.{IsIn};
ghost use Rattle.jet_law.specs.Terms.{exp_of};
ghost use Rattle.jet_subst.specs.Powers.{IsTruncatedJet};
ghost use Rattle.jet_subst.specs.Parts.{variables_of, part_of, IsPart};
ghost use Rattle.jet_subst.specs.Substitutions.{ArePowersOfHigh};
ghost use Rattle.jet_subst.specs.KeptPowers.{IsKept, KeepsParts, ArePowersOf, IsHeld, IsFollowing, IsStep, zeros};

use crate::truncated::{one, product as product_cut, truncation};
use indexmap::IndexMap;
use jet_poly::{Jet, JetOf};
use mono_exp::{Exp, rank};
use ring_law::{Fault, Ring};
use sqlite_items::Items;
use std::alloc::{AllocError, Global};

/// The products of powers of some jets, the parts, cut at a degree, the order: each is formed
/// when it is first asked for, and kept by the number of its monomial.
#[derive(Drop)]
pub struct Kept<E> {
    pub n: u8,
    pub order: u8,
    pub parts: Items<Jet<E>>,
    pub powers: IndexMap<u32, Jet<E>>,
}

/// A copy of a jet.
fn copy<E: Copy>(alloc: Global, f: &Jet<E>) -> Result<Jet<E>, AllocError>
    ensures { IfOk result (λ h. h ≡ f.now) }
{
    let mut terms = Vec::new(alloc);
    for t in f.terms() {
        terms.push(*t)?;
    }
    Ok(Jet::from_rising(f.n(), f.order(), terms))
}

/// Copies of jets.
fn copies<E: Copy>(alloc: Global, parts: &[Jet<E>]) -> Result<Vec<Jet<E>>, AllocError>
    ensures { IfOk result (λ v. v.items ≡ parts.now) }
{
    let mut all = Vec::new(alloc);
    for part in parts {
        let other = copy(alloc, part)?;
        all.push(other)?;
    }
    Ok(all)
}

/// The products of powers of some jets, cut at degree k; none is formed yet.
///
/// Errors: never `Range`.
pub fn keep<R: Ring>(
    alloc: Global,
    ring: &R,
    parts: &[JetOf<R>],
    k: u8,
) -> Result<Kept<R::Elem>, Fault>
    requires ring { R.is_ring ring.now }
    requires given { 0 < length parts.now }
    requires at_most_8_parts { length parts.now ≤ 8 }
    requires at_most_8_variables { variables_of parts.now ≤ 8 }
    requires order_at_most_17 { k ≤ 17 }
    requires parts { All (IsPart (R.meaning ring.now) (variables_of parts.now)) parts.now }
    ensures kept { IfOk result (IsKept (R.meaning ring.now)) }
    ensures n { IfOk result (λ c. c.n ≡ variables_of parts.now) }
    ensures order { IfOk result (λ c. c.order ≡ k) }
    ensures parts { IfOk result (λ c. c.parts ≡ parts.now) }
    ensures range { OnFault result ⊥ }
{
    let _ = ring;
    let copied = copies(alloc, parts)?;
    Ok(Kept {
        n: parts[0].n(),
        order: k,
        parts: Items::from_vec(copied),
        powers: IndexMap::new(alloc),
    })
}

/// A monomial that divides e, times a variable that it has less often; `None` for e itself.
fn following(current: Exp, e: Exp) -> Option<(usize, Exp)>
    ensures next { IfSome result (λ d. IsFollowing current.e e.e d.0 d.1.e) }
    ensures full { IfNone result ((i : ℕ) → i < 8 → get_or e.e i 0 ≤ get_or current.e i 0) }
{
    for i in 0..8 {
        if current.e[i] < e.e[i] {
            let mut next = current.e;
            next[i] += 1;
            return Some((i, Exp { e: next }));
        }
    }
    None
}

/// Keeps the product for the monomial 1, which is 1.
fn hold_one<R: Ring>(
    alloc: Global,
    ring: &R,
    parts: &[JetOf<R>],
    powers: &mut IndexMap<u32, JetOf<R>>,
    n: u8,
    k: u8,
) -> Result<(), Fault>
    requires ring { R.is_ring ring.now }
    requires at_most_8_parts { length parts.now ≤ 8 }
    requires powers { ArePowersOf (R.meaning ring.now) n k parts.now powers.old.entries }
    ensures powers { ArePowersOf (R.meaning ring.now) n k parts.now powers.new.entries }
    ensures held { OnOk result (IsHeld (length parts.now) (record { e = zeros }) powers.new.entries) }
    ensures range { OnFault result ⊥ }
{
    let number = rank(parts.len() as u8, Exp { e: [0; 8] });
    if powers.get(&number).is_some() {
        return Ok(());
    }
    let power = one(alloc, ring, n, k)?;
    powers.insert(number, power)?;
    Ok(())
}

/// Keeps the product for the monomial next, which is that for current times part i.
fn hold_next<R: Ring>(
    alloc: Global,
    ring: &R,
    parts: &[JetOf<R>],
    powers: &mut IndexMap<u32, JetOf<R>>,
    current: Exp,
    i: usize,
    next: Exp,
    n: u8,
    k: u8,
) -> Result<(), Fault>
    requires ring { R.is_ring ring.now }
    requires at_most_8_parts { length parts.now ≤ 8 }
    requires at_most_8_variables { n ≤ 8 }
    requires order_at_most_17 { k ≤ 17 }
    requires parts { All (IsPart (R.meaning ring.now) n) parts.now }
    requires step { IsStep (length parts.now) current.e i next.e }
    requires degree { sum next.e ≤ 17 }
    requires powers { ArePowersOf (R.meaning ring.now) n k parts.now powers.old.entries }
    requires held { IsHeld (length parts.now) current powers.old.entries }
    ensures powers { ArePowersOf (R.meaning ring.now) n k parts.now powers.new.entries }
    ensures held { OnOk result (IsHeld (length parts.now) next powers.new.entries) }
    ensures range { OnFault result (let m = R.meaning ring.now in
        ArePowersOfHigh (exps (length parts.now)) (exps n) m.scalars k (part_of n m.value parts.now) (exp_of (length parts.now) next)) }
{
    let number = rank(parts.len() as u8, next);
    if powers.get(&number).is_some() {
        return Ok(());
    }
    let lower = rank(parts.len() as u8, current);
    let factor = truncation(alloc, ring, &parts[i], k)?;
    let power = product_cut(alloc, ring, powers.get(&lower).unwrap(), &factor, k)?;
    powers.insert(number, power)?;
    Ok(())
}

/// Keeps the product for the monomial e, and those that it is formed from: one variable after the
/// other.
fn hold<R: Ring>(
    alloc: Global,
    ring: &R,
    parts: &[JetOf<R>],
    powers: &mut IndexMap<u32, JetOf<R>>,
    e: Exp,
    n: u8,
    k: u8,
) -> Result<(), Fault>
    requires ring { R.is_ring ring.now }
    requires at_most_8_parts { length parts.now ≤ 8 }
    requires at_most_8_variables { n ≤ 8 }
    requires order_at_most_17 { k ≤ 17 }
    requires parts { All (IsPart (R.meaning ring.now) n) parts.now }
    requires inside { IsIn (length parts.now) e.e }
    requires degree { sum e.e ≤ 17 }
    requires powers { ArePowersOf (R.meaning ring.now) n k parts.now powers.old.entries }
    ensures powers { ArePowersOf (R.meaning ring.now) n k parts.now powers.new.entries }
    ensures held { OnOk result (IsHeld (length parts.now) e powers.new.entries) }
    ensures range { OnFault result (let m = R.meaning ring.now in
        ArePowersOfHigh (exps (length parts.now)) (exps n) m.scalars k (part_of n m.value parts.now) (exp_of (length parts.now) e)) }
{
    hold_one(alloc, ring, parts, powers, n, k)?;
    let mut current = Exp { e: [0; 8] };
    'up: while let Some((i, next)) = following(current, e) {
        hold_next(alloc, ring, parts, powers, current, i, next, n, k)?;
        current = next;
    }
    Ok(())
}

/// The product of the parts with the exponents of e, cut at the degree of the kept products: a
/// copy of what is kept.
///
/// Errors: `Range` only where, for two monomials whose product divides e, the product of their
/// products of powers, both cut at that degree, has height 2^120 or more. The kept products stay.
pub fn product<R: Ring>(
    kept: &mut Kept<R::Elem>,
    alloc: Global,
    ring: &R,
    e: Exp,
) -> Result<JetOf<R>, Fault>
    requires ring { R.is_ring ring.now }
    requires kept { IsKept (R.meaning ring.now) kept.old }
    requires inside { IsIn (length kept.old.parts) e.e }
    requires degree { sum e.e ≤ kept.old.order }
    ensures kept { IsKept (R.meaning ring.now) kept.new }
    ensures stays { KeepsParts kept.old kept.new }
    ensures product { IfOk result (let m = R.meaning ring.now in let c = kept.old in
        IsTruncatedJet m c.n c.order (monomial_of (exps (length c.parts)) (exps c.n) m.scalars.ops (part_of c.n m.value c.parts) (exp_of (length c.parts) e))) }
    ensures range { OnFault result (let m = R.meaning ring.now in let c = kept.old in
        ArePowersOfHigh (exps (length c.parts)) (exps c.n) m.scalars c.order (part_of c.n m.value c.parts) (exp_of (length c.parts) e)) }
{
    let slice = kept.parts.as_slice();
    hold(alloc, ring, slice, &mut kept.powers, e, kept.n, kept.order)?;
    let number = rank(slice.len() as u8, e);
    let power = copy(alloc, kept.powers.get(&number).unwrap())?;
    Ok(power)
}
