//! The powers of a jet up to a degree.

ghost use Rattle.std.specs.Prelude.{◌≡◌, ◌≤◌, ◌+◌, IfOk, OnOk, length};
ghost use Rattle.poly_law.specs.ExpList.{exps};
ghost use Rattle.ring_law.specs.Refusals.{OnFault};
ghost use Rattle.jet_law.specs.Terms.{poly_of};
ghost use Rattle.jet_poly.specs.Jets.{IsJet};
ghost use Rattle.jet_subst.specs.Powers.{IsTruncatedJet, ArePowersHigh};
ghost use Rattle.jet_subst.specs.Parts.{ArePowers};

use crate::truncated::{one, product, truncation};
use jet_poly::JetOf;
use ring_law::{Fault, Ring};
use std::alloc::Global;

/// The powers p^0, p^1, .., p^most, each cut at degree k and of order k.
///
/// Errors: `Range` only where, for some a + b ≤ most, the product of p^a and p^b cut at k has a
/// height of at least 2^120.
pub fn powers<R: Ring>(
    alloc: Global,
    ring: &R,
    p: &JetOf<R>,
    most: u8,
    k: u8,
) -> Result<Vec<JetOf<R>>, Fault>
    requires ring { R.is_ring ring.now }
    requires jet { IsJet (R.meaning ring.now) p.now }
    requires at_most_8_variables { p.now.n ≤ 8 }
    requires order_at_most_17 { k ≤ 17 }
    ensures count { IfOk result (λ all. length all.items ≡ most + 1) }
    ensures powers { IfOk result (λ all. let m = R.meaning ring.now in ArePowers m p.now.n k (poly_of p.now.n m.value p.now.terms) all.items) }
    ensures range { OnFault result (let m = R.meaning ring.now in ArePowersHigh (exps p.now.n) m.scalars k (poly_of p.now.n m.value p.now.terms) most) }
{
    let base = truncation(alloc, ring, p, k)?;
    powers_by(alloc, ring, p, &base, most, k)
}

/// The powers of p up to the exponent most, where base is p cut at k.
fn powers_by<R: Ring>(
    alloc: Global,
    ring: &R,
    p: &JetOf<R>,
    base: &JetOf<R>,
    most: u8,
    k: u8,
) -> Result<Vec<JetOf<R>>, Fault>
    requires ring { R.is_ring ring.now }
    requires at_most_8_variables { p.now.n ≤ 8 }
    requires order_at_most_17 { k ≤ 17 }
    requires base { let m = R.meaning ring.now in IsTruncatedJet m p.now.n k (poly_of p.now.n m.value p.now.terms) base.now }
    ensures count { IfOk result (λ all. length all.items ≡ most + 1) }
    ensures powers { IfOk result (λ all. let m = R.meaning ring.now in ArePowers m p.now.n k (poly_of p.now.n m.value p.now.terms) all.items) }
    ensures range { OnFault result (let m = R.meaning ring.now in ArePowersHigh (exps p.now.n) m.scalars k (poly_of p.now.n m.value p.now.terms) most) }
{
    let first = one(alloc, ring, p.n(), k)?;
    let mut all = Vec::new(alloc);
    all.push(first)?;
    for i in 0..most {
        push_next(alloc, ring, &mut all, p, base, i, k)?;
    }
    Ok(all)
}

/// Adds the power p^(i+1) to p^0, .., p^i, where base is p cut at k.
fn push_next<R: Ring>(
    alloc: Global,
    ring: &R,
    all: &mut Vec<JetOf<R>>,
    p: &JetOf<R>,
    base: &JetOf<R>,
    i: u8,
    k: u8,
) -> Result<(), Fault>
    requires ring { R.is_ring ring.now }
    requires at_most_8_variables { p.now.n ≤ 8 }
    requires order_at_most_17 { k ≤ 17 }
    requires base { let m = R.meaning ring.now in IsTruncatedJet m p.now.n k (poly_of p.now.n m.value p.now.terms) base.now }
    requires count { length all.old.items ≡ i + 1 }
    requires powers { let m = R.meaning ring.now in ArePowers m p.now.n k (poly_of p.now.n m.value p.now.terms) all.old.items }
    ensures count { OnOk result (length all.new.items ≡ i + 2) }
    ensures powers { OnOk result (let m = R.meaning ring.now in ArePowers m p.now.n k (poly_of p.now.n m.value p.now.terms) all.new.items) }
    ensures range { OnFault result (let m = R.meaning ring.now in ArePowersHigh (exps p.now.n) m.scalars k (poly_of p.now.n m.value p.now.terms) (i + 1)) }
{
    let next = product(alloc, ring, &all[usize::from(i)], base, k)?;
    all.push(next)?;
    Ok(())
}
