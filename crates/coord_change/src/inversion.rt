//! The inverse of a change of coordinates, one degree after the other.

ghost use Rattle.std.specs.Prelude.{◌≡◌, ℕ, ◌+◌, ◌*◌, ◌<◌, ◌≤◌, ◌⊎◌, ◌++◌, length, sum, IfOk, OnOk, All};
ghost use Rattle.poly_law.specs.Laws.{IsInverse};
ghost use Rattle.poly_law.specs.Polynomials.{SameIn, StartsAtIn, poly_in, cut_in, substitute};
ghost use Rattle.ring_law.specs.Refusals.{OnFault};
ghost use Rattle.jet_law.specs.Terms.{poly_of};
ghost use Rattle.jet_poly.specs.Jets.{IsJet};
ghost use Rattle.jet_subst.specs.Parts.{IsPart, part_of};
ghost use Rattle.coord_change.specs.Changes.{IsChange, entry_of};
ghost use Rattle.coord_change.specs.InverseChanges.{IsComponent, combination_of, corrected, SubstitutionIsHigh, CombinationIsHigh, CorrectionIsHigh, IsInversionHigh, PushesNegatives};
ghost use Rattle.coord_change.specs.Linear.{linear_part_of};

use crate::change::{Change, ChangeOf};
use crate::forms::linear_jets;
use crate::parts::linear_part;
use jet_poly::{Jet, JetOf, from_terms, part};
use jet_subst::{push_scaled, subst};
use mono_exp::Exp;
use ring_law::{Fault, Ring};
use sqlite_items::Items;
use std::alloc::Global;

/// The terms of degree d of the parts of c with jets substituted.
fn components<R: Ring>(
    alloc: Global,
    ring: &R,
    c: &ChangeOf<R>,
    jets: &[JetOf<R>],
    d: u8,
) -> Result<Vec<JetOf<R>>, Fault>
    requires ring { R.is_ring ring.now }
    requires change { IsChange (R.meaning ring.now) c.now }
    requires count { length jets.now ≡ c.now.n }
    requires jets { All (IsPart (R.meaning ring.now) c.now.n) jets.now }
    requires order_at_most_17 { d ≤ 17 }
    ensures count { IfOk result (λ v. length v.items ≡ c.now.n) }
    ensures jets { IfOk result (λ v. All (IsPart (R.meaning ring.now) c.now.n) v.items) }
    ensures components { IfOk result (λ v. let m = R.meaning ring.now in let n = c.now.n in (t : ℕ) → t < n
        → IsComponent n m.scalars.ops d (substitute n n m.scalars.ops (part_of n m.value jets.now) (part_of n m.value c.now.parts t)) (part_of n m.value v.items t)) }
    ensures range { OnFault result (let m = R.meaning ring.now in let n = c.now.n in SubstitutionIsHigh n m.scalars (part_of n m.value c.now.parts) (part_of n m.value jets.now) d) }
{
    let mut all = Vec::new(alloc);
    for p in c.parts.as_slice() {
        let carried = subst(alloc, ring, p, jets, d)?;
        let component = part(alloc, ring, &carried, d)?;
        let _terms = component.terms();
        all.push(component)?;
    }
    Ok(all)
}

/// The combination of jets of degree d with row u of a matrix with n rows.
fn combination<R: Ring>(
    alloc: Global,
    ring: &R,
    n: u8,
    d: u8,
    matrix: &[R::Elem],
    u: u8,
    jets: &[JetOf<R>],
) -> Result<JetOf<R>, Fault>
    requires ring { R.is_ring ring.now }
    requires at_most_8_variables { n ≤ 8 }
    requires order_at_most_17 { d ≤ 17 }
    requires elems { All (R.meaning ring.now).is_elem matrix.now }
    requires entries { length matrix.now ≡ n * n }
    requires row { u < n }
    requires count { length jets.now ≡ n }
    requires jets { All (IsPart (R.meaning ring.now) n) jets.now }
    requires starts { let m = R.meaning ring.now in (t : ℕ) → t < n → StartsAtIn n m.scalars.ops d (part_of n m.value jets.now t) }
    ensures jet { IfOk result (IsJet (R.meaning ring.now)) }
    ensures n { IfOk result (λ h. h.n ≡ n) }
    ensures order { IfOk result (λ h. h.order ≡ d) }
    ensures degrees { IfOk result (λ h. All (λ t. d ≤ sum t.0.e) h.terms) }
    ensures value { IfOk result (λ h. let m = R.meaning ring.now in SameIn n m.scalars.ops (poly_of n m.value h.terms)
        (cut_in n m.scalars.ops d (combination_of n m.scalars.ops (entry_of m n matrix.now u) (part_of n m.value jets.now)))) }
    ensures range { OnFault result (let m = R.meaning ring.now in CombinationIsHigh n m.scalars (entry_of m n matrix.now u) (part_of n m.value jets.now) d) }
{
    let mut all = Vec::new(alloc);
    for t in 0..n {
        let a = matrix[usize::from(n) * usize::from(u) + usize::from(t)];
        push_scaled(ring, &mut all, a, jets[usize::from(t)].terms())?;
    }
    let sum = from_terms(alloc, ring, n, d, &all)?;
    let _terms = sum.terms();
    Ok(sum)
}

/// Adds the negatives of other terms behind the terms.
fn push_negatives<R: Ring>(
    ring: &R,
    terms: &mut Vec<(Exp, R::Elem)>,
    others: &[(Exp, R::Elem)],
) -> Result<(), Fault>
    requires ring { R.is_ring ring.now }
    requires elems { All (λ t. (R.meaning ring.now).is_elem t.1) others.now }
    ensures pushed { OnOk result (PushesNegatives (R.meaning ring.now) others.now terms.old.items terms.new.items) }
    ensures memory { OnFault result ⊥ }
{
    for t in others {
        terms.push((t.0, ring.neg(t.1)))?;
    }
    Ok(())
}

/// f less g, where each term of g has a higher degree than f's order: a jet of g's order.
fn less<R: Ring>(alloc: Global, ring: &R, f: &JetOf<R>, g: &JetOf<R>) -> Result<JetOf<R>, Fault>
    requires ring { R.is_ring ring.now }
    requires left { IsJet (R.meaning ring.now) f.now }
    requires right { IsJet (R.meaning ring.now) g.now }
    requires same_variables { g.now.n ≡ f.now.n }
    requires orders { f.now.order ≤ g.now.order }
    requires degrees { All (λ t. f.now.order < sum t.0.e) g.now.terms }
    ensures jet { IfOk result (IsJet (R.meaning ring.now)) }
    ensures n { IfOk result (λ h. h.n ≡ f.now.n) }
    ensures order { IfOk result (λ h. h.order ≡ g.now.order) }
    ensures difference { IfOk result (λ h. let m = R.meaning ring.now in let n = f.now.n in
        poly_of n m.value h.terms ≡ poly_of n m.value f.now.terms ++ (poly_in n m.scalars.ops).neg (poly_of n m.value g.now.terms)) }
    ensures memory { OnFault result ⊥ }
{
    let mut terms = Vec::new(alloc);
    terms.extend_from_slice(f.terms())?;
    push_negatives(ring, &mut terms, g.terms())?;
    Ok(Jet::from_rising(f.n(), g.order(), terms))
}

/// Jets of degree below d, each less the terms of degree d by which c with them substituted is
/// wrong, combined with a row of the inverse matrix of c.
fn correct<R: Ring>(
    alloc: Global,
    ring: &R,
    c: &ChangeOf<R>,
    jets: &[JetOf<R>],
    d: u8,
) -> Result<Vec<JetOf<R>>, Fault>
    requires ring { R.is_ring ring.now }
    requires change { IsChange (R.meaning ring.now) c.now }
    requires count { length jets.now ≡ c.now.n }
    requires jets { All (IsPart (R.meaning ring.now) c.now.n) jets.now }
    requires orders { All (λ p. p.order < d) jets.now }
    requires order_at_most_17 { d ≤ 17 }
    ensures count { IfOk result (λ v. length v.items ≡ c.now.n) }
    ensures jets { IfOk result (λ v. All (IsPart (R.meaning ring.now) c.now.n) v.items) }
    ensures orders { IfOk result (λ v. All (λ p. p.order ≡ d) v.items) }
    ensures values { IfOk result (λ v. let m = R.meaning ring.now in let n = c.now.n in (u : ℕ) → u < n → SameIn n m.scalars.ops (part_of n m.value v.items u)
        (corrected n m.scalars.ops (part_of n m.value c.now.parts) (entry_of m n c.now.inverse) (part_of n m.value jets.now) d u)) }
    ensures range { OnFault result (let m = R.meaning ring.now in let n = c.now.n in let parts = part_of n m.value c.now.parts in let psi = part_of n m.value jets.now in
        SubstitutionIsHigh n m.scalars parts psi d ⊎ CorrectionIsHigh n m.scalars parts (entry_of m n c.now.inverse) psi d) }
{
    let terms = components(alloc, ring, c, jets, d)?;
    let mut all = Vec::new(alloc);
    for u in 0..c.n {
        let change = combination(alloc, ring, c.n, d, c.inverse.as_slice(), u, &terms)?;
        let next = less(alloc, ring, &jets[usize::from(u)], &change)?;
        all.push(next)?;
    }
    Ok(all)
}

/// The inverse of a change of coordinates up to degree k: the change of order k that composed with
/// c on either side is the identity, cut at k. Its matrix is the linear part of c.
///
/// It begins with the linear change of the inverse matrix of c, and is corrected in one degree
/// after the other.
///
/// Errors: `Range` only where such a correction has a number of height 2^120 or more: in the
/// substitution into c, cut at the degree that is corrected, in a product of an entry of the
/// inverse matrix and a coefficient of that degree, or in a sum of such products.
pub fn invert_to<R: Ring>(
    alloc: Global,
    ring: &R,
    c: &ChangeOf<R>,
    k: u8,
) -> Result<ChangeOf<R>, Fault>
    requires ring { R.is_ring ring.now }
    requires change { IsChange (R.meaning ring.now) c.now }
    requires order_at_least_1 { 1 ≤ k }
    requires order_at_most_17 { k ≤ 17 }
    ensures change { IfOk result (IsChange (R.meaning ring.now)) }
    ensures n { IfOk result (λ h. h.n ≡ c.now.n) }
    ensures order { IfOk result (λ h. h.order ≡ k) }
    ensures inverse { IfOk result (λ h. let m = R.meaning ring.now in let n = c.now.n in IsInverse m.scalars.ops n (part_of n m.value c.now.parts) k (part_of n m.value h.parts)) }
    ensures matrix { IfOk result (λ h. let m = R.meaning ring.now in let n = c.now.n in (i j : ℕ) → i < n → j < n → entry_of m n h.inverse i j ≡ linear_part_of m n c.now.parts i j) }
    ensures range { OnFault result (let m = R.meaning ring.now in let n = c.now.n in IsInversionHigh n m.scalars (part_of n m.value c.now.parts) (entry_of m n c.now.inverse) k) }
{
    let mut parts = linear_jets(alloc, ring, c.n, 1, c.inverse.as_slice())?;
    for i in 1..k {
        let next = correct(alloc, ring, c, &parts, i + 1)?;
        parts = next;
    }
    let inverse = linear_part(alloc, ring, c.n, c.parts.as_slice())?;
    Ok(Change {
        n: c.n,
        order: k,
        parts: Items::from_vec(parts),
        inverse: Items::from_vec(inverse),
    })
}
