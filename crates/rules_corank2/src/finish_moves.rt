//! Quotients, and the moves of two variables that a finish makes.

ghost use Rattle.std.specs.Prelude.{◌≡◌, ◌≢◌, ◌<◌, ◌≤◌, [], ◌∷◌, IfOk};
ghost use Rattle.ring_law.specs.Refusals.{OnFault, OnRange};
ghost use Rattle.poly_law.specs.Polynomials.{StartsAtIn};
ghost use Rattle.jet_law.specs.Terms.{poly_of};
ghost use Rattle.jet_poly.specs.Jets.{IsJet};
ghost use Rattle.coord_change.specs.Inverses.{HasNoKernel, InverseIsHigh};
ghost use Rattle.coord_change.specs.Moves.{move_of, linear_part, variable_of};
ghost use Rattle.coord_change.specs.MoveJets.{IsJetFor, IsMoveExactly};
ghost use Rattle.move_law.specs.Moves.{over as over_of, whole};
ghost use Rattle.move_law.specs.Work.{product, inverse};
ghost use Rattle.split_lemma.specs.Splits.{AnyHigh};

use crate::finish_state::change_of;
use coord_change::{ChangeOf, identity, monomial};
use jet_poly::{Jet, JetOf};
use ring_law::{Fault, Field, Frac, Range, Ring};
use std::alloc::Global;

/// a / b.
///
/// Errors: `Range` only where the inverse or the product has height 2^120 or more.
pub fn over<F: Field>(field: &F, a: F::Elem, b: F::Elem) -> Result<F::Elem, Range>
    requires ring { F.is_ring field.now }
    requires left { (F.meaning field.now).is_elem a }
    requires right { (F.meaning field.now).is_elem b }
    requires unit { (F.meaning field.now).value b ≢ (F.meaning field.now).scalars.ops.zero }
    ensures elem { IfOk result (F.meaning field.now).is_elem }
    ensures value { IfOk result (λ x. let m = F.meaning field.now in m.value x ≡ over_of m.scalars (m.value a) (m.value b)) }
    ensures range { OnRange result (let m = F.meaning field.now in AnyHigh 0 m.scalars (inverse (m.value b) ∷ product (m.value a) (m.scalars.inverse (m.value b)) ∷ [])) }
{
    match field.inv(b)? {
        Some(inverse) => {
            let quotient = field.mul(a, inverse)?;
            Ok(quotient)
        }
        None => unreachable!(),
    }
}

/// The whole number k.
pub(crate) fn number<R: Ring>(ring: &R, k: u8) -> R::Elem
    requires { R.is_ring ring.now }
    ensures elem { (R.meaning ring.now).is_elem result }
    ensures value { let m = R.meaning ring.now in m.value result ≡ whole m.scalars k }
{
    ring.inject(Frac {
        num: i128::from(k),
        den: 1,
    })
}

/// k times b.
///
/// Errors: `Range` only where the product has height 2^120 or more.
pub fn multiple<R: Ring>(ring: &R, k: u8, b: R::Elem) -> Result<R::Elem, Range>
    requires ring { R.is_ring ring.now }
    requires elem { (R.meaning ring.now).is_elem b }
    ensures elem { IfOk result (R.meaning ring.now).is_elem }
    ensures value { IfOk result (λ x. let m = R.meaning ring.now in m.value x ≡ m.scalars.ops.mul (whole m.scalars k) (m.value b)) }
    ensures range { OnRange result (let m = R.meaning ring.now in AnyHigh 0 m.scalars (product (whole m.scalars k) (m.value b) ∷ [])) }
{
    let product = ring.mul(number(ring, k), b)?;
    Ok(product)
}

/// The variable i.
pub fn variable<R: Ring>(
    alloc: Global,
    ring: &R,
    n: u8,
    order: u8,
    i: u8,
) -> Result<JetOf<R>, Fault>
    requires ring { R.is_ring ring.now }
    requires inside { i < n }
    requires at_most_8_variables { n ≤ 8 }
    requires order_at_least_1 { 1 ≤ order }
    ensures part { IfOk result (let m = R.meaning ring.now in IsJetFor m n order (variable_of n m.scalars i)) }
    ensures memory { OnFault result ⊥ }
{
    let mut terms = Vec::new(alloc);
    terms.push((monomial(usize::from(i)), ring.one()))?;
    Ok(Jet::from_rising(n, order, terms))
}

/// The change that puts p for variable i and q for variable j, while all others stay.
///
/// Errors: `Range` only where the plain row reduction of its linear part has height 2^120 or more.
pub fn putting<F: Field>(
    alloc: Global,
    field: &F,
    i: u8,
    p: Jet<F::Elem>,
    j: u8,
    q: Jet<F::Elem>,
) -> Result<ChangeOf<F>, Fault>
    requires ring { F.is_ring field.now }
    requires p_jet { IsJet (F.meaning field.now) p }
    requires q_jet { IsJet (F.meaning field.now) q }
    requires same_variables { q.n ≡ p.n }
    requires same_order { q.order ≡ p.order }
    requires at_most_8_variables { p.n ≤ 8 }
    requires order_at_least_1 { 1 ≤ p.order }
    requires order_at_most_17 { p.order ≤ 17 }
    requires i_inside { i < p.n }
    requires j_inside { j < p.n }
    requires other { i ≢ j }
    requires p_low { let m = F.meaning field.now in StartsAtIn p.n m.scalars.ops 1 (poly_of p.n m.value p.terms) }
    requires q_low { let m = F.meaning field.now in StartsAtIn p.n m.scalars.ops 1 (poly_of p.n m.value q.terms) }
    requires regular { let m = F.meaning field.now in let n = p.n in HasNoKernel m.scalars.ops n (linear_part n m.scalars (move_of n m.scalars ((i, poly_of n m.value p.terms) ∷ (j, poly_of n m.value q.terms) ∷ []))) }
    ensures change { IfOk result (let m = F.meaning field.now in let n = p.n in IsMoveExactly m n p.order (move_of n m.scalars ((i, poly_of n m.value p.terms) ∷ (j, poly_of n m.value q.terms) ∷ []))) }
    ensures range { OnFault result (let m = F.meaning field.now in let n = p.n in InverseIsHigh m.scalars n (linear_part n m.scalars (move_of n m.scalars ((i, poly_of n m.value p.terms) ∷ (j, poly_of n m.value q.terms) ∷ [])))) }
{
    let unit = identity(alloc, field, p.n(), p.order())?;
    let mut parts = unit.parts;
    parts.set(usize::from(i), p);
    parts.set(usize::from(j), q);
    let change = change_of(alloc, field, parts.as_slice())?;
    Ok(change)
}
