//! The jets that moves make of a germ, at the next order.

ghost use Rattle.std.specs.Prelude.{◌≡◌, ◌≤◌, ◌+◌, ◌++◌, IfOk, All, length, map, sum};
ghost use Rattle.ring_law.specs.Refusals.{OnFault};
ghost use Rattle.jet_law.specs.Terms.{poly_of};
ghost use Rattle.jet_law.specs.Canonical.{jet};
ghost use Rattle.jet_poly.specs.JetTerms.{IsRising};
ghost use Rattle.jet_poly.specs.Jets.{IsJet};
ghost use Rattle.coord_change.specs.Changes.{IsChange};
ghost use Rattle.coord_change.specs.Moves.{move_from};
ghost use Rattle.coord_change.specs.Carries.{carry as carry_of};
ghost use Rattle.coord_change.specs.CarryHeights.{IsCarryHigh, IsCarryAllHigh};
ghost use Rattle.coord_change.specs.MoveJets.{IsJetFor};
ghost use Rattle.coord_change.specs.Chains.{AreCarried};

use crate::change::ChangeOf;
use crate::pullback::truncated;
use crate::steps::Steps;
use jet_poly::{Jet, JetOf};
use jet_subst::{block, keep};
use ring_law::{Fault, Ring};
use std::alloc::{AllocError, Global};
use std::sync::ledger::Ledger;

/// The terms of a jet of order o, and behind them those of another one, all of degree o + 1: a jet
/// of that order.
fn joined<E: Copy>(alloc: Global, lower: &Jet<E>, top: &Jet<E>, o: u8) -> Result<Jet<E>, AllocError>
    requires order_at_most_16 { o ≤ 16 }
    requires lower { All (λ t. sum t.0.e ≤ o) lower.now.terms }
    requires top { All (λ t. sum t.0.e ≡ o + 1) top.now.terms }
    ensures jet { IfOk result (λ h. h ≡ record { n = lower.now.n; order = o + 1; terms = lower.now.terms ++ top.now.terms }) }
    ensures rising { IfOk result (λ h. IsRising h.terms) }
{
    let mut terms = Vec::new(alloc);
    terms.extend_from_slice(lower.terms())?;
    terms.extend_from_slice(top.terms())?;
    Ok(Jet::from_rising(lower.n(), o + 1, terms))
}

/// f carried by the move of the change c up to degree o + 1, by the jet that it is carried to up
/// to degree o: only the terms of degree o + 1 are formed, in one step.
///
/// Errors: `Range` only where a number that this substitution forms has height 2^120 or more.
fn extended_jet<R: Ring, L: Ledger>(
    alloc: Global,
    ring: &R,
    c: &ChangeOf<R>,
    f: &JetOf<R>,
    lower: &JetOf<R>,
    o: u8,
    steps: &mut Steps<L>,
) -> Result<JetOf<R>, Fault>
    requires ring { R.is_ring ring.now }
    requires change { IsChange (R.meaning ring.now) c.now }
    requires jet { IsJet (R.meaning ring.now) f.now }
    requires same_variables { f.now.n ≡ c.now.n }
    requires degree { f.now.order ≤ o + 1 }
    requires order_at_most_16 { o ≤ 16 }
    requires lower { let m = R.meaning ring.now in let n = c.now.n in
        IsJetFor m n o (carry_of n m.scalars o (move_from m n c.now) (poly_of n m.value f.now.terms)) lower.now }
    ensures jet { IfOk result (let m = R.meaning ring.now in let n = c.now.n in
        IsJetFor m n (o + 1) (carry_of n m.scalars (o + 1) (move_from m n c.now) (poly_of n m.value f.now.terms))) }
    ensures range { OnFault result (let m = R.meaning ring.now in let n = c.now.n in
        IsCarryHigh n m.scalars (o + 1) (move_from m n c.now) (poly_of n m.value f.now.terms)) }
    ensures steps { steps.new ≡ steps.old + 1 }
{
    steps.add(1);
    let mut kept = keep(alloc, ring, c.parts.as_slice(), o + 1)?;
    let top = block(&mut kept, alloc, ring, f)?;
    let _terms = top.terms();
    let jet = joined(alloc, lower, &top, o)?;
    Ok(jet)
}

/// The jets that the first moves make of f, one after the other, each step cut at degree o + 1, by
/// those that they make where each is cut at degree o: one step for each move.
///
/// Errors: `Range` only where a number that one of these substitutions forms has height 2^120 or
/// more.
pub(crate) fn grown_jets<R: Ring, L: Ledger>(
    alloc: Global,
    ring: &R,
    f: &JetOf<R>,
    moves: &[ChangeOf<R>],
    jets: &[JetOf<R>],
    o: u8,
    steps: &mut Steps<L>,
) -> Result<Vec<JetOf<R>>, Fault>
    requires ring { R.is_ring ring.now }
    requires jet { IsJet (R.meaning ring.now) f.now }
    requires changes { All (IsChange (R.meaning ring.now)) moves.now }
    requires variables { All (λ c. c.n ≡ f.now.n) moves.now }
    requires order_at_most_16 { o ≤ 16 }
    requires carried { let m = R.meaning ring.now in let n = f.now.n in
        AreCarried m n o (map (move_from m n) moves.now) (jet n m.scalars o (poly_of n m.value f.now.terms)) jets.now }
    ensures jets { IfOk result (λ v. let m = R.meaning ring.now in let n = f.now.n in
        AreCarried m n (o + 1) (map (move_from m n) moves.now) (jet n m.scalars (o + 1) (poly_of n m.value f.now.terms)) v.items) }
    ensures range { OnFault result (let m = R.meaning ring.now in let n = f.now.n in
        IsCarryAllHigh n m.scalars (o + 1) (map (move_from m n) moves.now) (jet n m.scalars (o + 1) (poly_of n m.value f.now.terms))) }
    ensures steps { steps.new ≤ steps.old + length moves.now }
{
    let first = truncated(alloc, ring, f, o + 1)?;
    let mut grown = Vec::new(alloc);
    grown.push(first)?;
    for i in 0..moves.len() {
        let next = extended_jet(alloc, ring, &moves[i], &grown[i], &jets[i + 1], o, steps)?;
        grown.push(next)?;
    }
    Ok(grown)
}
