//! The transformed jet.

ghost use Rattle.std.specs.Prelude.{◌≡◌, ◌≤◌, IfOk};
ghost use Rattle.poly_law.specs.ExpList.{exps};
ghost use Rattle.poly_law.specs.Polynomials.{SameIn, cut_in, substitute};
ghost use Rattle.ring_law.specs.Refusals.{OnFault};
ghost use Rattle.jet_law.specs.Terms.{poly_of};
ghost use Rattle.jet_law.specs.Canonical.{jet};
ghost use Rattle.jet_poly.specs.Jets.{IsJet};
ghost use Rattle.jet_subst.specs.Parts.{part_of};
ghost use Rattle.jet_subst.specs.Substitutions.{IsSubstHigh};
ghost use Rattle.coord_change.specs.Changes.{IsChange};
ghost use Rattle.coord_change.specs.Moves.{move_from};
ghost use Rattle.coord_change.specs.Carries.{carry as carry_of};
ghost use Rattle.coord_change.specs.CarryHeights.{IsCarryHigh};
ghost use Rattle.coord_change.specs.MoveJets.{IsJetFor};

use crate::change::ChangeOf;
use jet_poly::{JetOf, cut};
use jet_subst::subst;
use ring_law::{Fault, Ring};
use std::alloc::Global;

/// f with the change c substituted, cut at degree k: a jet of order k.
///
/// Errors: `Range` only where a number that this substitution forms has height 2^120 or more.
pub fn carry<R: Ring>(
    alloc: Global,
    ring: &R,
    c: &ChangeOf<R>,
    f: &JetOf<R>,
    k: u8,
) -> Result<JetOf<R>, Fault>
    requires ring { R.is_ring ring.now }
    requires change { IsChange (R.meaning ring.now) c.now }
    requires jet { IsJet (R.meaning ring.now) f.now }
    requires same_variables { f.now.n ≡ c.now.n }
    requires order_at_most_17 { k ≤ 17 }
    ensures jet { IfOk result (IsJet (R.meaning ring.now)) }
    ensures n { IfOk result (λ h. h.n ≡ c.now.n) }
    ensures order { IfOk result (λ h. h.order ≡ k) }
    ensures value { IfOk result (λ h. let m = R.meaning ring.now in let n = c.now.n in SameIn n m.scalars.ops (poly_of n m.value h.terms)
        (cut_in n m.scalars.ops k (substitute n n m.scalars.ops (part_of n m.value c.now.parts) (poly_of n m.value f.now.terms)))) }
    ensures range { OnFault result (let m = R.meaning ring.now in let n = c.now.n in
        IsSubstHigh (exps n) (exps n) m.scalars k (part_of n m.value c.now.parts) (poly_of n m.value f.now.terms)) }
{
    subst(alloc, ring, f, c.parts.as_slice(), k)
}

/// f carried by the move of the change c up to degree k, as the one list of terms that it is.
///
/// Errors: `Range` only where a number that this substitution forms has height 2^120 or more.
pub fn carried_jet<R: Ring>(
    alloc: Global,
    ring: &R,
    c: &ChangeOf<R>,
    f: &JetOf<R>,
    k: u8,
) -> Result<JetOf<R>, Fault>
    requires ring { R.is_ring ring.now }
    requires change { IsChange (R.meaning ring.now) c.now }
    requires jet { IsJet (R.meaning ring.now) f.now }
    requires same_variables { f.now.n ≡ c.now.n }
    requires order_at_most_17 { k ≤ 17 }
    ensures jet { IfOk result (let m = R.meaning ring.now in let n = c.now.n in
        IsJetFor m n k (carry_of n m.scalars k (move_from m n c.now) (poly_of n m.value f.now.terms))) }
    ensures range { OnFault result (let m = R.meaning ring.now in let n = c.now.n in
        IsCarryHigh n m.scalars k (move_from m n c.now) (poly_of n m.value f.now.terms)) }
{
    let jet = carry(alloc, ring, c, f, k)?;
    let _terms = jet.terms();
    Ok(jet)
}

/// f cut at degree k, as the one list of terms that it is.
pub(crate) fn truncated<R: Ring>(
    alloc: Global,
    ring: &R,
    f: &JetOf<R>,
    k: u8,
) -> Result<JetOf<R>, Fault>
    requires ring { R.is_ring ring.now }
    requires jet { IsJet (R.meaning ring.now) f.now }
    ensures jet { IfOk result (let m = R.meaning ring.now in let n = f.now.n in IsJetFor m n k (jet n m.scalars k (poly_of n m.value f.now.terms))) }
    ensures range { OnFault result ⊥ }
{
    let jet = cut(alloc, ring, f, k)?;
    let _terms = jet.terms();
    Ok(jet)
}
