//! Whether a change of coordinates carries a jet to another.

ghost use Rattle.std.specs.Prelude.{◌≡◌, ◌<◌, ◌≤◌, ◌↔◌, length, All, IfOk, IsTrue};
ghost use Rattle.poly_law.specs.ExpList.{exps};
ghost use Rattle.poly_law.specs.Polynomials.{SameToIn, substitute};
ghost use Rattle.ring_law.specs.Refusals.{OnFault};
ghost use Rattle.jet_law.specs.Terms.{poly_of};
ghost use Rattle.jet_poly.specs.Jets.{IsJet};
ghost use Rattle.jet_subst.specs.Parts.{variables_of, part_of, IsPart};
ghost use Rattle.jet_subst.specs.Substitutions.{IsSubstHigh};

use jet_poly::JetOf;
use jet_subst::subst;
use report_jet::are_same_terms;
use ring_law::{Fault, Ring};
use std::alloc::Global;

/// Whether a jet of order at most k is f with part i put for variable i, up to degree k.
///
/// Errors: `Range` only where a number that this substitution forms has height 2^120 or more.
pub fn is_carried_jet<R: Ring>(
    alloc: Global,
    ring: &R,
    parts: &[JetOf<R>],
    f: &JetOf<R>,
    k: u8,
    jet: &JetOf<R>,
) -> Result<bool, Fault>
    requires ring { R.is_ring ring.now }
    requires jet { IsJet (R.meaning ring.now) f.now }
    requires given { 0 < length parts.now }
    requires one_each { length parts.now ≡ f.now.n }
    requires at_most_8_parts { f.now.n ≤ 8 }
    requires at_most_8_variables { variables_of parts.now ≤ 8 }
    requires order_at_most_17 { k ≤ 17 }
    requires parts { All (IsPart (R.meaning ring.now) (variables_of parts.now)) parts.now }
    requires wanted { IsPart (R.meaning ring.now) (variables_of parts.now) jet.now }
    requires wanted_order { jet.now.order ≤ k }
    ensures carried { IfOk result (λ b. let m = R.meaning ring.now in let n = variables_of parts.now in IsTrue b ↔ SameToIn n m.scalars.ops k (poly_of n m.value jet.now.terms)
        (substitute f.now.n n m.scalars.ops (part_of n m.value parts.now) (poly_of f.now.n m.value f.now.terms))) }
    ensures range { OnFault result (let m = R.meaning ring.now in let n = variables_of parts.now in
        IsSubstHigh (exps f.now.n) (exps n) m.scalars k (part_of n m.value parts.now) (poly_of f.now.n m.value f.now.terms)) }
{
    let carried = subst(alloc, ring, f, parts, k)?;
    Ok(are_same_terms(ring, jet.n(), jet.terms(), carried.terms()))
}
