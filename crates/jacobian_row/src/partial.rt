//! The partials of a jet.

ghost use Rattle.std.specs.Prelude.{◌≡◌, ◌≤◌, IfOk};
ghost use Rattle.ring_law.specs.Refusals.{OnFault};
ghost use Rattle.jet_law.specs.Terms.{poly_of};
ghost use Rattle.jet_poly.specs.Jets.{IsJet};
ghost use Rattle.jacobian_row.specs.Rows.{ArePartials, IsPartialHigh};

use jet_poly::{JetOf, derivative};
use ring_law::{Fault, Ring};
use std::alloc::Global;

/// The partial derivatives of a jet, in the order of the variables.
///
/// Errors: `Range` only where the product of an exponent and its coefficient has height 2^120 or more.
pub fn partials<R: Ring>(alloc: Global, ring: &R, g: &JetOf<R>) -> Result<Vec<JetOf<R>>, Fault>
    requires ring { R.is_ring ring.now }
    requires jet { IsJet (R.meaning ring.now) g.now }
    requires at_most_8_variables { g.now.n ≤ 8 }
    ensures partials { IfOk result (λ v. let m = R.meaning ring.now in ArePartials m g.now.n (poly_of g.now.n m.value g.now.terms) v.items) }
    ensures range { OnFault result (let m = R.meaning ring.now in IsPartialHigh g.now.n m.scalars (poly_of g.now.n m.value g.now.terms)) }
{
    let mut all = Vec::new(alloc);
    for variable in 0..g.n() {
        let partial = derivative(alloc, ring, g, variable)?;
        all.push(partial)?;
    }
    Ok(all)
}
