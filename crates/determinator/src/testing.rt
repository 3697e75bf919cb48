//! Mather's test of a carried jet.

ghost use Rattle.std.specs.Prelude.{IfOk};
ghost use Rattle.ring_law.specs.Refusals.{OnFault};
ghost use Rattle.ext_algebra.specs.Algebra.{IsFieldAlgebra};
ghost use Rattle.coord_change.specs.Chains.{carried_in};
ghost use Rattle.determinator.specs.Jets.{IsTestedBy};
ghost use Rattle.determinator.specs.Places.{IsPlaced};
ghost use Rattle.determinator.specs.Steps.{IsTestingHigh};

use crate::jet::residual_part;
use coord_change::Chain;
use determinacy::{MatherTest, mather};
use ext_algebra::{Algebra, AlgebraField, Ext};
use ring_law::{Fault, Frac};
use std::alloc::Global;

/// Mather's test of the residual part of a carried jet, at its order.
///
/// Errors: `Range` only where the test forms a number of height 2^120 or more.
pub fn test(
    alloc: Global,
    algebra: Algebra,
    corank: u8,
    chain: &Chain<Ext<Frac>>,
) -> Result<MatherTest<Ext<Frac>>, Fault>
    requires field { IsFieldAlgebra algebra }
    requires placed { IsPlaced corank algebra chain.now }
    ensures tested { IfOk result (IsTestedBy algebra corank (carried_in chain.now)) }
    ensures range { OnFault result (IsTestingHigh corank algebra chain.now) }
{
    let field = AlgebraField { algebra };
    let g = residual_part(alloc, corank, chain.carried())?;
    let answer = mather(alloc, &field, &g, g.order())?;
    Ok(answer)
}
