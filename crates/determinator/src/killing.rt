//! The base kill of an order, where a base part is known.

ghost use Rattle.std.specs.Prelude.{OnOk};
ghost use Rattle.ring_law.specs.Refusals.{OnFault};
ghost use Rattle.ext_algebra.specs.Algebra.{IsFieldAlgebra};
ghost use Rattle.determinator.specs.PartPlaces.{IsKillPlaced};
ghost use Rattle.determinator.specs.PartSteps.{IsKilledNext, IsKillingHigh};

use coord_change::{Chain, Steps, push};
use ext_algebra::{Algebra, AlgebraField, Ext};
use kill_law::Part;
use ring_law::{Fault, Frac};
use rules_corank2::extend2;
use std::alloc::Global;
use std::sync::ledger::Ledger;

/// The base kill of the order of a chain that has come there by its split move, and whose jet has the
/// part: the terms of that order that a lead of the part divides give way.
///
/// Errors: `Range` only where the base kill, or carrying the jet by it, forms a number of height
/// 2^120 or more. The chain is then as before.
pub fn kill_next<L: Ledger>(
    alloc: Global,
    algebra: Algebra,
    part: Part,
    chain: &mut Chain<Ext<Frac>>,
    steps: &mut Steps<L>,
) -> Result<(), Fault>
    requires field { IsFieldAlgebra algebra }
    requires placed { IsKillPlaced algebra part chain.old }
    ensures chain { OnOk result (IsKilledNext algebra part chain.old chain.new) }
    ensures range { OnFault result (IsKillingHigh algebra part chain.old) }
{
    let field = AlgebraField { algebra };
    let f = chain.carried();
    let change = extend2(alloc, &field, part, f, f.order())?;
    push(chain, alloc, &field, &change, steps)?;
    Ok(())
}
