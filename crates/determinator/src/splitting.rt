//! The beginning of an order: the chain is brought to it, and the square variables are split off.

ghost use Rattle.std.specs.Prelude.{◌<◌, OnOk};
ghost use Rattle.ring_law.specs.Refusals.{OnFault};
ghost use Rattle.ext_algebra.specs.Algebra.{IsFieldAlgebra};
ghost use Rattle.determinator.specs.Places.{IsPlaced};
ghost use Rattle.determinator.specs.Steps.{IsSplitNext, IsSplittingHigh};

use crate::jet::squares_of;
use coord_change::{Chain, Steps, grow, push};
use ext_algebra::{Algebra, AlgebraField, Ext};
use ring_law::{Fault, Frac};
use split_lemma::split;
use std::alloc::Global;
use std::sync::ledger::Ledger;

/// The chain at the next order, with the split move of that degree.
///
/// Errors: `Range` only where bringing the chain to that order, or the split move, forms a number of height 2^120 or more. The chain may then stand at the next order without the
/// split move.
pub fn split_next<L: Ledger>(
    alloc: Global,
    algebra: Algebra,
    corank: u8,
    chain: &mut Chain<Ext<Frac>>,
    steps: &mut Steps<L>,
) -> Result<(), Fault>
    requires field { IsFieldAlgebra algebra }
    requires placed { IsPlaced corank algebra chain.old }
    requires below_last { chain.old.order < chain.old.germ.order }
    ensures chain { OnOk result (IsSplitNext corank algebra chain.old chain.new) }
    ensures range { OnFault result (IsSplittingHigh corank algebra chain.old) }
{
    let field = AlgebraField { algebra };
    grow(chain, alloc, &field, steps)?;
    let f = chain.carried();
    let squares = squares_of(alloc, &field, f, corank)?;
    let change = split(alloc, &field, f, &squares, corank, f.order())?;
    push(chain, alloc, &field, &change, steps)?;
    Ok(())
}
