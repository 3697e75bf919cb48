//! The next order of a run where a base part is known: the split move, the base kill, and the test of the part.

ghost use Rattle.std.specs.Prelude.{◌<◌, IfOk};
ghost use Rattle.ring_law.specs.Refusals.{OnFault};
ghost use Rattle.ext_algebra.specs.Algebra.{IsFieldAlgebra};
ghost use Rattle.determinator.specs.Places.{OnStop};
ghost use Rattle.determinator.specs.PartPlaces.{IsReducedPlaced};
ghost use Rattle.determinator.specs.PartSteps.{IsTestedPart, IsPatternHigh, IsExtendedNext, IsExtendingHigh};

use crate::ending::outside;
use crate::killing::kill_next;
use crate::splitting::split_next;
use crate::stop::{Stop, in_phase};
use cert_text::{Answer, Phase};
use coord_change::{Chain, Steps};
use ext_algebra::{Algebra, AlgebraField, Ext};
use kill_law::Part;
use poly_text::Name;
use ring_law::{Fault, Frac};
use rules_corank2::pattern_of2;
use std::alloc::Global;
use std::sync::ledger::Ledger;

/// What an order comes to where a base part is known: the answer where a pattern past the list is
/// decided, or Mather's test with a chain of that order.
#[derive(Drop)]
pub enum Extension {
    Outside(Answer),
    Reduced(Chain<Ext<Frac>>),
}

// The test of the part at the order of the chain.
fn tested(
    alloc: Global,
    names: &[Name],
    algebra: Algebra,
    corank: u8,
    part: Part,
    chain: Chain<Ext<Frac>>,
) -> Result<Extension, Fault>
    requires field { IsFieldAlgebra algebra }
    requires placed { IsReducedPlaced corank algebra part chain }
    ensures tested { IfOk result (IsTestedPart corank algebra part chain names.now) }
    ensures range { OnFault result (IsPatternHigh corank algebra part chain) }
{
    let field = AlgebraField { algebra };
    match pattern_of2(&field, part, chain.carried(), chain.order()) {
        Some(pattern) => {
            let answer = outside(alloc, names, algebra, corank, pattern, &chain)?;
            Ok(Extension::Outside(answer))
        }
        None => Ok(Extension::Reduced(chain)),
    }
}

/// The next order of a run where a base part in two variables is known, over any algebra: the split
/// move and the base kill of that order, and the answer `outside` where the test of the part decides
/// a pattern.
///
/// Errors: `Range` only where the phase that it names forms a number of height 2^120 or more: the
/// split, the kill, or the composing of the printed change.
pub fn open_reduced<L: Ledger>(
    alloc: Global,
    names: &[Name],
    algebra: Algebra,
    corank: u8,
    part: Part,
    mut chain: Chain<Ext<Frac>>,
    steps: &mut Steps<L>,
) -> Result<Extension, Stop>
    requires field { IsFieldAlgebra algebra }
    requires placed { IsReducedPlaced corank algebra part chain }
    requires below_last { chain.order < chain.germ.order }
    ensures extended { IfOk result (IsExtendedNext corank algebra part chain names.now) }
    ensures range { OnStop result (IsExtendingHigh corank algebra part chain) }
{
    match split_next(alloc, algebra, corank, &mut chain, steps) {
        Ok(()) => {}
        Err(fault) => return Err(in_phase(Phase::Split, fault)),
    }
    match kill_next(alloc, algebra, part, &mut chain, steps) {
        Ok(()) => {}
        Err(fault) => return Err(in_phase(Phase::Kill, fault)),
    }
    match tested(alloc, names, algebra, corank, part, chain) {
        Ok(extension) => Ok(extension),
        Err(fault) => Err(in_phase(Phase::Finish, fault)),
    }
}
