//! The turns of a run: from the test of one order to that of the next.

ghost use Rattle.std.specs.Prelude.{◌<◌, ◌≤◌, IfOk};
ghost use Rattle.ext_algebra.specs.Algebra.{IsFieldAlgebra};
ghost use Rattle.ext_algebra.specs.declared.algebra.Algebra.TheVariants as algebras;
ghost use Rattle.coord_change.specs.Chains.{carried_in};
ghost use Rattle.determinacy.specs.declared.row.MatherTest.TheVariants.{Fails};
ghost use Rattle.determinator.specs.Jets.{IsTestedBy};
ghost use Rattle.determinator.specs.Places.{IsPlaced, OnStop};
ghost use Rattle.determinator.specs.Reports.{AreNames};
ghost use Rattle.determinator.specs.Steps.{IsOpenedNext, IsOpeningNextHigh, IsTurnedSearch, IsTurningSearchHigh};

use crate::ending::limited;
use crate::finish::finish_searching;
use crate::splitting::split_next;
use crate::step::Step;
use crate::stop::{Stop, in_phase};
use crate::testing::test;
use cert_text::Phase;
use coord_change::{Chain, Steps};
use determinacy::MatherTest;
use ext_algebra::{Algebra, Ext};
use mono_exp::Exp;
use poly_text::Name;
use ring_law::Frac;
use sqlite_items::Items;
use std::alloc::Global;
use std::sync::ledger::Ledger;

/// The next order before a part is known, over the rational numbers: the split move of that order. In corank 0 and 1 no linear move applies.
///
/// Errors: `Range` in the phase of the split only where bringing the chain to that order, or the split move, forms a number of height 2^120 or more.
pub fn open_searching<L: Ledger>(
    alloc: Global,
    corank: u8,
    mut chain: Chain<Ext<Frac>>,
    steps: &mut Steps<L>,
) -> Result<Step, Stop>
    requires field { IsFieldAlgebra algebras.Rational }
    requires placed { IsPlaced corank algebras.Rational chain }
    requires few { corank ≤ 1 }
    requires below_last { chain.order < chain.germ.order }
    ensures opened { IfOk result (IsOpenedNext corank chain) }
    ensures range { OnStop result (IsOpeningNextHigh corank chain) }
{
    match split_next(alloc, Algebra::Rational, corank, &mut chain, steps) {
        Ok(()) => Ok(Step::Searching(chain)),
        Err(fault) => Err(in_phase(Phase::Split, fault)),
    }
}

// The turn where Mather's test fails before a part is known: the next order, or `limit` at the last.
fn go_on<L: Ledger>(
    alloc: Global,
    names: &[Name],
    corank: u8,
    chain: Chain<Ext<Frac>>,
    functional: Items<(Exp, Ext<Frac>)>,
    at: Exp,
    steps: &mut Steps<L>,
) -> Result<Step, Stop>
    requires field { IsFieldAlgebra algebras.Rational }
    requires placed { IsPlaced corank algebras.Rational chain }
    requires few { corank ≤ 1 }
    requires last_at_least_3 { 3 ≤ chain.germ.order }
    requires failure { IsTestedBy algebras.Rational corank (carried_in chain) (Fails functional at) }
    ensures turned { IfOk result (IsTurnedSearch corank chain names.now) }
    ensures range { OnStop result (IsTurningSearchHigh corank chain) }
{
    if chain.order() < chain.germ().order() {
        return open_searching(alloc, corank, chain, steps);
    }
    match limited(
        alloc,
        names,
        Algebra::Rational,
        corank,
        &chain,
        functional,
        at,
    ) {
        Ok(answer) => Ok(Step::Ends(answer)),
        Err(fault) => Err(in_phase(Phase::Finish, fault)),
    }
}

/// The turn from the test of an order before a part is known, in corank 0 and 1: the finish where Mather's condition holds, `limit` where it fails at the last order, and else the next
/// order.
///
/// Errors: `Range` only where the phase that it names forms a number of height 2^120 or more.
pub fn turn_searching<L: Ledger>(
    alloc: Global,
    names: &[Name],
    corank: u8,
    chain: Chain<Ext<Frac>>,
    steps: &mut Steps<L>,
) -> Result<Step, Stop>
    requires field { IsFieldAlgebra algebras.Rational }
    requires placed { IsPlaced corank algebras.Rational chain }
    requires few { corank ≤ 1 }
    requires names { AreNames chain.germ.n names.now }
    requires last_at_least_3 { 3 ≤ chain.germ.order }
    ensures turned { IfOk result (IsTurnedSearch corank chain names.now) }
    ensures range { OnStop result (IsTurningSearchHigh corank chain) }
{
    let tested = match test(alloc, Algebra::Rational, corank, &chain) {
        Ok(tested) => tested,
        Err(fault) => return Err(in_phase(Phase::Mather, fault)),
    };
    match tested {
        MatherTest::Holds(rows) => {
            let answer = finish_searching(alloc, names, corank, &chain, rows)?;
            Ok(Step::Ends(answer))
        }
        MatherTest::Fails { functional, at } => {
            go_on(alloc, names, corank, chain, functional, at, steps)
        }
    }
}
