//! The run of the plan, order by order.

ghost use Rattle.std.specs.Prelude.{◌≡◌, suc, ◌<◌, ◌≤◌, IfOk};
ghost use Rattle.ext_algebra.specs.Algebra.{IsFieldAlgebra};
ghost use Rattle.ext_algebra.specs.declared.algebra.Algebra.TheVariants as algebras;
ghost use Rattle.determinator.specs.Answered.{ArePlanned};
ghost use Rattle.determinator.specs.Places.{OnStop};
ghost use Rattle.determinator.specs.Reports.{AreNames};
ghost use Rattle.determinator.specs.Starts.{IsGermJet, ArePhasesHigh};
ghost use Rattle.determinator.specs.Turns.{IsAheadBy, IsOverBy, IsHighBy, IsRunning};

use crate::start::{Begun, begin};
use crate::step::Step;
use crate::stop::{Stop, range_answer};
use crate::turn::turn_searching;
use cert_text::Answer;
use coord_change::Steps;
use jet_poly::Jet;
use poly_text::Name;
use ring_law::{Frac, NoMemory};
use std::alloc::Global;
use std::marker::Brand;
use std::sync::ledger::{Blank, Ledger};

// The turn from a step of order o, in corank 0 and 1 where it comes to a test.
fn turn<L: Ledger>(
    alloc: Global,
    names: &[Name],
    corank: u8,
    last: u8,
    o: u8,
    step: Step,
    steps: &mut Steps<L>,
) -> Result<Step, Stop>
    requires field { IsFieldAlgebra algebras.Rational }
    requires last_at_least_3 { 3 ≤ last }
    requires running { IsRunning names.now corank last o step }
    ensures ahead { IfOk result (IsAheadBy names.now corank last o step (suc o)) }
    ensures range { OnStop result (IsHighBy names.now corank last o step) }
{
    let _ = (last, o);
    match step {
        Step::Ends(answer) => Ok(Step::Ends(answer)),
        Step::Searching(chain) => turn_searching(alloc, names, corank, chain, steps),
    }
}

// The answer of a run from its first step, that of order 2.
fn run_from<L: Ledger>(
    alloc: Global,
    names: &[Name],
    corank: u8,
    last: u8,
    first: Step,
    steps: &mut Steps<L>,
) -> Result<Answer, Stop>
    requires field { IsFieldAlgebra algebras.Rational }
    requires last_at_least_3 { 3 ≤ last }
    requires last_at_most_16 { last ≤ 16 }
    requires running { IsRunning names.now corank last 2 first }
    ensures over { IfOk result (IsOverBy names.now corank last 2 first) }
    ensures range { OnStop result (IsHighBy names.now corank last 2 first) }
{
    let mut step = first;
    for o in 2..last + 1 {
        step = turn(alloc, names, corank, last, o, step, steps)?;
    }
    match step {
        Step::Ends(answer) => Ok(answer),
        Step::Searching(_) => unreachable!(),
    }
}

// The run of the plan of a critical germ, with its steps on a new ledger.
fn plan_of<L: Ledger>(
    alloc: Global,
    blank: Blank,
    names: &[Name],
    germ: &Jet<Frac>,
) -> Result<Answer, Stop>
    requires name { blank.name ≡ L.name }
    requires parts { blank.parts ≡ L.parts }
    requires given { 0 < L.parts }
    requires names { AreNames germ.now.n names.now }
    requires germ { IsGermJet germ.now }
    ensures planned { IfOk result (ArePlanned names.now germ.now) }
    ensures range { OnStop result (ArePhasesHigh germ.now) }
{
    let mut steps = Steps::<L>::open(blank);
    match begin(alloc, names, germ, &mut steps)? {
        Begun::Unbuilt => Ok(Answer::Unbuilt),
        Begun::First(first) => {
            let last = germ.order();
            run_from(alloc, names, first.corank, last, first.step, &mut steps)
        }
    }
}

/// The answer to a critical germ in the variables of these names, up to the order of its jet: the outcome of the plan, or `Unbuilt` in corank 2 and 3, or `Range` in a phase of the plan
/// that forms a number of height 2^120 or more.
pub fn answer_to_germ(alloc: Global, names: &[Name], germ: &Jet<Frac>) -> Result<Answer, NoMemory>
    requires names { AreNames germ.now.n names.now }
    requires germ { IsGermJet germ.now }
    ensures planned { IfOk result (ArePlanned names.now germ.now) }
{
    match plan_of::<Brand>(alloc, Blank::new(1), names, germ) {
        Ok(answer) => Ok(answer),
        Err(stop) => range_answer(stop),
    }
}
