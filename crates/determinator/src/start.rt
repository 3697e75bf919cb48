//! How a run begins: the Hessian, and the chain of order 2.

ghost use Rattle.std.specs.Prelude.{IfOk};
ghost use Rattle.ring_law.specs.Refusals.{OnFault};
ghost use Rattle.ext_algebra.specs.Algebra.{IsFieldAlgebra};
ghost use Rattle.ext_algebra.specs.declared.algebra.Algebra.TheVariants as algebras;
ghost use Rattle.determinator.specs.Places.{OnStop};
ghost use Rattle.determinator.specs.Reports.{AreNames};
ghost use Rattle.determinator.specs.Starts.{IsGermJet, IsHessianMove, IsStarted, IsStartingHigh, AreBegun, ArePhasesHigh};

use crate::ending::outside;
use crate::lifting::{lift_change, lift_jet};
use crate::step::Step;
use crate::stop::{Stop, in_phase};
use cert_text::Phase;
use coord_change::{Chain, Change, Steps, push, start};
use ext_algebra::{Algebra, AlgebraField, Ext};
use hessian_rank::diagonalise;
use jet_poly::Jet;
use normal_forms::Pattern;
use poly_text::Name;
use ring_law::{Fault, Frac};
use std::alloc::Global;
use std::sync::ledger::Ledger;

/// The corank of a germ, and the first step of its run.
#[derive(Drop)]
pub struct First {
    pub corank: u8,
    pub step: Step,
}

/// The first step of a run; or none, where germs of this corank are not classified yet.
#[derive(Drop)]
pub enum Begun {
    First(First),
    Unbuilt,
}

// The chain of order 2 over a germ, with the move of its Hessian.
fn start_chain<L: Ledger>(
    alloc: Global,
    germ: &Jet<Frac>,
    change: &Change<Frac>,
    steps: &mut Steps<L>,
) -> Result<Chain<Ext<Frac>>, Fault>
    requires field { IsFieldAlgebra algebras.Rational }
    requires germ { IsGermJet germ.now }
    requires moved { IsHessianMove germ.now change.now }
    ensures chain { IfOk result (IsStarted germ.now) }
    ensures range { OnFault result (IsStartingHigh germ.now) }
{
    let field = AlgebraField {
        algebra: Algebra::Rational,
    };
    let lifted = lift_jet(alloc, germ)?;
    let mut chain = start(alloc, &field, &lifted)?;
    let first = lift_change(alloc, change)?;
    push(&mut chain, alloc, &field, &first, steps)?;
    Ok(chain)
}

/// How the run of a critical germ begins: with the move of the Hessian, and from corank 4 on with its end. In corank 2 and 3 it does not.
///
/// Errors: `Range` only where the phase that it names forms a number of height 2^120 or more.
pub fn begin<L: Ledger>(
    alloc: Global,
    names: &[Name],
    germ: &Jet<Frac>,
    steps: &mut Steps<L>,
) -> Result<Begun, Stop>
    requires field { IsFieldAlgebra algebras.Rational }
    requires names { AreNames germ.now.n names.now }
    requires germ { IsGermJet germ.now }
    ensures begun { IfOk result (AreBegun germ.now names.now) }
    ensures range { OnStop result (ArePhasesHigh germ.now) }
{
    let diagonal = match diagonalise(alloc, germ) {
        Ok(diagonal) => diagonal,
        Err(fault) => return Err(in_phase(Phase::Hessian, fault)),
    };
    let corank = diagonal.corank;
    if corank == 2 || corank == 3 {
        return Ok(Begun::Unbuilt);
    }
    let chain = match start_chain(alloc, germ, &diagonal.change, steps) {
        Ok(chain) => chain,
        Err(fault) => return Err(in_phase(Phase::Hessian, fault)),
    };
    if corank < 2 {
        let step = Step::Searching(chain);
        return Ok(Begun::First(First { corank, step }));
    }
    match outside(alloc, names, Algebra::Rational, corank, Pattern::O, &chain) {
        Ok(answer) => Ok(Begun::First(First {
            corank,
            step: Step::Ends(answer),
        })),
        Err(fault) => Err(in_phase(Phase::Finish, fault)),
    }
}
