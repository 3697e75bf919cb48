//! The finish of a run before a part is known.

ghost use Rattle.std.specs.Prelude.{◌≡◌, ◌≤◌, ⊤, IfOk, MatchOption};
ghost use Rattle.ext_algebra.specs.Algebra.{IsFieldAlgebra};
ghost use Rattle.ext_algebra.specs.declared.algebra.Algebra.TheVariants as algebras;
ghost use Rattle.coord_change.specs.Chains.{carried_in};
ghost use Rattle.determinator.specs.Jets.{AreRowsFor};
ghost use Rattle.determinator.specs.Naming.{IsNamingOf, answer_by};
ghost use Rattle.determinator.specs.Places.{IsPlaced, OnStop};
ghost use Rattle.determinator.specs.Reports.{AreNames};
ghost use Rattle.determinator.specs.Steps.{IsFinishedSearch, IsFinishingSearchHigh};

use crate::ending::carried_of;
use crate::naming::{Naming, naming_of};
use crate::stop::{Stop, in_phase};
use cert_text::{Answer, Carried, Named, Phase, Unresolved};
use coord_change::Chain;
use determinacy::MatherRow;
use ext_algebra::{Algebra, Ext};
use poly_text::Name;
use ring_law::Frac;
use sqlite_items::Items;
use std::alloc::Global;

/// The answer where Mather's test holds before a part is known: in corank 0 and 1 a name of the
/// series A; `Unresolved` where the jet is no form of the family that is looked for, and in corank 2
/// and 3, where none is. The finish has no moves there, so the rows of the test are those of the
/// printed jet.
///
/// Errors: `Range` in the phase of the finish or of the Milnor algebra only where composing the
/// moves, the units and their inverses, or the Milnor algebra form a number of height 2^120 or more.
pub fn finish_searching(
    alloc: Global,
    names: &[Name],
    corank: u8,
    chain: &Chain<Ext<Frac>>,
    rows: Items<MatherRow<Ext<Frac>>>,
) -> Result<Answer, Stop>
    requires field { IsFieldAlgebra algebras.Rational }
    requires placed { IsPlaced corank algebras.Rational chain.now }
    requires few { corank ≤ 3 }
    requires names { AreNames chain.now.germ.n names.now }
    requires rows { AreRowsFor algebras.Rational corank (carried_in chain.now) rows }
    ensures report { IfOk result (IsFinishedSearch corank chain.now names.now) }
    ensures range { OnStop result (IsFinishingSearchHigh corank chain.now) }
{
    let carried = match carried_of(alloc, names, Algebra::Rational, corank, chain) {
        Ok(carried) => carried,
        Err(fault) => return Err(in_phase(Phase::Finish, fault)),
    };
    let naming = naming_of(alloc, &carried)?;
    Ok(named_by(naming, carried, rows))
}

// The answer for a carried germ with this name, or without one.
fn named_by(naming: Option<Naming>, carried: Carried, rows: Items<MatherRow<Ext<Frac>>>) -> Answer
    requires named { MatchOption naming ⊤ (IsNamingOf carried) }
    ensures answer { result ≡ answer_by carried rows naming }
{
    match naming {
        None => Answer::Unresolved(Unresolved {
            carried,
            mather: rows,
        }),
        Some(naming) => Answer::Named(Named {
            family: naming.family,
            carried,
            units: naming.units,
            modulus: naming.modulus,
            milnor: naming.quotient.basis.len() as u32,
            mather: rows,
            quotient: naming.quotient,
        }),
    }
}
