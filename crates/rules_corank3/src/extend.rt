//! The base kill of a part in three variables.

ghost use Rattle.std.specs.Prelude.{◌<◌, ◌≤◌, IfOk};
ghost use Rattle.ring_law.specs.Refusals.{OnFault};
ghost use Rattle.jet_poly.specs.Jets.{IsJet, polynomial_of};
ghost use Rattle.kill_law.specs.Table.{row};
ghost use Rattle.kill_law.specs.Kill.{letters_of};
ghost use Rattle.kill_table.specs.Divisors.{HasUnits};
ghost use Rattle.coord_change.specs.MoveJets.{IsMoveExactly};
ghost use Rattle.split_lemma.specs.Splits.{AnyHigh};
ghost use Rattle.rules_corank2.specs.Extends.{base_kill, base_kill_work};
ghost use Rattle.rules_corank3.specs.Parts.{IsBase3};

use coord_change::ChangeOf;
use jet_poly::JetOf;
use kill_law::Part;
use kill_table::kill;
use ring_law::{Fault, Field};
use std::alloc::Global;

/// The base kill of degree d of a part: the terms of degree d in the first three variables that a
/// lead of the part divides give way to tails that no lead divides. A change of order 16 in all
/// variables of g, the identity for P8, which has no leads. The letters of the part are the
/// coefficients that g has at the monomials of its form; of T only the first has to be a unit.
///
/// Errors: `Range` only where a number that the kill or the inverse of its linear part forms has
/// height 2^120 or more.
pub fn extend3<F: Field>(
    alloc: Global,
    field: &F,
    part: Part,
    g: &JetOf<F>,
    d: u8,
) -> Result<ChangeOf<F>, Fault>
    requires ring { F.is_ring field.now }
    requires jet { IsJet (F.meaning field.now) g.now }
    requires three_variables { 3 ≤ g.now.n }
    requires at_most_8_variables { g.now.n ≤ 8 }
    requires base { IsBase3 part }
    requires units { let m = F.meaning field.now in HasUnits m.scalars (letters_of g.now.n m.scalars part (polynomial_of m g.now)) part }
    requires above { (row part).degree < d }
    ensures change { IfOk result (let m = F.meaning field.now in let n = g.now.n in IsMoveExactly m n 16 (base_kill n m.scalars part d (polynomial_of m g.now))) }
    ensures range { OnFault result (let m = F.meaning field.now in let n = g.now.n in AnyHigh n m.scalars (base_kill_work n m.scalars part d (polynomial_of m g.now))) }
{
    kill(alloc, field, part, g, d)
}
