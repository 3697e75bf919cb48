//! The graded kill of a finish: the kills of a graded part, grade by grade.

ghost use Rattle.std.specs.Prelude.{◌≡◌, ◌<◌, ◌≤◌, IfOk, length};
ghost use Rattle.ring_law.specs.Refusals.{OnFault};
ghost use Rattle.jet_law.specs.Terms.{poly_of};
ghost use Rattle.kill_law.specs.Table.{row};
ghost use Rattle.kill_law.specs.Kill.{letters_of};
ghost use Rattle.kill_table.specs.Divisors.{HasNonzeroDivisors};
ghost use Rattle.move_law.specs.Finish.{Finishing as Underway, kill_of, graded_kill as graded_kill_of};
ghost use Rattle.rules_corank2.specs.Finishes.{IsUnderWay, IsStanding, IsFinishingHigh, IsGradedKillRegular, last_grade as last_grade_of};

use crate::finish_state::{Finishing, moved, up_to};
use kill_leads::grading;
use kill_table::{Part, kill};
use ring_law::{Fault, Field};
use std::alloc::Global;

/// The kill of one grade.
///
/// Errors: `Range` only where the kill, carrying the jet, or composing the moves forms a number of
/// height 2^120 or more.
fn kill_grade<F: Field>(
    alloc: Global,
    field: &F,
    part: Part,
    state: Finishing<F::Elem>,
    grade: u8,
) -> Result<Finishing<F::Elem>, Fault>
    requires ring { F.is_ring field.now }
    requires standing { IsStanding (F.meaning field.now) state }
    requires divisors { let m = F.meaning field.now in let n = state.form.n in HasNonzeroDivisors m.scalars (letters_of n m.scalars part (poly_of n m.value state.form.terms)) part }
    requires of_part { length (row part).weights ≤ state.form.n }
    requires above { (row part).degree < grade }
    ensures killed { IfOk result (λ next. let m = F.meaning field.now in let n = state.form.n in let o = state.form.order in (g : Underway n (F.Value field.now))
        → IsUnderWay m n o g state → IsUnderWay m n o (kill_of n m.scalars o part grade g) next) }
    ensures range { OnFault result (let m = F.meaning field.now in let n = state.form.n in let o = state.form.order in (g : Underway n (F.Value field.now))
        → IsUnderWay m n o g state → IsFinishingHigh n m.scalars o (kill_of n m.scalars o part grade g)) }
{
    let whole = kill(alloc, field, part, &state.form, grade)?;
    let change = up_to(alloc, field, &whole, state.form.order())?;
    let next = moved(alloc, field, state, change)?;
    Ok(next)
}

/// The order times the largest weight of a part.
fn last_grade(part: Part, order: u8) -> u8
    requires at_most_16 { order ≤ 16 }
    ensures { result ≡ last_grade_of part order }
{
    let ([x, y, z, ..], _) = grading(part);
    order * x.max(y).max(z)
}

/// The kills of the grades above that of the part, up to the order times its largest weight.
///
/// Errors: `Range` only where one of them, carrying the jet, or composing the moves forms a number of
/// height 2^120 or more.
pub fn graded_kill<F: Field>(
    alloc: Global,
    field: &F,
    part: Part,
    state: Finishing<F::Elem>,
) -> Result<Finishing<F::Elem>, Fault>
    requires ring { F.is_ring field.now }
    requires standing { IsStanding (F.meaning field.now) state }
    requires of_part { length (row part).weights ≤ state.form.n }
    requires regular { let m = F.meaning field.now in let n = state.form.n in IsGradedKillRegular n m.scalars state.form.order part (poly_of n m.value state.form.terms) }
    ensures killed { IfOk result (λ next. let m = F.meaning field.now in let n = state.form.n in let o = state.form.order in (g : Underway n (F.Value field.now))
        → IsUnderWay m n o g state → IsUnderWay m n o (graded_kill_of n m.scalars o part g) next) }
    ensures range { OnFault result (let m = F.meaning field.now in let n = state.form.n in let o = state.form.order in (g : Underway n (F.Value field.now))
        → IsUnderWay m n o g state → IsFinishingHigh n m.scalars o (graded_kill_of n m.scalars o part g)) }
{
    let (_, degree) = grading(part);
    let last = last_grade(part, state.form.order());
    let mut reached = state;
    for grade in degree + 1..last + 1 {
        let next = kill_grade(alloc, field, part, reached, grade)?;
        reached = next;
    }
    Ok(reached)
}
