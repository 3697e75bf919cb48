//! The finish of a part by the first monomial of its choices that is there.

ghost use Rattle.std.specs.Prelude.{◌≡◌, ◌≤◌, Some, IfOk, length};
ghost use Rattle.ring_law.specs.Refusals.{OnFault};
ghost use Rattle.jet_law.specs.Terms.{poly_of};
ghost use Rattle.kill_law.specs.Kill.{first};
ghost use Rattle.kill_law.specs.Table.{row};
ghost use Rattle.move_law.specs.Moves.{is_there};
ghost use Rattle.move_law.specs.Finish.{Choice as Decision, Finishing as Underway, choices as choices_of, chosen};
ghost use Rattle.rules_corank2.specs.Finishes.{IsUnderWay, IsStanding, IsFinishingHigh, IsGradedKillRegular};

use crate::finish_choice::{choices, first_choice};
use kill_law::Part;
use normal_forms::Family;
use ring_law::{Fault, Field};
use rules_corank2::{Finishing, graded_kill};
use std::alloc::Global;

/// The finish of Q, S or U: the first choice whose monomial is there decides, the graded kill of its
/// part follows, and the family is its own. Where no monomial is there, nothing is done, and there is
/// no family.
///
/// Errors: `Range` only where a kill, carrying the jet, or composing the moves forms a number of
/// height 2^120 or more.
pub fn finish_by_choice<F: Field>(
    alloc: Global,
    field: &F,
    part: Part,
    state: Finishing<F::Elem>,
) -> Result<(Finishing<F::Elem>, Option<Family>), Fault>
    requires ring { F.is_ring field.now }
    requires standing { IsStanding (F.meaning field.now) state }
    requires three_variables { 3 ≤ state.form.n }
    requires of_part { length (row part).weights ≡ 3 }
    requires regular { let m = F.meaning field.now in let n = state.form.n in let f = poly_of n m.value state.form.terms in (ch : Decision)
        → first (λ ch. is_there n m.scalars f ch.monomial) (choices_of part) ≡ Some ch → IsGradedKillRegular n m.scalars state.form.order ch.part f }
    ensures finished { IfOk result (λ r. let m = F.meaning field.now in let n = state.form.n in let o = state.form.order in (g : Underway n (F.Value field.now))
        → IsUnderWay m n o g state → IsUnderWay m n o (chosen n m.scalars o (choices_of part) g).0 r.0) }
    ensures family { IfOk result (λ r. let m = F.meaning field.now in let n = state.form.n in let o = state.form.order in (g : Underway n (F.Value field.now))
        → IsUnderWay m n o g state → (chosen n m.scalars o (choices_of part) g).1 ≡ r.1) }
    ensures range { OnFault result (let m = F.meaning field.now in let n = state.form.n in let o = state.form.order in (g : Underway n (F.Value field.now))
        → IsUnderWay m n o g state → IsFinishingHigh n m.scalars o (chosen n m.scalars o (choices_of part) g).0) }
{
    match first_choice(field, &state.form, choices(part)) {
        Some(choice) => {
            let next = graded_kill(alloc, field, choice.part, state)?;
            Ok((next, Some(choice.family)))
        }
        None => Ok((state, None)),
    }
}
