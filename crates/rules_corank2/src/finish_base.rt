//! The finish of a base part.

ghost use Rattle.std.specs.Prelude.{◌≡◌, ◌<◌, ◌≤◌, IfSome};
ghost use Rattle.jet_law.specs.Terms.{poly_of};
ghost use Rattle.jet_poly.specs.Jets.{IsJet};
ghost use Rattle.move_law.specs.Finish.{Finishing as Underway, finish_part};
ghost use Rattle.rules_corank2.specs.Finishes.{IsUnderWay, IsStanding};
ghost use Rattle.rules_corank2.specs.Finished.{IsFinished, IsStill};

use crate::finish_choice::least;
use crate::finish_state::Finishing;
use jet_poly::JetOf;
use kill_table::Part;
use normal_forms::Family;
use ring_law::Ring;

/// The finish of a base part: the composite of its moves and the jet that they have reached, and the
/// family that the jet may be a form of, or `None` where a wanted power is missing.
#[derive(Drop)]
pub struct Finish<E> {
    pub reached: Finishing<E>,
    pub family: Option<Family>,
}

/// The family of a part whose finish makes no move: D4, X9, and D(m+1) or T(2,4,m) by the least power
/// y^m.
#[tactic(auto, unfolding(move_law::specs::Finish::finish_part, crate::specs::Finished::is_still))]
fn still_family<R: Ring>(ring: &R, part: Part, f: &JetOf<R>) -> Option<Family>
    requires ring { R.is_ring ring.now }
    requires still { IsStill part }
    requires jet { IsJet (R.meaning ring.now) f.now }
    requires two_variables { 2 ≤ f.now.n }
    requires at_most_8_variables { f.now.n ≤ 8 }
    requires order_at_most_16 { f.now.order ≤ 16 }
    ensures { let m = R.meaning ring.now in let n = f.now.n in (g : Underway n (R.Value ring.now)) → g.form ≡ poly_of n m.value f.now.terms
        → finish_part n m.scalars f.now.order part g ≡ (g, result) }
{
    match part {
        Part::D4 => Some(Family::D(4)),
        Part::X9 => Some(Family::X9),
        Part::D => match least(ring, f, 1) {
            Some(m) => Some(Family::D(m + 1)),
            None => None,
        },
        Part::X => match least(ring, f, 1) {
            Some(m) => Some(Family::T(2, 4, m)),
            None => None,
        },
        _ => unreachable!(),
    }
}

/// The finish of D4, D, X9 and X: no move, and the family.
pub fn finish_still<R: Ring>(ring: &R, part: Part, state: Finishing<R::Elem>) -> Finish<R::Elem>
    requires ring { R.is_ring ring.now }
    requires still { IsStill part }
    requires standing { IsStanding (R.meaning ring.now) state }
    requires two_variables { 2 ≤ state.form.n }
    ensures finished { let m = R.meaning ring.now in let n = state.form.n in let o = state.form.order in (g : Underway n (R.Value ring.now))
        → IsUnderWay m n o g state → IsFinished m n o (finish_part n m.scalars o part g) result }
{
    let family = still_family(ring, part, &state.form);
    Finish {
        reached: state,
        family,
    }
}
