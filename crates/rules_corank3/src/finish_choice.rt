//! Which monomials decide on the family of a finish.

ghost use Rattle.std.specs.Prelude.{◌≡◌, ◌≤◌, length, map};
ghost use Rattle.jet_poly.specs.Jets.{IsJet, polynomial_of};
ghost use Rattle.kill_law.specs.Kill.{first};
ghost use Rattle.kill_law.specs.Table.{row};
ghost use Rattle.move_law.specs.Moves.{is_there as is_there_in};
ghost use Rattle.move_law.specs.Finish.{choices as choices_of};
ghost use Rattle.rules_corank3.specs.Finishes.{choice_of};

use crate::monomials::is_there;
use jet_poly::JetOf;
use kill_law::Part;
use normal_forms::Family;
use ring_law::Ring;

/// A monomial, by its exponents of x, y and z, that decides on a graded part and a family where it
/// is there.
#[derive(Clone, Copy, Debug)]
pub struct Choice {
    pub monomial: [u8; 3],
    pub part: Part,
    pub family: Family,
}

/// The choices of Q.
static Q: [Choice; 3] = [
    Choice {
        monomial: [0, 4, 0],
        part: Part::Q10,
        family: Family::Q10,
    },
    Choice {
        monomial: [1, 3, 0],
        part: Part::Q11,
        family: Family::Q11,
    },
    Choice {
        monomial: [0, 5, 0],
        part: Part::Q12,
        family: Family::Q12,
    },
];

/// The choices of S.
static S: [Choice; 2] = [
    Choice {
        monomial: [4, 0, 0],
        part: Part::S11,
        family: Family::S11,
    },
    Choice {
        monomial: [3, 1, 0],
        part: Part::S12,
        family: Family::S12,
    },
];

/// The choice of U.
static U: [Choice; 1] = [Choice {
    monomial: [0, 0, 4],
    part: Part::U12,
    family: Family::U12,
}];

/// The choices of a part in three variables, in the order in which they decide.
#[tactic(auto, unfolding(kill_law::specs::Table::row, move_law::specs::Finish::choices))]
pub fn choices(part: Part) -> &'static [Choice]
    requires three_variables { length (row part).weights ≡ 3 }
    ensures { map choice_of result.now ≡ choices_of part }
{
    match part {
        Part::Q => &Q,
        Part::S => &S,
        Part::U => &U,
        _ => &[],
    }
}

/// The first of some choices whose monomial is there.
pub fn first_choice<R: Ring>(ring: &R, f: &JetOf<R>, choices: &[Choice]) -> Option<Choice>
    requires ring { R.is_ring ring.now }
    requires jet { IsJet (R.meaning ring.now) f.now }
    requires three_variables { 3 ≤ f.now.n }
    requires at_most_8_variables { f.now.n ≤ 8 }
    ensures { let m = R.meaning ring.now in result ≡ first (λ ch. is_there_in f.now.n m.scalars (polynomial_of m f.now) ch.monomial) choices.now }
{
    for choice in choices {
        if is_there(ring, f, choice.monomial) {
            return Some(*choice);
        }
    }
    None
}
