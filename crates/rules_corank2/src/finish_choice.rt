//! Which monomials decide on the family of a finish.

ghost use Rattle.std.specs.Prelude.{◌≡◌, ◌<◌, ◌≤◌, [], ◌∷◌, slice_set, IfSome, length, map};
ghost use Rattle.jet_law.specs.Terms.{poly_of};
ghost use Rattle.jet_poly.specs.Jets.{IsJet};
ghost use Rattle.coord_change.specs.Moves.{at as at_of};
ghost use Rattle.kill_law.specs.Kill.{first};
ghost use Rattle.kill_law.specs.Table.{row};
ghost use Rattle.move_law.specs.Moves.{is_there as is_there_of, power_exponents};
ghost use Rattle.move_law.specs.Patterns.{two};
ghost use Rattle.move_law.specs.Finish.{choices as choices_of, least as least_of};
ghost use Rattle.rules_corank2.specs.Finishes.{choice_of};

use jet_poly::{JetOf, coef};
use kill_table::Part;
use mono_exp::Exp;
use normal_forms::Family;
use ring_law::Ring;

/// A monomial, by its exponents of x and y, that decides on a graded part and a family where it is
/// there.
#[derive(Clone, Copy, Debug)]
pub struct Choice {
    pub x: u8,
    pub y: u8,
    pub part: Part,
    pub family: Family,
}

/// The choices of J.
static J: [Choice; 8] = [
    Choice {
        x: 0,
        y: 4,
        part: Part::E6,
        family: Family::E6,
    },
    Choice {
        x: 1,
        y: 3,
        part: Part::E7,
        family: Family::E7,
    },
    Choice {
        x: 0,
        y: 5,
        part: Part::E8,
        family: Family::E8,
    },
    Choice {
        x: 1,
        y: 4,
        part: Part::J10,
        family: Family::J10,
    },
    Choice {
        x: 0,
        y: 6,
        part: Part::J10,
        family: Family::J10,
    },
    Choice {
        x: 0,
        y: 7,
        part: Part::E12,
        family: Family::E12,
    },
    Choice {
        x: 1,
        y: 5,
        part: Part::E13,
        family: Family::E13,
    },
    Choice {
        x: 0,
        y: 8,
        part: Part::E14,
        family: Family::E14,
    },
];

/// The choices of Z.
static Z: [Choice; 3] = [
    Choice {
        x: 0,
        y: 5,
        part: Part::Z11,
        family: Family::Z11,
    },
    Choice {
        x: 1,
        y: 4,
        part: Part::Z12,
        family: Family::Z12,
    },
    Choice {
        x: 0,
        y: 6,
        part: Part::Z13,
        family: Family::Z13,
    },
];

/// The choices of W.
static W: [Choice; 2] = [
    Choice {
        x: 0,
        y: 5,
        part: Part::W12,
        family: Family::W12,
    },
    Choice {
        x: 1,
        y: 4,
        part: Part::W13,
        family: Family::W13,
    },
];

/// The choices of a part in two variables, in the order in which they decide.
#[tactic(auto, unfolding(kill_law::specs::Table::row, move_law::specs::Finish::choices))]
pub fn choices(part: Part) -> &'static [Choice]
    requires two_variables { length (row part).weights ≡ 2 }
    ensures { map choice_of result.now ≡ choices_of part }
{
    match part {
        Part::J => &J,
        Part::Z => &Z,
        Part::W => &W,
        _ => &[],
    }
}

/// The monomial x^i y^k.
pub(crate) fn two_powers(i: u8, k: u8) -> Exp
    ensures { result.e ≡ i ∷ k ∷ 0 ∷ 0 ∷ 0 ∷ 0 ∷ 0 ∷ 0 ∷ [] }
{
    Exp {
        e: [i, k, 0, 0, 0, 0, 0, 0],
    }
}

/// The coefficient of x^i y^k.
pub fn at<R: Ring>(ring: &R, f: &JetOf<R>, i: u8, k: u8) -> R::Elem
    requires ring { R.is_ring ring.now }
    requires jet { IsJet (R.meaning ring.now) f.now }
    requires two_variables { 2 ≤ f.now.n }
    requires at_most_8_variables { f.now.n ≤ 8 }
    ensures elem { (R.meaning ring.now).is_elem result }
    ensures value { let m = R.meaning ring.now in let n = f.now.n in m.value result ≡ at_of n m.scalars (poly_of n m.value f.now.terms) (two i k) }
{
    coef(ring, f, two_powers(i, k))
}

/// True where the coefficient of x^i y^k is not zero.
fn is_there<R: Ring>(ring: &R, f: &JetOf<R>, i: u8, k: u8) -> bool
    requires ring { R.is_ring ring.now }
    requires jet { IsJet (R.meaning ring.now) f.now }
    requires two_variables { 2 ≤ f.now.n }
    requires at_most_8_variables { f.now.n ≤ 8 }
    ensures { let m = R.meaning ring.now in let n = f.now.n in result ≡ is_there_of n m.scalars (poly_of n m.value f.now.terms) (two i k) }
{
    !ring.eq(at(ring, f, i, k), ring.zero())
}

/// The first of some choices whose monomial is there.
pub fn first_choice<R: Ring>(ring: &R, f: &JetOf<R>, choices: &[Choice]) -> Option<Choice>
    requires ring { R.is_ring ring.now }
    requires jet { IsJet (R.meaning ring.now) f.now }
    requires two_variables { 2 ≤ f.now.n }
    requires at_most_8_variables { f.now.n ≤ 8 }
    ensures { let m = R.meaning ring.now in let n = f.now.n in result ≡ first (λ ch. is_there_of n m.scalars (poly_of n m.value f.now.terms) (two ch.x ch.y)) choices.now }
{
    for choice in choices {
        if is_there(ring, f, choice.x, choice.y) {
            return Some(*choice);
        }
    }
    None
}

/// The monomial x(i)^m.
fn power(i: u8, m: u8) -> Exp
    requires { i < 8 }
    ensures { result.e ≡ slice_set (0 ∷ 0 ∷ 0 ∷ 0 ∷ 0 ∷ 0 ∷ 0 ∷ 0 ∷ []) i m }
{
    let mut e = [0; 8];
    e[usize::from(i)] = m;
    Exp { e }
}

/// The coefficient of x(i)^m.
pub fn power_at<R: Ring>(ring: &R, f: &JetOf<R>, i: u8, m: u8) -> R::Elem
    requires ring { R.is_ring ring.now }
    requires jet { IsJet (R.meaning ring.now) f.now }
    requires at_most_8_variables { f.now.n ≤ 8 }
    requires inside { i < f.now.n }
    ensures elem { (R.meaning ring.now).is_elem result }
    ensures value { let m0 = R.meaning ring.now in let n = f.now.n in m0.value result ≡ at_of n m0.scalars (poly_of n m0.value f.now.terms) (power_exponents n i m) }
{
    coef(ring, f, power(i, m))
}

/// True where the coefficient of x(i)^m is not zero.
fn has_power<R: Ring>(ring: &R, f: &JetOf<R>, i: u8, m: u8) -> bool
    requires ring { R.is_ring ring.now }
    requires jet { IsJet (R.meaning ring.now) f.now }
    requires at_most_8_variables { f.now.n ≤ 8 }
    requires inside { i < f.now.n }
    ensures { let m0 = R.meaning ring.now in let n = f.now.n in result ≡ is_there_of n m0.scalars (poly_of n m0.value f.now.terms) (power_exponents n i m) }
{
    !ring.eq(power_at(ring, f, i, m), ring.zero())
}

/// The least exponent, from 2 to the order, of a pure power of variable i.
pub fn least<R: Ring>(ring: &R, f: &JetOf<R>, i: u8) -> Option<u8>
    requires ring { R.is_ring ring.now }
    requires jet { IsJet (R.meaning ring.now) f.now }
    requires at_most_8_variables { f.now.n ≤ 8 }
    requires inside { i < f.now.n }
    requires order_at_most_16 { f.now.order ≤ 16 }
    ensures value { let m = R.meaning ring.now in let n = f.now.n in result ≡ least_of n m.scalars f.now.order i (poly_of n m.value f.now.terms) }
    ensures within { IfSome result (λ m. m ≤ f.now.order) }
{
    for m in 2..f.order() + 1 {
        if has_power(ring, f, i, m) {
            return Some(m);
        }
    }
    None
}
