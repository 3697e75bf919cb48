//! Values of formulas over any ring: sums of whole numbers times products of powers of letters.
#![tactic(auto)]

ghost use Rattle.std.specs.Prelude.{◌≡◌, ◌≤◌, IfOk, All, length, map};
ghost use Rattle.ring_law.specs.Refusals.{OnRange};
ghost use Rattle.ring_theory.specs.Rational.{rational};
ghost use Rattle.jet_law.specs.Heights.{IsHigh};
ghost use Rattle.ring_formula.specs.Formulas.{multiplied as multiplied_value, multiplied_heights, summand_value, summand_heights, formula_value, formula_heights};

use ring_law::{Frac, Range, Ring};

/// A whole number times the product of the letters to these exponents, of which the first belongs
/// to the first letter. Places past the last letter are not read.
#[derive(Clone, Copy, Debug)]
pub struct Summand {
    pub number: i32,
    pub exponents: [u8; 10],
}

// A whole number as an element of the ring.
fn whole_number<R: Ring>(ring: &R, number: i32) -> R::Elem
    requires { R.is_ring ring.now }
    ensures elem { (R.meaning ring.now).is_elem result }
    ensures value { let m = R.meaning ring.now in m.value result ≡ m.scalars.rational (rational number 1) }
{
    ring.inject(Frac {
        num: i128::from(number),
        den: 1,
    })
}

// v * x^k.
fn multiplied<R: Ring>(ring: &R, v: R::Elem, x: R::Elem, k: u8) -> Result<R::Elem, Range>
    requires ring { R.is_ring ring.now }
    requires factor { (R.meaning ring.now).is_elem v }
    requires base { (R.meaning ring.now).is_elem x }
    ensures elem { IfOk result (R.meaning ring.now).is_elem }
    ensures value { IfOk result (λ y. let m = R.meaning ring.now in m.value y ≡ multiplied_value m.scalars (m.value v) (m.value x) k) }
    ensures range { OnRange result (let m = R.meaning ring.now in IsHigh (multiplied_heights m.scalars (m.value v) (m.value x) k)) }
{
    let mut y = v;
    for _i in 0..k {
        y = ring.mul(y, x)?;
    }
    Ok(y)
}

// The value of one summand.
fn value_of<R: Ring>(ring: &R, e: Summand, letters: &[R::Elem]) -> Result<R::Elem, Range>
    requires ring { R.is_ring ring.now }
    requires letters { All (R.meaning ring.now).is_elem letters.now }
    requires at_most_10_letters { length letters.now ≤ 10 }
    ensures elem { IfOk result (R.meaning ring.now).is_elem }
    ensures value { IfOk result (λ y. let m = R.meaning ring.now in m.value y ≡ summand_value m.scalars (map m.value letters.now) e) }
    ensures range { OnRange result (let m = R.meaning ring.now in IsHigh (summand_heights m.scalars (map m.value letters.now) e)) }
{
    let mut y = whole_number(ring, e.number);
    for i in 0..letters.len() {
        y = multiplied(ring, y, letters[i], e.exponents[i])?;
    }
    Ok(y)
}

/// The value of a formula at some letters: the sum of its summands.
///
/// Errors: `Range` only where a product that some summand forms, from left to right, or the sum of
/// all summands has height 2^120 or more.
pub fn evaluate<R: Ring>(
    ring: &R,
    formula: &[Summand],
    letters: &[R::Elem],
) -> Result<R::Elem, Range>
    requires ring { R.is_ring ring.now }
    requires letters { All (R.meaning ring.now).is_elem letters.now }
    requires at_most_10_letters { length letters.now ≤ 10 }
    ensures elem { IfOk result (R.meaning ring.now).is_elem }
    ensures value { IfOk result (λ y. let m = R.meaning ring.now in m.value y ≡ formula_value m.scalars (map m.value letters.now) formula.now) }
    ensures range { OnRange result (let m = R.meaning ring.now in IsHigh (formula_heights m.scalars (map m.value letters.now) formula.now)) }
{
    let mut sum = ring.zero();
    for e in formula {
        let value = value_of(ring, *e, letters)?;
        sum = ring.add(sum, value)?;
    }
    Ok(sum)
}
