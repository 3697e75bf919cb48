//! Invariants of binary quartics, and the discriminants that tell whether a form is degenerate.

ghost use Rattle.std.specs.Prelude.{◌≡◌, ◌<◌, ◌≤◌, ◌^◌, IfOk, All, length, map};
ghost use Rattle.ring_law.specs.Refusals.{OnRange};
ghost use Rattle.jet_law.specs.Heights.{IsHigh};
ghost use Rattle.normal_forms.specs.Units.{over_number, over_height, quartic_i, quartic_j, quartic_discriminant, triple_discriminant, invariants_heights, quartic_heights, triple_heights};

use ring_formula::{Summand, evaluate};
use ring_law::{Frac, Range, Ring};

/// `I = a*e - 4*b*d + 3*c^2`, in the letters a, b, c, d, e.
pub const QUARTIC_I: [Summand; 3] = [
    Summand {
        number: 1,
        exponents: [1, 0, 0, 0, 1, 0, 0, 0, 0, 0],
    },
    Summand {
        number: -4,
        exponents: [0, 1, 0, 1, 0, 0, 0, 0, 0, 0],
    },
    Summand {
        number: 3,
        exponents: [0, 0, 2, 0, 0, 0, 0, 0, 0, 0],
    },
];

/// `J = a*c*e + 2*b*c*d - a*d^2 - b^2*e - c^3`, in the letters a, b, c, d, e.
pub const QUARTIC_J: [Summand; 5] = [
    Summand {
        number: 1,
        exponents: [1, 0, 1, 0, 1, 0, 0, 0, 0, 0],
    },
    Summand {
        number: 2,
        exponents: [0, 1, 1, 1, 0, 0, 0, 0, 0, 0],
    },
    Summand {
        number: -1,
        exponents: [1, 0, 0, 2, 0, 0, 0, 0, 0, 0],
    },
    Summand {
        number: -1,
        exponents: [0, 2, 0, 0, 1, 0, 0, 0, 0, 0],
    },
    Summand {
        number: -1,
        exponents: [0, 0, 3, 0, 0, 0, 0, 0, 0, 0],
    },
];

/// `I^3 - 27*J^2`, in the letters I and J.
pub const QUARTIC_DISCRIMINANT: [Summand; 2] = [
    Summand {
        number: 1,
        exponents: [3, 0, 0, 0, 0, 0, 0, 0, 0, 0],
    },
    Summand {
        number: -27,
        exponents: [0, 2, 0, 0, 0, 0, 0, 0, 0, 0],
    },
];

/// `1728*I^3`, in the letter I.
pub const QUARTIC_NUMERATOR: [Summand; 1] = [Summand {
    number: 1728,
    exponents: [3, 0, 0, 0, 0, 0, 0, 0, 0, 0],
}];

/// `4*c2^3 + 27*c1*c3^2`, in the letters c1, c2, c3.
pub const TRIPLE_DISCRIMINANT: [Summand; 2] = [
    Summand {
        number: 4,
        exponents: [0, 3, 0, 0, 0, 0, 0, 0, 0, 0],
    },
    Summand {
        number: 27,
        exponents: [1, 0, 2, 0, 0, 0, 0, 0, 0, 0],
    },
];

/// `6912*c2^3`, in the letter c2.
pub const TRIPLE_NUMERATOR: [Summand; 1] = [Summand {
    number: 6912,
    exponents: [3, 0, 0, 0, 0, 0, 0, 0, 0, 0],
}];

// v / n.
fn over<R: Ring>(ring: &R, n: u8, v: R::Elem) -> Result<R::Elem, Range>
    requires ring { R.is_ring ring.now }
    requires elem { (R.meaning ring.now).is_elem v }
    requires divisor { 0 < n }
    ensures elem { IfOk result (R.meaning ring.now).is_elem }
    ensures value { IfOk result (λ y. let m = R.meaning ring.now in m.value y ≡ over_number m.scalars n (m.value v)) }
    ensures range { OnRange result (let m = R.meaning ring.now in 2 ^ 120 ≤ over_height m.scalars n (m.value v)) }
{
    let inverse = ring.inject(Frac {
        num: 1,
        den: i128::from(n),
    });
    ring.mul(inverse, v)
}

/// The invariants I and J of a binary quartic, by its plain coefficients from `x^4` to `y^4`.
///
/// Errors: `Range` only where a number that the formulas form has height 2^120 or more.
/// Source: P. J. Olver, Classical Invariant Theory, chapter 2.
pub fn quartic_invariants<R: Ring>(ring: &R, q: &[R::Elem]) -> Result<(R::Elem, R::Elem), Range>
    requires ring { R.is_ring ring.now }
    requires elems { All (R.meaning ring.now).is_elem q.now }
    requires coefficients { length q.now ≡ 5 }
    ensures i_elem { IfOk result (λ p. (R.meaning ring.now).is_elem p.0) }
    ensures j_elem { IfOk result (λ p. (R.meaning ring.now).is_elem p.1) }
    ensures i_value { IfOk result (λ p. let m = R.meaning ring.now in m.value p.0 ≡ quartic_i m.scalars (map m.value q.now)) }
    ensures j_value { IfOk result (λ p. let m = R.meaning ring.now in m.value p.1 ≡ quartic_j m.scalars (map m.value q.now)) }
    ensures range { OnRange result (let m = R.meaning ring.now in IsHigh (invariants_heights m.scalars (map m.value q.now))) }
{
    let b = over(ring, 4, q[1])?;
    let c = over(ring, 6, q[2])?;
    let d = over(ring, 4, q[3])?;
    let letters = [q[0], b, c, d, q[4]];
    let i = evaluate(ring, &QUARTIC_I, &letters)?;
    let j = evaluate(ring, &QUARTIC_J, &letters)?;
    Ok((i, j))
}

/// The invariant I and the discriminant `I^3 - 27*J^2` of a binary quartic, by its plain coefficients
/// from `x^4` to `y^4`.
///
/// Errors: `Range` only where a number that the formulas form has height 2^120 or more.
pub fn quartic_i_and_discriminant<R: Ring>(
    ring: &R,
    q: &[R::Elem],
) -> Result<(R::Elem, R::Elem), Range>
    requires ring { R.is_ring ring.now }
    requires elems { All (R.meaning ring.now).is_elem q.now }
    requires coefficients { length q.now ≡ 5 }
    ensures i_elem { IfOk result (λ p. (R.meaning ring.now).is_elem p.0) }
    ensures discriminant_elem { IfOk result (λ p. (R.meaning ring.now).is_elem p.1) }
    ensures i_value { IfOk result (λ p. let m = R.meaning ring.now in m.value p.0 ≡ quartic_i m.scalars (map m.value q.now)) }
    ensures discriminant_value { IfOk result (λ p. let m = R.meaning ring.now in m.value p.1 ≡ quartic_discriminant m.scalars (map m.value q.now)) }
    ensures range { OnRange result (let m = R.meaning ring.now in IsHigh (quartic_heights m.scalars (map m.value q.now))) }
{
    let (i, j) = quartic_invariants(ring, q)?;
    let discriminant = evaluate(ring, &QUARTIC_DISCRIMINANT, &[i, j])?;
    Ok((i, discriminant))
}

/// The discriminant `I^3 - 27*J^2` of a binary quartic, up to a factor, by its plain coefficients
/// from `x^4` to `y^4`. It is 0 exactly where a line divides the quartic twice.
///
/// Errors: `Range` only where a number that the formulas form has height 2^120 or more.
pub fn quartic_discriminant_of<R: Ring>(ring: &R, q: &[R::Elem]) -> Result<R::Elem, Range>
    requires ring { R.is_ring ring.now }
    requires elems { All (R.meaning ring.now).is_elem q.now }
    requires coefficients { length q.now ≡ 5 }
    ensures elem { IfOk result (R.meaning ring.now).is_elem }
    ensures value { IfOk result (λ y. let m = R.meaning ring.now in m.value y ≡ quartic_discriminant m.scalars (map m.value q.now)) }
    ensures range { OnRange result (let m = R.meaning ring.now in IsHigh (quartic_heights m.scalars (map m.value q.now))) }
{
    let (_, discriminant) = quartic_i_and_discriminant(ring, q)?;
    Ok(discriminant)
}

/// The discriminant `4*c2^3 + 27*c1*c3^2` of `c1*x^3 + c2*x*y^4 + c3*y^6`, a cubic in x and y^2 up
/// to a factor.
///
/// Errors: `Range` only where a number that the formula forms has height 2^120 or more.
pub fn triple_discriminant_of<R: Ring>(ring: &R, c: &[R::Elem]) -> Result<R::Elem, Range>
    requires ring { R.is_ring ring.now }
    requires elems { All (R.meaning ring.now).is_elem c.now }
    requires coefficients { length c.now ≡ 3 }
    ensures elem { IfOk result (R.meaning ring.now).is_elem }
    ensures value { IfOk result (λ y. let m = R.meaning ring.now in m.value y ≡ triple_discriminant m.scalars (map m.value c.now)) }
    ensures range { OnRange result (let m = R.meaning ring.now in IsHigh (triple_heights m.scalars (map m.value c.now))) }
{
    evaluate(ring, &TRIPLE_DISCRIMINANT, c)
}
