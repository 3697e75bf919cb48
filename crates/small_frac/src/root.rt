//! Rational roots of monic polynomials of degree 2 and 3.

ghost use Rattle.std.specs.Prelude.{◌≡◌, ℕ, ◌/◌, ◌<◌, ◌≤◌, ◌^◌, pos, ◌*ℤ◌, unsigned_abs, IfOk, IfErr, SomeIff, MatchOption};
ghost use Rattle.ring_theory.specs.Height.{lcm};
ghost use Rattle.ring_theory.specs.Rational.{rational_ops};
ghost use Rattle.ring_law.specs.Fraction.{IsFrac, frac_value};
ghost use Rattle.ring_law.specs.Refusals.{OnRange};
ghost use Rattle.ext_theory.specs.Extension.{cubic_at};
ghost use Rattle.small_frac.specs.Roots.{HasRoots, QuadraticIsHigh, QuadraticRefuses, DiscriminantRefuses, HalfSumRefuses, quadratic_of, discriminant, discriminant_height, half_sum, half_sum_height, HasLeastRoot, cubic_of, cubic_den, cubic_root_height};
ghost use Rattle.small_frac.specs.Scaled.{IsScaled, multiple_of};

use crate::Rationals;
use crate::arithmetic::{common_divisor, make_frac};
use crate::square::is_square;
use ring_law::{Frac, Op, Range, Ring};
use root_search::least_root;

const FOUR: Frac = Frac { num: 4, den: 1 };

const HALF: Frac = Frac { num: 1, den: 2 };

// m1*m1 - 4*m0.
fn discriminant(m1: Frac, m0: Frac) -> Result<Frac, Range>
    requires m1_valid { IsFrac m1 }
    requires m0_valid { IsFrac m0 }
    ensures elem { IfOk result (λ d. IsFrac d) }
    ensures value { IfOk result (λ d. frac_value d ≡ discriminant (quadratic_of m1 m0)) }
    ensures cause { OnRange result (2 ^ 120 ≤ discriminant_height (quadratic_of m1 m0)) }
    ensures refused { IfErr result (DiscriminantRefuses (quadratic_of m1 m0)) }
{
    let square = Rationals.mul(m1, m1)?;
    let product = Rationals.mul(FOUR, m0)?;
    Rationals.add(square, Rationals.neg(product))
}

// (x + y)/2.
fn half_sum(x: Frac, y: Frac) -> Result<Frac, Range>
    requires x_valid { IsFrac x }
    requires y_valid { IsFrac y }
    ensures elem { IfOk result (λ d. IsFrac d) }
    ensures value { IfOk result (λ d. frac_value d ≡ half_sum (frac_value x) (frac_value y)) }
    ensures cause { OnRange result (2 ^ 120 ≤ half_sum_height (frac_value x) (frac_value y)) }
    ensures refused { IfErr result (HalfSumRefuses (frac_value x) (frac_value y)) }
{
    let sum = Rationals.add(x, y)?;
    Rationals.mul(sum, HALF)
}

/// Both rational roots of `t^2 + m1*t + m0`, the smaller first, or `None` where there is none.
///
/// Errors: `Range`, only where an operation of `m1*m1 - 4*m0`, `(-m1 - r)/2` or `(-m1 + r)/2` is refused, r the root of the first;
/// it is the refusal of that operation, and the operation has height 2^120 or more.
pub fn rational_root_quadratic(m1: Frac, m0: Frac) -> Result<Option<(Frac, Frac)>, Range>
    requires m1_valid { IsFrac m1 }
    requires m0_valid { IsFrac m0 }
    ensures roots { IfOk result (HasRoots m1 m0) }
    ensures cause { OnRange result (QuadraticIsHigh (quadratic_of m1 m0)) }
    ensures refused { IfErr result (QuadraticRefuses (quadratic_of m1 m0)) }
{
    let square = discriminant(m1, m0)?;
    let Some(root) = is_square(square) else {
        return Ok(None);
    };
    let sum = Rationals.neg(m1);
    let opposite = Rationals.neg(root);
    let low = half_sum(sum, opposite)?;
    let high = half_sum(sum, root)?;
    Ok(Some((low, high)))
}

// 2^120.
const HIGH: u128 = 0x100_0000_0000_0000_0000_0000_0000_0000;

// The whole coefficients of a cubic whose roots are `den` times those of another one.
#[derive(Clone, Copy, Debug)]
struct Scaled {
    den: u128,
    a: i128,
    b: i128,
    c: i128,
}

// The least common multiple, where it is below 2^120.
fn small_multiple(a: u128, b: u128) -> Option<u128>
    requires { 0 < b }
    ensures { SomeIff result (lcm a b < 2 ^ 120) (lcm a b) }
{
    let multiple = (a / common_divisor(a, b)).checked_mul(b)?;
    if multiple < HIGH {
        Some(multiple)
    } else {
        None
    }
}

// x*k, where it is below 2^120 in absolute value.
fn small_product(x: i128, k: u128) -> Option<i128>
    requires { k < 2 ^ 120 }
    ensures { SomeIff result (unsigned_abs (x *ℤ pos k) < 2 ^ 120) (x *ℤ pos k) }
{
    let product = x.checked_mul(k as i128)?;
    if product.unsigned_abs() < HIGH {
        Some(product)
    } else {
        None
    }
}

// q*d for a multiple d of the denominator of q, where it is below 2^120 in absolute value.
fn multiple(q: Frac, d: u128) -> Option<i128>
    requires valid { IsFrac q }
    requires small { d < 2 ^ 120 }
    ensures { SomeIff result (unsigned_abs (multiple_of q d) < 2 ^ 120) (multiple_of q d) }
{
    small_product(q.num, d / q.den.unsigned_abs())
}

// The least common denominator, where it is below 2^120.
fn common_denominator(m2: Frac, m1: Frac, m0: Frac) -> Option<u128>
    requires m2_valid { IsFrac m2 }
    requires m1_valid { IsFrac m1 }
    requires m0_valid { IsFrac m0 }
    ensures { SomeIff result (cubic_den (cubic_of m2 m1 m0) < 2 ^ 120) (cubic_den (cubic_of m2 m1 m0)) }
{
    let first = small_multiple(m0.den.unsigned_abs(), 1)?;
    let second = small_multiple(m1.den.unsigned_abs(), first)?;
    small_multiple(m2.den.unsigned_abs(), second)
}

// The least common denominator d of m2, m1 and m0 with d*m2, d^2*m1 and d^3*m0, or `None` where one of them is 2^120 or more in absolute value.
fn scaled_coefficients(m2: Frac, m1: Frac, m0: Frac) -> Option<Scaled>
    requires m2_valid { IsFrac m2 }
    requires m1_valid { IsFrac m1 }
    requires m0_valid { IsFrac m0 }
    ensures { MatchOption result (2 ^ 120 ≤ cubic_root_height (cubic_of m2 m1 m0)) (λ s. IsScaled m2 m1 m0 s) }
{
    let den = common_denominator(m2, m1, m0)?;
    let a = multiple(m2, den)?;
    let b = small_product(multiple(m1, den)?, den)?;
    let c = small_product(small_product(multiple(m0, den)?, den)?, den)?;
    Some(Scaled { den, a, b, c })
}

/// The least rational root of `t^3 + m2*t^2 + m1*t + m0`, or `None` where there is none.
///
/// Errors: `Range`, only where d, `d*m2`, `d^2*m1` or `d^3*m0` is 2^120 or more in absolute value, d the least common denominator.
/// It names m2 and m0, and the operation `Root`.
pub fn rational_root_cubic(m2: Frac, m1: Frac, m0: Frac) -> Result<Option<Frac>, Range>
    requires m2_valid { IsFrac m2 }
    requires m1_valid { IsFrac m1 }
    requires m0_valid { IsFrac m0 }
    ensures root { IfOk result (HasLeastRoot (cubic_at rational_ops (cubic_of m2 m1 m0))) }
    ensures cause { OnRange result (2 ^ 120 ≤ cubic_root_height (cubic_of m2 m1 m0)) }
    ensures names { IfErr result (λ e. e ≡ record { a = m2; b = m0; op = Op.Root }) }
{
    let Some(scaled) = scaled_coefficients(m2, m1, m0) else {
        return Err(Range {
            a: m2,
            b: m0,
            op: Op::Root,
        });
    };
    match least_root(scaled.a, scaled.b, scaled.c) {
        None => Ok(None),
        Some(root) => Ok(make_frac(root, scaled.den as i128)),
    }
}
