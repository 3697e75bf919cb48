//! Sums, products, opposites and inverses of fractions with parts of at most 127 bits.

ghost use Rattle.std.specs.Prelude.{◌≡◌, ◌^◌, ◌<◌, pos, ◌+ℤ◌, ◌*ℤ◌, unsigned_abs, SomeIff, MatchOption};
ghost use Rattle.ring_theory.specs.Gcd.{gcd};
ghost use Rattle.ring_theory.specs.Integers.{int_quotient};
ghost use Rattle.ring_theory.specs.Rational.{rational, rational_neg};
ghost use Rattle.ring_law.specs.Fraction.{IsFrac, Represents, FitsFrac, frac_value, signed};
ghost use Rattle.small_frac.specs.Exact.{IsExactSum, IsExactProduct, IsReducedOf, IsInverseOf};

use ring_law::{Frac, Op, Range};

// The greatest part of a fraction, 2^127 - 1.
const LIMIT: u128 = 0x7fff_ffff_ffff_ffff_ffff_ffff_ffff_ffff;

// The greatest common divisor, by Euclid's algorithm.
pub(crate) fn common_divisor(a: u128, b: u128) -> u128
    ensures { result ≡ gcd a b }
{
    let mut x = a;
    let mut y = b;
    while y != 0 {
        let rest = x % y;
        x = y;
        y = rest;
    }
    x
}

// The greatest common divisor of a numerator and a denominator.
fn common_factor(num: i128, den: i128) -> u128
    requires den_nonzero { 0 < unsigned_abs den }
    requires den_small { unsigned_abs den < 2 ^ 127 }
    ensures value { result ≡ gcd (unsigned_abs num) (unsigned_abs den) }
    ensures positive { 0 < result }
    ensures small { result < 2 ^ 127 }
{
    common_divisor(num.unsigned_abs(), den.unsigned_abs())
}

// The fraction n / d, or -n / d, in lowest terms; None where a part of it is too large.
fn reduce(negative: bool, n: u128, d: u128) -> Option<Frac>
    requires { 0 < d }
    ensures { MatchOption result (¬ FitsFrac (rational (signed negative n) d)) (λ f. Represents f (rational (signed negative n) d)) }
{
    let g = common_divisor(n, d);
    let num = n / g;
    let den = d / g;
    if num > LIMIT || den > LIMIT {
        return None;
    }
    let num = num as i128;
    let den = den as i128;
    Some(Frac {
        num: if negative { -num } else { num },
        den,
    })
}

/// The fraction `num / den` in lowest terms, or `None` where `den` is 0 or a part of it is above 2^127 - 1 in absolute value.
pub fn make_frac(num: i128, den: i128) -> Option<Frac>
    ensures { IsReducedOf num den result }
{
    if den == 0 {
        return None;
    }
    reduce(
        (num < 0) != (den < 0),
        num.unsigned_abs(),
        den.unsigned_abs(),
    )
}

// x * y, where its absolute value is at most 2^127 - 1.
fn bounded_mul(x: i128, y: i128) -> Option<i128>
    ensures { SomeIff result (unsigned_abs (x *ℤ y) < 2 ^ 127) (x *ℤ y) }
{
    match x.checked_mul(y) {
        Some(product) if product != i128::MIN => Some(product),
        _ => None,
    }
}

// x / g, rounded toward zero.
fn divided(x: i128, g: u128) -> i128
    requires x_small { unsigned_abs x < 2 ^ 127 }
    requires g_positive { 0 < g }
    requires g_small { g < 2 ^ 127 }
    ensures { result ≡ int_quotient x g }
{
    x / (g as i128)
}

// x + y, where its absolute value is at most 2^127 - 1.
fn bounded_add(x: i128, y: i128) -> Option<i128>
    ensures { SomeIff result (unsigned_abs (x +ℤ y) < 2 ^ 127) (x +ℤ y) }
{
    match x.checked_add(y) {
        Some(sum) if sum != i128::MIN => Some(sum),
        _ => None,
    }
}

/// The sum `a/b + c/d` in lowest terms.
///
/// Errors: `Range`, exactly where one of `a*(d/g)`, `c*(b/g)`, their sum and `(b/g)*d` is above 2^127 - 1 in absolute value,
/// for the greatest common divisor g of b and d.
pub fn add(a: Frac, b: Frac) -> Result<Frac, Range>
    requires left { IsFrac a }
    requires right { IsFrac b }
    ensures { IsExactSum a b result }
{
    let range = Range { a, b, op: Op::Add };
    let p = a.den.unsigned_abs();
    let q = b.den.unsigned_abs();
    let g = common_divisor(p, q);
    let scale_a = (q / g) as i128;
    let scale_b = (p / g) as i128;
    let Some(left) = bounded_mul(a.num, scale_a) else {
        return Err(range);
    };
    let Some(right) = bounded_mul(b.num, scale_b) else {
        return Err(range);
    };
    let Some(sum) = bounded_add(left, right) else {
        return Err(range);
    };
    let Some(den) = bounded_mul(scale_b, b.den) else {
        return Err(range);
    };
    match make_frac(sum, den) {
        Some(f) => Ok(f),
        None => Err(range),
    }
}

/// The product in lowest terms. Common factors are cancelled crosswise before multiplying.
///
/// Errors: `Range`, exactly where a part of the reduced product is above 2^127 - 1 in absolute value.
pub fn mul(a: Frac, b: Frac) -> Result<Frac, Range>
    requires left { IsFrac a }
    requires right { IsFrac b }
    ensures { IsExactProduct a b result }
{
    let range = Range { a, b, op: Op::Mul };
    let g = common_factor(a.num, b.den);
    let h = common_factor(b.num, a.den);
    let Some(num) = bounded_mul(divided(a.num, g), divided(b.num, h)) else {
        return Err(range);
    };
    let Some(den) = bounded_mul(divided(a.den, h), divided(b.den, g)) else {
        return Err(range);
    };
    Ok(Frac { num, den })
}

/// The opposite.
pub fn neg(a: Frac) -> Frac
    requires { IsFrac a }
    ensures { Represents result (rational_neg (frac_value a)) }
{
    Frac {
        num: -a.num,
        den: a.den,
    }
}

/// The inverse, or `None` for 0.
pub fn inv(a: Frac) -> Option<Frac>
    requires { IsFrac a }
    ensures { IsInverseOf a result }
{
    if a.num == 0 {
        None
    } else if a.num > 0 {
        Some(Frac {
            num: a.den,
            den: a.num,
        })
    } else {
        Some(Frac {
            num: -a.den,
            den: -a.num,
        })
    }
}
