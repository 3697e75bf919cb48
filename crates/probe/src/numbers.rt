//! Fractions, roots of whole numbers and of fractions, and rational roots of polynomials.

ghost use Rattle.std.specs.Prelude.{IfOk};
ghost use Rattle.ring_law.specs.Fraction.{IsFrac};

use crate::words::{Stop, Words, is};
use poly_text::{put_fraction, put_number};
use ring_law::Frac;
use root_search::least_root;
use small_frac::{
    add, int_root2, inv, is_square, make_frac, mul, neg, rational_root_cubic,
    rational_root_quadratic,
};
use std::alloc::Global;

// Appends a fraction; nothing is an answer too.
fn put(out: &mut Vec<u8>, found: Option<Frac>) -> Result<(), Stop> {
    match found {
        Some(q) => Ok(put_fraction(out, q)?),
        None => Err(Stop::Nothing),
    }
}

// The fraction with the numerator and the denominator that the next words spell.
fn made(alloc: Global, words: &mut Words) -> Result<Option<Frac>, Stop> {
    let num = words.number(alloc)?;
    let den = words.number(alloc)?;
    Ok(make_frac(num, den))
}

// The least whole root of t^3 + a*t^2 + b*t + c, for numbers below 2^120.
fn least(a: i128, b: i128, c: i128) -> Result<Option<Frac>, Stop> {
    let limit = 0x100_0000_0000_0000_0000_0000_0000_0000;
    if a.unsigned_abs() < limit && b.unsigned_abs() < limit && c.unsigned_abs() < limit {
        return match least_root(a, b, c) {
            Some(num) => Ok(Some(Frac { num, den: 1 })),
            None => Ok(None),
        };
    }
    Err(Stop::Words)
}

// The least whole root of the cubic polynomial with the three coefficients that the next words spell.
fn least_of(alloc: Global, words: &mut Words) -> Result<Option<Frac>, Stop> {
    let a = words.number(alloc)?;
    let b = words.number(alloc)?;
    let c = words.number(alloc)?;
    least(a, b, c)
}

// The rational root of t^3 + a*t^2 + b*t + c, where the next words spell b and c.
fn root_of_cubic(a: Frac, words: &mut Words) -> Result<Option<Frac>, Stop>
    requires { IsFrac a }
{
    let b = words.fraction()?;
    let c = words.fraction()?;
    Ok(rational_root_cubic(a, b, c)?)
}

// The sum or the product of a and of the number that the next word spells.
fn of_two(command: &[u8], a: Frac, words: &mut Words) -> Result<Option<Frac>, Stop>
    requires { IsFrac a }
{
    let b = words.fraction()?;
    if is(command, b"sum") {
        Ok(Some(add(a, b)?))
    } else if is(command, b"product") {
        Ok(Some(mul(a, b)?))
    } else {
        Err(Stop::Words)
    }
}

// What is calculated of the number that the next word spells, and of those behind it.
fn of_one(command: &[u8], words: &mut Words) -> Result<Option<Frac>, Stop> {
    let a = words.fraction()?;
    if is(command, b"opposite") {
        Ok(Some(neg(a)))
    } else if is(command, b"inverse") {
        Ok(inv(a))
    } else if is(command, b"root") {
        Ok(is_square(a))
    } else if is(command, b"root-cubic") {
        root_of_cubic(a, words)
    } else {
        of_two(command, a, words)
    }
}

// Appends the two roots of t^2 + a*t + b, where the next words spell a and b.
fn put_roots(words: &mut Words, out: &mut Vec<u8>) -> Result<(), Stop> {
    let a = words.fraction()?;
    let b = words.fraction()?;
    let Some((low, high)) = rational_root_quadratic(a, b)? else {
        return Err(Stop::Nothing);
    };
    put_fraction(out, low)?;
    out.push(b' ')?;
    Ok(put_fraction(out, high)?)
}

/// Appends the answer of a calculation with fractions.
pub(crate) fn calculate(
    alloc: Global,
    command: &[u8],
    words: &mut Words,
    out: &mut Vec<u8>,
) -> Result<(), Stop> {
    if is(command, b"whole-root") {
        Ok(put_number(out, int_root2(words.number(alloc)?) as u64)?)
    } else if is(command, b"roots-quadratic") {
        put_roots(words, out)
    } else if is(command, b"fraction") {
        put(out, made(alloc, words)?)
    } else if is(command, b"least-root") {
        put(out, least_of(alloc, words)?)
    } else {
        put(out, of_one(command, words)?)
    }
}
