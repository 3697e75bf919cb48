//! Ternary cubics over the rational numbers.

ghost use Rattle.std.specs.Prelude.{All, IfOk};
ghost use Rattle.ring_law.specs.Fraction.{IsFrac};

use crate::words::{Stop, Words, is};
use poly_text::{put_fraction, put_number};
use ring_law::Frac;
use std::alloc::Global;
use tern_cubic::{Kernel, cubic_jet, hessian3, kernel_of, partial_rows, product_rows, rank_of};

// The ten fractions that the next words spell.
fn ten(words: &mut Words) -> Result<[Frac; 10], Stop>
    ensures { IfOk result (All IsFrac) }
{
    let front = [
        words.fraction()?,
        words.fraction()?,
        words.fraction()?,
        words.fraction()?,
        words.fraction()?,
    ];
    let back = [
        words.fraction()?,
        words.fraction()?,
        words.fraction()?,
        words.fraction()?,
        words.fraction()?,
    ];
    let [c0, c1, c2, c3, c4] = front;
    let [c5, c6, c7, c8, c9] = back;
    Ok([c0, c1, c2, c3, c4, c5, c6, c7, c8, c9])
}

// Appends the coefficients of the Hessian determinant of the ternary cubic with ten given coefficients, in the monomial order.
fn put_hessian(words: &mut Words, out: &mut Vec<u8>) -> Result<(), Stop> {
    for (i, q) in hessian3(ten(words)?)?.iter().enumerate() {
        if i > 0 {
            out.push(b' ')?;
        }
        put_fraction(out, *q)?;
    }
    Ok(())
}

// Appends what the kernel of rows is: 0, the multiples of a vector with these entries, or more.
fn put_kernel(out: &mut Vec<u8>, kernel: &Kernel) -> Result<(), Stop> {
    match kernel {
        Kernel::Zero => Ok(out.extend_from_slice(b" zero")?),
        Kernel::Plane => Ok(out.extend_from_slice(b" plane")?),
        Kernel::Line(vector) => {
            out.extend_from_slice(b" line")?;
            for (column, x) in vector.entries.as_slice() {
                out.push(b' ')?;
                put_number(out, u64::from(*column))?;
                out.push(b':')?;
                put_fraction(out, *x)?;
            }
            Ok(())
        }
    }
}

// Appends the rank and the kernel of the rows of the partials, and the rank of the rows of their products with the quadratic monomials.
fn put_ranks(alloc: Global, words: &mut Words, out: &mut Vec<u8>) -> Result<(), Stop> {
    let f = cubic_jet(alloc, ten(words)?)?;
    let rows = partial_rows(alloc, &f)?;
    put_number(out, rank_of(alloc, &rows, 3)? as u64)?;
    put_kernel(out, &kernel_of(alloc, &rows, 3)?)?;
    let products = product_rows(alloc, &f)?;
    out.extend_from_slice(b" ; ")?;
    Ok(put_number(out, rank_of(alloc, &products, 15)? as u64)?)
}

/// Appends the answer of a calculation with the ternary cubic with ten given coefficients, in the monomial order.
pub(crate) fn calculate(
    alloc: Global,
    command: &[u8],
    words: &mut Words,
    out: &mut Vec<u8>,
) -> Result<(), Stop> {
    if is(command, b"hessian") {
        put_hessian(words, out)
    } else if is(command, b"ranks") {
        put_ranks(alloc, words, out)
    } else {
        Err(Stop::Words)
    }
}
