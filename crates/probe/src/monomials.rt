//! Monomials by their eight exponents, and the monomials of a degree.

use crate::words::{Stop, Words, is};
use mono_exp::{Exp, before, degree, list, quotient, rank, times, unrank, weight};
use poly_text::{new_names, put_monomial, put_number};
use std::alloc::Global;

// The monomial whose eight exponents the next words spell.
fn eight(words: &mut Words) -> Result<Exp, Stop> {
    let mut e = [0; 8];
    for i in 0..8 {
        e[i] = words.small()?;
    }
    Ok(Exp { e })
}

// Appends a monomial in the variables u1 to u8; nothing is an answer too.
fn put(alloc: Global, out: &mut Vec<u8>, m: Option<Exp>) -> Result<(), Stop> {
    match m {
        Some(m) => Ok(put_monomial(alloc, out, &new_names(), m)?),
        None => Err(Stop::Nothing),
    }
}

// Appends all monomials in so many variables of a degree, which the next words spell, each with its number and a space before it.
fn put_list(alloc: Global, words: &mut Words, out: &mut Vec<u8>) -> Result<(), Stop> {
    let n = words.small()?;
    let d = words.small()?;
    if n > 8 || d > 17 {
        return Err(Stop::Words);
    }
    for m in &list(alloc, n, d)? {
        if degree(*m) <= 17 {
            let number = rank(n, *m);
            put_number(out, u64::from(number))?;
            out.push(b':')?;
            put(alloc, out, Some(unrank(n, number)))?;
            out.push(b' ')?;
        }
    }
    Ok(())
}

// Appends the degree of a monomial and its weighted degree.
fn put_degrees(out: &mut Vec<u8>, m: Exp, weights: Exp) -> Result<(), Stop> {
    put_number(out, u64::from(degree(m)))?;
    out.push(b' ')?;
    Ok(put_number(out, u64::from(weight(m, weights.e)))?)
}

/// Appends the answer of a calculation with monomials.
pub(crate) fn calculate(
    alloc: Global,
    command: &[u8],
    words: &mut Words,
    out: &mut Vec<u8>,
) -> Result<(), Stop> {
    if is(command, b"monomials") {
        return put_list(alloc, words, out);
    }
    let a = eight(words)?;
    let b = eight(words)?;
    if is(command, b"degree-and-weight") {
        put_degrees(out, a, b)
    } else if is(command, b"before") {
        Ok(put_number(out, u64::from(before(a, b)))?)
    } else if is(command, b"times") {
        put(alloc, out, times(a, b))
    } else if is(command, b"divided") {
        put(alloc, out, quotient(a, b))
    } else {
        Err(Stop::Words)
    }
}
