//! The texts within reports: whether they are read, and of which length.

use crate::words::{Stop, Words, is};
use ext_algebra::Algebra;
use normal_forms::{corank, index};
use poly_text::{new_names, put_number, put_polynomial};
use row_reader::{
    read_basis, read_elements, read_functional_value, read_mather_row, read_part, read_table_row,
    read_unit,
};
use std::alloc::Global;
use text_reader::{read_family, read_polynomial};

/// Appends the Milnor number and the corank of the family with this name.
pub(crate) fn put_family(name: &[u8], out: &mut Vec<u8>) -> Result<(), Stop> {
    let Some(family) = read_family(name) else {
        return Err(Stop::Nothing);
    };
    put_number(out, u64::from(index(family)))?;
    out.push(b' ')?;
    Ok(put_number(out, u64::from(corank(family)))?)
}

// Appends the polynomial that is read from a text.
fn put_jet(
    alloc: Global,
    a: Algebra,
    n: u8,
    order: u8,
    text: &[u8],
    out: &mut Vec<u8>,
) -> Result<(), Stop> {
    match read_polynomial(alloc, a, n, order, text)? {
        Some(f) => Ok(put_polynomial(alloc, out, &new_names(), &f)?),
        None => Err(Stop::Nothing),
    }
}

// How many elements are read from a text for so many.
fn elements_of(alloc: Global, a: Algebra, size: usize, text: &[u8]) -> Result<usize, Stop> {
    match read_elements(alloc, a, size, text)? {
        Some(elements) => Ok(elements.len()),
        None => Err(Stop::Nothing),
    }
}

// How many monomials are read from the text of a basis.
fn monomials_of(alloc: Global, n: u8, text: &[u8]) -> Result<usize, Stop> {
    match read_basis(alloc, n, text)? {
        Some(monomials) => Ok(monomials.len()),
        None => Err(Stop::Nothing),
    }
}

// 1 where the text of a part is read.
fn parts_of(alloc: Global, a: Algebra, n: u8, order: u8, text: &[u8]) -> Result<usize, Stop> {
    match read_part(alloc, a, n, order, text)? {
        Some(_) => Ok(1),
        None => Err(Stop::Nothing),
    }
}

// How many multipliers are read from the text of a row of Mather's test.
fn multipliers_of(alloc: Global, a: Algebra, n: u8, order: u8, text: &[u8]) -> Result<usize, Stop> {
    match read_mather_row(alloc, a, n, order, text)? {
        Some(row) => Ok(row.multipliers.len()),
        None => Err(Stop::Nothing),
    }
}

// How many values are read from the text of a row of the table for so many.
fn values_of(alloc: Global, a: Algebra, n: u8, size: usize, text: &[u8]) -> Result<usize, Stop> {
    match read_table_row(alloc, a, n, 3, size, text)? {
        Some(row) => Ok(row.values.len()),
        None => Err(Stop::Nothing),
    }
}

// Whether the text of a unit value, or else of a functional's value, is read.
fn is_value(command: &[u8], a: Algebra, n: u8, text: &[u8]) -> Result<usize, Stop> {
    let is_read = if is(command, b"unit") {
        read_unit(a, text).is_some()
    } else {
        read_functional_value(a, n, text).is_some()
    };
    if is_read {
        return Ok(1);
    }
    Err(Stop::Nothing)
}

// How many items are read from a text.
fn count_of(
    alloc: Global,
    command: &[u8],
    a: Algebra,
    n: u8,
    order: u8,
    text: &[u8],
) -> Result<usize, Stop> {
    let size = usize::from(order);
    if is(command, b"unit") || is(command, b"functional") {
        is_value(command, a, n, text)
    } else if is(command, b"elements") {
        elements_of(alloc, a, size, text)
    } else if is(command, b"basis") {
        monomials_of(alloc, n, text)
    } else if is(command, b"part") {
        parts_of(alloc, a, n, order, text)
    } else if is(command, b"mather-row") {
        multipliers_of(alloc, a, n, order, text)
    } else if is(command, b"table-row") {
        values_of(alloc, a, n, size, text)
    } else {
        Err(Stop::Words)
    }
}

/// Appends the polynomial that is read from a text over an algebra, or how many items are read.
pub(crate) fn calculate(
    alloc: Global,
    command: &[u8],
    a: Algebra,
    words: &mut Words,
    out: &mut Vec<u8>,
) -> Result<(), Stop> {
    let n = words.small()?;
    let order = words.small()?;
    if is(command, b"polynomial") {
        return put_jet(alloc, a, n, order, words.rest, out);
    }
    let count = count_of(alloc, command, a, n, order, words.rest)?;
    Ok(put_number(out, count as u64)?)
}
