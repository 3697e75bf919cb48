//! What is read of lines, and reports that are read, written again and checked. Where a report stands in one line, a bar stands for each newline.

ghost use Rattle.std.specs.Prelude.{◌≡◌, length};
ghost use Rattle.ring_law.specs.Fraction.{rational_meaning};
ghost use Rattle.jet_poly.specs.Jets.{IsJet};
ghost use Rattle.cert_text.specs.WellFormed.{IsWellFormed, IsWellFormedNamed};

use crate::forms::put_line;
use crate::words::{Stop, Words, is};
use cert_check::check;
use cert_text::{Answer, Named, Report, write_report};
use certificate::{modulus_line, units};
use ext_algebra::Algebra;
use line_germ::{Germ, Read, read_line};
use line_io::MAX_LINE;
use poly_text::{Name, What, put_name, put_number, write_poly};
use report_jet::lifted_jet;
use report_law::{Finding, put_finding};
use report_reader::{ReadError, read_report};
use ring_law::NoMemory;
use std::alloc::{AllocError, Global};

// The bytes with another one for each of these.
fn replaced(alloc: Global, bytes: &[u8], from: u8, to: u8) -> Result<Vec<u8>, AllocError> {
    let mut all = Vec::new(alloc);
    for byte in bytes {
        all.push(if *byte == from { to } else { *byte })?;
    }
    Ok(all)
}

// Appends the names with commas between them, in brackets.
fn put_names(out: &mut Vec<u8>, names: &[Name]) -> Result<(), AllocError> {
    out.push(b'[')?;
    for (i, name) in names.iter().enumerate() {
        if i > 0 {
            out.push(b',')?;
        }
        put_name(out, name)?;
    }
    out.push(b']')?;
    Ok(())
}

// Appends the names, the order and the polynomial of a germ.
fn put_germ(alloc: Global, out: &mut Vec<u8>, germ: &Germ) -> Result<(), Stop>
    requires jet { IsJet rational_meaning germ.now.jet }
    requires one_name_a_variable { length germ.now.names ≡ germ.now.jet.n }
{
    let names = germ.names.as_slice();
    out.extend_from_slice(b"germ ")?;
    put_names(out, names)?;
    out.push(b' ')?;
    put_number(out, u64::from(germ.order))?;
    out.push(b' ')?;
    let f = lifted_jet(alloc, &germ.jet)?;
    let text = write_poly(alloc, &f, names)?;
    Ok(out.extend_from_slice(text.as_slice())?)
}

// Appends a word, a column, and what stands there.
fn put_column(out: &mut Vec<u8>, word: &[u8], column: u32, what: &[u8]) -> Result<(), AllocError> {
    out.extend_from_slice(word)?;
    put_number(out, u64::from(column))?;
    out.extend_from_slice(what)
}

/// Appends what is read of a line up to an order limit from 3 to 16.
pub(crate) fn put_read(
    alloc: Global,
    limit: u8,
    line: &[u8],
    out: &mut Vec<u8>,
) -> Result<(), Stop> {
    if limit < 3 || limit > 16 || line.len() > MAX_LINE {
        return Err(Stop::Words);
    }
    match read_line(alloc, line, limit)? {
        Read::Germ(germ) => put_germ(alloc, out, &germ),
        Read::Syntax { column, what } => {
            let what: &[u8] = match what {
                What::Byte => b" byte",
                What::End => b" end",
            };
            Ok(put_column(out, b"syntax ", column, what)?)
        }
        Read::Literal { column } => Ok(put_column(out, b"literal ", column, b"")?),
        Read::Range => Err(Stop::Range),
        Read::NotCritical { variable } => {
            out.extend_from_slice(b"not-critical ")?;
            Ok(put_name(out, &variable)?)
        }
    }
}

// The longest lines are not written out: first, so many times the next word, and what is left.
fn repeated(alloc: Global, words: &mut Words) -> Result<Vec<u8>, Stop> {
    let count: u16 = words.number(alloc)?;
    let mut line = Vec::new(alloc);
    line.extend_from_slice(words.next())?;
    let piece = words.next();
    for _i in 0..count {
        line.extend_from_slice(piece)?;
    }
    line.extend_from_slice(words.rest)?;
    Ok(line)
}

// The text that is written for the report that is read from a text.
fn copy_of(alloc: Global, text: &[u8]) -> Result<Vec<u8>, ReadError> {
    let report = read_report(alloc, text)?;
    match write_report(alloc, &report) {
        Ok(copy) => Ok(copy),
        Err(_) => Err(ReadError::NoMemory),
    }
}

// What the checker finds of a text.
fn finding_of(alloc: Global, text: &[u8]) -> Result<Finding, NoMemory> {
    match read_report(alloc, text) {
        Ok(report) => match check(alloc, &report) {
            Ok(verdict) => Ok(Finding::Report(verdict)),
            Err(e) => Err(e),
        },
        Err(ReadError::BadText { offset }) => Ok(Finding::BadText { offset }),
        Err(ReadError::NoMemory) => Err(NoMemory),
    }
}

// Appends the text that is written for the report that is read from a text.
fn put_copy(alloc: Global, text: &[u8], out: &mut Vec<u8>) -> Result<(), Stop> {
    match copy_of(alloc, text) {
        Ok(copy) => {
            let line = replaced(alloc, &copy, b'\n', b'|')?;
            Ok(out.extend_from_slice(&line)?)
        }
        Err(ReadError::BadText { offset }) => Ok(put_finding(out, Finding::BadText { offset })?),
        Err(ReadError::NoMemory) => Err(Stop::NoMemory),
    }
}

// Appends what the checker finds of a text.
fn put_found(alloc: Global, text: &[u8], out: &mut Vec<u8>) -> Result<(), Stop> {
    let found = finding_of(alloc, text)?;
    Ok(put_finding(out, found)?)
}

// Appends the modulus line of the jet of a named report over the rational numbers, as the form of its family that it is.
fn put_modulus_of(alloc: Global, r: &Named, out: &mut Vec<u8>) -> Result<(), Stop>
    requires { IsWellFormedNamed r.now }
{
    let Algebra::Rational = r.carried.algebra else {
        return Err(Stop::Words);
    };
    match units(alloc, r.family, &r.carried)? {
        None => Err(Stop::Words),
        Some(_) => put_line(alloc, out, modulus_line(alloc, r.family, &r.carried)?),
    }
}

// The same of a report, where it is a named one.
fn put_modulus_in(alloc: Global, report: &Report, out: &mut Vec<u8>) -> Result<(), Stop>
    requires { IsWellFormed report.now }
{
    match report {
        Report::Line { line: _, answer } => match answer {
            Answer::Named(r) => put_modulus_of(alloc, r, out),
            _ => Err(Stop::Words),
        },
        Report::Long { .. } => Err(Stop::Words),
    }
}

// Appends the modulus line of the jet of the report that is read from a text.
fn put_modulus(alloc: Global, text: &[u8], out: &mut Vec<u8>) -> Result<(), Stop> {
    match read_report(alloc, text) {
        Ok(report) => put_modulus_in(alloc, &report, out),
        Err(ReadError::BadText { offset: _ }) => Err(Stop::Words),
        Err(ReadError::NoMemory) => Err(Stop::NoMemory),
    }
}

// Appends what is read of a line that is put together from the next words.
fn put_repeated(alloc: Global, words: &mut Words, out: &mut Vec<u8>) -> Result<(), Stop> {
    let limit = words.small()?;
    let line = repeated(alloc, words)?;
    put_read(alloc, limit, &line, out)
}

// Appends what is done with the report that is left of a line.
fn put_done(
    alloc: Global,
    command: &[u8],
    words: &mut Words,
    out: &mut Vec<u8>,
) -> Result<(), Stop> {
    let text = replaced(alloc, words.rest, b'|', b'\n')?;
    if is(command, b"copy") {
        put_copy(alloc, &text, out)
    } else if is(command, b"check") {
        put_found(alloc, &text, out)
    } else if is(command, b"modulus") {
        put_modulus(alloc, &text, out)
    } else {
        Err(Stop::Words)
    }
}

/// Appends what is read of a line, or done with a report.
pub(crate) fn calculate(
    alloc: Global,
    command: &[u8],
    words: &mut Words,
    out: &mut Vec<u8>,
) -> Result<(), Stop> {
    if is(command, b"read") {
        let limit = words.small()?;
        put_read(alloc, limit, words.rest, out)
    } else if is(command, b"read-repeated") {
        put_repeated(alloc, words, out)
    } else {
        put_done(alloc, command, words, out)
    }
}
