//! The lines from a change to the jet.

ghost use Rattle.std.specs.Prelude.{◌≡◌, ◌++◌, ◌≤◌, None, IfOk, IfErr, IfSome, length, ◌*◌};
ghost use Rattle.poly_text.specs.Polynomials.{jet_text};
ghost use Rattle.cert_text.specs.Text.{word_line, rows_text, line, spaced};
ghost use Rattle.cert_text.specs.WellFormed.{IsJetOf};
ghost use Rattle.row_reader.specs.Rows.{IsNamedPart};
ghost use Rattle.row_reader.specs.Values.{AreElements};
ghost use Rattle.report_reader.specs.Blocks.{IsAtFront, IsNotAtFront, IsHalt};
ghost use Rattle.report_reader.specs.States.{IsFrame, IsFramed, part_line, lines_of, change_text, AreParts, AreSoMany, ArePassed, change_rest};

use crate::frame::{Frame, Parts};
use crate::halt::Halt;
use crate::line::{take_line, take_word_line};
use cert_text::{Carried, Word};
use coord_change::Change;
use ext_algebra::{Algebra, Ext};
use jet_poly::Jet;
use poly_text::Name;
use ring_law::{Frac, NoMemory};
use row_reader::{read_elements, read_part};
use sqlite_items::Items;
use std::alloc::Global;
use text_reader::{read_polynomial, split_at_byte};

// The part of a change in n variables in the line at the front.
fn take_part(
    alloc: Global,
    frame: Frame,
    n: u8,
    bytes: &[u8],
) -> Result<Option<((Name, Jet<Ext<Frac>>), &[u8])>, NoMemory>
    requires frame { IsFrame frame }
    ensures some { IfOk result (λ found. IfSome found (IsAtFront (IsNamedPart frame.algebra n frame.order) part_line bytes.now)) }
    ensures none { IfOk result (λ found. found ≡ None → IsNotAtFront (IsNamedPart frame.algebra n frame.order) part_line bytes.now) }
{
    match split_at_byte(bytes, b'\n') {
        None => Ok(None),
        Some((text, rest)) => match read_part(alloc, frame.algebra, n, frame.order, text) {
            Err(NoMemory) => Err(NoMemory),
            Ok(None) => Ok(None),
            Ok(Some(part)) => Ok(Some((part, rest))),
        },
    }
}

// The lines at the front that are parts in eight variables, at most eight, and what stands behind them.
fn pass_parts(alloc: Global, frame: Frame, bytes: &[u8]) -> Result<(u8, &[u8]), NoMemory>
    requires frame { IsFrame frame }
    ensures { IfOk result (ArePassed frame bytes.now) }
{
    let mut rest = bytes;
    for count in 0..8u8 {
        match take_part(alloc, frame, 8, rest) {
            Err(NoMemory) => return Err(NoMemory),
            Ok(None) => return Ok((count, rest)),
            Ok(Some((_, after))) => rest = after,
        }
    }
    Ok((8, rest))
}

// So many parts in n variables at the front.
fn take_parts(
    alloc: Global,
    frame: Frame,
    n: u8,
    bytes: &[u8],
) -> Result<Option<(Parts, &[u8])>, NoMemory>
    requires frame { IsFrame frame }
    ensures some { IfOk result (λ found. IfSome found (IsAtFront (AreSoMany frame n n) lines_of bytes.now)) }
    ensures none { IfOk result (λ found. found ≡ None → IsNotAtFront (AreSoMany frame n n) lines_of bytes.now) }
{
    let mut rest = bytes;
    let mut parts = Parts::new(alloc);
    for count in 0..n {
        match take_part(alloc, frame, n, rest) {
            Err(NoMemory) => return Err(NoMemory),
            Ok(None) => return Ok(None),
            Ok(Some((part, after))) => {
                rest = after;
                match parts.push(part) {
                    Err(NoMemory) => return Err(NoMemory),
                    Ok(()) => {}
                }
            }
        }
    }
    Ok(Some((parts, rest)))
}

/// The parts of a change up to the line `inverse`, at the front.
fn read_parts(alloc: Global, frame: Frame, bytes: &[u8]) -> Result<(Parts, &[u8]), Halt>
    requires frame { IsFrame frame }
    ensures ok { IfOk result (IsAtFront (AreParts frame) change_text bytes.now) }
    ensures halt { IfErr result (IsHalt (AreParts frame) change_text bytes.now) }
{
    let (count, behind) = match pass_parts(alloc, frame, bytes) {
        Err(NoMemory) => return Err(Halt::NoMemory),
        Ok(passed) => passed,
    };
    let stop = Halt::Stop { left: behind.len() };
    let rest = match take_line(Word::Inverse, behind) {
        None => return Err(stop),
        Some(rest) => rest,
    };
    if count == 0 || count < frame.corank {
        return Err(stop);
    }
    match take_parts(alloc, frame, count, bytes) {
        Err(NoMemory) => Err(Halt::NoMemory),
        Ok(None) => Err(stop),
        Ok(Some((parts, _))) => Ok((parts, rest)),
    }
}

// The row of n elements in the line at the front.
fn take_row(
    alloc: Global,
    algebra: Algebra,
    n: u8,
    bytes: &[u8],
) -> Result<Option<(Items<Ext<Frac>>, &[u8])>, NoMemory>
    ensures some { IfOk result (λ found. IfSome found (IsAtFront (AreElements algebra n) (λ es. line (spaced es)) bytes.now)) }
    ensures none { IfOk result (λ found. found ≡ None → IsNotAtFront (AreElements algebra n) (λ es. line (spaced es)) bytes.now) }
{
    match split_at_byte(bytes, b'\n') {
        None => Ok(None),
        Some((text, rest)) => match read_elements(alloc, algebra, n as usize, text) {
            Err(NoMemory) => Err(NoMemory),
            Ok(None) => Ok(None),
            Ok(Some(row)) => Ok(Some((row, rest))),
        },
    }
}

// The matrix of n rows of n elements at the front.
fn read_matrix(
    alloc: Global,
    frame: Frame,
    n: u8,
    bytes: &[u8],
) -> Result<(Items<Ext<Frac>>, &[u8]), Halt>
    ensures ok { IfOk result (IsAtFront (AreElements frame.algebra (n * n)) (rows_text n n) bytes.now) }
    ensures halt { IfErr result (IsHalt (AreElements frame.algebra (n * n)) (rows_text n n) bytes.now) }
{
    let mut rest = bytes;
    let mut elements = Items::new(alloc);
    for count in 0..n {
        match take_row(alloc, frame.algebra, n, rest) {
            Err(NoMemory) => return Err(Halt::NoMemory),
            Ok(None) => return Err(Halt::Stop { left: rest.len() }),
            Ok(Some((row, after))) => {
                rest = after;
                match elements.append(row) {
                    Err(_) => return Err(Halt::NoMemory),
                    Ok(()) => {}
                }
            }
        }
    }
    Ok((elements, rest))
}

// The jet in n variables in the line of this word at the front.
fn take_jet(
    alloc: Global,
    word: Word,
    frame: Frame,
    n: u8,
    bytes: &[u8],
) -> Result<Option<(Jet<Ext<Frac>>, &[u8])>, NoMemory>
    requires frame { IsFrame frame }
    ensures some { IfOk result (λ found. IfSome found (IsAtFront (IsJetOf n frame.order frame.algebra) (λ f. word_line word (jet_text f)) bytes.now)) }
    ensures none { IfOk result (λ found. found ≡ None → IsNotAtFront (IsJetOf n frame.order frame.algebra) (λ f. word_line word (jet_text f)) bytes.now) }
{
    match take_word_line(word, bytes) {
        None => Ok(None),
        Some((text, rest)) => {
            match read_polynomial(alloc, frame.algebra, n, frame.order, text) {
                Err(NoMemory) => Err(NoMemory),
                Ok(None) => Ok(None),
                Ok(Some(jet)) => Ok(Some((jet, rest))),
            }
        }
    }
}

/// The lines behind `change`: the parts, the matrix, and the jet in the line of this word.
pub(crate) fn read_change(
    alloc: Global,
    word: Word,
    frame: Frame,
    bytes: &[u8],
) -> Result<(Carried, &[u8]), Halt>
    requires frame { IsFrame frame }
    ensures ok { IfOk result (IsAtFront (IsFramed frame) (change_rest word) bytes.now) }
    ensures halt { IfErr result (IsHalt (IsFramed frame) (change_rest word) bytes.now) }
{
    let (parts, behind) = match read_parts(alloc, frame, bytes) {
        Err(halt) => return Err(halt),
        Ok(read) => read,
    };
    let n = parts.names.len() as u8;
    let (inverse, last) = match read_matrix(alloc, frame, n, behind) {
        Err(halt) => return Err(halt),
        Ok(read) => read,
    };
    match take_jet(alloc, word, frame, n, last) {
        Err(NoMemory) => Err(Halt::NoMemory),
        Ok(None) => Err(Halt::Stop { left: last.len() }),
        Ok(Some((jet, rest))) => Ok((carried(frame, parts, inverse, jet), rest)),
    }
}

// The germ in new variables, of its blocks.
fn carried(frame: Frame, parts: Parts, inverse: Items<Ext<Frac>>, jet: Jet<Ext<Frac>>) -> Carried
    requires few { length parts.names ≤ 8 }
    ensures { result ≡ record {
      names = parts.names;
      algebra = frame.algebra;
      order = frame.order;
      corank = frame.corank;
      change = record { n = length parts.names; order = frame.order; parts = parts.parts; inverse = inverse };
      jet = jet;
    } }
{
    let Parts { names, parts } = parts;
    let n = names.len() as u8;
    Carried {
        names,
        algebra: frame.algebra,
        order: frame.order,
        corank: frame.corank,
        change: Change {
            n,
            order: frame.order,
            parts,
            inverse,
        },
        jet,
    }
}
