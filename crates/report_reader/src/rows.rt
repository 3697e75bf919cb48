//! Rows of units, of Mather's condition and of the table, with their counts.

ghost use Rattle.std.specs.Prelude.{◌≡◌, ◌≤◌, None, IfOk, IfErr, IfSome};
ghost use Rattle.std.specs.List.{flat_map};
ghost use Rattle.cert_text.specs.Text.{unit_text, mather_text, table_text};
ghost use Rattle.cert_text.specs.WellFormed.{IsRowOf, IsTableRowOf};
ghost use Rattle.row_reader.specs.Values.{IsUnitPair};
ghost use Rattle.report_reader.specs.Blocks.{IsAtFront, IsNotAtFront, IsHalt};
ghost use Rattle.report_reader.specs.Rows.{AreMany, AreAtMost, counted_text, most_rows};
ghost use Rattle.report_reader.specs.States.{IsFrame};

use crate::frame::Frame;
use crate::halt::Halt;
use crate::line::take_number;
use cert_text::Word;
use determinacy::MatherRow;
use ext_algebra::{Algebra, Ext};
use milnor_alg::TableRow;
use ring_law::{Frac, NoMemory};
use row_reader::{read_mather_row, read_table_row, read_unit};
use sqlite_items::Items;
use std::alloc::Global;
use text_reader::split_at_byte;

// The unit and its inverse in the line at the front.
fn take_unit(a: Algebra, bytes: &[u8]) -> Option<((Ext<Frac>, Ext<Frac>), &[u8])>
    ensures some { IfSome result (IsAtFront (IsUnitPair a) unit_text bytes.now) }
    ensures none { result ≡ None → IsNotAtFront (IsUnitPair a) unit_text bytes.now }
{
    match split_at_byte(bytes, b'\n') {
        None => None,
        Some((text, rest)) => match read_unit(a, text) {
            None => None,
            Some(unit) => Some((unit, rest)),
        },
    }
}

// So many units at the front.
fn read_unit_rows(
    alloc: Global,
    a: Algebra,
    count: u64,
    bytes: &[u8],
) -> Result<(Items<(Ext<Frac>, Ext<Frac>)>, &[u8]), Halt>
    ensures ok { IfOk result (IsAtFront (AreMany (IsUnitPair a) count) (flat_map unit_text) bytes.now) }
    ensures halt { IfErr result (IsHalt (AreMany (IsUnitPair a) count) (flat_map unit_text) bytes.now) }
{
    let mut rest = bytes;
    let mut rows = Items::new(alloc);
    for count_read in 0..count {
        match take_unit(a, rest) {
            None => return Err(Halt::Stop { left: rest.len() }),
            Some((row, after)) => {
                rest = after;
                match rows.push(row) {
                    Err(_) => return Err(Halt::NoMemory),
                    Ok(()) => {}
                }
            }
        }
    }
    Ok((rows, rest))
}

/// The units with their count.
pub(crate) fn read_units(
    alloc: Global,
    a: Algebra,
    bytes: &[u8],
) -> Result<(Items<(Ext<Frac>, Ext<Frac>)>, &[u8]), Halt>
    ensures ok { IfOk result (IsAtFront (AreAtMost (IsUnitPair a) 1140) (counted_text Word.Units unit_text) bytes.now) }
    ensures halt { IfErr result (IsHalt (AreAtMost (IsUnitPair a) 1140) (counted_text Word.Units unit_text) bytes.now) }
{
    match take_number(Word::Units, 0, 1140, bytes) {
        None => Err(Halt::Stop { left: bytes.len() }),
        Some((count, rest)) => read_unit_rows(alloc, a, count, rest),
    }
}

// The row of Mather's condition in the line at the front.
fn take_mather_row(
    alloc: Global,
    frame: Frame,
    bytes: &[u8],
) -> Result<Option<(MatherRow<Ext<Frac>>, &[u8])>, NoMemory>
    requires frame { IsFrame frame }
    ensures some { IfOk result (λ found. IfSome found (IsAtFront (IsRowOf frame.algebra frame.corank frame.order) mather_text bytes.now)) }
    ensures none { IfOk result (λ found. found ≡ None → IsNotAtFront (IsRowOf frame.algebra frame.corank frame.order) mather_text bytes.now) }
{
    match split_at_byte(bytes, b'\n') {
        None => Ok(None),
        Some((text, rest)) => match read_mather_row(
            alloc,
            frame.algebra,
            frame.corank,
            frame.order,
            text,
        ) {
            Err(NoMemory) => Err(NoMemory),
            Ok(None) => Ok(None),
            Ok(Some(row)) => Ok(Some((row, rest))),
        },
    }
}

// So many of these rows at the front.
fn read_mather_rows(
    alloc: Global,
    frame: Frame,
    count: u64,
    bytes: &[u8],
) -> Result<(Items<MatherRow<Ext<Frac>>>, &[u8]), Halt>
    requires frame { IsFrame frame }
    requires enough { count ≤ most_rows frame.corank }
    ensures ok { IfOk result (IsAtFront (AreMany (IsRowOf frame.algebra frame.corank frame.order) count) (flat_map mather_text) bytes.now) }
    ensures halt { IfErr result (IsHalt (AreMany (IsRowOf frame.algebra frame.corank frame.order) count) (flat_map mather_text) bytes.now) }
{
    let mut rest = bytes;
    let mut rows = Items::new(alloc);
    for count_read in 0..count {
        match take_mather_row(alloc, frame, rest) {
            Err(NoMemory) => return Err(Halt::NoMemory),
            Ok(None) => return Err(Halt::Stop { left: rest.len() }),
            Ok(Some((row, after))) => {
                rest = after;
                match rows.push(row) {
                    Err(_) => return Err(Halt::NoMemory),
                    Ok(()) => {}
                }
            }
        }
    }
    Ok((rows, rest))
}

// The most rows of Mather's condition.
fn mather_limit(corank: u8) -> u64
    ensures { result ≡ most_rows corank }
{
    if corank == 0 { 0 } else { 1140 }
}

/// These rows with their count.
pub(crate) fn read_mather(
    alloc: Global,
    frame: Frame,
    bytes: &[u8],
) -> Result<(Items<MatherRow<Ext<Frac>>>, &[u8]), Halt>
    requires frame { IsFrame frame }
    ensures ok { IfOk result (IsAtFront (AreAtMost (IsRowOf frame.algebra frame.corank frame.order) (most_rows frame.corank)) (counted_text Word.Mather mather_text) bytes.now) }
    ensures halt { IfErr result (IsHalt (AreAtMost (IsRowOf frame.algebra frame.corank frame.order) (most_rows frame.corank)) (counted_text Word.Mather mather_text) bytes.now) }
{
    match take_number(Word::Mather, 0, mather_limit(frame.corank), bytes) {
        None => Err(Halt::Stop { left: bytes.len() }),
        Some((count, rest)) => read_mather_rows(alloc, frame, count, rest),
    }
}

// The row of the table in the line at the front.
fn take_table_row(
    alloc: Global,
    frame: Frame,
    size: usize,
    bytes: &[u8],
) -> Result<Option<(TableRow<Ext<Frac>>, &[u8])>, NoMemory>
    requires frame { IsFrame frame }
    ensures some { IfOk result (λ found. IfSome found (IsAtFront (IsTableRowOf frame.algebra frame.corank frame.order size) table_text bytes.now)) }
    ensures none { IfOk result (λ found. found ≡ None → IsNotAtFront (IsTableRowOf frame.algebra frame.corank frame.order size) table_text bytes.now) }
{
    match split_at_byte(bytes, b'\n') {
        None => Ok(None),
        Some((text, rest)) => match read_table_row(
            alloc,
            frame.algebra,
            frame.corank,
            frame.order,
            size,
            text,
        ) {
            Err(NoMemory) => Err(NoMemory),
            Ok(None) => Ok(None),
            Ok(Some(row)) => Ok(Some((row, rest))),
        },
    }
}

// So many of these rows at the front.
fn read_table_rows(
    alloc: Global,
    frame: Frame,
    size: usize,
    count: u64,
    bytes: &[u8],
) -> Result<(Items<TableRow<Ext<Frac>>>, &[u8]), Halt>
    requires frame { IsFrame frame }
    ensures ok { IfOk result (IsAtFront (AreMany (IsTableRowOf frame.algebra frame.corank frame.order size) count) (flat_map table_text) bytes.now) }
    ensures halt { IfErr result (IsHalt (AreMany (IsTableRowOf frame.algebra frame.corank frame.order size) count) (flat_map table_text) bytes.now) }
{
    let mut rest = bytes;
    let mut rows = Items::new(alloc);
    for count_read in 0..count {
        match take_table_row(alloc, frame, size, rest) {
            Err(NoMemory) => return Err(Halt::NoMemory),
            Ok(None) => return Err(Halt::Stop { left: rest.len() }),
            Ok(Some((row, after))) => {
                rest = after;
                match rows.push(row) {
                    Err(_) => return Err(Halt::NoMemory),
                    Ok(()) => {}
                }
            }
        }
    }
    Ok((rows, rest))
}

/// These rows with their count.
pub(crate) fn read_table(
    alloc: Global,
    frame: Frame,
    size: usize,
    bytes: &[u8],
) -> Result<(Items<TableRow<Ext<Frac>>>, &[u8]), Halt>
    requires frame { IsFrame frame }
    ensures ok { IfOk result (IsAtFront (AreAtMost (IsTableRowOf frame.algebra frame.corank frame.order size) 1140) (counted_text Word.Table table_text) bytes.now) }
    ensures halt { IfErr result (IsHalt (AreAtMost (IsTableRowOf frame.algebra frame.corank frame.order size) 1140) (counted_text Word.Table table_text) bytes.now) }
{
    match take_number(Word::Table, 0, 1140, bytes) {
        None => Err(Halt::Stop { left: bytes.len() }),
        Some((count, rest)) => read_table_rows(alloc, frame, size, count, rest),
    }
}
