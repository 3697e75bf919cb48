//! The functional of a limit report.

ghost use Rattle.std.specs.Prelude.{◌≡◌, ◌+◌, ◌≤◌, ◌<◌, ◌↔◌, IsTrue, None, IfOk, IfErr, IfSome};
ghost use Rattle.std.specs.List.{flat_map};
ghost use Rattle.cert_text.specs.Text.{functional_text};
ghost use Rattle.cert_text.specs.WellFormed.{list_limit};
ghost use Rattle.row_reader.specs.Values.{IsResidual};
ghost use Rattle.report_reader.specs.Blocks.{IsAtFront, IsNotAtFront, IsHalt};
ghost use Rattle.report_reader.specs.Functional.{IsFunctional, functional_lines, number_of, number_limit, IsHead, head_line, IsLater, AreFrom};

use crate::halt::Halt;
use crate::line::take_word_line;
use crate::pair::read_counted;
use cert_text::Word;
use ext_algebra::{Algebra, Ext};
use mono_exp::{Exp, rank};
use ring_law::Frac;
use row_reader::read_functional_value;
use sqlite_items::Items;
use std::alloc::Global;
use text_reader::split_at_byte;

// The number of monomials of degree at most 17 in so many variables.
fn number_limit_of(corank: u8) -> u32
    requires { corank ≤ 8 }
    ensures { result ≡ number_limit corank }
{
    match corank {
        0 => 1,
        1 => 18,
        2 => 171,
        3 => 1140,
        4 => 5985,
        5 => 26334,
        6 => 100_947,
        7 => 346_104,
        _ => 1_081_575,
    }
}

// How many residual monomials stand before this one.
fn number(corank: u8, m: Exp) -> u32
    requires corank { corank ≤ 8 }
    requires residual { IsResidual corank m }
    ensures number { result ≡ number_of corank m }
    ensures within { result < number_limit corank }
{
    rank(corank, m)
}

// The number is at least this one, and leaves room for so many from it on.
fn has_room(corank: u8, low: u32, left: u64, m: Exp) -> bool
    requires corank { corank ≤ 8 }
    requires residual { IsResidual corank m }
    requires few { left ≤ list_limit }
    ensures { IsTrue result ↔ ((low ≤ number_of corank m) × (number_of corank m + left ≤ number_limit corank)) }
{
    let at = number(corank, m);
    low <= at && u64::from(at) + left <= u64::from(number_limit_of(corank))
}

// The value in the line at the front, with room for as many from it on.
fn take_value(
    a: Algebra,
    corank: u8,
    low: u32,
    left: u64,
    bytes: &[u8],
) -> Option<((Exp, Ext<Frac>), &[u8])>
    requires corank { corank ≤ 8 }
    requires few { left ≤ list_limit }
    ensures some { IfSome result (IsAtFront (IsLater a corank low left) functional_text bytes.now) }
    ensures none { result ≡ None → IsNotAtFront (IsLater a corank low left) functional_text bytes.now }
{
    match split_at_byte(bytes, b'\n') {
        None => None,
        Some((text, rest)) => match read_functional_value(a, corank, text) {
            None => None,
            Some(value) => {
                if has_room(corank, low, left, value.0) {
                    Some((value, rest))
                } else {
                    None
                }
            }
        },
    }
}

// So many values at the front.
fn read_values(
    alloc: Global,
    a: Algebra,
    corank: u8,
    count: u64,
    bytes: &[u8],
) -> Result<(Items<(Exp, Ext<Frac>)>, &[u8]), Halt>
    requires corank { corank ≤ 8 }
    requires few { count ≤ list_limit }
    requires room { count ≤ number_limit corank }
    ensures ok { IfOk result (IsAtFront (AreFrom a corank 0 count) (flat_map functional_text) bytes.now) }
    ensures halt { IfErr result (IsHalt (AreFrom a corank 0 count) (flat_map functional_text) bytes.now) }
{
    let mut rest = bytes;
    let mut low = 0;
    let mut values = Items::new(alloc);
    for i in 0..count {
        match take_value(a, corank, low, count - i, rest) {
            None => return Err(Halt::Stop { left: rest.len() }),
            Some((value, after)) => {
                rest = after;
                low = number(corank, value.0) + 1;
                match values.push(value) {
                    Err(_) => return Err(Halt::NoMemory),
                    Ok(()) => {}
                }
            }
        }
    }
    Ok((values, rest))
}

// There can be so many values.
fn is_few(corank: u8, count: u64) -> bool
    requires { corank ≤ 8 }
    ensures { IsTrue result ↔ ((count ≤ list_limit) × (count ≤ number_limit corank)) }
{
    count <= 1140 && count <= u64::from(number_limit_of(corank))
}

// The monomial and the number of values in the line at the front.
fn take_head(corank: u8, bytes: &[u8]) -> Option<((Exp, u64), &[u8])>
    requires { corank ≤ 8 }
    ensures some { IfSome result (IsAtFront (IsHead corank) head_line bytes.now) }
    ensures none { result ≡ None → IsNotAtFront (IsHead corank) head_line bytes.now }
{
    match take_word_line(Word::Functional, bytes) {
        None => None,
        Some((text, rest)) => match read_counted(corank, text) {
            None => None,
            Some(head) => {
                if is_few(corank, head.1) {
                    Some((head, rest))
                } else {
                    None
                }
            }
        },
    }
}

/// The functional of a limit report: a monomial and values, over an algebra in so many residual variables.
pub(crate) fn read_functional(
    alloc: Global,
    a: Algebra,
    corank: u8,
    bytes: &[u8],
) -> Result<((Exp, Items<(Exp, Ext<Frac>)>), &[u8]), Halt>
    requires { corank ≤ 8 }
    ensures ok { IfOk result (IsAtFront (IsFunctional a corank) functional_lines bytes.now) }
    ensures halt { IfErr result (IsHalt (IsFunctional a corank) functional_lines bytes.now) }
{
    match take_head(corank, bytes) {
        None => Err(Halt::Stop { left: bytes.len() }),
        Some((head, rest)) => match read_values(alloc, a, corank, head.1, rest) {
            Err(halt) => Err(halt),
            Ok((values, end)) => Ok(((head.0, values), end)),
        },
    }
}
