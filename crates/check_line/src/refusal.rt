//! Refusals: the line is too long, is not in the grammar, has a number that is too large, or has a
//! linear term.

ghost use Rattle.std.specs.Prelude.{◌≡◌, ◌<◌, ◌≤◌, ◌↔◌, ◌&&◌, ◌==◌, length, IfOk, IsTrue};
ghost use Rattle.germ_law.specs.Germ.{line_limit};
ghost use Rattle.line_germ.specs.Reads.{IsSyntaxAt, IsLiteralAt, IsLinearIn};
ghost use Rattle.report_law.specs.Right.{IsHighLine};
ghost use Rattle.check_line.specs.Lines.{refusal_limit};
ghost use Rattle.check_line.specs.Tests.{IsTested};

use crate::tested::Tested;
use line_germ::{Read, read_line};
use poly_text::{Name, What};
use ring_law::NoMemory;
use std::alloc::Global;

// The order limit up to which the line of a refusal is read.
const LIMIT: u8 = 3;

/// True where a line of so many bytes is too long.
pub fn is_too_long(size: u64) -> bool
    ensures { IsTrue result ↔ (line_limit < size) }
{
    size > 65536
}

// True where both are the same.
fn is_same_what(a: What, b: What) -> bool
    ensures { IsTrue result ↔ (a ≡ b) }
{
    match (a, b) {
        (What::Byte, What::Byte) | (What::End, What::End) => true,
        (What::Byte, What::End) | (What::End, What::Byte) => false,
    }
}

// True where column and kind are the same.
fn is_same_refusal(found: u32, kind: What, column: u32, what: What) -> bool
    ensures { IsTrue result ↔ ((found ≡ column) × (kind ≡ what)) }
{
    found == column && is_same_what(kind, what)
}

/// True where the line stops being the front of a line of the grammar at this column, at a byte or at
/// its end.
pub fn is_syntax_refusal(
    alloc: Global,
    line: &[u8],
    column: u32,
    what: What,
) -> Result<bool, NoMemory>
    requires { length line.now ≤ line_limit }
    ensures { IfOk result (λ b. IsTrue b ↔ IsSyntaxAt line.now column what) }
{
    match read_line(alloc, line, LIMIT) {
        Err(NoMemory) => Err(NoMemory),
        Ok(
            Read::Syntax {
                column: found,
                what: kind,
            },
        ) => Ok(is_same_refusal(found, kind, column, what)),
        Ok(Read::Germ(_)) => Ok(false),
        Ok(Read::Literal { .. }) => Ok(false),
        Ok(Read::Range) => Ok(false),
        Ok(Read::NotCritical { .. }) => Ok(false),
    }
}

/// True where the first number of the line that is too large begins at this column.
pub fn is_literal_refusal(alloc: Global, line: &[u8], column: u32) -> Result<bool, NoMemory>
    requires { length line.now ≤ line_limit }
    ensures { IfOk result (λ b. IsTrue b ↔ IsLiteralAt line.now column) }
{
    match read_line(alloc, line, LIMIT) {
        Err(NoMemory) => Err(NoMemory),
        Ok(Read::Literal { column: found }) => Ok(found == column),
        Ok(Read::Germ(_)) => Ok(false),
        Ok(Read::Syntax { .. }) => Ok(false),
        Ok(Read::Range) => Ok(false),
        Ok(Read::NotCritical { .. }) => Ok(false),
    }
}

// Whether two names are the same, as the test of an item.
fn test_name(a: Name, b: Name) -> Tested
    ensures { IsTested (a ≡ b) ⊥ result }
{
    if a == b { Tested::Holds } else { Tested::Fails }
}

/// Whether this is the first variable of the line with a linear coefficient that is not 0: `High` only
/// where reading the line up to order 3 forms a number of height at least 2^120.
pub fn test_not_critical(alloc: Global, line: &[u8], variable: Name) -> Result<Tested, NoMemory>
    requires { length line.now ≤ line_limit }
    ensures { IfOk result (IsTested (IsLinearIn line.now variable) (IsHighLine line.now refusal_limit)) }
{
    match read_line(alloc, line, LIMIT) {
        Err(NoMemory) => Err(NoMemory),
        Ok(Read::NotCritical { variable: found }) => Ok(test_name(found, variable)),
        Ok(Read::Range) => Ok(Tested::High),
        Ok(Read::Germ(_)) => Ok(Tested::Fails),
        Ok(Read::Syntax { .. }) => Ok(Tested::Fails),
        Ok(Read::Literal { .. }) => Ok(Tested::Fails),
    }
}
