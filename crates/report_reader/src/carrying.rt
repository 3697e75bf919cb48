//! The lines from `order` to the jet.

ghost use Rattle.std.specs.Prelude.{IfOk, IfErr};
ghost use Rattle.cert_text.specs.Text.{carried_text};
ghost use Rattle.cert_text.specs.WellFormed.{IsWellFormedCarried};
ghost use Rattle.report_reader.specs.Blocks.{IsAtFront, IsHalt};

use crate::change::read_change;
use crate::frame::Frame;
use crate::halt::Halt;
use crate::line::{take_line, take_number};
use crate::value::take_algebra;
use cert_text::{Carried, Word};
use std::alloc::Global;

/// The germ in new variables: the lines from `order` to the jet, in the line of this word.
pub(crate) fn read_carried(
    alloc: Global,
    word: Word,
    bytes: &[u8],
) -> Result<(Carried, &[u8]), Halt>
    ensures ok { IfOk result (IsAtFront IsWellFormedCarried (carried_text word) bytes.now) }
    ensures halt { IfErr result (IsHalt IsWellFormedCarried (carried_text word) bytes.now) }
{
    let (order, one) = match take_number(Word::Order, 2, 16, bytes) {
        None => return Err(Halt::Stop { left: bytes.len() }),
        Some(taken) => taken,
    };
    let (algebra, two) = match take_algebra(one) {
        None => return Err(Halt::Stop { left: one.len() }),
        Some(taken) => taken,
    };
    let (corank, three) = match take_number(Word::Corank, 0, 8, two) {
        None => return Err(Halt::Stop { left: two.len() }),
        Some(taken) => taken,
    };
    let rest = match take_line(Word::Change, three) {
        None => return Err(Halt::Stop { left: three.len() }),
        Some(rest) => rest,
    };
    let frame = Frame {
        order: order as u8,
        algebra,
        corank: corank as u8,
    };
    read_change(alloc, word, frame, rest)
}
