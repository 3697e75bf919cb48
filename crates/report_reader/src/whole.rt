//! Whole reports at the front of bytes.

ghost use Rattle.std.specs.Prelude.{◌≡◌, ℕ, ◌++◌, None, IfOk, IfErr, IfSome};
ghost use Rattle.cert_text.specs.Text.{report_text, word_line};
ghost use Rattle.cert_text.specs.WellFormed.{IsOneLine, IsWellFormed, IsWellFormedAnswer};
ghost use Rattle.text_reader.specs.Reading.{IsAny};
ghost use Rattle.report_reader.specs.Blocks.{IsAtFront, IsNotAtFront, IsHalt};
ghost use Rattle.report_reader.specs.Wholes.{ended_text, too_long_rest};

use crate::answer::read_answer;
use crate::halt::Halt;
use crate::line::{take_line, take_number, take_word_line};
use cert_text::{Answer, Report, Word};
use sqlite_items::Items;
use std::alloc::Global;

// The most bytes of a line that is answered.
const MOST: usize = 65_536;

// The line of the germ at the front.
fn take_germ(bytes: &[u8]) -> Option<(&[u8], &[u8])>
    ensures some { IfSome result (λ p. IsOneLine p.0.now × (word_line Word.Germ p.0.now ++ p.1.now ≡ bytes.now)) }
    ensures none { result ≡ None → IsNotAtFront IsOneLine (word_line Word.Germ) bytes.now }
{
    match take_word_line(Word::Germ, bytes) {
        None => None,
        Some((text, rest)) => {
            if text.len() <= MOST {
                Some((text, rest))
            } else {
                None
            }
        }
    }
}

// What stands behind the lines that follow the length of a line that is too long.
fn behind_too_long(bytes: &[u8]) -> Result<&[u8], Halt>
    ensures ok { IfOk result (λ rest. too_long_rest ++ rest.now ≡ bytes.now) }
    ensures halt { IfErr result (IsHalt {A = ℕ} IsAny (λ n. too_long_rest) bytes.now) }
{
    match take_line(Word::TooLong, bytes) {
        None => Err(Halt::Stop { left: bytes.len() }),
        Some(one) => match take_line(Word::End, one) {
            None => Err(Halt::Stop { left: one.len() }),
            Some(rest) => Ok(rest),
        },
    }
}

// The lines of an answer at the front, with the line `end`.
fn read_ended(alloc: Global, bytes: &[u8]) -> Result<(Answer, &[u8]), Halt>
    ensures ok { IfOk result (IsAtFront IsWellFormedAnswer ended_text bytes.now) }
    ensures halt { IfErr result (IsHalt IsWellFormedAnswer ended_text bytes.now) }
{
    let (answer, one) = match read_answer(alloc, bytes) {
        Err(halt) => return Err(halt),
        Ok(read) => read,
    };
    match take_line(Word::End, one) {
        None => Err(Halt::Stop { left: one.len() }),
        Some(rest) => Ok((answer, rest)),
    }
}

/// The report at the front.
pub(crate) fn read_front(alloc: Global, bytes: &[u8]) -> Result<(Report, &[u8]), Halt>
    ensures ok { IfOk result (IsAtFront IsWellFormed report_text bytes.now) }
    ensures halt { IfErr result (IsHalt IsWellFormed report_text bytes.now) }
{
    match take_number(Word::Long, 0, u64::MAX, bytes) {
        Some((length, one)) => match behind_too_long(one) {
            Err(halt) => Err(halt),
            Ok(rest) => Ok((Report::Long { length }, rest)),
        },
        None => match take_germ(bytes) {
            None => Err(Halt::Stop { left: bytes.len() }),
            Some((text, one)) => match read_ended(alloc, one) {
                Err(halt) => Err(halt),
                Ok((answer, rest)) => match Items::from_slice(alloc, text) {
                    Err(_) => Err(Halt::NoMemory),
                    Ok(line) => Ok((Report::Line { line, answer }, rest)),
                },
            },
        },
    }
}
