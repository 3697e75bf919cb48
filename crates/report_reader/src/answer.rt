//! Answers.

ghost use Rattle.std.specs.Prelude.{◌≡◌, None, IfOk, IfErr, IfSome};
ghost use Rattle.cert_text.specs.Text.{answer_text};
ghost use Rattle.cert_text.specs.WellFormed.{IsWellFormedAnswer};
ghost use Rattle.report_reader.specs.Blocks.{IsAtFront, IsNotAtFront, IsHalt};
ghost use Rattle.report_reader.specs.Answers.{IsPlaced, IsUnplaced, IsFromKind};

use crate::carrying::read_carried;
use crate::halt::Halt;
use crate::limit::read_limit;
use crate::line::{take_line, take_number};
use crate::named::{read_named, read_unresolved};
use crate::value::{take_family, take_pattern, take_phase, take_place, take_variable};
use cert_text::{Answer, Outside, Word};
use std::alloc::Global;

// An answer about a place in the line, at the front.
#[tactic(auto, unfolding(cert_text::specs::Text::answer_text))]
fn take_placed(bytes: &[u8]) -> Option<(Answer, &[u8])>
    ensures some { IfSome result (IsAtFront IsPlaced answer_text bytes.now) }
    ensures none { result ≡ None → IsNotAtFront IsPlaced answer_text bytes.now }
{
    match take_place(bytes) {
        Some(((column, what), rest)) => Some((Answer::Syntax { column, what }, rest)),
        None => match take_number(Word::Literal, 0, 4_294_967_295, bytes) {
            Some((column, rest)) => Some((
                Answer::Literal {
                    column: column as u32,
                },
                rest,
            )),
            None => match take_variable(bytes) {
                Some((variable, rest)) => Some((Answer::NotCritical { variable }, rest)),
                None => None,
            },
        },
    }
}

// An answer without place and without jet, at the front.
#[tactic(auto, unfolding(cert_text::specs::Text::answer_text))]
fn take_unplaced(bytes: &[u8]) -> Option<(Answer, &[u8])>
    ensures some { IfSome result (IsAtFront IsUnplaced answer_text bytes.now) }
    ensures none { result ≡ None → IsNotAtFront IsUnplaced answer_text bytes.now }
{
    match take_phase(bytes) {
        Some((phase, rest)) => Some((Answer::Range { phase }, rest)),
        None => match take_line(Word::Unbuilt, bytes) {
            Some(rest) => Some((Answer::Unbuilt, rest)),
            None => None,
        },
    }
}

// An unresolved germ.
fn read_last(alloc: Global, bytes: &[u8]) -> Result<(Answer, &[u8]), Halt>
    ensures ok { IfOk result (IsAtFront (IsFromKind 4) answer_text bytes.now) }
    ensures halt { IfErr result (IsHalt (IsFromKind 4) answer_text bytes.now) }
{
    match take_line(Word::Unresolved, bytes) {
        None => Err(Halt::Stop { left: bytes.len() }),
        Some(behind) => match read_unresolved(alloc, behind) {
            Err(halt) => Err(halt),
            Ok((unresolved, rest)) => Ok((Answer::Unresolved(unresolved), rest)),
        },
    }
}

// A germ that is not decided up to its order, or an unresolved one.
fn read_undecided(alloc: Global, bytes: &[u8]) -> Result<(Answer, &[u8]), Halt>
    ensures ok { IfOk result (IsAtFront (IsFromKind 3) answer_text bytes.now) }
    ensures halt { IfErr result (IsHalt (IsFromKind 3) answer_text bytes.now) }
{
    match take_line(Word::Limit, bytes) {
        None => read_last(alloc, bytes),
        Some(behind) => match read_limit(alloc, behind) {
            Err(halt) => Err(halt),
            Ok((limit, rest)) => Ok((Answer::Limit(limit), rest)),
        },
    }
}

// A germ without name.
fn read_unnamed(alloc: Global, bytes: &[u8]) -> Result<(Answer, &[u8]), Halt>
    ensures ok { IfOk result (IsAtFront (IsFromKind 2) answer_text bytes.now) }
    ensures halt { IfErr result (IsHalt (IsFromKind 2) answer_text bytes.now) }
{
    match take_pattern(bytes) {
        None => read_undecided(alloc, bytes),
        Some((pattern, behind)) => match read_carried(alloc, Word::Jet, behind) {
            Err(halt) => Err(halt),
            Ok((carried, rest)) => Ok((Answer::Outside(Outside { pattern, carried }), rest)),
        },
    }
}

// An answer with a jet.
fn read_with_jet(alloc: Global, bytes: &[u8]) -> Result<(Answer, &[u8]), Halt>
    ensures ok { IfOk result (IsAtFront (IsFromKind 1) answer_text bytes.now) }
    ensures halt { IfErr result (IsHalt (IsFromKind 1) answer_text bytes.now) }
{
    match take_family(bytes) {
        None => read_unnamed(alloc, bytes),
        Some((family, behind)) => match read_named(alloc, family, behind) {
            Err(halt) => Err(halt),
            Ok((named, rest)) => Ok((Answer::Named(named), rest)),
        },
    }
}

/// The answer at the front.
pub(crate) fn read_answer(alloc: Global, bytes: &[u8]) -> Result<(Answer, &[u8]), Halt>
    ensures ok { IfOk result (IsAtFront IsWellFormedAnswer answer_text bytes.now) }
    ensures halt { IfErr result (IsHalt IsWellFormedAnswer answer_text bytes.now) }
{
    match take_placed(bytes) {
        Some((answer, rest)) => Ok((answer, rest)),
        None => match take_unplaced(bytes) {
            Some((answer, rest)) => Ok((answer, rest)),
            None => read_with_jet(alloc, bytes),
        },
    }
}
