//! The command `classify`.
ghost use Rattle.germ_cli.specs.Run.{Classifies, end_status};
ghost use Rattle.germ_cli.specs.Words.{IsLimit};
ghost use Rattle.line_io.specs.Causes.{Rose};
ghost use Rattle.std.specs.Prelude.{◌≡◌};

use crate::answers::text_for;
use crate::status::Status;
use line_io::{Lines, Next, Sink, Source, write_whole};
use std::alloc::Global;

// How a run ends where no line is handed out.
fn end_of(next: Next) -> Option<Status>
    ensures { result ≡ end_status next }
{
    match next {
        Next::Line | Next::Long(_) => None,
        Next::End => Some(Status::Done),
        Next::ReadFault => Some(Status::ReadFault),
        Next::InputLimit => Some(Status::InputLimit),
    }
}

/// Reads line by line, and writes the report of each answered line before the next line is read.
///
/// Errors: `ReadFault` and `WriteFault` only where a read or a write failed.
pub fn classify_lines<S: Source, W: Sink>(
    alloc: Global,
    limit: u8,
    source: &mut S,
    sink: &mut W,
) -> Status
    requires { IsLimit limit }
    ensures classifies { Classifies limit (S.left source.old) (S.left source.new) (W.taken sink.old) (W.taken sink.new) result }
    ensures read { result ≡ Status.ReadFault → Rose (S.faults source.old) (S.faults source.new) }
    ensures write { result ≡ Status.WriteFault → Rose (W.faults sink.old) (W.faults sink.new) }
    ensures other { (result ≡ Status.Usage → ⊥) × (result ≡ Status.Invalid → ⊥) }
{
    let Ok(mut lines) = Lines::new(alloc) else {
        return Status::NoMemory;
    };
    loop {
        let next = lines.next_line(source);
        if let Some(status) = end_of(next) {
            return status;
        }
        let Ok(text) = text_for(alloc, limit, next, lines.line()) else {
            return Status::NoMemory;
        };
        if write_whole(sink, &text).is_err() {
            return Status::WriteFault;
        }
    }
}
