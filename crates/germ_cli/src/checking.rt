//! The command `check`.
ghost use Rattle.germ_cli.specs.Checking.{Checks};
ghost use Rattle.line_io.specs.Causes.{Rose};
ghost use Rattle.std.specs.Prelude.{◌≡◌, if◌then◌else◌};

use crate::finding::answer_to;
use crate::status::Status;
use line_io::{Chunk, Lines, Sink, Source, write_whole};
use std::alloc::Global;

// How a run ends whose chunks are all answered.
fn end_of(invalid: bool) -> Status
    ensures { result ≡ (if invalid then Status.Invalid else Status.Done) }
{
    if invalid {
        Status::Invalid
    } else {
        Status::Done
    }
}

/// Reads chunk by chunk, and writes the line of each before the next chunk is read.
///
/// Errors: `Invalid` where some line begins with `invalid`; `ReadFault` and `WriteFault` only where a
/// read or a write failed.
pub fn check_chunks<S: Source, W: Sink>(alloc: Global, source: &mut S, sink: &mut W) -> Status
    ensures checks { Checks (S.left source.old) (S.left source.new) (W.taken sink.old) (W.taken sink.new) result }
    ensures read { result ≡ Status.ReadFault → Rose (S.faults source.old) (S.faults source.new) }
    ensures write { result ≡ Status.WriteFault → Rose (W.faults sink.old) (W.faults sink.new) }
    ensures other { result ≡ Status.Usage → ⊥ }
{
    let Ok(mut lines) = Lines::new(alloc) else {
        return Status::NoMemory;
    };
    let mut invalid = false;
    loop {
        let Ok(chunk) = lines.next_chunk(alloc, source) else {
            return Status::NoMemory;
        };
        let bytes = match chunk {
            Chunk::Bytes(bytes) => bytes,
            Chunk::End => return end_of(invalid),
            Chunk::ReadFault => return Status::ReadFault,
            Chunk::InputLimit => return Status::InputLimit,
        };
        let Ok(answer) = answer_to(alloc, &bytes) else {
            return Status::NoMemory;
        };
        if write_whole(sink, &answer.text).is_err() {
            return Status::WriteFault;
        }
        invalid = invalid || answer.invalid;
    }
}
