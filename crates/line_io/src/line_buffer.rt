//! The line that is being read.
ghost use Rattle.line_io.specs.Lines.{without_last};
ghost use Rattle.line_io.specs.LineSoFar.{IsLineOf, Pushes, counted_length};
ghost use Rattle.line_io.specs.Reading.{IsHandedOut};
ghost use Rattle.std.specs.Prelude.{◌≡◌, ◌≤◌, ◌<◌, ◌+◌, ◌-◌, ◌^◌, ℕ, List, [], length, slice_index, IfOk, if◌then◌else◌, ◌==◌};

use crate::line::MAX_LINE;
use crate::next::Next;
use ring_law::NoMemory;
use std::alloc::Global;
use std::marker::Model;

/// The first bytes of the line so far, at most 65,538, the number of all its bytes, and the last one.
#[derive(Drop)]
pub struct LineBuffer {
    kept: Vec<u8>,
    total: u64,
    last: u8,
}

const ROOM: usize = 65_538;

impl Model for LineBuffer {
    ghost use Rattle.line_io.specs.LineSoFar.{LineSoFar};
    ghost use Rattle.line_io.specs.Room.{Fits};
    ghost use Rattle.std.specs.Prelude.{◌≤◌, length};

    ghost Value = { LineSoFar };

    ghost view = { λ b. record { kept = b.kept.items; total = b.total; last = b.last } };

    ghost invariant = { λ b. (length b.kept.items ≤ 65538) × Fits b.kept 65538 };
}

// The last byte of the part, or the one before it where the part is empty.
fn last_byte(part: &[u8], before: u8) -> u8
    ensures { result ≡ (if length part.now == 0 then before else slice_index part.now (length part.now - 1)) }
{
    match part {
        [.., last] => *last,
        [] => before,
    }
}

// The number of bytes without one carriage return at the end.
fn line_length(total: u64, last: u8) -> u64
    ensures { result ≡ counted_length total last }
{
    if total != 0 && last == b'\r' {
        total - 1
    } else {
        total
    }
}

impl LineBuffer {
    /// An empty line, with its memory.
    pub fn new(alloc: Global) -> Result<LineBuffer, NoMemory>
        ensures { IfOk result (λ b. b ≡ record { kept = []; total = 0; last = 0 }) }
    {
        match Vec::with_capacity(alloc, ROOM) {
            Ok(kept) => Ok(LineBuffer {
                kept,
                total: 0,
                last: 0,
            }),
            Err(_) => Err(NoMemory),
        }
    }

    /// Begins an empty line.
    pub fn clear(&mut self)
        ensures { self.new ≡ record { kept = []; total = 0; last = 0 } }
    {
        self.kept.clear();
        self.total = 0;
        self.last = 0;
    }

    /// No byte of the line was read.
    pub fn is_empty(&self) -> bool
        ensures { result ≡ (self.now.total == 0) }
    {
        self.total == 0
    }

    /// The bytes kept.
    pub fn kept(&self) -> &[u8]
        ensures { result.now ≡ self.now.kept }
    {
        &self.kept
    }

    /// More bytes of the line.
    pub fn push(&mut self, part: &[u8])
        requires small { self.old.total + length part.now < 2 ^ 64 }
        ensures { Pushes self.old self.new part.now }
    {
        let count = part.len().min(ROOM - self.kept.len());
        let (front, _) = part.split_at(count);
        let Ok(()) = self.kept.extend_from_slice(front) else {
            unreachable!()
        };
        self.total += part.len() as u64;
        self.last = last_byte(part, self.last);
    }

    /// Ends the line: without one carriage return at its end it is the line, or too long.
    pub fn finish(&mut self) -> Next
        ensures line { (bytes : List ℕ) → IsLineOf bytes self.old → IsHandedOut (without_last 13 bytes) self.new.kept result }
        ensures counted { self.new.total ≡ self.old.total }
        ensures last { self.new.last ≡ self.old.last }
    {
        let length = line_length(self.total, self.last);
        if length > MAX_LINE as u64 {
            return Next::Long(length);
        }
        self.kept.truncate(length as usize);
        Next::Line
    }
}
