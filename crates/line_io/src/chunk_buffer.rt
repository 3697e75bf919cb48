//! The chunk that is being read.
ghost use Rattle.line_io.specs.Chunks.{is_end};
ghost use Rattle.std.specs.Prelude.{◌≡◌, ◌≤◌, ◌<◌, ◌++◌, ◌==◌, [], ℕ, List, drop, length, take, OnErr, OnOk};

use crate::line::is_end_line;
use ring_law::NoMemory;
use std::alloc::Global;
use std::marker::Model;

/// The bytes of the chunk so far, and where its last line begins.
#[derive(Drop)]
pub struct ChunkBuffer {
    bytes: Vec<u8>,
    line_start: usize,
}

impl Model for ChunkBuffer {
    ghost use Rattle.line_io.specs.ChunkSoFar.{ChunkSoFar};
    ghost use Rattle.std.specs.Prelude.{◌≤◌, drop, length, take};

    ghost Value = { ChunkSoFar };

    ghost view = { λ b. record { whole = take b.line_start b.bytes.items; last = drop b.line_start b.bytes.items } };

    ghost invariant = { λ b. b.line_start ≤ length b.bytes.items };
}

impl ChunkBuffer {
    /// No byte yet.
    pub fn new(alloc: Global) -> ChunkBuffer
        ensures { result ≡ record { whole = []; last = [] } }
    {
        ChunkBuffer {
            bytes: Vec::new(alloc),
            line_start: 0,
        }
    }

    /// More bytes of the last line.
    pub fn push(&mut self, part: &[u8]) -> Result<(), NoMemory>
        ensures { OnOk result (self.new ≡ record { whole = self.old.whole; last = self.old.last ++ part.now }) }
    {
        match self.bytes.extend_from_slice(part) {
            Ok(()) => Ok(()),
            Err(_) => Err(NoMemory),
        }
    }

    /// The last line is `end`, with its newline.
    pub fn is_ended(&self) -> bool
        ensures { result ≡ is_end self.now.last }
    {
        let (_, last) = self.bytes.split_at(self.line_start);
        is_end_line(last)
    }

    /// Begins an empty line.
    pub fn begin_line(&mut self)
        ensures { self.new ≡ record { whole = self.old.whole ++ self.old.last; last = [] } }
    {
        self.line_start = self.bytes.len();
    }

    /// There is no byte.
    pub fn is_empty(&self) -> bool
        ensures { result ≡ (length (self.now.whole ++ self.now.last) == 0) }
    {
        self.bytes.is_empty()
    }

    /// All bytes.
    pub fn into_bytes(self) -> Vec<u8>
        ensures { result.items ≡ self.whole ++ self.last }
    {
        let ChunkBuffer {
            bytes,
            line_start: _,
        } = self;
        bytes
    }
}
