//! The bytes that were read from a source and not handed out yet.
ghost use Rattle.std.specs.Io.KnownBytes.{Consumes, IsAtEnd, Keeps};
ghost use Rattle.line_io.specs.Causes.{Rose};
ghost use Rattle.std.specs.Prelude.{◌≡◌, ◌≤◌, ℕ, List, [], length, drop, take, IfOk, OnErr};

use crate::{Failed, Source};
use ring_law::NoMemory;
use std::alloc::Global;
use std::marker::Model;

const SIZE: usize = 65_536;

/// The bytes that were read and not handed out, at most 65,536.
#[derive(Drop)]
pub struct ReadBuffer {
    bytes: Vec<u8>,
    start: usize,
    end: usize,
}

impl Model for ReadBuffer {
    ghost Value = { List ℕ };

    ghost view = { λ b. drop b.start (take b.end b.bytes.items) };

    ghost invariant = { λ b. (b.start ≤ b.end) × (b.end ≤ length b.bytes.items) × (length b.bytes.items ≡ 65536) };
}

impl ReadBuffer {
    /// An empty buffer, with its memory.
    pub fn new(alloc: Global) -> Result<ReadBuffer, NoMemory>
        ensures { IfOk result (λ b. b ≡ []) }
    {
        match vec![in alloc; 0u8; SIZE] {
            Ok(bytes) => Ok(ReadBuffer {
                bytes,
                start: 0,
                end: 0,
            }),
            Err(_) => Err(NoMemory),
        }
    }

    /// The bytes held.
    pub fn held(&self) -> &[u8]
        ensures held { result.now ≡ self.now }
        ensures bound { length result.now ≤ 65536 }
    {
        let (front, _) = self.bytes.split_at(self.end);
        let (_, held) = front.split_at(self.start);
        held
    }

    /// Drops the first bytes.
    pub fn skip(&mut self, count: usize)
        requires within { count ≤ length self.old }
        ensures { self.new ≡ drop count self.old }
    {
        self.start += count;
    }

    /// Reads the next bytes, and says how many; none at the end of the input.
    ///
    /// Errors: `Failed` only where the count of faults rose.
    pub fn refill<S: Source>(&mut self, source: &mut S) -> Result<usize, Failed>
        requires empty { self.old ≡ [] }
        ensures bytes { IfOk result (λ n. Consumes (S.left source.old) (S.left source.new) self.new × (length self.new ≡ n)) }
        ensures bound { IfOk result (λ n. n ≤ 65536) }
        ensures end { IfOk result (λ n. n ≡ 0 → IsAtEnd (S.left source.new)) }
        ensures later { S.faults source.old ≤ S.faults source.new }
        ensures failed { OnErr result (Rose (S.faults source.old) (S.faults source.new) × Keeps (S.left source.old) (S.left source.new) × (self.new ≡ [])) }
    {
        self.start = 0;
        self.end = 0;
        match source.read(&mut self.bytes) {
            Ok(count) => {
                self.end = count;
                Ok(count)
            }
            Err(failed) => Err(failed),
        }
    }
}
