//! A source in memory, whose failures are given by a list.
ghost use Rattle.line_io.specs.Causes.{HasCause};
ghost use Rattle.std.specs.Io.{ReadsAtMost};
ghost use Rattle.std.specs.Io.KnownBytes.{ReadConsumes};
ghost use Rattle.std.specs.Prelude.{◌≡◌, ◌≤◌, length, drop, min, IfOk, Some, is_err};

use crate::{Failed, Source};
use ring_law::NoMemory;
use std::alloc::Global;

/// Bytes in memory. A read fails at the calls whose numbers, from 1, are in a list; every other call
/// gives as many of the bytes left as fit into the buffer, but at most `step`.
#[derive(Drop)]
pub struct MemSource {
    bytes: Vec<u8>,
    given: usize,
    step: usize,
    failing: Vec<u64>,
    calls: u64,
    faults: u64,
    ghost within: { given ≤ length bytes.items },
    ghost moves: { 1 ≤ step },
}

impl MemSource {
    ghost use Rattle.line_io.specs.Memory.{IsNewSource};

    /// A source of these bytes that gives at most `step` of them a call, and fails at the calls whose
    /// numbers, from 1, are in `failing`.
    pub fn new(
        alloc: Global,
        bytes: &[u8],
        step: usize,
        failing: &[u64],
    ) -> Result<MemSource, NoMemory>
        requires moves { 1 ≤ step }
        ensures new { IfOk result (IsNewSource bytes.now step failing.now) }
    {
        let Ok(bytes) = Vec::from_slice(alloc, bytes) else {
            return Err(NoMemory);
        };
        let Ok(failing) = Vec::from_slice(alloc, failing) else {
            return Err(NoMemory);
        };
        Ok(MemSource {
            bytes,
            given: 0,
            step,
            failing,
            calls: 0,
            faults: 0,
        })
    }
}

impl Source for MemSource {
    ghost use Rattle.line_io.specs.Memory.{IsNextSource, is_failing, next_call, source_calls, source_failing, source_faults, source_left, source_step};

    ghost left = { λ s. Some (source_left s) };

    ghost faults = { λ s. source_faults s };

    fn read(&mut self, buf: &mut [u8]) -> Result<usize, Failed>
        ensures bound { ReadsAtMost result buf.new }
        ensures bytes { ReadConsumes (Some (source_left self.old)) (Some (source_left self.new)) result buf.new }
        ensures cause { HasCause (source_faults self.old) (source_faults self.new) result }
        ensures fails { is_err result ≡ is_failing (source_failing self.old) (next_call (source_calls self.old)) }
        ensures gives { IfOk result (λ n. n ≡ min (min (length (source_left self.old)) (length buf.old)) (source_step self.old)) }
        ensures next { IsNextSource self.old self.new }
    {
        self.calls = self.calls.saturating_add(1);
        if self.failing.contains(&self.calls) {
            self.faults = self.faults.saturating_add(1);
            return Err(Failed);
        }
        let (_, rest) = self.bytes.split_at(self.given);
        let count = rest.len().min(buf.len()).min(self.step);
        let (next, _) = rest.split_at(count);
        let (front, _) = buf.split_at_mut(count);
        front.copy_from_slice(next);
        self.given += count;
        Ok(count)
    }
}
