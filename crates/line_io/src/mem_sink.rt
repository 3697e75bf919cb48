//! A sink in memory, whose failures are given by a list.
ghost use Rattle.line_io.specs.Causes.{HasCause, IsStuck, Rose};
ghost use Rattle.std.specs.Io.{WritesAtMost};
ghost use Rattle.std.specs.Io.KnownBytes.{WriteAppends};
ghost use Rattle.std.specs.Prelude.{◌≡◌, ◌≤◌, ◌-◌, length, min, IfOk, Some, is_err};
ghost use Rattle.line_io.specs.Room.{Fits};

use crate::{Failed, Sink};
use ring_law::NoMemory;
use std::alloc::Global;

/// Takes bytes into memory that it took when it was made. A write fails at the calls whose numbers,
/// from 1, are in a list; every other call takes as many bytes of the piece as the room left holds,
/// but at most `step`.
#[derive(Drop)]
pub struct MemSink {
    bytes: Vec<u8>,
    room: usize,
    step: usize,
    failing: Vec<u64>,
    calls: u64,
    faults: u64,
    ghost within: { length bytes.items ≤ room },
    ghost has_room: { Fits bytes room },
}

impl MemSink {
    ghost use Rattle.line_io.specs.Memory.{IsNewSink, sink_taken};

    /// An empty sink for `room` bytes that takes at most `step` of them a call, and fails at the calls
    /// whose numbers, from 1, are in `failing`.
    pub fn new(
        alloc: Global,
        room: usize,
        step: usize,
        failing: &[u64],
    ) -> Result<MemSink, NoMemory>
        requires moves { 1 ≤ step }
        ensures new { IfOk result (IsNewSink room step failing.now) }
    {
        let Ok(bytes) = Vec::with_capacity(alloc, room) else {
            return Err(NoMemory);
        };
        let Ok(failing) = Vec::from_slice(alloc, failing) else {
            return Err(NoMemory);
        };
        Ok(MemSink {
            bytes,
            room,
            step,
            failing,
            calls: 0,
            faults: 0,
        })
    }

    /// The bytes taken.
    pub fn bytes(&self) -> &[u8]
        ensures { result.now ≡ sink_taken self.now }
    {
        &self.bytes
    }
}

impl Sink for MemSink {
    ghost use Rattle.line_io.specs.Memory.{IsNextSink, is_failing, next_call, sink_calls, sink_failing, sink_faults, sink_room, sink_step, sink_taken};

    ghost taken = { λ s. Some (sink_taken s) };

    ghost faults = { λ s. sink_faults s };

    fn write(&mut self, piece: &[u8]) -> Result<usize, Failed>
        ensures bound { WritesAtMost result piece.now }
        ensures bytes { WriteAppends (Some (sink_taken self.old)) (Some (sink_taken self.new)) result piece.now }
        ensures cause { HasCause (sink_faults self.old) (sink_faults self.new) result }
        ensures stuck { IsStuck result piece.now → Rose (sink_faults self.old) (sink_faults self.new) }
        ensures fails { is_err result ≡ is_failing (sink_failing self.old) (next_call (sink_calls self.old)) }
        ensures takes { IfOk result (λ n. n ≡ min (min (length piece.now) (sink_room self.old - length (sink_taken self.old))) (sink_step self.old)) }
        ensures next { IsNextSink self.old self.new }
    {
        self.calls = self.calls.saturating_add(1);
        if self.failing.contains(&self.calls) {
            self.faults = self.faults.saturating_add(1);
            return Err(Failed);
        }
        let count = piece.len().min(self.room - self.bytes.len()).min(self.step);
        let (front, _) = piece.split_at(count);
        let Ok(()) = self.bytes.extend_from_slice(front) else {
            unreachable!()
        };
        if count == 0 && !piece.is_empty() {
            self.faults = self.faults.saturating_add(1);
        }
        Ok(count)
    }
}
