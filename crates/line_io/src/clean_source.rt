//! A source in memory that never fails.
ghost use Rattle.line_io.specs.Causes.{HasCause};
ghost use Rattle.std.specs.Io.{ReadsAtMost};
ghost use Rattle.std.specs.Io.KnownBytes.{ReadConsumes};
ghost use Rattle.std.specs.Prelude.{◌≡◌, ◌≤◌, length, min, IfOk, IsOk, Some};

use crate::{Failed, Source};
use ring_law::NoMemory;
use std::alloc::Global;

/// Bytes in memory. A read gives as many of the bytes left as fit into the buffer, and never fails.
#[derive(Drop)]
pub struct CleanSource {
    bytes: Vec<u8>,
    given: usize,
    ghost within: { given ≤ length bytes.items },
}

impl CleanSource {
    ghost use Rattle.line_io.specs.Memory.{clean_left};

    /// A source of these bytes.
    pub fn new(alloc: Global, bytes: &[u8]) -> Result<CleanSource, NoMemory>
        ensures bytes { IfOk result (λ s. clean_left s ≡ bytes.now) }
    {
        match Vec::from_slice(alloc, bytes) {
            Ok(bytes) => Ok(CleanSource { bytes, given: 0 }),
            Err(_) => Err(NoMemory),
        }
    }
}

impl Source for CleanSource {
    ghost use Rattle.line_io.specs.Memory.{clean_left};

    ghost left = { λ s. Some (clean_left s) };

    ghost faults = { λ s. 0 };

    fn read(&mut self, buf: &mut [u8]) -> Result<usize, Failed>
        ensures bound { ReadsAtMost result buf.new }
        ensures bytes { ReadConsumes (Some (clean_left self.old)) (Some (clean_left self.new)) result buf.new }
        ensures cause { HasCause 0 0 result }
        ensures clean { IsOk result }
        ensures gives { IfOk result (λ n. n ≡ min (length (clean_left self.old)) (length buf.old)) }
    {
        let (_, rest) = self.bytes.split_at(self.given);
        let count = rest.len().min(buf.len());
        let (next, _) = rest.split_at(count);
        let (front, _) = buf.split_at_mut(count);
        front.copy_from_slice(next);
        self.given += count;
        Ok(count)
    }
}
