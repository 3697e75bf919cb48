//! The lines or chunks of a source, one after another.
ghost use Rattle.std.specs.Prelude.{◌≡◌, ◌≤◌, [], length, false, IfOk};

use crate::line_buffer::LineBuffer;
use crate::read_buffer::ReadBuffer;
use ring_law::NoMemory;
use std::alloc::Global;

/// The lines or the chunks of a source, read as they come into buffers that are taken once.
#[derive(Drop)]
pub struct Lines {
    pub(crate) buffer: ReadBuffer,
    pub(crate) line: LineBuffer,
    pub(crate) taken: u64,
    pub(crate) ended: bool,
    pub(crate) faulted: bool,
    pub(crate) out_of_memory: bool,
    ghost small: { length buffer ≤ 65536 },
}

impl Lines {
    ghost use Rattle.line_io.specs.Reading.{IsFresh, current_line};

    /// No byte was read yet. It takes the memory of both buffers.
    pub fn new(alloc: Global) -> Result<Lines, NoMemory>
        ensures fresh { IfOk result IsFresh }
    {
        let buffer = match ReadBuffer::new(alloc) {
            Ok(buffer) => buffer,
            Err(error) => return Err(error),
        };
        match LineBuffer::new(alloc) {
            Ok(line) => Ok(Lines {
                buffer,
                line,
                taken: 0,
                ended: false,
                faulted: false,
                out_of_memory: false,
            }),
            Err(error) => Err(error),
        }
    }

    /// The line, after `Next::Line`.
    pub fn line(&self) -> &[u8]
        ensures { result.now ≡ current_line self.now }
    {
        self.line.kept()
    }
}
