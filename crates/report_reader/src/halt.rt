//! Where the reader of a block of lines stops.

/// A block was not read: so many bytes are left behind the lines that begin one, or memory ran out.
#[derive(Clone, Copy, Debug, PartialEq, Eq)]
pub(crate) enum Halt {
    Stop { left: usize },
    NoMemory,
}
