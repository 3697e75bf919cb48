//! The name of a variable.

/// The name of a variable: its first `len` bytes, and zeros.
#[derive(Clone, Copy, Debug, PartialEq, Eq)]
pub struct Name {
    pub bytes: [u8; 4],
    pub len: u8,
}
