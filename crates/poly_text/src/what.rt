//! Where a line leaves the grammar.

/// What stands where a line stops being the front of a line of the grammar: a byte, or its end.
#[derive(Clone, Copy, Debug, PartialEq, Eq)]
pub enum What {
    Byte,
    End,
}
