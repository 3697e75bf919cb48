//! What a reader of lines answers.

/// What comes next: a line, the length of one that is too long, the end of the input, or why no more
/// is read.
#[derive(Clone, Copy, Debug, PartialEq, Eq)]
pub enum Next {
    Line,
    Long(u64),
    End,
    ReadFault,
    InputLimit,
}
