//! What the test of an item answers.

/// Whether an item holds, or that its numbers are too high to tell.
#[derive(Clone, Copy, Debug, PartialEq, Eq)]
pub enum Tested {
    Holds,
    Fails,
    High,
}
