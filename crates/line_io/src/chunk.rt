//! What a reader of chunks answers.

/// What comes next: the bytes of a chunk, the end of the input, or why no more is read.
#[derive(Debug, Drop)]
pub enum Chunk {
    Bytes(Vec<u8>),
    End,
    ReadFault,
    InputLimit,
}
