//! Why bytes were not read as a report.

use thiserror::Error;

/// Why bytes were not read as a report.
#[derive(Clone, Copy, Debug, PartialEq, Eq, Error)]
pub enum ReadError {
    /// The bytes are the text of no well-formed report. The first `offset` of them are the most
    /// whole lines that begin such a text.
    #[error("no report from byte {offset} on")]
    BadText { offset: u64 },
    /// Memory ran out.
    #[error("out of memory")]
    NoMemory,
}
