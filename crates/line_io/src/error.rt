//! Why a call was refused.
use thiserror::Error;

/// A read or a write that failed. It gave and took no byte.
#[derive(Clone, Copy, Debug, PartialEq, Eq, Error)]
#[error("the read or write failed")]
pub struct Failed;

/// The sink failed, or took nothing of a piece that is not empty.
#[derive(Clone, Copy, Debug, PartialEq, Eq, Error)]
#[error("a write failed")]
pub struct WriteFault;
