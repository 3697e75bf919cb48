//! Why there is no change of coordinates.

ghost use Rattle.std.specs.Prelude.{◌≡◌};
ghost use Rattle.coord_change.specs.Errors.{error_of};
ghost use Rattle.coord_change.specs.declared.error.ChangeError.TheVariants as error;

use ring_law::{Fault, Range};
use std::alloc::{AllocError, AllocFailed};

/// Why given parts or a given matrix make no change of coordinates.
#[derive(Debug, Drop)]
pub enum ChangeError<E: Drop> {
    /// The linear part is singular: it takes this vector, which is not zero, to zero.
    Singular { kernel: Vec<E> },
    /// The inverse of the linear part has a number out of range on the way.
    Range(Range),
    /// Want of memory.
    NoMemory,
}

impl<E: Drop> From<Fault> for ChangeError<E> {
    ghost from_gives = { λ e f. f ≡ error_of e };

    fn from(e: Fault) -> ChangeError<E> {
        match e {
            Fault::Range(e) => ChangeError::Range(e),
            Fault::NoMemory => ChangeError::NoMemory,
        }
    }
}

impl<E: Drop> From<AllocError> for ChangeError<E> {
    ghost from_gives = { λ _ f. f ≡ error.NoMemory };

    fn from(_e: AllocError) -> ChangeError<E> {
        ChangeError::NoMemory
    }
}

impl<T: Drop, E: Drop> From<AllocFailed<T>> for ChangeError<E> {
    ghost from_gives = { λ _ f. f ≡ error.NoMemory };

    fn from(_e: AllocFailed<T>) -> ChangeError<E> {
        ChangeError::NoMemory
    }
}
