//! The words of a line, and why a line has no answer.

ghost use Rattle.std.specs.Prelude.{IfOk};
ghost use Rattle.ring_law.specs.Fraction.{IsFrac};
ghost use Rattle.ext_algebra.specs.Algebra.{IsAlgebra};

use coord_change::ChangeError;
use ext_algebra::{Algebra, ExtError};
use poly_text::put_fraction;
use ring_law::{Fault, Frac, NoMemory, Range};
use std::alloc::{AllocError, AllocFailed, Global};
use std::str::FromStr;
use text_reader::{read_algebra, read_fraction, read_u8, split_at_byte};

/// Why a line has no answer: its words ask for nothing that there is, nothing is what is asked for, a number is out of range, or memory ran out.
#[derive(Clone, Copy)]
pub(crate) enum Stop {
    Words,
    Nothing,
    Singular,
    Reducible { root: Frac },
    Square { root: Frac },
    Range,
    NoMemory,
}

impl From<Range> for Stop {
    fn from(_e: Range) -> Stop {
        Stop::Range
    }
}

impl From<NoMemory> for Stop {
    fn from(_e: NoMemory) -> Stop {
        Stop::NoMemory
    }
}

impl From<Fault> for Stop {
    fn from(e: Fault) -> Stop {
        match e {
            Fault::Range(_) => Stop::Range,
            Fault::NoMemory => Stop::NoMemory,
        }
    }
}

impl<E: Drop> From<ChangeError<E>> for Stop {
    fn from(e: ChangeError<E>) -> Stop {
        match e {
            ChangeError::Singular { kernel: _ } => Stop::Singular,
            ChangeError::Range(_) => Stop::Range,
            ChangeError::NoMemory => Stop::NoMemory,
        }
    }
}

impl From<AllocError> for Stop {
    fn from(_e: AllocError) -> Stop {
        Stop::NoMemory
    }
}

impl<T: Drop> From<AllocFailed<T>> for Stop {
    fn from(_e: AllocFailed<T>) -> Stop {
        Stop::NoMemory
    }
}

impl From<ExtError> for Stop {
    fn from(e: ExtError) -> Stop {
        match e {
            ExtError::Reducible { root } => Stop::Reducible { root },
            ExtError::Square { root } => Stop::Square { root },
            ExtError::Range(_) => Stop::Range,
        }
    }
}

impl Stop {
    /// Appends the word for it.
    pub(crate) fn put(self, out: &mut Vec<u8>) -> Result<(), AllocError> {
        match self {
            Stop::Words => out.extend_from_slice(b"what"),
            Stop::Nothing => out.extend_from_slice(b"none"),
            Stop::Singular => out.extend_from_slice(b"singular"),
            Stop::Reducible { root } => {
                out.extend_from_slice(b"reducible ")?;
                put_fraction(out, root)
            }
            Stop::Square { root } => {
                out.extend_from_slice(b"square ")?;
                put_fraction(out, root)
            }
            Stop::Range => out.extend_from_slice(b"range"),
            Stop::NoMemory => out.extend_from_slice(b"no memory"),
        }
    }
}

/// Whether a word is another one.
pub(crate) fn is(word: &[u8], name: &[u8]) -> bool {
    word == name
}

/// The words of a line that are not read yet, with single spaces between them.
#[derive(Drop)]
pub(crate) struct Words<'a> {
    pub(crate) rest: &'a [u8],
}

impl<'a> Words<'a> {
    /// The next word, empty where there is none.
    pub(crate) fn next(&mut self) -> &'a [u8] {
        match split_at_byte(self.rest, b' ') {
            Some((word, rest)) => {
                self.rest = rest;
                word
            }
            None => {
                let word = self.rest;
                self.rest = b"";
                word
            }
        }
    }

    /// The small number that the next word spells.
    pub(crate) fn small(&mut self) -> Result<u8, Stop> {
        read_u8(self.next()).ok_or(Stop::Words)
    }

    /// The number that the next word spells, as std reads numbers.
    pub(crate) fn number<N: FromStr>(&mut self, alloc: Global) -> Result<N, Stop>
    where
        N::Err: Drop,
    {
        let word = String::from_utf8_lossy(alloc, self.next())?;
        word.as_str().parse::<N>().ok().ok_or(Stop::Words)
    }

    /// The algebra that the next word spells, or the next three where the second is a semicolon.
    pub(crate) fn algebra(&mut self, alloc: Global) -> Result<Algebra, Stop>
        ensures { IfOk result IsAlgebra }
    {
        let mut text = Vec::new(alloc);
        text.extend_from_slice(self.next())?;
        if self.rest.starts_with(b"; ") {
            let _ = self.next();
            text.extend_from_slice(b" ; ")?;
            text.extend_from_slice(self.next())?;
        }
        match read_algebra(&text) {
            Some(algebra) => Ok(algebra),
            None => Err(Stop::Words),
        }
    }

    /// The fraction that the next word spells in lowest terms.
    pub(crate) fn fraction(&mut self) -> Result<Frac, Stop>
        ensures { IfOk result IsFrac }
    {
        read_fraction(self.next()).ok_or(Stop::Words)
    }
}
