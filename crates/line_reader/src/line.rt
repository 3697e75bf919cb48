//! A line as names and steps, or where it is refused.

ghost use Rattle.std.specs.Prelude.{◌≡◌, IfOk, MatchResult, map};
ghost use Rattle.line_reader.specs.Refusals.{IsTokensOf, IsRefusal};

use crate::reader::read_names;
use crate::step::Step;
use crate::steps::read_steps;
use std::alloc::{AllocError, Global};

/// The names of a line in order, and its tokens.
#[derive(Debug, Drop)]
pub struct LineTokens {
    pub names: Vec<Vec<u8>>,
    pub steps: Vec<Step>,
}

/// Why a line is refused, and how many bytes stand before that place.
#[derive(Clone, Copy, Debug, PartialEq, Eq)]
pub enum LineError {
    Syntax(usize),
    Literal(usize),
}

/// The tokens of a line, or why it is refused.
pub fn read_tokens(alloc: Global, line: &[u8]) -> Result<Result<LineTokens, LineError>, AllocError>
    ensures { IfOk result (λ r. MatchResult r (λ t. IsTokensOf line.now (map (λ v. v.items) t.names.items) t.steps.items) (λ e. IsRefusal line.now e)) }
{
    match read_names(alloc, line)? {
        Err(n) => Ok(Err(LineError::Syntax(n))),
        Ok(names) => match read_steps(alloc, names.as_slice(), line)? {
            Err(n) => Ok(Err(LineError::Literal(n))),
            Ok(steps) => Ok(Ok(LineTokens { names, steps })),
        },
    }
}
