//! A line as a germ, or why it has none.

ghost use Rattle.std.specs.Prelude.{◌≡◌, ℕ, ◌≤◌, List, map, length, IfOk};
ghost use Rattle.line_reader.specs.Refusals.{IsTokensOf};
ghost use Rattle.line_jet_law.specs.LineJets.{order_limit};
ghost use Rattle.line_jet.specs.Reads.{IsReadOf};

use crate::jet_ring::JetRing;
use crate::linear::{first_linear, without_constant};
use jet_poly::Jet;
use line_reader::{LineError, LineTokens, Step, read_tokens};
use line_value::evaluate_line;
use ring_law::{Fault, Frac};
use std::alloc::{AllocError, Global};

/// The names of a line in order, and its germ.
#[derive(Drop)]
pub struct LineGerm {
    pub names: Vec<Vec<u8>>,
    pub jet: Jet<Frac>,
}

/// The germ of a line, or why it has none. `Syntax` and `Literal` count the bytes before the place,
/// and `NotCritical` has the names of the line and the first variable with a linear coefficient.
#[derive(Drop)]
pub enum LineRead {
    Germ(LineGerm),
    Syntax(usize),
    Literal(usize),
    Range,
    NotCritical(Vec<Vec<u8>>, usize),
}

// The order up to which a line in n variables is read.
fn order_limit_of(limit: u8, n: u8) -> u8
    ensures { result ≡ order_limit limit n }
{
    if n <= 4 { limit } else { limit.min(12) }
}

// The germ of the steps of a line, or why they have none.
fn read_steps(
    alloc: Global,
    names: Vec<Vec<u8>>,
    steps: &[Step],
    limit: u8,
) -> Result<LineRead, AllocError>
    requires line { (bytes : List ℕ) × (length bytes ≤ 65536) × IsTokensOf bytes (map (λ v. v.items) names.items) steps.now }
    requires at_least_3 { 3 ≤ limit }
    requires at_most_16 { limit ≤ 16 }
    ensures { (bytes : List ℕ) → length bytes ≤ 65536 → IsTokensOf bytes (map (λ v. v.items) names.items) steps.now
        → IfOk result (IsReadOf bytes limit) }
{
    let n = names.len();
    let count = n as u8;
    let order = order_limit_of(limit, count);
    let ring = JetRing { count, order };
    match evaluate_line(alloc, &ring, n, steps) {
        Err(Fault::NoMemory) => Err(AllocError),
        Err(Fault::Range(_)) => Ok(LineRead::Range),
        Ok(f) => match first_linear(f.terms(), n) {
            Some(i) => Ok(LineRead::NotCritical(names, i)),
            None => {
                let jet = without_constant(alloc, count, order, &f)?;
                Ok(LineRead::Germ(LineGerm { names, jet }))
            }
        },
    }
}

/// Reads a line: its germ up to the order limit for its variables, or why it has none.
///
/// The order is `limit` for at most four variables, and the smaller of `limit` and 12 for five to eight.
pub fn read_jet(alloc: Global, line: &[u8], limit: u8) -> Result<LineRead, AllocError>
    requires short { length line.now ≤ 65536 }
    requires at_least_3 { 3 ≤ limit }
    requires at_most_16 { limit ≤ 16 }
    ensures { IfOk result (IsReadOf line.now limit) }
{
    match read_tokens(alloc, line)? {
        Err(LineError::Syntax(n)) => Ok(LineRead::Syntax(n)),
        Err(LineError::Literal(n)) => Ok(LineRead::Literal(n)),
        Ok(LineTokens { names, steps }) => read_steps(alloc, names, steps.as_slice(), limit),
    }
}
