//! The truncated Milnor algebra.
#![tactic(auto)]

mod quotient;

pub use quotient::{JetQuotient, TableRow};
