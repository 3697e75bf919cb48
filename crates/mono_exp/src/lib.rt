//! Monomials as exponent vectors in at most eight variables, in the graded order: the lower degree
//! first, and within a degree the greater exponent at the first place that differs.
#![tactic(auto)]

mod enumeration;
mod exponent;
pub mod laws;
mod number;

pub use enumeration::list;
pub use exponent::{Exp, before, degree, quotient, times, weight};
pub use number::{rank, unrank};
