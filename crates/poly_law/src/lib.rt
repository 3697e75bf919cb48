//! Polynomials over a commutative ring: definitions and laws.
//!
//! The definitions stand in specs/: polynomials as finite sums of terms, partial derivatives, substitution, changes of coordinates, Mather's
//! condition of finite determinacy and the truncated Milnor algebra. No definition names an element of the program, nor a bound on numbers.
#![tactic(auto)]

pub mod examples;
pub mod laws;
