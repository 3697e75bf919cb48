//! The truncated Milnor algebra of a jet: a basis of monomials, and the reduction of each monomial onto it.
#![tactic(auto)]

mod algebra;
mod basis;
mod table;

pub use algebra::quotient;
