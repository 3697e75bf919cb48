//! The terms of degree 2 as a sum of squares: the move of the Hessian, and its law.
#![tactic(auto)]

mod composing;
mod diagonal;
pub mod laws;
mod matrix;
mod pivot;
mod stage;

pub use diagonal::{Diagonal, diagonalise};
