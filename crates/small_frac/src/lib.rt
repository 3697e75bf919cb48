//! The field of the rational numbers by fractions with parts of at most 127 bits: exact values, or a refusal.
#![tactic(auto)]

mod arithmetic;
mod rationals;
mod root;
mod square;

pub use arithmetic::{add, inv, make_frac, mul, neg};
pub use rationals::Rationals;
pub use root::{rational_root_cubic, rational_root_quadratic};
pub use square::{int_root2, is_square};
