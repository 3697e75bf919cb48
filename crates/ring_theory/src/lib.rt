//! The mathematics of rings without code: commutative rings, whole numbers, unlimited rational numbers, scalars with heights, and a solver for ring equations.
#![tactic(auto)]

pub mod laws;
