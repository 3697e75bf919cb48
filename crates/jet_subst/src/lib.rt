//! Substitution of jets for the variables of a jet, up to a degree.
#![tactic(auto)]

mod blocks;
mod keeping;
pub mod laws;
mod power;
mod substitution;
mod table;
mod truncated;

pub use blocks::block;
pub use keeping::{Kept, keep, product};
pub use power::powers;
pub use substitution::{push_scaled, subst};
