//! The splitting lemma, degree by degree.
#![tactic(auto)]

mod completing;
pub mod laws;
mod splitting;

pub use splitting::split;
