//! The germ of a line as a jet over the rational numbers.
#![tactic(auto)]

mod fractions;
mod jet_ring;
mod linear;
mod read;
mod ring;
mod simple;

pub use jet_ring::JetRing;
pub use read::{LineGerm, LineRead, read_jet};
