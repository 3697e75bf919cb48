//! Chains over the rational numbers, over an algebra.
#![tactic(auto)]

mod lifting;

pub use lifting::lift_chain;
