//! Carrying a germ by moves, order by order: laws of the definitions.
#![tactic(auto)]

pub mod laws;
