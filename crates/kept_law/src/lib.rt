//! What the moves of an order keep of all that the plan has reached: laws of the definitions.
#![tactic(auto)]

pub mod laws;
