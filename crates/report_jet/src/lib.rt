//! The jets of a report over the ring of its algebra.
#![tactic(auto)]

mod lifted;
mod residual;
mod terms;

pub use lifted::{lifted_element, lifted_jet};
pub use residual::residual_jet;
pub use terms::{are_same_terms, is_same_monomial};
