//! The items of a report that speak of its change of coordinates: whether the printed matrix is the inverse of its linear part, and whether it carries the
//! germ to the printed jet.
#![tactic(auto)]

mod carry;
mod inverse;
mod item;

pub use carry::is_carried_jet;
pub use inverse::is_inverse_matrix;
pub use item::{is_carried, is_invertible_change};
