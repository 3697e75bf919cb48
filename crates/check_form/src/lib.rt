//! The items of a report that speak of normal forms: its form, its units, its modulus, and the pattern of a jet past the list.
#![tactic(auto)]

mod form;
mod modulus;
mod unit;

pub use form::{is_in_pattern, is_named_form};
pub use modulus::is_modulus_line;
pub use unit::are_units;
