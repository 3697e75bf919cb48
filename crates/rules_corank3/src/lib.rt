//! The rules for three residual variables: the base kill and the patterns of a part, and pieces of its finish.
#![tactic(auto)]

mod extend;
mod finish_choice;
mod finish_part;
mod monomials;
mod pattern;
mod powers;

pub use extend::extend3;
pub use finish_choice::{Choice, choices, first_choice};
pub use finish_part::finish_by_choice;
pub use pattern::pattern_of3;
pub use powers::in_order;
