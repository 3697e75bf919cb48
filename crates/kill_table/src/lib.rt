//! The kill moves of principal parts: each monomial of a grade is reduced by the leads of the part,
//! and what the reduction takes from the variables is a change of coordinates.
#![tactic(auto)]

mod laws;
mod moves;
mod principal;
mod reduction;
mod sum;

pub use kill_law::Part;
pub use kill_leads::grading;
pub use laws::units_are_enough;
pub use principal::{Principal, kill, kill_at, letter};
