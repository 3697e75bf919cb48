//! The rows of Mather's test and the functionals of a report, checked by their sums of products.
#![tactic(auto)]

mod combine;
mod derive;
mod functional;
mod jets;
mod monomials;
mod report;
mod rows;

pub use combine::combination;
pub use derive::partial_lists;
pub use functional::{is_failure, sum_of_list};
pub use jets::{is_same_jet, monomial_jet};
pub use monomials::have_same_exponents;
pub use report::{are_mather_rows, is_determined, is_limit_functional};
pub use rows::are_rows;
