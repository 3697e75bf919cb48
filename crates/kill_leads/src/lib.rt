//! The leads of the principal parts in code: the one table, the first lead that divides a monomial,
//! and the numbers that the entries of a lead stand for.
#![tactic(auto)]

mod lead;
mod table;

pub use lead::{first_lead, monomial, multiplied};
pub use table::{form, grading, leads, variables};
