//! The item Milnor of a report: the table of its truncated Milnor algebra.
#![tactic(auto)]

mod item;
mod monomials;

pub use item::is_milnor_table;
