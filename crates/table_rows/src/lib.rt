//! The rows of the table of a truncated Milnor algebra, checked by their sums of products.
#![tactic(auto)]

mod difference;
mod table;

pub use table::are_table_rows;
