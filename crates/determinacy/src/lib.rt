//! Mather's test of finite determinacy.
#![tactic(auto)]

pub mod laws;
mod row;
mod test;

pub use row::{MatherRow, MatherTest};
pub use test::mather;
