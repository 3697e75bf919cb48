//! Linear algebra over a field by sparse rows: elimination with evidence both ways.
#![tactic(auto)]

mod echelon;
mod excluded;
mod forms;
pub mod laws;
mod line;
mod plain;
mod reduction;
mod row;
mod stage;
mod systems;

pub use forms::{kernel, reduce};
pub use reduction::reduce_all;
pub use row::{Reduction, Remainder, Row, Solution};
pub use systems::{solve, solve_all};
