//! The value of a line's steps, over any kind of numbers.
#![tactic(auto)]

mod calculation;
mod calculator;
mod line;
mod powers;
mod steps;

pub use calculation::{At, Calculation, Frame};
pub use calculator::Calculator;
pub use line::evaluate_line;
pub use powers::power;
pub use steps::evaluate;
