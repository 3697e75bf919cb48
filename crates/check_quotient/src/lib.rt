//! The truncated Milnor algebra of a report, checked by the values of its table.
#![tactic(auto)]

mod image;
mod lookup;
mod unit;

pub use image::are_in_kernel;
pub use unit::{are_low, are_unit_rows};
