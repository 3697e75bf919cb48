//! Reading reports from their text.
#![tactic(auto)]

mod answer;
mod carrying;
mod change;
mod error;
mod frame;
mod functional;
mod halt;
mod limit;
mod line;
mod named;
mod pair;
mod report;
mod rows;
mod value;
mod whole;

pub use error::ReadError;
pub use report::read_report;
