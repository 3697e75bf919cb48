//! Reading a line of the grammar byte by byte, and where it stops being one.
#![tactic(auto)]

mod line;
mod place;
mod reader;
mod step;
mod steps;

pub use line::{LineError, LineTokens, read_tokens};
pub use place::Place;
pub use reader::read_names;
pub use step::Step;
pub use steps::read_steps;
