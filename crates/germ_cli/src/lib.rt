//! The program, over any source and sink.
#![tactic(auto)]

mod answers;
mod checking;
mod classification;
mod command;
mod finding;
mod status;
mod told;
mod top;

pub use command::{Command, read_words};
pub use status::Status;
pub use top::run;
