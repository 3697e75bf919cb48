//! Report texts have one reading: laws over the definition of the text.
#![tactic(auto)]

mod laws;

pub use laws::{one_output, one_report};
