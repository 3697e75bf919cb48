//! The items of a report that speak of its line: refusals, the germ, and the shape.
#![tactic(auto)]

mod germ;
mod refusal;
mod shape;
mod tested;

pub use germ::{GermTest, read_germ};
pub use refusal::{is_literal_refusal, is_syntax_refusal, is_too_long, test_not_critical};
pub use shape::is_shape;
pub use tested::Tested;
