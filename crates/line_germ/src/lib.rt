//! Reading a line: its germ, or the exact place of its refusal.
#![tactic(auto)]

mod names;
mod reading;

pub use reading::{Germ, Read, read_line};
