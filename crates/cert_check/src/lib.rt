//! The verdict on a report.
#![tactic(auto)]

mod carried;
mod certificate;
mod evidence;
mod found;
mod item;
mod laws;
mod verdict;

pub use laws::one_verdict;
pub use verdict::check;
