//! Runs of the program over sources and sinks in memory, as tests.
#![tactic(auto)]

mod words;

pub use words::words_of;

#[cfg(test)]
mod checks;
#[cfg(test)]
mod faults;
#[cfg(test)]
mod rows;
#[cfg(test)]
mod streams;
