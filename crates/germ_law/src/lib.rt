//! The polynomial of a line over the rational numbers, its germ, and the height of reading it.
#![tactic(auto)]
