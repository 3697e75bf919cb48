//! Readers of the small texts inside a report's lines.
#![tactic(auto)]

mod algebra;
mod element;
mod family;
mod fraction;
mod modulus_line;
mod monomial;
mod name;
mod number;
mod piece;
mod polynomial;
mod splitting;
mod term;
mod word;

pub use algebra::read_algebra;
pub use element::{is_zero, read_element};
pub use family::read_family;
pub use fraction::read_fraction;
pub use modulus_line::read_modulus_line;
pub use monomial::read_monomial;
pub use name::read_name;
pub use number::{read_u8, read_u32, read_u64};
pub use polynomial::read_polynomial;
pub use splitting::{split_at_byte, strip_front};
pub use word::{read_pattern, read_phase, read_what};
