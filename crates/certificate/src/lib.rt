//! What the certificate of a carried germ needs, as a report holds it: Mather's test of its residual part, and the truncated Milnor algebra.
#![tactic(auto)]

mod evidence;
mod modulus;
mod unit;

pub use evidence::{milnor_algebra, test};
pub use modulus::modulus_line;
pub use unit::units;
