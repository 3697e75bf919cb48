//! Polynomials of bounded degree over any ring, as terms in the monomial order: sums, products,
//! derivatives and truncations.
#![tactic(auto)]

mod coefficient;
mod collect;
mod gather;
mod jet;
mod product;
mod walk;

pub use coefficient::coef;
pub use collect::{add, from_terms};
pub use jet::{Jet, JetOf};
pub use product::mul_cut;
pub use walk::{cut, derivative, part, scale};
