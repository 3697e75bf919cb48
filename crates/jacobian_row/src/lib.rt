//! The multiples of the partials of a jet by monomials, as rows whose columns are the numbers of monomials, and combinations of them.
#![tactic(auto)]

mod monomial;
mod multiple;
mod multiplier;
mod partial;
mod row;

pub use monomial::monomials_to;
pub use multiple::{Multiple, monomials, multiples};
pub use multiplier::multipliers;
pub use partial::partials;
pub use row::{monomial_rows, multiple_rows};
