//! Changes of coordinates: the identity, linear changes, changes from given parts, composition, inverses, the transformed jet, and
//! germs that are carried by a growing list of changes.
#![tactic(auto)]

mod chain;
mod change;
mod composed;
mod composition;
mod error;
mod forms;
mod growth;
mod inverse;
mod inversion;
mod matrix;
mod parts;
mod pullback;
mod rows;
mod steps;
mod unit;

pub use chain::{Chain, composite, grow, push, start};
pub use change::{Change, ChangeOf};
pub use composition::then;
pub use error::ChangeError;
pub use forms::linear;
pub use inversion::invert_to;
pub use matrix::{matrix_product, unit_matrix};
pub use parts::{from_parts, linear_part};
pub use pullback::{carried_jet, carry};
pub use steps::Steps;
pub use unit::{identity, monomial};
