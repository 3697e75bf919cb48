//! Shapes of binary forms over a field, by the multiplicities of their linear factors, and the two
//! lines of a quadratic form. The coefficients of a form are plain, from `x^d` to `y^d`.
#![tactic(auto)]

mod cubic;
mod laws;
mod line;
mod number;
mod pair;
mod quartic;

pub use cubic::{Cubic, cubic_shape};
pub use laws::{distinct_cubics, distinct_quartics, quartics_are_as_shaped};
pub use line::Line;
pub use normal_forms::quartic_invariants;
pub use pair::{Pair, pair_lines};
pub use quartic::{Quartic, quartic_shape};
