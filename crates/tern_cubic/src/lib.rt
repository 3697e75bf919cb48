//! Ternary cubics over the rational numbers: as jets, the Hessian determinant, the rows of their
//! partials and of the products of these with the quadratic monomials, kernels and ranks of rows,
//! and the matrices of the steps that bring a cubic to its principal part.
//! The coefficients of a cubic stand in the monomial order, from `x^3` to `z^3`.
#![tactic(auto)]

mod cone;
mod cubic;
mod hessian;
mod kernel;
pub mod laws;
mod matrix;
mod moving;
mod pair;
mod pairing;
mod reaching;
mod rows;
mod stepping;
mod steps;

pub use cone::repeated_move;
pub use cubic::cubic_jet;
pub use hessian::hessian3;
pub use kernel::{Kernel, kernel_of, rank_of};
pub use matrix::{Matrix, axis_matrix, pair_matrix, plane_matrix, shear};
pub use moving::Moving;
pub use pair::{PairCase, pair_case};
pub use pairing::{PairMove, pair_move};
pub use reaching::cusp_move;
pub use rows::{partial_rows, product_rows};
pub use stepping::Step;
pub use steps::{
    cusp_first, cusp_second, cusp_third, node_step, secant_step, tangent_first, tangent_second,
    tangent_third,
};
