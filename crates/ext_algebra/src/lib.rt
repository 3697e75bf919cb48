//! The algebras of coefficients: the rationals, R[t] modulo a monic polynomial of degree 2 or 3 over any ring R, and the tower of degree 6.
#![tactic(auto)]

mod algebra;
mod algebra_field;
mod algebra_ring;
mod field;
pub mod inverse;
pub mod product;
mod ring;
mod tower;
mod tower_field;

pub use algebra::{Algebra, Ext, Triple};
pub use algebra_field::AlgebraField;
pub use algebra_ring::AlgebraRing;
pub use field::{ExtError, ExtField};
pub use ring::ExtRing;
pub use tower::{flat, nest};
pub use tower_field::TowerField;
