//! Substitution respects products, and substituting twice is substituting the composed parts, all cut at k: laws of the definition.

pub use poly_law::laws::{subst_compose_cut as subst_compose, subst_mul};
