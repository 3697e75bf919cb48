//! The families of normal forms of the list, and the patterns of jets past it.
#![tactic(auto)]

mod admission;
mod assembly;
mod coefficient;
mod distinct;
mod family;
mod form;
mod invariant;
mod j_invariant;
mod kind;
mod membership;
mod milnor;
mod modulus_line;
mod pattern;
mod split;
mod sum;
mod unit;

pub use assembly::form_of;
pub use coefficient::sum_coefficients;
pub use family::Family;
pub use form::{corank, has_form, is_form};
pub use invariant::{
    QUARTIC_DISCRIMINANT, QUARTIC_I, QUARTIC_J, QUARTIC_NUMERATOR, TRIPLE_DISCRIMINANT,
    TRIPLE_NUMERATOR, quartic_discriminant_of, quartic_i_and_discriminant, quartic_invariants,
    triple_discriminant_of,
};
pub use j_invariant::modulus;
pub use kind::{Kind, family_kind};
pub use membership::in_pattern;
pub use milnor::index;
pub use modulus_line::ModulusLine;
pub use pattern::Pattern;
pub use split::{is_residual_monomial, is_split, square};
