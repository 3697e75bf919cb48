//! What a report says of the modulus of a family.

use ext_algebra::Ext;
use ring_law::Frac;

/// The modulus of a form: there is none, the coefficients of the form carry it, it is the
/// coefficient of the modulus monomial, or it is the j invariant.
#[derive(Clone, Copy, Debug, PartialEq, Eq)]
pub enum ModulusLine {
    None,
    Form,
    Value(Ext<Frac>),
    J(Frac),
}
