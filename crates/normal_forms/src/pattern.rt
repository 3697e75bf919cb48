//! The patterns of jets past the list.

/// A condition on the monomials of a jet, by the class of Arnold's list that it begins.
#[derive(Clone, Copy, Debug, PartialEq, Eq)]
pub enum Pattern {
    O,
    V,
    N,
    J3,
    Z1,
    W1,
    Q2,
    S1,
    U1,
}
