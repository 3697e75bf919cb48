//! The names of the families.

/// A family of normal forms by its name in Arnold's list.
#[derive(Clone, Copy, Debug, PartialEq, Eq)]
pub enum Family {
    A(u8),
    D(u8),
    E6,
    E7,
    E8,
    P8,
    X9,
    J10,
    T(u8, u8, u8),
    E12,
    E13,
    E14,
    Z11,
    Z12,
    Z13,
    W12,
    W13,
    Q10,
    Q11,
    Q12,
    S11,
    S12,
    U12,
}
