//! The items of a report: the conditions that a checker tests, in order.

/// A condition on a report and its line.
#[derive(Clone, Copy, Debug, PartialEq, Eq)]
pub enum Item {
    Refusal,
    Germ,
    Shape,
    Inverse,
    Carry,
    Form,
    Units,
    Modulus,
    Mather,
    Milnor,
    Functional,
    Pattern,
}
