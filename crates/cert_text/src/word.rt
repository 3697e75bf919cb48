//! The words at the front of a report's lines.

/// A word at the front of a line, with the kind of answer where it is an answer's.
#[derive(Clone, Copy, Debug, PartialEq, Eq)]
pub enum Word {
    Germ,
    Long,
    TooLong,
    Syntax,
    Literal,
    NotCritical,
    Range,
    Unbuilt,
    Named,
    Outside,
    Limit,
    Unresolved,
    Order,
    Algebra,
    Corank,
    Change,
    Inverse,
    Form,
    Jet,
    Units,
    Modulus,
    Milnor,
    Mather,
    Basis,
    Table,
    Functional,
    End,
}
