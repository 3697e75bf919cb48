//! What stands before a term while a line is read.

/// The sum so far, the sign of the term that comes, and the product so far.
#[derive(Drop)]
pub struct Frame<E: Drop> {
    pub sum: Option<E>,
    pub minus: bool,
    pub product: Option<E>,
}

/// What was read last: nothing of a factor, an atom, an atom with `^`, a term with `/`, or a whole term.
#[derive(Drop)]
pub enum At<E: Drop> {
    Wanted,
    Seen(E),
    Exponent(E),
    Divisor(E),
    Term(E),
}

/// The frames of the open groups as a stack, what stands before the term here, and what was read last.
#[derive(Drop)]
pub struct Calculation<E: Drop> {
    pub stack: Vec<Frame<E>>,
    pub frame: Frame<E>,
    pub at: At<E>,
}
