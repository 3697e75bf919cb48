//! The rows of Mather's test, and its two answers.

use jet_poly::Jet;
use mono_exp::Exp;
use sqlite_items::Items;

/// A monomial as a combination of the partials of a jet: the multiplier of each partial.
#[derive(Drop)]
pub struct MatherRow<E> {
    pub monomial: Exp,
    pub multipliers: Items<Jet<E>>,
}

/// The answer of Mather's test: a row for each monomial, or a functional that is 0 on the
/// combinations and 1 on the monomial `at`.
#[derive(Drop)]
pub enum MatherTest<E> {
    Holds(Items<MatherRow<E>>),
    Fails {
        functional: Items<(Exp, E)>,
        at: Exp,
    },
}
