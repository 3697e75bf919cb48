//! A basis of the truncated Milnor algebra, and the reduction of each monomial onto it.

use jet_poly::Jet;
use mono_exp::Exp;
use sqlite_items::Items;

/// A monomial by the basis: one value for each basis monomial, and the multipliers of the partials
/// that make the difference.
#[derive(Drop)]
pub struct TableRow<E> {
    pub monomial: Exp,
    pub values: Items<E>,
    pub multipliers: Items<Jet<E>>,
}

/// The jets up to an order modulo the partials of one of them: a basis, and one row for each monomial.
#[derive(Drop)]
pub struct JetQuotient<E> {
    pub basis: Items<Exp>,
    pub table: Items<TableRow<E>>,
}
