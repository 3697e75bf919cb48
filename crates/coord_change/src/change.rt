//! A change of coordinates with the inverse of its linear part.

use jet_poly::Jet;
use ring_law::Ring;
use sqlite_items::Items;

/// A change of coordinates in n variables up to an order: what is put for each variable, and a
/// matrix, row after row.
///
/// The parts have no constant term. Row i of the linear part holds the linear coefficients of
/// part i, and `inverse` is the inverse matrix of the linear part, n times n entries.
#[derive(Drop)]
pub struct Change<E> {
    pub n: u8,
    pub order: u8,
    pub parts: Items<Jet<E>>,
    pub inverse: Items<E>,
}

/// The changes of coordinates over a ring.
pub type ChangeOf<R> = Change<<R as Ring>::Elem>;
