//! Rows of entries, and what solves or excludes a target.

use sqlite_items::Items;

/// The entries of a row that are not zero, with their columns, which rise.
#[derive(Debug, Drop)]
pub struct Row<E: Drop> {
    pub entries: Items<(u32, E)>,
}

/// What there is to say of a target: a combination of the rows, or a functional that excludes one.
#[derive(Debug, Drop)]
pub enum Solution<E: Drop> {
    /// One coefficient for each row; the combination is the target.
    Solved(Vec<E>),
    /// A functional that is 0 on every row and 1 on the target, by its values that are not zero, with columns that rise.
    Excluded(Vec<(u32, E)>),
}

/// What is left of a target by the reduced echelon form of rows: the target less a combination of the rows, with 0 in the columns of the pivots.
#[derive(Debug, Drop)]
pub struct Remainder<E: Drop> {
    /// The entries that are left and not zero, with their columns, which rise.
    pub left: Items<(u32, E)>,
    /// The coefficients of the combination that are not zero, by the numbers of their rows, which rise.
    pub coefficients: Items<(u32, E)>,
}

/// The reduced echelon form of rows, and what is left of targets by it.
#[derive(Debug, Drop)]
pub struct Reduction<E: Drop> {
    pub form: Items<Row<E>>,
    pub remainders: Items<Remainder<E>>,
}
