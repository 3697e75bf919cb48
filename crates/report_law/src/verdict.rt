//! What a checker says of a report, and of a chunk of its input.

use crate::item::Item;

/// A verdict on a report: it is valid; it has no items; its first false item; or an item with numbers
/// that are too high, where those before it are true.
#[derive(Clone, Copy, Debug, PartialEq, Eq)]
pub enum Verdict {
    Valid,
    Unchecked,
    Invalid { item: Item },
    Range { item: Item },
}

/// What is found of a chunk: the verdict on the report that it is the text of, or the bytes in its
/// longest front of whole lines that begins some report, where it is the text of none.
#[derive(Clone, Copy, Debug, PartialEq, Eq)]
pub enum Finding {
    Report(Verdict),
    BadText { offset: u64 },
}
