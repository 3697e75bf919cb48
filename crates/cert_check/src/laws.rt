//! Laws of verdicts.

ghost use Rattle.cert_check.specs.Laws.{OneVerdict};

/// A report is valid, or it has no items, or one item is its first false one, and no two of these.
pub fn one_verdict()
    ensures { OneVerdict }
{}
