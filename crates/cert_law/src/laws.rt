//! The laws on report texts, as contracts of functions that do nothing.

ghost use Rattle.cert_law.specs.Laws.{TextsDiffer, NoTextBegins, IsReadOnce, OutputsAreReadOnce};

/// Different well-formed reports have different texts, and none of these begins another.
pub fn one_report()
    ensures differ { TextsDiffer }
    ensures no_front { NoTextBegins }
    ensures read_once { IsReadOnce }
{}

/// The texts of well-formed reports, one after the other, have one reading as reports.
pub fn one_output()
    ensures { OutputsAreReadOnce }
{}
