//! What a valid report and a right report are, what a valid one means, and the verdicts of a checker.
#![tactic(auto)]

mod item;
mod verdict;
mod wording;

ghost use Rattle.report_law.specs.Meaning.{LimitHasNoRows, NamedHasRows, NamedIsFree, NamedIsFreeWhole};

pub use item::Item;
pub use verdict::{Finding, Verdict};
pub use wording::{item_bytes, put_finding, put_verdict};

/// Of a valid named report the jets of the order modulo the partials of the form's residual part are
/// free with the printed basis, so that the Milnor number is their dimension.
pub fn named_is_free()
    ensures { NamedIsFree }
{}

/// Of a valid named report the jets of the order in all variables, modulo the Jacobian ideal of the
/// printed form, are free with the printed basis, so that the Milnor number is their dimension.
pub fn named_is_free_whole()
    ensures { NamedIsFreeWhole }
{}

/// The germ of a valid limit report does not meet Mather's condition at the order of the report or
/// below.
pub fn limit_has_no_rows()
    ensures { LimitHasNoRows }
{}

/// The form of a valid named report meets Mather's condition at the order of the report, for all its
/// monomials, those with square variables among them.
pub fn named_has_rows()
    ensures { NamedHasRows }
{}
