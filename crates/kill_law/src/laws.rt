//! Laws of the table of leads and of reductions, each the contract of a function that does nothing.

ghost use Rattle.kill_law.specs.Leads.{LeadsAreRight};
ghost use Rattle.kill_law.specs.Reductions.{KillsLeaveReduced, ReductionsAreRight, ReductionsEnd};

use ring_law::Ring;

/// Each lead of each part is the sum of its cofactors times the partial derivatives of the part's
/// form, plus its tail: over the values of every ring, and for all letters for which what its
/// entries are divided by is invertible.
pub fn leads_are_right<R: Ring>()
    ensures { (a : R) → R.is_ring a → LeadsAreRight (R.meaning a).scalars }
{}

/// A reduction changes a form by what it takes from the variables times the partial derivatives of
/// the part's form: what is left is congruent to the form modulo these.
pub fn reductions_are_right<R: Ring>()
    ensures { (a : R) → R.is_ring a → ReductionsAreRight (R.meaning a).scalars }
{}

/// A reduction ends: what is left has no term that a lead divides.
pub fn reductions_end<R: Ring>()
    ensures { (a : R) → R.is_ring a → ReductionsEnd (R.meaning a).scalars }
{}

/// What a kill move leaves: all below its grade is unchanged, and in the grade there is no monomial
/// that a lead divides.
pub fn kills_leave_reduced<R: Ring>()
    ensures { (a : R) → R.is_ring a → KillsLeaveReduced (R.meaning a).scalars }
{}
