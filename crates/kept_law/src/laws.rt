//! Laws of carried jets, of the split move and of the base kill, and of the plan's states, each the
//! contract of a function that does nothing.

ghost use Rattle.kept_law.specs.KeptParts.{AllGradesAreGone, AllKillsKeep, AllSplitsKeep, ChoicesLeaveModulus, GradesAreKilled, JetsLow, KillsLeaveNoLead, KillsLeaveOthers, LettersAgree, LettersStay, LowAgrees, LowStays, OnlyModulusIsLeft, SplitStays, SquaresStay, TailLeavesPowers};
ghost use Rattle.kept_law.specs.PlanStates.{CutPlan};

use ring_law::Ring;

/// The letters of a part are those of every polynomial that agrees up to the degree of the part.
pub fn letters_agree<R: Ring>()
    ensures { (a : R) → R.is_ring a → LettersAgree (R.meaning a).scalars }
{}

/// Of polynomials that agree up to at least the degree of a part, where nothing residual stands
/// below that degree in one, nothing does in the other.
pub fn low_agrees<R: Ring>()
    ensures { (a : R) → R.is_ring a → LowAgrees (R.meaning a).scalars }
{}

/// The coefficients of the squares of a jet that moves carry up to degree o ≥ 2 are those of the
/// jet that they carry up to degree o + 1.
pub fn squares_stay<R: Ring>()
    ensures { (a : R) → R.is_ring a → SquaresStay (R.meaning a).scalars }
{}

/// Where the jet of order o is split up to degree o, the jet of order o + 1 is.
pub fn split_stays<R: Ring>()
    ensures { (a : R) → R.is_ring a → SplitStays (R.meaning a).scalars }
{}

/// The letters of a part whose degree is at most o, as the jet of order o has them, are those of
/// the jet of order o + 1.
pub fn letters_stay<R: Ring>()
    ensures { (a : R) → R.is_ring a → LettersStay (R.meaning a).scalars }
{}

/// Where nothing residual stands below the degree of a part in the jet of order o, nothing does in
/// the jet of order o + 1.
pub fn low_stays<R: Ring>()
    ensures { (a : R) → R.is_ring a → LowStays (R.meaning a).scalars }
{}

/// Carried jets of a germ without terms of degree below 2 have none.
pub fn jets_low<R: Ring>()
    ensures { (a : R) → R.is_ring a → JetsLow (R.meaning a).scalars }
{}

/// The split move of a degree above that of the part keeps the letters, and that nothing residual
/// stands below the degree of the part.
pub fn splits_keep<R: Ring>()
    ensures { (a : R) → R.is_ring a → AllSplitsKeep (R.meaning a).scalars }
{}

/// The kill move of a base part, of a degree above that of the part, keeps all coefficients below
/// its degree, those of the squares, the split form, the letters, and that nothing residual stands
/// below the degree of the part.
pub fn kills_keep<R: Ring>()
    ensures { (a : R) → R.is_ring a → AllKillsKeep (R.meaning a).scalars }
{}

/// After the kill move of a base part no monomial of its degree is left that a lead of the part
/// divides, where the residual terms of the part's degree are its form, and what the leads are
/// divided by is invertible.
pub fn kills_leave_no_lead<R: Ring>()
    ensures { (a : R) → R.is_ring a → KillsLeaveNoLead (R.meaning a).scalars }
{}

/// The kill move of a grade above that of the part keeps the split form, the coefficients of the
/// squares and the residual terms of lower grade, and leaves no residual term of that grade that a
/// lead of the part divides.
pub fn grades_are_killed<R: Ring>()
    ensures { (a : R) → R.is_ring a → GradesAreKilled (R.meaning a).scalars }
{}

/// The kill move of a grade leaves the variables past the part's own: what it puts for each of them
/// is the variable itself.
pub fn kills_leave_others<R: Ring>()
    ensures { (a : R) → R.is_ring a → KillsLeaveOthers (R.meaning a).scalars }
{}

/// Of greater weight than a graded part no lead leaves a monomial but the modulus monomial of the
/// family; of the part of T(2,3,r) the powers of the second variable are left.
pub fn modulus_is_left()
    ensures families { ChoicesLeaveModulus }
    ensures powers { TailLeavesPowers }
{}

/// The kills of all grades of a part, one after the other, keep the split form, the coefficients of
/// the squares, the principal part and its letters, and leave no residual term above it that a lead
/// of the part divides. Of a part that a finish chooses they leave above its form the modulus term
/// alone.
pub fn graded_kills_leave<R: Ring>()
    ensures grades { (a : R) → R.is_ring a → AllGradesAreGone (R.meaning a).scalars }
    ensures modulus { (a : R) → R.is_ring a → OnlyModulusIsLeft (R.meaning a).scalars }
{}

/// The state of the plan at order o + 1, cut at degree o, begins with its state at order o: its moves
/// with the moves there, and its jets, each cut at degree o, with the jets there. Where order o + 1
/// finds a part over an algebra, these are the lifted moves and the lifted jets.
pub fn cut_plan()
    ensures { CutPlan }
{}
