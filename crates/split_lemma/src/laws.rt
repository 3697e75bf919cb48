//! Laws of split forms and of the split move, each the contract of a function that does nothing.

ghost use Rattle.split_lemma.specs.SplitForms.{SplitSplits, SplitKeeps, SplitFormsAreSplit, ResidualLow, SquaresAgree};

use ring_law::{Field, Ring};

/// The splitting lemma in one degree, over every field: a polynomial without terms of degree below
/// 2 that is split up to degree o ≥ 2, the coefficients of its squares other than zero, is split up
/// to degree o + 1 by its split move of that degree.
pub fn split_splits<F: Field>()
    ensures { (a : F) → F.is_ring a → SplitSplits (F.meaning a).scalars }
{}

/// The split move of degree o + 1 keeps all coefficients of degree at most o, those of the squares,
/// and, where the polynomial is split up to degree 2, the residual part up to degree o + 1.
pub fn split_keeps<R: Ring>()
    ensures { (a : R) → R.is_ring a → SplitKeeps (R.meaning a).scalars }
{}

/// A polynomial that is split up to degree k, and has no terms above it, is its residual part and
/// multiples of the squares of the square variables.
pub fn split_forms_are_split<R: Ring>()
    ensures { (a : R) → R.is_ring a → SplitFormsAreSplit (R.meaning a).scalars }
{}

/// The residual part has no terms of degree below d where the polynomial has none.
pub fn residual_low<R: Ring>()
    ensures { (a : R) → R.is_ring a → ResidualLow (R.meaning a).scalars }
{}

/// The coefficients of the squares are those of degree 2.
pub fn squares_agree<R: Ring>()
    ensures { (a : R) → R.is_ring a → SquaresAgree (R.meaning a).scalars }
{}
