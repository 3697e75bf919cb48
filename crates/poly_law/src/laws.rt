//! The laws of polynomials, each the contract of a function that does nothing, for the values of every ring.

ghost use Rattle.poly_law.specs.Laws.{PolynomialRing, CutTimes, CutIsSameTo, Leibniz, SubstIsRingMap, SubstMul, SubstCompose, SubstComposeCut, SubstCut, ChainRule, ComposeInvertible, InverseExists, MatherKept, MatherUp, MatherSplit, LimitMeans, QuotientFree, QuotientOfTable, QuotientOfSplit};

use ring_law::Ring;

// The ring of polynomials, its truncations and derivatives
/// The polynomials in n variables are a commutative ring.
pub fn polynomial_ring<R: Ring>()
    ensures { (a : R) → R.is_ring a → PolynomialRing (R.meaning a).scalars.ops }
{}

/// A truncated product needs its factors up to the degree of truncation only.
pub fn cut_times<R: Ring>()
    ensures { (a : R) → R.is_ring a → CutTimes (R.meaning a).scalars.ops }
{}

/// Truncations are equal exactly where the polynomials are equal up to the degree of truncation.
pub fn cut_is_same_to<R: Ring>()
    ensures { (a : R) → R.is_ring a → CutIsSameTo (R.meaning a).scalars.ops }
{}

/// The product rule of partial derivatives.
pub fn leibniz<R: Ring>()
    ensures { (a : R) → R.is_ring a → Leibniz (R.meaning a).scalars.ops }
{}

// Substitution
/// Substitution respects equality, sums and products.
pub fn subst_is_ring_map<R: Ring>()
    ensures { (a : R) → R.is_ring a → SubstIsRingMap (R.meaning a).scalars.ops }
{}

/// Substitution respects products, all cut at k.
pub fn subst_mul<R: Ring>()
    ensures { (a : R) → R.is_ring a → SubstMul (R.meaning a).scalars.ops }
{}

/// Substituting twice is substituting the composed polynomials.
pub fn subst_compose<R: Ring>()
    ensures { (a : R) → R.is_ring a → SubstCompose (R.meaning a).scalars.ops }
{}

/// Substituting twice is substituting the composed polynomials, all cut at k.
pub fn subst_compose_cut<R: Ring>()
    ensures { (a : R) → R.is_ring a → SubstComposeCut (R.meaning a).scalars.ops }
{}

/// A substitution cut at k needs the polynomials cut at k only, where those that are put in have no constant term.
pub fn subst_cut<R: Ring>()
    ensures { (a : R) → R.is_ring a → SubstCut (R.meaning a).scalars.ops }
{}

/// The chain rule.
pub fn chain_rule<R: Ring>()
    ensures { (a : R) → R.is_ring a → ChainRule (R.meaning a).scalars.ops }
{}

// Changes of coordinates
/// One change of coordinates after the other is a change of coordinates.
pub fn compose_invertible<R: Ring>()
    ensures { (a : R) → R.is_ring a → ComposeInvertible (R.meaning a).scalars.ops }
{}

/// Each change of coordinates has an inverse on both sides, up to each degree.
pub fn inverse_exists<R: Ring>()
    ensures { (a : R) → R.is_ring a → InverseExists (R.meaning a).scalars.ops }
{}

// Mather's condition
/// A change of coordinates keeps Mather's condition, in both directions.
pub fn mather_kept<R: Ring>()
    ensures { (a : R) → R.is_ring a → MatherKept (R.meaning a).scalars.ops }
{}

/// Mather's condition at an order is that at each higher order.
pub fn mather_up<R: Ring>()
    ensures { (a : R) → R.is_ring a → MatherUp (R.meaning a).scalars.ops }
{}

/// Mather's condition of a split polynomial is that of its residual part.
pub fn mather_split<R: Ring>()
    ensures { (a : R) → R.is_ring a → MatherSplit (R.meaning a).scalars.ops }
{}

/// What a functional on the residual part of the carried jet says of the germ: it does not meet Mather's condition.
pub fn limit_means<R: Ring>()
    ensures { (a : R) → R.is_ring a → LimitMeans (R.meaning a).scalars.ops }
{}

// The truncated Milnor algebra
/// The truncated Milnor algebra is free with the basis of the table.
pub fn quotient_free<R: Ring>()
    ensures { (a : R) → R.is_ring a → QuotientFree (R.meaning a).scalars.ops }
{}

/// A table with multipliers is a table of the truncated Milnor algebra.
pub fn quotient_of_table<R: Ring>()
    ensures { (a : R) → R.is_ring a → QuotientOfTable (R.meaning a).scalars.ops }
{}

/// The table of the residual part is one of the split polynomial.
pub fn quotient_of_split<R: Ring>()
    ensures { (a : R) → R.is_ring a → QuotientOfSplit (R.meaning a).scalars.ops }
{}
