//! What Mather's condition says under changes of coordinates, and what its failure says of a germ.

ghost use Rattle.poly_law.specs.Laws.{MatherKept, MatherSplit, MatherUp, LimitMeans};
ghost use Rattle.determinacy.specs.Tests.{AnswersExclude};

use ring_law::Ring;

/// A change of coordinates that carries f to h up to order k keeps Mather's condition at k: it holds for f exactly where it holds for h.
/// For a split form it holds where it holds for the residual part, provided that the squares' coefficients are units, and only there.
/// Where it holds at an order, it holds at each higher one.
pub fn mather_kept<R: Ring>()
    ensures kept { (r : R) → R.is_ring r → MatherKept (R.meaning r).scalars.ops }
    ensures split { (r : R) → R.is_ring r → MatherSplit (R.meaning r).scalars.ops }
    ensures up { (r : R) → R.is_ring r → MatherUp (R.meaning r).scalars.ops }
{}

/// Where a change of coordinates carries a germ up to order k to a split jet, and a functional shows that Mather's condition fails at k for the residual
/// part, the germ does not meet Mather's condition at k or below.
pub fn limit_means<R: Ring>()
    ensures { (r : R) → R.is_ring r → LimitMeans (R.meaning r).scalars.ops }
{}

/// No jet has both a row of Mather's test for each monomial of degree k + 1 and a functional that excludes the test at k.
pub fn answers_exclude<R: Ring>()
    ensures { (r : R) → R.is_ring r → AnswersExclude (R.meaning r) }
{}
