//! What the move of the Hessian makes of the terms of degree 2: a law of the definitions.

ghost use Rattle.hessian_rank.specs.Diagonals.{HessianDiagonalises};

use ring_law::Field;

/// Over every field, a polynomial without terms of degree below 2, carried by its move of the
/// Hessian, is up to degree 2 the sum of the squares that were closed, in the order of closing: of
/// the variables from the corank on, each with a coefficient other than zero.
///
/// Source: Lagrange's reduction of quadratic forms, with the pivots that the plan takes.
pub fn hessian_diagonalises<F: Field>()
    ensures { (a : F) → F.is_ring a → HessianDiagonalises (F.meaning a).scalars }
{}
