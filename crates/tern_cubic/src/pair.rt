//! The pair rule for two of the three variables.

ghost use Rattle.std.specs.Prelude.{◌≡◌, [], ◌∷◌, IfOk};
ghost use Rattle.ring_theory.specs.Height.{rational_scalars};
ghost use Rattle.ring_theory.specs.Rational.{rational_ops};
ghost use Rattle.ring_law.specs.Fraction.{IsFrac, frac_value};
ghost use Rattle.ring_law.specs.Refusals.{OnRange};
ghost use Rattle.ternary_law.specs.Matrices.{unit_matrix, with_row as with_row_of, two_in_row as two_in_row_of};
ghost use Rattle.tern_cubic.specs.Matrices.{IsMatrix};
ghost use Rattle.tern_cubic.specs.Pairs.{IsPairCase, IsPairCaseHigh};

use crate::matrix::{Matrix, is_zero, pair_matrix, quotient, row_or_unit, two_in_row};
use bin_forms::{Pair, pair_lines};
use ext_algebra::Algebra;
use ring_law::{Frac, Range, Ring};
use small_frac::Rationals;

/// What the pair rule gives: the matrix over the rational numbers, the algebra over which the two
/// lines lie, or nothing, where the form has no line of its own.
#[derive(Clone, Copy, Debug)]
pub enum PairCase {
    Plain(Matrix<Frac>),
    Over(Algebra),
    Neither,
}

/// The matrix of the pair rule where y is a line: x(i) goes to x(i) - a*x(j).
fn corner_matrix<R: Ring>(ring: &R, i: usize, j: usize, a: R::Elem) -> Matrix<R::Elem>
    requires ring { R.is_ring ring.now }
    requires elem { (R.meaning ring.now).is_elem a }
    ensures { let m = R.meaning ring.now in let s = m.scalars in
        IsMatrix m (with_row_of s i (two_in_row_of s i s.ops.one j (s.ops.neg (m.value a))) (unit_matrix s)) result }
{
    let row = two_in_row(ring, i, ring.one(), j, ring.neg(a));
    [
        row_or_unit(ring, 0, i, row),
        row_or_unit(ring, 1, i, row),
        row_or_unit(ring, 2, i, row),
    ]
}

/// The pair rule where the first coefficient is 0.
fn corner_case(i: usize, j: usize, _q0: Frac, q1: Frac, q2: Frac) -> Result<PairCase, Range>
    requires middle { IsFrac q1 }
    requires last { IsFrac q2 }
    requires corner { frac_value _q0 ≡ rational_ops.zero }
    ensures answer { IfOk result (IsPairCase (frac_value _q0 ∷ frac_value q1 ∷ frac_value q2 ∷ []) i j) }
    ensures range { OnRange result (IsPairCaseHigh (frac_value _q0 ∷ frac_value q1 ∷ frac_value q2 ∷ [])) }
{
    if is_zero(&Rationals, q1) {
        return Ok(PairCase::Neither);
    }
    let slope = quotient(&Rationals, q2, q1)?;
    Ok(PairCase::Plain(corner_matrix(&Rationals, i, j, slope)))
}

/// The pair rule for the variables i and j on the form `q0*x^2 + q1*x*y + q2*y^2` with two different
/// lines, where x stands for variable i and y for variable j.
///
/// Errors: `Range` only where a quotient of the rule, or the search for the roots, has height 2^120
/// or more.
pub fn pair_case(i: usize, j: usize, q0: Frac, q1: Frac, q2: Frac) -> Result<PairCase, Range>
    requires first { IsFrac q0 }
    requires middle { IsFrac q1 }
    requires last { IsFrac q2 }
    ensures answer { IfOk result (IsPairCase (frac_value q0 ∷ frac_value q1 ∷ frac_value q2 ∷ []) i j) }
    ensures range { OnRange result (IsPairCaseHigh (frac_value q0 ∷ frac_value q1 ∷ frac_value q2 ∷ [])) }
{
    if is_zero(&Rationals, q0) {
        return corner_case(i, j, q0, q1, q2);
    }
    match pair_lines([q0, q1, q2])? {
        Pair::Roots(low, high) => Ok(PairCase::Plain(pair_matrix(&Rationals, i, j, low, high))),
        Pair::Over(algebra) => Ok(PairCase::Over(algebra)),
        Pair::Corner => unreachable!(),
    }
}
