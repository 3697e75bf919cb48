//! The pair rule over the rational numbers, with the steps after it.

ghost use Rattle.std.specs.Prelude.{ℕ, ◌++◌, [], ◌∷◌, IfOk, map};
ghost use Rattle.ring_theory.specs.Height.{rational_scalars};
ghost use Rattle.ring_theory.specs.Rational.{Rational};
ghost use Rattle.ring_law.specs.Fraction.{IsFrac, frac_value, rational_meaning};
ghost use Rattle.ring_law.specs.Refusals.{OnFault};
ghost use Rattle.poly_law.specs.Polynomials.{Polynomial};
ghost use Rattle.lin_row.specs.Plain.{Among};
ghost use Rattle.move_law.specs.Work.{IsWorkHigh};
ghost use Rattle.ternary_law.specs.Matrices.{Matrix as MatrixOf, matrix_product, moved};
ghost use Rattle.ternary_law.specs.Routes.{work_after};
ghost use Rattle.tern_cubic.specs.Matrices.{IsMatrix};
ghost use Rattle.tern_cubic.specs.Moving.{IsMoving, IsUnderWay, advancing_work};
ghost use Rattle.tern_cubic.specs.Stepping.{step_of};
ghost use Rattle.tern_cubic.specs.Pairs.{IsPlainMove, IsPairMove, IsPairMoveHigh};

use crate::matrix::Matrix;
use crate::moving::{Moving, advance};
use crate::pair::{PairCase, pair_case};
use crate::reaching::has_monomials;
use crate::stepping::{Step, run};
use coord_change::Change;
use ext_algebra::Algebra;
use ring_law::{Fault, Frac};
use small_frac::Rationals;
use std::alloc::Global;

/// What the pair rule and the steps after it give: the move over the rational numbers, the algebra
/// over which the two lines lie, or neither.
#[derive(Drop)]
pub enum PairMove {
    Plain(Change<Frac>),
    Over(Algebra),
    Neither,
}

/// The move after a matrix and several steps, where it reaches exactly these monomials.
fn plain_move(
    alloc: Global,
    halfway: &Moving<Frac>,
    matrix: &Matrix<Frac>,
    steps: &[Step],
    monomials: &[[u8; 3]],
) -> Result<PairMove, Fault>
    requires under_way { IsUnderWay rational_meaning halfway.now }
    requires matrix { IsMatrix rational_meaning (map (map frac_value) matrix.now) matrix.now }
    ensures change { (v b : MatrixOf Rational) (g : Polynomial 3 Rational) → IsMoving rational_meaning v g halfway.now
        → IsMatrix rational_meaning b matrix.now → IfOk result (IsPlainMove (matrix_product rational_scalars v b) (moved rational_scalars b g)
        (map (step_of rational_scalars) steps.now) monomials.now) }
    ensures range { (v b : MatrixOf Rational) (g : Polynomial 3 Rational) → IsMoving rational_meaning v g halfway.now
        → IsMatrix rational_meaning b matrix.now → OnFault result (Among (IsWorkHigh 3 rational_scalars) (advancing_work rational_scalars v b g
        ++ work_after rational_scalars (matrix_product rational_scalars v b) (map (step_of rational_scalars) steps.now) (moved rational_scalars b g))) }
{
    let Some(start) = advance(alloc, &Rationals, halfway, matrix)? else {
        return Ok(PairMove::Neither);
    };
    let Some(end) = run(alloc, start, steps)? else {
        return Ok(PairMove::Neither);
    };
    if has_monomials(&end.form, monomials) {
        Ok(PairMove::Plain(end.change))
    } else {
        Ok(PairMove::Neither)
    }
}

/// The move by the pair rule for the variables i and j on the form `q0*x^2 + q1*x*y + q2*y^2`, where
/// x stands for variable i and y for variable j, and by several steps after it, after the move so
/// far: over the rational numbers where both lines are rational and exactly these monomials are
/// reached.
///
/// Errors: `Range` only where an operation of the rule, or of what follows it over the rational
/// numbers, has height 2^120 or more.
pub fn pair_move(
    alloc: Global,
    halfway: &Moving<Frac>,
    i: usize,
    j: usize,
    q: (Frac, Frac, Frac),
    steps: &[Step],
    monomials: &[[u8; 3]],
) -> Result<PairMove, Fault>
    requires under_way { IsUnderWay rational_meaning halfway.now }
    requires first { IsFrac q.0 }
    requires middle { IsFrac q.1 }
    requires last { IsFrac q.2 }
    ensures change { (v : MatrixOf Rational) (g : Polynomial 3 Rational) → IsMoving rational_meaning v g halfway.now
        → IfOk result (IsPairMove v g (frac_value q.0 ∷ frac_value q.1 ∷ frac_value q.2 ∷ []) i j (map (step_of rational_scalars) steps.now) monomials.now) }
    ensures range { (v : MatrixOf Rational) (g : Polynomial 3 Rational) → IsMoving rational_meaning v g halfway.now
        → OnFault result (IsPairMoveHigh v g (frac_value q.0 ∷ frac_value q.1 ∷ frac_value q.2 ∷ []) i j (map (step_of rational_scalars) steps.now)) }
{
    match pair_case(i, j, q.0, q.1, q.2)? {
        PairCase::Plain(matrix) => plain_move(alloc, halfway, &matrix, steps, monomials),
        PairCase::Over(algebra) => Ok(PairMove::Over(algebra)),
        PairCase::Neither => Ok(PairMove::Neither),
    }
}
