//! Moves over the rational numbers that bring a cubic to given monomials.

ghost use Rattle.std.specs.Prelude.{◌≡◌, ◌≢◌, ℕ, ◌++◌, [], ◌∷◌, IfOk, IsTrue, ◌↔◌, All, map};
ghost use Rattle.ring_theory.specs.Height.{rational_scalars};
ghost use Rattle.ring_theory.specs.Rational.{Rational, rational_ops};
ghost use Rattle.ring_law.specs.Fraction.{IsFrac, frac_value, rational_meaning};
ghost use Rattle.ring_law.specs.Refusals.{OnFault};
ghost use Rattle.lin_row.specs.Plain.{Among};
ghost use Rattle.mono_exp.specs.Exponents.{exponents as exponents_of};
ghost use Rattle.jet_law.specs.Terms.{poly_of};
ghost use Rattle.jacobian_row.specs.Rows.{IsJetIn};
ghost use Rattle.move_law.specs.Work.{IsWorkHigh};
ghost use Rattle.ternary_law.specs.Matrices.{Matrix as MatrixOf, moved};
ghost use Rattle.ternary_law.specs.Steps.{last_place as last_place_of};
ghost use Rattle.ternary_law.specs.Routes.{work_after, AreStepsHigh};
ghost use Rattle.ternary_law.specs.Rules.{all_cusp_steps};
ghost use Rattle.ternary_law.specs.Shapes.{x3, yz2};
ghost use Rattle.tern_cubic.specs.Matrices.{IsMatrix, vector_of};
ghost use Rattle.tern_cubic.specs.Moving.{beginning_work};
ghost use Rattle.tern_cubic.specs.Stepping.{step_of};
ghost use Rattle.tern_cubic.specs.Reaching.{IsReachedBy, IsRationalMove};

use crate::matrix::{Matrix, axis_matrix};
use crate::moving::begin;
use crate::stepping::{Step, run};
use coord_change::Change;
use jet_poly::Jet;
use mono_exp::Exp;
use ring_law::{Fault, Frac};
use small_frac::Rationals;
use std::alloc::Global;

/// Whether the first three exponents are these.
fn has_exponents(a: Exp, exponents: [u8; 3]) -> bool
    ensures { IsTrue result ↔ (exponents_of 3 a.e ≡ exponents) }
{
    a.e[0] == exponents[0] && a.e[1] == exponents[1] && a.e[2] == exponents[2]
}

/// Whether the monomials of a cubic are exactly these, in the monomial order.
pub(crate) fn has_monomials<E: Copy>(f: &Jet<E>, monomials: &[[u8; 3]]) -> bool
    ensures { IsTrue result ↔ (map (λ t. exponents_of 3 t.0.e) f.now.terms ≡ monomials.now) }
{
    if f.terms().len() != monomials.len() {
        return false;
    }
    for i in 0..monomials.len() {
        if !has_exponents(f.term(i).0, monomials[i]) {
            return false;
        }
    }
    true
}

/// The move of a matrix and several steps on a cubic, where it reaches exactly these monomials.
///
/// Errors: `Range` only where an operation of the matrix's move or of the steps has height 2^120 or
/// more.
fn reached_by(
    alloc: Global,
    f: &Jet<Frac>,
    first: &Matrix<Frac>,
    steps: &[Step],
    monomials: &[[u8; 3]],
) -> Result<Option<Change<Frac>>, Fault>
    requires jet { IsJetIn rational_meaning 3 f.now }
    requires matrix { IsMatrix rational_meaning (map (map frac_value) first.now) first.now }
    ensures change { let g = poly_of 3 frac_value f.now.terms in (a : MatrixOf Rational) → IsMatrix rational_meaning a first.now
        → IfOk result (IsReachedBy g a (map (step_of rational_scalars) steps.now) monomials.now) }
    ensures range { let g = poly_of 3 frac_value f.now.terms in (a : MatrixOf Rational) → IsMatrix rational_meaning a first.now
        → OnFault result (Among (IsWorkHigh 3 rational_scalars) (beginning_work rational_scalars a g
        ++ work_after rational_scalars a (map (step_of rational_scalars) steps.now) (moved rational_scalars a g))) }
{
    let Some(start) = begin(alloc, &Rationals, f, first)? else {
        return Ok(None);
    };
    let Some(end) = run(alloc, start, steps)? else {
        return Ok(None);
    };
    if has_monomials(&end.form, monomials) {
        Ok(Some(end.change))
    } else {
        Ok(None)
    }
}

/// The linear move of a cusp at the point v, after which exactly the monomials `x^3` and `y*z^2` are
/// left, or `None` where there is none.
///
/// Errors: `Range` only where an operation of the rule has height 2^120 or more.
pub fn cusp_move(alloc: Global, f: &Jet<Frac>, v: &[Frac; 3]) -> Result<Option<Change<Frac>>, Fault>
    requires jet { IsJetIn rational_meaning 3 f.now }
    requires elems { All IsFrac v.now }
    requires nonzero { let w = vector_of rational_meaning v.now in w (last_place_of rational_scalars w) ≢ rational_ops.zero }
    ensures change { let g = poly_of 3 frac_value f.now.terms in
        IfOk result (IsRationalMove g (all_cusp_steps g (vector_of rational_meaning v.now)) (x3 ∷ yz2 ∷ [])) }
    ensures range { let g = poly_of 3 frac_value f.now.terms in OnFault result (AreStepsHigh g (all_cusp_steps g (vector_of rational_meaning v.now))) }
{
    let axis = axis_matrix(&Rationals, 1, v)?;
    let steps = [Step::CuspFirst, Step::CuspSecond, Step::CuspThird];
    reached_by(alloc, f, &axis, &steps, &[[3, 0, 0], [0, 1, 2]])
}
