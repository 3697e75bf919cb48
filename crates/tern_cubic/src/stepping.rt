//! The steps of the rules after their first matrices, one after the other.

ghost use Rattle.std.specs.Prelude.{◌≡◌, ◌≢◌, IfOk, IsTrue, ◌↔◌, List, map};
ghost use Rattle.ring_theory.specs.Height.{rational_scalars};
ghost use Rattle.ring_theory.specs.Rational.{Rational};
ghost use Rattle.ring_law.specs.Fraction.{rational_meaning};
ghost use Rattle.ring_law.specs.Refusals.{OnFault, OnRange};
ghost use Rattle.lin_row.specs.Lines.{EachOf};
ghost use Rattle.lin_row.specs.Plain.{Among};
ghost use Rattle.poly_law.specs.Polynomials.{Polynomial};
ghost use Rattle.jet_law.specs.Terms.{poly_of};
ghost use Rattle.jacobian_row.specs.Rows.{IsJetIn};
ghost use Rattle.move_law.specs.Work.{IsWorkHigh};
ghost use Rattle.ternary_law.specs.Matrices.{Matrix as MatrixOf};
ghost use Rattle.ternary_law.specs.Cubics.{coef as coefficient_of};
ghost use Rattle.ternary_law.specs.Routes.{work_after};
ghost use Rattle.tern_cubic.specs.Matrices.{IsMatrix};
ghost use Rattle.tern_cubic.specs.Moving.{IsMoving, IsUnderWay, AfterSteps};
ghost use Rattle.tern_cubic.specs.Stepping.{step_of};

use crate::matrix::{Matrix, is_zero};
use crate::moving::{Moving, advance};
use crate::steps::{
    coefficient, cusp_first, cusp_second, cusp_third, node_step, secant_step, tangent_first,
    tangent_second, tangent_third,
};
use jet_poly::JetOf;
use ring_law::{Fault, Field, Frac, Range, Ring};
use small_frac::Rationals;
use std::alloc::Global;

/// A step of a rule, whose matrix is a formula in the coefficients of the cubic that is reached.
#[derive(Clone, Copy, Debug)]
pub enum Step {
    Node,
    Secant,
    CuspFirst,
    CuspSecond,
    CuspThird,
    TangentFirst,
    TangentSecond,
    TangentThird,
}

/// Whether the coefficient of x^i*y^j*z^k is not 0.
fn has_term<R: Ring>(ring: &R, f: &JetOf<R>, i: u8, j: u8, k: u8) -> bool
    requires ring { R.is_ring ring.now }
    requires jet { IsJetIn (R.meaning ring.now) 3 f.now }
    ensures { let m = R.meaning ring.now in IsTrue result ↔ (coefficient_of m.scalars (poly_of 3 m.value f.now.terms) i j k ≢ m.scalars.ops.zero) }
{
    let x = coefficient(ring, f, i, j, k);
    !ring.eq(x, ring.zero())
}

/// Whether no divisor of the step is 0.
fn is_possible<R: Ring>(ring: &R, step: Step, f: &JetOf<R>) -> bool
    requires ring { R.is_ring ring.now }
    requires jet { IsJetIn (R.meaning ring.now) 3 f.now }
    ensures { let m = R.meaning ring.now in
        IsTrue result ↔ EachOf (λ d. d ≢ m.scalars.ops.zero) ((step_of m.scalars step).divisors (poly_of 3 m.value f.now.terms)) }
{
    match step {
        Step::Node | Step::Secant => has_term(ring, f, 1, 1, 1),
        Step::CuspSecond => has_term(ring, f, 3, 0, 0),
        Step::CuspThird => has_term(ring, f, 0, 1, 2),
        Step::TangentSecond => has_term(ring, f, 0, 2, 1),
        Step::TangentThird => has_term(ring, f, 1, 0, 2),
        Step::CuspFirst | Step::TangentFirst => true,
    }
}

/// The matrix of a step, none of whose divisors is 0.
fn step_matrix<F: Field>(field: &F, step: Step, f: &JetOf<F>) -> Result<Matrix<F::Elem>, Range>
    requires field { F.is_ring field.now }
    requires jet { IsJetIn (F.meaning field.now) 3 f.now }
    requires possible { let m = F.meaning field.now in
        EachOf (λ d. d ≢ m.scalars.ops.zero) ((step_of m.scalars step).divisors (poly_of 3 m.value f.now.terms)) }
    ensures matrix { IfOk result (let m = F.meaning field.now in IsMatrix m ((step_of m.scalars step).matrix (poly_of 3 m.value f.now.terms))) }
    ensures range { OnRange result (let m = F.meaning field.now in
        Among (IsWorkHigh 3 m.scalars) ((step_of m.scalars step).works (poly_of 3 m.value f.now.terms))) }
{
    match step {
        Step::Node => node_step(field, f),
        Step::Secant => secant_step(field, f),
        Step::CuspFirst => cusp_first(field, f),
        Step::CuspSecond => cusp_second(field, f),
        Step::CuspThird => cusp_third(field, f),
        Step::TangentFirst => tangent_first(field, f),
        Step::TangentSecond => tangent_second(field, f),
        Step::TangentThird => tangent_third(field, f),
    }
}

/// The move over the rational numbers after several steps, or `None` where a divisor is 0 or a matrix
/// is singular.
///
/// Errors: `Range` only where an operation of the steps has height 2^120 or more.
pub(crate) fn run(
    alloc: Global,
    start: Moving<Frac>,
    steps: &[Step],
) -> Result<Option<Moving<Frac>>, Fault>
    requires { IsUnderWay rational_meaning start }
    ensures way { (v : MatrixOf Rational) (g : Polynomial 3 Rational) → IsMoving rational_meaning v g start
        → IfOk result (AfterSteps rational_meaning (map (step_of rational_scalars) steps.now) v g) }
    ensures range { (v : MatrixOf Rational) (g : Polynomial 3 Rational) → IsMoving rational_meaning v g start
        → OnFault result (Among (IsWorkHigh 3 rational_scalars) (work_after rational_scalars v (map (step_of rational_scalars) steps.now) g)) }
{
    let mut way = start;
    for step in steps {
        if !is_possible(&Rationals, *step, &way.form) {
            return Ok(None);
        }
        let matrix = step_matrix(&Rationals, *step, &way.form)?;
        let Some(next) = advance(alloc, &Rationals, &way, &matrix)? else {
            return Ok(None);
        };
        way = next;
    }
    Ok(Some(way))
}
