//! The matrices of the steps of a node, a cusp, and a conic with a secant or with a tangent, each by
//! the cubic that is reached.

ghost use Rattle.std.specs.Prelude.{◌≡◌, ◌≢◌, ◌++◌, ◌<◌, IfOk};
ghost use Rattle.ring_law.specs.Refusals.{OnRange};
ghost use Rattle.lin_row.specs.Plain.{Among};
ghost use Rattle.jet_law.specs.Terms.{poly_of};
ghost use Rattle.jacobian_row.specs.Rows.{IsJetIn};
ghost use Rattle.move_law.specs.Moves.{over, whole as whole_of};
ghost use Rattle.move_law.specs.Shapes.{over_work, over_multiple_work};
ghost use Rattle.move_law.specs.Work.{IsWorkHigh, product};
ghost use Rattle.ternary_law.specs.Cubics.{coef as coefficient_of};
ghost use Rattle.ternary_law.specs.Steps.{node_divisor, node_step as node_step_of, cusp_third_divisor, cusp_third as cusp_third_of, tangent_third_divisor, tangent_third as tangent_third_of, secant_step as secant_step_of, cusp_second as cusp_second_of, tangent_second as tangent_second_of, swap_step as swap_step_of, cusp_first as cusp_first_of, tangent_first as tangent_first_of};
ghost use Rattle.ternary_law.specs.Rules.{node_step as node_rule, secant_step as secant_rule, swap_work};
ghost use Rattle.tern_cubic.specs.Matrices.{IsMatrix};

use crate::matrix::{
    Matrix, is_zero, less_row, pair_row, quotient, shear, two_in_row, unit, unit_row,
};
use jet_poly::{JetOf, coef};
use mono_exp::Exp;
use ring_law::{Field, Frac, Range, Ring};

/// The coefficient of x^i*y^j*z^k.
pub(crate) fn coefficient<R: Ring>(ring: &R, f: &JetOf<R>, i: u8, j: u8, k: u8) -> R::Elem
    requires ring { R.is_ring ring.now }
    requires jet { IsJetIn (R.meaning ring.now) 3 f.now }
    ensures elem { (R.meaning ring.now).is_elem result }
    ensures value { let m = R.meaning ring.now in m.value result ≡ coefficient_of m.scalars (poly_of 3 m.value f.now.terms) i j k }
{
    coef(
        ring,
        f,
        Exp {
            e: [i, j, k, 0, 0, 0, 0, 0],
        },
    )
}

/// The coefficient of x^i*y^j*z^k over a number that is not 0.
fn coefficient_over<F: Field>(
    field: &F,
    f: &JetOf<F>,
    i: u8,
    j: u8,
    k: u8,
    divisor: F::Elem,
) -> Result<F::Elem, Range>
    requires field { F.is_ring field.now }
    requires jet { IsJetIn (F.meaning field.now) 3 f.now }
    requires divisor { (F.meaning field.now).is_elem divisor }
    requires nonzero { let m = F.meaning field.now in m.value divisor ≢ m.scalars.ops.zero }
    ensures elem { IfOk result (F.meaning field.now).is_elem }
    ensures value { IfOk result (λ x. let m = F.meaning field.now in m.value x ≡ over m.scalars (coefficient_of m.scalars (poly_of 3 m.value f.now.terms) i j k) (m.value divisor)) }
    ensures range { OnRange result (let m = F.meaning field.now in
        Among (IsWorkHigh 3 m.scalars) (over_work m.scalars 3 (coefficient_of m.scalars (poly_of 3 m.value f.now.terms) i j k) (m.value divisor))) }
{
    let x = coefficient(field, f, i, j, k);
    quotient(field, x, divisor)
}

/// The whole number k.
fn whole<R: Ring>(ring: &R, k: u8) -> R::Elem
    requires { R.is_ring ring.now }
    ensures elem { (R.meaning ring.now).is_elem result }
    ensures value { let m = R.meaning ring.now in m.value result ≡ whole_of m.scalars k }
{
    ring.inject(Frac {
        num: i128::from(k),
        den: 1,
    })
}

/// k times a number that is not 0.
fn multiple<F: Field>(field: &F, k: u8, x: F::Elem) -> Result<F::Elem, Range>
    requires field { F.is_ring field.now }
    requires factor { 0 < k }
    requires elem { (F.meaning field.now).is_elem x }
    requires nonzero { let m = F.meaning field.now in m.value x ≢ m.scalars.ops.zero }
    ensures elem { IfOk result (F.meaning field.now).is_elem }
    ensures value { IfOk result (λ y. let m = F.meaning field.now in m.value y ≡ m.scalars.ops.mul (whole_of m.scalars k) (m.value x)) }
    ensures nonzero { IfOk result (λ y. let m = F.meaning field.now in m.value y ≢ m.scalars.ops.zero) }
    ensures range { OnRange result (let m = F.meaning field.now in IsWorkHigh 3 m.scalars (product (whole_of m.scalars k) (m.value x))) }
{
    field.mul(whole(field, k), x)
}

/// x / (k*y), where k and y are not 0.
fn over_multiple<F: Field>(field: &F, k: u8, x: F::Elem, y: F::Elem) -> Result<F::Elem, Range>
    requires field { F.is_ring field.now }
    requires factor { 0 < k }
    requires dividend { (F.meaning field.now).is_elem x }
    requires divisor { (F.meaning field.now).is_elem y }
    requires nonzero { let m = F.meaning field.now in m.value y ≢ m.scalars.ops.zero }
    ensures elem { IfOk result (F.meaning field.now).is_elem }
    ensures value { IfOk result (λ z. let m = F.meaning field.now in m.value z ≡ over m.scalars (m.value x) (m.scalars.ops.mul (whole_of m.scalars k) (m.value y))) }
    ensures range { OnRange result (let m = F.meaning field.now in Among (IsWorkHigh 3 m.scalars) (over_multiple_work m.scalars 3 k (m.value x) (m.value y))) }
{
    let product = multiple(field, k, y)?;
    quotient(field, x, product)
}

/// The matrix of the last step of a node, after the pair rule: with κ the coefficient of x*y*z, z
/// goes to z - coef(x^2*y)/κ*x - coef(x*y^2)/κ*y.
///
/// Errors: `Range` only where an operation of the two quotients has height 2^120 or more.
pub fn node_step<F: Field>(field: &F, f: &JetOf<F>) -> Result<Matrix<F::Elem>, Range>
    requires field { F.is_ring field.now }
    requires jet { IsJetIn (F.meaning field.now) 3 f.now }
    requires nonzero { let m = F.meaning field.now in node_divisor m.scalars (poly_of 3 m.value f.now.terms) ≢ m.scalars.ops.zero }
    ensures matrix { IfOk result (let m = F.meaning field.now in IsMatrix m (node_step_of m.scalars (poly_of 3 m.value f.now.terms))) }
    ensures range { OnRange result (let m = F.meaning field.now in Among (IsWorkHigh 3 m.scalars) ((node_rule m.scalars).works (poly_of 3 m.value f.now.terms))) }
{
    let divisor = coefficient(field, f, 1, 1, 1);
    let a = coefficient_over(field, f, 2, 1, 0, divisor)?;
    let b = coefficient_over(field, f, 1, 2, 0, divisor)?;
    Ok(shear(field, 2, 0, a, b))
}

/// The matrix of the last step of a cusp: with κ the coefficient of y*z^2, y goes to
/// y - coef(x*z^2)/κ*x - coef(z^3)/κ*z.
///
/// Errors: `Range` only where an operation of the two quotients has height 2^120 or more.
pub fn cusp_third<F: Field>(field: &F, f: &JetOf<F>) -> Result<Matrix<F::Elem>, Range>
    requires field { F.is_ring field.now }
    requires jet { IsJetIn (F.meaning field.now) 3 f.now }
    requires nonzero { let m = F.meaning field.now in cusp_third_divisor m.scalars (poly_of 3 m.value f.now.terms) ≢ m.scalars.ops.zero }
    ensures matrix { IfOk result (let m = F.meaning field.now in IsMatrix m (cusp_third_of m.scalars (poly_of 3 m.value f.now.terms))) }
    ensures range { OnRange result (let m = F.meaning field.now in let s = m.scalars in let g = poly_of 3 m.value f.now.terms in
        Among (IsWorkHigh 3 s) (over_work s 3 (coefficient_of s g 1 0 2) (coefficient_of s g 0 1 2) ++ over_work s 3 (coefficient_of s g 0 0 3) (coefficient_of s g 0 1 2))) }
{
    let divisor = coefficient(field, f, 0, 1, 2);
    let a = coefficient_over(field, f, 1, 0, 2, divisor)?;
    let b = coefficient_over(field, f, 0, 0, 3, divisor)?;
    Ok(shear(field, 1, 0, a, b))
}

/// The matrix of the last step of a conic with a tangent: x goes to x - coef(z^3)/coef(x*z^2)*z.
///
/// Errors: `Range` only where an operation of the quotient has height 2^120 or more.
pub fn tangent_third<F: Field>(field: &F, f: &JetOf<F>) -> Result<Matrix<F::Elem>, Range>
    requires field { F.is_ring field.now }
    requires jet { IsJetIn (F.meaning field.now) 3 f.now }
    requires nonzero { let m = F.meaning field.now in tangent_third_divisor m.scalars (poly_of 3 m.value f.now.terms) ≢ m.scalars.ops.zero }
    ensures matrix { IfOk result (let m = F.meaning field.now in IsMatrix m (tangent_third_of m.scalars (poly_of 3 m.value f.now.terms))) }
    ensures range { OnRange result (let m = F.meaning field.now in let s = m.scalars in let g = poly_of 3 m.value f.now.terms in
        Among (IsWorkHigh 3 s) (over_work s 3 (coefficient_of s g 0 0 3) (coefficient_of s g 1 0 2))) }
{
    let divisor = coefficient(field, f, 1, 0, 2);
    let a = coefficient_over(field, f, 0, 0, 3, divisor)?;
    Ok(shear(field, 0, 2, a, field.zero()))
}

/// The matrix of the last step of a conic with a secant, after the pair rule: with κ the coefficient
/// of x*y*z, y goes to y - coef(x^2*z)/κ*x and z to z - coef(x^2*y)/κ*x.
///
/// Errors: `Range` only where an operation of the two quotients has height 2^120 or more.
pub fn secant_step<F: Field>(field: &F, f: &JetOf<F>) -> Result<Matrix<F::Elem>, Range>
    requires field { F.is_ring field.now }
    requires jet { IsJetIn (F.meaning field.now) 3 f.now }
    requires nonzero { let m = F.meaning field.now in node_divisor m.scalars (poly_of 3 m.value f.now.terms) ≢ m.scalars.ops.zero }
    ensures matrix { IfOk result (let m = F.meaning field.now in IsMatrix m (secant_step_of m.scalars (poly_of 3 m.value f.now.terms))) }
    ensures range { OnRange result (let m = F.meaning field.now in Among (IsWorkHigh 3 m.scalars) ((secant_rule m.scalars).works (poly_of 3 m.value f.now.terms))) }
{
    let divisor = coefficient(field, f, 1, 1, 1);
    let a = coefficient_over(field, f, 2, 0, 1, divisor)?;
    let b = coefficient_over(field, f, 2, 1, 0, divisor)?;
    let y = less_row(field, 1, 0, a, field.zero());
    let z = less_row(field, 2, 0, b, field.zero());
    Ok([
        pair_row(field, 0, 1, 2, y, z),
        pair_row(field, 1, 1, 2, y, z),
        pair_row(field, 2, 1, 2, y, z),
    ])
}

/// The matrix of the second step of a cusp: x goes to x - coef(x^2*z)/(3*coef(x^3))*z.
///
/// Errors: `Range` only where an operation of the quotient has height 2^120 or more.
pub fn cusp_second<F: Field>(field: &F, f: &JetOf<F>) -> Result<Matrix<F::Elem>, Range>
    requires field { F.is_ring field.now }
    requires jet { IsJetIn (F.meaning field.now) 3 f.now }
    requires nonzero { let m = F.meaning field.now in coefficient_of m.scalars (poly_of 3 m.value f.now.terms) 3 0 0 ≢ m.scalars.ops.zero }
    ensures matrix { IfOk result (let m = F.meaning field.now in IsMatrix m (cusp_second_of m.scalars (poly_of 3 m.value f.now.terms))) }
    ensures range { OnRange result (let m = F.meaning field.now in let s = m.scalars in let g = poly_of 3 m.value f.now.terms in
        Among (IsWorkHigh 3 s) (over_multiple_work s 3 3 (coefficient_of s g 2 0 1) (coefficient_of s g 3 0 0))) }
{
    let x = coefficient(field, f, 2, 0, 1);
    let y = coefficient(field, f, 3, 0, 0);
    let a = over_multiple(field, 3, x, y)?;
    Ok(shear(field, 0, 2, a, field.zero()))
}

/// The matrix of the second step of a conic with a tangent: y goes to
/// y - coef(y*z^2)/(2*coef(y^2*z))*z.
///
/// Errors: `Range` only where an operation of the quotient has height 2^120 or more.
pub fn tangent_second<F: Field>(field: &F, f: &JetOf<F>) -> Result<Matrix<F::Elem>, Range>
    requires field { F.is_ring field.now }
    requires jet { IsJetIn (F.meaning field.now) 3 f.now }
    requires nonzero { let m = F.meaning field.now in coefficient_of m.scalars (poly_of 3 m.value f.now.terms) 0 2 1 ≢ m.scalars.ops.zero }
    ensures matrix { IfOk result (let m = F.meaning field.now in IsMatrix m (tangent_second_of m.scalars (poly_of 3 m.value f.now.terms))) }
    ensures range { OnRange result (let m = F.meaning field.now in let s = m.scalars in let g = poly_of 3 m.value f.now.terms in
        Among (IsWorkHigh 3 s) (over_multiple_work s 3 2 (coefficient_of s g 0 1 2) (coefficient_of s g 0 2 1))) }
{
    let x = coefficient(field, f, 0, 1, 2);
    let y = coefficient(field, f, 0, 2, 1);
    let a = over_multiple(field, 2, x, y)?;
    Ok(shear(field, 1, 2, a, field.zero()))
}

/// Where q0 is not 0, x goes to x(p) - q1/(2*q0)*x and x(p) to x; else the identity matrix.
fn swap<F: Field>(field: &F, p: usize, q0: F::Elem, q1: F::Elem) -> Result<Matrix<F::Elem>, Range>
    requires field { F.is_ring field.now }
    requires first { (F.meaning field.now).is_elem q0 }
    requires second { (F.meaning field.now).is_elem q1 }
    ensures matrix { IfOk result (let m = F.meaning field.now in IsMatrix m (swap_step_of m.scalars p (m.value q0) (m.value q1))) }
    ensures range { OnRange result (let m = F.meaning field.now in Among (IsWorkHigh 3 m.scalars) (swap_work m.scalars (m.value q0) (m.value q1))) }
{
    if is_zero(field, q0) {
        return Ok(unit(field));
    }
    let half = over_multiple(field, 2, q1, q0)?;
    let x = two_in_row(field, 0, field.neg(half), p, field.one());
    let y = unit_row(field, 0);
    Ok([
        pair_row(field, 0, 0, p, x, y),
        pair_row(field, 1, 0, p, x, y),
        pair_row(field, 2, 0, p, x, y),
    ])
}

/// The matrix of the first step of a cusp, after the axis rule: that of
/// y*(q0*x^2 + q1*x*z + q2*z^2), with z.
///
/// Errors: `Range` only where an operation of the quotient q1/(2*q0) has height 2^120 or more.
pub fn cusp_first<F: Field>(field: &F, f: &JetOf<F>) -> Result<Matrix<F::Elem>, Range>
    requires field { F.is_ring field.now }
    requires jet { IsJetIn (F.meaning field.now) 3 f.now }
    ensures matrix { IfOk result (let m = F.meaning field.now in IsMatrix m (cusp_first_of m.scalars (poly_of 3 m.value f.now.terms))) }
    ensures range { OnRange result (let m = F.meaning field.now in let g = poly_of 3 m.value f.now.terms in
        Among (IsWorkHigh 3 m.scalars) (swap_work m.scalars (coefficient_of m.scalars g 2 1 0) (coefficient_of m.scalars g 1 1 1))) }
{
    let q0 = coefficient(field, f, 2, 1, 0);
    let q1 = coefficient(field, f, 1, 1, 1);
    swap(field, 2, q0, q1)
}

/// The matrix of the first step of a conic with a tangent, after the plane rule: that of
/// z*(q0*x^2 + q1*x*y + q2*y^2), with y.
///
/// Errors: `Range` only where an operation of the quotient q1/(2*q0) has height 2^120 or more.
pub fn tangent_first<F: Field>(field: &F, f: &JetOf<F>) -> Result<Matrix<F::Elem>, Range>
    requires field { F.is_ring field.now }
    requires jet { IsJetIn (F.meaning field.now) 3 f.now }
    ensures matrix { IfOk result (let m = F.meaning field.now in IsMatrix m (tangent_first_of m.scalars (poly_of 3 m.value f.now.terms))) }
    ensures range { OnRange result (let m = F.meaning field.now in let g = poly_of 3 m.value f.now.terms in
        Among (IsWorkHigh 3 m.scalars) (swap_work m.scalars (coefficient_of m.scalars g 2 0 1) (coefficient_of m.scalars g 1 1 1))) }
{
    let q0 = coefficient(field, f, 2, 0, 1);
    let q1 = coefficient(field, f, 1, 1, 1);
    swap(field, 1, q0, q1)
}
