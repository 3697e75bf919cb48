//! The shape of a binary quartic.

ghost use Rattle.std.specs.Prelude.{◌≡◌, ◌≢◌, ◌∷◌, [], IfOk, All, length, map};
ghost use Rattle.lin_row.specs.Plain.{Among};
ghost use Rattle.ring_law.specs.Refusals.{OnRange};
ghost use Rattle.jet_law.specs.Heights.{IsHigh};
ghost use Rattle.normal_forms.specs.Units.{quartic_i, quartic_j, invariants_heights, quartic_letters as quartic_letters_values};
ghost use Rattle.normal_forms.specs.declared.kind.Kind.TheVariants as kinds;
ghost use Rattle.move_law.specs.Moves.{over, whole as whole_value};
ghost use Rattle.move_law.specs.Shapes.{nth, less_multiple as less_multiple_values, quartic_hessian as quartic_hessian_values, over_multiple_work, quartic_work};
ghost use Rattle.move_law.specs.Work.{IsWorkHigh};
ghost use Rattle.move_law.specs.Work as work;
ghost use Rattle.bin_forms.specs.Lines.{less_work};
ghost use Rattle.bin_forms.specs.Quartics.{IsQuarticAnswer, IsDegenerate, IsSquared, IsSquare};

use crate::line::{Line, power_line};
use crate::number::{are_zero, is_zero, less_multiple, over_multiple, part_of, quotient, whole};
use move_law::{QUARTIC_H0, QUARTIC_H1, QUARTIC_H2, QUARTIC_H3, QUARTIC_H4};
use normal_forms::{QUARTIC_DISCRIMINANT, quartic_invariants};
use ring_formula::evaluate;
use ring_law::{Field, Range, Ring};

/// The shape of a binary quartic: zero; lines that differ over each larger field; a multiple of the
/// fourth power of a line; of the cube of a line and another line; of the square of a line and two
/// other lines; or of the square of `q0*x^2 + q1*x*y + q2*y^2`, whose lines differ.
#[derive(Clone, Copy, Debug)]
pub enum Quartic<E> {
    Zero,
    Distinct,
    Fourth { line: Line<E> },
    Triple { line: Line<E> },
    Double { line: Line<E> },
    TwoDoubles { q0: E, q1: E, q2: E },
}

// The letters a, b, c, d, e of the quartic a*x^4 + 4*b*x^3*y + 6*c*x^2*y^2 + 4*d*x*y^3 + e*y^4.
fn quartic_letters<R: Ring>(ring: &R, q: &[R::Elem]) -> Result<[R::Elem; 5], Range>
    requires ring { R.is_ring ring.now }
    requires elems { All (R.meaning ring.now).is_elem q.now }
    requires coefficients { length q.now ≡ 5 }
    ensures elems { IfOk result (λ a. All (R.meaning ring.now).is_elem a) }
    ensures count { IfOk result (λ a. length a ≡ 5) }
    ensures value { IfOk result (λ a. let m = R.meaning ring.now in map m.value a ≡ quartic_letters_values m.scalars (map m.value q.now)) }
    ensures range { OnRange result (let m = R.meaning ring.now in IsHigh (invariants_heights m.scalars (map m.value q.now))) }
{
    let b = part_of(ring, 4, q[1])?;
    let c = part_of(ring, 6, q[2])?;
    let d = part_of(ring, 4, q[3])?;
    Ok([q[0], b, c, d, q[4]])
}

// The coefficients of the Hessian of a quartic, up to a factor.
fn quartic_hessian<R: Ring>(ring: &R, q: &[R::Elem]) -> Result<[R::Elem; 5], Range>
    requires ring { R.is_ring ring.now }
    requires elems { All (R.meaning ring.now).is_elem q.now }
    requires coefficients { length q.now ≡ 5 }
    ensures elems { IfOk result (λ h. All (R.meaning ring.now).is_elem h) }
    ensures count { IfOk result (λ h. length h ≡ 5) }
    ensures value { IfOk result (λ h. let m = R.meaning ring.now in map m.value h ≡ quartic_hessian_values m.scalars (map m.value q.now)) }
    ensures range { OnRange result (let m = R.meaning ring.now in let a = quartic_letters_values m.scalars (map m.value q.now) in
        Among (IsWorkHigh 2 m.scalars) (work.units kinds.QuarticForm (map m.value q.now) ∷ work.formula a QUARTIC_H0 ∷ work.formula a QUARTIC_H1
        ∷ work.formula a QUARTIC_H2 ∷ work.formula a QUARTIC_H3 ∷ work.formula a QUARTIC_H4 ∷ [])) }
{
    let letters = quartic_letters(ring, q)?;
    let h0 = evaluate(ring, &QUARTIC_H0, &letters)?;
    let h1 = evaluate(ring, &QUARTIC_H1, &letters)?;
    let h2 = evaluate(ring, &QUARTIC_H2, &letters)?;
    let h3 = evaluate(ring, &QUARTIC_H3, &letters)?;
    let h4 = evaluate(ring, &QUARTIC_H4, &letters)?;
    Ok([h0, h1, h2, h3, h4])
}

// 3*J / (2*I), where I is not 0.
fn invariant_ratio<F: Field>(field: &F, i: F::Elem, j: F::Elem) -> Result<F::Elem, Range>
    requires field { F.is_ring field.now }
    requires first { (F.meaning field.now).is_elem i }
    requires second { (F.meaning field.now).is_elem j }
    requires nonzero { let m = F.meaning field.now in m.value i ≢ m.scalars.ops.zero }
    ensures elem { IfOk result (F.meaning field.now).is_elem }
    ensures value { IfOk result (λ w. let m = F.meaning field.now in m.value w
        ≡ over m.scalars (m.scalars.ops.mul (whole_value m.scalars 3) (m.value j)) (m.scalars.ops.mul (whole_value m.scalars 2) (m.value i))) }
    ensures range { OnRange result (let m = F.meaning field.now in Among (IsWorkHigh 2 m.scalars)
        (work.product (whole_value m.scalars 3) (m.value j) ∷ over_multiple_work m.scalars 2 2 (m.scalars.ops.mul (whole_value m.scalars 3) (m.value j)) (m.value i))) }
{
    let multiple = field.mul(whole(field, 3), j)?;
    over_multiple(field, 2, multiple, i)
}

// The coefficients of h - w*q.
fn less_multiples<R: Ring>(
    ring: &R,
    w: R::Elem,
    h: &[R::Elem],
    q: &[R::Elem],
) -> Result<[R::Elem; 5], Range>
    requires ring { R.is_ring ring.now }
    requires factor { (R.meaning ring.now).is_elem w }
    requires h_elems { All (R.meaning ring.now).is_elem h.now }
    requires q_elems { All (R.meaning ring.now).is_elem q.now }
    requires h_coefficients { length h.now ≡ 5 }
    requires q_coefficients { length q.now ≡ 5 }
    ensures elems { IfOk result (λ k. All (R.meaning ring.now).is_elem k) }
    ensures value { IfOk result (λ k. let m = R.meaning ring.now in map m.value k ≡ less_multiple_values m.scalars (m.value w) (map m.value h.now) (map m.value q.now)) }
    ensures range { OnRange result (let m = R.meaning ring.now in
        Among (λ i. Among (IsWorkHigh 2 m.scalars) (less_work m.scalars (m.value w) (nth m.scalars (map m.value h.now) i) (nth m.scalars (map m.value q.now) i)))
        (0 ∷ 1 ∷ 2 ∷ 3 ∷ 4 ∷ [])) }
{
    let k0 = less_multiple(ring, h[0], w, q[0])?;
    let k1 = less_multiple(ring, h[1], w, q[1])?;
    let k2 = less_multiple(ring, h[2], w, q[2])?;
    let k3 = less_multiple(ring, h[3], w, q[3])?;
    let k4 = less_multiple(ring, h[4], w, q[4])?;
    Ok([k0, k1, k2, k3, k4])
}

// The shape of a quartic that is a multiple of the square of a quadratic form.
fn square_shape<F: Field>(field: &F, q: &[F::Elem]) -> Result<Quartic<F::Elem>, Range>
    requires field { F.is_ring field.now }
    requires elems { All (F.meaning field.now).is_elem q.now }
    requires coefficients { length q.now ≡ 5 }
    requires square { let m = F.meaning field.now in IsSquare m.scalars (map m.value q.now) }
    ensures shape { IfOk result (IsQuarticAnswer (F.meaning field.now) q.now) }
    ensures range { OnRange result (let m = F.meaning field.now in Among (IsWorkHigh 2 m.scalars) (quartic_work m.scalars 2 (map m.value q.now))) }
{
    let (first, third) = (q[0], q[2]);
    if is_zero(field, first) {
        let q2 = over_multiple(field, 2, q[3], third)?;
        return Ok(Quartic::TwoDoubles {
            q0: field.zero(),
            q1: field.one(),
            q2,
        });
    }
    let half = over_multiple(field, 2, q[1], first)?;
    let ratio = quotient(field, third, first)?;
    let difference = less_multiple(field, ratio, half, half)?;
    let last = quotient(field, difference, whole(field, 2))?;
    Ok(Quartic::TwoDoubles {
        q0: field.one(),
        q1: half,
        q2: last,
    })
}

// The shape of a quartic with invariants I and J and Hessian h, which has one or two lines that
// stand exactly twice.
fn squared_shape<F: Field>(
    field: &F,
    q: &[F::Elem],
    i: F::Elem,
    j: F::Elem,
    h: &[F::Elem],
) -> Result<Quartic<F::Elem>, Range>
    requires field { F.is_ring field.now }
    requires elems { All (F.meaning field.now).is_elem q.now }
    requires coefficients { length q.now ≡ 5 }
    requires i_elem { (F.meaning field.now).is_elem i }
    requires j_elem { (F.meaning field.now).is_elem j }
    requires h_elems { All (F.meaning field.now).is_elem h.now }
    requires h_coefficients { length h.now ≡ 5 }
    requires i_value { let m = F.meaning field.now in m.value i ≡ quartic_i m.scalars (map m.value q.now) }
    requires j_value { let m = F.meaning field.now in m.value j ≡ quartic_j m.scalars (map m.value q.now) }
    requires hessian { let m = F.meaning field.now in map m.value h.now ≡ quartic_hessian_values m.scalars (map m.value q.now) }
    requires squared { let m = F.meaning field.now in IsSquared m.scalars (map m.value q.now) }
    ensures shape { IfOk result (IsQuarticAnswer (F.meaning field.now) q.now) }
    ensures range { OnRange result (let m = F.meaning field.now in Among (IsWorkHigh 2 m.scalars) (quartic_work m.scalars 2 (map m.value q.now))) }
{
    let w = invariant_ratio(field, i, j)?;
    let k = less_multiples(field, w, h, q)?;
    if are_zero(field, &k) {
        return square_shape(field, q);
    }
    let line = power_line(field, 4, k[0], k[1])?;
    Ok(Quartic::Double { line })
}

// The shape of a quartic with invariants I and J that is not zero and whose discriminant is.
fn degenerate_shape<F: Field>(
    field: &F,
    q: &[F::Elem],
    i: F::Elem,
    j: F::Elem,
) -> Result<Quartic<F::Elem>, Range>
    requires field { F.is_ring field.now }
    requires elems { All (F.meaning field.now).is_elem q.now }
    requires coefficients { length q.now ≡ 5 }
    requires i_elem { (F.meaning field.now).is_elem i }
    requires j_elem { (F.meaning field.now).is_elem j }
    requires i_value { let m = F.meaning field.now in m.value i ≡ quartic_i m.scalars (map m.value q.now) }
    requires j_value { let m = F.meaning field.now in m.value j ≡ quartic_j m.scalars (map m.value q.now) }
    requires degenerate { let m = F.meaning field.now in IsDegenerate m.scalars (map m.value q.now) }
    ensures shape { IfOk result (IsQuarticAnswer (F.meaning field.now) q.now) }
    ensures range { OnRange result (let m = F.meaning field.now in Among (IsWorkHigh 2 m.scalars) (quartic_work m.scalars 2 (map m.value q.now))) }
{
    let h = quartic_hessian(field, q)?;
    if are_zero(field, &h) {
        let line = power_line(field, 4, q[0], q[1])?;
        return Ok(Quartic::Fourth { line });
    }
    if are_zero(field, &[i, j]) {
        let line = power_line(field, 4, h[0], h[1])?;
        return Ok(Quartic::Triple { line });
    }
    squared_shape(field, q, i, j, &h)
}

/// The shape of a binary quartic, by its coefficients from `x^4` to `y^4`: the multiplicities of its
/// linear factors, with the line that stands most often, or with a quadratic form whose two lines
/// stand twice each.
///
/// Errors: `Range` only where an operation of I, J, the discriminant `I^3 - 27*J^2`, the Hessian H,
/// of `H - 3*J/(2*I)*q` or of the quotients of the line or the quadratic form has height 2^120 or
/// more.
/// Source: P. J. Olver, Classical Invariant Theory, chapter 2.
pub fn quartic_shape<F: Field>(field: &F, q: &[F::Elem]) -> Result<Quartic<F::Elem>, Range>
    requires field { F.is_ring field.now }
    requires elems { All (F.meaning field.now).is_elem q.now }
    requires coefficients { length q.now ≡ 5 }
    ensures shape { IfOk result (IsQuarticAnswer (F.meaning field.now) q.now) }
    ensures range { OnRange result (let m = F.meaning field.now in Among (IsWorkHigh 2 m.scalars) (quartic_work m.scalars 2 (map m.value q.now))) }
{
    if are_zero(field, q) {
        return Ok(Quartic::Zero);
    }
    let (i, j) = quartic_invariants(field, q)?;
    let discriminant = evaluate(field, &QUARTIC_DISCRIMINANT, &[i, j])?;
    if !is_zero(field, discriminant) {
        return Ok(Quartic::Distinct);
    }
    degenerate_shape(field, q, i, j)
}
