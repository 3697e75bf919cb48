//! Tests for zero, and quotients of elements of a field.

ghost use Rattle.std.specs.Prelude.{◌≡◌, ◌≢◌, ◌<◌, ◌≤◌, ◌^◌, IfOk, All, map};
ghost use Rattle.lin_row.specs.Plain.{Among};
ghost use Rattle.ring_law.specs.Refusals.{OnRange};
ghost use Rattle.jet_poly.specs.Jets.{whole as whole_value};
ghost use Rattle.normal_forms.specs.Units.{over_number, over_height};
ghost use Rattle.move_law.specs.Moves.{over, minus};
ghost use Rattle.move_law.specs.Shapes.{are_zero as are_zero_values, over_work, over_multiple_work};
ghost use Rattle.move_law.specs.Work.{IsWorkHigh};
ghost use Rattle.bin_forms.specs.Lines.{less_work};

use ring_law::{Field, Frac, Range, Ring};

// Whether the element is 0.
pub(crate) fn is_zero<R: Ring>(ring: &R, x: R::Elem) -> bool
    requires ring { R.is_ring ring.now }
    requires elem { (R.meaning ring.now).is_elem x }
    ensures { let m = R.meaning ring.now in result ≡ m.scalars.is_zero (m.value x) }
{
    ring.eq(x, ring.zero())
}

// Whether all elements are 0.
pub(crate) fn are_zero<R: Ring>(ring: &R, xs: &[R::Elem]) -> bool
    requires ring { R.is_ring ring.now }
    requires elems { All (R.meaning ring.now).is_elem xs.now }
    ensures { let m = R.meaning ring.now in result ≡ are_zero_values m.scalars (map m.value xs.now) }
{
    for x in xs {
        if !is_zero(ring, *x) {
            return false;
        }
    }
    true
}

// The whole number k.
pub(crate) fn whole<R: Ring>(ring: &R, k: u8) -> R::Elem
    requires { R.is_ring ring.now }
    ensures elem { (R.meaning ring.now).is_elem result }
    ensures value { let m = R.meaning ring.now in m.value result ≡ whole_value m.scalars k }
{
    ring.inject(Frac {
        num: i128::from(k),
        den: 1,
    })
}

// a / b, where b is not 0.
pub(crate) fn quotient<F: Field>(field: &F, a: F::Elem, b: F::Elem) -> Result<F::Elem, Range>
    requires field { F.is_ring field.now }
    requires dividend { (F.meaning field.now).is_elem a }
    requires divisor { (F.meaning field.now).is_elem b }
    requires nonzero { let m = F.meaning field.now in m.value b ≢ m.scalars.ops.zero }
    ensures elem { IfOk result (F.meaning field.now).is_elem }
    ensures value { IfOk result (λ y. let m = F.meaning field.now in m.value y ≡ over m.scalars (m.value a) (m.value b)) }
    ensures range { OnRange result (let m = F.meaning field.now in Among (IsWorkHigh 2 m.scalars) (over_work m.scalars 2 (m.value a) (m.value b))) }
{
    let inverse = field.inv(b)?.unwrap();
    field.mul(a, inverse)
}

// a / (k*b), where b and k are not 0.
pub(crate) fn over_multiple<F: Field>(
    field: &F,
    k: u8,
    a: F::Elem,
    b: F::Elem,
) -> Result<F::Elem, Range>
    requires field { F.is_ring field.now }
    requires factor { 0 < k }
    requires dividend { (F.meaning field.now).is_elem a }
    requires divisor { (F.meaning field.now).is_elem b }
    requires nonzero { let m = F.meaning field.now in m.value b ≢ m.scalars.ops.zero }
    ensures elem { IfOk result (F.meaning field.now).is_elem }
    ensures value { IfOk result (λ y. let m = F.meaning field.now in m.value y ≡ over m.scalars (m.value a) (m.scalars.ops.mul (whole_value m.scalars k) (m.value b))) }
    ensures range { OnRange result (let m = F.meaning field.now in Among (IsWorkHigh 2 m.scalars) (over_multiple_work m.scalars 2 k (m.value a) (m.value b))) }
{
    let multiple = field.mul(whole(field, k), b)?;
    quotient(field, a, multiple)
}

// v / n.
pub(crate) fn part_of<R: Ring>(ring: &R, n: u8, v: R::Elem) -> Result<R::Elem, Range>
    requires ring { R.is_ring ring.now }
    requires elem { (R.meaning ring.now).is_elem v }
    requires divisor { 0 < n }
    ensures elem { IfOk result (R.meaning ring.now).is_elem }
    ensures value { IfOk result (λ y. let m = R.meaning ring.now in m.value y ≡ over_number m.scalars n (m.value v)) }
    ensures range { OnRange result (let m = R.meaning ring.now in 2 ^ 120 ≤ over_height m.scalars n (m.value v)) }
{
    let inverse = ring.inject(Frac {
        num: 1,
        den: i128::from(n),
    });
    ring.mul(inverse, v)
}

// x - w*y.
pub(crate) fn less_multiple<R: Ring>(
    ring: &R,
    x: R::Elem,
    w: R::Elem,
    y: R::Elem,
) -> Result<R::Elem, Range>
    requires ring { R.is_ring ring.now }
    requires first { (R.meaning ring.now).is_elem x }
    requires factor { (R.meaning ring.now).is_elem w }
    requires second { (R.meaning ring.now).is_elem y }
    ensures elem { IfOk result (R.meaning ring.now).is_elem }
    ensures value { IfOk result (λ z. let m = R.meaning ring.now in m.value z ≡ minus m.scalars (m.value x) (m.scalars.ops.mul (m.value w) (m.value y))) }
    ensures range { OnRange result (let m = R.meaning ring.now in Among (IsWorkHigh 2 m.scalars) (less_work m.scalars (m.value w) (m.value x) (m.value y))) }
{
    let multiple = ring.mul(w, y)?;
    ring.add(x, ring.neg(multiple))
}
