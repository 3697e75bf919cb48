//! The matrices of the axis rule and the plane rule, and of the small steps.

ghost use Rattle.std.specs.Prelude.{◌≡◌, ◌≢◌, ℕ, ◌<◌, ◌==◌, if◌then◌else◌, List, flat_map, map, length, IfOk, All};
ghost use Rattle.ring_law.specs.Refusals.{OnRange};
ghost use Rattle.lin_row.specs.Plain.{Among};
ghost use Rattle.move_law.specs.Moves.{over};
ghost use Rattle.move_law.specs.Shapes.{over_work};
ghost use Rattle.move_law.specs.Work.{IsWorkHigh};
ghost use Rattle.ternary_law.specs.Matrices.{places, unit_row as unit_row_of, unit_matrix, with_row as with_row_of, two_in_row as two_in_row_of};
ghost use Rattle.ternary_law.specs.Steps.{partner as partner_of, first_place as first_place_of, last_place as last_place_of, axis_matrix as axis_matrix_of, plane_matrix as plane_matrix_of, less_row as less_row_of, shear as shear_of};
ghost use Rattle.tern_cubic.specs.Matrices.{IsRow, IsMatrix, vector_of, axis_entry_of, pivot_entry_of};

use ring_law::{Field, Range, Ring};

/// A matrix with three rows of three entries.
pub type Matrix<E> = [[E; 3]; 3];

/// a / b, where b is not 0.
pub(crate) fn quotient<F: Field>(field: &F, a: F::Elem, b: F::Elem) -> Result<F::Elem, Range>
    requires field { F.is_ring field.now }
    requires dividend { (F.meaning field.now).is_elem a }
    requires divisor { (F.meaning field.now).is_elem b }
    requires nonzero { let m = F.meaning field.now in m.value b ≢ m.scalars.ops.zero }
    ensures elem { IfOk result (F.meaning field.now).is_elem }
    ensures value { IfOk result (λ y. let m = F.meaning field.now in m.value y ≡ over m.scalars (m.value a) (m.value b)) }
    ensures range { OnRange result (let m = F.meaning field.now in Among (IsWorkHigh 3 m.scalars) (over_work m.scalars 3 (m.value a) (m.value b))) }
{
    let inverse = field.inv(b)?.unwrap();
    field.mul(a, inverse)
}

/// The quotient of the entries of a vector at the places i and j, of which the second is not 0.
fn ratio<F: Field>(field: &F, v: &[F::Elem], i: usize, j: usize) -> Result<F::Elem, Range>
    requires field { F.is_ring field.now }
    requires elems { All (F.meaning field.now).is_elem v.now }
    requires first { i < length v.now }
    requires second { j < length v.now }
    requires nonzero { let m = F.meaning field.now in vector_of m v.now j ≢ m.scalars.ops.zero }
    ensures elem { IfOk result (F.meaning field.now).is_elem }
    ensures value { IfOk result (λ y. let m = F.meaning field.now in m.value y ≡ over m.scalars (vector_of m v.now i) (vector_of m v.now j)) }
    ensures range { OnRange result (let m = F.meaning field.now in Among (IsWorkHigh 3 m.scalars) (over_work m.scalars 3 (vector_of m v.now i) (vector_of m v.now j))) }
{
    quotient(field, v[i], v[j])
}

/// The element of the other places of q that stands where k stands in those of p.
fn partner(p: usize, q: usize, k: usize) -> usize
    requires first { p < 3 }
    requires second { q < 3 }
    ensures place { result ≡ partner_of p q k }
    ensures inside { result < 3 }
{
    let front = if p == 0 { 1 } else { 0 };
    if k == front {
        return if q == 0 { 1 } else { 0 };
    }
    if q == 2 { 1 } else { 2 }
}

/// Whether the element is 0.
pub(crate) fn is_zero<R: Ring>(ring: &R, x: R::Elem) -> bool
    requires ring { R.is_ring ring.now }
    requires elem { (R.meaning ring.now).is_elem x }
    ensures { let m = R.meaning ring.now in result ≡ m.scalars.is_zero (m.value x) }
{
    ring.eq(x, ring.zero())
}

/// Whether the entry of a vector at a place is 0.
fn is_zero_at<R: Ring>(ring: &R, v: &[R::Elem], i: usize) -> bool
    requires ring { R.is_ring ring.now }
    requires elems { All (R.meaning ring.now).is_elem v.now }
    requires inside { i < length v.now }
    ensures { let m = R.meaning ring.now in result ≡ m.scalars.is_zero (vector_of m v.now i) }
{
    is_zero(ring, v[i])
}

/// The last place where a vector is not 0, or 0.
fn last_place<R: Ring>(ring: &R, v: &[R::Elem]) -> usize
    requires ring { R.is_ring ring.now }
    requires elems { All (R.meaning ring.now).is_elem v.now }
    requires count { length v.now ≡ 3 }
    ensures place { let m = R.meaning ring.now in result ≡ last_place_of m.scalars (vector_of m v.now) }
    ensures inside { result < 3 }
{
    if !is_zero_at(ring, v, 2) {
        return 2;
    }
    if is_zero_at(ring, v, 1) { 0 } else { 1 }
}

/// The first place where a vector is not 0, or 2.
fn first_place<R: Ring>(ring: &R, v: &[R::Elem]) -> usize
    requires ring { R.is_ring ring.now }
    requires elems { All (R.meaning ring.now).is_elem v.now }
    requires count { length v.now ≡ 3 }
    ensures place { let m = R.meaning ring.now in result ≡ first_place_of m.scalars (vector_of m v.now) }
    ensures inside { result < 3 }
{
    if !is_zero_at(ring, v, 0) {
        return 0;
    }
    if is_zero_at(ring, v, 1) { 2 } else { 1 }
}

/// An entry of the axis rule, in row i and column k: x in the column p, and else 1 or 0.
fn axis_entry<R: Ring>(ring: &R, i: usize, k: usize, p: usize, j: usize, x: R::Elem) -> R::Elem
    requires ring { R.is_ring ring.now }
    requires elem { (R.meaning ring.now).is_elem x }
    requires variable { p < 3 }
    requires place { j < 3 }
    ensures elem { (R.meaning ring.now).is_elem result }
    ensures value { let m = R.meaning ring.now in m.value result ≡ axis_entry_of m.scalars p j (m.value x) i k }
{
    if k == p {
        return x;
    }
    if i == partner(p, j, k) {
        ring.one()
    } else {
        ring.zero()
    }
}

/// Row i of the axis rule, with x in the column p.
fn axis_row<R: Ring>(ring: &R, i: usize, p: usize, j: usize, x: R::Elem) -> [R::Elem; 3]
    requires ring { R.is_ring ring.now }
    requires elem { (R.meaning ring.now).is_elem x }
    requires variable { p < 3 }
    requires place { j < 3 }
    ensures { let m = R.meaning ring.now in IsRow m (map (axis_entry_of m.scalars p j (m.value x) i) places) result }
{
    [
        axis_entry(ring, i, 0, p, j, x),
        axis_entry(ring, i, 1, p, j, x),
        axis_entry(ring, i, 2, p, j, x),
    ]
}

/// The matrix of the axis rule: the vector, scaled to 1 at its last place that is not 0, is the
/// column of the new variable p; the other new variables, in order, have the unit columns of the
/// other places.
///
/// Errors: `Range` only where an operation of the three quotients has height 2^120 or more.
pub fn axis_matrix<F: Field>(field: &F, p: usize, v: &[F::Elem]) -> Result<Matrix<F::Elem>, Range>
    requires field { F.is_ring field.now }
    requires variable { p < 3 }
    requires elems { All (F.meaning field.now).is_elem v.now }
    requires count { length v.now ≡ 3 }
    requires nonzero { let m = F.meaning field.now in let w = vector_of m v.now in w (last_place_of m.scalars w) ≢ m.scalars.ops.zero }
    ensures matrix { IfOk result (let m = F.meaning field.now in IsMatrix m (axis_matrix_of m.scalars p (vector_of m v.now))) }
    ensures range { OnRange result (let m = F.meaning field.now in let w = vector_of m v.now in
        Among (IsWorkHigh 3 m.scalars) (flat_map (λ i. over_work m.scalars 3 (w i) (w (last_place_of m.scalars w))) places)) }
{
    let j = last_place(field, v);
    let x = ratio(field, v, 0, j)?;
    let y = ratio(field, v, 1, j)?;
    let z = ratio(field, v, 2, j)?;
    Ok([
        axis_row(field, 0, p, j, x),
        axis_row(field, 1, p, j, y),
        axis_row(field, 2, p, j, z),
    ])
}

/// The entry in column k of the row of the plane rule in which the new variable p stands: 1 in its
/// column, and the negative of a quotient in the others.
fn pivot_entry<F: Field>(
    field: &F,
    p: usize,
    i: usize,
    l: &[F::Elem],
    k: usize,
) -> Result<F::Elem, Range>
    requires field { F.is_ring field.now }
    requires variable { p < 3 }
    requires place { i < 3 }
    requires elems { All (F.meaning field.now).is_elem l.now }
    requires count { length l.now ≡ 3 }
    requires nonzero { let m = F.meaning field.now in vector_of m l.now i ≢ m.scalars.ops.zero }
    ensures elem { IfOk result (F.meaning field.now).is_elem }
    ensures value { IfOk result (λ x. let m = F.meaning field.now in m.value x ≡ pivot_entry_of m.scalars p i (vector_of m l.now) k) }
    ensures range { OnRange result (let m = F.meaning field.now in let w = vector_of m l.now in Among (IsWorkHigh 3 m.scalars) (flat_map (λ d. over_work m.scalars 3 (w d) (w i)) places)) }
{
    if k == p {
        return Ok(field.one());
    }
    let slope = ratio(field, l, partner(p, i, k), i)?;
    Ok(field.neg(slope))
}

/// Row o of the plane rule: the given one at the place i, and else that of a variable.
fn plane_row<R: Ring>(ring: &R, o: usize, p: usize, i: usize, pivot: [R::Elem; 3]) -> [R::Elem; 3]
    requires ring { R.is_ring ring.now }
    requires variable { p < 3 }
    requires place { i < 3 }
    ensures { let m = R.meaning ring.now in (w : ℕ → R.Value ring.now) → IsRow m (map w places) pivot
        → IsRow m (map (λ k. if o == i then w k else axis_entry_of m.scalars p i m.scalars.ops.zero o k) places) result }
{
    if o == i {
        return pivot;
    }
    axis_row(ring, o, p, i, ring.zero())
}

/// The matrix of the plane rule: the linear form, scaled to 1 at its first place that is not 0,
/// becomes the new variable p; the other new variables, in order, are the other old ones.
///
/// Errors: `Range` only where an operation of the quotients has height 2^120 or more.
pub fn plane_matrix<F: Field>(field: &F, p: usize, l: &[F::Elem]) -> Result<Matrix<F::Elem>, Range>
    requires field { F.is_ring field.now }
    requires variable { p < 3 }
    requires elems { All (F.meaning field.now).is_elem l.now }
    requires count { length l.now ≡ 3 }
    requires nonzero { let m = F.meaning field.now in let w = vector_of m l.now in w (first_place_of m.scalars w) ≢ m.scalars.ops.zero }
    ensures matrix { IfOk result (let m = F.meaning field.now in IsMatrix m (plane_matrix_of m.scalars p (vector_of m l.now))) }
    ensures range { OnRange result (let m = F.meaning field.now in let w = vector_of m l.now in
        Among (IsWorkHigh 3 m.scalars) (flat_map (λ k. over_work m.scalars 3 (w k) (w (first_place_of m.scalars w))) places)) }
{
    let i = first_place(field, l);
    let pivot = [
        pivot_entry(field, p, i, l, 0)?,
        pivot_entry(field, p, i, l, 1)?,
        pivot_entry(field, p, i, l, 2)?,
    ];
    Ok([
        plane_row(field, 0, p, i, pivot),
        plane_row(field, 1, p, i, pivot),
        plane_row(field, 2, p, i, pivot),
    ])
}

/// 1 where i = j, and 0 elsewhere.
fn unit_entry<R: Ring>(ring: &R, i: usize, j: usize) -> R::Elem
    requires { R.is_ring ring.now }
    ensures elem { (R.meaning ring.now).is_elem result }
    ensures value { let m = R.meaning ring.now in m.value result ≡ (if i == j then m.scalars.ops.one else m.scalars.ops.zero) }
{
    if i == j { ring.one() } else { ring.zero() }
}

/// The row that is 1 at place i and 0 elsewhere.
pub(crate) fn unit_row<R: Ring>(ring: &R, i: usize) -> [R::Elem; 3]
    requires { R.is_ring ring.now }
    ensures { let m = R.meaning ring.now in IsRow m (unit_row_of m.scalars i) result }
{
    [
        unit_entry(ring, i, 0),
        unit_entry(ring, i, 1),
        unit_entry(ring, i, 2),
    ]
}

/// The identity matrix.
pub(crate) fn unit<R: Ring>(ring: &R) -> Matrix<R::Elem>
    requires { R.is_ring ring.now }
    ensures { let m = R.meaning ring.now in IsMatrix m (unit_matrix m.scalars) result }
{
    [unit_row(ring, 0), unit_row(ring, 1), unit_row(ring, 2)]
}

/// The given row where o = i, and else row o of the identity matrix.
pub(crate) fn row_or_unit<R: Ring>(ring: &R, o: usize, i: usize, row: [R::Elem; 3]) -> [R::Elem; 3]
    requires { R.is_ring ring.now }
    ensures { let m = R.meaning ring.now in (w : List (R.Value ring.now)) → IsRow m w row → IsRow m (if o == i then w else unit_row_of m.scalars o) result }
{
    if o == i { row } else { unit_row(ring, o) }
}

/// The entry at place p of the row with 1 at place i, -a at place j and -b at the third place.
fn less_entry<R: Ring>(ring: &R, i: usize, j: usize, a: R::Elem, b: R::Elem, p: usize) -> R::Elem
    requires ring { R.is_ring ring.now }
    requires first { (R.meaning ring.now).is_elem a }
    requires second { (R.meaning ring.now).is_elem b }
    ensures elem { (R.meaning ring.now).is_elem result }
    ensures value { let m = R.meaning ring.now in let s = m.scalars in m.value result ≡ (if p == i then s.ops.one else (if p == j then s.ops.neg (m.value a) else s.ops.neg (m.value b))) }
{
    if p == i {
        return ring.one();
    }
    if p == j { ring.neg(a) } else { ring.neg(b) }
}

/// The row with 1 at place i, -a at place j and -b at the third place.
pub(crate) fn less_row<R: Ring>(
    ring: &R,
    i: usize,
    j: usize,
    a: R::Elem,
    b: R::Elem,
) -> [R::Elem; 3]
    requires ring { R.is_ring ring.now }
    requires first { (R.meaning ring.now).is_elem a }
    requires second { (R.meaning ring.now).is_elem b }
    ensures { let m = R.meaning ring.now in (k : ℕ) → IsRow m (less_row_of m.scalars i j k (m.value a) (m.value b)) result }
{
    [
        less_entry(ring, i, j, a, b, 0),
        less_entry(ring, i, j, a, b, 1),
        less_entry(ring, i, j, a, b, 2),
    ]
}

/// The matrix of the step after which x(i) is x(i) - a*x(j) - b*x(k), where k is the third place.
pub fn shear<R: Ring>(ring: &R, i: usize, j: usize, a: R::Elem, b: R::Elem) -> Matrix<R::Elem>
    requires ring { R.is_ring ring.now }
    requires first { (R.meaning ring.now).is_elem a }
    requires second { (R.meaning ring.now).is_elem b }
    ensures { let m = R.meaning ring.now in (k : ℕ) → IsMatrix m (shear_of m.scalars i j k (m.value a) (m.value b)) result }
{
    let row = less_row(ring, i, j, a, b);
    [
        row_or_unit(ring, 0, i, row),
        row_or_unit(ring, 1, i, row),
        row_or_unit(ring, 2, i, row),
    ]
}

/// The entry at place k of the row with a at place i, b at place j and 0 elsewhere.
fn two_entry<R: Ring>(ring: &R, i: usize, a: R::Elem, j: usize, b: R::Elem, k: usize) -> R::Elem
    requires ring { R.is_ring ring.now }
    requires first { (R.meaning ring.now).is_elem a }
    requires second { (R.meaning ring.now).is_elem b }
    ensures elem { (R.meaning ring.now).is_elem result }
    ensures value { let m = R.meaning ring.now in m.value result ≡ (if k == i then m.value a else (if k == j then m.value b else m.scalars.ops.zero)) }
{
    if k == i {
        return a;
    }
    if k == j { b } else { ring.zero() }
}

/// The row with a at place i, b at place j and 0 elsewhere.
pub(crate) fn two_in_row<R: Ring>(
    ring: &R,
    i: usize,
    a: R::Elem,
    j: usize,
    b: R::Elem,
) -> [R::Elem; 3]
    requires ring { R.is_ring ring.now }
    requires first { (R.meaning ring.now).is_elem a }
    requires second { (R.meaning ring.now).is_elem b }
    ensures { let m = R.meaning ring.now in IsRow m (two_in_row_of m.scalars i (m.value a) j (m.value b)) result }
{
    [
        two_entry(ring, i, a, j, b, 0),
        two_entry(ring, i, a, j, b, 1),
        two_entry(ring, i, a, j, b, 2),
    ]
}

/// Row o of the matrix of the pair rule: the first row at the place i, and the second at j.
pub(crate) fn pair_row<R: Ring>(
    ring: &R,
    o: usize,
    i: usize,
    j: usize,
    first: [R::Elem; 3],
    second: [R::Elem; 3],
) -> [R::Elem; 3]
    requires { R.is_ring ring.now }
    ensures { let m = R.meaning ring.now in (v w : List (R.Value ring.now)) → IsRow m v first → IsRow m w second
        → IsRow m (if o == i then v else (if o == j then w else unit_row_of m.scalars o)) result }
{
    if o == i {
        return first;
    }
    row_or_unit(ring, o, j, second)
}

/// The matrix of the pair rule for the variables i and j and two different roots: x(i) goes to
/// high*x(i) - low*x(j), and x(j) to x(i) - x(j).
pub fn pair_matrix<R: Ring>(
    ring: &R,
    i: usize,
    j: usize,
    low: R::Elem,
    high: R::Elem,
) -> Matrix<R::Elem>
    requires ring { R.is_ring ring.now }
    requires first { (R.meaning ring.now).is_elem low }
    requires second { (R.meaning ring.now).is_elem high }
    ensures { let m = R.meaning ring.now in let s = m.scalars in IsMatrix m
        (with_row_of s i (two_in_row_of s i (m.value high) j (s.ops.neg (m.value low))) (with_row_of s j (two_in_row_of s i s.ops.one j (s.ops.neg s.ops.one)) (unit_matrix s))) result }
{
    let first = two_in_row(ring, i, high, j, ring.neg(low));
    let second = two_in_row(ring, i, ring.one(), j, ring.neg(ring.one()));
    [
        pair_row(ring, 0, i, j, first, second),
        pair_row(ring, 1, i, j, first, second),
        pair_row(ring, 2, i, j, first, second),
    ]
}
