//! Square matrices, row after row: the identity matrix and products.

ghost use Rattle.std.specs.Prelude.{◌≡◌, ℕ, ◌*◌, ◌/◌, ◌%◌, ◌<◌, ◌≤◌, length, IfOk, All};
ghost use Rattle.poly_law.specs.Sums.{sum_to, unit_at};
ghost use Rattle.ring_law.specs.Refusals.{OnRange, OnFault};
ghost use Rattle.coord_change.specs.Changes.{entry_of, IsEntryHigh, IsMatrixHigh};

use ring_law::{Fault, Range, Ring};
use std::alloc::Global;

/// 1 where i = j, and 0 elsewhere.
fn unit_entry<R: Ring>(ring: &R, i: usize, j: usize) -> R::Elem
    requires { R.is_ring ring.now }
    ensures elem { (R.meaning ring.now).is_elem result }
    ensures value { (R.meaning ring.now).value result ≡ unit_at (R.meaning ring.now).scalars.ops i j }
{
    if i == j { ring.one() } else { ring.zero() }
}

/// The identity matrix with n rows.
pub fn unit_matrix<R: Ring>(alloc: Global, ring: &R, n: u8) -> Result<Vec<R::Elem>, Fault>
    requires ring { R.is_ring ring.now }
    requires given { 0 < n }
    requires at_most_8_rows { n ≤ 8 }
    ensures elems { IfOk result (λ v. All (R.meaning ring.now).is_elem v.items) }
    ensures count { IfOk result (λ v. length v.items ≡ n * n) }
    ensures entries { IfOk result (λ v. let m = R.meaning ring.now in (i j : ℕ) → i < n → j < n → entry_of m n v.items i j ≡ unit_at m.scalars.ops i j) }
    ensures range { OnFault result ⊥ }
{
    let rows = usize::from(n);
    let mut all = Vec::new(alloc);
    for place in 0..rows * rows {
        let entry = unit_entry(ring, place / rows, place % rows);
        all.push(entry)?;
    }
    Ok(all)
}

/// The entry in row i and column j of the product b*a.
fn product_entry<R: Ring>(
    ring: &R,
    n: usize,
    b: &[R::Elem],
    a: &[R::Elem],
    i: usize,
    j: usize,
) -> Result<R::Elem, Range>
    requires ring { R.is_ring ring.now }
    requires at_most_8_rows { n ≤ 8 }
    requires b_elems { All (R.meaning ring.now).is_elem b.now }
    requires a_elems { All (R.meaning ring.now).is_elem a.now }
    requires b_entries { length b.now ≡ n * n }
    requires a_entries { length a.now ≡ n * n }
    requires row { i < n }
    requires column { j < n }
    ensures elem { IfOk result ((R.meaning ring.now).is_elem) }
    ensures value { IfOk result (λ x. let m = R.meaning ring.now in m.value x ≡ sum_to m.scalars.ops n (λ t. m.scalars.ops.mul (entry_of m n b.now i t) (entry_of m n a.now t j))) }
    ensures range { OnRange result (let m = R.meaning ring.now in IsEntryHigh m.scalars n (entry_of m n b.now) (entry_of m n a.now) i j) }
{
    let mut sum = ring.zero();
    for t in 0..n {
        let product = ring.mul(b[n * i + t], a[n * t + j])?;
        sum = ring.add(sum, product)?;
    }
    Ok(sum)
}

/// The product b*a of matrices with n rows.
pub fn matrix_product<R: Ring>(
    alloc: Global,
    ring: &R,
    n: u8,
    b: &[R::Elem],
    a: &[R::Elem],
) -> Result<Vec<R::Elem>, Fault>
    requires ring { R.is_ring ring.now }
    requires given { 0 < n }
    requires at_most_8_rows { n ≤ 8 }
    requires b_elems { All (R.meaning ring.now).is_elem b.now }
    requires a_elems { All (R.meaning ring.now).is_elem a.now }
    requires b_entries { length b.now ≡ n * n }
    requires a_entries { length a.now ≡ n * n }
    ensures elems { IfOk result (λ v. All (R.meaning ring.now).is_elem v.items) }
    ensures count { IfOk result (λ v. length v.items ≡ n * n) }
    ensures entries { IfOk result (λ v. let m = R.meaning ring.now in (i j : ℕ) → i < n → j < n
        → entry_of m n v.items i j ≡ sum_to m.scalars.ops n (λ t. m.scalars.ops.mul (entry_of m n b.now i t) (entry_of m n a.now t j))) }
    ensures range { OnFault result (let m = R.meaning ring.now in IsMatrixHigh m.scalars n (entry_of m n b.now) (entry_of m n a.now)) }
{
    let rows = usize::from(n);
    let mut all = Vec::new(alloc);
    for place in 0..rows * rows {
        let entry = product_entry(ring, rows, b, a, place / rows, place % rows)?;
        all.push(entry)?;
    }
    Ok(all)
}
