//! Whether a matrix is the inverse of the linear part of a change of coordinates.

ghost use Rattle.std.specs.Prelude.{◌≡◌, ℕ, ◌*◌, ◌<◌, ◌≤◌, ◌↔◌, length, All, IfOk, IsTrue};
ghost use Rattle.ring_law.specs.Refusals.{OnFault};
ghost use Rattle.jet_subst.specs.Parts.{IsPart};
ghost use Rattle.coord_change.specs.Changes.{entry_of};
ghost use Rattle.coord_change.specs.Inverses.{IsInverseMatrix};
ghost use Rattle.coord_change.specs.Linear.{linear_part_of};
ghost use Rattle.check_change.specs.Heights.{AreProductsHigh};

use coord_change::{linear_part, matrix_product, unit_matrix};
use jet_poly::JetOf;
use ring_law::{Fault, Ring};
use std::alloc::Global;

/// Whether two matrices with n rows have the same entries.
fn have_same_entries<R: Ring>(ring: &R, n: u8, a: &[R::Elem], b: &[R::Elem]) -> bool
    requires ring { R.is_ring ring.now }
    requires given { 0 < n }
    requires at_most_8_rows { n ≤ 8 }
    requires first { All (R.meaning ring.now).is_elem a.now }
    requires second { All (R.meaning ring.now).is_elem b.now }
    requires first_entries { length a.now ≡ n * n }
    requires second_entries { length b.now ≡ n * n }
    ensures { let m = R.meaning ring.now in IsTrue result ↔ ((i j : ℕ) → i < n → j < n → entry_of m n a.now i j ≡ entry_of m n b.now i j) }
{
    let size = usize::from(n);
    for place in 0..size * size {
        if !ring.eq(a[place], b[place]) {
            return false;
        }
    }
    true
}

/// Whether a matrix with n rows is the inverse, on both sides, of the linear part of n jets: row i
/// of the linear part holds the linear coefficients of jet i.
///
/// Errors: `Range` only where a product of two entries, or the sum of the products of a row and a
/// column, of one of the two products of the matrices has height 2^120 or more.
pub fn is_inverse_matrix<R: Ring>(
    alloc: Global,
    ring: &R,
    n: u8,
    parts: &[JetOf<R>],
    matrix: &[R::Elem],
) -> Result<bool, Fault>
    requires ring { R.is_ring ring.now }
    requires given { 0 < n }
    requires at_most_8_variables { n ≤ 8 }
    requires count { length parts.now ≡ n }
    requires parts { All (IsPart (R.meaning ring.now) n) parts.now }
    requires elems { All (R.meaning ring.now).is_elem matrix.now }
    requires entries { length matrix.now ≡ n * n }
    ensures inverse { IfOk result (λ b. let m = R.meaning ring.now in IsTrue b ↔ IsInverseMatrix m.scalars.ops n (linear_part_of m n parts.now) (entry_of m n matrix.now)) }
    ensures range { OnFault result (let m = R.meaning ring.now in AreProductsHigh m.scalars n (linear_part_of m n parts.now) (entry_of m n matrix.now)) }
{
    let linear = linear_part(alloc, ring, n, parts)?;
    let left = matrix_product(alloc, ring, n, matrix, &linear)?;
    let right = matrix_product(alloc, ring, n, &linear, matrix)?;
    let unit = unit_matrix(alloc, ring, n)?;
    if !have_same_entries(ring, n, &left, &unit) {
        return Ok(false);
    }
    Ok(have_same_entries(ring, n, &right, &unit))
}
