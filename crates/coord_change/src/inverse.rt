//! The inverse of a matrix over a field.

ghost use Rattle.std.specs.Prelude.{◌≡◌, ◌*◌, ◌<◌, ◌≤◌, length, IfOk, All};
ghost use Rattle.ring_law.specs.Refusals.{OnFault};
ghost use Rattle.coord_change.specs.Changes.{entry_of};
ghost use Rattle.coord_change.specs.Inverses.{HasNoKernel, InverseIsHigh};
ghost use Rattle.coord_change.specs.Inversions.{IsInverseOf, IsInversion};

use crate::rows::{extended_rows, matrix_rows, negated_columns, vector_of};
use lin_row::kernel;
use ring_law::{Fault, Field};
use std::alloc::Global;

/// What there is to say of a square matrix.
#[derive(Drop)]
pub enum Inversion<E: Drop> {
    /// Its inverse, row after row.
    Inverse(Vec<E>),
    /// A vector other than zero that it takes to zero.
    Kernel(Vec<E>),
}

/// The inverse of a matrix with n rows that takes no vector but zero to zero.
///
/// It stands in the kernel of the rows that are extended by the identity matrix: where such a
/// vector ends with column j of the identity, it begins with the negative of column j of the inverse.
fn inverse_of<F: Field>(
    alloc: Global,
    field: &F,
    n: u8,
    matrix: &[F::Elem],
) -> Result<Vec<F::Elem>, Fault>
    requires ring { F.is_ring field.now }
    requires given { 0 < n }
    requires at_most_8_rows { n ≤ 8 }
    requires elems { All (F.meaning field.now).is_elem matrix.now }
    requires entries { length matrix.now ≡ n * n }
    requires regular { let m = F.meaning field.now in HasNoKernel m.scalars.ops n (entry_of m n matrix.now) }
    ensures inverse { IfOk result (λ v. let m = F.meaning field.now in IsInverseOf m n (entry_of m n matrix.now) v.items) }
    ensures range { OnFault result (let m = F.meaning field.now in InverseIsHigh m.scalars n (entry_of m n matrix.now)) }
{
    let rows = extended_rows(alloc, field, n, matrix)?;
    let vectors = kernel(alloc, field, &rows, u32::from(n + n))?;
    negated_columns(alloc, field, n, &vectors)
}

/// The inverse of a matrix with n rows, or a vector other than zero that it takes to zero.
///
/// Errors: `Range` only where the height of the plain row reduction of the matrix is 2^120 or more.
pub fn invert<F: Field>(
    alloc: Global,
    field: &F,
    n: u8,
    matrix: &[F::Elem],
) -> Result<Inversion<F::Elem>, Fault>
    requires ring { F.is_ring field.now }
    requires given { 0 < n }
    requires at_most_8_rows { n ≤ 8 }
    requires elems { All (F.meaning field.now).is_elem matrix.now }
    requires entries { length matrix.now ≡ n * n }
    ensures inversion { IfOk result (let m = F.meaning field.now in IsInversion m n (entry_of m n matrix.now)) }
    ensures range { OnFault result (let m = F.meaning field.now in InverseIsHigh m.scalars n (entry_of m n matrix.now)) }
{
    let rows = matrix_rows(alloc, field, n, matrix)?;
    let vectors = kernel(alloc, field, &rows, u32::from(n))?;
    if vectors.is_empty() {
        let inverse = inverse_of(alloc, field, n, matrix)?;
        return Ok(Inversion::Inverse(inverse));
    }
    let vector = vector_of(alloc, field, n, &vectors[0])?;
    Ok(Inversion::Kernel(vector))
}
