//! Kernels and ranks of rows.

ghost use Rattle.std.specs.Prelude.{IfOk, map};
ghost use Rattle.ring_theory.specs.Rational.{rational_ops};
ghost use Rattle.ring_law.specs.Fraction.{rational_meaning};
ghost use Rattle.ring_law.specs.Refusals.{OnFault};
ghost use Rattle.lin_row.specs.Lines.{AllBelow, EachOf, entry};
ghost use Rattle.lin_row.specs.Rows.{AreRows, rows_of};
ghost use Rattle.lin_row.specs.Systems.{SystemIsHigh};
ghost use Rattle.ternary_law.specs.Linear.{HasRank};
ghost use Rattle.tern_cubic.specs.Kernels.{IsKernel};

use lin_row::{Row, kernel, reduce};
use ring_law::{Fault, Frac};
use small_frac::Rationals;
use std::alloc::Global;

/// The vectors on which each row is 0: none but 0; the multiples of one; or more.
#[derive(Drop)]
pub enum Kernel {
    Zero,
    Line(Row<Frac>),
    Plane,
}

/// The kernel of rows with some columns.
///
/// Errors: `Range` only where the height of the plain row reduction is 2^120 or more.
pub fn kernel_of(alloc: Global, rows: &[Row<Frac>], columns: u32) -> Result<Kernel, Fault>
    requires rows { AreRows rational_meaning rows.now }
    requires columns { EachOf (AllBelow columns) (rows_of rows.now) }
    ensures kernel { IfOk result (IsKernel columns (map (entry rational_meaning) (rows_of rows.now))) }
    ensures range { OnFault result (SystemIsHigh rational_meaning rows.now) }
{
    let mut vectors = kernel(alloc, &Rationals, rows, columns)?;
    if vectors.len() == 0 {
        return Ok(Kernel::Zero);
    }
    if vectors.len() > 1 {
        return Ok(Kernel::Plane);
    }
    let vector = vectors.remove(0);
    Ok(Kernel::Line(vector))
}

/// The rank of rows with some columns.
///
/// Errors: `Range` only where the height of the plain row reduction is 2^120 or more.
pub fn rank_of(alloc: Global, rows: &[Row<Frac>], columns: u32) -> Result<usize, Fault>
    requires rows { AreRows rational_meaning rows.now }
    requires columns { EachOf (AllBelow columns) (rows_of rows.now) }
    ensures rank { IfOk result (HasRank rational_ops columns (map (entry rational_meaning) (rows_of rows.now))) }
    ensures range { OnFault result (SystemIsHigh rational_meaning rows.now) }
{
    let _ = columns;
    let form = reduce(alloc, &Rationals, rows)?;
    Ok(form.len())
}
