//! The reduced echelon form of rows, and a basis of their kernel.

ghost use Rattle.std.specs.Prelude.{◌≡◌, ◌≢◌, ℕ, ◌<◌, ◌≤◌, IfOk, OnOk, suc, length, map, List};
ghost use Rattle.std.specs.Bool.{OnTrue, OnFalse};
ghost use Rattle.ring_law.specs.Refusals.{OnFault};
ghost use Rattle.lin_row.specs.Lines.{AllBelow, EachOf, given_part};
ghost use Rattle.lin_row.specs.Rows.{AreRows, rows_of};
ghost use Rattle.lin_row.specs.System.{IsSystem, AreEchelon, AreReduced, AllVanish, IsAbsent, lines_of};
ghost use Rattle.lin_row.specs.Forms.{IsReducedForm, IsKernelBasis, AreKernelParts};
ghost use Rattle.lin_row.specs.Plain.{with_units};
ghost use Rattle.lin_row.specs.Stages.{IsEnd};
ghost use Rattle.lin_row.specs.Systems.{SystemIsHigh};

use crate::echelon::{place, remainder};
use crate::excluded::kernel_vector;
use crate::line::{Line, UNITS};
use crate::row::Row;
use crate::systems::{Way, pivots_by};
use ring_law::{Fault, Field, Ring};
use sqlite_items::Items;
use std::alloc::Global;

/// The pivots' rows, cleared at all later pivots.
fn cleared_upwards<R: Ring>(
    alloc: Global,
    ring: &R,
    pivots: &[(u64, Line<R::Elem>)],
) -> Result<Vec<(u64, Line<R::Elem>)>, Fault>
    requires ring { R.is_ring ring.now }
    requires pivots { AreEchelon (R.meaning ring.now) (lines_of pivots.now) }
    ensures echelon { IfOk result (λ v. AreEchelon (R.meaning ring.now) (lines_of v.items)) }
    ensures reduced { IfOk result (λ v. AreReduced (R.meaning ring.now) (lines_of v.items)) }
    ensures below { IfOk result (λ v. (u : ℕ) → AllBelow u (lines_of pivots.now) → AllBelow u (lines_of v.items)) }
    ensures down { IfOk result (λ v. (w : ℕ → R.Value ring.now) → AllVanish (R.meaning ring.now) (lines_of pivots.now) w → AllVanish (R.meaning ring.now) (lines_of v.items) w) }
    ensures up { IfOk result (λ v. (w : ℕ → R.Value ring.now) → AllVanish (R.meaning ring.now) (lines_of v.items) w → AllVanish (R.meaning ring.now) (lines_of pivots.now) w) }
{
    let mut done = Vec::new(alloc);
    let mut k = pivots.len();
    while k > 0 {
        k -= 1;
        let p = &pivots[k];
        let row = Vec::from_slice(alloc, &p.1)?;
        let left = remainder(alloc, ring, &done, row)?;
        done.insert(0, (p.0, left))?;
    }
    Ok(done)
}

/// The reduced pivots of the rows.
pub fn reduced_by<F: Field>(
    alloc: Global,
    field: &F,
    rows: &[Row<F::Elem>],
    way: Way,
) -> Result<Vec<(u64, Line<F::Elem>)>, Fault>
    requires ring { F.is_ring field.now }
    requires rows { AreRows (F.meaning field.now) rows.now }
    ensures system { IfOk result (λ v. IsSystem (F.meaning field.now) 4294967296 (rows_of rows.now) (rows_of rows.now) (lines_of v.items)) }
    ensures reduced { IfOk result (λ v. AreReduced (F.meaning field.now) (lines_of v.items)) }
    ensures few { OnOk result (length rows.now ≤ 4294967296) }
    ensures end { IfOk result (λ v. let r = F.meaning field.now in way ≡ Way.Plain → IsEnd r 4294967296 (with_units r 4294967296 0 (rows_of rows.now)) (lines_of v.items)) }
    ensures cause { way ≡ Way.Plain → OnFault result (SystemIsHigh (F.meaning field.now) rows.now) }
{
    if rows.len() as u64 > UNITS {
        return Err(Fault::NoMemory);
    }
    let pivots = pivots_by(alloc, field, rows, way)?;
    match way {
        Way::Quick => cleared_upwards(alloc, field, &pivots),
        Way::Plain => Ok(pivots),
    }
}

/// The entries before the unit columns.
pub fn given_entries<E: Copy>(alloc: Global, line: &[(u64, E)]) -> Result<Vec<(u32, E)>, Fault>
    ensures items { IfOk result (λ v. v.items ≡ given_part 4294967296 line.now) }
    ensures cause { OnFault result ⊥ }
{
    let mut all = Vec::new(alloc);
    for t in line {
        if t.0 >= UNITS {
            return Ok(all);
        }
        all.push((t.0 as u32, t.1))?;
    }
    Ok(all)
}

/// The pivots' rows without their unit columns.
pub fn given_rows<E: Copy>(alloc: Global, pivots: &[(u64, Line<E>)]) -> Result<Vec<Row<E>>, Fault>
    ensures rows { IfOk result (λ v. rows_of v.items ≡ map (λ p. given_part 4294967296 p.1) (lines_of pivots.now)) }
    ensures cause { OnFault result ⊥ }
{
    let mut all = Vec::new(alloc);
    for p in pivots {
        let entries = given_entries(alloc, &p.1)?;
        all.push(Row {
            entries: Items::from_vec(entries),
        })?;
    }
    Ok(all)
}

fn reduce_by<F: Field>(
    alloc: Global,
    field: &F,
    rows: &[Row<F::Elem>],
    way: Way,
) -> Result<Vec<Row<F::Elem>>, Fault>
    requires ring { F.is_ring field.now }
    requires rows { AreRows (F.meaning field.now) rows.now }
    ensures form { IfOk result (λ v. IsReducedForm (F.meaning field.now) (rows_of rows.now) (rows_of v.items)) }
    ensures cause { way ≡ Way.Plain → OnFault result (SystemIsHigh (F.meaning field.now) rows.now) }
{
    let pivots = reduced_by(alloc, field, rows, way)?;
    let form = given_rows(alloc, &pivots)?;
    Ok(form)
}

/// The reduced row echelon form of the rows: each row begins with 1 in its pivot's column, the pivots rise, and the other rows have 0 there.
///
/// Errors: `Range` only where the height of the plain row reduction is 2^120 or more.
/// Source: Cohen, A Course in Computational Algebraic Number Theory, chapter 2.
pub fn reduce<F: Field>(
    alloc: Global,
    field: &F,
    rows: &[Row<F::Elem>],
) -> Result<Vec<Row<F::Elem>>, Fault>
    requires ring { F.is_ring field.now }
    requires rows { AreRows (F.meaning field.now) rows.now }
    ensures form { IfOk result (λ v. IsReducedForm (F.meaning field.now) (rows_of rows.now) (rows_of v.items)) }
    ensures range { OnFault result (SystemIsHigh (F.meaning field.now) rows.now) }
{
    match reduce_by(alloc, field, rows, Way::Quick) {
        Ok(form) => Ok(form),
        Err(Fault::NoMemory) => Err(Fault::NoMemory),
        Err(Fault::Range(_)) => reduce_by(alloc, field, rows, Way::Plain),
    }
}

/// True where a row has its pivot in the column.
fn is_pivot<E: Copy>(pivots: &[(u64, Line<E>)], column: u64) -> bool
    ensures pivot { OnTrue result (IsAbsent column (lines_of pivots.now) → ⊥) }
    ensures free { OnFalse result (IsAbsent column (lines_of pivots.now)) }
{
    for p in pivots {
        if p.0 == column {
            return true;
        }
    }
    false
}

/// Puts the kernel's vector of a column behind the others, unless the column has a pivot.
fn add_vector<R: Ring>(
    alloc: Global,
    ring: &R,
    pivots: &[(u64, Line<R::Elem>)],
    vectors: &mut Vec<(u64, Line<R::Elem>)>,
    column: u64,
) -> Result<(), Fault>
    requires ring { R.is_ring ring.now }
    requires pivots { AreEchelon (R.meaning ring.now) (lines_of pivots.now) }
    requires reduced { AreReduced (R.meaning ring.now) (lines_of pivots.now) }
    requires parts { AreKernelParts (R.meaning ring.now) (lines_of pivots.now) column (lines_of vectors.old.items) }
    ensures parts { OnOk result (AreKernelParts (R.meaning ring.now) (lines_of pivots.now) (suc column) (lines_of vectors.new.items)) }
    ensures cause { OnFault result ⊥ }
{
    if is_pivot(pivots, column) {
        return Ok(());
    }
    let vector = kernel_vector(alloc, ring, pivots, column)?;
    vectors.push((column, vector))?;
    Ok(())
}

/// The kernel's vectors of the columns without pivot below a number of columns.
fn vectors<R: Ring>(
    alloc: Global,
    ring: &R,
    pivots: &[(u64, Line<R::Elem>)],
    columns: u32,
) -> Result<Vec<(u64, Line<R::Elem>)>, Fault>
    requires ring { R.is_ring ring.now }
    requires pivots { AreEchelon (R.meaning ring.now) (lines_of pivots.now) }
    requires reduced { AreReduced (R.meaning ring.now) (lines_of pivots.now) }
    ensures parts { IfOk result (λ v. AreKernelParts (R.meaning ring.now) (lines_of pivots.now) columns (lines_of v.items)) }
    ensures cause { OnFault result ⊥ }
{
    let mut all = Vec::new(alloc);
    for c in 0..columns {
        add_vector(alloc, ring, pivots, &mut all, u64::from(c))?;
    }
    Ok(all)
}

fn kernel_by<F: Field>(
    alloc: Global,
    field: &F,
    rows: &[Row<F::Elem>],
    columns: u32,
    way: Way,
) -> Result<Vec<Row<F::Elem>>, Fault>
    requires ring { F.is_ring field.now }
    requires rows { AreRows (F.meaning field.now) rows.now }
    requires columns { EachOf (AllBelow columns) (rows_of rows.now) }
    ensures basis { IfOk result (λ v. IsKernelBasis (F.meaning field.now) (rows_of rows.now) columns (rows_of v.items)) }
    ensures cause { way ≡ Way.Plain → OnFault result (SystemIsHigh (F.meaning field.now) rows.now) }
{
    let pivots = reduced_by(alloc, field, rows, way)?;
    let all = vectors(alloc, field, &pivots, columns)?;
    let basis = given_rows(alloc, &all)?;
    Ok(basis)
}

/// A basis of the vectors on which every row is 0, one for each column without pivot, in order, with 1 there and 0 at the other columns without pivot.
///
/// Shapes: the columns of the rows and of the vectors are below `columns`.
/// Errors: `Range` only where the height of the plain row reduction is 2^120 or more.
/// Source: Cohen, A Course in Computational Algebraic Number Theory, chapter 2.
pub fn kernel<F: Field>(
    alloc: Global,
    field: &F,
    rows: &[Row<F::Elem>],
    columns: u32,
) -> Result<Vec<Row<F::Elem>>, Fault>
    requires ring { F.is_ring field.now }
    requires rows { AreRows (F.meaning field.now) rows.now }
    requires columns { EachOf (AllBelow columns) (rows_of rows.now) }
    ensures basis { IfOk result (λ v. IsKernelBasis (F.meaning field.now) (rows_of rows.now) columns (rows_of v.items)) }
    ensures range { OnFault result (SystemIsHigh (F.meaning field.now) rows.now) }
{
    match kernel_by(alloc, field, rows, columns, Way::Quick) {
        Ok(basis) => Ok(basis),
        Err(Fault::NoMemory) => Err(Fault::NoMemory),
        Err(Fault::Range(_)) => kernel_by(alloc, field, rows, columns, Way::Plain),
    }
}
