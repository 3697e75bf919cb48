//! Pivots made one row at a time, from the last row to the first, and what is left of a row by them.

ghost use Rattle.std.specs.Prelude.{◌≡◌, ◌≢◌, ℕ, ◌+◌, ◌<◌, ◌≤◌, IfOk, OnOk, length, take, drop, List};
ghost use Rattle.ring_law.specs.Refusals.{OnFault};
ghost use Rattle.lin_row.specs.Lines.{IsLine, AllBelow, StartsFrom, lead_of, dot, entry, SumIsRefused};
ghost use Rattle.lin_row.specs.Rows.{AreRows, rows_of};
ghost use Rattle.lin_row.specs.System.{IsSystem, IsClearing, IsAbsent, IsPivot, AreEchelon, AreTriangular, AreReduced, IsCleared, AllVanish, lines_of};
ghost use Rattle.lin_row.specs.Plain.{ClearingIsHigh, reduced_target};
ghost use Rattle.lin_row.specs.Stages.{functions_of};

use crate::line::{Line, UNITS, add_multiple, entry_at, extended, lead, scaled};
use crate::row::Row;
use ring_law::{Fault, Field, Ring};
use std::alloc::Global;

/// The row less the multiple of the pivot's row by the row's entry at the column.
pub fn clear_entry<R: Ring>(
    alloc: Global,
    ring: &R,
    row: Line<R::Elem>,
    column: u64,
    pivot: &[(u64, R::Elem)],
) -> Result<Line<R::Elem>, Fault>
    requires ring { R.is_ring ring.now }
    requires line { IsLine (R.meaning ring.now) row.items }
    requires pivot { IsLine (R.meaning ring.now) pivot.now }
    ensures cleared { IfOk result (λ v. IsClearing (R.meaning ring.now) column pivot.now row.items v.items) }
    ensures cause { OnFault result (let r = R.meaning ring.now in SumIsRefused r.scalars (entry r row.items) (r.scalars.ops.neg (entry r row.items column)) (entry r pivot.now)) }
{
    match entry_at(&row, column) {
        Some(x) => add_multiple(alloc, ring, &row, ring.neg(x), pivot),
        None => Ok(row),
    }
}

/// The row less multiples of the pivots' rows, with entry 0 at each pivot.
pub fn remainder<R: Ring>(
    alloc: Global,
    ring: &R,
    pivots: &[(u64, Line<R::Elem>)],
    row: Line<R::Elem>,
) -> Result<Line<R::Elem>, Fault>
    requires ring { R.is_ring ring.now }
    requires pivots { AreTriangular (R.meaning ring.now) (lines_of pivots.now) }
    requires line { IsLine (R.meaning ring.now) row.items }
    ensures line { IfOk result (λ v. IsLine (R.meaning ring.now) v.items) }
    ensures cleared { IfOk result (λ v. IsCleared (R.meaning ring.now) (lines_of pivots.now) v.items) }
    ensures same { IfOk result (λ v.
        let r = R.meaning ring.now in
        (w : ℕ → R.Value ring.now) → AllVanish r (lines_of pivots.now) w → dot r v.items w ≡ dot r row.items w) }
    ensures entries { IfOk result (λ v.
        let r = R.meaning ring.now in entry r v.items ≡ reduced_target r.scalars (functions_of r (lines_of pivots.now)) (entry r row.items)) }
    ensures cause { OnFault result (let r = R.meaning ring.now in ClearingIsHigh r.scalars (functions_of r (lines_of pivots.now)) (entry r row.items)) }
{
    let mut left = row;
    for p in pivots {
        left = clear_entry(alloc, ring, left, p.0, &p.1)?;
    }
    Ok(left)
}

/// The row, cleared where it begins at the pivot.
fn clear_lead<R: Ring>(
    alloc: Global,
    ring: &R,
    row: Line<R::Elem>,
    column: u64,
    pivot: &[(u64, R::Elem)],
) -> Result<Line<R::Elem>, Fault>
    requires ring { R.is_ring ring.now }
    requires line { IsLine (R.meaning ring.now) row.items }
    requires pivot { IsPivot (R.meaning ring.now) column pivot.now }
    requires given { column < 4294967296 }
    ensures line { IfOk result (λ v. IsLine (R.meaning ring.now) v.items) }
    ensures same { IfOk result (λ v.
        let r = R.meaning ring.now in
        (w : ℕ → R.Value ring.now) → dot r pivot.now w ≡ r.scalars.ops.zero → dot r v.items w ≡ dot r row.items w) }
    ensures lead { IfOk result (λ v. column ≢ lead_of v.items) }
    ensures earlier { IfOk result (λ v. (d : ℕ) → d < column → d ≢ lead_of row.items → d ≢ lead_of v.items) }
{
    if lead(&row) == column {
        return clear_entry(alloc, ring, row, column, pivot);
    }
    Ok(row)
}

/// The row less multiples of the pivots' rows, which begins at none of the pivots.
fn led<R: Ring>(
    alloc: Global,
    ring: &R,
    pivots: &[(u64, Line<R::Elem>)],
    row: Line<R::Elem>,
) -> Result<Line<R::Elem>, Fault>
    requires ring { R.is_ring ring.now }
    requires pivots { AreEchelon (R.meaning ring.now) (lines_of pivots.now) }
    requires below { AllBelow 4294967296 (lines_of pivots.now) }
    requires line { IsLine (R.meaning ring.now) row.items }
    ensures line { IfOk result (λ v. IsLine (R.meaning ring.now) v.items) }
    ensures absent { IfOk result (λ v. IsAbsent (lead_of v.items) (lines_of pivots.now)) }
    ensures same { IfOk result (λ v.
        let r = R.meaning ring.now in
        (w : ℕ → R.Value ring.now) → AllVanish r (lines_of pivots.now) w → dot r v.items w ≡ dot r row.items w) }
{
    let mut left = row;
    for p in pivots {
        left = clear_lead(alloc, ring, left, p.0, &p.1)?;
    }
    Ok(left)
}

/// How many pivots stand before a column.
pub fn place<E: Copy>(pivots: &[(u64, Line<E>)], column: u64) -> usize
    ensures within { result ≤ length pivots.now }
    ensures before { AllBelow column (lines_of (take result pivots.now)) }
    ensures next { StartsFrom column (lines_of (drop result pivots.now)) }
{
    for i in 0..pivots.len() {
        if pivots[i].0 >= column {
            return i;
        }
    }
    pivots.len()
}

/// Puts a row among the pivots, scaled to entry 1 at its first column, unless it has no entry below the unit columns.
fn add_pivot<F: Field>(
    alloc: Global,
    field: &F,
    pivots: &mut Vec<(u64, Line<F::Elem>)>,
    row: &[(u64, F::Elem)],
) -> Result<(), Fault>
    requires ring { F.is_ring field.now }
    requires line { IsLine (F.meaning field.now) row.now }
    requires pivots { AreEchelon (F.meaning field.now) (lines_of pivots.old.items) }
    requires below { AllBelow 4294967296 (lines_of pivots.old.items) }
    requires absent { IsAbsent (lead_of row.now) (lines_of pivots.old.items) }
    ensures pivots { OnOk result (AreEchelon (F.meaning field.now) (lines_of pivots.new.items)) }
    ensures below { OnOk result (AllBelow 4294967296 (lines_of pivots.new.items)) }
    ensures vanish { OnOk result ((w : ℕ → F.Value field.now) → AllVanish (F.meaning field.now) (lines_of pivots.old.items) w → dot (F.meaning field.now) row.now w ≡ (F.meaning field.now).scalars.ops.zero → AllVanish (F.meaning field.now) (lines_of pivots.new.items) w) }
    ensures keeps { OnOk result ((w : ℕ → F.Value field.now) → AllVanish (F.meaning field.now) (lines_of pivots.new.items) w → AllVanish (F.meaning field.now) (lines_of pivots.old.items) w) }
    ensures covers { OnOk result ((w : ℕ → F.Value field.now) → ((d : ℕ) → 4294967296 ≤ d → w d ≡ (F.meaning field.now).scalars.ops.zero) → AllVanish (F.meaning field.now) (lines_of pivots.new.items) w → dot (F.meaning field.now) row.now w ≡ (F.meaning field.now).scalars.ops.zero) }
{
    if row.len() == 0 {
        return Ok(());
    }
    let first = row[0];
    if first.0 >= UNITS {
        return Ok(());
    }
    match field.inv(first.1)? {
        Some(inverse) => {
            let pivot = scaled(alloc, field, inverse, row)?;
            let at = place(pivots, first.0);
            pivots.insert(at, (first.0, pivot))?;
            Ok(())
        }
        None => Ok(()),
    }
}

/// The pivots of the rows, made from the last row to the first.
pub fn build<F: Field>(
    alloc: Global,
    field: &F,
    rows: &[Row<F::Elem>],
) -> Result<Vec<(u64, Line<F::Elem>)>, Fault>
    requires ring { F.is_ring field.now }
    requires rows { AreRows (F.meaning field.now) rows.now }
    requires few { length rows.now ≤ 4294967296 }
    ensures { IfOk result (λ v. IsSystem (F.meaning field.now) 4294967296 (rows_of rows.now) (rows_of rows.now) (lines_of v.items)) }
{
    let mut pivots = Vec::new(alloc);
    let mut k = rows.len();
    while k > 0 {
        k -= 1;
        let row = extended(alloc, field, &rows[k], k as u64)?;
        let left = led(alloc, field, &pivots, row)?;
        add_pivot(alloc, field, &mut pivots, &left)?;
    }
    Ok(pivots)
}
