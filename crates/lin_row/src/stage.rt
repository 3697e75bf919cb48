//! One step of the plain row reduction: a pivot, cleared in all other rows.

ghost use Rattle.std.specs.Prelude.{◌≡◌, ◌≢◌, ℕ, ◌<◌, ◌≤◌, ◌^◌, ◌⊎◌, IfOk, OnOk, IfSome, MatchOption, length, take, get_or, map, List, []};
ghost use Rattle.ring_law.specs.Refusals.{OnFault};
ghost use Rattle.lin_row.specs.Lines.{IsLine, EachOf, lead_of, entry, SumIsRefused};
ghost use Rattle.lin_row.specs.System.{lines_of};
ghost use Rattle.lin_row.specs.Plain.{Among};
ghost use Rattle.lin_row.specs.Stages.{items_of, functions_of, AreCleared, ArePivotsCleared, IsLeast};

use crate::echelon::clear_entry;
use crate::line::{Line, UNITS, lead};
use ring_law::{Fault, Ring};
use std::alloc::Global;

/// The rows less the multiples of the pivot's row by their entries at the column.
pub fn all_cleared<R: Ring>(
    alloc: Global,
    ring: &R,
    rows: &[Line<R::Elem>],
    pivot: &[(u64, R::Elem)],
    column: u64,
) -> Result<Vec<Line<R::Elem>>, Fault>
    requires ring { R.is_ring ring.now }
    requires rows { EachOf (IsLine (R.meaning ring.now)) (items_of rows.now) }
    requires pivot { IsLine (R.meaning ring.now) pivot.now }
    ensures cleared { IfOk result (λ v. AreCleared (R.meaning ring.now) column pivot.now (items_of rows.now) (items_of v.items)) }
    ensures cause { OnFault result (let r = R.meaning ring.now in Among (λ x. SumIsRefused r.scalars x (r.scalars.ops.neg (x column)) (entry r pivot.now)) (map (entry r) (items_of rows.now))) }
{
    let mut all = Vec::new(alloc);
    for row in rows {
        let copy = Vec::from_slice(alloc, row)?;
        let next = clear_entry(alloc, ring, copy, column, pivot)?;
        all.push(next)?;
    }
    Ok(all)
}

/// The same of rows with pivots, which stay.
pub fn pivots_cleared<R: Ring>(
    alloc: Global,
    ring: &R,
    rows: &[(u64, Line<R::Elem>)],
    pivot: &[(u64, R::Elem)],
    column: u64,
) -> Result<Vec<(u64, Line<R::Elem>)>, Fault>
    requires ring { R.is_ring ring.now }
    requires rows { EachOf (λ p. IsLine (R.meaning ring.now) p.1) (lines_of rows.now) }
    requires pivot { IsLine (R.meaning ring.now) pivot.now }
    ensures cleared { IfOk result (λ v. ArePivotsCleared (R.meaning ring.now) column pivot.now (lines_of rows.now) (lines_of v.items)) }
    ensures cause { OnFault result (let r = R.meaning ring.now in Among (λ x. SumIsRefused r.scalars x.1 (r.scalars.ops.neg (x.1 column)) (entry r pivot.now)) (functions_of r (lines_of rows.now))) }
{
    let mut all = Vec::new(alloc);
    for row in rows {
        let copy = Vec::from_slice(alloc, &row.1)?;
        let next = clear_entry(alloc, ring, copy, column, pivot)?;
        all.push((row.0, next))?;
    }
    Ok(all)
}

/// The lowest column in which a row begins, and `UNITS` where none begins below that.
fn least_lead<E: Copy>(rows: &[Line<E>]) -> u64
    ensures bound { result ≤ 4294967296 }
    ensures least { EachOf (λ r. result ≤ lead_of r) (items_of rows.now) }
    ensures some { EachOf (λ r. lead_of r ≢ result) (items_of rows.now) → result ≡ 4294967296 }
{
    let mut least = UNITS;
    for row in rows {
        let first = lead(row);
        least = least.min(first);
    }
    least
}

/// The first row that begins in a column.
fn first_with<E: Copy>(rows: &[Line<E>], column: u64) -> Option<usize>
    ensures none { MatchOption result (EachOf (λ r. lead_of r ≢ column) (items_of rows.now)) (λ i. i < length rows.now) }
    ensures found { IfSome result (λ i. lead_of (get_or (items_of rows.now) i []) ≡ column) }
    ensures first { IfSome result (λ i. EachOf (λ r. lead_of r ≢ column) (take i (items_of rows.now))) }
{
    for i in 0..rows.len() {
        if lead(&rows[i]) == column {
            return Some(i);
        }
    }
    None
}

/// The first row that begins in the lowest column in which a row begins, below the unit columns.
pub fn next_row<E: Copy>(rows: &[Line<E>]) -> Option<usize>
    ensures { MatchOption result (EachOf (λ r. 4294967296 ≤ lead_of r) (items_of rows.now)) (IsLeast 4294967296 (items_of rows.now)) }
{
    let least = least_lead(rows);
    if least >= UNITS {
        return None;
    }
    first_with(rows, least)
}
