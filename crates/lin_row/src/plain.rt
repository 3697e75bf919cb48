//! The plain row reduction: the first row that begins in the lowest column is scaled and subtracted from all others, until no row begins below the unit columns.

ghost use Rattle.std.specs.Prelude.{◌≡◌, ◌≢◌, ℕ, ◌<◌, ◌≤◌, IfOk, OnOk, length, map};
ghost use Rattle.ring_law.specs.Refusals.{OnFault};
ghost use Rattle.lin_row.specs.Lines.{IsLine, EachOf};
ghost use Rattle.lin_row.specs.Rows.{AreRows, rows_of};
ghost use Rattle.lin_row.specs.System.{IsSystem, RowsVanish, against, lines_of};
ghost use Rattle.lin_row.specs.Plain.{ReductionIsHigh, with_units};
ghost use Rattle.lin_row.specs.Stages.{items_of, IsLeast, IsStep, StepIsRefused, IsStart, IsEnd};

use crate::line::{Line, extended, lead, lead_inverse, scaled};
use crate::row::Row;
use crate::stage::{all_cleared, next_row, pivots_cleared};
use ring_law::{Fault, Field};
use std::alloc::Global;

/// The rows with a pivot, each with its column, and the others.
#[derive(Drop)]
struct Stage<E: Drop> {
    done: Vec<(u64, Line<E>)>,
    rest: Vec<Line<E>>,
}

/// The rows with a unit column of their own.
fn start<F: Field>(
    alloc: Global,
    field: &F,
    rows: &[Row<F::Elem>],
) -> Result<Vec<Line<F::Elem>>, Fault>
    requires ring { F.is_ring field.now }
    requires rows { AreRows (F.meaning field.now) rows.now }
    requires few { length rows.now ≤ 4294967296 }
    ensures start { IfOk result (λ v. IsStart (F.meaning field.now) 4294967296 (rows_of rows.now) (rows_of rows.now) (items_of v.items)) }
    ensures cause { OnFault result ⊥ }
{
    let mut all = Vec::new(alloc);
    for i in 0..rows.len() {
        let row = extended(alloc, field, &rows[i], i as u64)?;
        all.push(row)?;
    }
    Ok(all)
}

/// The next stage: the row with this number is scaled to 1 at its first column and subtracted from all others.
fn step<F: Field>(
    alloc: Global,
    field: &F,
    done: &[(u64, Line<F::Elem>)],
    rest: Vec<Line<F::Elem>>,
    at: usize,
) -> Result<Stage<F::Elem>, Fault>
    requires ring { F.is_ring field.now }
    requires done { EachOf (λ p. IsLine (F.meaning field.now) p.1) (lines_of done.now) }
    requires rest { EachOf (IsLine (F.meaning field.now)) (items_of rest.items) }
    requires least { IsLeast 4294967296 (items_of rest.items) at }
    ensures step { IfOk result (λ v. IsStep (F.meaning field.now) (lines_of done.now) (items_of rest.items) at (lines_of v.done.items) (items_of v.rest.items)) }
    ensures cause { OnFault result (StepIsRefused (F.meaning field.now) (lines_of done.now) (items_of rest.items) at) }
{
    let mut others = rest;
    let row = others.remove(at);
    let column = lead(&row);
    let inverse = lead_inverse(field, &row)?;
    let pivot = scaled(alloc, field, inverse, &row)?;
    let mut done_next = pivots_cleared(alloc, field, done, &pivot, column)?;
    let rest_next = all_cleared(alloc, field, &others, &pivot, column)?;
    done_next.push((column, pivot))?;
    Ok(Stage {
        done: done_next,
        rest: rest_next,
    })
}

/// The pivots of the rows, by the plain row reduction.
pub fn reduce_plainly<F: Field>(
    alloc: Global,
    field: &F,
    rows: &[Row<F::Elem>],
) -> Result<Vec<(u64, Line<F::Elem>)>, Fault>
    requires ring { F.is_ring field.now }
    requires rows { AreRows (F.meaning field.now) rows.now }
    requires few { length rows.now ≤ 4294967296 }
    ensures system { IfOk result (λ v. IsSystem (F.meaning field.now) 4294967296 (rows_of rows.now) (rows_of rows.now) (lines_of v.items)) }
    ensures end { IfOk result (λ v. let r = F.meaning field.now in IsEnd r 4294967296 (with_units r 4294967296 0 (rows_of rows.now)) (lines_of v.items)) }
    ensures cause { OnFault result (let r = F.meaning field.now in ReductionIsHigh r.scalars 4294967296 (with_units r 4294967296 0 (rows_of rows.now))) }
{
    let mut done = Vec::new(alloc);
    let mut rest = start(alloc, field, rows)?;
    while let Some(at) = next_row(&rest) {
        let next = step(alloc, field, &done, rest, at)?;
        let Stage {
            done: done_next,
            rest: rest_next,
        } = next;
        done = done_next;
        rest = rest_next;
    }
    Ok(done)
}
