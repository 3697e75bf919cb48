//! What is left of targets by the reduced echelon form of rows.

ghost use Rattle.std.specs.Prelude.{◌≡◌, ◌≢◌, ℕ, ◌<◌, ◌≤◌, ◌+◌, ◌-◌, ◌⊎◌, IfOk, OnOk, MatchOption, length, cond, nat_lt};
ghost use Rattle.ring_law.specs.Refusals.{OnFault};
ghost use Rattle.lin_row.specs.Lines.{IsLine, AllBelow, dot, entry};
ghost use Rattle.lin_row.specs.Rows.{AreRows, rows_of};
ghost use Rattle.lin_row.specs.System.{IsSystem, AreReduced, lines_of};
ghost use Rattle.lin_row.specs.Plain.{ClearingIsHigh};
ghost use Rattle.lin_row.specs.Stages.{functions_of};
ghost use Rattle.lin_row.specs.Reductions.{IsLeft, IsReduction, RemaindersAreHigh, after_units};

use crate::echelon::remainder;
use crate::forms::{given_entries, given_rows, reduced_by};
use crate::line::{Line, UNITS, line_of};
use crate::row::{Reduction, Remainder, Row};
use crate::systems::Way;
use ring_law::{Fault, Field, Ring};
use sqlite_items::Items;
use std::alloc::Global;

/// The number of the row with this unit column, where it is one of the first `count` rows.
fn row_number(column: u64, count: usize) -> Option<u32>
    requires few { count ≤ 4294967296 }
    ensures { MatchOption result ((column < 4294967296) ⊎ (4294967296 + count ≤ column)) (λ j. (column ≡ 4294967296 + j) × (j < count)) }
{
    if column < UNITS {
        return None;
    }
    let number = column - UNITS;
    if number < count as u64 {
        return Some(number as u32);
    }
    None
}

/// The negatives of the entries in the first `count` unit columns that are not zero, by their numbers.
fn unit_coefficients<R: Ring>(
    alloc: Global,
    ring: &R,
    left: &[(u64, R::Elem)],
    count: usize,
) -> Result<Vec<(u32, R::Elem)>, Fault>
    requires ring { R.is_ring ring.now }
    requires line { IsLine (R.meaning ring.now) left.now }
    requires few { count ≤ 4294967296 }
    ensures line { IfOk result (λ v. IsLine (R.meaning ring.now) v.items) }
    ensures within { IfOk result (λ v. AllBelow count v.items) }
    ensures value { IfOk result (λ v. let r = R.meaning ring.now in (w : ℕ → R.Value ring.now) → ((j : ℕ) → count ≤ j → w j ≡ r.scalars.ops.zero)
        → dot r v.items w ≡ r.scalars.ops.neg (dot r left.now (after_units r.scalars.ops 4294967296 w))) }
    ensures cause { OnFault result ⊥ }
{
    let mut all = Vec::new(alloc);
    for t in left {
        let Some(number) = row_number(t.0, count) else {
            continue;
        };
        let x = ring.neg(t.1);
        all.push((number, x))?;
    }
    Ok(all)
}

/// What is left of a target by reduced rows.
fn left_of<F: Field>(
    alloc: Global,
    field: &F,
    rows: &[Row<F::Elem>],
    pivots: &[(u64, Line<F::Elem>)],
    target: &Row<F::Elem>,
) -> Result<Remainder<F::Elem>, Fault>
    requires ring { F.is_ring field.now }
    requires few { length rows.now ≤ 4294967296 }
    requires system { IsSystem (F.meaning field.now) 4294967296 (rows_of rows.now) (rows_of rows.now) (lines_of pivots.now) }
    requires target { IsLine (F.meaning field.now) target.now.entries }
    ensures left { IfOk result (IsLeft (F.meaning field.now) (rows_of rows.now) (lines_of pivots.now) target.now.entries) }
    ensures cause { OnFault result (let r = F.meaning field.now in ClearingIsHigh r.scalars (functions_of r (lines_of pivots.now)) (entry r target.now.entries)) }
{
    let line = line_of(alloc, target)?;
    let left = remainder(alloc, field, pivots, line)?;
    let entries = given_entries(alloc, &left)?;
    let coefficients = unit_coefficients(alloc, field, &left, rows.len())?;
    Ok(Remainder {
        left: Items::from_vec(entries),
        coefficients: Items::from_vec(coefficients),
    })
}

fn reduce_all_by<F: Field>(
    alloc: Global,
    field: &F,
    rows: &[Row<F::Elem>],
    targets: &[Row<F::Elem>],
    way: Way,
) -> Result<Reduction<F::Elem>, Fault>
    requires ring { F.is_ring field.now }
    requires rows { AreRows (F.meaning field.now) rows.now }
    requires targets { AreRows (F.meaning field.now) targets.now }
    ensures reduction { IfOk result (IsReduction (F.meaning field.now) rows.now targets.now) }
    ensures cause { way ≡ Way.Plain → OnFault result (RemaindersAreHigh (F.meaning field.now) rows.now targets.now) }
{
    let pivots = reduced_by(alloc, field, rows, way)?;
    let form = given_rows(alloc, &pivots)?;
    let mut remainders = Vec::new(alloc);
    for target in targets {
        let left = left_of(alloc, field, rows, &pivots, target)?;
        remainders.push(left)?;
    }
    Ok(Reduction {
        form: Items::from_vec(form),
        remainders: Items::from_vec(remainders),
    })
}

/// The reduced row echelon form of the rows, and what is left of each of several targets by it, in their order; the rows are reduced once.
///
/// Errors: `Range` only where the height of the plain row reduction, with the reduction of one of these targets by its rows, is 2^120 or more.
/// Source: Cohen, A Course in Computational Algebraic Number Theory, chapter 2.
pub fn reduce_all<F: Field>(
    alloc: Global,
    field: &F,
    rows: &[Row<F::Elem>],
    targets: &[Row<F::Elem>],
) -> Result<Reduction<F::Elem>, Fault>
    requires ring { F.is_ring field.now }
    requires rows { AreRows (F.meaning field.now) rows.now }
    requires targets { AreRows (F.meaning field.now) targets.now }
    ensures reduction { IfOk result (IsReduction (F.meaning field.now) rows.now targets.now) }
    ensures range { OnFault result (RemaindersAreHigh (F.meaning field.now) rows.now targets.now) }
{
    match reduce_all_by(alloc, field, rows, targets, Way::Quick) {
        Ok(reduction) => Ok(reduction),
        Err(Fault::NoMemory) => Err(Fault::NoMemory),
        Err(Fault::Range(_)) => reduce_all_by(alloc, field, rows, targets, Way::Plain),
    }
}
