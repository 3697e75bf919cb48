//! Systems of rows over a field.

ghost use Rattle.std.specs.Prelude.{◌≡◌, ◌<◌, ◌≤◌, ◌+◌, All, IfOk, OnOk};
ghost use Rattle.lin_row.specs.Lines.{IsLine, AllBelow, EachOf};
ghost use Rattle.lin_row.specs.Rows.{AreRows, rows_of};
ghost use Rattle.probe.specs.Over.{IsOver};

use crate::scalars::{Over, put_elements};
use crate::words::{Stop, Words, is};
use ext_algebra::Ext;
use lin_row::{Row, Solution, kernel, reduce, solve};
use poly_text::{put_element, put_number};
use ring_law::{Fault, Field, Frac};
use sqlite_items::Items;
use std::alloc::Global;

/// Puts an entry behind the others, unless it is zero.
fn push_entry<F: Field>(
    field: &F,
    entries: &mut Items<(u32, F::Elem)>,
    column: u32,
    x: F::Elem,
) -> Result<(), Fault>
    requires ring { F.is_ring field.now }
    requires elem { (F.meaning field.now).is_elem x }
    requires line { IsLine (F.meaning field.now) entries.old }
    requires below { AllBelow column entries.old }
    ensures line { OnOk result (IsLine (F.meaning field.now) entries.new) }
    ensures below { OnOk result (AllBelow (column + 1) entries.new) }
{
    if field.eq(x, field.zero()) {
        return Ok(());
    }
    entries.push((column, x))?;
    Ok(())
}

// The row whose entries the next words spell, one for each column.
fn row_of<F: Field<Elem = Ext<Frac>> + Drop>(
    alloc: Global,
    over: &Over<F>,
    words: &mut Words,
) -> Result<Row<Ext<Frac>>, Stop>
    requires over { IsOver (F.is_ring over.now.field) (F.meaning over.now.field) over.now.algebra over.now.n over.now.order }
    ensures line { IfOk result (λ r. IsLine (F.meaning over.now.field) r.entries) }
    ensures below { IfOk result (λ r. AllBelow over.now.n r.entries) }
{
    let mut entries = Items::new(alloc);
    for i in 0..over.n {
        let x = over.element(words)?;
        push_entry(&over.field, &mut entries, u32::from(i), x)?;
    }
    Ok(Row { entries })
}

// So many rows.
fn rows_of<F: Field<Elem = Ext<Frac>> + Drop>(
    alloc: Global,
    over: &Over<F>,
    words: &mut Words,
    count: u8,
) -> Result<Vec<Row<Ext<Frac>>>, Stop>
    requires over { IsOver (F.is_ring over.now.field) (F.meaning over.now.field) over.now.algebra over.now.n over.now.order }
    ensures rows { IfOk result (λ v. AreRows (F.meaning over.now.field) v.items) }
    ensures below { IfOk result (λ v. EachOf (AllBelow over.now.n) (rows_of v.items)) }
{
    let mut rows = Vec::new(alloc);
    for _i in 0..count {
        let row = row_of(alloc, over, words)?;
        rows.push(row)?;
    }
    Ok(rows)
}

// Appends entries, each with its column.
fn put_entries(alloc: Global, out: &mut Vec<u8>, entries: &[(u32, Ext<Frac>)]) -> Result<(), Stop> {
    for (column, x) in entries {
        out.push(b' ')?;
        put_number(out, u64::from(*column))?;
        out.push(b':')?;
        put_element(alloc, out, *x)?;
    }
    Ok(())
}

// Appends rows.
fn put_rows(alloc: Global, out: &mut Vec<u8>, rows: &[Row<Ext<Frac>>]) -> Result<(), Stop> {
    for row in rows {
        out.push(b';')?;
        put_entries(alloc, out, row.entries.as_slice())?;
    }
    Ok(())
}

// Appends what solves or excludes the target that the next words spell.
fn put_solution<F: Field<Elem = Ext<Frac>> + Drop>(
    alloc: Global,
    over: &Over<F>,
    words: &mut Words,
    out: &mut Vec<u8>,
    rows: &[Row<Ext<Frac>>],
) -> Result<(), Stop>
    requires over { IsOver (F.is_ring over.now.field) (F.meaning over.now.field) over.now.algebra over.now.n over.now.order }
    requires rows { AreRows (F.meaning over.now.field) rows.now }
{
    let target = row_of(alloc, over, words)?;
    match solve(alloc, &over.field, rows, &target)? {
        Solution::Solved(xs) => put_elements(alloc, out, &xs),
        Solution::Excluded(values) => put_entries(alloc, out, &values),
    }
}

/// Appends the reduced form or the kernel of rows, or what solves or excludes a target.
pub(crate) fn calculate<F: Field<Elem = Ext<Frac>> + Drop>(
    alloc: Global,
    command: &[u8],
    over: &Over<F>,
    words: &mut Words,
    out: &mut Vec<u8>,
) -> Result<(), Stop>
    requires over { IsOver (F.is_ring over.now.field) (F.meaning over.now.field) over.now.algebra over.now.n over.now.order }
{
    let rows = rows_of(alloc, over, words, over.order)?;
    if is(command, b"reduce") {
        put_rows(alloc, out, &reduce(alloc, &over.field, &rows)?)
    } else if is(command, b"kernel") {
        put_rows(
            alloc,
            out,
            &kernel(alloc, &over.field, &rows, u32::from(over.n))?,
        )
    } else if is(command, b"solve") {
        put_solution(alloc, over, words, out, &rows)
    } else {
        Err(Stop::Words)
    }
}
