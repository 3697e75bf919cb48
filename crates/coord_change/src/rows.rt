//! The rows of a matrix by their entries, for elimination.

ghost use Rattle.std.specs.Prelude.{◌≡◌, ℕ, ◌+◌, ◌*◌, ◌<◌, ◌≤◌, [], length, get_or, map, IfOk, OnOk, All};
ghost use Rattle.ring_law.specs.Refusals.{OnFault};
ghost use Rattle.lin_row.specs.Lines.{IsLine, AllBelow, EachOf, dot, entry};
ghost use Rattle.lin_row.specs.Rows.{AreRows, rows_of};
ghost use Rattle.coord_change.specs.Changes.{entry_of};
ghost use Rattle.coord_change.specs.Inverses.{image_at, AreMatrixRows, AreExtendedRows};

use lin_row::Row;
use ring_law::{Fault, Ring};
use sqlite_items::Items;
use std::alloc::Global;

/// Puts an entry at the end, unless it is zero.
fn push_entry<R: Ring>(
    ring: &R,
    entries: &mut Vec<(u32, R::Elem)>,
    column: u32,
    x: R::Elem,
) -> Result<(), Fault>
    requires ring { R.is_ring ring.now }
    requires elem { (R.meaning ring.now).is_elem x }
    requires line { IsLine (R.meaning ring.now) entries.old.items }
    requires below { AllBelow column entries.old.items }
    ensures line { OnOk result (IsLine (R.meaning ring.now) entries.new.items) }
    ensures below { OnOk result (AllBelow (column + 1) entries.new.items) }
    ensures value { OnOk result (let m = R.meaning ring.now in (w : ℕ → R.Value ring.now) → dot m entries.new.items w ≡ m.scalars.ops.add (dot m entries.old.items w) (m.scalars.ops.mul (m.value x) (w column))) }
    ensures memory { OnFault result ⊥ }
{
    if !ring.eq(x, ring.zero()) {
        entries.push((column, x))?;
    }
    Ok(())
}

/// The entries of row i of a matrix with n rows that are not zero.
fn row_entries<R: Ring>(
    alloc: Global,
    ring: &R,
    n: u8,
    matrix: &[R::Elem],
    i: u8,
) -> Result<Vec<(u32, R::Elem)>, Fault>
    requires ring { R.is_ring ring.now }
    requires at_most_8_rows { n ≤ 8 }
    requires elems { All (R.meaning ring.now).is_elem matrix.now }
    requires entries { length matrix.now ≡ n * n }
    requires row { i < n }
    ensures line { IfOk result (λ v. IsLine (R.meaning ring.now) v.items) }
    ensures below { IfOk result (λ v. AllBelow n v.items) }
    ensures form { IfOk result (λ v. let m = R.meaning ring.now in (x : ℕ → R.Value ring.now) → dot m v.items x ≡ image_at m.scalars.ops n (entry_of m n matrix.now) x i) }
    ensures memory { OnFault result ⊥ }
{
    let mut entries = Vec::new(alloc);
    for j in 0..n {
        let x = matrix[usize::from(n) * usize::from(i) + usize::from(j)];
        push_entry(ring, &mut entries, u32::from(j), x)?;
    }
    Ok(entries)
}

/// The rows of a matrix with n rows.
pub fn matrix_rows<R: Ring>(
    alloc: Global,
    ring: &R,
    n: u8,
    matrix: &[R::Elem],
) -> Result<Vec<Row<R::Elem>>, Fault>
    requires ring { R.is_ring ring.now }
    requires at_most_8_rows { n ≤ 8 }
    requires elems { All (R.meaning ring.now).is_elem matrix.now }
    requires entries { length matrix.now ≡ n * n }
    ensures rows { IfOk result (λ v. AreRows (R.meaning ring.now) v.items) }
    ensures below { IfOk result (λ v. EachOf (AllBelow n) (rows_of v.items)) }
    ensures forms { IfOk result (λ v. let m = R.meaning ring.now in AreMatrixRows m n (entry_of m n matrix.now) (rows_of v.items)) }
    ensures memory { OnFault result ⊥ }
{
    let mut rows = Vec::new(alloc);
    for i in 0..n {
        let entries = row_entries(alloc, ring, n, matrix, i)?;
        rows.push(Row {
            entries: Items::from_vec(entries),
        })?;
    }
    Ok(rows)
}

/// The rows of a matrix with n rows, each with 1 in a column of its own: row i in column n + i.
pub fn extended_rows<R: Ring>(
    alloc: Global,
    ring: &R,
    n: u8,
    matrix: &[R::Elem],
) -> Result<Vec<Row<R::Elem>>, Fault>
    requires ring { R.is_ring ring.now }
    requires at_most_8_rows { n ≤ 8 }
    requires elems { All (R.meaning ring.now).is_elem matrix.now }
    requires entries { length matrix.now ≡ n * n }
    ensures rows { IfOk result (λ v. AreRows (R.meaning ring.now) v.items) }
    ensures below { IfOk result (λ v. EachOf (AllBelow (n + n)) (rows_of v.items)) }
    ensures forms { IfOk result (λ v. let m = R.meaning ring.now in AreExtendedRows m n (entry_of m n matrix.now) (rows_of v.items)) }
    ensures memory { OnFault result ⊥ }
{
    let mut rows = Vec::new(alloc);
    for i in 0..n {
        let mut entries = row_entries(alloc, ring, n, matrix, i)?;
        entries.push((u32::from(n + i), ring.one()))?;
        rows.push(Row {
            entries: Items::from_vec(entries),
        })?;
    }
    Ok(rows)
}

/// The entry of a row at a column.
fn entry_at<R: Ring>(ring: &R, entries: &[(u32, R::Elem)], column: usize) -> R::Elem
    requires ring { R.is_ring ring.now }
    requires line { IsLine (R.meaning ring.now) entries.now }
    ensures elem { (R.meaning ring.now).is_elem result }
    ensures value { let m = R.meaning ring.now in m.value result ≡ entry m entries.now column }
{
    for t in entries {
        if t.0 as usize == column {
            return t.1;
        }
    }
    ring.zero()
}

/// The first n entries of a row, zeros among them.
pub fn vector_of<R: Ring>(
    alloc: Global,
    ring: &R,
    n: u8,
    row: &Row<R::Elem>,
) -> Result<Vec<R::Elem>, Fault>
    requires ring { R.is_ring ring.now }
    requires line { IsLine (R.meaning ring.now) row.now.entries }
    ensures count { IfOk result (λ v. length v.items ≡ n) }
    ensures elems { IfOk result (λ v. All (R.meaning ring.now).is_elem v.items) }
    ensures values { IfOk result (λ v. let m = R.meaning ring.now in (d : ℕ) → d < n → get_or (map m.value v.items) d m.scalars.ops.zero ≡ entry m row.now.entries d) }
    ensures memory { OnFault result ⊥ }
{
    let mut all = Vec::new(alloc);
    for d in 0..usize::from(n) {
        let x = entry_at(ring, row.entries.as_slice(), d);
        all.push(x)?;
    }
    Ok(all)
}

/// The matrix whose columns are the negatives of the first n entries of n rows.
pub fn negated_columns<R: Ring>(
    alloc: Global,
    ring: &R,
    n: u8,
    columns: &[Row<R::Elem>],
) -> Result<Vec<R::Elem>, Fault>
    requires ring { R.is_ring ring.now }
    requires given { 0 < n }
    requires at_most_8_rows { n ≤ 8 }
    requires rows { AreRows (R.meaning ring.now) columns.now }
    requires count { length columns.now ≡ n }
    ensures elems { IfOk result (λ v. All (R.meaning ring.now).is_elem v.items) }
    ensures count { IfOk result (λ v. length v.items ≡ n * n) }
    ensures entries { IfOk result (λ v. let m = R.meaning ring.now in (i j : ℕ) → i < n → j < n
        → entry_of m n v.items i j ≡ m.scalars.ops.neg (entry m (get_or (rows_of columns.now) j []) i)) }
    ensures memory { OnFault result ⊥ }
{
    let size = usize::from(n);
    let mut all = Vec::new(alloc);
    for place in 0..size * size {
        let column = columns[place % size].entries.as_slice();
        let x = entry_at(ring, column, place / size);
        all.push(ring.neg(x))?;
    }
    Ok(all)
}
