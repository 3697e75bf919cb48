//! Rows of entries in rising columns: multiples and sums.

ghost use Rattle.std.specs.Prelude.{◌≡◌, ◌≢◌, ℕ, ◌<◌, ◌≤◌, ◌^◌, ◌+◌, ◌⊎◌, length, IfOk, OnOk, IfSome, IsNone, MatchOption, List, [], ◌∷◌, ◌++◌, drop};
ghost use Rattle.ring_theory.specs.Scalars.{SumIsHigh};
ghost use Rattle.ring_law.specs.Refusals.{OnFault};
ghost use Rattle.lin_row.specs.System.{IsAbsent, IsPresent};
ghost use Rattle.lin_row.specs.Lines.{IsLine, AllUnits, AllBelow, IsRising, dot, entry, unit_at, lead_of, SumIsRefused, StartsFrom, EntryRefused};
ghost use Rattle.lin_row.specs.Plain.{Among};

use crate::row::Row;
use ring_law::{Fault, Field, Ring};
use std::alloc::Global;

/// Entries by columns: those of given rows below `UNITS`, the rows' own unit columns from there on.
pub type Line<E> = Vec<(u64, E)>;

/// The first of the rows' own unit columns, behind all columns of rows.
pub const UNITS: u64 = 4_294_967_296;

/// Puts an entry at the end, unless it is zero.
pub fn push_entry<R: Ring>(
    ring: &R,
    line: &mut Vec<(u64, R::Elem)>,
    column: u64,
    x: R::Elem,
) -> Result<(), Fault>
    requires ring { R.is_ring ring.now }
    requires elem { (R.meaning ring.now).is_elem x }
    requires units { AllUnits (R.meaning ring.now) line.old.items }
    ensures units { OnOk result (AllUnits (R.meaning ring.now) line.new.items) }
    ensures value { OnOk result (let r = R.meaning ring.now in (w : ℕ → R.Value ring.now) → dot r line.new.items w ≡ r.scalars.ops.add (dot r line.old.items w) (r.scalars.ops.mul (r.value x) (w column))) }
    ensures rising { OnOk result ((rest : List (ℕ × R.Elem)) → IsRising (line.old.items ++ ((column, x) ∷ rest)) → IsRising (line.new.items ++ rest)) }
    ensures items { OnOk result ((line.new.items ≡ line.old.items) ⊎ (line.new.items ≡ line.old.items ++ ((column, x) ∷ []))) }
    ensures cause { OnFault result ⊥ }
{
    if !ring.eq(x, ring.zero()) {
        line.push((column, x))?;
    }
    Ok(())
}

/// Copies the entries before a column, and answers how far.
fn copy_before<E: Copy>(
    line: &mut Vec<(u64, E)>,
    from: &[(u64, E)],
    start: usize,
    column: u64,
) -> Result<usize, Fault>
    requires within { start ≤ length from.now }
    ensures within { IfOk result (λ i. i ≤ length from.now) }
    ensures items { IfOk result (λ i. line.new.items ++ drop i from.now ≡ line.old.items ++ drop start from.now) }
    ensures starts { IfOk result (λ i. StartsFrom column (drop i from.now)) }
    ensures rising { IfOk result (λ i. IsRising (line.old.items ++ drop start from.now) → (x : E) → (rest : List (ℕ × E)) → IsRising (line.old.items ++ ((column, x) ∷ rest)) → IsRising (line.new.items ++ ((column, x) ∷ rest))) }
    ensures cause { OnFault result ⊥ }
{
    let mut i = start;
    while i < from.len() && from[i].0 < column {
        line.push(from[i])?;
        i += 1;
    }
    Ok(i)
}

/// Adds an entry in front of what is left of a row, and answers where the row goes on.
fn add_entry<R: Ring>(
    ring: &R,
    line: &mut Vec<(u64, R::Elem)>,
    from: &[(u64, R::Elem)],
    start: usize,
    column: u64,
    x: R::Elem,
) -> Result<usize, Fault>
    requires ring { R.is_ring ring.now }
    requires elem { (R.meaning ring.now).is_elem x }
    requires within { start ≤ length from.now }
    requires from_units { AllUnits (R.meaning ring.now) from.now }
    requires units { AllUnits (R.meaning ring.now) line.old.items }
    requires starts { StartsFrom column (drop start from.now) }
    ensures within { IfOk result (λ i. i ≤ length from.now) }
    ensures units { OnOk result (AllUnits (R.meaning ring.now) line.new.items) }
    ensures value { IfOk result (λ i.
        let r = R.meaning ring.now in
        (w : ℕ → R.Value ring.now) → r.scalars.ops.add (dot r line.new.items w) (dot r (drop i from.now) w)
        ≡ r.scalars.ops.add (r.scalars.ops.add (dot r line.old.items w) (dot r (drop start from.now) w)) (r.scalars.ops.mul (r.value x) (w column))) }
    ensures left { IfOk result (λ i. (y : R.Elem) → (rest : List (ℕ × R.Elem)) → IsRising (line.old.items ++ drop start from.now) → IsRising (line.old.items ++ ((column, y) ∷ rest)) → IsRising (line.new.items ++ drop i from.now)) }
    ensures right { IfOk result (λ i. (y : R.Elem) → (rest : List (ℕ × R.Elem)) → IsRising (line.old.items ++ ((column, y) ∷ rest)) → IsRising (line.new.items ++ rest)) }
    ensures cause { OnFault result (EntryRefused (R.meaning ring.now) from.now column ((R.meaning ring.now).value x)) }
{
    if start < from.len() && from[start].0 == column {
        let both = ring.add(from[start].1, x)?;
        push_entry(ring, line, column, both)?;
        Ok(start + 1)
    } else {
        push_entry(ring, line, column, x)?;
        Ok(start)
    }
}

/// The sum of a row and f times another.
pub fn add_multiple<R: Ring>(
    alloc: Global,
    ring: &R,
    a: &[(u64, R::Elem)],
    f: R::Elem,
    b: &[(u64, R::Elem)],
) -> Result<Vec<(u64, R::Elem)>, Fault>
    requires ring { R.is_ring ring.now }
    requires a_line { IsLine (R.meaning ring.now) a.now }
    requires elem { (R.meaning ring.now).is_elem f }
    requires b_line { IsLine (R.meaning ring.now) b.now }
    ensures line { IfOk result (λ v. IsLine (R.meaning ring.now) v.items) }
    ensures value { IfOk result (λ v.
        let r = R.meaning ring.now in
        (w : ℕ → R.Value ring.now) → dot r v.items w ≡ r.scalars.ops.add (dot r a.now w) (r.scalars.ops.mul (r.value f) (dot r b.now w))) }
    ensures cause { OnFault result (let r = R.meaning ring.now in SumIsRefused r.scalars (entry r a.now) (r.value f) (entry r b.now)) }
{
    let mut sum = Vec::new(alloc);
    let mut i = 0;
    for t in b {
        i = copy_before(&mut sum, a, i, t.0)?;
        let product = ring.mul(f, t.1)?;
        i = add_entry(ring, &mut sum, a, i, t.0, product)?;
    }
    sum.extend_from_slice(&a[i..])?;
    Ok(sum)
}

/// The entry at a column, or none where it is zero.
pub fn entry_at<E: Copy>(line: &[(u64, E)], column: u64) -> Option<E>
    ensures { MatchOption result (IsAbsent column line.now) (λ x. IsPresent column x line.now) }
{
    for i in 0..line.len() {
        if line[i].0 == column {
            return Some(line[i].1);
        }
    }
    None
}

/// A row times f.
pub fn scaled<R: Ring>(
    alloc: Global,
    ring: &R,
    f: R::Elem,
    row: &[(u64, R::Elem)],
) -> Result<Line<R::Elem>, Fault>
    requires ring { R.is_ring ring.now }
    requires elem { (R.meaning ring.now).is_elem f }
    requires row { IsLine (R.meaning ring.now) row.now }
    ensures line { IfOk result (λ v. IsLine (R.meaning ring.now) v.items) }
    ensures value { IfOk result (λ v.
        let r = R.meaning ring.now in
        (w : ℕ → R.Value ring.now) → dot r v.items w ≡ r.scalars.ops.mul (r.value f) (dot r row.now w)) }
    ensures below { IfOk result (λ v. (a : ℕ) → AllBelow a row.now → AllBelow a v.items) }
    ensures cause { OnFault result (let r = R.meaning ring.now in Among (λ t. 2 ^ 120 ≤ r.scalars.product_height (r.value f) (r.value t.1)) row.now) }
{
    let mut all = Vec::new(alloc);
    for t in row {
        let x = ring.mul(f, t.1)?;
        push_entry(ring, &mut all, t.0, x)?;
    }
    Ok(all)
}

/// The first column of a row, and `u64::MAX` where it has no entry.
pub fn lead<E: Copy>(line: &[(u64, E)]) -> u64
    ensures { result ≡ lead_of line.now }
{
    if line.len() == 0 {
        return u64::MAX;
    }
    line[0].0
}

/// The inverse of a row's first entry.
pub fn lead_inverse<F: Field>(field: &F, row: &[(u64, F::Elem)]) -> Result<F::Elem, Fault>
    requires ring { F.is_ring field.now }
    requires line { IsLine (F.meaning field.now) row.now }
    requires some { 0 < length row.now }
    ensures elem { IfOk result (F.meaning field.now).is_elem }
    ensures value { IfOk result (λ x. let r = F.meaning field.now in r.value x ≡ r.scalars.inverse (entry r row.now (lead_of row.now))) }
    ensures unit { IfOk result (λ x. let r = F.meaning field.now in r.scalars.ops.mul (entry r row.now (lead_of row.now)) (r.value x) ≡ r.scalars.ops.one) }
    ensures cause { OnFault result (let r = F.meaning field.now in 2 ^ 120 ≤ r.scalars.inverse_height (entry r row.now (lead_of row.now))) }
{
    let first = row[0];
    match field.inv(first.1)? {
        Some(x) => Ok(x),
        None => unreachable!(),
    }
}

/// The negative of an entry.
pub fn negated_entry<R: Ring>(ring: &R, row: &[(u64, R::Elem)], column: u64) -> R::Elem
    requires ring { R.is_ring ring.now }
    requires line { IsLine (R.meaning ring.now) row.now }
    ensures elem { (R.meaning ring.now).is_elem result }
    ensures value { let r = R.meaning ring.now in r.value result ≡ r.scalars.ops.neg (entry r row.now column) }
{
    match entry_at(row, column) {
        Some(x) => ring.neg(x),
        None => ring.zero(),
    }
}

/// A column of a row among all columns.
fn given_column(column: u32) -> u64
    ensures value { result ≡ column }
    ensures below { result < 4294967296 }
{
    u64::from(column)
}

/// A row's entries, with room behind their columns.
pub fn line_of<E: Copy>(alloc: Global, row: &Row<E>) -> Result<Line<E>, Fault>
    ensures items { IfOk result (λ v. v.items ≡ row.now.entries) }
    ensures below { OnOk result (AllBelow 4294967296 row.now.entries) }
    ensures cause { OnFault result ⊥ }
{
    let mut line = Vec::new(alloc);
    for t in row.entries.as_slice() {
        line.push((given_column(t.0), t.1))?;
    }
    Ok(line)
}

/// The row with a unit column of its own, the one with this number.
pub fn extended<R: Ring>(
    alloc: Global,
    ring: &R,
    row: &Row<R::Elem>,
    number: u64,
) -> Result<Line<R::Elem>, Fault>
    requires ring { R.is_ring ring.now }
    requires line { IsLine (R.meaning ring.now) row.now.entries }
    requires fits { number < 4294967296 }
    ensures line { IfOk result (λ v. IsLine (R.meaning ring.now) v.items) }
    ensures below { OnOk result (AllBelow 4294967296 row.now.entries) }
    ensures value { IfOk result (λ v.
        let r = R.meaning ring.now in
        (w : ℕ → R.Value ring.now) → dot r v.items w ≡ r.scalars.ops.add (dot r row.now.entries w) (w (4294967296 + number))) }
    ensures cause { OnFault result ⊥ }
{
    let mut line = line_of(alloc, row)?;
    line.push((UNITS + number, ring.one()))?;
    Ok(line)
}
