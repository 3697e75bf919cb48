//! Values of the columns at which the pivots' rows vanish: what excludes a target, and the vectors of the kernel.

ghost use Rattle.std.specs.Prelude.{◌≡◌, ◌≢◌, ℕ, ◌<◌, ◌≤◌, ◌^◌, IfOk, OnOk, IfSome, MatchOption, length, take};
ghost use Rattle.ring_law.specs.Refusals.{OnFault};
ghost use Rattle.lin_row.specs.Lines.{IsLine, AllBelow, EachOf, lead_of, dot, entry};
ghost use Rattle.lin_row.specs.System.{AreEchelon, AreTriangular, AreReduced, IsPivot, IsCleared, IsAbsent, AllVanish, Settles, ZeroAtPivots, Excludes, front_value, lines_of};
ghost use Rattle.lin_row.specs.Plain.{Among, DivisionIsHigh};
ghost use Rattle.lin_row.specs.Stages.{functions_of};

use crate::echelon::place;
use crate::line::{
    Line, add_multiple, entry_at, lead, lead_inverse, negated_entry, push_entry, scaled,
};
use ring_law::{Fault, Field, Ring};
use std::alloc::Global;

/// The sum with a product, where there is a second factor.
fn add_product<R: Ring>(
    ring: &R,
    sum: R::Elem,
    x: R::Elem,
    y: Option<R::Elem>,
) -> Result<R::Elem, Fault>
    requires ring { R.is_ring ring.now }
    requires sum { (R.meaning ring.now).is_elem sum }
    requires x { (R.meaning ring.now).is_elem x }
    requires y { IfSome y (R.meaning ring.now).is_elem }
    ensures elem { IfOk result (R.meaning ring.now).is_elem }
    ensures value { IfOk result (λ s. let r = R.meaning ring.now in
        MatchOption y (r.value s ≡ r.value sum) (λ z. r.value s ≡ r.scalars.ops.add (r.value sum) (r.scalars.ops.mul (r.value x) (r.value z)))) }
{
    match y {
        Some(z) => {
            let product = ring.mul(x, z)?;
            let next = ring.add(sum, product)?;
            Ok(next)
        }
        None => Ok(sum),
    }
}

/// The value of a row at the values that another row's entries are.
fn value_on<R: Ring>(
    ring: &R,
    row: &[(u64, R::Elem)],
    values: &[(u64, R::Elem)],
) -> Result<R::Elem, Fault>
    requires ring { R.is_ring ring.now }
    requires row { IsLine (R.meaning ring.now) row.now }
    requires values { IsLine (R.meaning ring.now) values.now }
    ensures elem { IfOk result (R.meaning ring.now).is_elem }
    ensures value { IfOk result (λ x. let r = R.meaning ring.now in r.value x ≡ dot r row.now (entry r values.now)) }
{
    let mut sum = ring.zero();
    for t in row {
        sum = add_product(ring, sum, t.1, entry_at(values, t.0))?;
    }
    Ok(sum)
}

/// Gives the pivot's column the value at which its row vanishes.
fn settle<R: Ring>(
    alloc: Global,
    ring: &R,
    values: Line<R::Elem>,
    column: u64,
    row: &[(u64, R::Elem)],
) -> Result<Line<R::Elem>, Fault>
    requires ring { R.is_ring ring.now }
    requires values { IsLine (R.meaning ring.now) values.items }
    requires pivot { IsPivot (R.meaning ring.now) column row.now }
    ensures line { IfOk result (λ v. IsLine (R.meaning ring.now) v.items) }
    ensures settled { IfOk result (λ v. Settles (R.meaning ring.now) column row.now values.items v.items) }
{
    let y = value_on(ring, row, &values)?;
    let mut unit = Vec::new(alloc);
    unit.push((column, ring.one()))?;
    let next = add_multiple(alloc, ring, &values, ring.neg(y), &unit)?;
    Ok(next)
}

/// Values of the columns at which the pivots' rows vanish, made from the last pivot to the first.
fn functional<R: Ring>(
    alloc: Global,
    ring: &R,
    pivots: &[(u64, Line<R::Elem>)],
    start: Line<R::Elem>,
) -> Result<Line<R::Elem>, Fault>
    requires ring { R.is_ring ring.now }
    requires pivots { AreTriangular (R.meaning ring.now) (lines_of pivots.now) }
    requires line { IsLine (R.meaning ring.now) start.items }
    ensures line { IfOk result (λ v. IsLine (R.meaning ring.now) v.items) }
    ensures vanish { IfOk result (λ v. AllVanish (R.meaning ring.now) (lines_of pivots.now) (entry (R.meaning ring.now) v.items)) }
    ensures same { IfOk result (λ v. let r = R.meaning ring.now in (w : ℕ → R.Value ring.now) → ZeroAtPivots r.scalars (lines_of pivots.now) w → dot r v.items w ≡ dot r start.items w) }
{
    let mut values = start;
    let mut k = pivots.len();
    while k > 0 {
        k -= 1;
        let p = &pivots[k];
        values = settle(alloc, ring, values, p.0, &p.1)?;
    }
    Ok(values)
}

/// The values that exclude what is left of a target.
pub fn excluding<F: Field>(
    alloc: Global,
    field: &F,
    pivots: &[(u64, Line<F::Elem>)],
    left: &[(u64, F::Elem)],
) -> Result<Line<F::Elem>, Fault>
    requires ring { F.is_ring field.now }
    requires pivots { AreEchelon (F.meaning field.now) (lines_of pivots.now) }
    requires below { AllBelow 4294967296 (lines_of pivots.now) }
    requires line { IsLine (F.meaning field.now) left.now }
    requires cleared { IsCleared (F.meaning field.now) (lines_of pivots.now) left.now }
    requires given { lead_of left.now < 4294967296 }
    ensures { IfOk result (λ v. Excludes (F.meaning field.now) (lines_of pivots.now) left.now v.items) }
{
    let column = lead(left);
    let inverse = lead_inverse(field, left)?;
    let mut start = Vec::new(alloc);
    start.push((column, inverse))?;
    let values = functional(alloc, field, pivots, start)?;
    Ok(values)
}

/// The negatives of the first rows' entries in a column, each at its row's pivot.
fn front<R: Ring>(
    alloc: Global,
    ring: &R,
    pivots: &[(u64, Line<R::Elem>)],
    count: usize,
    column: u64,
) -> Result<Line<R::Elem>, Fault>
    requires ring { R.is_ring ring.now }
    requires pivots { AreEchelon (R.meaning ring.now) (lines_of pivots.now) }
    requires within { count ≤ length pivots.now }
    ensures line { IfOk result (λ v. IsLine (R.meaning ring.now) v.items) }
    ensures below { IfOk result (λ v. (a : ℕ) → AllBelow a (lines_of (take count pivots.now)) → AllBelow a v.items) }
    ensures value { IfOk result (λ v. let r = R.meaning ring.now in (w : ℕ → R.Value ring.now) → dot r v.items w ≡ front_value r (lines_of (take count pivots.now)) column w) }
    ensures entries { IfOk result (λ v. let r = R.meaning ring.now in EachOf (λ t. Among (λ p. r.value t.1 ≡ r.scalars.ops.neg (entry r p.1 column)) (lines_of pivots.now)) v.items) }
    ensures cause { OnFault result ⊥ }
{
    let mut all = Vec::new(alloc);
    for i in 0..count {
        let p = &pivots[i];
        let x = negated_entry(ring, &p.1, column);
        push_entry(ring, &mut all, p.0, x)?;
    }
    Ok(all)
}

/// The kernel's vector of a column without pivot, by reduced rows.
pub fn kernel_vector<R: Ring>(
    alloc: Global,
    ring: &R,
    pivots: &[(u64, Line<R::Elem>)],
    column: u64,
) -> Result<Line<R::Elem>, Fault>
    requires ring { R.is_ring ring.now }
    requires pivots { AreEchelon (R.meaning ring.now) (lines_of pivots.now) }
    requires reduced { AreReduced (R.meaning ring.now) (lines_of pivots.now) }
    requires free { IsAbsent column (lines_of pivots.now) }
    ensures line { IfOk result (λ v. IsLine (R.meaning ring.now) v.items) }
    ensures vanish { IfOk result (λ v. AllVanish (R.meaning ring.now) (lines_of pivots.now) (entry (R.meaning ring.now) v.items)) }
    ensures same { IfOk result (λ v. let r = R.meaning ring.now in (w : ℕ → R.Value ring.now) → ZeroAtPivots r.scalars (lines_of pivots.now) w → dot r v.items w ≡ w column) }
    ensures last { IfOk result (λ v. (d : ℕ) → column < d → entry (R.meaning ring.now) v.items d ≡ (R.meaning ring.now).scalars.ops.zero) }
    ensures cause { OnFault result ⊥ }
{
    let count = place(pivots, column);
    let mut values = front(alloc, ring, pivots, count, column)?;
    values.push((column, ring.one()))?;
    Ok(values)
}

/// The values that exclude what is left of a target, by reduced rows: the kernel's vector over the target's first entry left.
pub fn excluding_plainly<F: Field>(
    alloc: Global,
    field: &F,
    pivots: &[(u64, Line<F::Elem>)],
    left: &[(u64, F::Elem)],
) -> Result<Line<F::Elem>, Fault>
    requires ring { F.is_ring field.now }
    requires pivots { AreEchelon (F.meaning field.now) (lines_of pivots.now) }
    requires reduced { AreReduced (F.meaning field.now) (lines_of pivots.now) }
    requires below { AllBelow 4294967296 (lines_of pivots.now) }
    requires line { IsLine (F.meaning field.now) left.now }
    requires cleared { IsCleared (F.meaning field.now) (lines_of pivots.now) left.now }
    requires given { lead_of left.now < 4294967296 }
    ensures excludes { IfOk result (λ v. Excludes (F.meaning field.now) (lines_of pivots.now) left.now v.items) }
    ensures cause { OnFault result (let r = F.meaning field.now in DivisionIsHigh r.scalars 4294967296 (functions_of r (lines_of pivots.now)) (entry r left.now)) }
{
    let column = lead(left);
    let inverse = lead_inverse(field, left)?;
    let count = place(pivots, column);
    let values = front(alloc, field, pivots, count, column)?;
    let mut divided = scaled(alloc, field, inverse, &values)?;
    divided.push((column, inverse))?;
    Ok(divided)
}
