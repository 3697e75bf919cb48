//! Systems of rows that solve many targets, reduced in a quick way or by the plain row reduction.

ghost use Rattle.std.specs.Prelude.{◌≡◌, ◌≢◌, ℕ, ◌<◌, ◌≤◌, IfOk, OnOk, length};
ghost use Rattle.ring_law.specs.Refusals.{OnFault};
ghost use Rattle.lin_row.specs.Lines.{IsLine, AllBelow, EachOf, lead_of, entry};
ghost use Rattle.lin_row.specs.Rows.{AreRows, AreSolutions, IsSolution, rows_of};
ghost use Rattle.lin_row.specs.System.{IsSystem, AreEchelon, AreReduced, AreNegated, IsCleared, Excludes, lines_of};
ghost use Rattle.lin_row.specs.Plain.{DivisionIsHigh, with_units};
ghost use Rattle.lin_row.specs.Stages.{functions_of, IsEnd};
ghost use Rattle.lin_row.specs.Systems.{IsSystemOf, SystemIsHigh, SolvingIsHigh, SolvingAnyIsHigh};

use crate::echelon::{build, remainder};
use crate::excluded::{excluding, excluding_plainly};
use crate::line::{Line, UNITS, lead, line_of, negated_entry};
use crate::plain::reduce_plainly;
use crate::row::{Row, Solution};
use ring_law::{Fault, Field, Ring};
use std::alloc::Global;

/// How a system is reduced.
#[derive(Clone, Copy, Debug, PartialEq, Eq)]
pub enum Way {
    /// The rows from the last to the first, cleared by leading entries alone.
    Quick,
    /// The plain row reduction, by which heights are measured.
    Plain,
}

/// Rows that were reduced once, for many targets.
#[derive(Drop)]
pub struct System<E: Drop> {
    pivots: Vec<(u64, Line<E>)>,
    way: Way,
}

/// The pivots of the rows.
pub fn pivots_by<F: Field>(
    alloc: Global,
    field: &F,
    rows: &[Row<F::Elem>],
    way: Way,
) -> Result<Vec<(u64, Line<F::Elem>)>, Fault>
    requires ring { F.is_ring field.now }
    requires rows { AreRows (F.meaning field.now) rows.now }
    requires few { length rows.now ≤ 4294967296 }
    ensures system { IfOk result (λ v. IsSystem (F.meaning field.now) 4294967296 (rows_of rows.now) (rows_of rows.now) (lines_of v.items)) }
    ensures end { IfOk result (λ v. let r = F.meaning field.now in way ≡ Way.Plain → IsEnd r 4294967296 (with_units r 4294967296 0 (rows_of rows.now)) (lines_of v.items)) }
    ensures cause { way ≡ Way.Plain → OnFault result (SystemIsHigh (F.meaning field.now) rows.now) }
{
    match way {
        Way::Quick => build(alloc, field, rows),
        Way::Plain => reduce_plainly(alloc, field, rows),
    }
}

/// The rows as a system, reduced in this way.
///
/// Errors: `Range` in the plain way only where the height of the plain row reduction is 2^120 or more.
pub fn make_system<F: Field>(
    alloc: Global,
    field: &F,
    rows: &[Row<F::Elem>],
    way: Way,
) -> Result<System<F::Elem>, Fault>
    requires ring { F.is_ring field.now }
    requires rows { AreRows (F.meaning field.now) rows.now }
    ensures system { IfOk result (IsSystemOf (F.meaning field.now) rows.now) }
    ensures way { IfOk result (λ s. s.way ≡ way) }
    ensures cause { way ≡ Way.Plain → OnFault result (SystemIsHigh (F.meaning field.now) rows.now) }
{
    if rows.len() as u64 > UNITS {
        return Err(Fault::NoMemory);
    }
    let pivots = pivots_by(alloc, field, rows, way)?;
    Ok(System { pivots, way })
}

/// The entries with columns of given rows alone.
pub fn narrow<E: Copy>(alloc: Global, line: &[(u64, E)]) -> Result<Vec<(u32, E)>, Fault>
    requires { AllBelow 4294967296 line.now }
    ensures items { IfOk result (λ v. v.items ≡ line.now) }
    ensures cause { OnFault result ⊥ }
{
    let mut all = Vec::new(alloc);
    for t in line {
        all.push((t.0 as u32, t.1))?;
    }
    Ok(all)
}

/// The negatives of the entries in the first unit columns.
pub fn coefficients<R: Ring>(
    alloc: Global,
    ring: &R,
    left: &[(u64, R::Elem)],
    count: usize,
) -> Result<Vec<R::Elem>, Fault>
    requires ring { R.is_ring ring.now }
    requires line { IsLine (R.meaning ring.now) left.now }
    requires few { count ≤ 4294967296 }
    ensures length { IfOk result (λ v. length v.items ≡ count) }
    ensures valid { IfOk result (λ v. EachOf (R.meaning ring.now).is_elem v.items) }
    ensures value { IfOk result (λ v. AreNegated (R.meaning ring.now) left.now 4294967296 v.items) }
    ensures cause { OnFault result ⊥ }
{
    let mut all = Vec::new(alloc);
    for k in 0..count {
        let x = negated_entry(ring, left, UNITS + k as u64);
        all.push(x)?;
    }
    Ok(all)
}

/// The values that exclude what is left of a target.
fn excluding_by<F: Field>(
    alloc: Global,
    field: &F,
    pivots: &[(u64, Line<F::Elem>)],
    way: Way,
    left: &[(u64, F::Elem)],
) -> Result<Line<F::Elem>, Fault>
    requires ring { F.is_ring field.now }
    requires pivots { AreEchelon (F.meaning field.now) (lines_of pivots.now) }
    requires reduced { way ≡ Way.Plain → AreReduced (F.meaning field.now) (lines_of pivots.now) }
    requires below { AllBelow 4294967296 (lines_of pivots.now) }
    requires line { IsLine (F.meaning field.now) left.now }
    requires cleared { IsCleared (F.meaning field.now) (lines_of pivots.now) left.now }
    requires given { lead_of left.now < 4294967296 }
    ensures excludes { IfOk result (λ v. Excludes (F.meaning field.now) (lines_of pivots.now) left.now v.items) }
    ensures cause { way ≡ Way.Plain → OnFault result (let r = F.meaning field.now in DivisionIsHigh r.scalars 4294967296 (functions_of r (lines_of pivots.now)) (entry r left.now)) }
{
    match way {
        Way::Quick => excluding(alloc, field, pivots, left),
        Way::Plain => excluding_plainly(alloc, field, pivots, left),
    }
}

/// A combination of the system's rows that is the target, or a functional that excludes one.
///
/// Errors: `Range` in the plain way only where the height of the plain row reduction with this target is 2^120 or more.
pub fn solve_in<F: Field>(
    alloc: Global,
    field: &F,
    rows: &[Row<F::Elem>],
    system: &System<F::Elem>,
    target: &Row<F::Elem>,
) -> Result<Solution<F::Elem>, Fault>
    requires ring { F.is_ring field.now }
    requires system { IsSystemOf (F.meaning field.now) rows.now system.now }
    requires target { IsLine (F.meaning field.now) target.now.entries }
    ensures solution { IfOk result (IsSolution (F.meaning field.now) rows.now target.now.entries) }
    ensures cause { system.now.way ≡ Way.Plain → OnFault result (SolvingIsHigh (F.meaning field.now) rows.now target.now.entries) }
{
    let line = line_of(alloc, target)?;
    let left = remainder(alloc, field, &system.pivots, line)?;
    let column = lead(&left);
    if column < UNITS {
        let values = excluding_by(alloc, field, &system.pivots, system.way, &left)?;
        let narrowed = narrow(alloc, &values)?;
        return Ok(Solution::Excluded(narrowed));
    }
    let all = coefficients(alloc, field, &left, rows.len())?;
    Ok(Solution::Solved(all))
}

fn solve_by<F: Field>(
    alloc: Global,
    field: &F,
    rows: &[Row<F::Elem>],
    target: &Row<F::Elem>,
    way: Way,
) -> Result<Solution<F::Elem>, Fault>
    requires ring { F.is_ring field.now }
    requires rows { AreRows (F.meaning field.now) rows.now }
    requires target { IsLine (F.meaning field.now) target.now.entries }
    ensures solution { IfOk result (IsSolution (F.meaning field.now) rows.now target.now.entries) }
    ensures cause { way ≡ Way.Plain → OnFault result (SolvingIsHigh (F.meaning field.now) rows.now target.now.entries) }
{
    let system = make_system(alloc, field, rows, way)?;
    let solution = solve_in(alloc, field, rows, &system, target)?;
    Ok(solution)
}

/// A combination of the rows that is the target, with one coefficient for each row, or a functional that is 0 on every row and 1 on the target.
///
/// Errors: `Range` only where the height of the plain row reduction with this target is 2^120 or more.
/// Source: Cohen, A Course in Computational Algebraic Number Theory, chapter 2.
pub fn solve<F: Field>(
    alloc: Global,
    field: &F,
    rows: &[Row<F::Elem>],
    target: &Row<F::Elem>,
) -> Result<Solution<F::Elem>, Fault>
    requires ring { F.is_ring field.now }
    requires rows { AreRows (F.meaning field.now) rows.now }
    requires target { IsLine (F.meaning field.now) target.now.entries }
    ensures solution { IfOk result (IsSolution (F.meaning field.now) rows.now target.now.entries) }
    ensures range { OnFault result (SolvingIsHigh (F.meaning field.now) rows.now target.now.entries) }
{
    match solve_by(alloc, field, rows, target, Way::Quick) {
        Ok(solution) => Ok(solution),
        Err(Fault::NoMemory) => Err(Fault::NoMemory),
        Err(Fault::Range(_)) => solve_by(alloc, field, rows, target, Way::Plain),
    }
}

fn solve_all_by<F: Field>(
    alloc: Global,
    field: &F,
    rows: &[Row<F::Elem>],
    targets: &[Row<F::Elem>],
    way: Way,
) -> Result<Vec<Solution<F::Elem>>, Fault>
    requires ring { F.is_ring field.now }
    requires rows { AreRows (F.meaning field.now) rows.now }
    requires targets { AreRows (F.meaning field.now) targets.now }
    ensures solutions { IfOk result (λ v. AreSolutions (F.meaning field.now) rows.now targets.now v.items) }
    ensures cause { way ≡ Way.Plain → OnFault result (SolvingAnyIsHigh (F.meaning field.now) rows.now targets.now) }
{
    let system = make_system(alloc, field, rows, way)?;
    let mut all = Vec::new(alloc);
    for target in targets {
        let solution = solve_in(alloc, field, rows, &system, target)?;
        all.push(solution)?;
    }
    Ok(all)
}

/// What solves or excludes each of several targets, in their order; the rows are reduced once.
///
/// Errors: `Range` only where the height of the plain row reduction with one of these targets is 2^120 or more.
pub fn solve_all<F: Field>(
    alloc: Global,
    field: &F,
    rows: &[Row<F::Elem>],
    targets: &[Row<F::Elem>],
) -> Result<Vec<Solution<F::Elem>>, Fault>
    requires ring { F.is_ring field.now }
    requires rows { AreRows (F.meaning field.now) rows.now }
    requires targets { AreRows (F.meaning field.now) targets.now }
    ensures solutions { IfOk result (λ v. AreSolutions (F.meaning field.now) rows.now targets.now v.items) }
    ensures range { OnFault result (SolvingAnyIsHigh (F.meaning field.now) rows.now targets.now) }
{
    match solve_all_by(alloc, field, rows, targets, Way::Quick) {
        Ok(solutions) => Ok(solutions),
        Err(Fault::NoMemory) => Err(Fault::NoMemory),
        Err(Fault::Range(_)) => solve_all_by(alloc, field, rows, targets, Way::Plain),
    }
}
