//! The linear moves of binary forms as changes of order 16, in n variables, 2 to 8, the first two
//! of which are x and y.

ghost use Rattle.std.specs.Prelude.{◌≡◌, ◌≢◌, ◌≤◌, [], ◌∷◌, IfOk};
ghost use Rattle.ring_law.specs.Refusals.{OnFault};
ghost use Rattle.coord_change.specs.Changes.{IsChange};
ghost use Rattle.coord_change.specs.Moves.{Move};
ghost use Rattle.coord_change.specs.Carries.{compose};
ghost use Rattle.kill_table.specs.Moves.{IsMoveTo};
ghost use Rattle.move_law.specs.Binary.{line_to_x, less_x, less_y, root_to_y, roots_to_axes, single_work};
ghost use Rattle.move_law.specs.Work.{composed as composing};
ghost use Rattle.split_lemma.specs.Splits.{AnyHigh};
ghost use Rattle.bin_forms.specs.Lines.{line_value};

use crate::begin_plane::{ORDER, plane_change};
use bin_forms::Line;
use coord_change::{ChangeOf, then};
use ring_law::{Fault, Field, Ring};
use std::alloc::Global;

/// The change after which the line is x: for the line `x + lambda*y` it puts `x - lambda*y` for x,
/// and for the line y it exchanges x and y.
///
/// Errors: `Range` only where the inverse of its linear part has height 2^120 or more.
pub fn line_change<F: Field>(
    alloc: Global,
    field: &F,
    n: u8,
    line: Line<F::Elem>,
) -> Result<ChangeOf<F>, Fault>
    requires ring { F.is_ring field.now }
    requires elem { (F.meaning field.now).is_elem line.lambda }
    requires two_variables { 2 ≤ n }
    requires at_most_8_variables { n ≤ 8 }
    ensures change { IfOk result (let m = F.meaning field.now in IsMoveTo m n 16 (line_to_x n m.scalars (line_value m.value line))) }
    ensures range { OnFault result (let m = F.meaning field.now in
        AnyHigh n m.scalars (single_work n m.scalars (line_to_x n m.scalars (line_value m.value line)))) }
{
    let zero = field.zero();
    let one = field.one();
    if line.vertical {
        return plane_change(alloc, field, n, (zero, one), (one, zero));
    }
    let opposite = field.neg(line.lambda);
    plane_change(alloc, field, n, (one, opposite), (zero, one))
}

/// The change that puts `y - v*x` for y.
///
/// Errors: `Range` only where the inverse of its linear part has height 2^120 or more.
pub fn less_x_change<F: Field>(
    alloc: Global,
    field: &F,
    n: u8,
    v: F::Elem,
) -> Result<ChangeOf<F>, Fault>
    requires ring { F.is_ring field.now }
    requires elem { (F.meaning field.now).is_elem v }
    requires two_variables { 2 ≤ n }
    requires at_most_8_variables { n ≤ 8 }
    ensures change { IfOk result (let m = F.meaning field.now in IsMoveTo m n 16 (less_x n m.scalars (m.value v))) }
    ensures range { OnFault result (let m = F.meaning field.now in AnyHigh n m.scalars (single_work n m.scalars (less_x n m.scalars (m.value v)))) }
{
    let zero = field.zero();
    let one = field.one();
    let opposite = field.neg(v);
    plane_change(alloc, field, n, (one, zero), (opposite, one))
}

/// The change that puts `x - v*y` for x.
///
/// Errors: `Range` only where the inverse of its linear part has height 2^120 or more.
pub fn less_y_change<F: Field>(
    alloc: Global,
    field: &F,
    n: u8,
    v: F::Elem,
) -> Result<ChangeOf<F>, Fault>
    requires ring { F.is_ring field.now }
    requires elem { (F.meaning field.now).is_elem v }
    requires two_variables { 2 ≤ n }
    requires at_most_8_variables { n ≤ 8 }
    ensures change { IfOk result (let m = F.meaning field.now in IsMoveTo m n 16 (less_y n m.scalars (m.value v))) }
    ensures range { OnFault result (let m = F.meaning field.now in AnyHigh n m.scalars (single_work n m.scalars (less_y n m.scalars (m.value v)))) }
{
    let zero = field.zero();
    let one = field.one();
    let opposite = field.neg(v);
    plane_change(alloc, field, n, (one, opposite), (zero, one))
}

/// The change after which the line `x - v*y` is y: it puts `y + v*x` for x, and x for y.
///
/// Errors: `Range` only where the inverse of its linear part has height 2^120 or more.
pub fn root_change<F: Field>(
    alloc: Global,
    field: &F,
    n: u8,
    v: F::Elem,
) -> Result<ChangeOf<F>, Fault>
    requires ring { F.is_ring field.now }
    requires elem { (F.meaning field.now).is_elem v }
    requires two_variables { 2 ≤ n }
    requires at_most_8_variables { n ≤ 8 }
    ensures change { IfOk result (let m = F.meaning field.now in IsMoveTo m n 16 (root_to_y n m.scalars (m.value v))) }
    ensures range { OnFault result (let m = F.meaning field.now in AnyHigh n m.scalars (single_work n m.scalars (root_to_y n m.scalars (m.value v)))) }
{
    let zero = field.zero();
    let one = field.one();
    plane_change(alloc, field, n, (v, one), (one, zero))
}

/// The change after which the lines `x - u*y` and `x - v*y` are multiples of x and y: it puts
/// `v*x - u*y` for x and `x - y` for y.
///
/// Errors: `Range` only where the inverse of its linear part has height 2^120 or more.
pub fn roots_change<F: Field>(
    alloc: Global,
    field: &F,
    n: u8,
    u: F::Elem,
    v: F::Elem,
) -> Result<ChangeOf<F>, Fault>
    requires ring { F.is_ring field.now }
    requires first_elem { (F.meaning field.now).is_elem u }
    requires second_elem { (F.meaning field.now).is_elem v }
    requires different { let m = F.meaning field.now in m.value u ≢ m.value v }
    requires two_variables { 2 ≤ n }
    requires at_most_8_variables { n ≤ 8 }
    ensures change { IfOk result (let m = F.meaning field.now in IsMoveTo m n 16 (roots_to_axes n m.scalars (m.value u) (m.value v))) }
    ensures range { OnFault result (let m = F.meaning field.now in
        AnyHigh n m.scalars (single_work n m.scalars (roots_to_axes n m.scalars (m.value u) (m.value v)))) }
{
    let one = field.one();
    let minus = field.neg(one);
    let opposite = field.neg(u);
    plane_change(alloc, field, n, (v, opposite), (one, minus))
}

/// One change and then the next one.
///
/// Errors: `Range` only where composing the moves up to degree 16 forms a number of height 2^120 or
/// more.
pub fn two_changes<R: Ring>(
    alloc: Global,
    ring: &R,
    first: &ChangeOf<R>,
    next: &ChangeOf<R>,
) -> Result<ChangeOf<R>, Fault>
    requires ring { R.is_ring ring.now }
    requires first_change { IsChange (R.meaning ring.now) first.now }
    requires next_change { IsChange (R.meaning ring.now) next.now }
    requires same_variables { next.now.n ≡ first.now.n }
    ensures change { IfOk result (λ c. let m = R.meaning ring.now in let n = first.now.n in (u v : Move n (R.Value ring.now))
        → IsMoveTo m n 16 u first.now → IsMoveTo m n 16 v next.now → IsMoveTo m n 16 (compose n m.scalars 16 u v) c) }
    ensures range { OnFault result (let m = R.meaning ring.now in let n = first.now.n in (u v : Move n (R.Value ring.now))
        → IsMoveTo m n 16 u first.now → IsMoveTo m n 16 v next.now → AnyHigh n m.scalars (composing 16 u v ∷ [])) }
{
    then(alloc, ring, first, next, ORDER)
}
