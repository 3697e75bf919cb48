//! The composite of the moves of several changes.

ghost use Rattle.std.specs.Prelude.{◌≡◌, ◌<◌, ◌≤◌, IfOk, All, length, map};
ghost use Rattle.ring_law.specs.Refusals.{OnFault};
ghost use Rattle.jet_law.specs.Canonical.{jet};
ghost use Rattle.coord_change.specs.Changes.{IsChange};
ghost use Rattle.coord_change.specs.Moves.{move_from};
ghost use Rattle.coord_change.specs.Carries.{composite};
ghost use Rattle.coord_change.specs.CarryHeights.{IsCompositeHigh};
ghost use Rattle.coord_change.specs.MoveJets.{IsMoveExactly};

use crate::change::{Change, ChangeOf};
use crate::composition::then;
use crate::parts::copied;
use crate::pullback::truncated;
use ring_law::{Fault, Ring};
use sqlite_items::Items;
use std::alloc::Global;

/// The change with its parts cut at degree k.
fn truncated_change<R: Ring>(
    alloc: Global,
    ring: &R,
    c: &ChangeOf<R>,
    k: u8,
) -> Result<ChangeOf<R>, Fault>
    requires ring { R.is_ring ring.now }
    requires change { IsChange (R.meaning ring.now) c.now }
    requires order_at_least_1 { 1 ≤ k }
    requires order_at_most_17 { k ≤ 17 }
    ensures change { IfOk result (let m = R.meaning ring.now in let n = c.now.n in IsMoveExactly m n k (map (jet n m.scalars k) (move_from m n c.now))) }
    ensures range { OnFault result ⊥ }
{
    let mut parts = Vec::new(alloc);
    for part in c.parts.as_slice() {
        let jet = truncated(alloc, ring, part, k)?;
        parts.push(jet)?;
    }
    let inverse = Items::from_slice(alloc, c.inverse.as_slice())?;
    Ok(Change {
        n: c.n,
        order: k,
        parts: Items::from_vec(parts),
        inverse,
    })
}

/// The composite of the moves of one change or more in n variables, up to degree k.
///
/// Errors: `Range` only where composing the moves, one after the other, up to that degree forms a
/// number of height 2^120 or more.
pub fn composed<R: Ring>(
    alloc: Global,
    ring: &R,
    n: u8,
    moves: &[ChangeOf<R>],
    k: u8,
) -> Result<ChangeOf<R>, Fault>
    requires ring { R.is_ring ring.now }
    requires given { 0 < length moves.now }
    requires changes { All (IsChange (R.meaning ring.now)) moves.now }
    requires variables { All (λ c. c.n ≡ n) moves.now }
    requires order_at_least_1 { 1 ≤ k }
    requires order_at_most_17 { k ≤ 17 }
    ensures change { IfOk result (let m = R.meaning ring.now in IsMoveExactly m n k (composite n m.scalars k (map (move_from m n) moves.now))) }
    ensures range { OnFault result (let m = R.meaning ring.now in IsCompositeHigh n m.scalars k (map (move_from m n) moves.now)) }
{
    let mut all = copied(alloc, &moves[0])?;
    for i in 0..moves.len() - 1 {
        let next = i + 1;
        let longer = then(alloc, ring, &all, &moves[next], k)?;
        all = longer;
    }
    let last = truncated_change(alloc, ring, &all, k)?;
    Ok(last)
}
