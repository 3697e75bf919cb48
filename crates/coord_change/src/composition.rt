//! The composition of changes of coordinates.

ghost use Rattle.std.specs.Prelude.{◌≡◌, ℕ, ◌<◌, ◌≤◌, IfOk};
ghost use Rattle.poly_law.specs.Polynomials.{SameIn, cut_in, substitute};
ghost use Rattle.ring_law.specs.Refusals.{OnFault};
ghost use Rattle.jet_subst.specs.Parts.{part_of};
ghost use Rattle.coord_change.specs.Changes.{IsChange, IsCompositionHigh};
ghost use Rattle.coord_change.specs.Moves.{move_from};
ghost use Rattle.coord_change.specs.Carries.{compose};

use crate::change::{Change, ChangeOf};
use crate::matrix::matrix_product;
use crate::pullback::carry;
use ring_law::{Fault, Ring};
use sqlite_items::Items;
use std::alloc::Global;

/// The parts of `first` with `next` substituted, cut at degree k: a change of order k. Its matrix
/// is the matrix of `next` times that of `first`.
///
/// Errors: `Range` only where one of these substitutions, or a product or sum that the product of
/// the matrices forms, has height 2^120 or more.
pub fn then<R: Ring>(
    alloc: Global,
    ring: &R,
    first: &ChangeOf<R>,
    next: &ChangeOf<R>,
    k: u8,
) -> Result<ChangeOf<R>, Fault>
    requires ring { R.is_ring ring.now }
    requires first_change { IsChange (R.meaning ring.now) first.now }
    requires next_change { IsChange (R.meaning ring.now) next.now }
    requires same_variables { next.now.n ≡ first.now.n }
    requires order_at_least_1 { 1 ≤ k }
    requires order_at_most_17 { k ≤ 17 }
    ensures change { IfOk result (IsChange (R.meaning ring.now)) }
    ensures n { IfOk result (λ c. c.n ≡ first.now.n) }
    ensures order { IfOk result (λ c. c.order ≡ k) }
    ensures parts { IfOk result (λ c. let m = R.meaning ring.now in let n = first.now.n in (i : ℕ) → i < n → SameIn n m.scalars.ops (part_of n m.value c.parts i)
        (cut_in n m.scalars.ops k (substitute n n m.scalars.ops (part_of n m.value next.now.parts) (part_of n m.value first.now.parts i)))) }
    ensures moves { IfOk result (λ c. let m = R.meaning ring.now in let n = first.now.n in move_from m n c ≡ compose n m.scalars k (move_from m n first.now) (move_from m n next.now)) }
    ensures range { OnFault result (IsCompositionHigh (R.meaning ring.now) k first.now next.now) }
{
    let mut parts = Vec::new(alloc);
    for part in first.parts.as_slice() {
        let carried = carry(alloc, ring, next, part, k)?;
        let _terms = carried.terms();
        parts.push(carried)?;
    }
    let inverse = matrix_product(
        alloc,
        ring,
        first.n,
        next.inverse.as_slice(),
        first.inverse.as_slice(),
    )?;
    Ok(Change {
        n: first.n,
        order: k,
        parts: Items::from_vec(parts),
        inverse: Items::from_vec(inverse),
    })
}
