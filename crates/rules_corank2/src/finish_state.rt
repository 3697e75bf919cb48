//! A finish under way, and its moves.

ghost use Rattle.std.specs.Prelude.{◌≡◌, ◌<◌, ◌≤◌, ◌++◌, [], ◌∷◌, List, IfOk, IfSome, All, length, map};
ghost use Rattle.ring_law.specs.Refusals.{OnFault};
ghost use Rattle.poly_law.specs.Polynomials.{HaveNoConstant};
ghost use Rattle.jet_law.specs.Canonical.{jet};
ghost use Rattle.jet_subst.specs.Parts.{IsPart, part_of};
ghost use Rattle.coord_change.specs.Changes.{IsChange};
ghost use Rattle.coord_change.specs.Inverses.{HasNoKernel, InverseIsHigh};
ghost use Rattle.coord_change.specs.Linear.{linear_part_of, order_of};
ghost use Rattle.coord_change.specs.Moves.{Move, move_from, put};
ghost use Rattle.coord_change.specs.Carries.{composite};
ghost use Rattle.coord_change.specs.MoveJets.{IsMoveExactly};
ghost use Rattle.kill_table.specs.Moves.{IsMoveTo};
ghost use Rattle.move_law.specs.Finish.{Finishing as Underway, with_move};
ghost use Rattle.move_law.specs.Work.{Work, composing_work};
ghost use Rattle.split_lemma.specs.Splits.{AnyHigh};
ghost use Rattle.rules_corank2.specs.Finishes.{IsCompositeOf, IsUnderWay, IsStanding, IsFinishingHigh};

use coord_change::{Change, ChangeError, ChangeOf, carry, from_parts, then};
use jet_poly::{Jet, JetOf, cut};
use ring_law::{Fault, Field, Ring};
use sqlite_items::Items;
use std::alloc::Global;

/// A finish under way: the composite of its moves, or `None` before the first, and the jet that
/// they have reached.
#[derive(Drop)]
pub struct Finishing<E> {
    pub change: Option<Change<E>>,
    pub form: Jet<E>,
}

/// The change up to degree k.
pub(crate) fn up_to<R: Ring>(
    alloc: Global,
    ring: &R,
    c: &ChangeOf<R>,
    k: u8,
) -> Result<ChangeOf<R>, Fault>
    requires ring { R.is_ring ring.now }
    requires change { IsChange (R.meaning ring.now) c.now }
    requires order_at_least_1 { 1 ≤ k }
    requires order_at_most_17 { k ≤ 17 }
    ensures change { IfOk result (let m = R.meaning ring.now in let n = c.now.n in IsMoveExactly m n k (map (jet n m.scalars k) (move_from m n c.now))) }
    ensures memory { OnFault result ⊥ }
{
    let mut parts = Vec::new(alloc);
    for part in c.parts.as_slice() {
        let jet = cut(alloc, ring, part, k)?;
        let _ = jet.terms();
        parts.push(jet)?;
    }
    let inverse = Items::from_slice(alloc, c.inverse.as_slice())?;
    Ok(Change {
        n: c.n,
        order: k,
        parts: Items::from_vec(parts),
        inverse,
    })
}

/// The change with these parts, whose linear part is invertible.
///
/// Errors: `Range` only where the plain row reduction of the linear part has height 2^120 or more.
pub(crate) fn change_of<F: Field>(
    alloc: Global,
    field: &F,
    parts: &[JetOf<F>],
) -> Result<ChangeOf<F>, Fault>
    requires ring { F.is_ring field.now }
    requires given { 0 < length parts.now }
    requires at_most_8_parts { length parts.now ≤ 8 }
    requires parts { All (IsPart (F.meaning field.now) (length parts.now)) parts.now }
    requires orders { All (λ p. p.order ≡ order_of parts.now) parts.now }
    requires order_at_least_1 { 1 ≤ order_of parts.now }
    requires order_at_most_17 { order_of parts.now ≤ 17 }
    requires no_constant { let m = F.meaning field.now in let n = length parts.now in HaveNoConstant n m.scalars.ops n (part_of n m.value parts.now) }
    requires regular { let m = F.meaning field.now in let n = length parts.now in HasNoKernel m.scalars.ops n (linear_part_of m n parts.now) }
    ensures change { IfOk result (IsChange (F.meaning field.now)) }
    ensures n { IfOk result (λ c. c.n ≡ length parts.now) }
    ensures order { IfOk result (λ c. c.order ≡ order_of parts.now) }
    ensures parts { IfOk result (λ c. c.parts ≡ parts.now) }
    ensures range { OnFault result (let m = F.meaning field.now in let n = length parts.now in InverseIsHigh m.scalars n (linear_part_of m n parts.now)) }
{
    match from_parts(alloc, field, parts) {
        Ok(change) => Ok(change),
        Err(ChangeError::Singular { kernel: _ }) => unreachable!(),
        Err(ChangeError::Range(e)) => Err(Fault::Range(e)),
        Err(ChangeError::NoMemory) => Err(Fault::NoMemory),
    }
}

/// One change, where there is one, and then the next one, up to degree k.
///
/// Errors: `Range` only where composing the moves forms a number of height 2^120 or more.
fn composed<R: Ring>(
    alloc: Global,
    ring: &R,
    first: Option<ChangeOf<R>>,
    next: ChangeOf<R>,
    k: u8,
) -> Result<ChangeOf<R>, Fault>
    requires ring { R.is_ring ring.now }
    requires first { IfSome first (λ c. IsChange (R.meaning ring.now) c × (c.n ≡ next.n)) }
    requires next { IsChange (R.meaning ring.now) next }
    requires order_at_least_1 { 1 ≤ k }
    requires order_at_most_17 { k ≤ 17 }
    ensures change { IfOk result (λ c. let m = R.meaning ring.now in let n = next.n in (moves : List (Move n (R.Value ring.now))) (move : Move n (R.Value ring.now))
        → IsCompositeOf m n k moves first → IsMoveTo m n k move next → IsMoveExactly m n k (composite n m.scalars k (moves ++ move ∷ [])) c) }
    ensures range { OnFault result (let m = R.meaning ring.now in let n = next.n in (moves : List (Move n (R.Value ring.now))) (move : Move n (R.Value ring.now))
        → All (λ mv. HaveNoConstant n m.scalars.ops n (put n m.scalars mv)) moves
        → IsCompositeOf m n k moves first → IsMoveTo m n k move next → AnyHigh n m.scalars (composing_work n m.scalars k (moves ++ move ∷ []))) }
{
    match first {
        None => Ok(next),
        Some(first) => then(alloc, ring, &first, &next, k),
    }
}

/// A further move is made.
///
/// Errors: `Range` only where carrying the jet by the move, or composing the moves, forms a number
/// of height 2^120 or more.
pub fn moved<R: Ring>(
    alloc: Global,
    ring: &R,
    state: Finishing<R::Elem>,
    change: ChangeOf<R>,
) -> Result<Finishing<R::Elem>, Fault>
    requires ring { R.is_ring ring.now }
    requires standing { IsStanding (R.meaning ring.now) state }
    requires change { IsChange (R.meaning ring.now) change }
    requires variables { change.n ≡ state.form.n }
    ensures moved { IfOk result (λ next. let m = R.meaning ring.now in let n = state.form.n in let o = state.form.order in
        (g : Underway n (R.Value ring.now)) (move : Move n (R.Value ring.now)) (finding : List (Work n (R.Value ring.now)))
        → IsUnderWay m n o g state → IsMoveTo m n o move change → IsUnderWay m n o (with_move n m.scalars o finding move g) next) }
    ensures range { OnFault result (let m = R.meaning ring.now in let n = state.form.n in let o = state.form.order in
        (g : Underway n (R.Value ring.now)) (move : Move n (R.Value ring.now)) (finding : List (Work n (R.Value ring.now)))
        → IsUnderWay m n o g state → IsMoveTo m n o move change → IsFinishingHigh n m.scalars o (with_move n m.scalars o finding move g)) }
{
    let order = state.form.order();
    let form = carry(alloc, ring, &change, &state.form, order)?;
    let _ = form.terms();
    let change = composed(alloc, ring, state.change, change, order)?;
    Ok(Finishing {
        change: Some(change),
        form,
    })
}
