//! A linear move after the moves so far.

ghost use Rattle.std.specs.Prelude.{◌≡◌, ◌<◌, ◌≤◌, [], ◌∷◌, IfOk};
ghost use Rattle.ring_law.specs.Refusals.{OnFault};
ghost use Rattle.coord_change.specs.Changes.{IsChange, entry_of};
ghost use Rattle.coord_change.specs.Inverses.{InverseIsHigh};
ghost use Rattle.coord_change.specs.Moves.{Move, move_from};
ghost use Rattle.coord_change.specs.Carries.{compose};
ghost use Rattle.move_law.specs.Work.{composed as composing};
ghost use Rattle.coord_change.specs.MoveJets.{IsMoveExactly};
ghost use Rattle.split_lemma.specs.Splits.{AnyHigh};
ghost use Rattle.hessian_rank.specs.Stages.{IsRegular, IsLinearChange, PutsSame};

use coord_change::{Change, ChangeError, ChangeOf, linear, then};
use ring_law::{Fault, Field};
use std::alloc::Global;

/// The order of a move, up to which it is exact.
pub(crate) const ORDER: u8 = 16;

/// The linear change of coordinates of a matrix with n rows that takes no vector but zero to zero.
pub(crate) fn linear_change<F: Field>(
    alloc: Global,
    field: &F,
    n: u8,
    matrix: &[F::Elem],
) -> Result<ChangeOf<F>, Fault>
    requires ring { F.is_ring field.now }
    requires given { 0 < n }
    requires at_most_8_variables { n ≤ 8 }
    requires matrix { IsRegular (F.meaning field.now) n matrix.now }
    ensures change { IfOk result (let m = F.meaning field.now in IsLinearChange m n (entry_of m n matrix.now)) }
    ensures range { OnFault result (let m = F.meaning field.now in InverseIsHigh m.scalars n (entry_of m n matrix.now)) }
{
    match linear(alloc, field, n, ORDER, matrix) {
        Ok(change) => Ok(change),
        Err(ChangeError::Singular { kernel: _ }) => unreachable!(),
        Err(ChangeError::Range(e)) => Err(Fault::Range(e)),
        Err(ChangeError::NoMemory) => Err(Fault::NoMemory),
    }
}

/// One change and then the next one.
pub(crate) fn composed<F: Field>(
    alloc: Global,
    field: &F,
    first: &ChangeOf<F>,
    next: &ChangeOf<F>,
) -> Result<ChangeOf<F>, Fault>
    requires ring { F.is_ring field.now }
    requires first_change { IsChange (F.meaning field.now) first.now }
    requires next_change { IsChange (F.meaning field.now) next.now }
    requires same_variables { next.now.n ≡ first.now.n }
    ensures change { let m = F.meaning field.now in let n = first.now.n in IfOk result (λ c. (move : Move n (F.Value field.now)) → PutsSame m n move next.now → IsMoveExactly m n 16 (compose n m.scalars 16 (move_from m n first.now) move) c) }
    ensures range { let m = F.meaning field.now in let n = first.now.n in (move : Move n (F.Value field.now)) → PutsSame m n move next.now → OnFault result (AnyHigh n m.scalars (composing 16 (move_from m n first.now) move ∷ [])) }
{
    let change = then(alloc, field, first, next, ORDER)?;
    // The terms of each part stand in the monomial order.
    for part in change.parts.as_slice() {
        let _ = part.terms();
    }
    Ok(change)
}
