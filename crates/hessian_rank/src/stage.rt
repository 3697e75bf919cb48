//! Closing one square after the other.

ghost use Rattle.std.specs.Prelude.{◌≡◌, ◌<◌, ◌≤◌, true, None, IfOk};
ghost use Rattle.ring_law.specs.Refusals.{OnFault};
ghost use Rattle.poly_law.specs.Polynomials.{StartsAtIn};
ghost use Rattle.jet_law.specs.Terms.{poly_of};
ghost use Rattle.jet_law.specs.Canonical.{jet};
ghost use Rattle.jet_poly.specs.Jets.{IsJet};
ghost use Rattle.coord_change.specs.Changes.{entry_of};
ghost use Rattle.coord_change.specs.Moves.{Move};
ghost use Rattle.move_law.specs.Hessian.{started as start_of, moved as moved_by, moved_work, has_entry, close as closed_at, close_work, next_square as next_of, next_work, squares as squares_of, squares_work_after};
ghost use Rattle.kill_law.specs.Kill.{first};
ghost use Rattle.split_lemma.specs.Splits.{AnyHigh};
ghost use Rattle.hessian_rank.specs.Sound.{Has, IsLinear, IsSound};
ghost use Rattle.hessian_rank.specs.Stages.{stage_of, IsStage, IsStageFor, IsRegular};

use crate::composing::{ORDER, composed, linear_change};
use crate::matrix::completing_matrix;
use crate::pivot::{first_pair, first_square};
use coord_change::{Change, carry, identity, unit_matrix};
use jet_poly::{Jet, JetOf, cut};
use ring_law::{Fault, Field};
use std::alloc::Global;

/// The open and the closed variables, the moves so far as one, and the terms of degree 2 that they
/// have reached.
#[derive(Drop)]
pub(crate) struct Stage<E> {
    pub(crate) opened: Vec<u8>,
    pub(crate) closed: Vec<u8>,
    pub(crate) change: Change<E>,
    pub(crate) form: Jet<E>,
}

/// A further move is made, the linear one of a matrix.
fn moved<F: Field>(
    alloc: Global,
    field: &F,
    stage: Stage<F::Elem>,
    matrix: &[F::Elem],
) -> Result<Stage<F::Elem>, Fault>
    requires ring { F.is_ring field.now }
    requires stage { IsStage (F.meaning field.now) stage.change.n stage }
    requires matrix { IsRegular (F.meaning field.now) stage.change.n matrix.now }
    ensures moved { let m = F.meaning field.now in let n = stage.change.n in IfOk result (λ next. (move : Move n (F.Value field.now)) → IsLinear n m.scalars (entry_of m n matrix.now) move → IsStageFor m n (moved_by n m.scalars move (stage_of m n stage)) next) }
    ensures range { let m = F.meaning field.now in let n = stage.change.n in (move : Move n (F.Value field.now)) → IsLinear n m.scalars (entry_of m n matrix.now) move → OnFault result (AnyHigh n m.scalars (moved_work n m.scalars move (stage_of m n stage))) }
{
    let next = linear_change(alloc, field, stage.change.n, matrix)?;
    let change = composed(alloc, field, &stage.change, &next)?;
    let form = carry(alloc, field, &next, &stage.form, 2)?;
    let _ = form.terms();
    Ok(Stage {
        opened: stage.opened,
        closed: stage.closed,
        change,
        form,
    })
}

/// The square of x(i) is completed, and x(i) is closed.
fn close<F: Field>(
    alloc: Global,
    field: &F,
    stage: Stage<F::Elem>,
    i: u8,
) -> Result<Stage<F::Elem>, Fault>
    requires ring { F.is_ring field.now }
    requires stage { IsStage (F.meaning field.now) stage.change.n stage }
    requires sound { let m = F.meaning field.now in let n = stage.change.n in IsSound n m.scalars (stage_of m n stage) }
    requires open { Has stage.opened.items i }
    requires square { let m = F.meaning field.now in let n = stage.change.n in has_entry n m.scalars (stage_of m n stage) i i ≡ true }
    ensures closed { let m = F.meaning field.now in let n = stage.change.n in IfOk result (IsStageFor m n (closed_at n m.scalars i (stage_of m n stage))) }
    ensures range { let m = F.meaning field.now in let n = stage.change.n in OnFault result (AnyHigh n m.scalars (close_work n m.scalars i (stage_of m n stage))) }
{
    let mut opened = Vec::new(alloc);
    opened.extend_from_slice(&stage.opened)?;
    opened.retain(|j| *j != i);
    let matrix = completing_matrix(alloc, field, &stage, &opened, i)?;
    let next = moved(alloc, field, stage, &matrix)?;
    let mut closed = next.closed;
    closed.push(i)?;
    Ok(Stage {
        opened,
        closed,
        change: next.change,
        form: next.form,
    })
}

/// Where no open variable has a square: of the first pair with a product, the first variable is
/// closed, after the other one went to itself and the first.
fn mix<F: Field>(alloc: Global, field: &F, stage: Stage<F::Elem>) -> Result<Stage<F::Elem>, Fault>
    requires ring { F.is_ring field.now }
    requires stage { IsStage (F.meaning field.now) stage.change.n stage }
    requires sound { let m = F.meaning field.now in let n = stage.change.n in IsSound n m.scalars (stage_of m n stage) }
    requires no_square { let m = F.meaning field.now in let n = stage.change.n in first (λ i. has_entry n m.scalars (stage_of m n stage) i i) stage.opened.items ≡ None }
    ensures next { let m = F.meaning field.now in let n = stage.change.n in IfOk result (IsStageFor m n (next_of n m.scalars (stage_of m n stage))) }
    ensures range { let m = F.meaning field.now in let n = stage.change.n in OnFault result (AnyHigh n m.scalars (next_work n m.scalars (stage_of m n stage))) }
{
    let pair = match first_pair(field, &stage.form, &stage.opened) {
        Some(pair) => pair,
        None => return Ok(stage),
    };
    let n = stage.change.n;
    let mut matrix = unit_matrix(alloc, field, n)?;
    matrix[usize::from(n) * usize::from(pair.1) + usize::from(pair.0)] = field.one();
    let mixed = moved(alloc, field, stage, &matrix)?;
    let next = close(alloc, field, mixed, pair.0)?;
    Ok(next)
}

/// One more square is closed, where there is one.
fn next_square<F: Field>(
    alloc: Global,
    field: &F,
    stage: Stage<F::Elem>,
) -> Result<Stage<F::Elem>, Fault>
    requires ring { F.is_ring field.now }
    requires stage { IsStage (F.meaning field.now) stage.change.n stage }
    requires sound { let m = F.meaning field.now in let n = stage.change.n in IsSound n m.scalars (stage_of m n stage) }
    ensures next { let m = F.meaning field.now in let n = stage.change.n in IfOk result (IsStageFor m n (next_of n m.scalars (stage_of m n stage))) }
    ensures range { let m = F.meaning field.now in let n = stage.change.n in OnFault result (AnyHigh n m.scalars (next_work n m.scalars (stage_of m n stage))) }
{
    match first_square(field, &stage.form, &stage.opened) {
        Some(i) => close(alloc, field, stage, i),
        None => mix(alloc, field, stage),
    }
}

/// All variables are open.
fn started<F: Field>(alloc: Global, field: &F, f: &JetOf<F>) -> Result<Stage<F::Elem>, Fault>
    requires ring { F.is_ring field.now }
    requires jet { IsJet (F.meaning field.now) f.now }
    requires variables { 1 ≤ f.now.n }
    requires at_most_8_variables { f.now.n ≤ 8 }
    ensures start { let m = F.meaning field.now in let n = f.now.n in IfOk result (IsStageFor m n (start_of n m.scalars (jet n m.scalars 2 (poly_of n m.value f.now.terms)))) }
    ensures memory { OnFault result ⊥ }
{
    let form = cut(alloc, field, f, 2)?;
    let _ = form.terms();
    let n = f.n();
    let change = identity(alloc, field, n, ORDER)?;
    let mut opened = Vec::new(alloc);
    for i in 0..n {
        opened.push(i)?;
    }
    Ok(Stage {
        opened,
        closed: Vec::new(alloc),
        change,
        form,
    })
}

/// The squares of the terms of degree 2 of a jet are closed.
pub(crate) fn squares<F: Field>(
    alloc: Global,
    field: &F,
    f: &JetOf<F>,
) -> Result<Stage<F::Elem>, Fault>
    requires ring { F.is_ring field.now }
    requires jet { IsJet (F.meaning field.now) f.now }
    requires variables { 1 ≤ f.now.n }
    requires at_most_8_variables { f.now.n ≤ 8 }
    requires low { let m = F.meaning field.now in let n = f.now.n in StartsAtIn n m.scalars.ops 2 (poly_of n m.value f.now.terms) }
    ensures squares { let m = F.meaning field.now in let n = f.now.n in IfOk result (IsStageFor m n (squares_of n m.scalars (jet n m.scalars 2 (poly_of n m.value f.now.terms)))) }
    ensures range { let m = F.meaning field.now in let n = f.now.n in OnFault result (AnyHigh n m.scalars (squares_work_after n m.scalars n (start_of n m.scalars (jet n m.scalars 2 (poly_of n m.value f.now.terms))))) }
{
    let n = f.n();
    let mut stage = started(alloc, field, f)?;
    for k in 0..n {
        let _ = k;
        let next = next_square(alloc, field, stage)?;
        stage = next;
    }
    Ok(stage)
}
