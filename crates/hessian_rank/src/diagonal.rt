//! The move of the Hessian, and the corank.

ghost use Rattle.std.specs.Prelude.{◌≡◌, ◌≤◌, [], ◌∷◌, ◌++◌, map, All, IfOk};
ghost use Rattle.ring_theory.specs.Height.{rational_scalars};
ghost use Rattle.ring_law.specs.Fraction.{rational_meaning};
ghost use Rattle.ring_law.specs.Refusals.{OnFault};
ghost use Rattle.poly_law.specs.Polynomials.{StartsAtIn};
ghost use Rattle.jet_law.specs.Canonical.{jet};
ghost use Rattle.jet_poly.specs.Jets.{IsJet, polynomial_of};
ghost use Rattle.coord_change.specs.Moves.{move_from};
ghost use Rattle.coord_change.specs.Carries.{compose};
ghost use Rattle.move_law.specs.Hessian.{entry as entry_of, permuting, hessian_work};
ghost use Rattle.move_law.specs.Work.{inverted, composed as composing};
ghost use Rattle.coord_change.specs.MoveJets.{IsMoveExactly};
ghost use Rattle.split_lemma.specs.Splits.{AnyHigh};
ghost use Rattle.hessian_rank.specs.Sound.{IsSound};
ghost use Rattle.hessian_rank.specs.Stages.{stage_of, IsStage};
ghost use Rattle.hessian_rank.specs.Answers.{IsDiagonal};

use crate::composing::{composed, linear_change};
use crate::matrix::permuting_matrix;
use crate::pivot::entry;
use crate::stage::{Stage, squares};
use coord_change::{Change, ChangeOf};
use jet_poly::Jet;
use ring_law::{Fault, Field, Frac, Ring};
use small_frac::Rationals;
use sqlite_items::Items;
use std::alloc::Global;

/// A change of coordinates that makes the terms of degree 2 a sum of squares of the last
/// variables: the change, the coefficients of these squares, and the number of the other variables.
#[derive(Drop)]
pub struct Diagonal {
    pub change: Change<Frac>,
    pub squares: Items<Frac>,
    pub corank: u8,
}

/// The coefficients of the squares of the closed variables, in the order of closing.
fn coefficients<R: Ring>(
    alloc: Global,
    ring: &R,
    stage: &Stage<R::Elem>,
) -> Result<Vec<R::Elem>, Fault>
    requires ring { R.is_ring ring.now }
    requires stage { IsStage (R.meaning ring.now) stage.now.change.n stage.now }
    requires sound { let m = R.meaning ring.now in let n = stage.now.change.n in IsSound n m.scalars (stage_of m n stage.now) }
    ensures elems { IfOk result (λ v. All (R.meaning ring.now).is_elem v.items) }
    ensures values { let m = R.meaning ring.now in let n = stage.now.change.n in IfOk result (λ v. map m.value v.items ≡ map (λ i. entry_of n m.scalars (stage_of m n stage.now) i i) stage.now.closed.items) }
    ensures memory { OnFault result ⊥ }
{
    let mut all = Vec::new(alloc);
    for i in &stage.closed {
        all.push(entry(ring, &stage.form, *i, *i))?;
    }
    Ok(all)
}

/// The moves so far, and then the one after which the open variables come first, and then the
/// closed ones in the order of closing.
fn sorted<F: Field>(alloc: Global, field: &F, stage: &Stage<F::Elem>) -> Result<ChangeOf<F>, Fault>
    requires ring { F.is_ring field.now }
    requires stage { IsStage (F.meaning field.now) stage.now.change.n stage.now }
    requires sound { let m = F.meaning field.now in let n = stage.now.change.n in IsSound n m.scalars (stage_of m n stage.now) }
    ensures change { let m = F.meaning field.now in let n = stage.now.change.n in let q = stage_of m n stage.now in IfOk result (IsMoveExactly m n 16 (compose n m.scalars 16 q.change (permuting n m.scalars (q.opened ++ q.closed)))) }
    ensures range { let m = F.meaning field.now in let n = stage.now.change.n in let q = stage_of m n stage.now in let last = permuting n m.scalars (q.opened ++ q.closed) in OnFault result (AnyHigh n m.scalars (inverted last ∷ composing 16 q.change last ∷ [])) }
{
    let mut order = Vec::new(alloc);
    order.extend_from_slice(&stage.opened)?;
    order.extend_from_slice(&stage.closed)?;
    let matrix = permuting_matrix(alloc, field, &order)?;
    let last = linear_change(alloc, field, stage.change.n, &matrix)?;
    let change = composed(alloc, field, &stage.change, &last)?;
    Ok(change)
}

/// The move of the Hessian of a jet without terms of degree below 2, of order 16, with the
/// coefficients of the squares that it makes, and the corank.
///
/// Errors: `Range` only where an operation of the move has height 2^120 or more.
pub fn diagonalise(alloc: Global, f: &Jet<Frac>) -> Result<Diagonal, Fault>
    requires jet { IsJet rational_meaning f.now }
    requires variables { 1 ≤ f.now.n }
    requires at_most_8_variables { f.now.n ≤ 8 }
    requires order_at_least_2 { 2 ≤ f.now.order }
    requires order_at_most_16 { f.now.order ≤ 16 }
    requires low { StartsAtIn f.now.n rational_scalars.ops 2 (polynomial_of rational_meaning f.now) }
    ensures diagonal { IfOk result (IsDiagonal f.now.n (jet f.now.n rational_scalars 2 (polynomial_of rational_meaning f.now))) }
    ensures range { OnFault result (AnyHigh f.now.n rational_scalars (hessian_work f.now.n rational_scalars (jet f.now.n rational_scalars 2 (polynomial_of rational_meaning f.now)))) }
{
    let stage = squares(alloc, &Rationals, f)?;
    let change = sorted(alloc, &Rationals, &stage)?;
    let values = coefficients(alloc, &Rationals, &stage)?;
    let corank = stage.opened.len() as u8;
    Ok(Diagonal {
        change,
        squares: Items::from_vec(values),
        corank,
    })
}
