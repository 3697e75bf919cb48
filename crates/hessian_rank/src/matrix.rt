//! The matrices of the moves of the Hessian, row after row.

ghost use Rattle.std.specs.Prelude.{◌≡◌, ◌≢◌, ℕ, ◌<◌, ◌≤◌, [], ◌∷◌, true, length, IfOk};
ghost use Rattle.ring_law.specs.Refusals.{OnFault, OnRange};
ghost use Rattle.poly_law.specs.Sums.{unit_at};
ghost use Rattle.mono_exp.proofs.Lists.{Each};
ghost use Rattle.jet_poly.specs.Jets.{whole};
ghost use Rattle.move_law.specs.Work.{product, inverse};
ghost use Rattle.move_law.specs.Hessian.{others as others_of, has_entry, completing, close_work, permuting};
ghost use Rattle.split_lemma.specs.Splits.{AnyHigh};
ghost use Rattle.hessian_rank.specs.Sound.{Has, Distinct, IsSound};
ghost use Rattle.hessian_rank.specs.Stages.{stage_of, IsStage, IsMatrixOf};

use crate::pivot::entry;
use crate::stage::Stage;
use coord_change::unit_matrix;
use ring_law::{Fault, Field, Frac, Range, Ring};
use std::alloc::Global;

/// The inverse of twice a number that is not zero.
fn half_inverse<F: Field>(field: &F, a: F::Elem) -> Result<F::Elem, Range>
    requires ring { F.is_ring field.now }
    requires elem { (F.meaning field.now).is_elem a }
    requires unit { (F.meaning field.now).value a ≢ (F.meaning field.now).scalars.ops.zero }
    ensures elem { IfOk result (F.meaning field.now).is_elem }
    ensures value { IfOk result (λ x. let m = F.meaning field.now in m.value x ≡ m.scalars.inverse (m.scalars.ops.mul (whole m.scalars 2) (m.value a))) }
    ensures range { OnRange result (let m = F.meaning field.now in
        AnyHigh 0 m.scalars (product (whole m.scalars 2) (m.value a) ∷ inverse (m.scalars.ops.mul (whole m.scalars 2) (m.value a)) ∷ [])) }
{
    let two = field.inject(Frac { num: 2, den: 1 });
    let double = field.mul(two, a)?;
    match field.inv(double)? {
        Some(x) => Ok(x),
        None => unreachable!(),
    }
}

/// The matrix of the move that completes the square of x(i).
pub(crate) fn completing_matrix<F: Field>(
    alloc: Global,
    field: &F,
    stage: &Stage<F::Elem>,
    others: &[u8],
    i: u8,
) -> Result<Vec<F::Elem>, Fault>
    requires ring { F.is_ring field.now }
    requires stage { IsStage (F.meaning field.now) stage.now.change.n stage.now }
    requires sound { let m = F.meaning field.now in let n = stage.now.change.n in IsSound n m.scalars (stage_of m n stage.now) }
    requires open { Has stage.now.opened.items i }
    requires square { let m = F.meaning field.now in let n = stage.now.change.n in has_entry n m.scalars (stage_of m n stage.now) i i ≡ true }
    requires others { others.now ≡ others_of i stage.now.opened.items }
    ensures matrix { IfOk result (λ v. let m = F.meaning field.now in let n = stage.now.change.n in IsMatrixOf m n (completing n m.scalars i (stage_of m n stage.now)) v.items) }
    ensures range { OnFault result (let m = F.meaning field.now in let n = stage.now.change.n in AnyHigh n m.scalars (close_work n m.scalars i (stage_of m n stage.now))) }
{
    let n = stage.change.n;
    let square = entry(field, &stage.form, i, i);
    let inverse = half_inverse(field, square)?;
    let mut matrix = unit_matrix(alloc, field, n)?;
    for j in others {
        let product = entry(field, &stage.form, i, *j);
        let quotient = field.mul(product, inverse)?;
        matrix[usize::from(n) * usize::from(i) + usize::from(*j)] = field.neg(quotient);
    }
    Ok(matrix)
}

/// 1 where i = j, and 0 elsewhere.
fn unit_entry<R: Ring>(ring: &R, i: usize, j: usize) -> R::Elem
    requires { R.is_ring ring.now }
    ensures elem { (R.meaning ring.now).is_elem result }
    ensures value { (R.meaning ring.now).value result ≡ unit_at (R.meaning ring.now).scalars.ops i j }
{
    if i == j { ring.one() } else { ring.zero() }
}

/// The matrix of the move after which the k-th of these variables is x(k), for each k.
pub(crate) fn permuting_matrix<R: Ring>(
    alloc: Global,
    ring: &R,
    order: &[u8],
) -> Result<Vec<R::Elem>, Fault>
    requires ring { R.is_ring ring.now }
    requires at_most_8_variables { length order.now ≤ 8 }
    requires inside { Each (λ i. i < length order.now) order.now }
    requires distinct { Distinct order.now }
    requires onto { (i : ℕ) → i < length order.now → Has order.now i }
    ensures matrix { IfOk result (λ v. let m = R.meaning ring.now in let n = length order.now in IsMatrixOf m n (permuting n m.scalars order.now) v.items) }
    ensures memory { OnFault result ⊥ }
{
    let n = order.len();
    let mut matrix = Vec::new(alloc);
    for place in 0..n * n {
        let entry = unit_entry(ring, place / n, usize::from(order[place % n]));
        matrix.push(entry)?;
    }
    Ok(matrix)
}
