//! The move that splits off the square variables in one degree.

ghost use Rattle.std.specs.Prelude.{◌≡◌, ◌≢◌, ◌-◌, ◌<◌, ◌≤◌, IfOk, All, map, length};
ghost use Rattle.ring_law.specs.Refusals.{OnFault};
ghost use Rattle.jet_law.specs.Terms.{poly_of};
ghost use Rattle.jet_poly.specs.Jets.{IsJet};
ghost use Rattle.move_law.specs.Split.{split_put, split_work_at, split_move, split_work};
ghost use Rattle.coord_change.specs.MoveJets.{IsJetFor, IsMoveExactly};
ghost use Rattle.split_lemma.specs.Splits.{AnyHigh};

use crate::completing::completed_terms;
use coord_change::{Change, ChangeOf, monomial, unit_matrix};
use jet_poly::{Jet, JetOf};
use ring_law::{Fault, Field};
use sqlite_items::Items;
use std::alloc::Global;

/// The order of a move, up to which it is exact.
const ORDER: u8 = 16;

/// What the split move of degree d puts for variable w: the variable itself below the corank.
fn put<F: Field>(
    alloc: Global,
    field: &F,
    f: &JetOf<F>,
    squares: &[F::Elem],
    corank: u8,
    d: u8,
    w: u8,
) -> Result<JetOf<F>, Fault>
    requires ring { F.is_ring field.now }
    requires jet { IsJet (F.meaning field.now) f.now }
    requires at_most_8_variables { f.now.n ≤ 8 }
    requires order_at_most_16 { f.now.order ≤ 16 }
    requires corank { corank ≤ f.now.n }
    requires elems { All (F.meaning field.now).is_elem squares.now }
    requires count { length squares.now ≡ f.now.n - corank }
    requires units { All (λ x. (F.meaning field.now).value x ≢ (F.meaning field.now).scalars.ops.zero) squares.now }
    requires degree_at_least_3 { 3 ≤ d }
    requires inside { w < f.now.n }
    ensures part { IfOk result (let m = F.meaning field.now in let n = f.now.n in
        IsJetFor m n 16 (split_put n m.scalars corank d (map m.value squares.now) (poly_of n m.value f.now.terms) w)) }
    ensures range { OnFault result (let m = F.meaning field.now in let n = f.now.n in
        AnyHigh n m.scalars (split_work_at n m.scalars corank d (map m.value squares.now) (poly_of n m.value f.now.terms) w)) }
{
    if w < corank {
        let mut terms = Vec::new(alloc);
        terms.push((monomial(usize::from(w)), field.one()))?;
        return Ok(Jet::from_rising(f.n(), ORDER, terms));
    }
    let square = squares[usize::from(w - corank)];
    let terms = completed_terms(alloc, field, f, square, corank, d, w)?;
    Ok(Jet::from_rising(f.n(), ORDER, terms))
}

/// The split move of degree d of a jet, of order 16: each term of degree d with a square variable
/// belongs to its first one, x(w), and x(w) becomes x(w) less the sum of these terms, each divided
/// by 2 s x(w), s the coefficient of the square of x(w). The square variables are those from the
/// corank on, and `squares` are the coefficients of their squares.
///
/// Errors: `Range` only where an operation of the move has height 2^120 or more.
pub fn split<F: Field>(
    alloc: Global,
    field: &F,
    f: &JetOf<F>,
    squares: &[F::Elem],
    corank: u8,
    d: u8,
) -> Result<ChangeOf<F>, Fault>
    requires ring { F.is_ring field.now }
    requires jet { IsJet (F.meaning field.now) f.now }
    requires variables { 1 ≤ f.now.n }
    requires at_most_8_variables { f.now.n ≤ 8 }
    requires order_at_most_16 { f.now.order ≤ 16 }
    requires corank { corank ≤ f.now.n }
    requires elems { All (F.meaning field.now).is_elem squares.now }
    requires count { length squares.now ≡ f.now.n - corank }
    requires units { All (λ x. (F.meaning field.now).value x ≢ (F.meaning field.now).scalars.ops.zero) squares.now }
    requires degree_at_least_3 { 3 ≤ d }
    ensures change { IfOk result (let m = F.meaning field.now in let n = f.now.n in
        IsMoveExactly m n 16 (split_move n m.scalars corank d (map m.value squares.now) (poly_of n m.value f.now.terms))) }
    ensures range { OnFault result (let m = F.meaning field.now in let n = f.now.n in
        AnyHigh n m.scalars (split_work n m.scalars corank d (map m.value squares.now) (poly_of n m.value f.now.terms))) }
{
    let n = f.n();
    let mut parts = Vec::new(alloc);
    for w in 0..n {
        let part = put(alloc, field, f, squares, corank, d, w)?;
        parts.push(part)?;
    }
    let inverse = unit_matrix(alloc, field, n)?;
    Ok(Change {
        n,
        order: ORDER,
        parts: Items::from_vec(parts),
        inverse: Items::from_vec(inverse),
    })
}
