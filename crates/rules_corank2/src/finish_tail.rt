//! The tail of J, to T(2,3,r): two moves, and a graded kill after each.

ghost use Rattle.std.specs.Prelude.{◌≡◌, ◌≢◌, ◌+◌, ◌≤◌, IfOk};
ghost use Rattle.ring_law.specs.Refusals.{OnFault, OnRange};
ghost use Rattle.jet_law.specs.Terms.{poly_of};
ghost use Rattle.jet_poly.specs.Jets.{IsJet};
ghost use Rattle.move_law.specs.Finish.{tail_factor as tail_factor_of, tail_from as tail_from_of, tail_move, tail_of_J, triple_root_work};
ghost use Rattle.split_lemma.specs.Splits.{AnyHigh};
ghost use Rattle.rules_corank2.specs.Finishes.{IsStanding};
ghost use Rattle.rules_corank2.specs.Following.{IsTaken, IsTakingHigh, IsMovedBy, IsEnded, IsEndingHigh};
ghost use Rattle.rules_corank2.specs.Regular.{IsSecondRegular, IsTailRegular};
ghost use Rattle.rules_corank2.specs.Tails.{double_root, root_shift as root_shift_of, by_root, tail_divided, factor_work, IsTailMoveHigh};

use crate::finish_base::Finish;
use crate::finish_choice::{at, least, two_powers};
use crate::finish_jets::{one_term_jet, three_terms_jet, two_terms_jet};
use crate::finish_kills::graded_kill;
use crate::finish_moves::{multiple, number, over};
use crate::finish_puts::put_two;
use crate::finish_state::Finishing;
use jet_poly::JetOf;
use kill_table::Part;
use normal_forms::Family;
use ring_law::{Fault, Field, Range};
use std::alloc::Global;

/// 3q/(2p), with p the coefficient of x*y^4 and q that of y^6.
///
/// Errors: `Range` only where a product, the inverse or the quotient has height 2^120 or more.
fn root_shift<F: Field>(field: &F, f: &JetOf<F>) -> Result<F::Elem, Range>
    requires ring { F.is_ring field.now }
    requires jet { IsJet (F.meaning field.now) f.now }
    requires two_variables { 2 ≤ f.now.n }
    requires at_most_8_variables { f.now.n ≤ 8 }
    requires root { let m = F.meaning field.now in let n = f.now.n in double_root n m.scalars (poly_of n m.value f.now.terms) ≢ m.scalars.ops.zero }
    ensures elem { IfOk result (F.meaning field.now).is_elem }
    ensures value { IfOk result (λ v. let m = F.meaning field.now in let n = f.now.n in m.value v ≡ root_shift_of n m.scalars (poly_of n m.value f.now.terms)) }
    ensures range { OnRange result (let m = F.meaning field.now in let n = f.now.n in AnyHigh n m.scalars (triple_root_work n m.scalars f.now.order (poly_of n m.value f.now.terms))) }
{
    let q = at(field, f, 0, 6);
    let p = at(field, f, 1, 4);
    let dividend = multiple(field, 3, q)?;
    let divisor = multiple(field, 2, p)?;
    let shift = over(field, dividend, divisor)?;
    Ok(shift)
}

/// x goes to x - 3q/(2p) y^2, with p the coefficient of x*y^4 and q that of y^6.
///
/// Errors: `Range` only where an operation of the quotient, the inverse of the linear part, carrying
/// the jet, or composing the moves forms a number of height 2^120 or more.
fn move_root<F: Field>(
    alloc: Global,
    field: &F,
    state: Finishing<F::Elem>,
) -> Result<Finishing<F::Elem>, Fault>
    requires ring { F.is_ring field.now }
    requires standing { IsStanding (F.meaning field.now) state }
    requires two_variables { 2 ≤ state.form.n }
    requires root { let m = F.meaning field.now in let n = state.form.n in double_root n m.scalars (poly_of n m.value state.form.terms) ≢ m.scalars.ops.zero }
    ensures moved { IfOk result (let m = F.meaning field.now in IsTaken m state (by_root state.form.n m.scalars state.form.order)) }
    ensures range { OnFault result (let m = F.meaning field.now in IsTakingHigh m state (by_root state.form.n m.scalars state.form.order)) }
{
    let n = state.form.n();
    let order = state.form.order();
    let shift = root_shift(field, &state.form)?;
    let x = (two_powers(1, 0), field.one());
    let square = (two_powers(0, 2), field.neg(shift));
    let y = (two_powers(0, 1), field.one());
    let first = two_terms_jet(alloc, field, n, order, x, square)?;
    let second = one_term_jet(alloc, field, n, order, y)?;
    let next = put_two(alloc, field, state, 0, first, 1, second)?;
    Ok(next)
}

/// e/(2 b r c).
///
/// Errors: `Range` only where a product, the inverse or the quotient has height 2^120 or more.
fn tail_factor<F: Field>(
    field: &F,
    b: F::Elem,
    c: F::Elem,
    e: F::Elem,
    r: u8,
) -> Result<F::Elem, Range>
    requires ring { F.is_ring field.now }
    requires b_elem { (F.meaning field.now).is_elem b }
    requires c_elem { (F.meaning field.now).is_elem c }
    requires e_elem { (F.meaning field.now).is_elem e }
    requires unit { let m = F.meaning field.now in tail_divided 0 m.scalars (m.value b) (m.value c) r ≢ m.scalars.ops.zero }
    ensures elem { IfOk result (F.meaning field.now).is_elem }
    ensures value { IfOk result (λ v. let m = F.meaning field.now in m.value v ≡ tail_factor_of 0 m.scalars 0 (m.value b) (m.value c) (m.value e) r) }
    ensures range { OnRange result (let m = F.meaning field.now in AnyHigh 0 m.scalars (factor_work 0 m.scalars (m.value b) (m.value c) (m.value e) r)) }
{
    let double = multiple(field, 2, b)?;
    let scaled = field.mul(double, number(field, r))?;
    let divisor = field.mul(scaled, c)?;
    let factor = over(field, e, divisor)?;
    Ok(factor)
}

/// x goes to x + 2 b v x y, and y to y - v (3 a x + 2 b y^2).
///
/// Errors: `Range` only where a product, the inverse of the linear part, carrying the jet, or
/// composing the moves forms a number of height 2^120 or more.
fn move_tail<F: Field>(
    alloc: Global,
    field: &F,
    state: Finishing<F::Elem>,
    a: F::Elem,
    b: F::Elem,
    v: F::Elem,
) -> Result<Finishing<F::Elem>, Fault>
    requires ring { F.is_ring field.now }
    requires standing { IsStanding (F.meaning field.now) state }
    requires two_variables { 2 ≤ state.form.n }
    requires a_elem { (F.meaning field.now).is_elem a }
    requires b_elem { (F.meaning field.now).is_elem b }
    requires v_elem { (F.meaning field.now).is_elem v }
    ensures moved { IfOk result (let m = F.meaning field.now in IsMovedBy m state (tail_move state.form.n m.scalars state.form.order (m.value a) (m.value b) (m.value v))) }
    ensures range { OnFault result (let m = F.meaning field.now in IsTailMoveHigh m state (m.value a) (m.value b) (m.value v)) }
{
    let n = state.form.n();
    let order = state.form.order();
    let double = multiple(field, 2, b)?;
    let triple = multiple(field, 3, a)?;
    let mixed = field.mul(double, v)?;
    let linear = field.mul(v, triple)?;
    let square = field.mul(v, double)?;
    let x = (two_powers(1, 0), field.one());
    let more = (two_powers(1, 1), mixed);
    let less = (two_powers(1, 0), field.neg(linear));
    let y = (two_powers(0, 1), field.one());
    let bend = (two_powers(0, 2), field.neg(square));
    let first = two_terms_jet(alloc, field, n, order, x, more)?;
    let second = three_terms_jet(alloc, field, n, order, less, y, bend)?;
    let next = put_two(alloc, field, state, 0, first, 1, second)?;
    Ok(next)
}

/// The second move of the tail and its graded kill, where y^r is the least power of y, and that of y^(r+1) is there up to the order.
///
/// Errors: `Range` only where an operation of these, or of the composite of the moves, forms a number of
/// height 2^120 or more.
fn tail_from<F: Field>(
    alloc: Global,
    field: &F,
    state: Finishing<F::Elem>,
    r: u8,
) -> Result<Finishing<F::Elem>, Fault>
    requires ring { F.is_ring field.now }
    requires standing { IsStanding (F.meaning field.now) state }
    requires two_variables { 2 ≤ state.form.n }
    requires within { r ≤ state.form.order }
    requires regular { let m = F.meaning field.now in let n = state.form.n in IsSecondRegular n m.scalars state.form.order r (poly_of n m.value state.form.terms) }
    ensures taken { IfOk result (let m = F.meaning field.now in IsTaken m state (tail_from_of state.form.n m.scalars state.form.order r)) }
    ensures range { OnFault result (let m = F.meaning field.now in IsTakingHigh m state (tail_from_of state.form.n m.scalars state.form.order r)) }
{
    let order = state.form.order();
    if r >= order {
        return Ok(state);
    }
    let a = at(field, &state.form, 3, 0);
    let b = at(field, &state.form, 2, 2);
    let c = at(field, &state.form, 0, r);
    let e = at(field, &state.form, 0, r + 1);
    if field.eq(e, field.zero()) {
        return Ok(state);
    }
    let v = tail_factor(field, b, c, e, r)?;
    let moved = move_tail(alloc, field, state, a, b, v)?;
    let next = graded_kill(alloc, field, Part::JT, moved)?;
    Ok(next)
}

/// The tail of J: the double root of its part goes to 0, the graded kill of x^3 + x^2*y^2 follows, and the least power y^r
/// decides on T(2,3,r); where y^(r+1) is there, a second move and graded kill clear it.
///
/// Errors: `Range` only where an operation of these, or of the composite of the moves, forms a number of
/// height 2^120 or more.
pub(crate) fn finish_tail<F: Field>(
    alloc: Global,
    field: &F,
    state: Finishing<F::Elem>,
) -> Result<Finish<F::Elem>, Fault>
    requires ring { F.is_ring field.now }
    requires standing { IsStanding (F.meaning field.now) state }
    requires two_variables { 2 ≤ state.form.n }
    requires regular { let m = F.meaning field.now in let n = state.form.n in IsTailRegular n m.scalars state.form.order (poly_of n m.value state.form.terms) }
    ensures finished { IfOk result (let m = F.meaning field.now in IsEnded m state (tail_of_J state.form.n m.scalars state.form.order)) }
    ensures range { OnFault result (let m = F.meaning field.now in IsEndingHigh m state (tail_of_J state.form.n m.scalars state.form.order)) }
{
    let rooted = move_root(alloc, field, state)?;
    let killed = graded_kill(alloc, field, Part::JT, rooted)?;
    match least(field, &killed.form, 1) {
        Some(r) => {
            let reached = tail_from(alloc, field, killed, r)?;
            Ok(Finish {
                reached,
                family: Some(Family::T(2, 3, r)),
            })
        }
        None => Ok(Finish {
            reached: killed,
            family: None,
        }),
    }
}
