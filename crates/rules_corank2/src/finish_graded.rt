//! The finish of a base part by a graded kill.

ghost use Rattle.std.specs.Prelude.{◌≡◌, ◌⊎◌, ◌≤◌, IfOk, length};
ghost use Rattle.ring_law.specs.Refusals.{OnFault};
ghost use Rattle.jet_law.specs.Heights.{IsHigh};
ghost use Rattle.jet_law.specs.Terms.{poly_of};
ghost use Rattle.jet_poly.specs.Jets.{IsJet};
ghost use Rattle.kill_law.specs.Table.{row};
ghost use Rattle.move_law.specs.Finish.{finish_part, graded, triple_coefficients};
ghost use Rattle.normal_forms.specs.Units.{triple_discriminant, triple_heights};
ghost use Rattle.rules_corank2.specs.Finishes.{IsStanding};
ghost use Rattle.rules_corank2.specs.Following.{IsEnded, IsEndingHigh};
ghost use Rattle.rules_corank2.specs.Regular.{IsChosenRegular, IsGradedRegular};

use crate::finish_base::Finish;
use crate::finish_choice::{at, choices, first_choice};
use crate::finish_kills::graded_kill;
use crate::finish_state::Finishing;
use crate::finish_tail::finish_tail;
use jet_poly::JetOf;
use kill_table::Part;
use normal_forms::{Family, triple_discriminant_of};
use ring_law::{Fault, Field};
use std::alloc::Global;

/// The discriminant of the coefficients of x^3, x*y^4 and y^6.
///
/// Errors: `Range` only where a number that its formula forms has height 2^120 or more.
fn discriminant<F: Field>(alloc: Global, field: &F, f: &JetOf<F>) -> Result<F::Elem, Fault>
    requires ring { F.is_ring field.now }
    requires jet { IsJet (F.meaning field.now) f.now }
    requires two_variables { 2 ≤ f.now.n }
    requires at_most_8_variables { f.now.n ≤ 8 }
    ensures elem { IfOk result (F.meaning field.now).is_elem }
    ensures value { IfOk result (λ v. let m = F.meaning field.now in let n = f.now.n in m.value v ≡ triple_discriminant m.scalars (triple_coefficients n m.scalars f.now.order (poly_of n m.value f.now.terms))) }
    ensures range { OnFault result (let m = F.meaning field.now in let n = f.now.n in IsHigh (triple_heights m.scalars (triple_coefficients n m.scalars f.now.order (poly_of n m.value f.now.terms)))) }
{
    let a = at(field, f, 3, 0);
    let b = at(field, f, 1, 4);
    let c = at(field, f, 0, 6);
    let mut coefs = Vec::new(alloc);
    coefs.push(a)?;
    coefs.push(b)?;
    coefs.push(c)?;
    let value = triple_discriminant_of(field, &coefs)?;
    Ok(value)
}

/// The finish of J10: its graded kill, or the tail of J where its discriminant is zero.
///
/// Errors: `Range` only where an operation of the discriminant, of the moves, or of their composite
/// forms a number of height 2^120 or more.
fn finish_triple<F: Field>(
    alloc: Global,
    field: &F,
    family: Family,
    state: Finishing<F::Elem>,
) -> Result<Finish<F::Elem>, Fault>
    requires ring { F.is_ring field.now }
    requires standing { IsStanding (F.meaning field.now) state }
    requires two_variables { 2 ≤ state.form.n }
    requires regular { let m = F.meaning field.now in let n = state.form.n in IsGradedRegular n m.scalars state.form.order Part.J10 (poly_of n m.value state.form.terms) }
    ensures finished { IfOk result (let m = F.meaning field.now in IsEnded m state (graded state.form.n m.scalars state.form.order Part.J10 family)) }
    ensures range { OnFault result (let m = F.meaning field.now in IsEndingHigh m state (graded state.form.n m.scalars state.form.order Part.J10 family)) }
{
    let value = discriminant(alloc, field, &state.form)?;
    if field.eq(value, field.zero()) {
        return finish_tail(alloc, field, state);
    }
    let reached = graded_kill(alloc, field, Part::J10, state)?;
    Ok(Finish {
        reached,
        family: Some(family),
    })
}

/// The finish of a graded part: its graded kill, and of J10 with discriminant zero the tail of J.
///
/// Errors: `Range` only where an operation of the moves, or of their composite, forms a number of
/// height 2^120 or more.
fn finish_of<F: Field>(
    alloc: Global,
    field: &F,
    part: Part,
    family: Family,
    state: Finishing<F::Elem>,
) -> Result<Finish<F::Elem>, Fault>
    requires ring { F.is_ring field.now }
    requires standing { IsStanding (F.meaning field.now) state }
    requires two_variables { 2 ≤ state.form.n }
    requires of_part { length (row part).weights ≤ state.form.n }
    requires regular { let m = F.meaning field.now in let n = state.form.n in IsGradedRegular n m.scalars state.form.order part (poly_of n m.value state.form.terms) }
    ensures finished { IfOk result (let m = F.meaning field.now in IsEnded m state (graded state.form.n m.scalars state.form.order part family)) }
    ensures range { OnFault result (let m = F.meaning field.now in IsEndingHigh m state (graded state.form.n m.scalars state.form.order part family)) }
{
    match part {
        Part::J10 => finish_triple(alloc, field, family, state),
        _ => {
            let reached = graded_kill(alloc, field, part, state)?;
            Ok(Finish {
                reached,
                family: Some(family),
            })
        }
    }
}

/// The finish of J, Z and W: the first choice whose monomial is there decides on a graded part, whose
/// graded kill follows, and on the family; of J10 with discriminant zero the tail of J follows. Where
/// no monomial is there, nothing is done, and there is no family.
///
/// Errors: `Range` only where an operation of the moves, or of their composite, forms a number of
/// height 2^120 or more.
pub fn finish_chosen<F: Field>(
    alloc: Global,
    field: &F,
    part: Part,
    state: Finishing<F::Elem>,
) -> Result<Finish<F::Elem>, Fault>
    requires ring { F.is_ring field.now }
    requires chosen { (part ≡ Part.J) ⊎ ((part ≡ Part.Z) ⊎ (part ≡ Part.W)) }
    requires standing { IsStanding (F.meaning field.now) state }
    requires two_variables { 2 ≤ state.form.n }
    requires regular { let m = F.meaning field.now in let n = state.form.n in IsChosenRegular n m.scalars state.form.order part (poly_of n m.value state.form.terms) }
    ensures finished { IfOk result (let m = F.meaning field.now in IsEnded m state (finish_part state.form.n m.scalars state.form.order part)) }
    ensures range { OnFault result (let m = F.meaning field.now in IsEndingHigh m state (finish_part state.form.n m.scalars state.form.order part)) }
{
    match first_choice(field, &state.form, choices(part)) {
        Some(choice) => finish_of(alloc, field, choice.part, choice.family, state),
        None => Ok(Finish {
            reached: state,
            family: None,
        }),
    }
}
