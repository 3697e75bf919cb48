//! What a kill move puts for the variables.

ghost use Rattle.std.specs.Prelude.{◌≡◌, ◌≢◌, ℕ, ◌≤◌, ◌<◌, [], ◌∷◌, OnOk, IfOk, All, Contains, length, map, flat_map};
ghost use Rattle.std.specs.List.{AllByRecursion};
ghost use Rattle.ring_law.specs.Refusals.{OnFault};
ghost use Rattle.mono_exp.specs.Exponents.{IsIn, HasProduct};
ghost use Rattle.jet_law.specs.Heights.{IsHigh};
ghost use Rattle.jet_law.specs.Terms.{poly_of};
ghost use Rattle.jet_poly.specs.JetTerms.{IsRising};
ghost use Rattle.kill_law.specs.Table.{row};
ghost use Rattle.kill_law.specs.Kill.{cofactor as cofactor_of, entries_in, divisor_value};
ghost use Rattle.kill_law.specs.Taken.{kill_move, multiplied_heights};
ghost use Rattle.kill_table.specs.Divisors.{HasNonzeroDivisors};
ghost use Rattle.kill_table.specs.Moves.{IsMoveTo, IsPutFor, IsMoveHigh, IsRegular, fault_from};
ghost use Rattle.kill_table.specs.Steps.{IsReady, Takes, IsPuttingHigh, put_by};

use crate::reduction::{Step, reduce, term_of};
use coord_change::{ChangeError, ChangeOf, from_parts, monomial};
use jet_poly::{Jet, JetOf, from_terms};
use kill_law::{Cofactor, Entry, Lead, Part};
use mono_exp::Exp;
use ring_law::{Fault, Field};
use std::alloc::Global;

/// The order of a move.
const ORDER: u8 = 16;

/// The cofactor of the partial derivative in variable i.
fn cofactor(lead: Lead, i: u8) -> Cofactor
    ensures { entries_in result ≡ cofactor_of lead i }
{
    match i {
        0 => lead.x,
        1 => lead.y,
        2 => lead.z,
        _ => Cofactor::Zero,
    }
}

/// Appends the quotient of a step times an entry, with the sign turned.
fn push_entry<F: Field>(
    field: &F,
    letters: &[F::Elem],
    step: Step<F::Elem>,
    entry: Entry,
    all: &mut Vec<(Exp, F::Elem)>,
) -> Result<(), Fault>
    requires ring { F.is_ring field.now }
    requires letters { All (F.meaning field.now).is_elem letters.now }
    requires three_letters { length letters.now ≡ 3 }
    requires elem { (F.meaning field.now).is_elem step.coefficient }
    requires nonzero { let m = F.meaning field.now in divisor_value m.scalars (map m.value letters.now) entry.divisor ≢ m.scalars.ops.zero }
    requires fits { HasProduct step.rest.e entry.monomial }
    ensures taken { OnOk result (let m = F.meaning field.now in Takes m (map m.value letters.now) step (entry ∷ []) all.old.items all.new.items) }
    ensures range { OnFault result (let m = F.meaning field.now in IsHigh (multiplied_heights m.scalars (map m.value letters.now) (m.value step.coefficient) entry)) }
{
    let t = term_of(field, letters, step, entry)?;
    all.push((t.0, field.neg(t.1)))?;
    Ok(())
}

/// Appends the quotient of a step times the entries of a cofactor, with the sign turned.
fn push_cofactor<F: Field>(
    field: &F,
    letters: &[F::Elem],
    step: Step<F::Elem>,
    cofactor: Cofactor,
    all: &mut Vec<(Exp, F::Elem)>,
) -> Result<(), Fault>
    requires ring { F.is_ring field.now }
    requires letters { All (F.meaning field.now).is_elem letters.now }
    requires three_letters { length letters.now ≡ 3 }
    requires elem { (F.meaning field.now).is_elem step.coefficient }
    requires nonzero { let m = F.meaning field.now in (e : Entry) → Contains (entries_in cofactor) e → divisor_value m.scalars (map m.value letters.now) e.divisor ≢ m.scalars.ops.zero }
    requires fits { (e : Entry) → Contains (entries_in cofactor) e → HasProduct step.rest.e e.monomial }
    ensures taken { OnOk result (let m = F.meaning field.now in Takes m (map m.value letters.now) step (entries_in cofactor) all.old.items all.new.items) }
    ensures range { OnFault result (let m = F.meaning field.now in IsHigh (flat_map (multiplied_heights m.scalars (map m.value letters.now) (m.value step.coefficient)) (entries_in cofactor))) }
{
    match cofactor {
        Cofactor::Zero => Ok(()),
        Cofactor::One(e) => push_entry(field, letters, step, e, all),
        Cofactor::Two(e, f) => {
            push_entry(field, letters, step, e, all)?;
            push_entry(field, letters, step, f, all)
        }
    }
}

// The jet, of which contracts then see that its terms rise.
fn in_order<E>(f: Jet<E>) -> Jet<E>
    ensures same { result ≡ f }
    ensures rising { IsRising result.terms }
{
    let _ = f.terms();
    f
}

/// What some steps put for variable i: the variable less what they take from it, up to degree 16.
fn put<F: Field>(
    alloc: Global,
    field: &F,
    letters: &[F::Elem],
    n: u8,
    steps: &[Step<F::Elem>],
    i: u8,
) -> Result<JetOf<F>, Fault>
    requires ring { F.is_ring field.now }
    requires letters { All (F.meaning field.now).is_elem letters.now }
    requires three_letters { length letters.now ≡ 3 }
    requires at_most_8_variables { n ≤ 8 }
    requires inside { i < n }
    requires ready { let m = F.meaning field.now in AllByRecursion (IsReady m (map m.value letters.now) n) steps.now }
    ensures part { IfOk result (let m = F.meaning field.now in IsPutFor m n 16 (put_by m (map m.value letters.now) n steps.now i)) }
    ensures range { OnFault result (let m = F.meaning field.now in IsPuttingHigh m (map m.value letters.now) n steps.now i) }
{
    let mut all = Vec::new(alloc);
    all.push((monomial(usize::from(i)), field.one()))?;
    for step in steps {
        push_cofactor(field, letters, *step, cofactor(step.lead, i), &mut all)?;
    }
    let part = from_terms(alloc, field, n, ORDER, &all)?;
    Ok(in_order(part))
}

/// The error of a change whose linear part is invertible, as a fault.
fn fault_of<E: Drop>(e: ChangeError<E>) -> Fault
    requires { IsRegular e }
    ensures { result ≡ fault_from e }
{
    match e {
        ChangeError::Range(e) => Fault::Range(e),
        ChangeError::NoMemory => Fault::NoMemory,
        ChangeError::Singular { kernel: _ } => unreachable!(),
    }
}

/// The kill move of a grade of a part for some terms, in n variables and of order 16.
///
/// Errors: `Range` only where a number that the reduction of the terms of the grade, a sum of what
/// is put for a variable, or the inverse of the linear part forms has height 2^120 or more.
pub fn move_of<F: Field>(
    alloc: Global,
    field: &F,
    part: Part,
    letters: &[F::Elem],
    n: u8,
    grade: u8,
    terms: &[(Exp, F::Elem)],
) -> Result<ChangeOf<F>, Fault>
    requires ring { F.is_ring field.now }
    requires letters { All (F.meaning field.now).is_elem letters.now }
    requires three_letters { length letters.now ≡ 3 }
    requires divisors { let m = F.meaning field.now in HasNonzeroDivisors m.scalars (map m.value letters.now) part }
    requires of_part { length (row part).weights ≤ n }
    requires at_most_8_variables { n ≤ 8 }
    requires elems { All (λ t. (F.meaning field.now).is_elem t.1) terms.now }
    requires unused { All (λ t. IsIn n t.0.e) terms.now }
    requires above { (row part).degree < grade }
    ensures change { IfOk result (let m = F.meaning field.now in
        IsMoveTo m n 16 (kill_move n m.scalars (map m.value letters.now) part grade (poly_of n m.value terms.now))) }
    ensures range { OnFault result (let m = F.meaning field.now in
        IsMoveHigh m.scalars (map m.value letters.now) part n grade (poly_of n m.value terms.now)) }
{
    let steps = reduce(alloc, field, part, letters, n, grade, terms)?;
    let mut parts = Vec::new(alloc);
    for i in 0..n {
        let part = put(alloc, field, letters, n, &steps, i)?;
        parts.push(part)?;
    }
    match from_parts(alloc, field, &parts) {
        Ok(change) => Ok(change),
        Err(e) => Err(fault_of(e)),
    }
}
