//! The reduction of the terms of a grade by the leads of a part.

ghost use Rattle.std.specs.Prelude.{◌≡◌, ◌≢◌, ℕ, ◌≤◌, ◌<◌, OnOk, IfOk, MatchOption, None, All, Contains, drop, filter, length, map, ◌==◌};
ghost use Rattle.std.specs.List.{list_all};
ghost use Rattle.ring_law.specs.Refusals.{OnFault, OnRange};
ghost use Rattle.mono_exp.specs.Exponents.{IsIn, IsProduct, HasProduct};
ghost use Rattle.jet_law.specs.Heights.{IsHigh};
ghost use Rattle.jet_law.specs.Terms.{exp_of, poly_of};
ghost use Rattle.kill_law.specs.Table.{row};
ghost use Rattle.kill_law.specs.Kill.{first_lead as first_lead_of, tail_of, divisor_value};
ghost use Rattle.kill_law.specs.Taken.{multiplied_heights, reduction_heights};
ghost use Rattle.kill_table.specs.Divisors.{HasNonzeroDivisors};
ghost use Rattle.kill_table.specs.Steps.{without, is_graded, IsFirstStep, IsTermBy, IsLeft, IsLeavingHigh, IsReduction};

use crate::sum::add_term;
use kill_law::{Entry, Lead, Part};
use kill_leads::{first_lead, grading, leads, monomial, multiplied, variables};
use mono_exp::{Exp, times, weight};
use ring_law::{Fault, Field, Range};
use std::alloc::{AllocError, Global};

/// A step of a reduction: the term `coefficient * rest * (the monomial of the lead)` gives way to
/// the tail of the lead.
#[derive(Clone, Copy, Debug)]
pub struct Step<E> {
    pub lead: Lead,
    pub rest: Exp,
    pub coefficient: E,
}

/// True where a monomial has only the first variables.
fn is_in(variables: u8, a: Exp) -> bool
    requires { variables ≤ 8 }
    ensures { result ≡ list_all (λ k. k == 0) (drop variables a.e) }
{
    for k in usize::from(variables)..8 {
        if a.e[k] != 0 {
            return false;
        }
    }
    true
}

/// True where a monomial is of a grade of a part, in the variables of the part alone.
fn is_of_grade(part: Part, grade: u8, a: Exp) -> bool
    ensures test { result ≡ is_graded part grade a.e }
    ensures long { length a.e ≡ 8 }
{
    weight(a, grading(part).0) == u32::from(grade) && is_in(variables(part), a)
}

/// The terms of a grade of a part, in the variables of the part alone.
fn terms_of_grade<E: Copy>(
    alloc: Global,
    part: Part,
    grade: u8,
    terms: &[(Exp, E)],
) -> Result<Vec<(Exp, E)>, AllocError>
    ensures terms { IfOk result (λ v. v.items ≡ filter (λ t. is_graded part grade t.0.e) terms.now) }
    ensures long { IfOk result (λ v. All (λ t. length t.0.e ≡ 8) v.items) }
{
    let mut kept = Vec::new(alloc);
    for t in terms {
        if is_of_grade(part, grade, t.0) {
            kept.push(*t)?;
        }
    }
    Ok(kept)
}

/// The product of a monomial and one in three variables.
fn product(rest: Exp, exponents: [u8; 3]) -> Exp
    requires fits { HasProduct rest.e exponents }
    ensures product { IsProduct result.e rest.e exponents }
    ensures long { length result.e ≡ 8 }
{
    times(rest, monomial(exponents)).unwrap()
}

/// The quotient of a step times an entry, with the coefficient of the step.
pub fn term_of<F: Field>(
    field: &F,
    letters: &[F::Elem],
    step: Step<F::Elem>,
    entry: Entry,
) -> Result<(Exp, F::Elem), Range>
    requires ring { F.is_ring field.now }
    requires letters { All (F.meaning field.now).is_elem letters.now }
    requires three_letters { length letters.now ≡ 3 }
    requires elem { (F.meaning field.now).is_elem step.coefficient }
    requires nonzero { let m = F.meaning field.now in divisor_value m.scalars (map m.value letters.now) entry.divisor ≢ m.scalars.ops.zero }
    requires fits { HasProduct step.rest.e entry.monomial }
    ensures term { IfOk result (let m = F.meaning field.now in IsTermBy m (map m.value letters.now) step entry) }
    ensures range { OnRange result (let m = F.meaning field.now in IsHigh (multiplied_heights m.scalars (map m.value letters.now) (m.value step.coefficient) entry)) }
{
    let x = multiplied(field, letters, step.coefficient, entry)?;
    Ok((product(step.rest, entry.monomial), x))
}

/// The place of the first term that a lead divides, with the step that reduces it by the first lead
/// that does.
fn first_step<E: Copy>(leads: &[Lead], n: u8, terms: &[(Exp, E)]) -> Option<(usize, Step<E>)>
    requires at_most_8_variables { n ≤ 8 }
    requires within { All (λ l. IsIn n l.monomial) leads.now }
    requires unused { All (λ t. IsIn n t.0.e) terms.now }
    ensures { MatchOption result (All (λ t. first_lead_of n leads.now (exp_of n t.0) ≡ None) terms.now) (IsFirstStep n leads.now terms.now) }
{
    for (place, t) in terms.iter().enumerate() {
        match first_lead(leads, n, t.0) {
            Some(found) => {
                let step = Step {
                    lead: found.0,
                    rest: found.1,
                    coefficient: t.1,
                };
                return Some((place, step));
            }
            None => {}
        }
    }
    None
}

/// Takes a step: the term at its place gives way to the tail of its lead.
fn take_step<F: Field>(
    field: &F,
    letters: &[F::Elem],
    terms: &mut Vec<(Exp, F::Elem)>,
    place: usize,
    step: Step<F::Elem>,
) -> Result<(), Fault>
    requires ring { F.is_ring field.now }
    requires letters { All (F.meaning field.now).is_elem letters.now }
    requires three_letters { length letters.now ≡ 3 }
    requires inside { place < length terms.old.items }
    requires elems { All (λ t. (F.meaning field.now).is_elem t.1) terms.old.items }
    requires elem { (F.meaning field.now).is_elem step.coefficient }
    requires nonzero { let m = F.meaning field.now in (e : Entry) → Contains (tail_of step.lead) e → divisor_value m.scalars (map m.value letters.now) e.divisor ≢ m.scalars.ops.zero }
    requires fits { (e : Entry) → Contains (tail_of step.lead) e → HasProduct step.rest.e e.monomial }
    ensures left { OnOk result (let m = F.meaning field.now in IsLeft m (map m.value letters.now) step (without place terms.old.items) terms.new.items) }
    ensures range { OnFault result (let m = F.meaning field.now in IsLeavingHigh m (map m.value letters.now) step (without place terms.old.items)) }
{
    terms.remove(place);
    match step.lead.tail {
        None => Ok(()),
        Some(entry) => {
            let t = term_of(field, letters, step, entry)?;
            add_term(field, terms, t.0, t.1)
        }
    }
}

/// The steps of the reduction of the terms of a grade by the leads of a part: while a lead divides a
/// term, the first such term gives way to the tail of the first lead that divides it.
///
/// Errors: `Range` only where a number that the reduction forms has height 2^120 or more.
pub fn reduce<F: Field>(
    alloc: Global,
    field: &F,
    part: Part,
    letters: &[F::Elem],
    n: u8,
    grade: u8,
    terms: &[(Exp, F::Elem)],
) -> Result<Vec<Step<F::Elem>>, Fault>
    requires ring { F.is_ring field.now }
    requires letters { All (F.meaning field.now).is_elem letters.now }
    requires three_letters { length letters.now ≡ 3 }
    requires divisors { let m = F.meaning field.now in HasNonzeroDivisors m.scalars (map m.value letters.now) part }
    requires of_part { length (row part).weights ≤ n }
    requires at_most_8_variables { n ≤ 8 }
    requires elems { All (λ t. (F.meaning field.now).is_elem t.1) terms.now }
    requires unused { All (λ t. IsIn n t.0.e) terms.now }
    ensures steps { IfOk result (λ v. let m = F.meaning field.now in IsReduction m (map m.value letters.now) n part grade (poly_of n m.value terms.now) v.items) }
    ensures range { OnFault result (let m = F.meaning field.now in IsHigh (reduction_heights n m.scalars (map m.value letters.now) part grade (poly_of n m.value terms.now))) }
{
    let leads = leads(part);
    let mut left = terms_of_grade(alloc, part, grade, terms)?;
    let mut steps = Vec::new(alloc);
    let count = left.len();
    for _round in 0..3 * (count as u128) {
        match first_step(leads, n, &left) {
            None => return Ok(steps),
            Some(found) => {
                take_step(field, letters, &mut left, found.0, found.1)?;
                steps.push(found.1)?;
            }
        }
    }
    Ok(steps)
}
