//! Sums of terms, kept by the numbers of their monomials until all are added.

ghost use Rattle.std.specs.Prelude.{◌≡◌, ◌≤◌, ◌++◌, [], ◌∷◌, IfOk, IfSome, IsSorted, OnOk, sum};
ghost use Rattle.std.specs.Ordering.{nat_cmp};
ghost use Rattle.indexmap.specs.IndexMap.{keys};
ghost use Rattle.ring_law.specs.Refusals.{OnFault, OnRange};
ghost use Rattle.ring_theory.specs.Scalars.{SumIsHigh};
ghost use Rattle.poly_law.specs.Polynomials.{SameIn, cut_in, coefficient_in};
ghost use Rattle.mono_exp.specs.Exponents.{IsIn};
ghost use Rattle.jet_law.specs.Terms.{exp_of, poly_of};
ghost use Rattle.jet_poly.specs.JetTerms.{IsRising};
ghost use Rattle.jet_poly.specs.Jets.{IsJet};
ghost use Rattle.jet_poly.specs.Gathered.{gathered, IsGathered, value_or, nonzero, IsTermHigh};

use crate::jet::{Jet, JetOf};
use indexmap::IndexMap;
use mono_exp::{Exp, degree, rank, unrank};
use ring_law::{Fault, Range, Ring};
use std::alloc::Global;

/// What is there and c, added.
fn raised<R: Ring>(ring: &R, there: Option<R::Elem>, c: R::Elem) -> Result<R::Elem, Range>
    requires ring { R.is_ring ring.now }
    requires there { IfSome there (R.meaning ring.now).is_elem }
    requires elem { (R.meaning ring.now).is_elem c }
    ensures elem { IfOk result (R.meaning ring.now).is_elem }
    ensures sum { IfOk result (λ x. let m = R.meaning ring.now in m.value x ≡ m.scalars.ops.add (value_or m.value m.scalars.ops.zero there) (m.value c)) }
    ensures range { OnRange result (let m = R.meaning ring.now in SumIsHigh m.scalars (value_or m.value m.scalars.ops.zero there) (m.value c)) }
{
    match there {
        Some(a) => ring.add(a, c),
        None => Ok(c),
    }
}

/// Adds c times the monomial a, unless its degree is above k.
pub(crate) fn add_term<R: Ring>(
    ring: &R,
    n: u8,
    k: u8,
    sums: &mut IndexMap<u32, R::Elem>,
    a: Exp,
    c: R::Elem,
) -> Result<(), Fault>
    requires ring { R.is_ring ring.now }
    requires at_most_8_variables { n ≤ 8 }
    requires order_at_most_17 { k ≤ 17 }
    requires variables { IsIn n a.e }
    requires elem { (R.meaning ring.now).is_elem c }
    requires gathered { IsGathered n k (R.meaning ring.now) sums.old.entries }
    ensures gathered { OnOk result (IsGathered n k (R.meaning ring.now) sums.new.entries) }
    ensures sum { OnOk result (let m = R.meaning ring.now in SameIn n m.scalars.ops (gathered n m.value sums.new.entries)
        (cut_in n m.scalars.ops k ((exp_of n a, m.value c) ∷ []) ++ gathered n m.value sums.old.entries)) }
    ensures range { OnFault result (let m = R.meaning ring.now in IsTermHigh n m.scalars k (gathered n m.value sums.old.entries) (exp_of n a, m.value c)) }
{
    if degree(a) > u16::from(k) {
        return Ok(());
    }
    let number = rank(n, a);
    let total = raised(ring, sums.get(&number).copied(), c)?;
    sums.insert(number, total)?;
    Ok(())
}

/// Writes the term c*a after the others, unless c is zero.
pub(crate) fn push_term<R: Ring>(
    ring: &R,
    terms: &mut Vec<(Exp, R::Elem)>,
    a: Exp,
    c: R::Elem,
) -> Result<(), Fault>
    requires ring { R.is_ring ring.now }
    requires elem { (R.meaning ring.now).is_elem c }
    ensures pushed { OnOk result (let m = R.meaning ring.now in terms.new.items ≡ terms.old.items ++ nonzero m.scalars m.value ((a, c) ∷ [])) }
    ensures memory { OnFault result ⊥ }
{
    if !ring.eq(c, ring.zero()) {
        terms.push((a, c))?;
    }
    Ok(())
}

/// The terms of sums that stand in the order of their numbers; zeros are left out.
fn written<R: Ring>(
    alloc: Global,
    ring: &R,
    n: u8,
    order: u8,
    sums: &IndexMap<u32, R::Elem>,
) -> Result<Vec<(Exp, R::Elem)>, Fault>
    requires ring { R.is_ring ring.now }
    requires at_most_8_variables { n ≤ 8 }
    requires order_at_most_17 { order ≤ 17 }
    requires gathered { IsGathered n order (R.meaning ring.now) sums.now.entries }
    requires sorted { IsSorted nat_cmp (keys sums.now) }
    ensures rising { IfOk result (λ v. IsRising v.items) }
    ensures jet { IfOk result (λ v. IsJet (R.meaning ring.now) (record { n = n; order = order; terms = v.items })) }
    ensures sum { IfOk result (λ v. let m = R.meaning ring.now in SameIn n m.scalars.ops (poly_of n m.value v.items) (gathered n m.value sums.now.entries)) }
    ensures memory { OnFault result ⊥ }
{
    let mut terms = Vec::new(alloc);
    for i in 0..sums.len() {
        let (number, c) = sums.get_index(i).unwrap();
        push_term(ring, &mut terms, unrank(n, *number), *c)?;
    }
    Ok(terms)
}

/// The jet of the gathered sums.
pub(crate) fn finished<R: Ring>(
    alloc: Global,
    ring: &R,
    n: u8,
    order: u8,
    sums: IndexMap<u32, R::Elem>,
) -> Result<JetOf<R>, Fault>
    requires ring { R.is_ring ring.now }
    requires at_most_8_variables { n ≤ 8 }
    requires order_at_most_17 { order ≤ 17 }
    requires gathered { IsGathered n order (R.meaning ring.now) sums.entries }
    ensures jet { IfOk result (IsJet (R.meaning ring.now)) }
    ensures n { IfOk result (λ f. f.n ≡ n) }
    ensures order { IfOk result (λ f. f.order ≡ order) }
    ensures sum { IfOk result (λ f. let m = R.meaning ring.now in SameIn n m.scalars.ops (poly_of n m.value f.terms) (gathered n m.value sums.entries)) }
    ensures memory { OnFault result ⊥ }
{
    let mut sorted = sums;
    sorted.sort_keys()?;
    let terms = written(alloc, ring, n, order, &sorted)?;
    Ok(Jet::from_rising(n, order, terms))
}
