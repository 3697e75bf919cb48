//! Jets of lists of terms, and sums of jets.

ghost use Rattle.std.specs.Prelude.{◌≡◌, ℕ, ◌≤◌, ◌++◌, min, IfOk, OnOk, All};
ghost use Rattle.ring_law.specs.Refusals.{OnFault};
ghost use Rattle.poly_law.specs.ExpList.{exps};
ghost use Rattle.poly_law.specs.Polynomials.{SameIn, cut_in};
ghost use Rattle.mono_exp.specs.Exponents.{IsIn};
ghost use Rattle.jet_law.specs.Heights.{IsHigh, sums_heights};
ghost use Rattle.jet_law.specs.Terms.{poly_of};
ghost use Rattle.jet_poly.specs.Jets.{IsJet};
ghost use Rattle.jet_poly.specs.Gathered.{gathered, IsGathered, IsSumHigh};

use crate::gather::{add_term, finished};
use crate::jet::{Jet, JetOf};
use indexmap::IndexMap;
use mono_exp::Exp;
use ring_law::{Fault, Ring};
use std::alloc::Global;

/// Adds the terms of degree at most k.
fn add_terms<R: Ring>(
    ring: &R,
    n: u8,
    k: u8,
    sums: &mut IndexMap<u32, R::Elem>,
    terms: &[(Exp, R::Elem)],
) -> Result<(), Fault>
    requires ring { R.is_ring ring.now }
    requires at_most_8_variables { n ≤ 8 }
    requires order_at_most_17 { k ≤ 17 }
    requires elems { All (λ t. (R.meaning ring.now).is_elem t.1) terms.now }
    requires variables { All (λ t. IsIn n t.0.e) terms.now }
    requires gathered { IsGathered n k (R.meaning ring.now) sums.old.entries }
    ensures gathered { OnOk result (IsGathered n k (R.meaning ring.now) sums.new.entries) }
    ensures sum { OnOk result (let m = R.meaning ring.now in SameIn n m.scalars.ops (gathered n m.value sums.new.entries)
        (gathered n m.value sums.old.entries ++ cut_in n m.scalars.ops k (poly_of n m.value terms.now))) }
    ensures range { OnFault result (let m = R.meaning ring.now in IsSumHigh n m.scalars k (gathered n m.value sums.old.entries) (poly_of n m.value terms.now)) }
{
    for t in terms {
        add_term(ring, n, k, sums, t.0, t.1)?;
    }
    Ok(())
}

/// The jet of a list of terms, in n variables up to degree `order`: coefficients of one monomial
/// are summed, and terms above the order are left out.
///
/// Errors: `Range` only where the sum of the coefficients of some monomial has height 2^120 or more.
pub fn from_terms<R: Ring>(
    alloc: Global,
    ring: &R,
    n: u8,
    order: u8,
    terms: &[(Exp, R::Elem)],
) -> Result<JetOf<R>, Fault>
    requires ring { R.is_ring ring.now }
    requires at_most_8_variables { n ≤ 8 }
    requires order_at_most_17 { order ≤ 17 }
    requires elems { All (λ t. (R.meaning ring.now).is_elem t.1) terms.now }
    requires variables { All (λ t. IsIn n t.0.e) terms.now }
    ensures jet { IfOk result (IsJet (R.meaning ring.now)) }
    ensures n { IfOk result (λ h. h.n ≡ n) }
    ensures order { IfOk result (λ h. h.order ≡ order) }
    ensures sum { IfOk result (λ h. let m = R.meaning ring.now in SameIn n m.scalars.ops (poly_of n m.value h.terms)
        (cut_in n m.scalars.ops order (poly_of n m.value terms.now))) }
    ensures range { OnFault result (let m = R.meaning ring.now in IsHigh (sums_heights (exps n) m.scalars (cut_in n m.scalars.ops order (poly_of n m.value terms.now)))) }
{
    let mut sums = IndexMap::new(alloc);
    add_terms(ring, n, order, &mut sums, terms)?;
    finished(alloc, ring, n, order, sums)
}

/// The sum of two lists of terms, up to degree k.
fn sum_of<R: Ring>(
    alloc: Global,
    ring: &R,
    n: u8,
    k: u8,
    f: &[(Exp, R::Elem)],
    g: &[(Exp, R::Elem)],
) -> Result<JetOf<R>, Fault>
    requires ring { R.is_ring ring.now }
    requires at_most_8_variables { n ≤ 8 }
    requires order_at_most_17 { k ≤ 17 }
    requires f_elems { All (λ t. (R.meaning ring.now).is_elem t.1) f.now }
    requires f_variables { All (λ t. IsIn n t.0.e) f.now }
    requires g_elems { All (λ t. (R.meaning ring.now).is_elem t.1) g.now }
    requires g_variables { All (λ t. IsIn n t.0.e) g.now }
    ensures jet { IfOk result (IsJet (R.meaning ring.now)) }
    ensures n { IfOk result (λ h. h.n ≡ n) }
    ensures order { IfOk result (λ h. h.order ≡ k) }
    ensures sum { IfOk result (λ h. let m = R.meaning ring.now in SameIn n m.scalars.ops (poly_of n m.value h.terms)
        (cut_in n m.scalars.ops k (poly_of n m.value f.now ++ poly_of n m.value g.now))) }
    ensures range { OnFault result (let m = R.meaning ring.now in IsHigh (sums_heights (exps n) m.scalars (cut_in n m.scalars.ops k (poly_of n m.value f.now ++ poly_of n m.value g.now)))) }
{
    let mut sums = IndexMap::new(alloc);
    add_terms(ring, n, k, &mut sums, f)?;
    add_terms(ring, n, k, &mut sums, g)?;
    finished(alloc, ring, n, k, sums)
}

/// The sum of two jets in the same variables, of the smaller order.
///
/// Errors: `Range` only where the sum of the two coefficients of some monomial has height 2^120 or more.
pub fn add<R: Ring>(alloc: Global, ring: &R, f: &JetOf<R>, g: &JetOf<R>) -> Result<JetOf<R>, Fault>
    requires ring { R.is_ring ring.now }
    requires left { IsJet (R.meaning ring.now) f.now }
    requires right { IsJet (R.meaning ring.now) g.now }
    requires same_variables { g.now.n ≡ f.now.n }
    requires at_most_8_variables { f.now.n ≤ 8 }
    requires order_at_most_17 { min f.now.order g.now.order ≤ 17 }
    ensures jet { IfOk result (IsJet (R.meaning ring.now)) }
    ensures n { IfOk result (λ h. h.n ≡ f.now.n) }
    ensures order { IfOk result (λ h. h.order ≡ min f.now.order g.now.order) }
    ensures sum { IfOk result (λ h. let m = R.meaning ring.now in SameIn f.now.n m.scalars.ops (poly_of f.now.n m.value h.terms)
        (cut_in f.now.n m.scalars.ops (min f.now.order g.now.order) (poly_of f.now.n m.value f.now.terms ++ poly_of f.now.n m.value g.now.terms))) }
    ensures range { OnFault result (let m = R.meaning ring.now in IsHigh (sums_heights (exps f.now.n) m.scalars
        (cut_in f.now.n m.scalars.ops (min f.now.order g.now.order) (poly_of f.now.n m.value f.now.terms ++ poly_of f.now.n m.value g.now.terms)))) }
{
    let order = f.order().min(g.order());
    sum_of(alloc, ring, f.n(), order, f.terms(), g.terms())
}
