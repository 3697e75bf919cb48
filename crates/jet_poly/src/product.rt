//! Products of jets, cut at a degree.

ghost use Rattle.std.specs.Prelude.{◌≡◌, ◌+◌, ◌≤◌, ◌++◌, [], ◌∷◌, IfOk, OnOk, All, sum};
ghost use Rattle.ring_law.specs.Refusals.{OnFault};
ghost use Rattle.poly_law.specs.Exps.{plus};
ghost use Rattle.poly_law.specs.ExpList.{exps};
ghost use Rattle.poly_law.specs.Poly.{times_term};
ghost use Rattle.poly_law.specs.Polynomials.{SameIn, times_in, cut_in};
ghost use Rattle.mono_exp.specs.Exponents.{IsIn};
ghost use Rattle.jet_law.specs.Heights.{IsHigh, product_heights};
ghost use Rattle.jet_law.specs.Terms.{exp_of, poly_of};
ghost use Rattle.jet_poly.specs.JetTerms.{IsRising};
ghost use Rattle.jet_poly.specs.Jets.{IsJet};
ghost use Rattle.jet_poly.specs.Gathered.{gathered, IsGathered, IsProductHigh, IsRowHigh};

use crate::gather::{add_term, finished};
use crate::jet::{Jet, JetOf};
use indexmap::IndexMap;
use mono_exp::{Exp, degree, times};
use ring_law::{Fault, Ring};
use std::alloc::Global;

/// Adds the product of two terms whose degree is at most k.
fn add_product<R: Ring>(
    ring: &R,
    n: u8,
    k: u8,
    sums: &mut IndexMap<u32, R::Elem>,
    u: (Exp, R::Elem),
    t: (Exp, R::Elem),
) -> Result<(), Fault>
    requires ring { R.is_ring ring.now }
    requires at_most_8_variables { n ≤ 8 }
    requires order_at_most_17 { k ≤ 17 }
    requires u_elem { (R.meaning ring.now).is_elem u.1 }
    requires t_elem { (R.meaning ring.now).is_elem t.1 }
    requires u_variables { IsIn n u.0.e }
    requires t_variables { IsIn n t.0.e }
    requires degree { sum u.0.e + sum t.0.e ≤ k }
    requires gathered { IsGathered n k (R.meaning ring.now) sums.old.entries }
    ensures gathered { OnOk result (IsGathered n k (R.meaning ring.now) sums.new.entries) }
    ensures sum { OnOk result (let m = R.meaning ring.now in SameIn n m.scalars.ops (gathered n m.value sums.new.entries)
        (cut_in n m.scalars.ops k ((plus (exps n) (exp_of n u.0) (exp_of n t.0), m.scalars.ops.mul (m.value u.1) (m.value t.1)) ∷ []) ++ gathered n m.value sums.old.entries)) }
    ensures range { OnFault result (let m = R.meaning ring.now in IsProductHigh n m.scalars k (gathered n m.value sums.old.entries) (exp_of n u.0, m.value u.1) (exp_of n t.0, m.value t.1)) }
{
    let monomial = times(u.0, t.0).unwrap();
    let c = ring.mul(u.1, t.1)?;
    add_term(ring, n, k, sums, monomial, c)
}

/// Adds the products of u with the terms of g; the terms of g rise in degree, so from the first product above degree k on none is formed.
fn add_row<R: Ring>(
    ring: &R,
    n: u8,
    k: u8,
    sums: &mut IndexMap<u32, R::Elem>,
    u: (Exp, R::Elem),
    g: &[(Exp, R::Elem)],
) -> Result<(), Fault>
    requires ring { R.is_ring ring.now }
    requires at_most_8_variables { n ≤ 8 }
    requires order_at_most_17 { k ≤ 17 }
    requires elem { (R.meaning ring.now).is_elem u.1 }
    requires variables { IsIn n u.0.e }
    requires elems { All (λ t. (R.meaning ring.now).is_elem t.1) g.now }
    requires all_variables { All (λ t. IsIn n t.0.e) g.now }
    requires rising { IsRising g.now }
    requires gathered { IsGathered n k (R.meaning ring.now) sums.old.entries }
    ensures gathered { OnOk result (IsGathered n k (R.meaning ring.now) sums.new.entries) }
    ensures sum { OnOk result (let m = R.meaning ring.now in SameIn n m.scalars.ops (gathered n m.value sums.new.entries)
        (gathered n m.value sums.old.entries ++ cut_in n m.scalars.ops k (times_term (exps n) m.scalars.ops (exp_of n u.0, m.value u.1) (poly_of n m.value g.now)))) }
    ensures range { OnFault result (let m = R.meaning ring.now in IsRowHigh n m.scalars k (gathered n m.value sums.old.entries) (exp_of n u.0, m.value u.1) (poly_of n m.value g.now)) }
{
    for t in g {
        if degree(u.0) + degree(t.0) > u16::from(k) {
            return Ok(());
        }
        add_product(ring, n, k, sums, u, *t)?;
    }
    Ok(())
}

/// The product of two lists of terms, cut at degree k.
fn product_of<R: Ring>(
    alloc: Global,
    ring: &R,
    n: u8,
    k: u8,
    f: &[(Exp, R::Elem)],
    g: &[(Exp, R::Elem)],
) -> Result<JetOf<R>, Fault>
    requires ring { R.is_ring ring.now }
    requires at_most_8_variables { n ≤ 8 }
    requires order_at_most_17 { k ≤ 17 }
    requires f_elems { All (λ t. (R.meaning ring.now).is_elem t.1) f.now }
    requires f_variables { All (λ t. IsIn n t.0.e) f.now }
    requires g_elems { All (λ t. (R.meaning ring.now).is_elem t.1) g.now }
    requires g_variables { All (λ t. IsIn n t.0.e) g.now }
    requires g_rising { IsRising g.now }
    ensures jet { IfOk result (IsJet (R.meaning ring.now)) }
    ensures n { IfOk result (λ h. h.n ≡ n) }
    ensures order { IfOk result (λ h. h.order ≡ k) }
    ensures product { IfOk result (λ h. let m = R.meaning ring.now in SameIn n m.scalars.ops (poly_of n m.value h.terms)
        (cut_in n m.scalars.ops k (times_in n m.scalars.ops (poly_of n m.value f.now) (poly_of n m.value g.now)))) }
    ensures range { OnFault result (let m = R.meaning ring.now in IsHigh (product_heights (exps n) m.scalars k (poly_of n m.value f.now) (poly_of n m.value g.now))) }
{
    let mut sums = IndexMap::new(alloc);
    for u in f {
        add_row(ring, n, k, &mut sums, *u, g)?;
    }
    finished(alloc, ring, n, k, sums)
}

/// The product of two jets in the same variables, cut at degree k.
///
/// Errors: `Range` only where a coefficient, a product of two coefficients or the sum of the
/// products at some monomial of degree at most k has height 2^120 or more.
pub fn mul_cut<R: Ring>(
    alloc: Global,
    ring: &R,
    f: &JetOf<R>,
    g: &JetOf<R>,
    k: u8,
) -> Result<JetOf<R>, Fault>
    requires ring { R.is_ring ring.now }
    requires left { IsJet (R.meaning ring.now) f.now }
    requires right { IsJet (R.meaning ring.now) g.now }
    requires same_variables { g.now.n ≡ f.now.n }
    requires at_most_8_variables { f.now.n ≤ 8 }
    requires order_at_most_17 { k ≤ 17 }
    ensures jet { IfOk result (IsJet (R.meaning ring.now)) }
    ensures n { IfOk result (λ h. h.n ≡ f.now.n) }
    ensures order { IfOk result (λ h. h.order ≡ k) }
    ensures product { IfOk result (λ h. let m = R.meaning ring.now in SameIn f.now.n m.scalars.ops (poly_of f.now.n m.value h.terms)
        (cut_in f.now.n m.scalars.ops k (times_in f.now.n m.scalars.ops (poly_of f.now.n m.value f.now.terms) (poly_of f.now.n m.value g.now.terms)))) }
    ensures range { OnFault result (let m = R.meaning ring.now in IsHigh (product_heights (exps f.now.n) m.scalars k (poly_of f.now.n m.value f.now.terms) (poly_of f.now.n m.value g.now.terms))) }
{
    product_of(alloc, ring, f.n(), k, f.terms(), g.terms())
}
