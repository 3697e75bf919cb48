//! Jets made of another jet's terms, one after the other: multiples, partial derivatives and
//! truncations.

ghost use Rattle.std.specs.Prelude.{◌≡◌, ℕ, ◌<◌, ◌≤◌, ◌-◌, ◌&&◌, IfOk, filter, get_or, slice_set, sum, leb};
ghost use Rattle.ring_law.specs.Refusals.{OnFault};
ghost use Rattle.poly_law.specs.Exps.{lower};
ghost use Rattle.poly_law.specs.ExpList.{exps};
ghost use Rattle.poly_law.specs.Poly.{scale as scale_poly};
ghost use Rattle.poly_law.specs.Polynomials.{SameIn, cut_in, derivative_in};
ghost use Rattle.jet_law.specs.Heights.{IsHigh, scale_heights, derivative_heights};
ghost use Rattle.jet_law.specs.Terms.{exp_of, poly_of};
ghost use Rattle.jet_poly.specs.JetTerms.{IsRising};
ghost use Rattle.jet_poly.specs.Jets.{IsJet, component, whole};

use crate::gather::push_term;
use crate::jet::{Jet, JetOf};
use mono_exp::{Exp, degree};
use ring_law::{Fault, Frac, Ring};
use std::alloc::Global;

/// The terms whose degree is from `low` to `high`.
fn between<E: Copy>(
    alloc: Global,
    terms: &[(Exp, E)],
    low: u8,
    high: u8,
) -> Result<Vec<(Exp, E)>, Fault>
    ensures kept { IfOk result (λ v. v.items ≡ filter (λ t. leb low (sum t.0.e) && leb (sum t.0.e) high) terms.now) }
    ensures memory { OnFault result ⊥ }
{
    let mut kept = Vec::new(alloc);
    for t in terms {
        let d = degree(t.0);
        if u16::from(low) <= d && d <= u16::from(high) {
            kept.push(*t)?;
        }
    }
    Ok(kept)
}

/// The truncation of a jet at degree k: its terms of degree at most k, as a jet of order k.
pub fn cut<R: Ring>(alloc: Global, ring: &R, f: &JetOf<R>, k: u8) -> Result<JetOf<R>, Fault>
    requires ring { R.is_ring ring.now }
    requires jet { IsJet (R.meaning ring.now) f.now }
    ensures jet { IfOk result (IsJet (R.meaning ring.now)) }
    ensures n { IfOk result (λ h. h.n ≡ f.now.n) }
    ensures order { IfOk result (λ h. h.order ≡ k) }
    ensures cut { IfOk result (λ h. let m = R.meaning ring.now in SameIn f.now.n m.scalars.ops (poly_of f.now.n m.value h.terms)
        (cut_in f.now.n m.scalars.ops k (poly_of f.now.n m.value f.now.terms))) }
    ensures range { OnFault result ⊥ }
{
    let _ = ring;
    let kept = between(alloc, f.terms(), 0, k)?;
    Ok(Jet::from_rising(f.n(), k, kept))
}

/// The homogeneous component of degree d of a jet, as a jet of its order.
pub fn part<R: Ring>(alloc: Global, ring: &R, f: &JetOf<R>, d: u8) -> Result<JetOf<R>, Fault>
    requires ring { R.is_ring ring.now }
    requires jet { IsJet (R.meaning ring.now) f.now }
    ensures jet { IfOk result (IsJet (R.meaning ring.now)) }
    ensures n { IfOk result (λ h. h.n ≡ f.now.n) }
    ensures order { IfOk result (λ h. h.order ≡ f.now.order) }
    ensures part { IfOk result (λ h. let m = R.meaning ring.now in SameIn f.now.n m.scalars.ops (poly_of f.now.n m.value h.terms)
        (component f.now.n d (poly_of f.now.n m.value f.now.terms))) }
    ensures range { OnFault result ⊥ }
{
    let _ = ring;
    let kept = between(alloc, f.terms(), d, d)?;
    Ok(Jet::from_rising(f.n(), f.order(), kept))
}

/// A whole number as an element of the ring.
fn whole_number<R: Ring>(ring: &R, k: u8) -> R::Elem
    requires { R.is_ring ring.now }
    ensures elem { (R.meaning ring.now).is_elem result }
    ensures value { let m = R.meaning ring.now in m.value result ≡ whole m.scalars k }
{
    ring.inject(Frac {
        num: i128::from(k),
        den: 1,
    })
}

/// The monomial with one less at variable i, where it has that variable.
fn lowered(a: Exp, i: u8) -> Exp
    requires within { i < 8 }
    ensures exponents { result.e ≡ slice_set a.e i (get_or a.e i 0 - 1) }
    ensures lower { (n : ℕ) → exp_of n result ≡ lower (exps n) i (exp_of n a) }
{
    let mut e = a.e;
    e[usize::from(i)] = e[usize::from(i)].saturating_sub(1);
    Exp { e }
}

/// The jet of a times the terms.
fn scaled<R: Ring>(
    alloc: Global,
    ring: &R,
    n: u8,
    order: u8,
    terms: &[(Exp, R::Elem)],
    a: R::Elem,
) -> Result<JetOf<R>, Fault>
    requires ring { R.is_ring ring.now }
    requires elem { (R.meaning ring.now).is_elem a }
    requires jet { IsJet (R.meaning ring.now) (record { n = n; order = order; terms = terms.now }) }
    requires rising { IsRising terms.now }
    ensures jet { IfOk result (IsJet (R.meaning ring.now)) }
    ensures n { IfOk result (λ h. h.n ≡ n) }
    ensures order { IfOk result (λ h. h.order ≡ order) }
    ensures product { IfOk result (λ h. let m = R.meaning ring.now in SameIn n m.scalars.ops (poly_of n m.value h.terms)
        (scale_poly (exps n) m.scalars.ops (m.value a) (poly_of n m.value terms.now))) }
    ensures range { OnFault result (let m = R.meaning ring.now in IsHigh (scale_heights (exps n) m.scalars (m.value a) (poly_of n m.value terms.now))) }
{
    let mut kept = Vec::new(alloc);
    for t in terms {
        let c = ring.mul(a, t.1)?;
        push_term(ring, &mut kept, t.0, c)?;
    }
    Ok(Jet::from_rising(n, order, kept))
}

/// The product of a jet and a ring element, as a jet of its order.
///
/// Errors: `Range` only where the element or its product with a coefficient has height 2^120 or more.
pub fn scale<R: Ring>(alloc: Global, ring: &R, f: &JetOf<R>, c: R::Elem) -> Result<JetOf<R>, Fault>
    requires ring { R.is_ring ring.now }
    requires elem { (R.meaning ring.now).is_elem c }
    requires jet { IsJet (R.meaning ring.now) f.now }
    ensures jet { IfOk result (IsJet (R.meaning ring.now)) }
    ensures n { IfOk result (λ h. h.n ≡ f.now.n) }
    ensures order { IfOk result (λ h. h.order ≡ f.now.order) }
    ensures product { IfOk result (λ h. let m = R.meaning ring.now in SameIn f.now.n m.scalars.ops (poly_of f.now.n m.value h.terms)
        (scale_poly (exps f.now.n) m.scalars.ops (m.value c) (poly_of f.now.n m.value f.now.terms))) }
    ensures range { OnFault result (let m = R.meaning ring.now in IsHigh (scale_heights (exps f.now.n) m.scalars (m.value c) (poly_of f.now.n m.value f.now.terms))) }
{
    scaled(alloc, ring, f.n(), f.order(), f.terms(), c)
}

/// The jet of the partial derivatives of the terms in variable i.
fn derived<R: Ring>(
    alloc: Global,
    ring: &R,
    n: u8,
    order: u8,
    terms: &[(Exp, R::Elem)],
    i: u8,
) -> Result<JetOf<R>, Fault>
    requires ring { R.is_ring ring.now }
    requires at_most_8_variables { n ≤ 8 }
    requires variable { i < n }
    requires jet { IsJet (R.meaning ring.now) (record { n = n; order = order; terms = terms.now }) }
    requires rising { IsRising terms.now }
    ensures jet { IfOk result (IsJet (R.meaning ring.now)) }
    ensures n { IfOk result (λ h. h.n ≡ n) }
    ensures order { IfOk result (λ h. h.order ≡ order) }
    ensures derivative { IfOk result (λ h. let m = R.meaning ring.now in SameIn n m.scalars.ops (poly_of n m.value h.terms)
        (derivative_in n m.scalars.ops i (poly_of n m.value terms.now))) }
    ensures range { OnFault result (let m = R.meaning ring.now in IsHigh (derivative_heights (exps n) m.scalars i (poly_of n m.value terms.now))) }
{
    let mut kept = Vec::new(alloc);
    for t in terms {
        let c = ring.mul(whole_number(ring, t.0.e[usize::from(i)]), t.1)?;
        push_term(ring, &mut kept, lowered(t.0, i), c)?;
    }
    Ok(Jet::from_rising(n, order, kept))
}

/// The partial derivative of a jet in variable i, as a jet of its order.
///
/// Errors: `Range` only where the product of an exponent and its coefficient has height 2^120 or more.
pub fn derivative<R: Ring>(alloc: Global, ring: &R, f: &JetOf<R>, i: u8) -> Result<JetOf<R>, Fault>
    requires ring { R.is_ring ring.now }
    requires jet { IsJet (R.meaning ring.now) f.now }
    requires at_most_8_variables { f.now.n ≤ 8 }
    requires variable { i < f.now.n }
    ensures jet { IfOk result (IsJet (R.meaning ring.now)) }
    ensures n { IfOk result (λ h. h.n ≡ f.now.n) }
    ensures order { IfOk result (λ h. h.order ≡ f.now.order) }
    ensures derivative { IfOk result (λ h. let m = R.meaning ring.now in SameIn f.now.n m.scalars.ops (poly_of f.now.n m.value h.terms)
        (derivative_in f.now.n m.scalars.ops i (poly_of f.now.n m.value f.now.terms))) }
    ensures range { OnFault result (let m = R.meaning ring.now in IsHigh (derivative_heights (exps f.now.n) m.scalars i (poly_of f.now.n m.value f.now.terms))) }
{
    derived(alloc, ring, f.n(), f.order(), f.terms(), i)
}
