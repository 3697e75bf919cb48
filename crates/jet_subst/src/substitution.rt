//! Substitution of jets for the variables of a jet.

ghost use Rattle.std.specs.Prelude.{◌≡◌, ℕ, ◌≤◌, ◌<◌, ◌++◌, length, IfOk, OnOk, All};
ghost use Rattle.poly_law.specs.ExpList.{exps};
ghost use Rattle.poly_law.specs.Poly.{scale};
ghost use Rattle.poly_law.specs.Polynomials.{SameIn, cut_in, substitute};
ghost use Rattle.ring_law.specs.Refusals.{OnFault};
ghost use Rattle.mono_exp.specs.Exponents.{IsIn};
ghost use Rattle.jet_law.specs.Terms.{poly_of};
ghost use Rattle.jet_poly.specs.Jets.{IsJet};
ghost use Rattle.jet_subst.specs.Parts.{variables_of, part_of, IsPart, IsTable, HasPowers, IsMultipleAmongHigh, AddsMultiples};
ghost use Rattle.jet_subst.specs.Substitutions.{IsMultipleHigh, IsSubstHigh};

use crate::table::{monomial_product, power_table};
use jet_poly::{Jet, JetOf, from_terms};
use mono_exp::Exp;
use ring_law::{Fault, Ring};
use sqlite_items::Items;
use std::alloc::Global;

/// f with part i put for variable i, cut at degree k: the sum over the terms of f of coefficient
/// times the product of the parts' powers. It has the parts' variables and order k.
///
/// The powers of each part are computed once.
///
/// Errors: `Range` only where a number that the definition forms has height 2^120 or more: in a
/// product of two products of powers whose exponents add up to a divisor of a monomial of f, in
/// the product of a coefficient of f with one of these, or in a final sum.
pub fn subst<R: Ring>(
    alloc: Global,
    ring: &R,
    f: &JetOf<R>,
    parts: &[JetOf<R>],
    k: u8,
) -> Result<JetOf<R>, Fault>
    requires ring { R.is_ring ring.now }
    requires jet { IsJet (R.meaning ring.now) f.now }
    requires given { 0 < length parts.now }
    requires one_each { length parts.now ≡ f.now.n }
    requires at_most_8_parts { f.now.n ≤ 8 }
    requires at_most_8_variables { variables_of parts.now ≤ 8 }
    requires order_at_most_17 { k ≤ 17 }
    requires parts { All (IsPart (R.meaning ring.now) (variables_of parts.now)) parts.now }
    ensures jet { IfOk result (IsJet (R.meaning ring.now)) }
    ensures n { IfOk result (λ h. h.n ≡ variables_of parts.now) }
    ensures order { IfOk result (λ h. h.order ≡ k) }
    ensures value { IfOk result (λ h. let m = R.meaning ring.now in let n = variables_of parts.now in SameIn n m.scalars.ops (poly_of n m.value h.terms)
        (cut_in n m.scalars.ops k (substitute f.now.n n m.scalars.ops (part_of n m.value parts.now) (poly_of f.now.n m.value f.now.terms)))) }
    ensures range { OnFault result (let m = R.meaning ring.now in let n = variables_of parts.now in
        IsSubstHigh (exps f.now.n) (exps n) m.scalars k (part_of n m.value parts.now) (poly_of f.now.n m.value f.now.terms)) }
{
    let n = parts[0].n();
    let terms = f.terms();
    if terms.is_empty() {
        return Ok(Jet::from_rising(n, k, Vec::new(alloc)));
    }
    let table = power_table(alloc, ring, terms, parts, n, k)?;
    let mut all = Vec::new(alloc);
    for t in terms {
        push_multiples(alloc, ring, &mut all, *t, &table, parts, n, k)?;
    }
    from_terms(alloc, ring, n, k, &all)
}

/// Adds the terms of c*φ^a, cut at k, for the term t = c*x^a.
fn push_multiples<R: Ring>(
    alloc: Global,
    ring: &R,
    all: &mut Vec<(Exp, R::Elem)>,
    t: (Exp, R::Elem),
    table: &[Items<JetOf<R>>],
    parts: &[JetOf<R>],
    n: u8,
    k: u8,
) -> Result<(), Fault>
    requires ring { R.is_ring ring.now }
    requires at_most_8_parts { length parts.now ≤ 8 }
    requires at_most_8_variables { n ≤ 8 }
    requires order_at_most_17 { k ≤ 17 }
    requires count { length table.now ≡ length parts.now }
    requires table { IsTable (R.meaning ring.now) n k parts.now table.now }
    requires powers { HasPowers table.now t.0 }
    requires elem { (R.meaning ring.now).is_elem t.1 }
    requires elems { All (λ u. (R.meaning ring.now).is_elem u.1) all.old.items }
    requires variables { All (λ u. IsIn n u.0.e) all.old.items }
    ensures elems { OnOk result (All (λ u. (R.meaning ring.now).is_elem u.1) all.new.items) }
    ensures variables { OnOk result (All (λ u. IsIn n u.0.e) all.new.items) }
    ensures adds { OnOk result (AddsMultiples (R.meaning ring.now) n k parts.now t all.old.items all.new.items) }
    ensures range { OnFault result (IsMultipleAmongHigh (R.meaning ring.now) n k parts.now t) }
{
    let power = monomial_product(alloc, ring, table, parts, t.0, n, k)?;
    push_scaled(ring, all, t.1, power.terms())
}

/// Adds the products of c with the terms behind the others.
///
/// Errors: `Range` only where one of these products has height 2^120 or more.
pub fn push_scaled<R: Ring>(
    ring: &R,
    all: &mut Vec<(Exp, R::Elem)>,
    c: R::Elem,
    terms: &[(Exp, R::Elem)],
) -> Result<(), Fault>
    requires ring { R.is_ring ring.now }
    requires elem { (R.meaning ring.now).is_elem c }
    requires given { All (λ u. (R.meaning ring.now).is_elem u.1) terms.now }
    requires elems { All (λ u. (R.meaning ring.now).is_elem u.1) all.old.items }
    ensures elems { OnOk result (All (λ u. (R.meaning ring.now).is_elem u.1) all.new.items) }
    ensures variables { OnOk result ((n : ℕ) → All (λ u. IsIn n u.0.e) all.old.items → All (λ u. IsIn n u.0.e) terms.now → All (λ u. IsIn n u.0.e) all.new.items) }
    ensures multiples { OnOk result (let m = R.meaning ring.now in (n : ℕ) →
        poly_of n m.value all.new.items ≡ poly_of n m.value all.old.items ++ scale (exps n) m.scalars.ops (m.value c) (poly_of n m.value terms.now)) }
    ensures range { OnFault result (let m = R.meaning ring.now in (n : ℕ) → IsMultipleHigh m.scalars (m.value c) (poly_of n m.value terms.now)) }
{
    for u in terms {
        let v = ring.mul(c, u.1)?;
        all.push((u.0, v))?;
    }
    Ok(())
}
