//! The terms of one degree of a substitution.

ghost use Rattle.std.specs.Prelude.{◌≡◌, ℕ, ◌≤◌, length, IfOk, OnOk, All, filter, sum, eqb};
ghost use Rattle.poly_law.specs.ExpList.{exps};
ghost use Rattle.poly_law.specs.Polynomials.{SameIn, substitute};
ghost use Rattle.ring_law.specs.Refusals.{OnFault};
ghost use Rattle.mono_exp.specs.Exponents.{IsIn};
ghost use Rattle.jet_law.specs.Terms.{poly_of};
ghost use Rattle.jet_poly.specs.Jets.{IsJet, component};
ghost use Rattle.jet_subst.specs.Parts.{part_of, IsMultipleAmongHigh};
ghost use Rattle.jet_subst.specs.Blocks.{AddsBlock};
ghost use Rattle.jet_subst.specs.KeptPowers.{IsKept, KeepsParts};
ghost use Rattle.jet_subst.specs.Substitutions.{IsSubstHigh};

use crate::keeping::{Kept, product};
use crate::substitution::push_scaled;
use jet_poly::{JetOf, from_terms};
use mono_exp::{Exp, degree};
use ring_law::{Fault, Ring};
use std::alloc::{AllocError, Global};

/// The terms of degree d.
fn of_degree<E: Copy>(alloc: Global, terms: &[(Exp, E)], d: u8) -> Result<Vec<(Exp, E)>, AllocError>
    ensures { IfOk result (λ v. v.items ≡ filter (λ t. eqb (sum t.0.e) d) terms.now) }
{
    let mut block = Vec::new(alloc);
    for t in terms {
        if degree(t.0) == u16::from(d) {
            block.push(*t)?;
        }
    }
    Ok(block)
}

/// Adds the terms of c*φ^a whose degree is the order of the kept products, for the term t = c*x^a.
fn push_block<R: Ring>(
    kept: &mut Kept<R::Elem>,
    alloc: Global,
    ring: &R,
    all: &mut Vec<(Exp, R::Elem)>,
    t: (Exp, R::Elem),
) -> Result<(), Fault>
    requires ring { R.is_ring ring.now }
    requires kept { IsKept (R.meaning ring.now) kept.old }
    requires inside { IsIn (length kept.old.parts) t.0.e }
    requires degree { sum t.0.e ≤ kept.old.order }
    requires elem { (R.meaning ring.now).is_elem t.1 }
    requires elems { All (λ u. (R.meaning ring.now).is_elem u.1) all.old.items }
    requires variables { All (λ u. IsIn kept.old.n u.0.e) all.old.items }
    ensures kept { IsKept (R.meaning ring.now) kept.new }
    ensures stays { KeepsParts kept.old kept.new }
    ensures elems { OnOk result (All (λ u. (R.meaning ring.now).is_elem u.1) all.new.items) }
    ensures variables { OnOk result (All (λ u. IsIn kept.old.n u.0.e) all.new.items) }
    ensures adds { OnOk result (AddsBlock (R.meaning ring.now) kept.old.n kept.old.order kept.old.parts t all.old.items all.new.items) }
    ensures range { OnFault result (IsMultipleAmongHigh (R.meaning ring.now) kept.old.n kept.old.order kept.old.parts t) }
{
    let power = product(kept, alloc, ring, t.0)?;
    let block = of_degree(alloc, power.terms(), kept.order)?;
    push_scaled(ring, all, t.1, &block)
}

/// The terms of f(φ) whose degree is the order of the kept products of φ: a jet of that order. No
/// other terms of f(φ) are formed.
///
/// Errors: `Range` only where a number that the definition of f(φ), cut at that order, forms has
/// height 2^120 or more. The kept products stay.
pub fn block<R: Ring>(
    kept: &mut Kept<R::Elem>,
    alloc: Global,
    ring: &R,
    f: &JetOf<R>,
) -> Result<JetOf<R>, Fault>
    requires ring { R.is_ring ring.now }
    requires kept { IsKept (R.meaning ring.now) kept.old }
    requires jet { IsJet (R.meaning ring.now) f.now }
    requires one_each { length kept.old.parts ≡ f.now.n }
    requires degree { f.now.order ≤ kept.old.order }
    ensures kept { IsKept (R.meaning ring.now) kept.new }
    ensures stays { KeepsParts kept.old kept.new }
    ensures jet { IfOk result (IsJet (R.meaning ring.now)) }
    ensures n { IfOk result (λ h. h.n ≡ kept.old.n) }
    ensures order { IfOk result (λ h. h.order ≡ kept.old.order) }
    ensures block { IfOk result (λ h. let m = R.meaning ring.now in let n = kept.old.n in SameIn n m.scalars.ops (poly_of n m.value h.terms)
        (component n kept.old.order (substitute f.now.n n m.scalars.ops (part_of n m.value kept.old.parts) (poly_of f.now.n m.value f.now.terms)))) }
    ensures range { OnFault result (let m = R.meaning ring.now in let n = kept.old.n in
        IsSubstHigh (exps f.now.n) (exps n) m.scalars kept.old.order (part_of n m.value kept.old.parts) (poly_of f.now.n m.value f.now.terms)) }
{
    let mut all = Vec::new(alloc);
    for t in f.terms() {
        push_block(kept, alloc, ring, &mut all, *t)?;
    }
    from_terms(alloc, ring, kept.n, kept.order, &all)
}
