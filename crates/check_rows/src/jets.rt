//! Equal jets, and the jet of a monomial.

ghost use Rattle.std.specs.Prelude.{◌≡◌, ◌≤◌, ◌↔◌, IfOk, IsTrue, sum};
ghost use Rattle.ring_law.specs.Refusals.{OnFault};
ghost use Rattle.poly_law.specs.Polynomials.{SameIn, StartsAtIn, term_in};
ghost use Rattle.mono_exp.specs.Exponents.{IsIn};
ghost use Rattle.jet_law.specs.Terms.{exp_of, poly_of};
ghost use Rattle.jet_poly.specs.Jets.{IsJet, polynomial_of};

use jet_poly::{Jet, JetOf};
use mono_exp::{Exp, degree};
use report_jet::are_same_terms;
use ring_law::{Fault, Ring};
use std::alloc::Global;

/// True where two jets in the same variables are equal.
pub fn is_same_jet<R: Ring>(ring: &R, f: &JetOf<R>, g: &JetOf<R>) -> bool
    requires ring { R.is_ring ring.now }
    requires left { IsJet (R.meaning ring.now) f.now }
    requires right { IsJet (R.meaning ring.now) g.now }
    requires same_variables { g.now.n ≡ f.now.n }
    requires at_most_8_variables { f.now.n ≤ 8 }
    requires left_order_at_most_17 { f.now.order ≤ 17 }
    requires right_order_at_most_17 { g.now.order ≤ 17 }
    ensures { IsTrue result ↔ (let m = R.meaning ring.now in SameIn f.now.n m.scalars.ops (polynomial_of m f.now) (poly_of f.now.n m.value g.now.terms)) }
{
    are_same_terms(ring, f.n(), f.terms(), g.terms())
}

/// True where a jet has no term of degree below 2.
pub(crate) fn starts_at_two<R: Ring>(ring: &R, f: &JetOf<R>) -> bool
    requires ring { R.is_ring ring.now }
    requires jet { IsJet (R.meaning ring.now) f.now }
    ensures { IsTrue result ↔ (let m = R.meaning ring.now in StartsAtIn f.now.n m.scalars.ops 2 (polynomial_of m f.now)) }
{
    let _ = ring;
    let terms = f.terms();
    for t in terms {
        if degree(t.0) < 2 {
            return false;
        }
    }
    true
}

/// The jet of a monomial of degree at most the order.
pub fn monomial_jet<R: Ring>(
    alloc: Global,
    ring: &R,
    n: u8,
    order: u8,
    a: Exp,
) -> Result<JetOf<R>, Fault>
    requires ring { R.is_ring ring.now }
    requires unused { IsIn n a.e }
    requires degree { sum a.e ≤ order }
    ensures jet { IfOk result (IsJet (R.meaning ring.now)) }
    ensures n { IfOk result (λ f. f.n ≡ n) }
    ensures order { IfOk result (λ f. f.order ≡ order) }
    ensures monomial { IfOk result (λ f. let m = R.meaning ring.now in poly_of n m.value f.terms ≡ term_in n m.scalars.ops (exp_of n a)) }
    ensures memory { OnFault result ⊥ }
{
    let mut terms = Vec::new(alloc);
    terms.push((a, ring.one()))?;
    Ok(Jet::from_rising(n, order, terms))
}
