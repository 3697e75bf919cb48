//! Jets over the rational numbers as jets over an algebra.

ghost use Rattle.std.specs.Prelude.{◌≡◌, IfOk};
ghost use Rattle.ring_law.specs.Fraction.{frac_value, rational_meaning};
ghost use Rattle.ext_algebra.specs.declared.algebra.Algebra.{Algebra};
ghost use Rattle.ext_algebra.specs.Algebra.{algebra_meaning, value_in};
ghost use Rattle.jet_law.specs.Terms.{poly_of};
ghost use Rattle.jet_poly.specs.Jets.{IsJet};
ghost use Rattle.report_law.specs.Polynomials.{lifted as lifted_polynomial};
ghost use Rattle.report_jet.specs.Lifted.{lifted_element as lifted_element_of, lifted_terms as lifted_terms_of};

use ext_algebra::Ext;
use jet_poly::Jet;
use mono_exp::Exp;
use ring_law::{Frac, NoMemory};
use std::alloc::Global;

/// The rational number q as an element, the same in every algebra.
pub fn lifted_element(q: Frac) -> Ext<Frac>
    ensures { result ≡ lifted_element_of q }
{
    let zero = Frac { num: 0, den: 1 };
    Ext {
        c0: q,
        c1: zero,
        c2: zero,
        c3: zero,
        c4: zero,
        c5: zero,
    }
}

// The terms with their coefficients as elements.
#[tactic(auto, unfolding(crate::specs::Lifted::lifted_terms))]
fn lifted_terms(alloc: Global, terms: &[(Exp, Frac)]) -> Result<Vec<(Exp, Ext<Frac>)>, NoMemory>
    ensures { IfOk result (λ v. v.items ≡ lifted_terms_of terms.now) }
{
    let mut lifted = Vec::new(alloc);
    for t in terms {
        lifted.push((t.0, lifted_element(t.1)))?;
    }
    Ok(lifted)
}

/// A jet over the rational numbers, over any algebra: its coefficients as elements.
pub fn lifted_jet(alloc: Global, f: &Jet<Frac>) -> Result<Jet<Ext<Frac>>, NoMemory>
    requires jet { IsJet rational_meaning f.now }
    ensures jet { IfOk result (λ h. (a : Algebra) → IsJet (algebra_meaning a) h) }
    ensures n { IfOk result (λ h. h.n ≡ f.now.n) }
    ensures order { IfOk result (λ h. h.order ≡ f.now.order) }
    ensures polynomial { IfOk result (λ h. (a : Algebra) → poly_of f.now.n (value_in a) h.terms ≡ lifted_polynomial f.now.n a (poly_of f.now.n frac_value f.now.terms)) }
{
    let terms = lifted_terms(alloc, f.terms())?;
    Ok(Jet::from_rising(f.n(), f.order(), terms))
}
