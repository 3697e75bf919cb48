//! Coefficients of jets.

ghost use Rattle.std.specs.Prelude.{◌≡◌, ◌≤◌, true, false};
ghost use Rattle.std.specs.List.Sorted.{IsPartitionPoint};
ghost use Rattle.poly_law.specs.Exps.{same};
ghost use Rattle.poly_law.specs.ExpList.{exps};
ghost use Rattle.poly_law.specs.Polynomials.{coefficient_in};
ghost use Rattle.mono_exp.specs.Exponents.{IsIn, is_before};
ghost use Rattle.jet_law.specs.Terms.{exp_of, poly_of};
ghost use Rattle.jet_poly.specs.JetTerms.{IsRising};
ghost use Rattle.jet_poly.specs.Jets.{IsJet};

use crate::jet::JetOf;
use mono_exp::{Exp, before};
use ring_law::Ring;

/// True where two monomials have the same exponents.
fn is_same(a: Exp, b: Exp) -> bool
    ensures { result ≡ same (exps 8) (exp_of 8 a) (exp_of 8 b) }
{
    for i in 0..8 {
        if a.e[i] != b.e[i] {
            return false;
        }
    }
    true
}

// The place of the first term that does not stand before a monomial.
fn place_of<E>(terms: &[(Exp, E)], a: Exp) -> usize
    requires rising { IsRising terms.now }
    ensures place { IsPartitionPoint (λ t. is_before t.0.e a.e ≡ true) (λ t. is_before t.0.e a.e ≡ false) terms.now result }
{
    terms.partition_point(|t| before(t.0, a))
}

/// The coefficient of a jet at a monomial, zero where it has no such term.
pub fn coef<R: Ring>(ring: &R, f: &JetOf<R>, a: Exp) -> R::Elem
    requires ring { R.is_ring ring.now }
    requires jet { IsJet (R.meaning ring.now) f.now }
    requires at_most_8_variables { f.now.n ≤ 8 }
    ensures elem { (R.meaning ring.now).is_elem result }
    ensures value { let m = R.meaning ring.now in m.value result ≡ coefficient_in 8 m.scalars.ops (poly_of 8 m.value f.now.terms) (exp_of 8 a) }
    ensures in_variables { IsIn f.now.n a.e → (let m = R.meaning ring.now in m.value result ≡ coefficient_in f.now.n m.scalars.ops (poly_of f.now.n m.value f.now.terms) (exp_of f.now.n a)) }
{
    let terms = f.terms();
    match terms.get(place_of(terms, a)) {
        Some(t) if is_same(t.0, a) => t.1,
        _ => ring.zero(),
    }
}
