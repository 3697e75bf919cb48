//! Jets of terms whose monomials differ, without any sum.

ghost use Rattle.std.specs.Prelude.{◌≡◌, ◌≢◌, ℕ, ◌≤◌, ◌+◌, insert, IfOk, OnOk, All, IsTrue, length, sum};
ghost use Rattle.std.specs.List.{position_or_len};
ghost use Rattle.std.specs.List.Sorted.{IsPermutation};
ghost use Rattle.ring_law.specs.Refusals.{OnFault};
ghost use Rattle.poly_law.specs.Polynomials.{SameIn};
ghost use Rattle.mono_exp.specs.Exponents.{IsIn, is_before};
ghost use Rattle.jet_law.specs.Terms.{poly_of};
ghost use Rattle.jet_poly.specs.JetTerms.{IsRising};
ghost use Rattle.jet_poly.specs.Jets.{IsJet};
ghost use Rattle.jet_poly.specs.Gathered.{nonzero};
ghost use Rattle.normal_forms.specs.Distinct.{are_distinct, exponents_in};

use jet_poly::{Jet, JetOf};
use mono_exp::{Exp, before};
use ring_law::{Fault, Ring};
use std::alloc::Global;

// How many terms stand before the first one whose monomial is after m.
fn place_of<E: Copy>(terms: &[(Exp, E)], m: Exp) -> usize
    ensures within { result ≤ length terms.now }
    ensures place { result ≡ position_or_len (λ t. is_before m.e t.0.e) terms.now }
{
    for (place, t) in terms.iter().enumerate() {
        if before(m, t.0) {
            return place;
        }
    }
    terms.len()
}

// Inserts a term in the monomial order.
fn insert_term<E: Copy>(terms: &mut Vec<(Exp, E)>, m: Exp, c: E) -> Result<(), Fault>
    requires rising { IsRising terms.old.items }
    requires long { All (λ t. length t.0.e ≡ 8) terms.old.items }
    requires monomial { length m.e ≡ 8 }
    requires apart { All (λ t. t.0.e ≢ m.e) terms.old.items }
    ensures rising { OnOk result (IsRising terms.new.items) }
    ensures inserted { OnOk result ((place : ℕ) × (terms.new.items ≡ insert terms.old.items place (m, c))) }
    ensures memory { OnFault result ⊥ }
{
    terms.insert(place_of(terms, m), (m, c))?;
    Ok(())
}

/// The jet of terms in n variables up to the order whose monomials differ. No sum is formed, so the
/// only error is want of memory.
pub(crate) fn jet_of_distinct<R: Ring>(
    alloc: Global,
    ring: &R,
    n: u8,
    order: u8,
    terms: &[(Exp, R::Elem)],
) -> Result<JetOf<R>, Fault>
    requires ring { R.is_ring ring.now }
    requires elems { All (λ t. (R.meaning ring.now).is_elem t.1) terms.now }
    requires variables { All (λ t. IsIn n t.0.e) terms.now }
    requires degrees { All (λ t. sum t.0.e ≤ order) terms.now }
    requires long { All (λ t. length t.0.e ≡ 8) terms.now }
    requires distinct { IsTrue (are_distinct (exponents_in terms.now)) }
    ensures jet { IfOk result (IsJet (R.meaning ring.now)) }
    ensures n { IfOk result (λ f. f.n ≡ n) }
    ensures order { IfOk result (λ f. f.order ≡ order) }
    ensures sum { IfOk result (λ f. let m = R.meaning ring.now in SameIn n m.scalars.ops (poly_of n m.value f.terms) (poly_of n m.value terms.now)) }
    ensures terms { IfOk result (λ f. let m = R.meaning ring.now in IsPermutation (nonzero m.scalars m.value terms.now) f.terms) }
    ensures memory { OnFault result ⊥ }
{
    let mut kept = Vec::new(alloc);
    for t in terms {
        if !ring.eq(t.1, ring.zero()) {
            insert_term(&mut kept, t.0, t.1)?;
        }
    }
    Ok(Jet::from_rising(n, order, kept))
}
