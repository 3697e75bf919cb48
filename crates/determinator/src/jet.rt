//! Parts of a carried jet: the coefficients of its squares, and its residual part.

ghost use Rattle.std.specs.Prelude.{◌≡◌, ◌-◌, ◌≤◌, IfOk, All, map, length};
ghost use Rattle.ring_law.specs.Refusals.{OnFault};
ghost use Rattle.jet_law.specs.Terms.{poly_of};
ghost use Rattle.jet_poly.specs.Jets.{IsJet};
ghost use Rattle.normal_forms.specs.Monomials.{residual_terms as residual_terms_of};
ghost use Rattle.move_law.specs.Split.{squares_in};
ghost use Rattle.determinator.specs.Jets.{IsListed, residual_jet};

use jet_poly::{Jet, JetOf, coef};
use mono_exp::Exp;
use normal_forms::{is_residual_monomial, square};
use ring_law::{Fault, Ring};
use std::alloc::{AllocError, Global};

/// The coefficients of the squares of the variables from the corank on.
pub fn squares_of<R: Ring>(
    alloc: Global,
    ring: &R,
    f: &JetOf<R>,
    corank: u8,
) -> Result<Vec<R::Elem>, Fault>
    requires ring { R.is_ring ring.now }
    requires jet { IsJet (R.meaning ring.now) f.now }
    requires at_most_8_variables { f.now.n ≤ 8 }
    requires corank { corank ≤ f.now.n }
    ensures elems { IfOk result (λ v. All (R.meaning ring.now).is_elem v.items) }
    ensures values { IfOk result (λ v. let m = R.meaning ring.now in map m.value v.items ≡ squares_in f.now.n m.scalars corank (poly_of f.now.n m.value f.now.terms)) }
    ensures memory { OnFault result ⊥ }
{
    let mut squares = Vec::new(alloc);
    for k in 0..f.n() - corank {
        squares.push(coef(ring, f, square(corank + k)))?;
    }
    Ok(squares)
}

// A monomial has eight exponents.
fn see_exponents(m: Exp)
    ensures { length m.e ≡ 8 }
{
    let _ = m;
}

// All monomials have eight exponents, as is seen when they are read.
fn see_places<E: Copy>(terms: &[(Exp, E)])
    ensures { All (λ t. length t.0.e ≡ 8) terms.now }
{
    for t in terms {
        see_exponents(t.0);
    }
}

/// The terms of the jet stand in order, with eight exponents each.
pub fn see_terms<E: Copy>(f: &Jet<E>)
    ensures { IsListed f.now }
{
    see_places(f.terms());
}

// The terms without the variables past the first c.
#[tactic(auto, unfolding(normal_forms::specs::Monomials::residual_terms))]
fn residual_terms<E: Copy>(
    alloc: Global,
    c: u8,
    terms: &[(Exp, E)],
) -> Result<Vec<(Exp, E)>, AllocError>
    ensures { IfOk result (λ v. v.items ≡ residual_terms_of c terms.now) }
{
    let mut kept = Vec::new(alloc);
    for t in terms {
        if is_residual_monomial(c, t.0) {
            kept.push(*t)?;
        }
    }
    Ok(kept)
}

/// The residual part of a jet, in the first variables, as many as the corank.
pub fn residual_part<E: Copy>(alloc: Global, corank: u8, f: &Jet<E>) -> Result<Jet<E>, AllocError>
    ensures listed { IsListed f.now }
    ensures part { IfOk result (λ g. g ≡ residual_jet corank f.now) }
{
    see_terms(f);
    let kept = residual_terms(alloc, corank, f.terms())?;
    Ok(Jet::from_rising(corank, f.order(), kept))
}
