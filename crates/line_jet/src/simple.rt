//! Jets of one term, and opposites.

ghost use Rattle.std.specs.Prelude.{◌≡◌, ◌≢◌, ◌<◌, ◌≤◌, ◌∷◌, [], sum, IfOk};
ghost use Rattle.ring_law.specs.Fraction.{IsFrac, frac_value};
ghost use Rattle.poly_law.specs.Exps as monomials;
ghost use Rattle.poly_law.specs.ExpList.{exps};
ghost use Rattle.mono_exp.specs.Exponents.{IsIn};
ghost use Rattle.jet_law.specs.Terms.{exp_of};
ghost use Rattle.germ_law.specs.Reading.{jet_of};
ghost use Rattle.germ_law.specs.Jets.{jets};
ghost use Rattle.ring_theory.specs.Rational.{rational_ops};
ghost use Rattle.ring_theory.specs.Height.{rational_scalars};
ghost use Rattle.ring_law.specs.Refusals.{OnFault};
ghost use Rattle.poly_law.specs.Poly.{scale};
ghost use Rattle.jet_law.specs.Heights.{IsHigh, scale_heights};
ghost use Rattle.line_jet_law.specs.LineJets.{IsRationalJet, rational_polynomial};

use crate::fractions::whole;
use jet_poly::Jet;
use mono_exp::Exp;
use ring_law::{Fault, Frac, Ring};
use small_frac::Rationals;
use std::alloc::{AllocError, Global};

// The jet of one term, which is none where its coefficient is 0.
fn one_term(
    alloc: Global,
    n: u8,
    k: u8,
    monomial: Exp,
    coefficient: Frac,
) -> Result<Jet<Frac>, AllocError>
    requires valid { IsFrac coefficient }
    requires variables { IsIn n monomial.e }
    requires degree { sum monomial.e ≤ k }
    ensures elem { IfOk result (IsRationalJet n k) }
    ensures value { IfOk result (λ f. rational_polynomial n f
        ≡ jet_of n k ((exp_of n monomial, frac_value coefficient) ∷ [])) }
{
    let mut terms = Vec::new(alloc);
    if coefficient.num == 0 {
        return Ok(Jet::from_rising(n, k, terms));
    }
    terms.push((monomial, coefficient))?;
    Ok(Jet::from_rising(n, k, terms))
}

// The exponents of a variable, counted from 0.
pub(crate) fn exponents_of_variable(n: u8, i: usize) -> Exp
    requires few { n ≤ 8 }
    requires within { i < n }
    ensures variables { IsIn n result.e }
    ensures degree { sum result.e ≡ 1 }
    ensures exponents { exp_of n result ≡ monomials.variable (exps n) i }
{
    let mut e = [0; 8];
    e[i] = 1;
    Exp { e }
}

/// A whole number as a jet.
pub(crate) fn constant(alloc: Global, n: u8, k: u8, value: u64) -> Result<Jet<Frac>, AllocError>
    ensures elem { IfOk result (IsRationalJet n k) }
    ensures value { IfOk result (λ f. rational_polynomial n f ≡ (jets n k).number value) }
{
    one_term(alloc, n, k, Exp { e: [0; 8] }, whole(value))
}

/// A variable as a jet, counted from 0.
pub(crate) fn variable(alloc: Global, n: u8, k: u8, i: usize) -> Result<Jet<Frac>, AllocError>
    requires few { n ≤ 8 }
    requires within { i < n }
    requires positive { 1 ≤ k }
    ensures elem { IfOk result (IsRationalJet n k) }
    ensures value { IfOk result (λ f. rational_polynomial n f ≡ (jets n k).variable i) }
{
    one_term(alloc, n, k, exponents_of_variable(n, i), whole(1))
}

/// The opposite of a jet.
pub(crate) fn opposite(alloc: Global, n: u8, k: u8, f: &Jet<Frac>) -> Result<Jet<Frac>, AllocError>
    requires { IsRationalJet n k f.now }
    ensures elem { IfOk result (IsRationalJet n k) }
    ensures value { IfOk result (λ g. rational_polynomial n g
        ≡ (jets n k).neg (rational_polynomial n f.now)) }
{
    let mut terms = Vec::new(alloc);
    for t in f.terms() {
        terms.push((t.0, Rationals.neg(t.1)))?;
    }
    Ok(Jet::from_rising(n, k, terms))
}

/// A multiple of a jet by a fraction other than 0.
///
/// Errors: `Range` only where the product with some coefficient has height 2^120 or more.
pub(crate) fn multiple(
    alloc: Global,
    n: u8,
    k: u8,
    f: &Jet<Frac>,
    q: Frac,
) -> Result<Jet<Frac>, Fault>
    requires jet { IsRationalJet n k f.now }
    requires valid { IsFrac q }
    requires nonzero { frac_value q ≢ rational_ops.zero }
    ensures elem { IfOk result (IsRationalJet n k) }
    ensures value { IfOk result (λ g. rational_polynomial n g
        ≡ jet_of n k (scale (exps n) rational_ops (frac_value q) (rational_polynomial n f.now))) }
    ensures cause { OnFault result (IsHigh (scale_heights (exps n) rational_scalars (frac_value q) (rational_polynomial n f.now))) }
{
    let mut terms = Vec::new(alloc);
    for t in f.terms() {
        let c = Rationals.mul(q, t.1)?;
        terms.push((t.0, c))?;
    }
    Ok(Jet::from_rising(n, k, terms))
}
