//! Polynomials in the variables u1 to un.

ghost use Rattle.std.specs.Prelude.{◌≡◌, ◌++◌, List, None, IfOk, IfSome, not, ◌&&◌};
ghost use Rattle.std.specs.List.{AllByRecursion};
ghost use Rattle.ring_law.specs.declared.fraction.Frac.{Frac};
ghost use Rattle.ext_algebra.specs.declared.algebra.Ext.{Ext};
ghost use Rattle.ext_algebra.specs.Algebra.{is_element};
ghost use Rattle.mono_exp.specs.declared.exponent.Exp.{Exp};
ghost use Rattle.poly_text.specs.Polynomials.{jet_text};
ghost use Rattle.cert_text.specs.WellFormed.{IsJetOf, is_term_of, is_zero_element};
ghost use Rattle.text_reader.specs.Reading.{IsTextOf, IsNoText};
ghost use Rattle.text_reader.specs.Pieces.{joined, AreFractions};
ghost use Rattle.text_reader.specs.Terms.{is_after_last, constant_terms, AreTermsOf, terms_text, IsHigherTerm};

use crate::element::{is_zero, signed, take_element, vanishes_past};
use crate::monomial::is_within;
use crate::splitting::is_text;
use crate::term::take_term;
use ext_algebra::{Algebra, Ext};
use jet_poly::Jet;
use mono_exp::{Exp, before};
use ring_law::{Frac, NoMemory};
use std::alloc::Global;

// An element of the algebra other than 0.
fn is_coefficient(a: Algebra, e: Ext<Frac>) -> bool
    requires { AreFractions e }
    ensures { result ≡ (is_element a e && not (is_zero_element e)) }
{
    if is_zero(e) {
        false
    } else {
        vanishes_past(a, e)
    }
}

// The term is one of a jet of this order in n variables over the algebra.
fn is_valid(a: Algebra, n: u8, order: u8, term: (Exp, Ext<Frac>)) -> bool
    requires { AreFractions term.1 }
    ensures { result ≡ is_term_of n order a term }
{
    if is_within(n, order, term.0) {
        is_coefficient(a, term.1)
    } else {
        false
    }
}

// The monomial stands after the last of the terms.
fn is_after(terms: &[(Exp, Ext<Frac>)], m: Exp) -> bool
    ensures { result ≡ is_after_last terms.now m }
{
    if terms.is_empty() {
        true
    } else {
        before(terms[terms.len() - 1].0, m)
    }
}

// The term is one of a jet of this order, and stands after these terms.
fn is_next(a: Algebra, n: u8, order: u8, terms: &[(Exp, Ext<Frac>)], term: (Exp, Ext<Frac>)) -> bool
    requires { AreFractions term.1 }
    ensures { result ≡ (is_term_of n order a term && is_after_last terms.now term.0) }
{
    if is_valid(a, n, order, term) {
        is_after(terms, term.0)
    } else {
        false
    }
}

// The constant term, and no term for 0.
fn constant_term(
    alloc: Global,
    a: Algebra,
    n: u8,
    order: u8,
    e: Ext<Frac>,
) -> Result<Option<Vec<(Exp, Ext<Frac>)>>, NoMemory>
    requires { AreFractions e }
    ensures some { IfOk result (λ found. IfSome found (λ terms. (terms.items ≡ constant_terms e) × AreTermsOf n order a terms.items)) }
    ensures none { IfOk result (λ found. found ≡ None → AreTermsOf n order a (constant_terms e) → ⊥) }
{
    let mut terms = Vec::new(alloc);
    if is_zero(e) {
        return Ok(Some(terms));
    }
    let term = (Exp { e: [0; 8] }, e);
    if is_valid(a, n, order, term) {
        terms.push(term)?;
        Ok(Some(terms))
    } else {
        Ok(None)
    }
}

// The jet of these terms and those of a sum, which are not constant.
fn read_higher(
    a: Algebra,
    n: u8,
    order: u8,
    mut terms: Vec<(Exp, Ext<Frac>)>,
    mut sum: Option<(u8, &[u8])>,
) -> Result<Option<Jet<Ext<Frac>>>, NoMemory>
    requires { AreTermsOf n order a terms.items }
    ensures some { IfOk result (λ found. IfSome found (λ f. IsJetOf n order a f × (terms_text f.terms ≡ terms_text terms.items ++ joined sum.entry))) }
    ensures none { IfOk result (λ found. found ≡ None → (more : List (Exp × Ext Frac)) → AreTermsOf n order a (terms.items ++ more) → AllByRecursion IsHigherTerm more
        → terms_text more ≡ joined sum.entry → ⊥) }
{
    while let Some((sign, behind)) = sum {
        let Some((term, rest)) = take_term(sign, behind) else {
            return Ok(None);
        };
        if !is_next(a, n, order, &terms, term) {
            return Ok(None);
        }
        terms.push(term)?;
        sum = rest;
    }
    Ok(Some(Jet::from_rising(n, order, terms)))
}

/// A polynomial in the variables u1 to un of degree at most the order over an algebra, as `u1^2-(1+t)*u1*u2`.
pub fn read_polynomial(
    alloc: Global,
    a: Algebra,
    n: u8,
    order: u8,
    bytes: &[u8],
) -> Result<Option<Jet<Ext<Frac>>>, NoMemory>
    ensures some { IfOk result (λ found. IfSome found (IsTextOf (IsJetOf n order a) jet_text bytes.now)) }
    ensures none { IfOk result (λ found. found ≡ None → IsNoText (IsJetOf n order a) jet_text bytes.now) }
{
    if is_text(bytes, b"0") {
        return Ok(Some(Jet::from_rising(n, order, Vec::new(alloc))));
    }
    let (constant, sum) = take_element(signed(bytes));
    match constant_term(alloc, a, n, order, constant)? {
        None => Ok(None),
        Some(terms) => read_higher(a, n, order, terms, sum),
    }
}
