//! The linear terms of a jet, and its terms without the constant one.

ghost use Rattle.std.specs.Prelude.{◌≡◌, ℕ, ◌<◌, ◌++◌, ◌∷◌, [], false, true, filter, IfOk, OnOk, MatchOption};
ghost use Rattle.germ_law.specs.Germ as germ;
ghost use Rattle.line_jet_law.specs.LineJets.{IsRationalJet, rational_polynomial, is_linear_at, has_linear, is_positive, positive_terms};

use jet_poly::Jet;
use mono_exp::{Exp, degree};
use ring_law::Frac;
use std::alloc::{AllocError, Global};

// Whether the monomial is the variable i alone.
fn is_linear(m: Exp, i: usize) -> bool
    requires { i < 8 }
    ensures { result ≡ is_linear_at i m }
{
    degree(m) == 1 && m.e[i] == 1
}

// Whether some term is in the variable i alone.
fn has_linear_term(terms: &[(Exp, Frac)], i: usize) -> bool
    requires { i < 8 }
    ensures { result ≡ has_linear i terms.now }
{
    for t in terms {
        if is_linear(t.0, i) {
            return true;
        }
    }
    false
}

/// The first of the first n variables that some term is in alone.
pub(crate) fn first_linear(terms: &[(Exp, Frac)], n: usize) -> Option<usize>
    requires { n < 9 }
    ensures { MatchOption result ((j : ℕ) → j < n → has_linear j terms.now ≡ false)
        (λ i. (i < n) × (has_linear i terms.now ≡ true) × ((j : ℕ) → j < i → has_linear j terms.now ≡ false)) }
{
    for i in 0..n {
        if has_linear_term(terms, i) {
            return Some(i);
        }
    }
    None
}

// Appends the term, unless it is constant.
fn push_positive(terms: &mut Vec<(Exp, Frac)>, t: (Exp, Frac)) -> Result<(), AllocError>
    ensures { OnOk result (terms.new.items ≡ terms.old.items ++ positive_terms (t ∷ [])) }
{
    if degree(t.0) == 0 {
        return Ok(());
    }
    terms.push(t)?;
    Ok(())
}

/// The jet without its constant term.
pub(crate) fn without_constant(
    alloc: Global,
    n: u8,
    k: u8,
    f: &Jet<Frac>,
) -> Result<Jet<Frac>, AllocError>
    requires { IsRationalJet n k f.now }
    ensures elem { IfOk result (IsRationalJet n k) }
    ensures value { IfOk result (λ g. rational_polynomial n g
        ≡ germ.without_constant n (rational_polynomial n f.now)) }
{
    let mut terms = Vec::new(alloc);
    for t in f.terms() {
        push_positive(&mut terms, *t)?;
    }
    Ok(Jet::from_rising(n, k, terms))
}
