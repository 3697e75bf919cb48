//! Jets of patterns.

ghost use Rattle.std.specs.Prelude.{◌≡◌, ◌≤◌, ◌↔◌, ◌||◌, not, IsTrue};
ghost use Rattle.std.specs.List.{list_all};
ghost use Rattle.normal_forms.specs.Monomials.{is_residual};
ghost use Rattle.normal_forms.specs.Forms.{admits_monomial, IsPatternOf};

use crate::admission::{admits, has_corank};
use crate::pattern::Pattern;
use crate::split::{is_residual_monomial, is_split};
use jet_poly::JetOf;
use mono_exp::Exp;
use ring_law::Ring;

// True where each monomial without square variables may stand in a jet of the pattern.
fn admits_residual_part<E>(pattern: Pattern, c: u8, terms: &[(Exp, E)]) -> bool
    ensures { result ≡ list_all (λ t. not (is_residual c t.0) || admits_monomial pattern t.0) terms.now }
{
    terms
        .iter()
        .all(|t| !is_residual_monomial(c, t.0) || admits(pattern, t.0))
}

// True where terms in n variables, the first c of them residual, are in the pattern.
fn is_in_pattern<E>(pattern: Pattern, n: u8, c: u8, terms: &[(Exp, E)]) -> bool
    requires few { n ≤ 8 }
    ensures { IsTrue result ↔ IsPatternOf pattern n c terms.now }
{
    has_corank(pattern, c) && is_split(n, c, terms) && admits_residual_part(pattern, c, terms)
}

/// True where the jet is in the pattern with this corank: the corank is the pattern's, each monomial
/// with a square variable is the square of one, all these squares occur, and each other monomial
/// meets the pattern's condition.
pub fn in_pattern<R: Ring>(ring: &R, p: Pattern, corank: u8, f: &JetOf<R>) -> bool
    requires at_most_8_variables { f.now.n ≤ 8 }
    ensures { IsTrue result ↔ IsPatternOf p f.now.n corank f.now.terms }
{
    let _ = ring;
    is_in_pattern(p, f.n(), corank, f.terms())
}
