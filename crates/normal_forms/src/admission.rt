//! Which monomials may stand in a jet of a pattern.

ghost use Rattle.std.specs.Prelude.{◌≡◌};
ghost use Rattle.normal_forms.specs.Patterns.{has_corank as has_corank_of};
ghost use Rattle.normal_forms.specs.Forms.{admits_monomial};

use crate::pattern::Pattern;
use mono_exp::Exp;

/// True where c is a corank of the pattern.
pub fn has_corank(pattern: Pattern, c: u8) -> bool
    ensures { result ≡ has_corank_of pattern c }
{
    match pattern {
        Pattern::O => 4 <= c && c <= 8,
        Pattern::V | Pattern::Q2 | Pattern::S1 | Pattern::U1 => c == 3,
        Pattern::N | Pattern::J3 | Pattern::Z1 | Pattern::W1 => c == 2,
    }
}

/// True where the monomial, which has no square variable, may stand in a jet of the pattern.
pub fn admits(pattern: Pattern, m: Exp) -> bool
    ensures { result ≡ admits_monomial pattern m }
{
    let [x, y, z, ..] = m.e;
    let (i, k, l) = (u32::from(x), u32::from(y), u32::from(z));
    match pattern {
        Pattern::O | Pattern::N => false,
        Pattern::V => 2 <= i,
        Pattern::J3 => 9 <= 3 * i + k,
        Pattern::Z1 => 7 <= 2 * i + k,
        Pattern::W1 => 12 <= 3 * i + 2 * k,
        Pattern::Q2 => 12 <= 4 * i + 2 * k + 5 * l,
        Pattern::S1 => 10 <= 2 * i + 3 * k + 4 * l,
        Pattern::U1 => 9 <= 3 * i + 3 * k + 2 * l,
    }
}
