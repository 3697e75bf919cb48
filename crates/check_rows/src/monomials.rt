//! Lists of monomials with the same exponents.

ghost use Rattle.std.specs.Prelude.{◌≡◌, ◌≤◌, ◌↔◌, IsTrue, map};
ghost use Rattle.mono_exp.specs.Exponents.{exponents};

use mono_exp::Exp;
use report_jet::is_same_monomial;

/// True where two lists of monomials have the same exponents in the first n variables, one by one.
pub fn have_same_exponents(n: u8, left: &[Exp], right: &[Exp]) -> bool
    requires at_most_8_variables { n ≤ 8 }
    ensures { IsTrue result ↔ (map (λ a. exponents n a.e) left.now ≡ map (λ a. exponents n a.e) right.now) }
{
    if left.len() != right.len() {
        return false;
    }
    for i in 0..left.len() {
        if !is_same_monomial(n, left[i], right[i]) {
            return false;
        }
    }
    true
}
