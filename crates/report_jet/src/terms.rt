//! Whether two monomials, or two lists of terms, are the same.

ghost use Rattle.std.specs.Prelude.{◌≡◌, ◌≤◌, ◌↔◌, All, IsTrue};
ghost use Rattle.poly_law.specs.Exps.{same};
ghost use Rattle.poly_law.specs.ExpList.{exps};
ghost use Rattle.jet_law.specs.Terms.{exp_of, poly_of};

use mono_exp::Exp;
use ring_law::Ring;

/// True where two monomials have the same exponents in the first n variables.
pub fn is_same_monomial(n: u8, a: Exp, b: Exp) -> bool
    requires at_most_8_variables { n ≤ 8 }
    ensures equal { IsTrue result ↔ (exp_of n a ≡ exp_of n b) }
    ensures same { result ≡ same (exps n) (exp_of n a) (exp_of n b) }
{
    for i in 0..usize::from(n) {
        if a.e[i] != b.e[i] {
            return false;
        }
    }
    true
}

/// True where two terms have the same exponents in the first n variables and the same coefficient.
fn is_same_term<R: Ring>(ring: &R, n: u8, t: (Exp, R::Elem), u: (Exp, R::Elem)) -> bool
    requires ring { R.is_ring ring.now }
    requires at_most_8_variables { n ≤ 8 }
    requires first { (R.meaning ring.now).is_elem t.1 }
    requires second { (R.meaning ring.now).is_elem u.1 }
    ensures { let m = R.meaning ring.now in IsTrue result ↔ ((exp_of n t.0 ≡ exp_of n u.0) × (m.value t.1 ≡ m.value u.1)) }
{
    if !is_same_monomial(n, t.0, u.0) {
        return false;
    }
    ring.eq(t.1, u.1)
}

/// True where two lists of terms in n variables are the same, term by term.
pub fn are_same_terms<R: Ring>(ring: &R, n: u8, f: &[(Exp, R::Elem)], g: &[(Exp, R::Elem)]) -> bool
    requires ring { R.is_ring ring.now }
    requires at_most_8_variables { n ≤ 8 }
    requires first { All (λ t. (R.meaning ring.now).is_elem t.1) f.now }
    requires second { All (λ t. (R.meaning ring.now).is_elem t.1) g.now }
    ensures { let m = R.meaning ring.now in IsTrue result ↔ (poly_of n m.value f.now ≡ poly_of n m.value g.now) }
{
    if f.len() != g.len() {
        return false;
    }
    for i in 0..f.len() {
        if !is_same_term(ring, n, f[i], g[i]) {
            return false;
        }
    }
    true
}
