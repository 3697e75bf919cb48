//! Jets that are split: their square variables occur in squares alone.

ghost use Rattle.std.specs.Prelude.{◌≡◌, ◌<◌, ◌≤◌, ◌==◌, ◌||◌, drop};
ghost use Rattle.std.specs.List.{list_all, list_any};
ghost use Rattle.std.specs.Str.{bytes_eq};
ghost use Rattle.normal_forms.specs.Monomials.{is_residual, is_square, square_of, is_one_of, monomials_in, is_split as is_split_of, square_variables};

use mono_exp::{Exp, degree};

/// True where the monomial has none of the variables past the first c.
pub fn is_residual_monomial(c: u8, m: Exp) -> bool
    ensures { result ≡ is_residual c m }
{
    m.e.iter().skip(usize::from(c)).all(|e| *e == 0)
}

// True where a variable past the first c has exponent 2.
fn has_exponent_2(c: u8, m: Exp) -> bool
    ensures { result ≡ list_any (λ e. e == 2) (drop c m.e) }
{
    m.e.iter().skip(usize::from(c)).any(|e| *e == 2)
}

// True where the monomial is the square of a variable past the first c.
fn is_square_monomial(c: u8, m: Exp) -> bool
    ensures { result ≡ is_square c m }
{
    degree(m) == 2 && has_exponent_2(c, m)
}

/// The square of the variable with this number, counted from 0.
pub fn square(variable: u8) -> Exp
    requires { variable < 8 }
    ensures { result ≡ square_of variable }
{
    let mut e = [0; 8];
    e[variable as usize] = 2;
    Exp { e }
}

// True where the exponents are the same.
fn is_same(a: Exp, b: Exp) -> bool
    ensures { result ≡ bytes_eq a.e b.e }
{
    a.e == b.e
}

// True where the monomial stands in some term.
fn has_monomial<E>(terms: &[(Exp, E)], m: Exp) -> bool
    ensures { result ≡ list_any (λ t. bytes_eq m.e t.0.e) terms.now }
{
    terms.iter().any(|t| is_same(m, t.0))
}

// True where each monomial with a variable past the first c is the square of one.
fn has_squares_alone<E>(c: u8, terms: &[(Exp, E)]) -> bool
    ensures { result ≡ list_all (λ t. is_residual c t.0 || is_square c t.0) terms.now }
{
    terms.iter().all(|t| is_residual_monomial(c, t.0) || is_square_monomial(c, t.0))
}

// True where the square of each variable past the first c stands in some term.
fn has_all_squares<E>(n: u8, c: u8, terms: &[(Exp, E)]) -> bool
    requires few { n ≤ 8 }
    ensures { result ≡ list_all (λ i. is_one_of (monomials_in terms.now) (square_of i)) (square_variables n c) }
{
    for k in 0..n.saturating_sub(c) {
        if !has_monomial(terms, square(c + k)) {
            return false;
        }
    }
    true
}

/// True where terms in n variables, the first c of them residual, are split.
#[tactic(auto, unfolding(crate::specs::Monomials::is_split))]
pub fn is_split<E>(n: u8, c: u8, terms: &[(Exp, E)]) -> bool
    requires few { n ≤ 8 }
    ensures { result ≡ is_split_of n c terms.now }
{
    has_squares_alone(c, terms) && has_all_squares(n, c, terms)
}
