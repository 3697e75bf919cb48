//! Monomials.

ghost use Rattle.std.specs.Prelude.{◌≡◌, ◌≢◌, ℕ, ◌<◌, ◌∷◌, ◌++◌, List, IsTrue, None, IfSome, IsSomeAnd, ◌&&◌, nat_le, sum, drop, ◌==◌};
ghost use Rattle.std.specs.List.{AllByRecursion, list_all};
ghost use Rattle.poly_text.specs.Polynomials.{exponent_text, factor_text, factors_text, monomial_text, new_name, new_names};
ghost use Rattle.cert_text.specs.WellFormed.{is_monomial_in};
ghost use Rattle.cert_law.specs.Fields.{IsMonomial};
ghost use Rattle.text_reader.specs.Reading.{IsTextOf, IsNoText};
ghost use Rattle.text_reader.specs.Factors.{starred, IsLater, IsExponent};

use crate::number::read_u8;
use crate::splitting::{is_text, split_at_byte, strip_front};
use mono_exp::{Exp, degree};

// What stands before the next factor, and that factor with all that follow.
fn split_star(bytes: &[u8]) -> (&[u8], Option<&[u8]>)
    ensures whole { bytes.now ≡ result.0.now ++ starred result.1 }
    ensures front { AllByRecursion (λ b. b ≢ 42) result.0.now }
{
    match split_at_byte(bytes, b'*') {
        None => (bytes, None),
        Some((front, rest)) => (front, Some(rest)),
    }
}

// The exponent behind a variable: nothing for 1, else `^` and a number.
fn read_exponent(bytes: &[u8]) -> Option<u8>
    ensures some { IfSome result (IsTextOf IsExponent exponent_text bytes.now) }
    ensures none { result ≡ None → IsNoText IsExponent exponent_text bytes.now }
{
    if bytes.is_empty() {
        return Some(1);
    }
    match strip_front(bytes, b"^") {
        None => None,
        Some(digits) => match read_u8(digits) {
            None => None,
            Some(e) => { if e < 2 { None } else { Some(e) } }
        },
    }
}

// What follows the variable u with this digit, where it stands at the front.
fn behind_variable(text: &[u8], digit: u8) -> Option<&[u8]>
    ensures some { IfSome result (λ behind. text.now ≡ 117 ∷ digit ∷ behind.now) }
    ensures none { result ≡ None → (behind : List ℕ) → text.now ≡ 117 ∷ digit ∷ behind → ⊥ }
{
    match text {
        [b'u', d, behind @ ..] => { if *d == digit { Some(behind) } else { None } }
        _ => None,
    }
}

// The exponent of the variable u with this digit, and the factors that follow.
fn take_power(factors: Option<&[u8]>, digit: u8) -> Option<(u8, Option<&[u8]>)>
    ensures some { IfSome result (λ r. (r.0 < 256) × (starred factors.entry ≡ factor_text (new_name digit) r.0 ++ starred r.1)) }
    ensures found { (e : ℕ) (rest : List ℕ) → e < 256 → IsLater digit rest → starred factors.entry ≡ factor_text (new_name digit) e ++ rest
        → IsSomeAnd result (λ r. (r.0 ≡ e) × (starred r.1 ≡ rest)) }
{
    let Some(text) = factors else {
        return Some((0, None));
    };
    let Some(behind) = behind_variable(text, digit) else {
        return Some((0, factors));
    };
    let (raised, rest) = split_star(behind);
    match read_exponent(raised) {
        None => None,
        Some(e) => Some((e, rest)),
    }
}

/// The monomial with these factors, which stand in the order of their variables.
pub(crate) fn read_factors(bytes: &[u8]) -> Option<Exp>
    ensures some { IfSome result (IsTextOf IsMonomial (λ m. factors_text new_names m.e) (42 ∷ bytes.now)) }
    ensures none { result ≡ None → IsNoText IsMonomial (λ m. factors_text new_names m.e) (42 ∷ bytes.now) }
{
    let mut e = [0u8; 8];
    let mut factors = Some(bytes);
    for i in 0..8u8 {
        let (exponent, rest) = take_power(factors, b'1' + i)?;
        e[i as usize] = exponent;
        factors = rest;
    }
    if factors.is_some() {
        return None;
    }
    Some(Exp { e })
}

// All exponents past the first n are 0.
fn vanish_past(n: u8, exponents: &[u8]) -> bool
    ensures { result ≡ list_all (λ e. e == 0) (drop n exponents.now) }
{
    exponents.iter().skip(n as usize).all(|e| *e == 0)
}

// No variable past the first n stands in the monomial.
fn is_in_variables(n: u8, m: Exp) -> bool
    ensures { result ≡ is_monomial_in n m }
{
    vanish_past(n, &m.e)
}

/// The first n variables alone stand in the monomial, and its degree is at most `most`.
pub(crate) fn is_within(n: u8, most: u8, m: Exp) -> bool
    ensures { result ≡ (is_monomial_in n m && nat_le (sum m.e) most) }
{
    is_in_variables(n, m) && degree(m) <= u16::from(most)
}

// A monomial with any exponents.
fn read_any(bytes: &[u8]) -> Option<Exp>
    ensures some { IfSome result (IsTextOf IsMonomial monomial_text bytes.now) }
    ensures none { result ≡ None → IsNoText IsMonomial monomial_text bytes.now }
{
    if is_text(bytes, b"1") {
        Some(Exp { e: [0; 8] })
    } else {
        read_factors(bytes)
    }
}

/// A monomial in the variables u1 to un of degree at most `most`, as `u1^2*u2` or `1`.
pub fn read_monomial(n: u8, most: u8, bytes: &[u8]) -> Option<Exp>
    ensures some { IfSome result (IsTextOf (λ m. IsTrue (is_monomial_in n m && nat_le (sum m.e) most)) monomial_text bytes.now) }
    ensures none { result ≡ None → IsNoText (λ m. IsTrue (is_monomial_in n m && nat_le (sum m.e) most)) monomial_text bytes.now }
{
    match read_any(bytes) {
        None => None,
        Some(m) => { if is_within(n, most, m) { Some(m) } else { None } }
    }
}
