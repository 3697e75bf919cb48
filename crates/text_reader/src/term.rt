//! Terms of a polynomial that are not constant: a coefficient and a monomial.

ghost use Rattle.std.specs.Prelude.{◌≡◌, ◌≢◌, ℕ, ◌∷◌, ◌++◌, List, IsTrue, ◌↔◌, None, IfSome, false};
ghost use Rattle.std.specs.List.{AllByRecursion};
ghost use Rattle.ring_law.specs.declared.fraction.Frac.{Frac};
ghost use Rattle.ext_algebra.specs.declared.algebra.Ext.{Ext};
ghost use Rattle.mono_exp.specs.declared.exponent.Exp.{Exp};
ghost use Rattle.poly_text.specs.Numbers.{components_text, element_text};
ghost use Rattle.poly_text.specs.Polynomials.{is_one, factors_text, new_names};
ghost use Rattle.cert_law.specs.Fields.{IsMonomial};
ghost use Rattle.cert_law.specs.Unique.{Starts};
ghost use Rattle.text_reader.specs.Reading.{IsTextOf, IsNoText};
ghost use Rattle.text_reader.specs.Pieces.{joined, IsSign, IsLetters, AreFractions};
ghost use Rattle.text_reader.specs.Terms.{before_factors, IsLong, IsSingle, IsWritten, term_text, IsHigherTerm, IsSimpleTerm, IsLongTerm, IsVariable};

use crate::element::{is_zero, rational, read_components, take_element};
use crate::monomial::read_factors;
use crate::piece::{is_unit, unit_of};
use crate::splitting::{place_of, split_at_byte, split_before_sign, strip_end, strip_front};
use ext_algebra::Ext;
use mono_exp::Exp;
use poly_text::only_component;
use ring_law::Frac;

// One component is not 0, and it is not 1 or -1 alone.
fn is_written(e: Ext<Frac>) -> bool
    ensures { IsTrue result ↔ IsWritten e }
{
    match only_component(e) {
        None => false,
        Some((q, letters)) => {
            if letters.is_empty() {
                !is_unit(q)
            } else {
                true
            }
        }
    }
}

// A coefficient of one component that is written before a star.
fn read_written(sign: u8, magnitude: &[u8]) -> Option<Ext<Frac>>
    ensures some { IfSome result (λ e. AreFractions e × IsWritten e × (components_text e ≡ sign ∷ magnitude.now)) }
    ensures none { result ≡ None → (e : Ext Frac) → AreFractions e → IsWritten e → components_text e ≡ sign ∷ magnitude.now → ⊥ }
{
    let (e, rest) = take_element(Some((sign, magnitude)));
    if rest.is_some() {
        return None;
    }
    if is_written(e) { Some(e) } else { None }
}

// The coefficient of one component, from its sign and what stands between it and the factors.
fn read_single(sign: u8, front: &[u8]) -> Option<Ext<Frac>>
    ensures some { IfSome result (λ e. AreFractions e × IsSingle e × ((factors : List ℕ) → IsLetters factors → before_factors e factors ≡ sign ∷ (front.now ++ factors))) }
    ensures none { result ≡ None → (e : Ext Frac) (factors : List ℕ) → AreFractions e → IsSingle e → IsLetters factors → before_factors e factors ≡ sign ∷ (front.now ++ factors) → ⊥ }
{
    if front.is_empty() {
        return match unit_of(sign) {
            None => None,
            Some(q) => Some(rational(q)),
        };
    }
    match strip_end(front, b"*") {
        None => None,
        Some(magnitude) => read_written(sign, magnitude),
    }
}

// What stands before the first variable, and the factors from it on.
fn split_before_variable(bytes: &[u8]) -> Option<(&[u8], &[u8])>
    ensures some { IfSome result (λ p. (bytes.now ≡ p.0.now ++ p.1.now) × IsVariable p.1.now × AllByRecursion (λ b. b ≢ 117) p.0.now) }
    ensures none { result ≡ None → AllByRecursion (λ b. b ≢ 117) bytes.now }
{
    match place_of(bytes, b'u') {
        None => None,
        Some(at) => Some((&bytes[..at], &bytes[at..])),
    }
}

// A term whose coefficient has one component.
fn read_simple(sign: u8, magnitude: &[u8]) -> Option<(Exp, Ext<Frac>)>
    ensures some { IfSome result (IsTextOf IsSimpleTerm term_text (sign ∷ magnitude.now)) }
    ensures none { result ≡ None → IsNoText IsSimpleTerm term_text (sign ∷ magnitude.now) }
{
    match split_before_variable(magnitude) {
        None => None,
        Some((front, factors)) => match read_single(sign, front) {
            None => None,
            Some(e) => match read_factors(factors) {
                None => None,
                Some(m) => Some((m, e)),
            },
        },
    }
}

// A term whose coefficient has one component, up to the next sign.
fn take_simple(sign: u8, behind: &[u8]) -> Option<((Exp, Ext<Frac>), Option<(u8, &[u8])>)>
    ensures some { IfSome result (λ r. IsSimpleTerm r.0 × (sign ∷ behind.now ≡ term_text r.0 ++ joined r.1) × Starts IsSign (joined r.1)) }
    ensures none { result ≡ None → (t : Exp × Ext Frac) (rest : List ℕ) → IsSimpleTerm t → Starts IsSign rest → sign ∷ behind.now ≡ term_text t ++ rest → ⊥ }
{
    let (magnitude, rest) = split_before_sign(behind);
    match read_simple(sign, magnitude) {
        None => None,
        Some(term) => Some((term, rest)),
    }
}

// The factors of a monomial other than 1, each with a star before it.
fn read_starred(bytes: &[u8]) -> Option<Exp>
    ensures some { IfSome result (λ m. IsMonomial m × (is_one m ≡ false) × (factors_text new_names m.e ≡ bytes.now)) }
    ensures none { result ≡ None → (m : Exp) → IsMonomial m → is_one m ≡ false → factors_text new_names m.e ≡ bytes.now → ⊥ }
{
    match strip_front(bytes, b"*") {
        None => None,
        Some(factors) => read_factors(factors),
    }
}

// More than one component is not 0.
fn is_long(e: Ext<Frac>) -> bool
    ensures { IsTrue result ↔ IsLong e }
{
    if is_zero(e) {
        false
    } else {
        only_component(e).is_none()
    }
}

// A coefficient of more than one component, whose parenthesis was opened, and what stands behind the one that closes it.
fn take_bracket(bytes: &[u8]) -> Option<(Ext<Frac>, &[u8])>
    ensures some { IfSome result (λ r. AreFractions r.0 × IsLong r.0 × (bytes.now ≡ element_text r.0 ++ 41 ∷ r.1.now)) }
    ensures none { result ≡ None → (e : Ext Frac) (rest : List ℕ) → AreFractions e → IsLong e → bytes.now ≡ element_text e ++ 41 ∷ rest → ⊥ }
{
    match split_at_byte(bytes, b')') {
        None => None,
        Some((inside, behind)) => match read_components(inside) {
            None => None,
            Some(e) => { if is_long(e) { Some((e, behind)) } else { None } }
        },
    }
}

// A term whose coefficient has more than one component, from behind the parenthesis that opens it up to the next sign.
fn take_long(bytes: &[u8]) -> Option<((Exp, Ext<Frac>), Option<(u8, &[u8])>)>
    ensures some { IfSome result (λ r. IsLongTerm r.0 × (43 ∷ 40 ∷ bytes.now ≡ term_text r.0 ++ joined r.1) × Starts IsSign (joined r.1)) }
    ensures none { result ≡ None → (t : Exp × Ext Frac) (rest : List ℕ) → IsLongTerm t → Starts IsSign rest → 43 ∷ 40 ∷ bytes.now ≡ term_text t ++ rest → ⊥ }
{
    match take_bracket(bytes) {
        None => None,
        Some((e, behind)) => {
            let (factors, rest) = split_before_sign(behind);
            match read_starred(factors) {
                None => None,
                Some(m) => Some(((m, e), rest)),
            }
        }
    }
}

/// The term at the front of a sum, and the pieces that follow.
pub(crate) fn take_term(sign: u8, behind: &[u8]) -> Option<((Exp, Ext<Frac>), Option<(u8, &[u8])>)>
    ensures some { IfSome result (λ r. IsHigherTerm r.0 × (sign ∷ behind.now ≡ term_text r.0 ++ joined r.1) × Starts IsSign (joined r.1)) }
    ensures none { result ≡ None → (t : Exp × Ext Frac) (rest : List ℕ) → IsHigherTerm t → Starts IsSign rest → sign ∷ behind.now ≡ term_text t ++ rest → ⊥ }
{
    match strip_front(behind, b"(") {
        None => take_simple(sign, behind),
        Some(inside) => {
            if sign == b'+' {
                take_long(inside)
            } else {
                None
            }
        }
    }
}
