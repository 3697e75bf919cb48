//! Algebras by their moduli.

ghost use Rattle.std.specs.Prelude.{◌≡◌, ◌≢◌, ◌∷◌, ◌++◌, IsTrue, None, IfSome};
ghost use Rattle.std.specs.List.{AllByRecursion};
ghost use Rattle.ext_algebra.specs.Algebra.{is_algebra};
ghost use Rattle.ext_algebra.specs.Fractions.{is_frac};
ghost use Rattle.cert_text.specs.Text.{algebra_text, cubic_text, square_text};
ghost use Rattle.text_reader.specs.Reading.{IsTextOf, IsNoText};
ghost use Rattle.text_reader.specs.Moduli.{AreThree, IsQuadratic};

use crate::piece::{read_signed, take_component};
use crate::splitting::{first_and_rest, is_text, split_at_byte, strip_front};
use cert_text::opposite_sign;
use ext_algebra::Algebra;
use ring_law::Frac;

// t^2 and the coefficients of t and 1.
fn read_quadratic(bytes: &[u8]) -> Option<Algebra>
    ensures some { IfSome result (IsTextOf IsQuadratic algebra_text bytes.now) }
    ensures none { result ≡ None → IsNoText IsQuadratic algebra_text bytes.now }
{
    match strip_front(bytes, b"t^2") {
        None => None,
        Some(behind) => {
            let (m1, after) = take_component(first_and_rest(behind), b"*t");
            let (m0, rest) = take_component(after, b"");
            if rest.is_some() {
                None
            } else {
                Some(Algebra::Quadratic { m1, m0 })
            }
        }
    }
}

// t^3 and the coefficients of t^2, t and 1.
fn read_cubic(bytes: &[u8]) -> Option<(Frac, Frac, Frac)>
    ensures some { IfSome result (IsTextOf AreThree (λ m. cubic_text m.0 m.1 m.2) bytes.now) }
    ensures none { result ≡ None → IsNoText AreThree (λ m. cubic_text m.0 m.1 m.2) bytes.now }
{
    match strip_front(bytes, b"t^3") {
        None => None,
        Some(behind) => {
            let (m2, after) = take_component(first_and_rest(behind), b"*t^2");
            let (m1, later) = take_component(after, b"*t");
            let (m0, rest) = take_component(later, b"");
            if rest.is_some() {
                None
            } else {
                Some((m2, m1, m0))
            }
        }
    }
}

// The number d from ` ; s^2-d`, behind the blank.
fn read_square(behind: &[u8]) -> Option<Frac>
    ensures some { IfSome result (IsTextOf (λ d. IsTrue (is_frac d)) square_text (32 ∷ behind.now)) }
    ensures none { result ≡ None → IsNoText (λ d. IsTrue (is_frac d)) square_text (32 ∷ behind.now) }
{
    match strip_front(behind, b"; s^2") {
        None => None,
        Some(rest) => match first_and_rest(rest) {
            None => Some(Frac { num: 0, den: 1 }),
            Some((sign, magnitude)) => read_signed(opposite_sign(sign), magnitude),
        },
    }
}

// A tower from the modulus of t, and what stands behind the blank after it.
fn read_tower(modulus: &[u8], behind: &[u8]) -> Option<Algebra>
    requires { AllByRecursion (λ b. b ≢ 32) modulus.now }
    ensures some { IfSome result (IsTextOf (λ a. IsTrue (is_algebra a)) algebra_text (modulus.now ++ 32 ∷ behind.now)) }
    ensures none { result ≡ None → IsNoText (λ a. IsTrue (is_algebra a)) algebra_text (modulus.now ++ 32 ∷ behind.now) }
{
    match read_cubic(modulus) {
        None => None,
        Some((m2, m1, m0)) => match read_square(behind) {
            None => None,
            Some(d) => Some(Algebra::Tower { m2, m1, m0, d }),
        },
    }
}

// An algebra of one modulus, or none.
fn read_simple(bytes: &[u8]) -> Option<Algebra>
    requires { AllByRecursion (λ b. b ≢ 32) bytes.now }
    ensures some { IfSome result (IsTextOf (λ a. IsTrue (is_algebra a)) algebra_text bytes.now) }
    ensures none { result ≡ None → IsNoText (λ a. IsTrue (is_algebra a)) algebra_text bytes.now }
{
    if is_text(bytes, b"Q") {
        return Some(Algebra::Rational);
    }
    if let Some(algebra) = read_quadratic(bytes) {
        return Some(algebra);
    }
    match read_cubic(bytes) {
        None => None,
        Some((m2, m1, m0)) => Some(Algebra::Cubic { m2, m1, m0 }),
    }
}

/// An algebra, as `Q`, `t^2-2`, `t^3+1/2*t-1` or `t^3+2 ; s^2+108`.
pub fn read_algebra(bytes: &[u8]) -> Option<Algebra>
    ensures some { IfSome result (IsTextOf (λ a. IsTrue (is_algebra a)) algebra_text bytes.now) }
    ensures none { result ≡ None → IsNoText (λ a. IsTrue (is_algebra a)) algebra_text bytes.now }
{
    match split_at_byte(bytes, b' ') {
        None => read_simple(bytes),
        Some((modulus, behind)) => read_tower(modulus, behind),
    }
}
