//! Fractions.

ghost use Rattle.std.specs.Prelude.{◌≡◌, ◌≢◌, ◌<◌, ◌^◌, ◌++◌, ◌∷◌, ◌↔◌, pos, IsTrue, None, IfSome};
ghost use Rattle.std.specs.List.{AllByRecursion};
ghost use Rattle.ext_algebra.specs.Fractions.{is_frac};
ghost use Rattle.poly_text.specs.Numbers.{fraction_text};
ghost use Rattle.text_reader.specs.Reading.{IsTextOf, IsNoText};
ghost use Rattle.text_reader.specs.Digits.{IsNatural};

use crate::number::read_number;
use crate::splitting::{split_at_byte, strip_front};
use ring_law::Frac;
use small_frac::make_frac;

// The greatest part of a fraction, 2^127 - 1.
const LIMIT: u128 = 0x7fff_ffff_ffff_ffff_ffff_ffff_ffff_ffff;

// True for a fraction in lowest terms with a denominator above 0, and parts of at most 2^127 - 1 in absolute value.
fn is_valid(q: Frac) -> bool
    ensures { IsTrue result ↔ IsTrue (is_frac q) }
{
    match make_frac(q.num, q.den) {
        None => false,
        Some(reduced) => reduced == q,
    }
}

// The fraction n / d.
fn fraction(n: u128, d: u128) -> Frac
    requires num { n < 2 ^ 127 }
    requires den { d < 2 ^ 127 }
    ensures { result ≡ record { num = pos n; den = pos d } }
{
    Frac {
        num: n as i128,
        den: d as i128,
    }
}

// A fraction n / d with a denominator other than 1.
fn quotient(n: u128, d: u128) -> Option<Frac>
    requires num { n < 2 ^ 127 }
    requires den { d < 2 ^ 127 }
    ensures some { IfSome result (λ q. IsTrue (is_frac q) × (d ≢ 1) × (q ≡ record { num = pos n; den = pos d })) }
    ensures none { result ≡ None → d ≢ 1 → IsTrue (is_frac (record { num = pos n; den = pos d })) → ⊥ }
{
    let q = fraction(n, d);
    if d != 1 && is_valid(q) { Some(q) } else { None }
}

// A whole number as a fraction.
fn read_whole(bytes: &[u8]) -> Option<Frac>
    requires no_slash { AllByRecursion (λ b. b ≢ 47) bytes.now }
    ensures some { IfSome result (IsTextOf IsNatural fraction_text bytes.now) }
    ensures none { result ≡ None → IsNoText IsNatural fraction_text bytes.now }
{
    match read_number(bytes, LIMIT) {
        None => None,
        Some(n) => Some(fraction(n, 1)),
    }
}

// A fraction with a slash, by its parts.
fn read_quotient(num: &[u8], den: &[u8]) -> Option<Frac>
    requires no_slash { AllByRecursion (λ b. b ≢ 47) num.now }
    ensures some { IfSome result (IsTextOf IsNatural fraction_text (num.now ++ 47 ∷ den.now)) }
    ensures none { result ≡ None → IsNoText IsNatural fraction_text (num.now ++ 47 ∷ den.now) }
{
    match read_number(num, LIMIT) {
        None => None,
        Some(n) => match read_number(den, LIMIT) {
            None => None,
            Some(d) => quotient(n, d),
        },
    }
}

/// A fraction without a sign.
pub(crate) fn read_unsigned(bytes: &[u8]) -> Option<Frac>
    ensures some { IfSome result (IsTextOf IsNatural fraction_text bytes.now) }
    ensures none { result ≡ None → IsNoText IsNatural fraction_text bytes.now }
{
    match split_at_byte(bytes, b'/') {
        None => read_whole(bytes),
        Some((num, den)) => read_quotient(num, den),
    }
}

/// The opposite of a fraction above 0, and `None` for 0.
pub(crate) fn opposite(q: Frac) -> Option<Frac>
    requires { IsNatural q }
    ensures some { IfSome result (λ p. IsTrue (is_frac p) × (fraction_text p ≡ 45 ∷ fraction_text q)) }
    ensures none { result ≡ None → q.num ≡ pos 0 }
{
    if q.num == 0 {
        None
    } else {
        Some(Frac {
            num: -q.num,
            den: q.den,
        })
    }
}

/// A fraction in lowest terms, as `-2` or `2/3`; its parts are at most 2^127 - 1 in absolute value.
pub fn read_fraction(bytes: &[u8]) -> Option<Frac>
    ensures some { IfSome result (IsTextOf (λ q. IsTrue (is_frac q)) fraction_text bytes.now) }
    ensures none { result ≡ None → IsNoText (λ q. IsTrue (is_frac q)) fraction_text bytes.now }
{
    match strip_front(bytes, b"-") {
        None => read_unsigned(bytes),
        Some(magnitude) => match read_unsigned(magnitude) {
            None => None,
            Some(q) => opposite(q),
        },
    }
}
