//! Names of families.

ghost use Rattle.std.specs.Prelude.{◌≡◌, ℕ, ◌<◌, ◌≤◌, List, ◌++◌, ◌∷◌, [], true, false, IsTrue, None, IfSome, ◌&&◌, decimal};
ghost use Rattle.normal_forms.specs.Families.{is_family, has_numbers};
ghost use Rattle.cert_text.specs.Names.{family_text};
ghost use Rattle.cert_text.specs.WellFormed.{has_small_numbers, IsFamily};
ghost use Rattle.text_reader.specs.Reading.{IsTextOf, IsNoText};
ghost use Rattle.text_reader.specs.Numbers.{three_text, AreSmall, IsHyperbolic, IsSeries};

use crate::number::read_u8;
use crate::splitting::{split_at_byte, strip_front};
use normal_forms::Family;

// A family whose name has no numbers.
#[tactic(auto, unfolding(cert_text::specs::Names::family_text, cert_text::specs::Names::family_letters, cert_text::specs::Names::family_numbers))]
fn read_exceptional(bytes: &[u8]) -> Option<Family>
    ensures some { IfSome result (IsTextOf (λ f. has_numbers f ≡ false) family_text bytes.now) }
    ensures none { result ≡ None → IsNoText (λ f. has_numbers f ≡ false) family_text bytes.now }
{
    match bytes {
        b"E6" => Some(Family::E6),
        b"E7" => Some(Family::E7),
        b"E8" => Some(Family::E8),
        b"P8" => Some(Family::P8),
        b"X9" => Some(Family::X9),
        b"J10" => Some(Family::J10),
        b"E12" => Some(Family::E12),
        b"E13" => Some(Family::E13),
        b"E14" => Some(Family::E14),
        b"Z11" => Some(Family::Z11),
        b"Z12" => Some(Family::Z12),
        b"Z13" => Some(Family::Z13),
        b"W12" => Some(Family::W12),
        b"W13" => Some(Family::W13),
        b"Q10" => Some(Family::Q10),
        b"Q11" => Some(Family::Q11),
        b"Q12" => Some(Family::Q12),
        b"S11" => Some(Family::S11),
        b"S12" => Some(Family::S12),
        b"U12" => Some(Family::U12),
        _ => None,
    }
}

// A number of at least `least` behind a front.
fn number_behind(bytes: &[u8], front: &[u8], least: u8) -> Option<u8>
    ensures some { IfSome result (IsTextOf (λ m. (least ≤ m) × (m < 256)) (λ m. front.now ++ decimal m) bytes.now) }
    ensures none { result ≡ None → IsNoText (λ m. (least ≤ m) × (m < 256)) (λ m. front.now ++ decimal m) bytes.now }
{
    match strip_front(bytes, front) {
        None => None,
        Some(digits) => match read_u8(digits) {
            None => None,
            Some(m) => { if m < least { None } else { Some(m) } }
        },
    }
}

// A number with a closing parenthesis behind it.
fn read_closed(bytes: &[u8]) -> Option<u8>
    ensures some { IfSome result (IsTextOf (λ m. m < 256) (λ m. decimal m ++ 41 ∷ []) bytes.now) }
    ensures none { result ≡ None → IsNoText (λ m. m < 256) (λ m. decimal m ++ 41 ∷ []) bytes.now }
{
    match split_at_byte(bytes, b')') {
        None => None,
        Some((digits, rest)) => {
            if rest.is_empty() {
                read_u8(digits)
            } else {
                None
            }
        }
    }
}

// A number with a comma behind it, and what follows.
fn number_before_comma(bytes: &[u8]) -> Option<(u8, &[u8])>
    ensures some { IfSome result (λ p. (p.0 < 256) × (decimal p.0 ++ 44 ∷ p.1.now ≡ bytes.now)) }
    ensures none { result ≡ None → (n : ℕ) (rest : List ℕ) → n < 256 → decimal n ++ 44 ∷ rest ≡ bytes.now → ⊥ }
{
    match split_at_byte(bytes, b',') {
        None => None,
        Some((digits, rest)) => match read_u8(digits) {
            None => None,
            Some(n) => Some((n, rest)),
        },
    }
}

// Three numbers with commas between them, and a closing parenthesis.
fn read_three(bytes: &[u8]) -> Option<(u8, u8, u8)>
    ensures some { IfSome result (IsTextOf AreSmall three_text bytes.now) }
    ensures none { result ≡ None → IsNoText AreSmall three_text bytes.now }
{
    let (p, rest) = number_before_comma(bytes)?;
    let (q, rest) = number_before_comma(rest)?;
    let r = read_closed(rest)?;
    Some((p, q, r))
}

// True for the numbers of a family T.
fn is_hyperbolic(p: u8, q: u8, r: u8) -> bool
    ensures { result ≡ is_family (Family.T p q r) }
{
    p == 2 && q == 3 && r >= 7
        || p == 2 && q == 4 && r >= 5
        || p == 2 && q >= 5 && q <= r
        || p >= 3 && p <= q && q <= r && r >= 4
}

// A family T by its numbers.
fn read_hyperbolic(bytes: &[u8]) -> Option<Family>
    ensures some { IfSome result (IsTextOf IsHyperbolic family_text bytes.now) }
    ensures none { result ≡ None → IsNoText IsHyperbolic family_text bytes.now }
{
    match strip_front(bytes, b"T(") {
        None => None,
        Some(numbers) => match read_three(numbers) {
            None => None,
            Some((p, q, r)) => {
                if is_hyperbolic(p, q, r) {
                    Some(Family::T(p, q, r))
                } else {
                    None
                }
            }
        },
    }
}

// A family of the series A, D or T.
fn read_series(bytes: &[u8]) -> Option<Family>
    ensures some { IfSome result (IsTextOf IsSeries family_text bytes.now) }
    ensures none { result ≡ None → IsNoText IsSeries family_text bytes.now }
{
    match number_behind(bytes, b"A", 1) {
        Some(m) => Some(Family::A(m)),
        None => match number_behind(bytes, b"D", 4) {
            Some(m) => Some(Family::D(m)),
            None => read_hyperbolic(bytes),
        },
    }
}

/// A family of the list by its name, as `E7`, `D4` or `T(2,3,7)`; its numbers are at most 255.
pub fn read_family(bytes: &[u8]) -> Option<Family>
    ensures some { IfSome result (IsTextOf IsFamily family_text bytes.now) }
    ensures none { result ≡ None → IsNoText IsFamily family_text bytes.now }
{
    match read_exceptional(bytes) {
        Some(family) => Some(family),
        None => read_series(bytes),
    }
}
