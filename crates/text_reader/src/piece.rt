//! The pieces of a sum: a sign, a coefficient and letters.

ghost use Rattle.std.specs.Prelude.{◌≡◌, ◌≢◌, ℕ, ◌∷◌, ◌++◌, List, None, IfSome};
ghost use Rattle.ring_law.specs.declared.fraction.Frac.{Frac};
ghost use Rattle.poly_text.specs.Numbers.{fraction_text, piece_text, product_text, signed_text};
ghost use Rattle.cert_law.specs.Fields.{IsBody};
ghost use Rattle.text_reader.specs.Reading.{IsTextOf, IsNoText};
ghost use Rattle.text_reader.specs.Pieces.{joined, IsCoefficient, IsLetters, is_unit_of, IsTaken};

use crate::fraction::{opposite, read_unsigned};
use crate::splitting::{split_before_sign, strip_end, strip_front};
use ring_law::Frac;

/// A fraction other than 0 behind its sign.
pub(crate) fn read_signed(sign: u8, magnitude: &[u8]) -> Option<Frac>
    ensures some { IfSome result (IsTextOf IsCoefficient (λ q. signed_text (fraction_text q)) (sign ∷ magnitude.now)) }
    ensures none { result ≡ None → IsNoText IsCoefficient (λ q. signed_text (fraction_text q)) (sign ∷ magnitude.now) }
{
    match read_unsigned(magnitude) {
        None => None,
        Some(q) => match sign {
            b'+' => { if q.num == 0 { None } else { Some(q) } }
            b'-' => opposite(q),
            _ => None,
        },
    }
}

/// 1 or -1 by its sign.
pub(crate) fn unit_of(sign: u8) -> Option<Frac>
    ensures some { IfSome result (λ q. IsCoefficient q × ((letters : List ℕ) → IsLetters letters → signed_text (product_text q (42 ∷ letters)) ≡ sign ∷ letters)) }
    ensures none { result ≡ None → (sign ≢ 43) × (sign ≢ 45) }
{
    match sign {
        b'+' => Some(Frac { num: 1, den: 1 }),
        b'-' => Some(Frac { num: -1, den: 1 }),
        _ => None,
    }
}

/// The number is 1 or -1.
pub(crate) fn is_unit(q: Frac) -> bool
    ensures { result ≡ is_unit_of q }
{
    q.den == 1 && (q.num == 1 || q.num == -1)
}

// The coefficient before letters, which is left out where it is 1 or -1.
fn read_coefficient(sign: u8, front: &[u8]) -> Option<Frac>
    ensures some { IfSome result (λ q. IsCoefficient q × ((letters : List ℕ) → IsLetters letters → signed_text (product_text q (42 ∷ letters)) ≡ sign ∷ (front.now ++ letters))) }
    ensures none { result ≡ None → (q : Frac) (letters : List ℕ) → IsCoefficient q → IsLetters letters → signed_text (product_text q (42 ∷ letters)) ≡ sign ∷ (front.now ++ letters) → ⊥ }
{
    if front.is_empty() {
        return unit_of(sign);
    }
    match strip_end(front, b"*") {
        None => None,
        Some(magnitude) => match read_signed(sign, magnitude) {
            None => None,
            Some(q) => { if is_unit(q) { None } else { Some(q) } }
        },
    }
}

// A piece with this body: its coefficient.
fn read_piece(sign: u8, magnitude: &[u8], body: &[u8]) -> Option<Frac>
    requires { IsBody body.now }
    ensures some { IfSome result (IsTextOf IsCoefficient (λ q. piece_text (q, body.now)) (sign ∷ magnitude.now)) }
    ensures none { result ≡ None → IsNoText IsCoefficient (λ q. piece_text (q, body.now)) (sign ∷ magnitude.now) }
{
    match strip_front(body, b"*") {
        None => read_signed(sign, magnitude),
        Some(letters) => read_before(sign, magnitude, letters),
    }
}

// The coefficient before these letters at the end.
fn read_before(sign: u8, magnitude: &[u8], letters: &[u8]) -> Option<Frac>
    requires { IsLetters letters.now }
    ensures some { IfSome result (IsTextOf IsCoefficient (λ q. signed_text (product_text q (42 ∷ letters.now))) (sign ∷ magnitude.now)) }
    ensures none { result ≡ None → IsNoText IsCoefficient (λ q. signed_text (product_text q (42 ∷ letters.now))) (sign ∷ magnitude.now) }
{
    match strip_end(magnitude, letters) {
        None => None,
        Some(front) => read_coefficient(sign, front),
    }
}

/// The number of the piece with this body where it stands at the front, else 0, and the pieces that follow.
pub(crate) fn take_component<'a>(
    sum: Option<(u8, &'a [u8])>,
    body: &[u8],
) -> (Frac, Option<(u8, &'a [u8])>)
    requires { IsBody body.now }
    ensures { IsTaken body.now result.0 (joined sum.entry) (joined result.1) }
{
    let zero = Frac { num: 0, den: 1 };
    let Some((sign, behind)) = sum else {
        return (zero, None);
    };
    let (magnitude, rest) = split_before_sign(behind);
    match read_piece(sign, magnitude, body) {
        None => (zero, sum),
        Some(q) => (q, rest),
    }
}
