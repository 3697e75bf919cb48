//! What a report says of a modulus.

ghost use Rattle.std.specs.Prelude.{◌≡◌, IsTrue, None, IfSome};
ghost use Rattle.cert_text.specs.Text.{modulus_text};
ghost use Rattle.cert_text.specs.WellFormed.{is_valid_modulus};
ghost use Rattle.text_reader.specs.Reading.{IsTextOf, IsNoText};
ghost use Rattle.text_reader.specs.Moduli.{IsNumberLine};

use crate::element::read_element;
use crate::fraction::read_fraction;
use crate::splitting::{is_text, strip_front};
use ext_algebra::Algebra;
use normal_forms::ModulusLine;

// A value or a j invariant.
#[tactic(auto, unfolding(cert_text::specs::Text::modulus_text))]
fn read_number(a: Algebra, bytes: &[u8]) -> Option<ModulusLine>
    ensures some { IfSome result (IsTextOf (IsNumberLine a) modulus_text bytes.now) }
    ensures none { result ≡ None → IsNoText (IsNumberLine a) modulus_text bytes.now }
{
    match strip_front(bytes, b"value ") {
        Some(text) => match read_element(a, text) {
            None => None,
            Some(e) => Some(ModulusLine::Value(e)),
        },
        None => match strip_front(bytes, b"j ") {
            None => None,
            Some(text) => match read_fraction(text) {
                None => None,
                Some(q) => Some(ModulusLine::J(q)),
            },
        },
    }
}

/// What a report says of a modulus: `none`, `form`, `value` and an element, or `j` and a fraction.

#[tactic(auto, unfolding(cert_text::specs::Text::modulus_text))]
pub fn read_modulus_line(a: Algebra, bytes: &[u8]) -> Option<ModulusLine>
    ensures some { IfSome result (IsTextOf (λ m. IsTrue (is_valid_modulus a m)) modulus_text bytes.now) }
    ensures none { result ≡ None → IsNoText (λ m. IsTrue (is_valid_modulus a m)) modulus_text bytes.now }
{
    if is_text(bytes, b"none") {
        Some(ModulusLine::None)
    } else if is_text(bytes, b"form") {
        Some(ModulusLine::Form)
    } else {
        read_number(a, bytes)
    }
}
