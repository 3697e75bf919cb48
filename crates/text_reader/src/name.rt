//! Names of variables.

ghost use Rattle.std.specs.Prelude.{◌≡◌, true, IsTrue, None, IfSome};
ghost use Rattle.std.specs.List.{list_all};
ghost use Rattle.line_syntax.specs.Syntax as syntax;
ghost use Rattle.poly_text.specs.Polynomials.{name_text};
ghost use Rattle.cert_text.specs.WellFormed.{is_valid_name};
ghost use Rattle.text_reader.specs.Reading.{IsTextOf, IsNoText};
ghost use Rattle.text_reader.specs.Names.{padded};

use poly_text::Name;

fn are_digits(bytes: &[u8]) -> bool
    ensures { result ≡ list_all syntax.is_digit bytes.now }
{
    bytes.iter().all(|b| b.is_ascii_digit())
}

// A letter and at most three digits.
fn is_name(bytes: &[u8]) -> bool
    ensures { result ≡ syntax.is_name bytes.now }
{
    match bytes {
        [] => false,
        [letter, digits @ ..] => {
            letter.is_ascii_alphabetic() && are_digits(digits) && digits.len() <= 3
        }
    }
}

// The name with this text.
#[tactic(auto, using(crate::proofs::NameTexts::name_short))]
fn made(text: &[u8]) -> Name
    requires { syntax.is_name text.now ≡ true }
    ensures { result ≡ padded text.now }
{
    let mut bytes = [0u8; 4];
    let (front, _) = bytes.split_at_mut(text.len());
    front.copy_from_slice(text);
    Name {
        bytes,
        len: text.len() as u8,
    }
}

/// A name of the line grammar: a letter and at most three digits.
pub fn read_name(bytes: &[u8]) -> Option<Name>
    ensures some { IfSome result (IsTextOf (λ name. IsTrue (is_valid_name name)) name_text bytes.now) }
    ensures none { result ≡ None → IsNoText (λ name. IsTrue (is_valid_name name)) name_text bytes.now }
{
    if is_name(bytes) {
        Some(made(bytes))
    } else {
        None
    }
}
