//! Values in a line behind a word.

ghost use Rattle.std.specs.Prelude.{◌≡◌, None, IsTrue, IfSome};
ghost use Rattle.ext_algebra.specs.Algebra.{is_algebra};
ghost use Rattle.poly_text.specs.Polynomials.{name_text};
ghost use Rattle.cert_text.specs.Names.{family_text, pattern_text, phase_text};
ghost use Rattle.cert_text.specs.Text.{word_line, algebra_text, modulus_text};
ghost use Rattle.cert_text.specs.WellFormed.{is_valid_name, is_valid_modulus, IsFamily};
ghost use Rattle.text_reader.specs.Reading.{IsAny};
ghost use Rattle.report_reader.specs.Blocks.{IsAtFront, IsNotAtFront};
ghost use Rattle.report_reader.specs.Lines.{IsPlace, place_text};

use crate::line::take_word_line;
use crate::pair::read_place;
use cert_text::{Phase, Word};
use ext_algebra::Algebra;
use normal_forms::{Family, ModulusLine, Pattern};
use poly_text::{Name, What};
use text_reader::{
    read_algebra, read_family, read_modulus_line, read_name, read_pattern, read_phase,
};

/// The algebra in the line at the front.
pub(crate) fn take_algebra(bytes: &[u8]) -> Option<(Algebra, &[u8])>
    ensures some { IfSome result (IsAtFront (λ a. IsTrue (is_algebra a)) (λ v. word_line Word.Algebra (algebra_text v)) bytes.now) }
    ensures none { result ≡ None → IsNotAtFront (λ a. IsTrue (is_algebra a)) (λ v. word_line Word.Algebra (algebra_text v)) bytes.now }
{
    match take_word_line(Word::Algebra, bytes) {
        None => None,
        Some((text, rest)) => match read_algebra(text) {
            None => None,
            Some(value) => Some((value, rest)),
        },
    }
}

/// The family in the line at the front of a named germ.
pub(crate) fn take_family(bytes: &[u8]) -> Option<(Family, &[u8])>
    ensures some { IfSome result (IsAtFront IsFamily (λ v. word_line Word.Named (family_text v)) bytes.now) }
    ensures none { result ≡ None → IsNotAtFront IsFamily (λ v. word_line Word.Named (family_text v)) bytes.now }
{
    match take_word_line(Word::Named, bytes) {
        None => None,
        Some((text, rest)) => match read_family(text) {
            None => None,
            Some(value) => Some((value, rest)),
        },
    }
}

/// The pattern in the line at the front of a germ outside the list.
pub(crate) fn take_pattern(bytes: &[u8]) -> Option<(Pattern, &[u8])>
    ensures some { IfSome result (IsAtFront IsAny (λ v. word_line Word.Outside (pattern_text v)) bytes.now) }
    ensures none { result ≡ None → IsNotAtFront IsAny (λ v. word_line Word.Outside (pattern_text v)) bytes.now }
{
    match take_word_line(Word::Outside, bytes) {
        None => None,
        Some((text, rest)) => match read_pattern(text) {
            None => None,
            Some(value) => Some((value, rest)),
        },
    }
}

/// The phase in the line at the front of an overflow.
pub(crate) fn take_phase(bytes: &[u8]) -> Option<(Phase, &[u8])>
    ensures some { IfSome result (IsAtFront IsAny (λ v. word_line Word.Range (phase_text v)) bytes.now) }
    ensures none { result ≡ None → IsNotAtFront IsAny (λ v. word_line Word.Range (phase_text v)) bytes.now }
{
    match take_word_line(Word::Range, bytes) {
        None => None,
        Some((text, rest)) => match read_phase(text) {
            None => None,
            Some(value) => Some((value, rest)),
        },
    }
}

/// The variable in the line at the front of a germ that is not critical.
pub(crate) fn take_variable(bytes: &[u8]) -> Option<(Name, &[u8])>
    ensures some { IfSome result (IsAtFront (λ name. IsTrue (is_valid_name name)) (λ v. word_line Word.NotCritical (name_text v)) bytes.now) }
    ensures none { result ≡ None → IsNotAtFront (λ name. IsTrue (is_valid_name name)) (λ v. word_line Word.NotCritical (name_text v)) bytes.now }
{
    match take_word_line(Word::NotCritical, bytes) {
        None => None,
        Some((text, rest)) => match read_name(text) {
            None => None,
            Some(value) => Some((value, rest)),
        },
    }
}

/// The modulus of the family, in the line at the front.
pub(crate) fn take_modulus_line(a: Algebra, bytes: &[u8]) -> Option<(ModulusLine, &[u8])>
    ensures some { IfSome result (IsAtFront (λ m. IsTrue (is_valid_modulus a m)) (λ v. word_line Word.Modulus (modulus_text v)) bytes.now) }
    ensures none { result ≡ None → IsNotAtFront (λ m. IsTrue (is_valid_modulus a m)) (λ v. word_line Word.Modulus (modulus_text v)) bytes.now }
{
    match take_word_line(Word::Modulus, bytes) {
        None => None,
        Some((text, rest)) => match read_modulus_line(a, text) {
            None => None,
            Some(value) => Some((value, rest)),
        },
    }
}

/// The column in the line at the front of an answer for a line outside the grammar, and what stands there.
pub(crate) fn take_place(bytes: &[u8]) -> Option<((u32, What), &[u8])>
    ensures some { IfSome result (IsAtFront IsPlace (λ v. word_line Word.Syntax (place_text v)) bytes.now) }
    ensures none { result ≡ None → IsNotAtFront IsPlace (λ v. word_line Word.Syntax (place_text v)) bytes.now }
{
    match take_word_line(Word::Syntax, bytes) {
        None => None,
        Some((text, rest)) => match read_place(text) {
            None => None,
            Some(value) => Some((value, rest)),
        },
    }
}
