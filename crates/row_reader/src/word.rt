//! The words of a line, which one space parts.

ghost use Rattle.std.specs.Prelude.{◌≡◌, ◌≢◌, ℕ, ◌∷◌, ◌++◌, [], List, ◌↔◌, IsTrue, None, IfSome};
ghost use Rattle.std.specs.List.{AllByRecursion};
ghost use Rattle.ring_law.specs.declared.fraction.Frac.{Frac};
ghost use Rattle.ext_algebra.specs.declared.algebra.Ext.{Ext};
ghost use Rattle.ext_algebra.specs.Algebra.{is_element};
ghost use Rattle.mono_exp.specs.declared.exponent.Exp.{Exp};
ghost use Rattle.poly_text.specs.Numbers.{element_text};
ghost use Rattle.poly_text.specs.Polynomials.{monomial_text};
ghost use Rattle.row_reader.specs.Values.{IsResidual};
ghost use Rattle.row_reader.specs.Words.{after_space, IsRest};

use ext_algebra::{Algebra, Ext};
use mono_exp::Exp;
use ring_law::Frac;
use text_reader::{read_element, read_monomial, split_at_byte};

/// The first word of what is left, and what is left behind it.
pub(crate) fn take_word(rest: Option<&[u8]>) -> Option<(&[u8], Option<&[u8]>)>
    ensures some { IfSome result (λ r. (after_space rest.entry ≡ 32 ∷ (r.0.now ++ after_space r.1)) × AllByRecursion (λ b. b ≢ 32) r.0.now) }
    ensures none { result ≡ None → after_space rest.entry ≡ [] }
{
    let Some(text) = rest else {
        return None;
    };
    match split_at_byte(text, b' ') {
        None => Some((text, None)),
        Some((word, behind)) => Some((word, Some(behind))),
    }
}

// The word is this mark.
fn is_mark(word: &[u8], mark: &[u8]) -> bool
    ensures { IsTrue result ↔ (word.now ≡ mark.now) }
{
    word == mark
}

/// What is left behind this mark, where it is the first word.
pub(crate) fn take_mark<'a>(rest: Option<&'a [u8]>, mark: &[u8]) -> Option<Option<&'a [u8]>>
    requires { AllByRecursion (λ b. b ≢ 32) mark.now }
    ensures some { IfSome result (λ r. after_space rest.entry ≡ 32 ∷ (mark.now ++ after_space r)) }
    ensures none { result ≡ None → (y : List ℕ) → IsRest y → after_space rest.entry ≡ 32 ∷ (mark.now ++ y) → ⊥ }
{
    match take_word(rest) {
        None => None,
        Some((word, behind)) => {
            if is_mark(word, mark) {
                Some(behind)
            } else {
                None
            }
        }
    }
}

/// The element that is the first word, and what is left behind it.
pub(crate) fn take_value(a: Algebra, rest: Option<&[u8]>) -> Option<(Ext<Frac>, Option<&[u8]>)>
    ensures some { IfSome result (λ r. IsTrue (is_element a r.0) × (after_space rest.entry ≡ 32 ∷ (element_text r.0 ++ after_space r.1))) }
    ensures none { result ≡ None → (e : Ext Frac) (y : List ℕ) → IsTrue (is_element a e) → IsRest y → after_space rest.entry ≡ 32 ∷ (element_text e ++ y) → ⊥ }
{
    match take_word(rest) {
        None => None,
        Some((word, behind)) => match read_element(a, word) {
            None => None,
            Some(e) => Some((e, behind)),
        },
    }
}

/// The monomial that is the first word, and what is left behind it.
pub(crate) fn take_monomial(corank: u8, rest: Option<&[u8]>) -> Option<(Exp, Option<&[u8]>)>
    ensures some { IfSome result (λ r. IsResidual corank r.0 × (after_space rest.entry ≡ 32 ∷ (monomial_text r.0 ++ after_space r.1))) }
    ensures none { result ≡ None → (m : Exp) (y : List ℕ) → IsResidual corank m → IsRest y → after_space rest.entry ≡ 32 ∷ (monomial_text m ++ y) → ⊥ }
{
    match take_word(rest) {
        None => None,
        Some((word, behind)) => match read_monomial(corank, 17, word) {
            None => None,
            Some(m) => Some((m, behind)),
        },
    }
}
