//! Lines of a report by the words at their fronts.

ghost use Rattle.std.specs.Prelude.{◌≡◌, ℕ, List, ◌∷◌, ◌++◌, ◌≤◌, None, IfSome, decimal};
ghost use Rattle.cert_text.specs.Words.{word_text};
ghost use Rattle.cert_text.specs.Text.{line, word_line};
ghost use Rattle.report_reader.specs.Blocks.{IsAtFront, IsNotAtFront};
ghost use Rattle.report_reader.specs.Lines.{IsClean, IsWithin};

use cert_text::{Word, word_bytes};
use text_reader::{read_u64, split_at_byte, strip_front};

/// What stands behind the line of this one word at the front.
pub(crate) fn take_line(word: Word, bytes: &[u8]) -> Option<&[u8]>
    ensures some { IfSome result (λ rest. line (word_text word) ++ rest.now ≡ bytes.now) }
    ensures none { result ≡ None → (more : List ℕ) → line (word_text word) ++ more ≡ bytes.now → ⊥ }
{
    match strip_front(bytes, word_bytes(word)) {
        None => None,
        Some(behind) => strip_front(behind, b"\n"),
    }
}

// What stands behind the word and a space.
fn behind_word(word: Word, bytes: &[u8]) -> Option<&[u8]>
    ensures some { IfSome result (λ rest. word_text word ++ 32 ∷ rest.now ≡ bytes.now) }
    ensures none { result ≡ None → (more : List ℕ) → word_text word ++ 32 ∷ more ≡ bytes.now → ⊥ }
{
    match strip_front(bytes, word_bytes(word)) {
        None => None,
        Some(behind) => strip_front(behind, b" "),
    }
}

/// What the line at the front has behind this word and a space, and what stands behind the line.
pub(crate) fn take_word_line(word: Word, bytes: &[u8]) -> Option<(&[u8], &[u8])>
    ensures some { IfSome result (λ p. IsClean p.0.now × (word_line word p.0.now ++ p.1.now ≡ bytes.now)) }
    ensures none { result ≡ None → IsNotAtFront IsClean (word_line word) bytes.now }
{
    match behind_word(word, bytes) {
        None => None,
        Some(behind) => split_at_byte(behind, b'\n'),
    }
}

/// The number from `least` to `most` in the line of this word at the front.
pub(crate) fn take_number(word: Word, least: u64, most: u64, bytes: &[u8]) -> Option<(u64, &[u8])>
    ensures some { IfSome result (IsAtFront (IsWithin least most) (λ n. word_line word (decimal n)) bytes.now) }
    ensures none { result ≡ None → IsNotAtFront (IsWithin least most) (λ n. word_line word (decimal n)) bytes.now }
{
    match take_word_line(word, bytes) {
        None => None,
        Some((text, rest)) => match read_u64(text) {
            None => None,
            Some(n) => {
                if least <= n && n <= most {
                    Some((n, rest))
                } else {
                    None
                }
            }
        },
    }
}
