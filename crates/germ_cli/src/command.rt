//! What the words after the program's name ask for.
ghost use Rattle.germ_cli.specs.Words.{AskForNothing, AsksFor, IsLimit};
ghost use Rattle.std.specs.Prelude.{◌≡◌, ◌≤◌, ℕ, None, decimal, map, string_bytes, IfSome};

use text_reader::read_u8;

/// What the program is asked for.
#[derive(Clone, Copy, Debug, PartialEq, Eq)]
pub enum Command {
    /// A report for each line, up to this order.
    Classify { limit: u8 },
    /// A verdict on each chunk.
    Check,
    /// The families of the list with their normal forms.
    Table,
}

/// The highest order that is tried where the words name none.
pub const LIMIT: u8 = 12;

// The order limit that the word names, from 3 to 16, decimal without sign and without leading zeros.
fn read_limit(word: &[u8]) -> Option<u8>
    ensures some { IfSome result (λ limit. (decimal limit ≡ word.now) × IsLimit limit) }
    ensures none { result ≡ None → (limit : ℕ) → IsLimit limit → decimal limit ≡ word.now → ⊥ }
{
    match read_u8(word) {
        Some(limit) if 3 <= limit && limit <= 16 => Some(limit),
        _ => None,
    }
}

/// The command that the words spell: `classify`, or `classify K` with K from 3 to 16, decimal without
/// sign and without leading zeros, or `check`, or `table`. `None` exactly where they spell none.
pub fn read_words(words: &[String]) -> Option<Command>
    ensures some { IfSome result (AsksFor (map string_bytes words.now)) }
    ensures none { result ≡ None → AskForNothing (map string_bytes words.now) }
{
    match words {
        [word] if word.as_str() == "classify" => Some(Command::Classify { limit: LIMIT }),
        [word] if word.as_str() == "check" => Some(Command::Check),
        [word] if word.as_str() == "table" => Some(Command::Table),
        [word, limit] if word.as_str() == "classify" => match read_limit(limit.as_bytes()) {
            Some(limit) => Some(Command::Classify { limit }),
            None => None,
        },
        _ => None,
    }
}
