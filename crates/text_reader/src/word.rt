//! Names of patterns and phases, and the word for where a line leaves the grammar.

ghost use Rattle.std.specs.Prelude.{◌≡◌, None, IfSome};
ghost use Rattle.cert_text.specs.Names.{pattern_text, phase_text, what_text};
ghost use Rattle.text_reader.specs.Reading.{IsTextOf, IsNoText, IsAny};

use cert_text::Phase;
use normal_forms::Pattern;
use poly_text::What;

/// The pattern with this name.
#[tactic(auto, unfolding(cert_text::specs::Names::pattern_text))]
pub fn read_pattern(bytes: &[u8]) -> Option<Pattern>
    ensures some { IfSome result (IsTextOf IsAny pattern_text bytes.now) }
    ensures none { result ≡ None → IsNoText IsAny pattern_text bytes.now }
{
    match bytes {
        b"O" => Some(Pattern::O),
        b"V" => Some(Pattern::V),
        b"N" => Some(Pattern::N),
        b"J3" => Some(Pattern::J3),
        b"Z1" => Some(Pattern::Z1),
        b"W1" => Some(Pattern::W1),
        b"Q2" => Some(Pattern::Q2),
        b"S1" => Some(Pattern::S1),
        b"U1" => Some(Pattern::U1),
        _ => None,
    }
}

/// The phase with this name.
#[tactic(auto, unfolding(cert_text::specs::Names::phase_text))]
pub fn read_phase(bytes: &[u8]) -> Option<Phase>
    ensures some { IfSome result (IsTextOf IsAny phase_text bytes.now) }
    ensures none { result ≡ None → IsNoText IsAny phase_text bytes.now }
{
    match bytes {
        b"line" => Some(Phase::Line),
        b"hessian" => Some(Phase::Hessian),
        b"split" => Some(Phase::Split),
        b"shape" => Some(Phase::Shape),
        b"kill" => Some(Phase::Kill),
        b"mather" => Some(Phase::Mather),
        b"finish" => Some(Phase::Finish),
        b"milnor" => Some(Phase::Milnor),
        _ => None,
    }
}

/// What stands where a line leaves the grammar: `byte` or `end`.
#[tactic(auto, unfolding(cert_text::specs::Names::what_text))]
pub fn read_what(bytes: &[u8]) -> Option<What>
    ensures some { IfSome result (IsTextOf IsAny what_text bytes.now) }
    ensures none { result ≡ None → IsNoText IsAny what_text bytes.now }
{
    match bytes {
        b"byte" => Some(What::Byte),
        b"end" => Some(What::End),
        _ => None,
    }
}
