//! The text of words and names, and lines that begin with a word.

ghost use Rattle.std.specs.Prelude.{◌≡◌, ◌++◌, ◌∷◌, OnOk, decimal};
ghost use Rattle.cert_text.specs.Words.{word_text};
ghost use Rattle.cert_text.specs.Names.{family_letters, family_numbers, family_text, pattern_text, phase_text, what_text};
ghost use Rattle.cert_text.specs.Text.{line, word_line};

use crate::report::Phase;
use crate::word::Word;
use normal_forms::{Family, Pattern};
use poly_text::{What, put_number};
use std::alloc::AllocError;

/// The bytes of a word.
#[tactic(auto, unfolding(crate::specs::Words::word_text))]
pub fn word_bytes(word: Word) -> &'static [u8]
    ensures { result.now ≡ word_text word }
{
    match word {
        Word::Germ => b"germ",
        Word::Long => b"long",
        Word::TooLong => b"answer too-long",
        Word::Syntax => b"answer syntax",
        Word::Literal => b"answer literal",
        Word::NotCritical => b"answer not-critical",
        Word::Range => b"answer range",
        Word::Unbuilt => b"answer unbuilt",
        Word::Named => b"answer named",
        Word::Outside => b"answer outside",
        Word::Limit => b"answer limit",
        Word::Unresolved => b"answer unresolved",
        Word::Order => b"order",
        Word::Algebra => b"algebra",
        Word::Corank => b"corank",
        Word::Change => b"change",
        Word::Inverse => b"inverse",
        Word::Form => b"form",
        Word::Jet => b"jet",
        Word::Units => b"units",
        Word::Modulus => b"modulus",
        Word::Milnor => b"milnor",
        Word::Mather => b"mather",
        Word::Basis => b"basis",
        Word::Table => b"table",
        Word::Functional => b"functional",
        Word::End => b"end",
    }
}

/// Appends a word.
pub fn put_word(out: &mut Vec<u8>, word: Word) -> Result<(), AllocError>
    ensures { OnOk result (out.new.items ≡ out.old.items ++ word_text word) }
{
    out.extend_from_slice(word_bytes(word))
}

/// Appends a line of one word.
#[tactic(auto, unfolding(crate::specs::Text::line))]
pub fn put_line(out: &mut Vec<u8>, word: Word) -> Result<(), AllocError>
    ensures { OnOk result (out.new.items ≡ out.old.items ++ line (word_text word)) }
{
    put_word(out, word)?;
    out.push(b'\n')?;
    Ok(())
}

/// Appends a line of a word and more bytes.
#[tactic(auto, unfolding(crate::specs::Text::line, crate::specs::Text::word_line))]
pub fn put_word_line(out: &mut Vec<u8>, word: Word, text: &[u8]) -> Result<(), AllocError>
    ensures { OnOk result (out.new.items ≡ out.old.items ++ word_line word text.now) }
{
    put_word(out, word)?;
    out.push(b' ')?;
    out.extend_from_slice(text)?;
    out.push(b'\n')?;
    Ok(())
}

/// Appends a line of a word and a number.
#[tactic(auto, unfolding(crate::specs::Text::line, crate::specs::Text::word_line))]
pub fn put_number_line(out: &mut Vec<u8>, word: Word, n: u64) -> Result<(), AllocError>
    ensures { OnOk result (out.new.items ≡ out.old.items ++ word_line word (decimal n)) }
{
    put_word(out, word)?;
    out.push(b' ')?;
    put_number(out, n)?;
    out.push(b'\n')?;
    Ok(())
}

#[tactic(auto, unfolding(crate::specs::Names::family_letters))]
fn letters_of(family: Family) -> &'static [u8]
    ensures { result.now ≡ family_letters family }
{
    match family {
        Family::A(_) => b"A",
        Family::D(_) => b"D",
        Family::E6 => b"E6",
        Family::E7 => b"E7",
        Family::E8 => b"E8",
        Family::P8 => b"P8",
        Family::X9 => b"X9",
        Family::J10 => b"J10",
        Family::T(_, _, _) => b"T(",
        Family::E12 => b"E12",
        Family::E13 => b"E13",
        Family::E14 => b"E14",
        Family::Z11 => b"Z11",
        Family::Z12 => b"Z12",
        Family::Z13 => b"Z13",
        Family::W12 => b"W12",
        Family::W13 => b"W13",
        Family::Q10 => b"Q10",
        Family::Q11 => b"Q11",
        Family::Q12 => b"Q12",
        Family::S11 => b"S11",
        Family::S12 => b"S12",
        Family::U12 => b"U12",
    }
}

#[tactic(auto, unfolding(crate::specs::Names::family_numbers))]
fn put_numbers(out: &mut Vec<u8>, family: Family) -> Result<(), AllocError>
    ensures { OnOk result (out.new.items ≡ out.old.items ++ family_numbers family) }
{
    match family {
        Family::A(m) | Family::D(m) => put_number(out, u64::from(m))?,
        Family::T(p, q, r) => {
            put_number(out, u64::from(p))?;
            out.push(b',')?;
            put_number(out, u64::from(q))?;
            out.push(b',')?;
            put_number(out, u64::from(r))?;
            out.push(b')')?;
        }
        _ => {}
    }
    Ok(())
}

/// Appends the name of a family.
#[tactic(auto, unfolding(crate::specs::Names::family_text))]
pub fn put_family(out: &mut Vec<u8>, family: Family) -> Result<(), AllocError>
    ensures { OnOk result (out.new.items ≡ out.old.items ++ family_text family) }
{
    out.extend_from_slice(letters_of(family))?;
    put_numbers(out, family)
}

/// The name of a pattern.
#[tactic(auto, unfolding(crate::specs::Names::pattern_text))]
pub fn pattern_bytes(pattern: Pattern) -> &'static [u8]
    ensures { result.now ≡ pattern_text pattern }
{
    match pattern {
        Pattern::O => b"O",
        Pattern::V => b"V",
        Pattern::N => b"N",
        Pattern::J3 => b"J3",
        Pattern::Z1 => b"Z1",
        Pattern::W1 => b"W1",
        Pattern::Q2 => b"Q2",
        Pattern::S1 => b"S1",
        Pattern::U1 => b"U1",
    }
}

/// The name of a phase.
#[tactic(auto, unfolding(crate::specs::Names::phase_text))]
pub fn phase_bytes(phase: Phase) -> &'static [u8]
    ensures { result.now ≡ phase_text phase }
{
    match phase {
        Phase::Line => b"line",
        Phase::Hessian => b"hessian",
        Phase::Split => b"split",
        Phase::Shape => b"shape",
        Phase::Kill => b"kill",
        Phase::Mather => b"mather",
        Phase::Finish => b"finish",
        Phase::Milnor => b"milnor",
    }
}

/// The word for where a line leaves the grammar.
#[tactic(auto, unfolding(crate::specs::Names::what_text))]
pub fn what_bytes(what: What) -> &'static [u8]
    ensures { result.now ≡ what_text what }
{
    match what {
        What::Byte => b"byte",
        What::End => b"end",
    }
}
