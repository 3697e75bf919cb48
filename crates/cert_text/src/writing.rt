//! The text of a report.

ghost use Rattle.std.specs.Prelude.{◌≡◌, ◌++◌, ◌∷◌, OnOk, IfOk, length, decimal};
ghost use Rattle.std.specs.List.{flat_map};
ghost use Rattle.poly_text.specs.Polynomials.{name_text};
ghost use Rattle.cert_text.specs.Words.{word_text};
ghost use Rattle.cert_text.specs.Names.{family_text, what_text};
ghost use Rattle.cert_text.specs.Text.{line, word_line, front_text, evidence_text, named_text, outside_text, limit_text, unresolved_text, answer_text, report_text};

use crate::carrying::put_carried;
use crate::evidence::{
    put_basis_line, put_functional, put_functional_line, put_mather, put_modulus_line, put_table,
    put_units,
};
use crate::report::{Answer, Limit, Named, Outside, Report, Unresolved};
use crate::word::Word;
use crate::wording::{
    pattern_bytes, phase_bytes, put_family, put_line, put_number_line, put_word, put_word_line,
    what_bytes,
};
use normal_forms::Family;
use poly_text::{Name, What, put_name, put_number};
use ring_law::NoMemory;
use std::alloc::{AllocError, Global};

#[tactic(auto, unfolding(crate::specs::Text::line, crate::specs::Text::word_line))]
fn put_name_line(out: &mut Vec<u8>, family: Family) -> Result<(), AllocError>
    ensures { OnOk result (out.new.items ≡ out.old.items ++ word_line Word.Named (family_text family)) }
{
    put_word(out, Word::Named)?;
    out.push(b' ')?;
    put_family(out, family)?;
    out.push(b'\n')?;
    Ok(())
}

// Appends the lines up to the Milnor number.
#[tactic(auto, unfolding(crate::specs::Text::front_text))]
fn put_front(alloc: Global, out: &mut Vec<u8>, r: &Named) -> Result<(), AllocError>
    ensures { OnOk result (out.new.items ≡ out.old.items ++ front_text r.now) }
{
    put_name_line(out, r.family)?;
    put_carried(alloc, out, Word::Form, &r.carried)?;
    put_number_line(out, Word::Units, r.units.len() as u64)?;
    put_units(alloc, out, r.units.as_slice())?;
    put_modulus_line(alloc, out, r.modulus)?;
    put_number_line(out, Word::Milnor, u64::from(r.milnor))
}

// Appends the lines after the Milnor number.
#[tactic(auto, unfolding(crate::specs::Text::evidence_text))]
fn put_evidence(alloc: Global, out: &mut Vec<u8>, r: &Named) -> Result<(), AllocError>
    ensures { OnOk result (out.new.items ≡ out.old.items ++ evidence_text r.now) }
{
    put_mather(alloc, out, r.mather.as_slice())?;
    put_basis_line(alloc, out, r.quotient.basis.as_slice())?;
    put_number_line(out, Word::Table, r.quotient.table.len() as u64)?;
    put_table(alloc, out, r.quotient.table.as_slice())
}

#[tactic(auto, unfolding(crate::specs::Text::named_text))]
fn put_named(alloc: Global, out: &mut Vec<u8>, r: &Named) -> Result<(), AllocError>
    ensures { OnOk result (out.new.items ≡ out.old.items ++ named_text r.now) }
{
    put_front(alloc, out, r)?;
    put_evidence(alloc, out, r)
}

#[tactic(auto, unfolding(crate::specs::Text::outside_text))]
fn put_outside(alloc: Global, out: &mut Vec<u8>, r: &Outside) -> Result<(), AllocError>
    ensures { OnOk result (out.new.items ≡ out.old.items ++ outside_text r.now) }
{
    put_word_line(out, Word::Outside, pattern_bytes(r.pattern))?;
    put_carried(alloc, out, Word::Jet, &r.carried)
}

#[tactic(auto, unfolding(crate::specs::Text::limit_text))]
fn put_limit(alloc: Global, out: &mut Vec<u8>, r: &Limit) -> Result<(), AllocError>
    ensures { OnOk result (out.new.items ≡ out.old.items ++ limit_text r.now) }
{
    put_line(out, Word::Limit)?;
    put_carried(alloc, out, Word::Jet, &r.carried)?;
    put_functional_line(alloc, out, r.at, r.functional.len() as u64)?;
    put_functional(alloc, out, r.functional.as_slice())
}

#[tactic(auto, unfolding(crate::specs::Text::unresolved_text))]
fn put_unresolved(alloc: Global, out: &mut Vec<u8>, r: &Unresolved) -> Result<(), AllocError>
    ensures { OnOk result (out.new.items ≡ out.old.items ++ unresolved_text r.now) }
{
    put_line(out, Word::Unresolved)?;
    put_carried(alloc, out, Word::Jet, &r.carried)?;
    put_mather(alloc, out, r.mather.as_slice())
}

#[tactic(auto, unfolding(crate::specs::Text::line, crate::specs::Text::word_line))]
fn put_not_critical(out: &mut Vec<u8>, variable: &Name) -> Result<(), AllocError>
    ensures { OnOk result (out.new.items ≡ out.old.items ++ word_line Word.NotCritical (name_text variable.now)) }
{
    put_word(out, Word::NotCritical)?;
    out.push(b' ')?;
    put_name(out, variable)?;
    out.push(b'\n')?;
    Ok(())
}

#[tactic(auto, unfolding(crate::specs::Text::line, crate::specs::Text::word_line))]
fn put_syntax(out: &mut Vec<u8>, column: u32, what: What) -> Result<(), AllocError>
    ensures { OnOk result (out.new.items ≡ out.old.items ++ word_line Word.Syntax (decimal column ++ 32 ∷ what_text what)) }
{
    put_word(out, Word::Syntax)?;
    out.push(b' ')?;
    put_number(out, u64::from(column))?;
    out.push(b' ')?;
    out.extend_from_slice(what_bytes(what))?;
    out.push(b'\n')?;
    Ok(())
}

#[tactic(auto, unfolding(crate::specs::Text::answer_text))]
fn put_answer(alloc: Global, out: &mut Vec<u8>, answer: &Answer) -> Result<(), AllocError>
    ensures { OnOk result (out.new.items ≡ out.old.items ++ answer_text answer.now) }
{
    match answer {
        Answer::Syntax { column, what } => put_syntax(out, *column, *what)?,
        Answer::Literal { column } => put_number_line(out, Word::Literal, u64::from(*column))?,
        Answer::NotCritical { variable } => put_not_critical(out, variable)?,
        Answer::Range { phase } => put_word_line(out, Word::Range, phase_bytes(*phase))?,
        Answer::Unbuilt => put_line(out, Word::Unbuilt)?,
        Answer::Named(named) => put_named(alloc, out, named)?,
        Answer::Outside(outside) => put_outside(alloc, out, outside)?,
        Answer::Limit(limit) => put_limit(alloc, out, limit)?,
        Answer::Unresolved(unresolved) => put_unresolved(alloc, out, unresolved)?,
    }
    Ok(())
}

#[tactic(auto, unfolding(crate::specs::Text::report_text))]
fn put_report(alloc: Global, out: &mut Vec<u8>, r: &Report) -> Result<(), AllocError>
    ensures { OnOk result (out.new.items ≡ out.old.items ++ report_text r.now) }
{
    match r {
        Report::Long { length } => {
            put_number_line(out, Word::Long, *length)?;
            put_line(out, Word::TooLong)?;
        }
        Report::Line { line, answer } => {
            put_word_line(out, Word::Germ, line.as_slice())?;
            put_answer(alloc, out, answer)?;
        }
    }
    put_line(out, Word::End)
}

/// The text of a report.
pub fn write_report(alloc: Global, r: &Report) -> Result<Vec<u8>, NoMemory>
    ensures { IfOk result (λ text. text.items ≡ report_text r.now) }
{
    let mut out = Vec::new(alloc);
    match put_report(alloc, &mut out, r) {
        Ok(()) => Ok(out),
        Err(_) => Err(NoMemory),
    }
}
