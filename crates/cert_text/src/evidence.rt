//! The lines of units, of the modulus, and of the rows that show determinacy and Milnor number.

ghost use Rattle.std.specs.Prelude.{◌≡◌, ◌++◌, ◌∷◌, OnOk, length, decimal, codes};
ghost use Rattle.std.specs.List.{flat_map};
ghost use Rattle.poly_text.specs.Numbers.{element_text};
ghost use Rattle.poly_text.specs.Polynomials.{monomial_text, jet_text};
ghost use Rattle.cert_text.specs.Words.{word_text};
ghost use Rattle.cert_text.specs.Text.{line, word_line, unit_text, modulus_text, multipliers_text, mather_text, mather_lines, table_text, functional_text};

use crate::carrying::put_jet;
use crate::word::Word;
use crate::wording::{put_number_line, put_word};
use determinacy::MatherRow;
use ext_algebra::Ext;
use jet_poly::Jet;
use milnor_alg::TableRow;
use mono_exp::Exp;
use normal_forms::ModulusLine;
use poly_text::{new_names, put_element, put_fraction, put_monomial, put_number};
use ring_law::Frac;
use std::alloc::{AllocError, Global};

/// Appends a monomial in the new variables.
fn put_power(alloc: Global, out: &mut Vec<u8>, m: Exp) -> Result<(), AllocError>
    ensures { OnOk result (out.new.items ≡ out.old.items ++ monomial_text m) }
{
    let names = new_names();
    put_monomial(alloc, out, &names, m)
}

#[tactic(auto, unfolding(crate::specs::Text::line, crate::specs::Text::unit_text))]
fn put_unit(
    alloc: Global,
    out: &mut Vec<u8>,
    unit: (Ext<Frac>, Ext<Frac>),
) -> Result<(), AllocError>
    ensures { OnOk result (out.new.items ≡ out.old.items ++ unit_text unit) }
{
    put_element(alloc, out, unit.0)?;
    out.push(b' ')?;
    put_element(alloc, out, unit.1)?;
    out.push(b'\n')?;
    Ok(())
}

/// Appends one line for each unit, with its inverse.
pub fn put_units(
    alloc: Global,
    out: &mut Vec<u8>,
    units: &[(Ext<Frac>, Ext<Frac>)],
) -> Result<(), AllocError>
    ensures { OnOk result (out.new.items ≡ out.old.items ++ flat_map unit_text units.now) }
{
    for unit in units {
        put_unit(alloc, out, *unit)?;
    }
    Ok(())
}

#[tactic(auto, unfolding(crate::specs::Text::modulus_text))]
fn put_modulus(alloc: Global, out: &mut Vec<u8>, modulus: ModulusLine) -> Result<(), AllocError>
    ensures { OnOk result (out.new.items ≡ out.old.items ++ modulus_text modulus) }
{
    match modulus {
        ModulusLine::None => out.extend_from_slice(b"none")?,
        ModulusLine::Form => out.extend_from_slice(b"form")?,
        ModulusLine::Value(element) => {
            out.extend_from_slice(b"value ")?;
            put_element(alloc, out, element)?;
        }
        ModulusLine::J(j) => {
            out.extend_from_slice(b"j ")?;
            put_fraction(out, j)?;
        }
    }
    Ok(())
}

/// Appends the line of the modulus.
#[tactic(auto, unfolding(crate::specs::Text::line, crate::specs::Text::word_line))]
pub fn put_modulus_line(
    alloc: Global,
    out: &mut Vec<u8>,
    modulus: ModulusLine,
) -> Result<(), AllocError>
    ensures { OnOk result (out.new.items ≡ out.old.items ++ word_line Word.Modulus (modulus_text modulus)) }
{
    put_word(out, Word::Modulus)?;
    out.push(b' ')?;
    put_modulus(alloc, out, modulus)?;
    out.push(b'\n')?;
    Ok(())
}

#[tactic(auto, unfolding(crate::specs::Text::multipliers_text))]
fn put_multipliers(
    alloc: Global,
    out: &mut Vec<u8>,
    multipliers: &[Jet<Ext<Frac>>],
) -> Result<(), AllocError>
    ensures { OnOk result (out.new.items ≡ out.old.items ++ multipliers_text multipliers.now) }
{
    if let [first, others @ ..] = multipliers {
        out.push(b' ')?;
        put_jet(alloc, out, first)?;
        for multiplier in others {
            out.extend_from_slice(b" ; ")?;
            put_jet(alloc, out, multiplier)?;
        }
    }
    Ok(())
}

#[tactic(auto, unfolding(crate::specs::Text::line, crate::specs::Text::mather_text))]
fn put_mather_row(
    alloc: Global,
    out: &mut Vec<u8>,
    row: &MatherRow<Ext<Frac>>,
) -> Result<(), AllocError>
    ensures { OnOk result (out.new.items ≡ out.old.items ++ mather_text row.now) }
{
    put_power(alloc, out, row.monomial)?;
    out.extend_from_slice(b" =")?;
    put_multipliers(alloc, out, row.multipliers.as_slice())?;
    out.push(b'\n')?;
    Ok(())
}

fn put_mather_rows(
    alloc: Global,
    out: &mut Vec<u8>,
    rows: &[MatherRow<Ext<Frac>>],
) -> Result<(), AllocError>
    ensures { OnOk result (out.new.items ≡ out.old.items ++ flat_map mather_text rows.now) }
{
    for row in rows {
        put_mather_row(alloc, out, row)?;
    }
    Ok(())
}

/// Appends Mather's rows, with the line that counts them.
#[tactic(auto, unfolding(crate::specs::Text::mather_lines))]
pub fn put_mather(
    alloc: Global,
    out: &mut Vec<u8>,
    rows: &[MatherRow<Ext<Frac>>],
) -> Result<(), AllocError>
    ensures { OnOk result (out.new.items ≡ out.old.items ++ mather_lines rows.now) }
{
    put_number_line(out, Word::Mather, rows.len() as u64)?;
    put_mather_rows(alloc, out, rows)
}

fn put_values(alloc: Global, out: &mut Vec<u8>, values: &[Ext<Frac>]) -> Result<(), AllocError>
    ensures { OnOk result (out.new.items ≡ out.old.items ++ flat_map (λ v. 32 ∷ element_text v) values.now) }
{
    for value in values {
        out.push(b' ')?;
        put_element(alloc, out, *value)?;
    }
    Ok(())
}

#[tactic(auto, unfolding(crate::specs::Text::line, crate::specs::Text::table_text))]
fn put_table_row(
    alloc: Global,
    out: &mut Vec<u8>,
    row: &TableRow<Ext<Frac>>,
) -> Result<(), AllocError>
    ensures { OnOk result (out.new.items ≡ out.old.items ++ table_text row.now) }
{
    put_power(alloc, out, row.monomial)?;
    out.extend_from_slice(b" =")?;
    put_values(alloc, out, row.values.as_slice())?;
    out.extend_from_slice(b" :")?;
    put_multipliers(alloc, out, row.multipliers.as_slice())?;
    out.push(b'\n')?;
    Ok(())
}

/// Appends the rows of the table.
pub fn put_table(
    alloc: Global,
    out: &mut Vec<u8>,
    rows: &[TableRow<Ext<Frac>>],
) -> Result<(), AllocError>
    ensures { OnOk result (out.new.items ≡ out.old.items ++ flat_map table_text rows.now) }
{
    for row in rows {
        put_table_row(alloc, out, row)?;
    }
    Ok(())
}

fn put_monomials(alloc: Global, out: &mut Vec<u8>, monomials: &[Exp]) -> Result<(), AllocError>
    ensures { OnOk result (out.new.items ≡ out.old.items ++ flat_map (λ m. 32 ∷ monomial_text m) monomials.now) }
{
    for monomial in monomials {
        out.push(b' ')?;
        put_power(alloc, out, *monomial)?;
    }
    Ok(())
}

/// Appends the line of the basis.
#[tactic(auto, unfolding(crate::specs::Text::line))]
pub fn put_basis_line(alloc: Global, out: &mut Vec<u8>, basis: &[Exp]) -> Result<(), AllocError>
    ensures { OnOk result (out.new.items ≡ out.old.items ++ line (word_text Word.Basis ++ flat_map (λ m. 32 ∷ monomial_text m) basis.now)) }
{
    put_word(out, Word::Basis)?;
    put_monomials(alloc, out, basis)?;
    out.push(b'\n')?;
    Ok(())
}

#[tactic(auto, unfolding(crate::specs::Text::line, crate::specs::Text::functional_text))]
fn put_value(alloc: Global, out: &mut Vec<u8>, value: (Exp, Ext<Frac>)) -> Result<(), AllocError>
    ensures { OnOk result (out.new.items ≡ out.old.items ++ functional_text value) }
{
    put_power(alloc, out, value.0)?;
    out.push(b' ')?;
    put_element(alloc, out, value.1)?;
    out.push(b'\n')?;
    Ok(())
}

/// Appends the values of a functional, one monomial a line.
pub fn put_functional(
    alloc: Global,
    out: &mut Vec<u8>,
    values: &[(Exp, Ext<Frac>)],
) -> Result<(), AllocError>
    ensures { OnOk result (out.new.items ≡ out.old.items ++ flat_map functional_text values.now) }
{
    for value in values {
        put_value(alloc, out, *value)?;
    }
    Ok(())
}

/// Appends the line that says where a functional is 1, and how many values follow.
#[tactic(auto, unfolding(crate::specs::Text::line, crate::specs::Text::word_line))]
pub fn put_functional_line(
    alloc: Global,
    out: &mut Vec<u8>,
    at: Exp,
    count: u64,
) -> Result<(), AllocError>
    ensures { OnOk result (out.new.items ≡ out.old.items ++ word_line Word.Functional (monomial_text at ++ 32 ∷ decimal count)) }
{
    put_word(out, Word::Functional)?;
    out.push(b' ')?;
    put_power(alloc, out, at)?;
    out.push(b' ')?;
    put_number(out, count)?;
    out.push(b'\n')?;
    Ok(())
}
