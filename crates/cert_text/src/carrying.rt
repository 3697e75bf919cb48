//! The lines from `order` to the jet.

ghost use Rattle.std.specs.Prelude.{◌≡◌, ◌++◌, ◌∷◌, OnOk, decimal, codes};
ghost use Rattle.poly_text.specs.Polynomials.{jet_text};
ghost use Rattle.cert_text.specs.Words.{word_text};
ghost use Rattle.cert_text.specs.Text.{line, word_line, algebra_text, cubic_text, other_sign, square_text, part_text, parts_text, spaced, rows_text, carried_text};

use crate::report::Carried;
use crate::word::Word;
use crate::wording::{put_line, put_number_line, put_word};
use ext_algebra::{Algebra, Ext};
use jet_poly::Jet;
use poly_text::{
    Name, new_names, put_component, put_components, put_element, put_name, put_polynomial,
};
use ring_law::Frac;
use std::alloc::{AllocError, Global};

/// The other sign; a byte that is no sign stays.
pub fn opposite_sign(sign: u8) -> u8
    ensures { result ≡ other_sign sign }
{
    match sign {
        b'+' => b'-',
        b'-' => b'+',
        _ => sign,
    }
}

/// Appends a polynomial in the new variables.
pub fn put_jet(alloc: Global, out: &mut Vec<u8>, f: &Jet<Ext<Frac>>) -> Result<(), AllocError>
    ensures { OnOk result (out.new.items ≡ out.old.items ++ jet_text f.now) }
{
    let names = new_names();
    put_polynomial(alloc, out, &names, f)
}

// Appends the modulus of t of degree 3.
fn put_cubic(
    alloc: Global,
    out: &mut Vec<u8>,
    m2: Frac,
    m1: Frac,
    m0: Frac,
) -> Result<(), AllocError>
    ensures { OnOk result (out.new.items ≡ out.old.items ++ cubic_text m2 m1 m0) }
{
    out.extend_from_slice(b"t^3")?;
    put_components(alloc, out, &[(m2, b"*t^2"), (m1, b"*t"), (m0, b"")])
}

// Appends the modulus of s, whose square is d, behind that of t.
fn put_square(alloc: Global, out: &mut Vec<u8>, d: Frac) -> Result<(), AllocError>
    ensures { OnOk result (out.new.items ≡ out.old.items ++ square_text d) }
{
    out.extend_from_slice(b" ; s^2")?;
    let mut piece = Vec::new(alloc);
    put_component(alloc, &mut piece, d, b"")?;
    if let [sign, magnitude @ ..] = piece.as_slice() {
        out.push(opposite_sign(*sign))?;
        out.extend_from_slice(magnitude)?;
    }
    Ok(())
}

#[tactic(auto, unfolding(crate::specs::Text::algebra_text))]
fn put_algebra(alloc: Global, out: &mut Vec<u8>, algebra: Algebra) -> Result<(), AllocError>
    ensures { OnOk result (out.new.items ≡ out.old.items ++ algebra_text algebra) }
{
    match algebra {
        Algebra::Rational => out.push(b'Q')?,
        Algebra::Quadratic { m1, m0 } => {
            out.extend_from_slice(b"t^2")?;
            put_components(alloc, out, &[(m1, b"*t"), (m0, b"")])?;
        }
        Algebra::Cubic { m2, m1, m0 } => put_cubic(alloc, out, m2, m1, m0)?,
        Algebra::Tower { m2, m1, m0, d } => {
            put_cubic(alloc, out, m2, m1, m0)?;
            put_square(alloc, out, d)?;
        }
    }
    Ok(())
}

// Appends the line of the algebra.
#[tactic(auto, unfolding(crate::specs::Text::line, crate::specs::Text::word_line))]
fn put_algebra_line(alloc: Global, out: &mut Vec<u8>, algebra: Algebra) -> Result<(), AllocError>
    ensures { OnOk result (out.new.items ≡ out.old.items ++ word_line Word.Algebra (algebra_text algebra)) }
{
    put_word(out, Word::Algebra)?;
    out.push(b' ')?;
    put_algebra(alloc, out, algebra)?;
    out.push(b'\n')?;
    Ok(())
}

#[tactic(auto, unfolding(crate::specs::Text::line, crate::specs::Text::part_text))]
fn put_part(
    alloc: Global,
    out: &mut Vec<u8>,
    name: &Name,
    part: &Jet<Ext<Frac>>,
) -> Result<(), AllocError>
    ensures { OnOk result (out.new.items ≡ out.old.items ++ part_text name.now part.now) }
{
    put_name(out, name)?;
    out.extend_from_slice(b" = ")?;
    put_jet(alloc, out, part)?;
    out.push(b'\n')?;
    Ok(())
}

#[tactic(auto, unfolding(crate::specs::Text::parts_text))]
fn put_parts(
    alloc: Global,
    out: &mut Vec<u8>,
    names: &[Name],
    parts: &[Jet<Ext<Frac>>],
) -> Result<(), AllocError>
    ensures { OnOk result (out.new.items ≡ out.old.items ++ parts_text names.now parts.now) }
{
    for (i, name) in names.iter().enumerate() {
        if i < parts.len() {
            put_part(alloc, out, name, &parts[i])?;
        }
    }
    Ok(())
}

#[tactic(auto, unfolding(crate::specs::Text::spaced))]
fn put_spaced(alloc: Global, out: &mut Vec<u8>, elements: &[Ext<Frac>]) -> Result<(), AllocError>
    ensures { OnOk result (out.new.items ≡ out.old.items ++ spaced elements.now) }
{
    if let [first, others @ ..] = elements {
        put_element(alloc, out, *first)?;
        for element in others {
            out.push(b' ')?;
            put_element(alloc, out, *element)?;
        }
    }
    Ok(())
}

#[tactic(auto, unfolding(crate::specs::Text::line))]
fn put_row(alloc: Global, out: &mut Vec<u8>, elements: &[Ext<Frac>]) -> Result<(), AllocError>
    ensures { OnOk result (out.new.items ≡ out.old.items ++ line (spaced elements.now)) }
{
    put_spaced(alloc, out, elements)?;
    out.push(b'\n')?;
    Ok(())
}

#[tactic(auto, unfolding(crate::specs::Text::rows_text))]
fn put_rows(
    alloc: Global,
    out: &mut Vec<u8>,
    n: u8,
    elements: &[Ext<Frac>],
) -> Result<(), AllocError>
    ensures { OnOk result (out.new.items ≡ out.old.items ++ rows_text n n elements.now) }
{
    let mut rest = elements;
    for _ in 0..n {
        let (row, after) = rest.split_at((n as usize).min(rest.len()));
        put_row(alloc, out, row)?;
        rest = after;
    }
    Ok(())
}

#[tactic(auto, unfolding(crate::specs::Text::line, crate::specs::Text::word_line))]
fn put_jet_line(
    alloc: Global,
    out: &mut Vec<u8>,
    word: Word,
    jet: &Jet<Ext<Frac>>,
) -> Result<(), AllocError>
    ensures { OnOk result (out.new.items ≡ out.old.items ++ word_line word (jet_text jet.now)) }
{
    put_word(out, word)?;
    out.push(b' ')?;
    put_jet(alloc, out, jet)?;
    out.push(b'\n')?;
    Ok(())
}

/// Appends the lines from `order` to the jet, whose line begins with the word.
#[tactic(auto, unfolding(crate::specs::Text::carried_text))]
pub fn put_carried(
    alloc: Global,
    out: &mut Vec<u8>,
    word: Word,
    c: &Carried,
) -> Result<(), AllocError>
    ensures { OnOk result (out.new.items ≡ out.old.items ++ carried_text word c.now) }
{
    put_number_line(out, Word::Order, u64::from(c.order))?;
    put_algebra_line(alloc, out, c.algebra)?;
    put_number_line(out, Word::Corank, u64::from(c.corank))?;
    put_line(out, Word::Change)?;
    put_parts(alloc, out, c.names.as_slice(), c.change.parts.as_slice())?;
    put_line(out, Word::Inverse)?;
    put_rows(alloc, out, c.change.n, c.change.inverse.as_slice())?;
    put_jet_line(alloc, out, word, &c.jet)
}
