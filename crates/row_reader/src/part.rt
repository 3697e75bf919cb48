//! The parts of a change of coordinates.

ghost use Rattle.std.specs.Prelude.{◌≡◌, ◌∷◌, None, IfOk, IfSome};
ghost use Rattle.ring_law.specs.declared.fraction.Frac.{Frac};
ghost use Rattle.ext_algebra.specs.declared.algebra.Ext.{Ext};
ghost use Rattle.jet_poly.specs.JetTerms.{JetTerms};
ghost use Rattle.poly_text.specs.Polynomials.{jet_text};
ghost use Rattle.cert_text.specs.WellFormed.{IsJetOf, has_no_constant as is_without_constant};
ghost use Rattle.cert_text.specs.Text.{part_inside};
ghost use Rattle.text_reader.specs.Reading.{IsTextOf, IsNoText};
ghost use Rattle.row_reader.specs.Rows.{IsNamedPart};
ghost use Rattle.row_reader.specs.Words.{after_space};

use crate::word::{take_mark, take_word};
use ext_algebra::{Algebra, Ext};
use jet_poly::Jet;
use mono_exp::degree;
use poly_text::Name;
use ring_law::{Frac, NoMemory};
use std::alloc::Global;
use text_reader::{read_name, read_polynomial};

// No term is constant.
fn has_no_constant(part: &Jet<Ext<Frac>>) -> bool
    ensures { result ≡ is_without_constant part.now }
{
    part.terms().iter().all(|t| degree(t.0) > 0)
}

// The polynomial that is the last word.
fn read_last(
    alloc: Global,
    a: Algebra,
    n: u8,
    order: u8,
    rest: Option<&[u8]>,
) -> Result<Option<Jet<Ext<Frac>>>, NoMemory>
    ensures some { IfOk result (λ found. IfSome found (λ f. IsJetOf n order a f × (after_space rest.entry ≡ 32 ∷ jet_text f))) }
    ensures none { IfOk result (λ found. found ≡ None → (f : JetTerms (Ext Frac)) → IsJetOf n order a f → after_space rest.entry ≡ 32 ∷ jet_text f → ⊥) }
{
    match rest {
        None => Ok(None),
        Some(text) => read_polynomial(alloc, a, n, order, text),
    }
}

/// A name and what is put for it: a polynomial without constant term, as `x = u1+u2`.
pub fn read_part(
    alloc: Global,
    a: Algebra,
    n: u8,
    order: u8,
    bytes: &[u8],
) -> Result<Option<(Name, Jet<Ext<Frac>>)>, NoMemory>
    ensures some { IfOk result (λ found. IfSome found (IsTextOf (IsNamedPart a n order) part_inside bytes.now)) }
    ensures none { IfOk result (λ found. found ≡ None → IsNoText (IsNamedPart a n order) part_inside bytes.now) }
{
    let Some((word, behind)) = take_word(Some(bytes)) else {
        return Ok(None);
    };
    let Some(name) = read_name(word) else {
        return Ok(None);
    };
    let Some(rest) = take_mark(behind, b"=") else {
        return Ok(None);
    };
    match read_last(alloc, a, n, order, rest)? {
        None => Ok(None),
        Some(part) => {
            if has_no_constant(&part) {
                Ok(Some((name, part)))
            } else {
                Ok(None)
            }
        }
    }
}
