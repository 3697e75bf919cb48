//! Rows with multipliers.

ghost use Rattle.std.specs.Prelude.{◌≡◌, ◌≢◌, ℕ, ◌∷◌, ◌++◌, List, None, IfOk, IfSome};
ghost use Rattle.std.specs.List.{AllByRecursion};
ghost use Rattle.ring_law.specs.declared.fraction.Frac.{Frac};
ghost use Rattle.ext_algebra.specs.declared.algebra.Ext.{Ext};
ghost use Rattle.jet_poly.specs.JetTerms.{JetTerms};
ghost use Rattle.cert_text.specs.Text.{multipliers_text, mather_inside, table_inside};
ghost use Rattle.cert_text.specs.WellFormed.{AreJetsOf, IsRowOf, IsTableRowOf};
ghost use Rattle.text_reader.specs.Reading.{IsTextOf, IsNoText};
ghost use Rattle.row_reader.specs.Words.{after_space, IsRest, lead};

use crate::value::take_values;
use crate::word::{take_mark, take_monomial, take_word};
use determinacy::MatherRow;
use ext_algebra::{Algebra, Ext};
use jet_poly::Jet;
use milnor_alg::TableRow;
use ring_law::{Frac, NoMemory};
use sqlite_items::Items;
use std::alloc::Global;
use text_reader::read_polynomial;

// The word with the multiplier of this number, behind a semicolon unless it is the first, and what is left behind it.
fn take_multiplier(i: u8, rest: Option<&[u8]>) -> Option<(&[u8], Option<&[u8]>)>
    ensures some { IfSome result (λ r. (after_space rest.entry ≡ lead i ++ (r.0.now ++ after_space r.1)) × AllByRecursion (λ b. b ≢ 32) r.0.now) }
    ensures none { result ≡ None → (x y : List ℕ) → AllByRecursion (λ b. b ≢ 32) x → IsRest y → after_space rest.entry ≡ lead i ++ (x ++ y) → ⊥ }
{
    if i == 0 {
        take_word(rest)
    } else {
        match take_mark(rest, b";") {
            None => None,
            Some(behind) => take_word(behind),
        }
    }
}

// One polynomial for each residual variable, up to the end of the line.
fn read_multipliers(
    alloc: Global,
    a: Algebra,
    corank: u8,
    order: u8,
    rest: Option<&[u8]>,
) -> Result<Option<Items<Jet<Ext<Frac>>>>, NoMemory>
    ensures some { IfOk result (λ found. IfSome found (λ fs. AreJetsOf a corank order fs × (after_space rest.entry ≡ multipliers_text fs))) }
    ensures none { IfOk result (λ found. found ≡ None → (fs : List (JetTerms (Ext Frac))) → AreJetsOf a corank order fs → after_space rest.entry ≡ multipliers_text fs → ⊥) }
{
    let mut jets = Vec::new(alloc);
    let mut left = rest;
    for i in 0..corank {
        let Some((word, behind)) = take_multiplier(i, left) else {
            return Ok(None);
        };
        let Some(jet) = read_polynomial(alloc, a, corank, order, word)? else {
            return Ok(None);
        };
        jets.push(jet)?;
        left = behind;
    }
    if left.is_some() {
        return Ok(None);
    }
    Ok(Some(Items::from_vec(jets)))
}

/// A monomial as a combination of partials: ` = ` and the multipliers with ` ; ` between them, as `u1^4 = 1/3*u1^2`.
pub fn read_mather_row(
    alloc: Global,
    a: Algebra,
    corank: u8,
    order: u8,
    bytes: &[u8],
) -> Result<Option<MatherRow<Ext<Frac>>>, NoMemory>
    ensures some { IfOk result (λ found. IfSome found (IsTextOf (IsRowOf a corank order) mather_inside bytes.now)) }
    ensures none { IfOk result (λ found. found ≡ None → IsNoText (IsRowOf a corank order) mather_inside bytes.now) }
{
    if corank == 0 {
        return Ok(None);
    }
    let Some((monomial, behind)) = take_monomial(corank, Some(bytes)) else {
        return Ok(None);
    };
    let Some(rest) = take_mark(behind, b"=") else {
        return Ok(None);
    };
    match read_multipliers(alloc, a, corank, order, rest)? {
        None => Ok(None),
        Some(multipliers) => Ok(Some(MatherRow {
            monomial,
            multipliers,
        })),
    }
}

/// A monomial by a basis of this size: its values, and the multipliers behind a colon, as `u1^3 = 0 0 : 1/3*u1`.
///
/// With corank 0 there is no multiplier, and the line ends with ` :`.
pub fn read_table_row(
    alloc: Global,
    a: Algebra,
    corank: u8,
    order: u8,
    size: usize,
    bytes: &[u8],
) -> Result<Option<TableRow<Ext<Frac>>>, NoMemory>
    ensures some { IfOk result (λ found. IfSome found (IsTextOf (IsTableRowOf a corank order size) table_inside bytes.now)) }
    ensures none { IfOk result (λ found. found ≡ None → IsNoText (IsTableRowOf a corank order size) table_inside bytes.now) }
{
    let Some((monomial, behind)) = take_monomial(corank, Some(bytes)) else {
        return Ok(None);
    };
    let Some(front) = take_mark(behind, b"=") else {
        return Ok(None);
    };
    match take_values(alloc, a, size, front) {
        Err(e) => Err(e),
        Ok(None) => Ok(None),
        Ok(Some((values, left))) => {
            let Some(rest) = take_mark(left, b":") else {
                return Ok(None);
            };
            match read_multipliers(alloc, a, corank, order, rest)? {
                None => Ok(None),
                Some(multipliers) => Ok(Some(TableRow {
                    monomial,
                    values: Items::from_vec(values),
                    multipliers,
                })),
            }
        }
    }
}
