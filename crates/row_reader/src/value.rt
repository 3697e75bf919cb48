//! Lines of elements and monomials.

ghost use Rattle.std.specs.Prelude.{◌≡◌, ℕ, ◌++◌, List, ◌↔◌, None, IfOk, IfSome, IsSomeAnd, length};
ghost use Rattle.ring_law.specs.declared.fraction.Frac.{Frac};
ghost use Rattle.ext_algebra.specs.declared.algebra.Ext.{Ext};
ghost use Rattle.mono_exp.specs.declared.exponent.Exp.{Exp};
ghost use Rattle.cert_text.specs.Text.{spaced, unit_inside, values_text, monomials_text, basis_inside, functional_inside};
ghost use Rattle.cert_text.specs.WellFormed.{is_zero_element};
ghost use Rattle.text_reader.specs.Reading.{IsTextOf, IsNoText};
ghost use Rattle.row_reader.specs.Values.{IsUnitPair, AreElements, AreResidual, IsFunctionalValue};
ghost use Rattle.row_reader.specs.Words.{after_space, IsRest};

use crate::word::{take_mark, take_monomial, take_value};
use ext_algebra::{Algebra, Ext};
use mono_exp::Exp;
use ring_law::{Frac, NoMemory};
use sqlite_items::Items;
use std::alloc::Global;
use text_reader::is_zero;

/// A value and its inverse, with a space between them.
pub fn read_unit(a: Algebra, bytes: &[u8]) -> Option<(Ext<Frac>, Ext<Frac>)>
    ensures some { IfSome result (IsTextOf (IsUnitPair a) unit_inside bytes.now) }
    ensures none { result ≡ None → IsNoText (IsUnitPair a) unit_inside bytes.now }
{
    match take_value(a, Some(bytes)) {
        None => None,
        Some((value, behind)) => match take_value(a, behind) {
            None => None,
            Some((inverse, rest)) => {
                if rest.is_some() {
                    None
                } else {
                    Some((value, inverse))
                }
            }
        },
    }
}

/// So many elements, each behind a space, and what is left behind them.
pub(crate) fn take_values(
    alloc: Global,
    a: Algebra,
    count: usize,
    rest: Option<&[u8]>,
) -> Result<Option<(Vec<Ext<Frac>>, Option<&[u8]>)>, NoMemory>
    ensures some { IfOk result (λ found. IfSome found (λ r. AreElements a count r.0.items × (after_space rest.entry ≡ values_text r.0.items ++ after_space r.1))) }
    ensures found { IfOk result (λ found. (es : List (Ext Frac)) (y : List ℕ) → AreElements a count es → IsRest y → after_space rest.entry ≡ values_text es ++ y
        → IsSomeAnd found (λ r. (r.0.items ≡ es) × (after_space r.1 ≡ y))) }
{
    let mut values = Vec::new(alloc);
    let mut left = rest;
    for i in 0..count {
        let _ = i;
        let Some((value, behind)) = take_value(a, left) else {
            return Ok(None);
        };
        values.push(value)?;
        left = behind;
    }
    Ok(Some((values, left)))
}

// The words of a line of so many: none where it is empty and should be.
fn words_of(count: usize, bytes: &[u8]) -> Option<&[u8]>
    ensures { (es : List (Ext Frac)) → length es ≡ count → (spaced es ≡ bytes.now) ↔ (after_space result ≡ values_text es) }
{
    if count == 0 {
        if bytes.is_empty() { None } else { Some(bytes) }
    } else {
        Some(bytes)
    }
}

/// So many elements, with a space between each two.
pub fn read_elements(
    alloc: Global,
    a: Algebra,
    count: usize,
    bytes: &[u8],
) -> Result<Option<Items<Ext<Frac>>>, NoMemory>
    ensures some { IfOk result (λ found. IfSome found (IsTextOf (AreElements a count) spaced bytes.now)) }
    ensures none { IfOk result (λ found. found ≡ None → IsNoText (AreElements a count) spaced bytes.now) }
{
    match take_values(alloc, a, count, words_of(count, bytes)) {
        Err(e) => Err(e),
        Ok(None) => Ok(None),
        Ok(Some((values, left))) => {
            if left.is_some() {
                Ok(None)
            } else {
                Ok(Some(Items::from_vec(values)))
            }
        }
    }
}

// The monomials up to the end of the line, each behind a space.
fn read_monomials(
    alloc: Global,
    corank: u8,
    rest: Option<&[u8]>,
) -> Result<Option<Items<Exp>>, NoMemory>
    ensures some { IfOk result (λ found. IfSome found (λ ms. AreResidual corank ms × (after_space rest.entry ≡ monomials_text ms))) }
    ensures none { IfOk result (λ found. found ≡ None → (ms : List Exp) → AreResidual corank ms → after_space rest.entry ≡ monomials_text ms → ⊥) }
{
    let mut monomials = Vec::new(alloc);
    let mut left = rest;
    while left.is_some() {
        let Some((m, behind)) = take_monomial(corank, left) else {
            return Ok(None);
        };
        monomials.push(m)?;
        left = behind;
    }
    Ok(Some(Items::from_vec(monomials)))
}

/// The line of the basis: `basis`, and the monomials each after a space, as `basis 1 u1`.
///
/// The monomials are in the first `corank` variables, of degree at most 17; any number of them is read, none too.
pub fn read_basis(alloc: Global, corank: u8, bytes: &[u8]) -> Result<Option<Items<Exp>>, NoMemory>
    ensures some { IfOk result (λ found. IfSome found (IsTextOf (AreResidual corank) basis_inside bytes.now)) }
    ensures none { IfOk result (λ found. found ≡ None → IsNoText (AreResidual corank) basis_inside bytes.now) }
{
    match take_mark(Some(bytes), b"basis") {
        None => Ok(None),
        Some(rest) => read_monomials(alloc, corank, rest),
    }
}

/// A monomial in the first `corank` variables, of degree at most 17, and the value of a functional there, which is not 0.
pub fn read_functional_value(a: Algebra, corank: u8, bytes: &[u8]) -> Option<(Exp, Ext<Frac>)>
    ensures some { IfSome result (IsTextOf (IsFunctionalValue a corank) functional_inside bytes.now) }
    ensures none { result ≡ None → IsNoText (IsFunctionalValue a corank) functional_inside bytes.now }
{
    match take_monomial(corank, Some(bytes)) {
        None => None,
        Some((m, behind)) => match take_value(a, behind) {
            None => None,
            Some((value, rest)) => {
                if rest.is_some() {
                    None
                } else if is_zero(value) {
                    None
                } else {
                    Some((m, value))
                }
            }
        },
    }
}
