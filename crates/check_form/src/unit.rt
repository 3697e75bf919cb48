//! Whether printed values are the unit values of a form, each beside its inverse.

ghost use Rattle.std.specs.Prelude.{◌≡◌, ◌≤◌, ◌++◌, ◌↔◌, IsTrue, IfOk, All, map};
ghost use Rattle.std.specs.List.{AllByRecursion};
ghost use Rattle.ring_law.specs.Refusals.{OnFault, OnRange};
ghost use Rattle.jet_law.specs.Heights.{IsHigh};
ghost use Rattle.jet_poly.specs.Jets.{IsJet};
ghost use Rattle.normal_forms.specs.Forms.{IsFormOf};
ghost use Rattle.normal_forms.specs.Coefficients.{unit_values_in, unit_heights_in};
ghost use Rattle.cert_text.specs.WellFormed.{IsWellFormedNamed};
ghost use Rattle.report_law.specs.Items.{IsForm, AreUnits};
ghost use Rattle.check_form.specs.FormHeights.{pair_heights, IsUnitsHigh};

use cert_text::Named;
use ext_algebra::AlgebraRing;
use jet_poly::JetOf;
use normal_forms::{Family, is_form};
use ring_law::{Fault, Range, Ring};
use std::alloc::Global;

// True where the first elements of the pairs are the values, in order.
fn are_values<R: Ring>(ring: &R, pairs: &[(R::Elem, R::Elem)], values: &[R::Elem]) -> bool
    requires ring { R.is_ring ring.now }
    requires pairs { All (λ p. (R.meaning ring.now).is_elem p.0) pairs.now }
    requires values { All (R.meaning ring.now).is_elem values.now }
    ensures { IsTrue result ↔ (let m = R.meaning ring.now in map (λ p. m.value p.0) pairs.now ≡ map m.value values.now) }
{
    if pairs.len() != values.len() {
        return false;
    }
    for i in 0..pairs.len() {
        if !ring.eq(pairs[i].0, values[i]) {
            return false;
        }
    }
    true
}

// True where the product of each pair is 1.
fn are_inverses<R: Ring>(ring: &R, pairs: &[(R::Elem, R::Elem)]) -> Result<bool, Range>
    requires ring { R.is_ring ring.now }
    requires firsts { All (λ p. (R.meaning ring.now).is_elem p.0) pairs.now }
    requires seconds { All (λ p. (R.meaning ring.now).is_elem p.1) pairs.now }
    ensures inverses { IfOk result (λ b. let m = R.meaning ring.now in
        IsTrue b ↔ AllByRecursion (λ p. m.scalars.ops.mul (m.value p.0) (m.value p.1) ≡ m.scalars.ops.one) pairs.now) }
    ensures range { OnRange result (let m = R.meaning ring.now in IsHigh (pair_heights m.scalars m.value pairs.now)) }
{
    for i in 0..pairs.len() {
        let pair = pairs[i];
        let product = ring.mul(pair.0, pair.1)?;
        if !ring.eq(product, ring.one()) {
            return Ok(false);
        }
    }
    Ok(true)
}

// True where the first elements of the pairs are the unit values of the form, and each pair's
// product is 1.
pub(crate) fn are_units_of<R: Ring>(
    alloc: Global,
    ring: &R,
    family: Family,
    corank: u8,
    f: &JetOf<R>,
    pairs: &[(R::Elem, R::Elem)],
) -> Result<bool, Fault>
    requires ring { R.is_ring ring.now }
    requires jet { IsJet (R.meaning ring.now) f.now }
    requires at_most_8_variables { f.now.n ≤ 8 }
    requires order_at_most_17 { f.now.order ≤ 17 }
    requires form { IsFormOf family f.now.n corank f.now.terms }
    requires firsts { All (λ p. (R.meaning ring.now).is_elem p.0) pairs.now }
    requires seconds { All (λ p. (R.meaning ring.now).is_elem p.1) pairs.now }
    ensures units { IfOk result (λ b. let m = R.meaning ring.now in
        IsTrue b ↔ ((map (λ p. m.value p.0) pairs.now ≡ unit_values_in m family f.now.n corank f.now.terms)
        × AllByRecursion (λ p. m.scalars.ops.mul (m.value p.0) (m.value p.1) ≡ m.scalars.ops.one) pairs.now)) }
    ensures range { OnFault result (let m = R.meaning ring.now in
        IsHigh (unit_heights_in m family corank f.now.terms ++ pair_heights m.scalars m.value pairs.now)) }
{
    let Some(values) = is_form(alloc, ring, family, corank, f)? else {
        return Ok(false);
    };
    if !are_values(ring, pairs, values.as_slice()) {
        return Ok(false);
    }
    let inverse = are_inverses(ring, pairs)?;
    Ok(inverse)
}

/// True where the units of a named report are the unit values of its form, in order, and then the
/// coefficients of the squares, and the product of each with its inverse is 1. The form is one of
/// the family.
///
/// Errors: `Range` only where a number that the unit values or these products form has height 2^120
/// or more.
pub fn are_units(alloc: Global, r: &Named) -> Result<bool, Fault>
    requires well_formed { IsWellFormedNamed r.now }
    requires form { IsForm r.now.family r.now.carried }
    ensures units { IfOk result (λ b. IsTrue b ↔ AreUnits r.now) }
    ensures range { OnFault result (IsUnitsHigh r.now) }
{
    let ring = AlgebraRing {
        algebra: r.carried.algebra,
    };
    let units = r.units.as_slice();
    are_units_of(
        alloc,
        &ring,
        r.family,
        r.carried.corank,
        &r.carried.jet,
        units,
    )
}
