//! The items Mather and Functional of a report.

ghost use Rattle.std.specs.Prelude.{◌≡◌, ◌+◌, ◌≤◌, ◌↔◌, IfOk, IsTrue, length, nat_le, sum};
ghost use Rattle.std.specs.List.{list_all};
ghost use Rattle.ring_law.specs.Refusals.{OnFault};
ghost use Rattle.normal_forms.specs.Monomials.{is_split as is_split_of, monomials_in};
ghost use Rattle.cert_text.specs.WellFormed.{AreRows, IsWellFormedCarried, IsWellFormedLimit, IsWellFormedUnresolved};
ghost use Rattle.report_law.specs.Items.{AreMatherRows, IsDetermined, IsLimitFunctional};
ghost use Rattle.check_rows.specs.ItemHeights.{IsMatherHigh, IsFunctionalHigh};

use crate::functional::is_failure;
use crate::rows::are_rows;
use cert_text::{Carried, Limit, Unresolved};
use determinacy::MatherRow;
use ext_algebra::{AlgebraRing, Ext};
use mono_exp::{Exp, degree};
use normal_forms::is_split;
use report_jet::residual_jet;
use ring_law::{Fault, Frac};
use std::alloc::Global;

/// True where the rows are those of Mather's test for the residual part of a jet at its order: one for each monomial of degree k + 1 in the residual
/// variables, in the monomial order, k the order, and each is, modulo degree k + 2, the combination of the partials with its multipliers, which have no terms of
/// degree below 2.
///
/// Errors: `Range` only where a partial of the residual part, or a product or a sum of some row, has height 2^120 or more.
/// Source: J. Mather, Stability of C-infinity mappings III: finitely determined map-germs (1968).
pub fn are_mather_rows(
    alloc: Global,
    c: &Carried,
    rows: &[MatherRow<Ext<Frac>>],
) -> Result<bool, Fault>
    requires well_formed { IsWellFormedCarried c.now }
    requires rows { AreRows c.now rows.now }
    ensures rows { IfOk result (λ b. IsTrue b ↔ AreMatherRows c.now rows.now) }
    ensures range { OnFault result (IsMatherHigh c.now rows.now) }
{
    let ring = AlgebraRing { algebra: c.algebra };
    match residual_jet(alloc, c) {
        Ok(g) => are_rows(alloc, &ring, &g, c.order, rows),
        Err(_) => Err(Fault::NoMemory),
    }
}

/// True where the jet of a report is split with its corank.
fn is_split_jet(c: &Carried) -> bool
    requires well_formed { IsWellFormedCarried c.now }
    ensures { result ≡ is_split_of (length c.now.names) c.now.corank c.now.jet.terms }
{
    is_split(c.names.len() as u8, c.corank, c.jet.terms())
}

/// True where the monomials of a functional have degree at most `order` + 1.
fn is_low(order: u8, values: &[(Exp, Ext<Frac>)]) -> bool
    requires order_at_most_16 { order ≤ 16 }
    ensures { result ≡ list_all (λ m. nat_le (sum m.e) (order + 1)) (monomials_in values.now) }
{
    for t in values {
        if degree(t.0) > u16::from(order) + 1 {
            return false;
        }
    }
    true
}

/// True where the jet of an unresolved report is split with its corank, and the printed rows are those of Mather's test for its residual part at the order.
///
/// Errors: `Range` only where a partial of the residual part, or a product or a sum of some row, has height 2^120 or more.
pub fn is_determined(alloc: Global, r: &Unresolved) -> Result<bool, Fault>
    requires well_formed { IsWellFormedUnresolved r.now }
    ensures determined { IfOk result (λ b. IsTrue b ↔ IsDetermined r.now) }
    ensures range { OnFault result (IsMatherHigh r.now.carried r.now.mather) }
{
    if !is_split_jet(&r.carried) {
        return Ok(false);
    }
    are_mather_rows(alloc, &r.carried, r.mather.as_slice())
}

/// True where the jet of a limit report is split with its corank, and the printed functional, on monomials of degree at most k + 1, is 0 on each multiple of a
/// partial of the residual part by a monomial of degree at least 2, cut at k + 1, and 1 on the named monomial, of degree k + 1, k the order.
///
/// Errors: `Range` only where a partial of the residual part, or a product or the sum of the products in one of these values, has height 2^120 or more.
pub fn is_limit_functional(alloc: Global, r: &Limit) -> Result<bool, Fault>
    requires well_formed { IsWellFormedLimit r.now }
    ensures functional { IfOk result (λ b. IsTrue b ↔ IsLimitFunctional r.now) }
    ensures range { OnFault result (IsFunctionalHigh r.now) }
{
    let c = &r.carried;
    if !is_split_jet(c) {
        return Ok(false);
    }
    let values = r.functional.as_slice();
    if !is_low(c.order, values) {
        return Ok(false);
    }
    let ring = AlgebraRing { algebra: c.algebra };
    match residual_jet(alloc, c) {
        Ok(g) => is_failure(alloc, &ring, &g, c.order, values, r.at),
        Err(_) => Err(Fault::NoMemory),
    }
}
