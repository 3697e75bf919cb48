//! The item Milnor of a report.

ghost use Rattle.std.specs.Prelude.{◌≡◌, ◌↔◌, ◌⊎◌, IfOk, IsTrue, length, map};
ghost use Rattle.ring_law.specs.Refusals.{OnFault};
ghost use Rattle.ext_algebra.specs.Algebra.{algebra_meaning, value_in};
ghost use Rattle.jacobian_row.specs.Multiples.{AreMultiples};
ghost use Rattle.cert_text.specs.WellFormed.{IsWellFormedNamed};
ghost use Rattle.report_law.specs.Items.{residual_of, IsMilnorTable};
ghost use Rattle.check_rows.specs.Lists.{ArePartialLists};
ghost use Rattle.check_milnor.specs.Milnor.{IsTableOf, IsNumberHigh, IsMilnorHigh};

use crate::monomials::has_all_monomials;
use cert_text::Named;
use check_quotient::{are_in_kernel, are_low, are_unit_rows};
use check_rows::partial_lists;
use ext_algebra::{AlgebraRing, Ext};
use jacobian_row::{Multiple, multiples};
use mono_exp::Exp;
use report_jet::residual_jet;
use ring_law::{Fault, Frac};
use sqlite_items::Items;
use std::alloc::Global;
use table_rows::are_table_rows;

// True where the basis and the table meet what is asked of them, for the lists of the partials and the
// multiples of degree up to the order.
fn is_table(
    alloc: Global,
    r: &Named,
    partials: &[Items<(Exp, Ext<Frac>)>],
    multiples: &[Multiple],
) -> Result<bool, Fault>
    requires well_formed { IsWellFormedNamed r.now }
    requires partials { ArePartialLists (algebra_meaning r.now.carried.algebra) r.now.carried.corank (residual_of r.now.carried) partials.now }
    requires multiples { AreMultiples r.now.carried.corank 0 r.now.carried.order multiples.now }
    ensures table { IfOk result (λ b. IsTrue b ↔ IsTableOf (algebra_meaning r.now.carried.algebra) r.now.carried.corank r.now.carried.order r.now.quotient.basis partials.now multiples.now r.now.quotient.table) }
    ensures range { OnFault result (IsNumberHigh (algebra_meaning r.now.carried.algebra) r.now.carried.corank r.now.carried.order r.now.quotient.basis partials.now multiples.now r.now.quotient.table) }
{
    let c = &r.carried;
    let ring = AlgebraRing { algebra: c.algebra };
    let basis = r.quotient.basis.as_slice();
    let table = r.quotient.table.as_slice();
    if !are_low(c.order, basis) {
        return Ok(false);
    }
    if !are_unit_rows(&ring, c.corank, table, basis) {
        return Ok(false);
    }
    if !are_in_kernel(
        alloc,
        &ring,
        c.corank,
        c.order,
        table,
        basis.len(),
        partials,
        multiples,
    )? {
        return Ok(false);
    }
    are_table_rows(alloc, &ring, c.corank, c.order, basis, partials, table)
}

/// True where the basis and the table of a named report show that the jets of the order modulo the
/// partials of the form's residual part are free with the basis, and the Milnor number is its size:
/// one row for each monomial up to the order, in the monomial order; the monomials of the basis have
/// unit rows; the linear map of the table takes the multiples of the partials to 0; each monomial less
/// the combination of the basis with its values is the combination of the partials with its
/// multipliers.
///
/// Errors: `Range` only where a partial, a value of the table at a multiple, or a number of a row has
/// height 2^120 or more.
pub fn is_milnor_table(alloc: Global, r: &Named) -> Result<bool, Fault>
    requires well_formed { IsWellFormedNamed r.now }
    ensures milnor { IfOk result (λ b. IsTrue b ↔ IsMilnorTable r.now) }
    ensures range { OnFault result (IsMilnorHigh r.now) }
{
    if r.milnor as usize != r.quotient.basis.len() {
        return Ok(false);
    }
    if !has_all_monomials(alloc, r)? {
        return Ok(false);
    }
    let ring = AlgebraRing {
        algebra: r.carried.algebra,
    };
    let g = match residual_jet(alloc, &r.carried) {
        Ok(g) => g,
        Err(_) => return Err(Fault::NoMemory),
    };
    let partials = partial_lists(alloc, &ring, &g)?;
    let multiples = multiples(alloc, r.carried.corank, 0, r.carried.order)?;
    is_table(alloc, r, &partials, &multiples)
}
