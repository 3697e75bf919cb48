//! The truncated Milnor algebra of a jet.

ghost use Rattle.std.specs.Prelude.{◌≤◌, IfOk};
ghost use Rattle.ring_law.specs.Refusals.{OnFault};
ghost use Rattle.jet_poly.specs.Jets.{IsJet, polynomial_of};
ghost use Rattle.jet_quotient.specs.Quotients.{IsQuotientOf, IsQuotientHigh};

use crate::basis::basis_of;
use crate::table::table_of;
use jacobian_row::{monomial_rows, monomials_to, multiple_rows, multiples, partials};
use jet_poly::JetOf;
use lin_row::reduce_all;
use milnor_alg::JetQuotient;
use ring_law::{Fault, Field};
use sqlite_items::Items;
use std::alloc::Global;

/// The k-jets modulo the Jacobian ideal of g: a basis of monomials of degree at most k, and one row for each monomial of degree at most k, both in the
/// monomial order; a row has the values of its monomial on the basis, and the multipliers of the partials which, modulo degree k + 1, make the difference.
///
/// Errors: `Range` only where the height of the partials, or of the plain row reduction of their multiples with the reduction of the monomials, is 2^120
/// or more.
/// Source: V. I. Arnold, S. M. Gusein-Zade, A. N. Varchenko, Singularities of Differentiable Maps, volume 1.
pub fn quotient<F: Field>(
    alloc: Global,
    field: &F,
    g: &JetOf<F>,
    k: u8,
) -> Result<JetQuotient<F::Elem>, Fault>
    requires ring { F.is_ring field.now }
    requires jet { IsJet (F.meaning field.now) g.now }
    requires at_most_8_variables { g.now.n ≤ 8 }
    requires order_at_most_16 { k ≤ 16 }
    ensures quotient { IfOk result (IsQuotientOf (F.meaning field.now) g.now k) }
    ensures range { OnFault result (let m = F.meaning field.now in IsQuotientHigh g.now.n m.scalars k (polynomial_of m g.now)) }
{
    let n = g.n();
    let partials = partials(alloc, field, g)?;
    let multiples = multiples(alloc, n, 0, k)?;
    let rows = multiple_rows(alloc, field, n, k, &multiples, &partials)?;
    let monomials = monomials_to(alloc, n, k)?;
    let targets = monomial_rows(alloc, field, n, k, &monomials)?;
    let reduction = reduce_all(alloc, field, &rows, &targets)?;
    let basis = basis_of(alloc, n, &monomials, reduction.form.as_slice())?;
    let table = table_of(
        alloc,
        field,
        n,
        k,
        &multiples,
        &basis,
        &monomials,
        reduction.remainders.as_slice(),
    )?;
    Ok(JetQuotient {
        basis: Items::from_vec(basis),
        table,
    })
}
