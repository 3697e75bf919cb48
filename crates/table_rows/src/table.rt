//! The rows of a table.

ghost use Rattle.std.specs.Prelude.{◌≡◌, ◌≤◌, ◌↔◌, All, IfOk, IsTrue, length};
ghost use Rattle.std.specs.List.{AllByRecursion};
ghost use Rattle.ring_law.specs.Refusals.{OnFault};
ghost use Rattle.mono_exp.specs.Exponents.{IsIn};
ghost use Rattle.check_rows.specs.Lists.{AreTermsIn, list_at};
ghost use Rattle.table_rows.specs.Tables.{IsTableShape, IsTableRow, IsTableRowHigh, AreTableRowsHigh};

use crate::difference::difference_jet;
use check_rows::{combination, is_same_jet};
use milnor_alg::TableRow;
use mono_exp::Exp;
use ring_law::{Fault, Ring};
use sqlite_items::Items;
use std::alloc::Global;

/// True where the monomial of a row less the combination of the basis with its values is the combination of the partials with its multipliers, up to degree k.
fn is_table_row<R: Ring>(
    alloc: Global,
    ring: &R,
    n: u8,
    k: u8,
    basis: &[Exp],
    partials: &[Items<(Exp, R::Elem)>],
    row: &TableRow<R::Elem>,
) -> Result<bool, Fault>
    requires ring { R.is_ring ring.now }
    requires at_most_8_variables { n ≤ 8 }
    requires order_at_most_17 { k ≤ 17 }
    requires count { length partials.now ≡ n }
    requires terms { All (AreTermsIn (R.meaning ring.now) n) partials.now }
    requires basis { All (λ b. IsIn n b.e) basis.now }
    requires row { IsTableShape (R.meaning ring.now) n (length basis.now) row.now }
    ensures row { IfOk result (λ b. let m = R.meaning ring.now in IsTrue b ↔ IsTableRow m n k basis.now (list_at n m.value partials.now) row.now) }
    ensures range { OnFault result (let m = R.meaning ring.now in IsTableRowHigh m n k basis.now (list_at n m.value partials.now) row.now) }
{
    let multipliers = row.multipliers.as_slice();
    let left = difference_jet(alloc, ring, n, k, basis, row)?;
    let right = combination(alloc, ring, n, k, multipliers, partials)?;
    Ok(is_same_jet(ring, &left, &right))
}

/// True where in each row of a table the monomial less the combination of the basis with the row's values is the sum of the row's multipliers times the partials,
/// up to degree k. The partials are given by lists of their terms.
///
/// Errors: `Range` only where in some row the sum of the coefficients of the difference at a monomial, a product of a term of a multiplier and one of its partial of
/// degree at most k, or the sum of these products at a monomial, has height 2^120 or more.
pub fn are_table_rows<R: Ring>(
    alloc: Global,
    ring: &R,
    n: u8,
    k: u8,
    basis: &[Exp],
    partials: &[Items<(Exp, R::Elem)>],
    table: &[TableRow<R::Elem>],
) -> Result<bool, Fault>
    requires ring { R.is_ring ring.now }
    requires at_most_8_variables { n ≤ 8 }
    requires order_at_most_17 { k ≤ 17 }
    requires count { length partials.now ≡ n }
    requires terms { All (AreTermsIn (R.meaning ring.now) n) partials.now }
    requires basis { All (λ b. IsIn n b.e) basis.now }
    requires rows { All (IsTableShape (R.meaning ring.now) n (length basis.now)) table.now }
    ensures rows { IfOk result (λ b. let m = R.meaning ring.now in IsTrue b ↔ AllByRecursion (IsTableRow m n k basis.now (list_at n m.value partials.now)) table.now) }
    ensures range { OnFault result (let m = R.meaning ring.now in AreTableRowsHigh m n k basis.now (list_at n m.value partials.now) table.now) }
{
    for row in table {
        if !is_table_row(alloc, ring, n, k, basis, partials, row)? {
            return Ok(false);
        }
    }
    Ok(true)
}
