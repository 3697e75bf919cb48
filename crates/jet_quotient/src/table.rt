//! The rows of the table, from what is left of each monomial.

ghost use Rattle.std.specs.Prelude.{◌≡◌, ◌≤◌, length, map, sum, All, IfOk};
ghost use Rattle.std.specs.List.{AllByRecursion};
ghost use Rattle.ring_law.specs.Refusals.{OnFault};
ghost use Rattle.mono_exp.specs.Exponents.{IsIn};
ghost use Rattle.lin_row.specs.Lines.{IsLine, EachOf, entry};
ghost use Rattle.jacobian_row.specs.Multiples.{AreMultiples};
ghost use Rattle.jet_quotient.specs.Answers.{number_of, IsReadable, IsRowBy, AreRowsBy};

use jacobian_row::{Multiple, multipliers};
use lin_row::Remainder;
use milnor_alg::TableRow;
use mono_exp::{Exp, rank};
use ring_law::{Fault, Ring};
use sqlite_items::Items;
use std::alloc::Global;

/// The entry of a row in a column.
fn entry_at<R: Ring>(ring: &R, row: &[(u32, R::Elem)], column: u32) -> R::Elem
    requires ring { R.is_ring ring.now }
    requires line { IsLine (R.meaning ring.now) row.now }
    ensures elem { (R.meaning ring.now).is_elem result }
    ensures value { (R.meaning ring.now).value result ≡ entry (R.meaning ring.now) row.now column }
{
    for t in row {
        if t.0 == column {
            return t.1;
        }
    }
    ring.zero()
}

/// The entries of a row in the columns of the basis.
fn values_of<R: Ring>(
    alloc: Global,
    ring: &R,
    n: u8,
    basis: &[Exp],
    left: &[(u32, R::Elem)],
) -> Result<Items<R::Elem>, Fault>
    requires ring { R.is_ring ring.now }
    requires at_most_8_variables { n ≤ 8 }
    requires unused { All (λ a. IsIn n a.e) basis.now }
    requires degrees { All (λ a. sum a.e ≤ 17) basis.now }
    requires line { IsLine (R.meaning ring.now) left.now }
    ensures values { IfOk result (λ v. map (R.meaning ring.now).value v ≡ map (λ b. entry (R.meaning ring.now) left.now (number_of n b)) basis.now) }
    ensures elems { IfOk result (λ v. AllByRecursion (R.meaning ring.now).is_elem v) }
    ensures memory { OnFault result ⊥ }
{
    let mut values = Vec::new(alloc);
    for b in basis {
        let value = entry_at(ring, left, rank(n, *b));
        values.push(value)?;
    }
    Ok(Items::from_vec(values))
}

/// The row of a monomial, from what is left of it.
fn row_of<R: Ring>(
    alloc: Global,
    ring: &R,
    n: u8,
    k: u8,
    multiples: &[Multiple],
    basis: &[Exp],
    monomial: Exp,
    rest: &Remainder<R::Elem>,
) -> Result<TableRow<R::Elem>, Fault>
    requires ring { R.is_ring ring.now }
    requires at_most_8_variables { n ≤ 8 }
    requires multiples { AreMultiples n 0 k multiples.now }
    requires unused { All (λ a. IsIn n a.e) basis.now }
    requires degrees { All (λ a. sum a.e ≤ 17) basis.now }
    requires rest { IsReadable (R.meaning ring.now) (length multiples.now) rest.now }
    ensures row { IfOk result (IsRowBy (R.meaning ring.now) n k multiples.now basis.now monomial rest.now) }
    ensures memory { OnFault result ⊥ }
{
    let values = values_of(alloc, ring, n, basis, rest.left.as_slice())?;
    let multipliers = multipliers(alloc, n, k, multiples, rest.coefficients.as_slice())?;
    Ok(TableRow {
        monomial,
        values,
        multipliers,
    })
}

/// The rows of all monomials.
pub fn table_of<R: Ring>(
    alloc: Global,
    ring: &R,
    n: u8,
    k: u8,
    multiples: &[Multiple],
    basis: &[Exp],
    monomials: &[Exp],
    rests: &[Remainder<R::Elem>],
) -> Result<Items<TableRow<R::Elem>>, Fault>
    requires ring { R.is_ring ring.now }
    requires at_most_8_variables { n ≤ 8 }
    requires multiples { AreMultiples n 0 k multiples.now }
    requires unused { All (λ a. IsIn n a.e) basis.now }
    requires degrees { All (λ a. sum a.e ≤ 17) basis.now }
    requires one_each { length rests.now ≡ length monomials.now }
    requires rests { EachOf (IsReadable (R.meaning ring.now) (length multiples.now)) rests.now }
    ensures count { IfOk result (λ v. length v ≡ length monomials.now) }
    ensures rows { IfOk result (AreRowsBy (R.meaning ring.now) n k multiples.now basis.now monomials.now rests.now) }
    ensures memory { OnFault result ⊥ }
{
    let mut rows = Vec::new(alloc);
    for i in 0..rests.len() {
        let row = row_of(alloc, ring, n, k, multiples, basis, monomials[i], &rests[i])?;
        rows.push(row)?;
    }
    Ok(Items::from_vec(rows))
}
