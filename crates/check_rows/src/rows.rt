//! The rows of Mather's test.

ghost use Rattle.std.specs.Prelude.{◌≡◌, ℕ, ◌+◌, ◌<◌, ◌≤◌, ◌↔◌, All, IfOk, IsTrue, length, map, sum};
ghost use Rattle.std.specs.List.{AllByRecursion};
ghost use Rattle.ring_law.specs.Refusals.{OnFault};
ghost use Rattle.poly_law.specs.Polynomials.{StartsAtIn};
ghost use Rattle.mono_exp.specs.Exponents.{IsIn};
ghost use Rattle.jet_poly.specs.Jets.{IsJet, polynomial_of};
ghost use Rattle.jacobian_row.specs.Rows.{IsJetIn, polynomial_at};
ghost use Rattle.check_rows.specs.Lists.{AreTermsIn, list_at};
ghost use Rattle.check_rows.specs.Products.{AreProductsHigh};
ghost use Rattle.check_rows.specs.Rows.{IsRowShape, AreRowsAt, IsPrintedRow, IsSomeRowHigh, AreRowsHigh, row_at};

use crate::combine::combination;
use crate::derive::partial_lists;
use crate::jets::{is_same_jet, monomial_jet, starts_at_two};
use crate::monomials::have_same_exponents;
use determinacy::MatherRow;
use jacobian_row::monomials;
use jet_poly::JetOf;
use mono_exp::Exp;
use ring_law::{Fault, Ring};
use sqlite_items::Items;
use std::alloc::{AllocError, Global};

/// True where no jet has a term of degree below 2.
fn all_start_at_two<R: Ring>(ring: &R, n: u8, jets: &[JetOf<R>]) -> bool
    requires ring { R.is_ring ring.now }
    requires jets { All (IsJetIn (R.meaning ring.now) n) jets.now }
    ensures { IsTrue result ↔ (let m = R.meaning ring.now in (i : ℕ) → i < length jets.now → StartsAtIn n m.scalars.ops 2 (polynomial_at n m.value jets.now i)) }
{
    let _ = n;
    for f in jets {
        if !starts_at_two(ring, f) {
            return false;
        }
    }
    true
}

/// True where a row is a row of the test at k, by the partials that are given.
fn is_row<R: Ring>(
    alloc: Global,
    ring: &R,
    n: u8,
    k: u8,
    partials: &[Items<(Exp, R::Elem)>],
    row: &MatherRow<R::Elem>,
) -> Result<bool, Fault>
    requires ring { R.is_ring ring.now }
    requires at_most_8_variables { n ≤ 8 }
    requires order_at_most_16 { k ≤ 16 }
    requires count { length partials.now ≡ n }
    requires terms { All (AreTermsIn (R.meaning ring.now) n) partials.now }
    requires row { IsRowShape (R.meaning ring.now) n row.now }
    requires degree { sum row.now.monomial.e ≤ k + 1 }
    ensures row { IfOk result (λ b. let m = R.meaning ring.now in IsTrue b ↔ IsPrintedRow m n (k + 1) (list_at n m.value partials.now) row.now) }
    ensures range { OnFault result (let m = R.meaning ring.now in AreProductsHigh n m.scalars (k + 1) (polynomial_at n m.value row.now.multipliers) (list_at n m.value partials.now)) }
{
    let multipliers = row.multipliers.as_slice();
    if !all_start_at_two(ring, n, multipliers) {
        return Ok(false);
    }
    let sum = combination(alloc, ring, n, k + 1, multipliers, partials)?;
    let wanted = monomial_jet(alloc, ring, n, k + 1, row.monomial)?;
    Ok(is_same_jet(ring, &sum, &wanted))
}

/// True where each row is a row of the test at k, by the partials that are given.
fn each_is_row<R: Ring>(
    alloc: Global,
    ring: &R,
    n: u8,
    k: u8,
    partials: &[Items<(Exp, R::Elem)>],
    rows: &[MatherRow<R::Elem>],
) -> Result<bool, Fault>
    requires ring { R.is_ring ring.now }
    requires at_most_8_variables { n ≤ 8 }
    requires order_at_most_16 { k ≤ 16 }
    requires count { length partials.now ≡ n }
    requires terms { All (AreTermsIn (R.meaning ring.now) n) partials.now }
    requires rows { All (IsRowShape (R.meaning ring.now) n) rows.now }
    requires degrees { All (λ row. sum row.monomial.e ≤ k + 1) rows.now }
    ensures rows { IfOk result (λ b. let m = R.meaning ring.now in IsTrue b ↔ AllByRecursion (IsPrintedRow m n (k + 1) (list_at n m.value partials.now)) rows.now) }
    ensures range { OnFault result (let m = R.meaning ring.now in IsSomeRowHigh m n (k + 1) (list_at n m.value partials.now) rows.now) }
{
    for row in rows {
        if !is_row(alloc, ring, n, k, partials, row)? {
            return Ok(false);
        }
    }
    Ok(true)
}

/// The monomials of rows.
fn monomials_of<E>(alloc: Global, rows: &[MatherRow<E>]) -> Result<Vec<Exp>, AllocError>
    ensures { IfOk result (λ v. v.items ≡ map (λ row. row.monomial) rows.now) }
{
    rows.iter().map(|row| row.monomial).collect(alloc)
}

/// True where the rows are those of Mather's test at k for the jet g: one for each monomial of degree k + 1, in the monomial order, which is, modulo degree
/// k + 2, the combination of the partials of g with multipliers without terms of degree below 2.
///
/// Errors: `Range` only where a partial of g, or a product of two terms or the sum of the products at a monomial in some row, has height 2^120 or more.
/// Source: J. Mather, Stability of C-infinity mappings III: finitely determined map-germs (1968).
pub fn are_rows<R: Ring>(
    alloc: Global,
    ring: &R,
    g: &JetOf<R>,
    k: u8,
    rows: &[MatherRow<R::Elem>],
) -> Result<bool, Fault>
    requires ring { R.is_ring ring.now }
    requires jet { IsJet (R.meaning ring.now) g.now }
    requires at_most_8_variables { g.now.n ≤ 8 }
    requires order_at_most_16 { k ≤ 16 }
    requires rows { All (IsRowShape (R.meaning ring.now) g.now.n) rows.now }
    ensures rows { IfOk result (λ b. IsTrue b ↔ AreRowsAt (R.meaning ring.now) g.now k rows.now) }
    ensures range { OnFault result (let m = R.meaning ring.now in AreRowsHigh g.now.n m.scalars k (polynomial_of m g.now) (length rows.now)
        (λ i. polynomial_at g.now.n m.value (row_at rows.now i).multipliers)) }
{
    let n = g.n();
    let monomials = monomials(alloc, n, k + 1)?;
    let of_rows = monomials_of(alloc, rows)?;
    if !have_same_exponents(n, &of_rows, &monomials) {
        return Ok(false);
    }
    let partials = partial_lists(alloc, ring, g)?;
    each_is_row(alloc, ring, n, k, &partials, rows)
}
