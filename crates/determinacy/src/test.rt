//! Mather's test: rows for all monomials of degree k + 1, or a functional that excludes one.

ghost use Rattle.std.specs.Prelude.{◌≡◌, ◌≤◌, length, IfOk};
ghost use Rattle.ring_law.specs.Refusals.{OnFault};
ghost use Rattle.poly_law.specs.Polynomials.{StartsAtIn};
ghost use Rattle.mono_exp.specs.Exponents.{monomials_below};
ghost use Rattle.jet_poly.specs.Jets.{IsJet, polynomial_of};
ghost use Rattle.lin_row.specs.Lines.{AllBelow, EachOf};
ghost use Rattle.jacobian_row.specs.Multiples.{AreMultiples};
ghost use Rattle.determinacy.specs.Tests.{IsAnswer, IsTestHigh};
ghost use Rattle.determinacy.specs.Answers.{AreNonzero, IsRowFrom, IsUsable, AreByMonomials, IsFailureFrom, IsAnswerBy};

use crate::row::{MatherRow, MatherTest};
use jacobian_row::{
    Multiple, monomial_rows, monomials, multiple_rows, multiples, multipliers, partials,
};
use jet_poly::JetOf;
use lin_row::{Solution, solve_all};
use mono_exp::{Exp, unrank};
use ring_law::{Fault, Field, Ring};
use sqlite_items::Items;
use std::alloc::Global;

/// The coefficients that are not zero, by their numbers.
fn nonzero_coefficients<R: Ring>(
    alloc: Global,
    ring: &R,
    coefficients: &[R::Elem],
) -> Result<Vec<(u32, R::Elem)>, Fault>
    requires ring { R.is_ring ring.now }
    requires elems { EachOf (R.meaning ring.now).is_elem coefficients.now }
    ensures nonzero { IfOk result (λ v. AreNonzero (R.meaning ring.now) coefficients.now v.items) }
    ensures memory { OnFault result ⊥ }
{
    if coefficients.len() as u64 >= 4_294_967_296 {
        return Err(Fault::NoMemory);
    }
    let mut all = Vec::new(alloc);
    for j in 0..coefficients.len() {
        let x = coefficients[j];
        if ring.eq(x, ring.zero()) {
            continue;
        }
        all.push((j as u32, x))?;
    }
    Ok(all)
}

/// The row of a monomial, from the coefficients of the multiples.
fn row_of<R: Ring>(
    alloc: Global,
    ring: &R,
    n: u8,
    k: u8,
    multiples: &[Multiple],
    monomial: Exp,
    coefficients: &[R::Elem],
) -> Result<MatherRow<R::Elem>, Fault>
    requires ring { R.is_ring ring.now }
    requires at_most_8_variables { n ≤ 8 }
    requires multiples { AreMultiples n 2 k multiples.now }
    requires count { length coefficients.now ≡ length multiples.now }
    requires elems { EachOf (R.meaning ring.now).is_elem coefficients.now }
    ensures row { IfOk result (IsRowFrom (R.meaning ring.now) n k multiples.now monomial coefficients.now) }
    ensures memory { OnFault result ⊥ }
{
    let nonzero = nonzero_coefficients(alloc, ring, coefficients)?;
    let multipliers = multipliers(alloc, n, k, multiples, &nonzero)?;
    Ok(MatherRow {
        monomial,
        multipliers,
    })
}

/// The values of a functional by monomials, from those by their numbers.
fn by_monomials<E: Copy>(alloc: Global, n: u8, values: &[(u32, E)]) -> Result<Vec<(Exp, E)>, Fault>
    requires at_most_8_variables { n ≤ 8 }
    requires within { AllBelow (length (monomials_below n 18)) values.now }
    ensures functional { IfOk result (λ v. AreByMonomials n values.now v.items) }
    ensures memory { OnFault result ⊥ }
{
    let mut all = Vec::new(alloc);
    for t in values {
        let a = unrank(n, t.0);
        all.push((a, t.1))?;
    }
    Ok(all)
}

/// The failure of the test at a monomial, by values that exclude it.
fn failure_of<E: Copy>(
    alloc: Global,
    n: u8,
    monomial: Exp,
    values: &[(u32, E)],
) -> Result<MatherTest<E>, Fault>
    requires at_most_8_variables { n ≤ 8 }
    requires within { AllBelow (length (monomials_below n 18)) values.now }
    ensures failure { IfOk result (IsFailureFrom n monomial values.now) }
    ensures memory { OnFault result ⊥ }
{
    let functional = by_monomials(alloc, n, values)?;
    Ok(MatherTest::Fails {
        functional: Items::from_vec(functional),
        at: monomial,
    })
}

/// The answer of the test, from what solves or excludes each monomial of degree k + 1.
fn answer<R: Ring>(
    alloc: Global,
    ring: &R,
    n: u8,
    k: u8,
    multiples: &[Multiple],
    monomials: &[Exp],
    solutions: &[Solution<R::Elem>],
) -> Result<MatherTest<R::Elem>, Fault>
    requires ring { R.is_ring ring.now }
    requires at_most_8_variables { n ≤ 8 }
    requires multiples { AreMultiples n 2 k multiples.now }
    requires one_each { length solutions.now ≡ length monomials.now }
    requires solutions { EachOf (IsUsable (R.meaning ring.now) (length multiples.now) (length (monomials_below n 18))) solutions.now }
    ensures answer { IfOk result (IsAnswerBy (R.meaning ring.now) n k multiples.now monomials.now solutions.now) }
    ensures memory { OnFault result ⊥ }
{
    let mut rows = Vec::new(alloc);
    for i in 0..solutions.len() {
        let monomial = monomials[i];
        match &solutions[i] {
            Solution::Solved(coefficients) => {
                let row = row_of(alloc, ring, n, k, multiples, monomial, coefficients)?;
                rows.push(row)?;
            }
            Solution::Excluded(values) => return failure_of(alloc, n, monomial, values),
        }
    }
    Ok(MatherTest::Holds(Items::from_vec(rows)))
}

/// Mather's test at k of a k-jet g without terms of degree below 2: `Holds` with one row for each monomial of degree k + 1, in the monomial order, which
/// is, modulo degree k + 2, a combination of the partials with multipliers of order k without terms of degree below 2; or `Fails` with a functional that is 0
/// on each multiple of a partial by a monomial of degree at least 2, cut at k + 1, and 1 on a monomial of degree k + 1.
///
/// Errors: `Range` only where the height of the partials, or of the plain row reduction of their multiples and the monomials of degree k + 1, is 2^120 or more.
/// Source: J. Mather, Stability of C-infinity mappings III: finitely determined map-germs (1968).
pub fn mather<F: Field>(
    alloc: Global,
    field: &F,
    g: &JetOf<F>,
    k: u8,
) -> Result<MatherTest<F::Elem>, Fault>
    requires ring { F.is_ring field.now }
    requires jet { IsJet (F.meaning field.now) g.now }
    requires at_most_8_variables { g.now.n ≤ 8 }
    requires order { g.now.order ≡ k }
    requires order_at_least_2 { 2 ≤ k }
    requires order_at_most_16 { k ≤ 16 }
    requires low { let m = F.meaning field.now in StartsAtIn g.now.n m.scalars.ops 2 (polynomial_of m g.now) }
    ensures answer { IfOk result (IsAnswer (F.meaning field.now) g.now k) }
    ensures range { OnFault result (let m = F.meaning field.now in IsTestHigh g.now.n m.scalars k (polynomial_of m g.now)) }
{
    let n = g.n();
    let partials = partials(alloc, field, g)?;
    let multiples = multiples(alloc, n, 2, k)?;
    let rows = multiple_rows(alloc, field, n, k + 1, &multiples, &partials)?;
    let monomials = monomials(alloc, n, k + 1)?;
    let targets = monomial_rows(alloc, field, n, k + 1, &monomials)?;
    let solutions = solve_all(alloc, field, &rows, &targets)?;
    answer(alloc, field, n, k, &multiples, &monomials, &solutions)
}
