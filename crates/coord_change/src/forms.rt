//! Linear forms as jets, and linear changes of coordinates.

ghost use Rattle.std.specs.Prelude.{◌≡◌, ℕ, ◌*◌, ◌<◌, ◌≤◌, ◌++◌, [], ◌∷◌, length, IfOk, OnOk, All};
ghost use Rattle.poly_law.specs.Polynomials.{SameIn};
ghost use Rattle.ring_law.specs.Refusals.{OnFault};
ghost use Rattle.jet_law.specs.Terms.{poly_of};
ghost use Rattle.jet_poly.specs.Jets.{IsJet};
ghost use Rattle.jet_poly.specs.Gathered.{nonzero};
ghost use Rattle.jet_subst.specs.Parts.{IsPart, part_of};
ghost use Rattle.coord_change.specs.Changes.{IsChange, entry_of};
ghost use Rattle.coord_change.specs.Errors.{OnSingular, OnRangeError};
ghost use Rattle.coord_change.specs.Inverses.{HasNoKernel, InverseIsHigh};
ghost use Rattle.coord_change.specs.Linear.{one_at, linear_form};

use crate::change::{Change, ChangeOf};
use crate::error::ChangeError;
use crate::inverse::{Inversion, invert};
use crate::unit::monomial;
use jet_poly::{Jet, JetOf};
use mono_exp::Exp;
use ring_law::{Fault, Field, Ring};
use sqlite_items::Items;
use std::alloc::Global;

/// Adds c times variable j behind the others, unless c is zero.
fn push_variable<R: Ring>(
    ring: &R,
    terms: &mut Vec<(Exp, R::Elem)>,
    j: u8,
    c: R::Elem,
) -> Result<(), Fault>
    requires ring { R.is_ring ring.now }
    requires elem { (R.meaning ring.now).is_elem c }
    requires inside { j < 8 }
    ensures pushed { OnOk result (let m = R.meaning ring.now in terms.new.items ≡ terms.old.items ++ nonzero m.scalars m.value ((record { e = one_at j }, c) ∷ [])) }
    ensures memory { OnFault result ⊥ }
{
    if !ring.eq(c, ring.zero()) {
        terms.push((monomial(usize::from(j)), c))?;
    }
    Ok(())
}

/// The linear form whose coefficients are row i of a matrix with n rows.
fn linear_jet<R: Ring>(
    alloc: Global,
    ring: &R,
    n: u8,
    order: u8,
    matrix: &[R::Elem],
    i: u8,
) -> Result<JetOf<R>, Fault>
    requires ring { R.is_ring ring.now }
    requires at_most_8_rows { n ≤ 8 }
    requires order_at_least_1 { 1 ≤ order }
    requires elems { All (R.meaning ring.now).is_elem matrix.now }
    requires entries { length matrix.now ≡ n * n }
    requires row { i < n }
    ensures jet { IfOk result (IsJet (R.meaning ring.now)) }
    ensures n { IfOk result (λ p. p.n ≡ n) }
    ensures order { IfOk result (λ p. p.order ≡ order) }
    ensures value { IfOk result (λ p. let m = R.meaning ring.now in SameIn n m.scalars.ops (poly_of n m.value p.terms) (linear_form n m.scalars.ops (entry_of m n matrix.now i))) }
    ensures memory { OnFault result ⊥ }
{
    let mut terms = Vec::new(alloc);
    for j in 0..n {
        let c = matrix[usize::from(n) * usize::from(i) + usize::from(j)];
        push_variable(ring, &mut terms, j, c)?;
    }
    Ok(Jet::from_rising(n, order, terms))
}

/// The linear forms whose coefficients are the rows of a matrix with n rows.
pub fn linear_jets<R: Ring>(
    alloc: Global,
    ring: &R,
    n: u8,
    order: u8,
    matrix: &[R::Elem],
) -> Result<Vec<JetOf<R>>, Fault>
    requires ring { R.is_ring ring.now }
    requires at_most_8_rows { n ≤ 8 }
    requires order_at_least_1 { 1 ≤ order }
    requires elems { All (R.meaning ring.now).is_elem matrix.now }
    requires entries { length matrix.now ≡ n * n }
    ensures count { IfOk result (λ v. length v.items ≡ n) }
    ensures jets { IfOk result (λ v. All (IsPart (R.meaning ring.now) n) v.items) }
    ensures orders { IfOk result (λ v. All (λ p. p.order ≡ order) v.items) }
    ensures values { IfOk result (λ v. let m = R.meaning ring.now in (i : ℕ) → i < n → SameIn n m.scalars.ops (part_of n m.value v.items i) (linear_form n m.scalars.ops (entry_of m n matrix.now i))) }
    ensures memory { OnFault result ⊥ }
{
    let mut jets = Vec::new(alloc);
    for i in 0..n {
        let jet = linear_jet(alloc, ring, n, order, matrix, i)?;
        jets.push(jet)?;
    }
    Ok(jets)
}

/// The linear change of coordinates of a matrix with n rows, row after row: part i is the linear
/// form whose coefficients are row i.
///
/// Errors: `Singular` exactly where the matrix takes a vector other than zero to zero; it keeps
/// one. `Range` only where the height of the plain row reduction of the matrix is 2^120 or more.
pub fn linear<F: Field>(
    alloc: Global,
    field: &F,
    n: u8,
    order: u8,
    matrix: &[F::Elem],
) -> Result<ChangeOf<F>, ChangeError<F::Elem>>
    requires ring { F.is_ring field.now }
    requires given { 0 < n }
    requires at_most_8_variables { n ≤ 8 }
    requires order_at_least_1 { 1 ≤ order }
    requires order_at_most_17 { order ≤ 17 }
    requires elems { All (F.meaning field.now).is_elem matrix.now }
    requires entries { length matrix.now ≡ n * n }
    ensures change { IfOk result (IsChange (F.meaning field.now)) }
    ensures n { IfOk result (λ c. c.n ≡ n) }
    ensures order { IfOk result (λ c. c.order ≡ order) }
    ensures parts { IfOk result (λ c. let m = F.meaning field.now in (i : ℕ) → i < n → SameIn n m.scalars.ops (part_of n m.value c.parts i) (linear_form n m.scalars.ops (entry_of m n matrix.now i))) }
    ensures regular { OnOk result (let m = F.meaning field.now in HasNoKernel m.scalars.ops n (entry_of m n matrix.now)) }
    ensures singular { let m = F.meaning field.now in OnSingular m n (entry_of m n matrix.now) result }
    ensures range { OnRangeError result (let m = F.meaning field.now in InverseIsHigh m.scalars n (entry_of m n matrix.now)) }
{
    let inverse = match invert(alloc, field, n, matrix)? {
        Inversion::Kernel(kernel) => return Err(ChangeError::Singular { kernel }),
        Inversion::Inverse(inverse) => inverse,
    };
    let parts = linear_jets(alloc, field, n, order, matrix)?;
    Ok(Change {
        n,
        order,
        parts: Items::from_vec(parts),
        inverse: Items::from_vec(inverse),
    })
}
