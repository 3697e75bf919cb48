//! Changes of coordinates from given parts.

ghost use Rattle.std.specs.Prelude.{◌≡◌, ℕ, ◌*◌, ◌<◌, ◌≤◌, length, IfOk, OnOk, All};
ghost use Rattle.poly_law.specs.Polynomials.{HaveNoConstant};
ghost use Rattle.ring_law.specs.Refusals.{OnFault};
ghost use Rattle.jet_subst.specs.Parts.{IsPart, part_of};
ghost use Rattle.coord_change.specs.Changes.{IsChange, entry_of};
ghost use Rattle.coord_change.specs.Errors.{OnSingular, OnRangeError};
ghost use Rattle.coord_change.specs.Inverses.{HasNoKernel, InverseIsHigh};
ghost use Rattle.coord_change.specs.Linear.{linear_part_of, order_of};

use crate::change::{Change, ChangeOf};
use crate::error::ChangeError;
use crate::inverse::{Inversion, invert};
use crate::unit::monomial;
use jet_poly::{Jet, JetOf, coef};
use ring_law::{Fault, Field, Ring};
use sqlite_items::Items;
use std::alloc::{AllocError, Global};

/// The linear part of n jets in n variables, row after row: row i has the linear coefficients of
/// jet i.
pub fn linear_part<R: Ring>(
    alloc: Global,
    ring: &R,
    n: u8,
    parts: &[JetOf<R>],
) -> Result<Vec<R::Elem>, Fault>
    requires ring { R.is_ring ring.now }
    requires given { 0 < n }
    requires at_most_8_variables { n ≤ 8 }
    requires count { length parts.now ≡ n }
    requires parts { All (IsPart (R.meaning ring.now) n) parts.now }
    ensures elems { IfOk result (λ v. All (R.meaning ring.now).is_elem v.items) }
    ensures count { IfOk result (λ v. length v.items ≡ n * n) }
    ensures entries { IfOk result (λ v. let m = R.meaning ring.now in (i j : ℕ) → i < n → j < n → entry_of m n v.items i j ≡ linear_part_of m n parts.now i j) }
    ensures memory { OnFault result ⊥ }
{
    let size = usize::from(n);
    let mut all = Vec::new(alloc);
    for place in 0..size * size {
        let x = coef(ring, &parts[place / size], monomial(place % size));
        all.push(x)?;
    }
    Ok(all)
}

/// A copy of a jet.
pub(crate) fn copy<E: Copy>(alloc: Global, f: &Jet<E>) -> Result<Jet<E>, AllocError>
    ensures { IfOk result (λ h. h ≡ f.now) }
{
    let mut terms = Vec::new(alloc);
    for t in f.terms() {
        terms.push(*t)?;
    }
    Ok(Jet::from_rising(f.n(), f.order(), terms))
}

/// Copies of jets.
fn copies<E: Copy>(alloc: Global, parts: &[Jet<E>]) -> Result<Vec<Jet<E>>, AllocError>
    ensures { IfOk result (λ v. v.items ≡ parts.now) }
{
    let mut all = Vec::new(alloc);
    for part in parts {
        let other = copy(alloc, part)?;
        all.push(other)?;
    }
    Ok(all)
}

/// A copy of a change.
pub(crate) fn copied<E: Copy>(alloc: Global, c: &Change<E>) -> Result<Change<E>, AllocError>
    ensures { IfOk result (λ d. d ≡ c.now) }
{
    let parts = copies(alloc, c.parts.as_slice())?;
    let inverse = Items::from_slice(alloc, c.inverse.as_slice())?;
    Ok(Change {
        n: c.n,
        order: c.order,
        parts: Items::from_vec(parts),
        inverse,
    })
}

/// The change of coordinates with these parts: as many jets as they have variables, of one order
/// and without constant terms.
///
/// Errors: `Singular` exactly where the linear part takes a vector other than zero to zero; it
/// keeps one. `Range` only where the height of the plain row reduction of the linear part is
/// 2^120 or more.
pub fn from_parts<F: Field>(
    alloc: Global,
    field: &F,
    parts: &[JetOf<F>],
) -> Result<ChangeOf<F>, ChangeError<F::Elem>>
    requires ring { F.is_ring field.now }
    requires given { 0 < length parts.now }
    requires at_most_8_parts { length parts.now ≤ 8 }
    requires parts { All (IsPart (F.meaning field.now) (length parts.now)) parts.now }
    requires orders { All (λ p. p.order ≡ order_of parts.now) parts.now }
    requires order_at_least_1 { 1 ≤ order_of parts.now }
    requires order_at_most_17 { order_of parts.now ≤ 17 }
    requires no_constant { let m = F.meaning field.now in let n = length parts.now in HaveNoConstant n m.scalars.ops n (part_of n m.value parts.now) }
    ensures change { IfOk result (IsChange (F.meaning field.now)) }
    ensures n { IfOk result (λ c. c.n ≡ length parts.now) }
    ensures order { IfOk result (λ c. c.order ≡ order_of parts.now) }
    ensures parts { IfOk result (λ c. c.parts ≡ parts.now) }
    ensures regular { OnOk result (let m = F.meaning field.now in let n = length parts.now in HasNoKernel m.scalars.ops n (linear_part_of m n parts.now)) }
    ensures singular { let m = F.meaning field.now in let n = length parts.now in OnSingular m n (linear_part_of m n parts.now) result }
    ensures range { OnRangeError result (let m = F.meaning field.now in let n = length parts.now in InverseIsHigh m.scalars n (linear_part_of m n parts.now)) }
{
    let n = parts[0].n();
    let order = parts[0].order();
    let matrix = linear_part(alloc, field, n, parts)?;
    let inverse = match invert(alloc, field, n, &matrix)? {
        Inversion::Kernel(kernel) => return Err(ChangeError::Singular { kernel }),
        Inversion::Inverse(inverse) => inverse,
    };
    let copied = copies(alloc, parts)?;
    Ok(Change {
        n,
        order,
        parts: Items::from_vec(copied),
        inverse: Items::from_vec(inverse),
    })
}
