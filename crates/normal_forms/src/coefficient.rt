//! The coefficients of a jet at the monomials of a family's sum and at the squares.

ghost use Rattle.std.specs.Prelude.{◌≡◌, ◌≤◌, ◌++◌, IfOk, OnOk, All, length, map, vec_len};
ghost use Rattle.ring_law.specs.Refusals.{OnFault};
ghost use Rattle.jet_poly.specs.Jets.{IsJet};
ghost use Rattle.normal_forms.specs.Families.{corank_of, sum_of};
ghost use Rattle.normal_forms.specs.Coefficients.{coefficients_in_sum, coefficients_of_squares};

use crate::family::Family;
use crate::split::square;
use crate::sum::monomials;
use jet_poly::{JetOf, coef};
use ring_law::{Fault, Ring};
use std::alloc::Global;

/// The coefficients that a jet has at the monomials of a family's sum, in the order of the list of
/// families, as `modulus` takes them. The coefficient is 0 where the monomial does not occur.
/// No sum is formed, so the only error is want of memory.
pub fn sum_coefficients<R: Ring>(
    alloc: Global,
    ring: &R,
    family: Family,
    f: &JetOf<R>,
) -> Result<Vec<R::Elem>, Fault>
    requires ring { R.is_ring ring.now }
    requires jet { IsJet (R.meaning ring.now) f.now }
    requires at_most_8_variables { f.now.n ≤ 8 }
    requires order_at_most_17 { f.now.order ≤ 17 }
    ensures elems { IfOk result (λ v. All (R.meaning ring.now).is_elem v.items) }
    ensures values { IfOk result (λ v. let m = R.meaning ring.now in map m.value v.items ≡ coefficients_in_sum m family (corank_of family) f.now.terms) }
    ensures count { IfOk result (λ v. vec_len v ≡ length (sum_of family)) }
    ensures memory { OnFault result ⊥ }
{
    let mut coefs = Vec::new(alloc);
    // The exponent 256 is past the order.
    if family == Family::A(255) {
        coefs.push(ring.zero())?;
        return Ok(coefs);
    }
    let list = monomials(alloc, family)?;
    for monomial in &list {
        coefs.push(coef(ring, f, *monomial))?;
    }
    Ok(coefs)
}

/// Appends the coefficients at the squares of the variables past the first c, in order.
pub(crate) fn push_squares<R: Ring>(
    ring: &R,
    values: &mut Vec<R::Elem>,
    c: u8,
    f: &JetOf<R>,
) -> Result<(), Fault>
    requires ring { R.is_ring ring.now }
    requires jet { IsJet (R.meaning ring.now) f.now }
    requires at_most_8_variables { f.now.n ≤ 8 }
    requires elems { All (R.meaning ring.now).is_elem values.old.items }
    ensures elems { OnOk result (All (R.meaning ring.now).is_elem values.new.items) }
    ensures values { OnOk result (let m = R.meaning ring.now in map m.value values.new.items
        ≡ map m.value values.old.items ++ coefficients_of_squares m f.now.n c f.now.terms) }
    ensures memory { OnFault result ⊥ }
{
    for k in 0..f.n().saturating_sub(c) {
        values.push(coef(ring, f, square(c + k)))?;
    }
    Ok(())
}
