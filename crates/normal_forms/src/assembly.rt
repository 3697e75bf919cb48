//! The form of a family that has given coefficients.

ghost use Rattle.std.specs.Prelude.{◌≡◌, ◌≢◌, ◌+◌, ◌≤◌, ◌++◌, IfOk, OnOk, All, IsTrue, length, map, sum};
ghost use Rattle.std.specs.List.{zip};
ghost use Rattle.ring_law.specs.Refusals.{OnFault};
ghost use Rattle.poly_law.specs.Polynomials.{SameIn};
ghost use Rattle.jet_law.specs.Terms.{poly_of};
ghost use Rattle.jet_poly.specs.Jets.{IsJet};
ghost use Rattle.normal_forms.specs.Monomials.{in_eight, numbers_below, square_of};
ghost use Rattle.normal_forms.specs.Families.{is_family, corank_of, sum_of};
ghost use Rattle.normal_forms.specs.Forms.{IsFormOf};
ghost use Rattle.normal_forms.specs.Coefficients.{form_terms};

use crate::distinct::jet_of_distinct;
use crate::family::Family;
use crate::form::corank;
use crate::split::square;
use crate::sum::monomials;
use jet_poly::JetOf;
use mono_exp::Exp;
use ring_law::{Fault, Ring};
use std::alloc::Global;

// The coefficients beside the monomials of the family's sum.
fn sum_terms<E: Copy>(alloc: Global, family: Family, coefs: &[E]) -> Result<Vec<(Exp, E)>, Fault>
    requires small { family ≢ Family.A 255 }
    ensures terms { IfOk result (λ v. v.items ≡ zip (map in_eight (sum_of family)) coefs.now) }
    ensures memory { OnFault result ⊥ }
{
    let list = monomials(alloc, family)?;
    Ok(
        list.iter()
            .copied()
            .zip(coefs.iter().copied())
            .collect(alloc)?,
    )
}

// Appends the coefficients of the squares of the variables from number c on.
fn push_square_terms<E: Copy>(terms: &mut Vec<(Exp, E)>, c: u8, squares: &[E]) -> Result<(), Fault>
    requires at_most_8_variables { c + length squares.now ≤ 8 }
    ensures terms { OnOk result (terms.new.items
        ≡ terms.old.items ++ zip (map (λ i. square_of (c + i)) (numbers_below (length squares.now))) squares.now) }
    ensures memory { OnFault result ⊥ }
{
    for i in 0..squares.len() {
        terms.push((square(c + i as u8), squares[i]))?;
    }
    Ok(())
}

// The terms of a form.
fn terms_of<E: Copy>(
    alloc: Global,
    family: Family,
    coefs: &[E],
    squares: &[E],
) -> Result<Vec<(Exp, E)>, Fault>
    requires small { family ≢ Family.A 255 }
    requires at_most_8_variables { corank_of family + length squares.now ≤ 8 }
    ensures terms { IfOk result (λ v. v.items ≡ form_terms family coefs.now squares.now) }
    ensures memory { OnFault result ⊥ }
{
    let mut terms = sum_terms(alloc, family, coefs)?;
    push_square_terms(&mut terms, corank(family), squares)?;
    Ok(terms)
}

/// The form of a family: the sum of the coefficients times the monomials of the family's sum, in the
/// order of the list of families, and of the squares of as many further variables as there are
/// coefficients of squares. Coefficients that are 0 leave no term. No sum is formed, so the only error
/// is want of memory.
pub fn form_of<R: Ring>(
    alloc: Global,
    ring: &R,
    family: Family,
    coefs: &[R::Elem],
    squares: &[R::Elem],
    order: u8,
) -> Result<JetOf<R>, Fault>
    requires ring { R.is_ring ring.now }
    requires family { IsTrue (is_family family) }
    requires coefs { All (R.meaning ring.now).is_elem coefs.now }
    requires squares { All (R.meaning ring.now).is_elem squares.now }
    requires one_for_each_monomial { length coefs.now ≡ length (sum_of family) }
    requires at_most_8_variables { corank_of family + length squares.now ≤ 8 }
    requires degrees { All (λ t. sum t.0.e ≤ order) (form_terms family coefs.now squares.now) }
    ensures jet { IfOk result (IsJet (R.meaning ring.now)) }
    ensures n { IfOk result (λ f. f.n ≡ corank_of family + length squares.now) }
    ensures order { IfOk result (λ f. f.order ≡ order) }
    ensures sum { IfOk result (λ f. let m = R.meaning ring.now in SameIn f.n m.scalars.ops (poly_of f.n m.value f.terms)
        (poly_of f.n m.value (form_terms family coefs.now squares.now))) }
    ensures form { All (λ x. (R.meaning ring.now).value x ≢ (R.meaning ring.now).scalars.ops.zero) squares.now
        → IfOk result (λ f. IsFormOf family f.n (corank_of family) f.terms) }
    ensures memory { OnFault result ⊥ }
{
    let terms = terms_of(alloc, family, coefs, squares)?;
    let n = corank(family) + squares.len() as u8;
    let form = jet_of_distinct(alloc, ring, n, order, &terms)?;
    Ok(form)
}
