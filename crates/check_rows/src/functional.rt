//! Functionals that exclude the rows of Mather's test.

ghost use Rattle.std.specs.Prelude.{◌≡◌, ℕ, ◌+◌, ◌^◌, ◌<◌, ◌≤◌, ◌↔◌, All, IfOk, IsTrue, length, map, sum};
ghost use Rattle.std.specs.List.{AllByRecursion};
ghost use Rattle.ring_theory.specs.Scalars.{sum_of};
ghost use Rattle.ring_law.specs.Refusals.{OnFault, OnRange};
ghost use Rattle.poly_law.specs.ExpList.{exps};
ghost use Rattle.poly_law.specs.Poly.{coefficient, value_on, MatherFails};
ghost use Rattle.poly_law.specs.Polynomials.{term_in, times_in};
ghost use Rattle.mono_exp.specs.Exponents.{IsIn};
ghost use Rattle.jet_law.specs.Heights.{IsHigh};
ghost use Rattle.jet_law.specs.Terms.{exp_of, poly_of};
ghost use Rattle.jet_poly.specs.Jets.{IsJet, polynomial_of};
ghost use Rattle.jacobian_row.specs.Rows.{IsJetIn, polynomial_at};
ghost use Rattle.check_rows.specs.Functionals.{with_coefficients, value_heights, AreValuesHigh, IsZeroOn, IsZeroHigh};

use crate::jets::monomial_jet;
use jacobian_row::{Multiple, multiples, partials};
use jet_poly::{JetOf, coef};
use mono_exp::{Exp, degree, quotient};
use ring_law::{Fault, Range, Ring};
use std::alloc::Global;

/// The product of the value of a term and the coefficient of x^a*f at its monomial.
fn value_product<R: Ring>(
    ring: &R,
    n: u8,
    t: (Exp, R::Elem),
    a: Exp,
    f: &JetOf<R>,
) -> Result<R::Elem, Range>
    requires ring { R.is_ring ring.now }
    requires at_most_8_variables { n ≤ 8 }
    requires elem { (R.meaning ring.now).is_elem t.1 }
    requires variables { IsIn n t.0.e }
    requires unused { IsIn n a.e }
    requires jet { IsJetIn (R.meaning ring.now) n f.now }
    ensures elem { IfOk result (R.meaning ring.now).is_elem }
    ensures product { IfOk result (λ x. let m = R.meaning ring.now in m.value x
        ≡ m.scalars.ops.mul (m.value t.1) (coefficient (exps n) m.scalars.ops (times_in n m.scalars.ops (term_in n m.scalars.ops (exp_of n a)) (poly_of n m.value f.now.terms)) (exp_of n t.0))) }
    ensures range { OnRange result (let m = R.meaning ring.now in 2 ^ 120
        ≤ m.scalars.product_height (m.value t.1) (coefficient (exps n) m.scalars.ops (times_in n m.scalars.ops (term_in n m.scalars.ops (exp_of n a)) (poly_of n m.value f.now.terms)) (exp_of n t.0))) }
{
    match quotient(t.0, a) {
        Some(q) => ring.mul(t.1, coef(ring, f, q)),
        None => Ok(ring.zero()),
    }
}

/// The products of the values of a functional and the coefficients of x^a*f at their monomials.
fn value_products<R: Ring>(
    alloc: Global,
    ring: &R,
    n: u8,
    values: &[(Exp, R::Elem)],
    a: Exp,
    f: &JetOf<R>,
) -> Result<Vec<R::Elem>, Fault>
    requires ring { R.is_ring ring.now }
    requires at_most_8_variables { n ≤ 8 }
    requires elems { All (λ t. (R.meaning ring.now).is_elem t.1) values.now }
    requires variables { All (λ t. IsIn n t.0.e) values.now }
    requires unused { IsIn n a.e }
    requires jet { IsJetIn (R.meaning ring.now) n f.now }
    ensures elems { IfOk result (λ v. AllByRecursion (R.meaning ring.now).is_elem v.items) }
    ensures products { IfOk result (λ v. let m = R.meaning ring.now in map m.value v.items
        ≡ with_coefficients n m.scalars.ops m.scalars.ops.mul (poly_of n m.value values.now) (times_in n m.scalars.ops (term_in n m.scalars.ops (exp_of n a)) (poly_of n m.value f.now.terms))) }
    ensures range { OnFault result (let m = R.meaning ring.now in IsHigh
        (with_coefficients n m.scalars.ops m.scalars.product_height (poly_of n m.value values.now) (times_in n m.scalars.ops (term_in n m.scalars.ops (exp_of n a)) (poly_of n m.value f.now.terms)))) }
{
    let mut all = Vec::new(alloc);
    for t in values {
        let x = value_product(ring, n, *t, a, f)?;
        all.push(x)?;
    }
    Ok(all)
}

/// The sum of a list of elements.
///
/// Errors: `Range` only where the height of the sum is 2^120 or more.
pub fn sum_of_list<R: Ring>(ring: &R, xs: &[R::Elem]) -> Result<R::Elem, Range>
    requires ring { R.is_ring ring.now }
    requires elems { All (R.meaning ring.now).is_elem xs.now }
    ensures elem { IfOk result (R.meaning ring.now).is_elem }
    ensures sum { IfOk result (λ x. let m = R.meaning ring.now in m.value x ≡ sum_of m.scalars.ops (map m.value xs.now)) }
    ensures range { OnRange result (let m = R.meaning ring.now in 2 ^ 120 ≤ m.scalars.sum_height (map m.value xs.now)) }
{
    let mut total = ring.zero();
    for x in xs {
        total = ring.add(total, *x)?;
    }
    Ok(total)
}

/// The value of a functional at x^a*f.
fn value_at<R: Ring>(
    alloc: Global,
    ring: &R,
    n: u8,
    values: &[(Exp, R::Elem)],
    a: Exp,
    f: &JetOf<R>,
) -> Result<R::Elem, Fault>
    requires ring { R.is_ring ring.now }
    requires at_most_8_variables { n ≤ 8 }
    requires elems { All (λ t. (R.meaning ring.now).is_elem t.1) values.now }
    requires variables { All (λ t. IsIn n t.0.e) values.now }
    requires unused { IsIn n a.e }
    requires jet { IsJetIn (R.meaning ring.now) n f.now }
    ensures elem { IfOk result (R.meaning ring.now).is_elem }
    ensures value { IfOk result (λ x. let m = R.meaning ring.now in m.value x
        ≡ value_on (exps n) m.scalars.ops (poly_of n m.value values.now) (times_in n m.scalars.ops (term_in n m.scalars.ops (exp_of n a)) (poly_of n m.value f.now.terms))) }
    ensures range { OnFault result (let m = R.meaning ring.now in IsHigh
        (value_heights n m.scalars (poly_of n m.value values.now) (times_in n m.scalars.ops (term_in n m.scalars.ops (exp_of n a)) (poly_of n m.value f.now.terms)))) }
{
    let products = value_products(alloc, ring, n, values, a, f)?;
    let total = sum_of_list(ring, &products)?;
    Ok(total)
}

/// True where a functional is 0 on the multiples of the partials.
fn is_zero_on<R: Ring>(
    alloc: Global,
    ring: &R,
    n: u8,
    values: &[(Exp, R::Elem)],
    partials: &[JetOf<R>],
    multiples: &[Multiple],
) -> Result<bool, Fault>
    requires ring { R.is_ring ring.now }
    requires at_most_8_variables { n ≤ 8 }
    requires elems { All (λ t. (R.meaning ring.now).is_elem t.1) values.now }
    requires variables { All (λ t. IsIn n t.0.e) values.now }
    requires unused { All (λ u. IsIn n u.factor.e) multiples.now }
    requires places { All (λ u. u.variable < length partials.now) multiples.now }
    requires jets { All (IsJetIn (R.meaning ring.now) n) partials.now }
    ensures zero { IfOk result (λ b. let m = R.meaning ring.now in IsTrue b ↔ AllByRecursion (IsZeroOn n m.scalars.ops (poly_of n m.value values.now) (polynomial_at n m.value partials.now)) multiples.now) }
    ensures range { OnFault result (let m = R.meaning ring.now in IsZeroHigh n m.scalars (poly_of n m.value values.now) (polynomial_at n m.value partials.now) multiples.now) }
{
    for u in multiples {
        let partial = &partials[usize::from(u.variable)];
        let value = value_at(alloc, ring, n, values, u.factor, partial)?;
        if !ring.eq(value, ring.zero()) {
            return Ok(false);
        }
    }
    Ok(true)
}

/// True where a functional excludes the rows of Mather's test at k for the jet g: it is 0 on each multiple of a partial of g by a monomial of degree at least 2,
/// cut at k + 1, and 1 on the monomial `at`, of degree k + 1. The functional is given by its values on some monomials of degree at most k + 1.
///
/// Errors: `Range` only where a partial of g, or a product or the sum of the products in one of these values, has height 2^120 or more.
pub fn is_failure<R: Ring>(
    alloc: Global,
    ring: &R,
    g: &JetOf<R>,
    k: u8,
    values: &[(Exp, R::Elem)],
    at: Exp,
) -> Result<bool, Fault>
    requires ring { R.is_ring ring.now }
    requires jet { IsJet (R.meaning ring.now) g.now }
    requires at_most_8_variables { g.now.n ≤ 8 }
    requires order_at_least_2 { 2 ≤ k }
    requires order_at_most_16 { k ≤ 16 }
    requires elems { All (λ t. (R.meaning ring.now).is_elem t.1) values.now }
    requires variables { All (λ t. IsIn g.now.n t.0.e) values.now }
    requires degrees { All (λ t. sum t.0.e ≤ k + 1) values.now }
    requires unused { IsIn g.now.n at.e }
    ensures fails { IfOk result (λ b. let m = R.meaning ring.now in IsTrue b
        ↔ MatherFails (exps g.now.n) m.scalars.ops k (polynomial_of m g.now) (poly_of g.now.n m.value values.now) (exp_of g.now.n at)) }
    ensures range { OnFault result (let m = R.meaning ring.now in AreValuesHigh g.now.n m.scalars k (polynomial_of m g.now) (poly_of g.now.n m.value values.now) (exp_of g.now.n at)) }
{
    let n = g.n();
    if degree(at) != u16::from(k) + 1 {
        return Ok(false);
    }
    let partials = partials(alloc, ring, g)?;
    let multiples = multiples(alloc, n, 2, k + 1)?;
    if !is_zero_on(alloc, ring, n, values, &partials, &multiples)? {
        return Ok(false);
    }
    let monomial = monomial_jet(alloc, ring, n, k + 1, at)?;
    let one = value_at(alloc, ring, n, values, Exp { e: [0; 8] }, &monomial)?;
    Ok(ring.eq(one, ring.one()))
}
