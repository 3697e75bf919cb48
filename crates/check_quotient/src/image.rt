//! The linear map of a table at polynomials, and whether it is 0 on multiples of partials.

ghost use Rattle.std.specs.Prelude.{◌≡◌, ◌<◌, ◌≤◌, ◌++◌, [], ◌∷◌, ◌↔◌, All, IsTrue, IfOk, OnOk, length, map};
ghost use Rattle.std.specs.List.{AllByRecursion};
ghost use Rattle.ring_theory.specs.Scalars.{sum_of};
ghost use Rattle.ring_law.specs.Refusals.{OnFault};
ghost use Rattle.poly_law.specs.Exps.{plus};
ghost use Rattle.poly_law.specs.ExpList.{exps};
ghost use Rattle.poly_law.specs.Polynomials.{cut_in};
ghost use Rattle.mono_exp.specs.Exponents.{IsIn};
ghost use Rattle.jet_law.specs.Heights.{IsHigh};
ghost use Rattle.jet_law.specs.Terms.{exp_of, poly_of};
ghost use Rattle.jacobian_row.specs.Multiples.{product_to};
ghost use Rattle.check_rows.specs.Lists.{AreTermsIn, list_at};
ghost use Rattle.check_quotient.specs.Tables.{AreValuesIn, image_products, product_heights, image_heights, IsInKernel, IsImageHigh, IsMultipleInKernel, AreImagesHigh};

use crate::lookup::value_at;
use check_rows::sum_of_list;
use jacobian_row::Multiple;
use milnor_alg::TableRow;
use mono_exp::{Exp, degree, times};
use ring_law::{Fault, Ring};
use sqlite_items::Items;
use std::alloc::Global;

// Adds the product of x^a and a term, unless its degree is above k.
fn add_shifted<R: Ring>(
    ring: &R,
    n: u8,
    k: u8,
    all: &mut Vec<(Exp, R::Elem)>,
    a: Exp,
    t: (Exp, R::Elem),
) -> Result<(), Fault>
    requires ring { R.is_ring ring.now }
    requires at_most_8_variables { n ≤ 8 }
    requires order_at_most_17 { k ≤ 17 }
    requires unused { IsIn n a.e }
    requires t_elem { (R.meaning ring.now).is_elem t.1 }
    requires t_variables { IsIn n t.0.e }
    requires valid { AreTermsIn (R.meaning ring.now) n all.old.items }
    ensures valid { OnOk result (AreTermsIn (R.meaning ring.now) n all.new.items) }
    ensures product { OnOk result (let m = R.meaning ring.now in poly_of n m.value all.new.items
        ≡ poly_of n m.value all.old.items ++ cut_in n m.scalars.ops k ((plus (exps n) (exp_of n a) (exp_of n t.0), m.scalars.ops.mul m.scalars.ops.one (m.value t.1)) ∷ [])) }
    ensures memory { OnFault result ⊥ }
{
    let _ = ring;
    if degree(a) + degree(t.0) > u16::from(k) {
        return Ok(());
    }
    let monomial = times(a, t.0).unwrap();
    all.push((monomial, t.1))?;
    Ok(())
}

// x^a times the terms, those of degree at most k.
fn shifted<R: Ring>(
    alloc: Global,
    ring: &R,
    n: u8,
    k: u8,
    a: Exp,
    terms: &[(Exp, R::Elem)],
) -> Result<Vec<(Exp, R::Elem)>, Fault>
    requires ring { R.is_ring ring.now }
    requires at_most_8_variables { n ≤ 8 }
    requires order_at_most_17 { k ≤ 17 }
    requires unused { IsIn n a.e }
    requires terms { AreTermsIn (R.meaning ring.now) n terms.now }
    ensures valid { IfOk result (λ v. AreTermsIn (R.meaning ring.now) n v.items) }
    ensures product { IfOk result (λ v. let m = R.meaning ring.now in poly_of n m.value v.items ≡ product_to n m.scalars.ops k (exp_of n a) (poly_of n m.value terms.now)) }
    ensures memory { OnFault result ⊥ }
{
    let mut all = Vec::new(alloc);
    for t in terms {
        add_shifted(ring, n, k, &mut all, a, *t)?;
    }
    Ok(all)
}

// The products of the coefficients of f and the values of the table at their monomials in place j.
fn products<R: Ring>(
    alloc: Global,
    ring: &R,
    n: u8,
    table: &[TableRow<R::Elem>],
    f: &[(Exp, R::Elem)],
    j: usize,
) -> Result<Vec<R::Elem>, Fault>
    requires ring { R.is_ring ring.now }
    requires at_most_8_variables { n ≤ 8 }
    requires values { AreValuesIn (R.meaning ring.now) table.now }
    requires elems { AllByRecursion (λ t. (R.meaning ring.now).is_elem t.1) f.now }
    ensures elems { IfOk result (λ v. AllByRecursion (R.meaning ring.now).is_elem v.items) }
    ensures products { IfOk result (λ v. let m = R.meaning ring.now in map m.value v.items ≡ image_products m n table.now j (poly_of n m.value f.now)) }
    ensures range { OnFault result (let m = R.meaning ring.now in IsHigh (product_heights m n table.now j (poly_of n m.value f.now))) }
{
    let mut all = Vec::new(alloc);
    for t in f {
        let x = ring.mul(t.1, value_at(ring, n, table, t.0, j))?;
        all.push(x)?;
    }
    Ok(all)
}

// The value of the map of the table at f in place j.
fn image<R: Ring>(
    alloc: Global,
    ring: &R,
    n: u8,
    table: &[TableRow<R::Elem>],
    f: &[(Exp, R::Elem)],
    j: usize,
) -> Result<R::Elem, Fault>
    requires ring { R.is_ring ring.now }
    requires at_most_8_variables { n ≤ 8 }
    requires values { AreValuesIn (R.meaning ring.now) table.now }
    requires elems { AllByRecursion (λ t. (R.meaning ring.now).is_elem t.1) f.now }
    ensures elem { IfOk result (R.meaning ring.now).is_elem }
    ensures value { IfOk result (λ x. let m = R.meaning ring.now in m.value x ≡ sum_of m.scalars.ops (image_products m n table.now j (poly_of n m.value f.now))) }
    ensures range { OnFault result (let m = R.meaning ring.now in IsHigh (image_heights m n table.now j (poly_of n m.value f.now))) }
{
    let all = products(alloc, ring, n, table, f, j)?;
    let total = sum_of_list(ring, &all)?;
    Ok(total)
}

// True where the map of the table is 0 at f in the first `size` places.
fn is_in_kernel<R: Ring>(
    alloc: Global,
    ring: &R,
    n: u8,
    table: &[TableRow<R::Elem>],
    size: usize,
    f: &[(Exp, R::Elem)],
) -> Result<bool, Fault>
    requires ring { R.is_ring ring.now }
    requires at_most_8_variables { n ≤ 8 }
    requires values { AreValuesIn (R.meaning ring.now) table.now }
    requires elems { AllByRecursion (λ t. (R.meaning ring.now).is_elem t.1) f.now }
    ensures kernel { IfOk result (λ b. let m = R.meaning ring.now in IsTrue b ↔ IsInKernel m n table.now size (poly_of n m.value f.now)) }
    ensures range { OnFault result (let m = R.meaning ring.now in IsImageHigh m n table.now size (poly_of n m.value f.now)) }
{
    for j in 0..size {
        let value = image(alloc, ring, n, table, f, j)?;
        if !ring.eq(value, ring.zero()) {
            return Ok(false);
        }
    }
    Ok(true)
}

/// True where the linear map of a table, which takes each monomial to the values of its row, is 0 in
/// the first `size` places at each of the multiples of the partials, cut at degree k.
///
/// Errors: `Range` only where the product of a coefficient and a value, or the sum of these products in
/// one place, has height 2^120 or more.
pub fn are_in_kernel<R: Ring>(
    alloc: Global,
    ring: &R,
    n: u8,
    k: u8,
    table: &[TableRow<R::Elem>],
    size: usize,
    partials: &[Items<(Exp, R::Elem)>],
    multiples: &[Multiple],
) -> Result<bool, Fault>
    requires ring { R.is_ring ring.now }
    requires at_most_8_variables { n ≤ 8 }
    requires order_at_most_17 { k ≤ 17 }
    requires values { AreValuesIn (R.meaning ring.now) table.now }
    requires partials { All (AreTermsIn (R.meaning ring.now) n) partials.now }
    requires unused { All (λ u. IsIn n u.factor.e) multiples.now }
    requires places { All (λ u. u.variable < length partials.now) multiples.now }
    ensures kernel { IfOk result (λ b. let m = R.meaning ring.now in IsTrue b
        ↔ AllByRecursion (IsMultipleInKernel m n table.now size k (list_at n m.value partials.now)) multiples.now) }
    ensures range { OnFault result (let m = R.meaning ring.now in AreImagesHigh m n table.now size k (list_at n m.value partials.now) multiples.now) }
{
    for u in multiples {
        let partial = partials[usize::from(u.variable)].as_slice();
        let f = shifted(alloc, ring, n, k, u.factor, partial)?;
        let inside = is_in_kernel(alloc, ring, n, table, size, &f)?;
        if !inside {
            return Ok(false);
        }
    }
    Ok(true)
}
