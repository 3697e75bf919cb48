//! Combinations of polynomials: all products of terms, summed by monomial.

ghost use Rattle.std.specs.Prelude.{◌≡◌, ◌≤◌, ◌++◌, [], ◌∷◌, All, IfOk, OnOk, length};
ghost use Rattle.ring_law.specs.Refusals.{OnFault};
ghost use Rattle.poly_law.specs.Exps.{plus};
ghost use Rattle.poly_law.specs.ExpList.{exps};
ghost use Rattle.poly_law.specs.Poly.{times_term};
ghost use Rattle.poly_law.specs.Polynomials.{SameIn, times_in, cut_in};
ghost use Rattle.mono_exp.specs.Exponents.{IsIn};
ghost use Rattle.jet_law.specs.Heights.{IsHigh, products_heights};
ghost use Rattle.jet_law.specs.Terms.{exp_of, poly_of};
ghost use Rattle.jet_poly.specs.Jets.{IsJet};
ghost use Rattle.jacobian_row.specs.Rows.{IsJetIn, polynomial_at};
ghost use Rattle.check_rows.specs.Lists.{AreTermsIn, list_at};
ghost use Rattle.check_rows.specs.Products.{multiple_heights, IsPairHigh, sum_of_products, IsProductHigh, AreProductsHigh};

use jet_poly::{JetOf, from_terms};
use mono_exp::{Exp, degree, times};
use ring_law::{Fault, Ring};
use sqlite_items::Items;
use std::alloc::Global;

/// Adds the product of two terms, unless its degree is above k.
fn add_product<R: Ring>(
    ring: &R,
    n: u8,
    k: u8,
    all: &mut Vec<(Exp, R::Elem)>,
    u: (Exp, R::Elem),
    t: (Exp, R::Elem),
) -> Result<(), Fault>
    requires ring { R.is_ring ring.now }
    requires at_most_8_variables { n ≤ 8 }
    requires order_at_most_17 { k ≤ 17 }
    requires u_elem { (R.meaning ring.now).is_elem u.1 }
    requires u_variables { IsIn n u.0.e }
    requires t_elem { (R.meaning ring.now).is_elem t.1 }
    requires t_variables { IsIn n t.0.e }
    requires valid { AreTermsIn (R.meaning ring.now) n all.old.items }
    ensures valid { OnOk result (AreTermsIn (R.meaning ring.now) n all.new.items) }
    ensures product { OnOk result (let m = R.meaning ring.now in poly_of n m.value all.new.items
        ≡ poly_of n m.value all.old.items ++ cut_in n m.scalars.ops k ((plus (exps n) (exp_of n u.0) (exp_of n t.0), m.scalars.ops.mul (m.value u.1) (m.value t.1)) ∷ [])) }
    ensures range { OnFault result (let m = R.meaning ring.now in IsPairHigh n m.scalars k (exp_of n u.0, m.value u.1) (exp_of n t.0, m.value t.1)) }
{
    if degree(u.0) + degree(t.0) > u16::from(k) {
        return Ok(());
    }
    let monomial = times(u.0, t.0).unwrap();
    let c = ring.mul(u.1, t.1)?;
    all.push((monomial, c))?;
    Ok(())
}

/// Adds the products of the term u and the terms of h, of degree at most k.
fn add_multiple<R: Ring>(
    ring: &R,
    n: u8,
    k: u8,
    all: &mut Vec<(Exp, R::Elem)>,
    u: (Exp, R::Elem),
    h: &[(Exp, R::Elem)],
) -> Result<(), Fault>
    requires ring { R.is_ring ring.now }
    requires at_most_8_variables { n ≤ 8 }
    requires order_at_most_17 { k ≤ 17 }
    requires elem { (R.meaning ring.now).is_elem u.1 }
    requires variables { IsIn n u.0.e }
    requires terms { AreTermsIn (R.meaning ring.now) n h.now }
    requires valid { AreTermsIn (R.meaning ring.now) n all.old.items }
    ensures valid { OnOk result (AreTermsIn (R.meaning ring.now) n all.new.items) }
    ensures products { OnOk result (let m = R.meaning ring.now in poly_of n m.value all.new.items
        ≡ poly_of n m.value all.old.items ++ cut_in n m.scalars.ops k (times_term (exps n) m.scalars.ops (exp_of n u.0, m.value u.1) (poly_of n m.value h.now))) }
    ensures range { OnFault result (let m = R.meaning ring.now in IsHigh (multiple_heights n m.scalars k (exp_of n u.0, m.value u.1) (poly_of n m.value h.now))) }
{
    for t in h {
        add_product(ring, n, k, all, u, *t)?;
    }
    Ok(())
}

/// Adds the products of the terms of f and the terms of h, of degree at most k.
fn add_products<R: Ring>(
    ring: &R,
    n: u8,
    k: u8,
    all: &mut Vec<(Exp, R::Elem)>,
    f: &[(Exp, R::Elem)],
    h: &[(Exp, R::Elem)],
) -> Result<(), Fault>
    requires ring { R.is_ring ring.now }
    requires at_most_8_variables { n ≤ 8 }
    requires order_at_most_17 { k ≤ 17 }
    requires elems { All (λ t. (R.meaning ring.now).is_elem t.1) f.now }
    requires variables { All (λ t. IsIn n t.0.e) f.now }
    requires terms { AreTermsIn (R.meaning ring.now) n h.now }
    requires valid { AreTermsIn (R.meaning ring.now) n all.old.items }
    ensures valid { OnOk result (AreTermsIn (R.meaning ring.now) n all.new.items) }
    ensures products { OnOk result (let m = R.meaning ring.now in poly_of n m.value all.new.items
        ≡ poly_of n m.value all.old.items ++ cut_in n m.scalars.ops k (times_in n m.scalars.ops (poly_of n m.value f.now) (poly_of n m.value h.now))) }
    ensures range { OnFault result (let m = R.meaning ring.now in IsHigh (products_heights (exps n) m.scalars k (poly_of n m.value f.now) (poly_of n m.value h.now))) }
{
    for u in f {
        add_multiple(ring, n, k, all, *u, h)?;
    }
    Ok(())
}

/// All products of a term of a multiplier and a term of its partial, of degree at most k.
fn products<R: Ring>(
    alloc: Global,
    ring: &R,
    n: u8,
    k: u8,
    multipliers: &[JetOf<R>],
    partials: &[Items<(Exp, R::Elem)>],
) -> Result<Vec<(Exp, R::Elem)>, Fault>
    requires ring { R.is_ring ring.now }
    requires at_most_8_variables { n ≤ 8 }
    requires order_at_most_17 { k ≤ 17 }
    requires one_each { length multipliers.now ≡ n }
    requires count { length partials.now ≡ n }
    requires jets { All (IsJetIn (R.meaning ring.now) n) multipliers.now }
    requires terms { All (AreTermsIn (R.meaning ring.now) n) partials.now }
    ensures valid { IfOk result (λ v. AreTermsIn (R.meaning ring.now) n v.items) }
    ensures products { IfOk result (λ v. let m = R.meaning ring.now in poly_of n m.value v.items
        ≡ cut_in n m.scalars.ops k (sum_of_products n m.scalars.ops (polynomial_at n m.value multipliers.now) (list_at n m.value partials.now))) }
    ensures range { OnFault result (let m = R.meaning ring.now in IsProductHigh n m.scalars k (polynomial_at n m.value multipliers.now) (list_at n m.value partials.now)) }
{
    let mut all = Vec::new(alloc);
    for i in 0..usize::from(n) {
        add_products(
            ring,
            n,
            k,
            &mut all,
            multipliers[i].terms(),
            partials[i].as_slice(),
        )?;
    }
    Ok(all)
}

/// The sum of the products of the multipliers and the partials, variable by variable, cut at degree k.
///
/// Errors: `Range` only where a product of two terms of degree at most k, or the sum of all products at a monomial, has height 2^120 or more.
pub fn combination<R: Ring>(
    alloc: Global,
    ring: &R,
    n: u8,
    k: u8,
    multipliers: &[JetOf<R>],
    partials: &[Items<(Exp, R::Elem)>],
) -> Result<JetOf<R>, Fault>
    requires ring { R.is_ring ring.now }
    requires at_most_8_variables { n ≤ 8 }
    requires order_at_most_17 { k ≤ 17 }
    requires one_each { length multipliers.now ≡ n }
    requires count { length partials.now ≡ n }
    requires jets { All (IsJetIn (R.meaning ring.now) n) multipliers.now }
    requires terms { All (AreTermsIn (R.meaning ring.now) n) partials.now }
    ensures jet { IfOk result (IsJet (R.meaning ring.now)) }
    ensures n { IfOk result (λ h. h.n ≡ n) }
    ensures order { IfOk result (λ h. h.order ≡ k) }
    ensures sum { IfOk result (λ h. let m = R.meaning ring.now in SameIn n m.scalars.ops (poly_of n m.value h.terms)
        (cut_in n m.scalars.ops k (sum_of_products n m.scalars.ops (polynomial_at n m.value multipliers.now) (list_at n m.value partials.now)))) }
    ensures range { OnFault result (let m = R.meaning ring.now in AreProductsHigh n m.scalars k (polynomial_at n m.value multipliers.now) (list_at n m.value partials.now)) }
{
    let all = products(alloc, ring, n, k, multipliers, partials)?;
    from_terms(alloc, ring, n, k, &all)
}
