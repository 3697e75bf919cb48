//! The partial derivatives of a jet, with a term for each term of the jet.

ghost use Rattle.std.specs.Prelude.{◌≡◌, ℕ, ◌<◌, ◌≤◌, ◌-◌, All, IfOk, get_or, slice_set};
ghost use Rattle.ring_law.specs.Refusals.{OnFault};
ghost use Rattle.poly_law.specs.Exps.{lower};
ghost use Rattle.poly_law.specs.ExpList.{exps};
ghost use Rattle.mono_exp.specs.Exponents.{IsIn};
ghost use Rattle.jet_law.specs.Heights.{IsHigh, derivative_heights};
ghost use Rattle.jet_law.specs.Terms.{exp_of, poly_of};
ghost use Rattle.jet_poly.specs.Jets.{IsJet, polynomial_of, whole};
ghost use Rattle.jacobian_row.specs.Rows.{IsPartialHigh};
ghost use Rattle.check_rows.specs.Lists.{IsPartialList, ArePartialLists};

use jet_poly::JetOf;
use mono_exp::Exp;
use ring_law::{Fault, Frac, Ring};
use sqlite_items::Items;
use std::alloc::Global;

/// A whole number as an element of the ring.
fn whole_number<R: Ring>(ring: &R, k: u8) -> R::Elem
    requires { R.is_ring ring.now }
    ensures elem { (R.meaning ring.now).is_elem result }
    ensures value { let m = R.meaning ring.now in m.value result ≡ whole m.scalars k }
{
    ring.inject(Frac {
        num: i128::from(k),
        den: 1,
    })
}

/// The monomial with one less at variable i, where it has that variable.
fn lowered(a: Exp, i: u8) -> Exp
    requires within { i < 8 }
    ensures exponents { result.e ≡ slice_set a.e i (get_or a.e i 0 - 1) }
    ensures lower { (n : ℕ) → exp_of n result ≡ lower (exps n) i (exp_of n a) }
{
    let mut e = a.e;
    e[usize::from(i)] = e[usize::from(i)].saturating_sub(1);
    Exp { e }
}

/// The partial derivative of terms in variable i, a term for each term.
fn partial_list<R: Ring>(
    alloc: Global,
    ring: &R,
    n: u8,
    terms: &[(Exp, R::Elem)],
    i: u8,
) -> Result<Items<(Exp, R::Elem)>, Fault>
    requires ring { R.is_ring ring.now }
    requires at_most_8_variables { n ≤ 8 }
    requires variable { i < n }
    requires elems { All (λ t. (R.meaning ring.now).is_elem t.1) terms.now }
    requires variables { All (λ t. IsIn n t.0.e) terms.now }
    ensures list { IfOk result (let m = R.meaning ring.now in IsPartialList m n (poly_of n m.value terms.now) i) }
    ensures range { OnFault result (let m = R.meaning ring.now in IsHigh (derivative_heights (exps n) m.scalars i (poly_of n m.value terms.now))) }
{
    let mut list = Vec::new(alloc);
    for t in terms {
        let c = ring.mul(whole_number(ring, t.0.e[usize::from(i)]), t.1)?;
        list.push((lowered(t.0, i), c))?;
    }
    Ok(Items::from_vec(list))
}

/// The partial derivatives of a jet, in the order of the variables, each with a term for each term
/// of the jet.
///
/// Errors: `Range` only where the product of an exponent and its coefficient has height 2^120 or more.
pub fn partial_lists<R: Ring>(
    alloc: Global,
    ring: &R,
    g: &JetOf<R>,
) -> Result<Vec<Items<(Exp, R::Elem)>>, Fault>
    requires ring { R.is_ring ring.now }
    requires jet { IsJet (R.meaning ring.now) g.now }
    requires at_most_8_variables { g.now.n ≤ 8 }
    ensures partials { IfOk result (λ v. let m = R.meaning ring.now in ArePartialLists m g.now.n (polynomial_of m g.now) v.items) }
    ensures range { OnFault result (let m = R.meaning ring.now in IsPartialHigh g.now.n m.scalars (polynomial_of m g.now)) }
{
    let mut all = Vec::new(alloc);
    for variable in 0..g.n() {
        let partial = partial_list(alloc, ring, g.n(), g.terms(), variable)?;
        all.push(partial)?;
    }
    Ok(all)
}
