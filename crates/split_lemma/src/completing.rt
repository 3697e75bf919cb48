//! What the split move of a degree puts for one square variable.

ghost use Rattle.std.specs.Prelude.{◌≡◌, ◌≢◌, ℕ, ◌<◌, ◌≤◌, [], ◌∷◌, ◌++◌, get_or, slice_set, ◌-◌, true, false, IfOk, MatchOption};
ghost use Rattle.mono_exp.specs.Exponents.{IsIn};
ghost use Rattle.jet_law.specs.Terms.{exp_of, poly_of};
ghost use Rattle.jet_poly.specs.Jets.{IsJet, whole};
ghost use Rattle.ring_law.specs.Refusals.{OnFault, OnRange};
ghost use Rattle.coord_change.specs.Moves.{variable_of};
ghost use Rattle.move_law.specs.Split.{belongs_to, half_inverse as half_inverse_of, completed};
ghost use Rattle.move_law.specs.Work.{product, inverse};
ghost use Rattle.split_lemma.specs.Splits.{AreTermsOf, AnyHigh, completing_work};

use coord_change::monomial;
use jet_poly::JetOf;
use mono_exp::{Exp, degree};
use ring_law::{Fault, Field, Frac, Range};
use std::alloc::Global;

/// The quotient of a monomial by x(w), where the monomial has degree d and w is its first square
/// variable, the square variables being those from the corank on; else `None`.
fn belonging_quotient(corank: u8, d: u8, w: u8, a: Exp) -> Option<Exp>
    requires place { w < 8 }
    ensures { (n : ℕ) → w < n → IsIn n a.e → MatchOption result (belongs_to n corank d w (exp_of n a) ≡ false)
        (λ q. (belongs_to n corank d w (exp_of n a) ≡ true) × (q.e ≡ slice_set a.e w (get_or a.e w 0 - 1))) }
{
    for i in 0..w {
        if i >= corank && a.e[usize::from(i)] != 0 {
            return None;
        }
    }
    if degree(a) != u16::from(d) {
        return None;
    }
    if a.e[usize::from(w)] == 0 {
        return None;
    }
    let mut e = a.e;
    e[usize::from(w)] -= 1;
    Some(Exp { e })
}

/// The inverse of twice a number that is not zero.
fn half_inverse<F: Field>(field: &F, a: F::Elem) -> Result<F::Elem, Range>
    requires ring { F.is_ring field.now }
    requires elem { (F.meaning field.now).is_elem a }
    requires unit { (F.meaning field.now).value a ≢ (F.meaning field.now).scalars.ops.zero }
    ensures elem { IfOk result (F.meaning field.now).is_elem }
    ensures value { IfOk result (λ x. let m = F.meaning field.now in m.value x ≡ half_inverse_of m.scalars (m.value a)) }
    ensures range { OnRange result (let m = F.meaning field.now in
        AnyHigh 0 m.scalars (product (whole m.scalars 2) (m.value a) ∷ inverse (m.scalars.ops.mul (whole m.scalars 2) (m.value a)) ∷ [])) }
{
    let two = field.inject(Frac { num: 2, den: 1 });
    let double = field.mul(two, a)?;
    match field.inv(double)? {
        Some(x) => Ok(x),
        None => unreachable!(),
    }
}

/// The terms of x(w) less the sum over the terms of degree d of f that belong to w, each with its
/// coefficient times (monomial / w) / (2 s), s the coefficient of the square of x(w). They stand
/// in the monomial order.
pub(crate) fn completed_terms<F: Field>(
    alloc: Global,
    field: &F,
    f: &JetOf<F>,
    square: F::Elem,
    corank: u8,
    d: u8,
    w: u8,
) -> Result<Vec<(Exp, F::Elem)>, Fault>
    requires ring { F.is_ring field.now }
    requires jet { IsJet (F.meaning field.now) f.now }
    requires at_most_8_variables { f.now.n ≤ 8 }
    requires order_at_most_16 { f.now.order ≤ 16 }
    requires inside { w < f.now.n }
    requires elem { (F.meaning field.now).is_elem square }
    requires unit { (F.meaning field.now).value square ≢ (F.meaning field.now).scalars.ops.zero }
    requires degree_at_least_3 { 3 ≤ d }
    ensures terms { IfOk result (λ v. let m = F.meaning field.now in let n = f.now.n in
        AreTermsOf m n 16 (variable_of n m.scalars w ++ completed n m.scalars corank d (m.value square) w (poly_of n m.value f.now.terms)) v.items) }
    ensures range { OnFault result (let m = F.meaning field.now in let n = f.now.n in
        AnyHigh n m.scalars (completing_work n m.scalars corank d (m.value square) w (poly_of n m.value f.now.terms))) }
{
    let inverse = half_inverse(field, square)?;
    let mut part = Vec::new(alloc);
    part.push((monomial(usize::from(w)), field.one()))?;
    for t in f.terms() {
        if let Some(quotient) = belonging_quotient(corank, d, w, t.0) {
            let product = field.mul(t.1, inverse)?;
            part.push((quotient, field.neg(product)))?;
        }
    }
    Ok(part)
}
