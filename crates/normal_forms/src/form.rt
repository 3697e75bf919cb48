//! Forms of families.

ghost use Rattle.std.specs.Prelude.{◌≡◌, ◌≤◌, ◌↔◌, ◌||◌, not, IsTrue, IsSome, IfSome, IfOk, All, ◌==◌, map, [], ◌∷◌};
ghost use Rattle.std.specs.List.{list_all, list_any};
ghost use Rattle.std.specs.Str.{bytes_eq};
ghost use Rattle.ring_law.specs.Refusals.{OnFault};
ghost use Rattle.jet_law.specs.Heights.{IsHigh};
ghost use Rattle.jet_poly.specs.Jets.{IsJet};
ghost use Rattle.normal_forms.specs.Families.{corank_of, sum_of};
ghost use Rattle.normal_forms.specs.Coefficients.{unit_values_in, unit_heights_in};
ghost use Rattle.normal_forms.specs.Monomials.{in_eight, is_one_of, is_residual};
ghost use Rattle.normal_forms.specs.Forms.{IsFormOf};

use crate::coefficient::{push_squares, sum_coefficients};
use crate::family::Family;
use crate::split::{is_residual_monomial, is_split};
use crate::sum::powers;
use crate::unit::values_of_units;
use jet_poly::{Jet, JetOf};
use mono_exp::Exp;
use ring_law::{Fault, Ring};
use std::alloc::Global;

/// The number of residual variables of a form of the family.
pub fn corank(family: Family) -> u8
    ensures { result ≡ corank_of family }
{
    match family {
        Family::A(m) => { if m == 1 { 0 } else { 1 } }
        Family::T(p, _, _) => { if p == 2 { 2 } else { 3 } }
        Family::P8
        | Family::Q10
        | Family::Q11
        | Family::Q12
        | Family::S11
        | Family::S12
        | Family::U12 => 3,
        _ => 2,
    }
}

// True for x^i y^k z^l.
fn is_power(m: Exp, exponents: [u8; 3]) -> bool
    ensures { result ≡ bytes_eq m.e (in_eight exponents).e }
{
    let [i, k, l] = exponents;
    m.e == [i, k, l, 0, 0, 0, 0, 0]
}

// True where the monomial is one of these.
fn is_one_of_powers(m: Exp, powers: &[[u8; 3]]) -> bool
    ensures { result ≡ list_any (λ e. bytes_eq m.e (in_eight e).e) powers.now }
{
    powers.iter().any(|e| is_power(m, *e))
}

// True where the monomial is one of the sum of A(number).
fn is_in_a(number: u8, m: Exp) -> bool
    ensures { result ≡ is_one_of (map in_eight (sum_of (Family.A number))) m }
{
    if number == 1 || number == 255 {
        return false;
    }
    is_one_of_powers(m, &[[number + 1, 0, 0]])
}

// True where the monomial is one of the sum of T(p,q,r).
fn is_in_t(p: u8, q: u8, r: u8, m: Exp) -> bool
    ensures { result ≡ is_one_of (map in_eight (sum_of (Family.T p q r))) m }
{
    if p != 2 {
        return is_one_of_powers(m, &[[1, 1, 1], [p, 0, 0], [0, q, 0], [0, 0, r]]);
    }
    if q == 3 {
        return is_one_of_powers(m, &[[3, 0, 0], [2, 2, 0], [0, r, 0]]);
    }
    if q == 4 {
        return is_one_of_powers(m, &[[4, 0, 0], [2, 2, 0], [0, r, 0]]);
    }
    is_one_of_powers(m, &[[2, 2, 0], [q, 0, 0], [0, r, 0]])
}

// True where the monomial is one of the family's sum.
fn is_in_sum(family: Family, m: Exp) -> bool
    ensures { result ≡ is_one_of (map in_eight (sum_of family)) m }
{
    match family {
        Family::A(number) => is_in_a(number, m),
        Family::D(number) => { is_one_of_powers(m, &[[2, 1, 0], [0, number.saturating_sub(1), 0]]) }
        Family::T(p, q, r) => is_in_t(p, q, r, m),
        _ => is_one_of_powers(m, powers(family)),
    }
}

// True where c is the family's corank.
fn is_corank(family: Family, c: u8) -> bool
    ensures { result ≡ (c == corank_of family) }
{
    c == corank(family)
}

// True where each monomial without square variables is one of the family's sum.
fn has_sum_alone<E>(family: Family, c: u8, terms: &[(Exp, E)]) -> bool
    ensures { result ≡ list_all (λ t. not (is_residual c t.0) || is_one_of (map in_eight (sum_of family)) t.0) terms.now }
{
    terms.iter().all(|t| !is_residual_monomial(c, t.0) || is_in_sum(family, t.0))
}

// True where terms in n variables, the first c of them residual, are a form of the family.
fn are_form<E>(family: Family, n: u8, c: u8, terms: &[(Exp, E)]) -> bool
    requires few { n ≤ 8 }
    ensures { IsTrue result ↔ IsFormOf family n c terms.now }
{
    is_corank(family, c) && is_split(n, c, terms) && has_sum_alone(family, c, terms)
}

/// True where the jet is a form of the family with this corank: the corank is the family's, each
/// monomial with a square variable is the square of one, all these squares occur, and each other
/// monomial is one of the family's sum. The unit values of the form are not tested.
pub fn has_form<E>(family: Family, corank: u8, f: &Jet<E>) -> bool
    requires at_most_8_variables { f.now.n ≤ 8 }
    ensures { IsTrue result ↔ IsFormOf family f.now.n corank f.now.terms }
{
    are_form(family, f.n(), corank, f.terms())
}

/// The values that must be units in a form of the family with this corank, in the order of the list
/// of families, and then the coefficients of its squares; `None` where the jet is no such form.
///
/// The values: of X9 `I^3 - 27*J^2`; of J10 the coefficient of `x^3` and `4*c2^3 + 27*c1*c3^2`; of
/// P8 none; of an exceptional family all coefficients but that of the modulus monomial; of the
/// others all coefficients. They are not tested.
///
/// Errors: `Range` only where a number that the formula of X9 or J10 forms has height 2^120 or more.
pub fn is_form<R: Ring>(
    alloc: Global,
    ring: &R,
    family: Family,
    corank: u8,
    f: &JetOf<R>,
) -> Result<Option<Vec<R::Elem>>, Fault>
    requires ring { R.is_ring ring.now }
    requires jet { IsJet (R.meaning ring.now) f.now }
    requires at_most_8_variables { f.now.n ≤ 8 }
    requires order_at_most_17 { f.now.order ≤ 17 }
    ensures form { IfOk result (λ o. IsSome o ↔ IsFormOf family f.now.n corank f.now.terms) }
    ensures elems { IfOk result (λ o. IfSome o (λ v. All (R.meaning ring.now).is_elem v.items)) }
    ensures values { IfOk result (λ o. IfSome o (λ v. let m = R.meaning ring.now in
        map m.value v.items ≡ unit_values_in m family f.now.n corank f.now.terms)) }
    ensures range { OnFault result (let m = R.meaning ring.now in IsHigh (unit_heights_in m family corank f.now.terms)) }
{
    if !has_form(family, corank, f) {
        return Ok(None);
    }
    let coefs = sum_coefficients(alloc, ring, family, f)?;
    let mut values = values_of_units(alloc, ring, family, coefs)?;
    push_squares(ring, &mut values, corank, f)?;
    Ok(Some(values))
}
