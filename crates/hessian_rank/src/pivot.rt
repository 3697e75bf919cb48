//! Which squares and products stand in a quadratic form.

ghost use Rattle.std.specs.Prelude.{◌≡◌, ◌+◌, ◌<◌, ◌≤◌, All, map, length, get_or, drop};
ghost use Rattle.jet_law.specs.Terms.{poly_of};
ghost use Rattle.jet_poly.specs.Jets.{IsJet};
ghost use Rattle.coord_change.specs.Moves.{at};
ghost use Rattle.move_law.specs.Moves.{is_there, pair_exponents};
ghost use Rattle.move_law.specs.Hessian.{pairs};
ghost use Rattle.kill_law.specs.Kill.{first};

use coord_change::monomial;
use jet_poly::{JetOf, coef};
use mono_exp::Exp;
use ring_law::Ring;

/// The coefficient of x(i) x(j).
pub(crate) fn entry<R: Ring>(ring: &R, form: &JetOf<R>, i: u8, j: u8) -> R::Elem
    requires ring { R.is_ring ring.now }
    requires jet { IsJet (R.meaning ring.now) form.now }
    requires at_most_8_variables { form.now.n ≤ 8 }
    requires first { i < form.now.n }
    requires second { j < form.now.n }
    ensures elem { (R.meaning ring.now).is_elem result }
    ensures value { let m = R.meaning ring.now in let n = form.now.n in m.value result ≡ at n m.scalars (poly_of n m.value form.now.terms) (pair_exponents n i j) }
{
    let mut e = monomial(usize::from(i)).e;
    e[usize::from(j)] += 1;
    coef(ring, form, Exp { e })
}

/// True where the coefficient of x(i) x(j) is not 0.
fn has_entry<R: Ring>(ring: &R, form: &JetOf<R>, i: u8, j: u8) -> bool
    requires ring { R.is_ring ring.now }
    requires jet { IsJet (R.meaning ring.now) form.now }
    requires at_most_8_variables { form.now.n ≤ 8 }
    requires first { i < form.now.n }
    requires second { j < form.now.n }
    ensures { let m = R.meaning ring.now in let n = form.now.n in result ≡ is_there n m.scalars (poly_of n m.value form.now.terms) (pair_exponents n i j) }
{
    !ring.eq(entry(ring, form, i, j), ring.zero())
}

/// The first of these variables with a square.
pub(crate) fn first_square<R: Ring>(ring: &R, form: &JetOf<R>, opened: &[u8]) -> Option<u8>
    requires ring { R.is_ring ring.now }
    requires jet { IsJet (R.meaning ring.now) form.now }
    requires at_most_8_variables { form.now.n ≤ 8 }
    requires inside { All (λ i. i < form.now.n) opened.now }
    ensures { let m = R.meaning ring.now in let n = form.now.n in result ≡ first (λ i. is_there n m.scalars (poly_of n m.value form.now.terms) (pair_exponents n i i)) opened.now }
{
    for i in opened {
        if has_entry(ring, form, *i, *i) {
            return Some(*i);
        }
    }
    None
}

/// The pair of the variable at a place and the first of the later ones with a product.
fn first_partner<R: Ring>(ring: &R, form: &JetOf<R>, opened: &[u8], at: usize) -> Option<(u8, u8)>
    requires ring { R.is_ring ring.now }
    requires jet { IsJet (R.meaning ring.now) form.now }
    requires at_most_8_variables { form.now.n ≤ 8 }
    requires inside { All (λ i. i < form.now.n) opened.now }
    requires place { at < length opened.now }
    ensures { let m = R.meaning ring.now in let n = form.now.n in
        result ≡ first (λ p. is_there n m.scalars (poly_of n m.value form.now.terms) (pair_exponents n p.0 p.1)) (map (λ j. (get_or opened.now at 0, j)) (drop (at + 1) opened.now)) }
{
    for k in at + 1..opened.len() {
        if has_entry(ring, form, opened[at], opened[k]) {
            return Some((opened[at], opened[k]));
        }
    }
    None
}

/// The first pair of a variable and a later one with a product.
pub(crate) fn first_pair<R: Ring>(ring: &R, form: &JetOf<R>, opened: &[u8]) -> Option<(u8, u8)>
    requires ring { R.is_ring ring.now }
    requires jet { IsJet (R.meaning ring.now) form.now }
    requires at_most_8_variables { form.now.n ≤ 8 }
    requires inside { All (λ i. i < form.now.n) opened.now }
    ensures { let m = R.meaning ring.now in let n = form.now.n in
        result ≡ first (λ p. is_there n m.scalars (poly_of n m.value form.now.terms) (pair_exponents n p.0 p.1)) (pairs opened.now) }
{
    for at in 0..opened.len() {
        if let Some(pair) = first_partner(ring, form, opened, at) {
            return Some(pair);
        }
    }
    None
}
