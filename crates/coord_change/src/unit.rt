//! The identity.

ghost use Rattle.std.specs.Prelude.{◌≡◌, ℕ, ◌<◌, ◌≤◌, IfOk};
ghost use Rattle.poly_law.specs.ExpList.{exps};
ghost use Rattle.poly_law.specs.Exps.{variable as variable_of};
ghost use Rattle.poly_law.specs.Polynomials.{term_in};
ghost use Rattle.ring_law.specs.Refusals.{OnFault};
ghost use Rattle.jet_law.specs.Terms.{poly_of};
ghost use Rattle.jet_poly.specs.Jets.{IsJet};
ghost use Rattle.jet_subst.specs.Parts.{part_of};
ghost use Rattle.coord_change.specs.Changes.{IsChange};
ghost use Rattle.coord_change.specs.Linear.{one_at};

use crate::change::{Change, ChangeOf};
use crate::matrix::unit_matrix;
use jet_poly::{Jet, JetOf};
use mono_exp::Exp;
use ring_law::{Fault, Ring};
use sqlite_items::Items;
use std::alloc::Global;

/// The monomial that is variable i.
pub fn monomial(i: usize) -> Exp
    requires { i < 8 }
    ensures { result.e ≡ one_at i }
{
    let mut e = [0; 8];
    e[i] = 1;
    Exp { e }
}

/// The jet of variable i.
fn variable<R: Ring>(alloc: Global, ring: &R, n: u8, order: u8, i: u8) -> Result<JetOf<R>, Fault>
    requires ring { R.is_ring ring.now }
    requires inside { i < n }
    requires at_most_8_variables { n ≤ 8 }
    requires order_at_least_1 { 1 ≤ order }
    ensures jet { IfOk result (IsJet (R.meaning ring.now)) }
    ensures n { IfOk result (λ p. p.n ≡ n) }
    ensures order { IfOk result (λ p. p.order ≡ order) }
    ensures value { IfOk result (λ p. let m = R.meaning ring.now in poly_of n m.value p.terms ≡ term_in n m.scalars.ops (variable_of (exps n) i)) }
    ensures range { OnFault result ⊥ }
{
    let mut terms = Vec::new(alloc);
    terms.push((monomial(usize::from(i)), ring.one()))?;
    Ok(Jet::from_rising(n, order, terms))
}

/// The identity in n variables: part i is variable i, and the matrix is the identity.
pub fn identity<R: Ring>(alloc: Global, ring: &R, n: u8, order: u8) -> Result<ChangeOf<R>, Fault>
    requires ring { R.is_ring ring.now }
    requires given { 0 < n }
    requires at_most_8_variables { n ≤ 8 }
    requires order_at_least_1 { 1 ≤ order }
    requires order_at_most_17 { order ≤ 17 }
    ensures change { IfOk result (IsChange (R.meaning ring.now)) }
    ensures n { IfOk result (λ c. c.n ≡ n) }
    ensures order { IfOk result (λ c. c.order ≡ order) }
    ensures parts { IfOk result (λ c. let m = R.meaning ring.now in (i : ℕ) → i < n → part_of n m.value c.parts i ≡ term_in n m.scalars.ops (variable_of (exps n) i)) }
    ensures range { OnFault result ⊥ }
{
    let mut parts = Vec::new(alloc);
    for i in 0..n {
        let part = variable(alloc, ring, n, order, i)?;
        parts.push(part)?;
    }
    let inverse = unit_matrix(alloc, ring, n)?;
    Ok(Change {
        n,
        order,
        parts: Items::from_vec(parts),
        inverse: Items::from_vec(inverse),
    })
}
