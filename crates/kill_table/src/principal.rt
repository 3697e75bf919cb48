//! The kill moves of principal parts.

ghost use Rattle.std.specs.Prelude.{◌≡◌, ℕ, ◌<◌, ◌≤◌, [], ◌∷◌, IfOk, length, map, get_or};
ghost use Rattle.poly_law.specs.Polynomials.{coefficient_in};
ghost use Rattle.jet_law.specs.Canonical.{monomial_in};
ghost use Rattle.ring_law.specs.Refusals.{OnFault};
ghost use Rattle.jet_law.specs.Terms.{poly_of};
ghost use Rattle.jet_poly.specs.Jets.{IsJet};
ghost use Rattle.kill_law.specs.Table.{row};
ghost use Rattle.kill_law.specs.Kill.{letters_of};
ghost use Rattle.kill_law.specs.Taken.{kill_move};
ghost use Rattle.kill_table.specs.Divisors.{HasNonzeroDivisors};
ghost use Rattle.kill_table.specs.Moves.{IsMoveTo, IsMoveHigh};

use crate::moves::move_of;
use coord_change::ChangeOf;
use jet_poly::{JetOf, coef};
use kill_law::Part;
use kill_leads::{form, monomial};
use ring_law::{Fault, Field, Ring};
use std::alloc::{AllocFailed, Global};

/// A principal part with the coefficients of its form by its letters; a letter that the part does
/// not have is zero.
#[derive(Clone, Copy, Debug)]
pub struct Principal<E> {
    pub part: Part,
    pub a: E,
    pub b: E,
    pub c: E,
}

/// Three letters.
fn three<E: Copy>(alloc: Global, a: E, b: E, c: E) -> Result<Vec<E>, AllocFailed<E>>
    ensures { IfOk result (λ v. v.items ≡ a ∷ b ∷ c ∷ []) }
{
    let mut letters = Vec::new(alloc);
    letters.push(a)?;
    letters.push(b)?;
    letters.push(c)?;
    Ok(letters)
}

/// The letter of a part with number i, as g has it: the coefficient at monomial i of the form.
pub fn letter<R: Ring>(ring: &R, part: Part, g: &JetOf<R>, i: usize) -> R::Elem
    requires ring { R.is_ring ring.now }
    requires jet { IsJet (R.meaning ring.now) g.now }
    requires of_part { length (row part).weights ≤ g.now.n }
    requires at_most_8_variables { g.now.n ≤ 8 }
    ensures elem { (R.meaning ring.now).is_elem result }
    ensures value { let m = R.meaning ring.now in let n = g.now.n in m.value result
        ≡ get_or (map (λ e. coefficient_in n m.scalars.ops (poly_of n m.value g.now.terms) (monomial_in n e)) (row part).form) i m.scalars.ops.zero }
{
    match form(part).get(i) {
        Some(e) => coef(ring, g, monomial(*e)),
        None => ring.zero(),
    }
}

/// The kill move of a grade of a principal part for the terms of g, in n variables and of order 16:
/// each variable of the part less what is taken from it, all at once; the others stay.
///
/// Errors: `Range` only where a number that the reduction of the terms of the grade, a sum of what
/// is put for a variable, or the inverse of the linear part forms has height 2^120 or more.
pub fn kill_at<F: Field>(
    alloc: Global,
    field: &F,
    p: &Principal<F::Elem>,
    g: &JetOf<F>,
    n: u8,
    grade: u8,
) -> Result<ChangeOf<F>, Fault>
    requires ring { F.is_ring field.now }
    requires a { (F.meaning field.now).is_elem p.now.a }
    requires b { (F.meaning field.now).is_elem p.now.b }
    requires c { (F.meaning field.now).is_elem p.now.c }
    requires divisors { let m = F.meaning field.now in HasNonzeroDivisors m.scalars (m.value p.now.a ∷ m.value p.now.b ∷ m.value p.now.c ∷ []) p.now.part }
    requires jet { IsJet (F.meaning field.now) g.now }
    requires variables { g.now.n ≤ n }
    requires of_part { length (row p.now.part).weights ≤ n }
    requires at_most_8_variables { n ≤ 8 }
    requires above { (row p.now.part).degree < grade }
    ensures change { IfOk result (let m = F.meaning field.now in
        IsMoveTo m n 16 (kill_move n m.scalars (m.value p.now.a ∷ m.value p.now.b ∷ m.value p.now.c ∷ []) p.now.part grade (poly_of n m.value g.now.terms))) }
    ensures range { OnFault result (let m = F.meaning field.now in
        IsMoveHigh m.scalars (m.value p.now.a ∷ m.value p.now.b ∷ m.value p.now.c ∷ []) p.now.part n grade (poly_of n m.value g.now.terms)) }
{
    let letters = three(alloc, p.a, p.b, p.c)?;
    move_of(alloc, field, p.part, &letters, n, grade, g.terms())
}

/// The kill move of a grade of a part for the terms of g, in the variables of g and of order 16,
/// with the letters that g has: its coefficients at the monomials of the part's form. Where the part
/// has the weights 1, the grade is the degree.
///
/// Errors: `Range` only where a number that the reduction of the terms of the grade, a sum of what
/// is put for a variable, or the inverse of the linear part forms has height 2^120 or more.
pub fn kill<F: Field>(
    alloc: Global,
    field: &F,
    part: Part,
    g: &JetOf<F>,
    grade: u8,
) -> Result<ChangeOf<F>, Fault>
    requires ring { F.is_ring field.now }
    requires divisors { let m = F.meaning field.now in let n = g.now.n in let f = poly_of n m.value g.now.terms in
        HasNonzeroDivisors m.scalars (letters_of n m.scalars part f) part }
    requires jet { IsJet (F.meaning field.now) g.now }
    requires of_part { length (row part).weights ≤ g.now.n }
    requires at_most_8_variables { g.now.n ≤ 8 }
    requires above { (row part).degree < grade }
    ensures change { IfOk result (let m = F.meaning field.now in let n = g.now.n in let f = poly_of n m.value g.now.terms in
        IsMoveTo m n 16 (kill_move n m.scalars (letters_of n m.scalars part f) part grade f)) }
    ensures range { OnFault result (let m = F.meaning field.now in let n = g.now.n in let f = poly_of n m.value g.now.terms in
        IsMoveHigh m.scalars (letters_of n m.scalars part f) part n grade f) }
{
    let a = letter(field, part, g, 0);
    let b = letter(field, part, g, 1);
    let c = letter(field, part, g, 2);
    let letters = three(alloc, a, b, c)?;
    move_of(alloc, field, part, &letters, g.n(), grade, g.terms())
}
