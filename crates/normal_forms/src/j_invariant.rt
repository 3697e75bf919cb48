//! The modulus of a form, by its coefficients.

ghost use Rattle.std.specs.Prelude.{◌≡◌, ◌≢◌, ◌∷◌, [], ◌++◌, pos, IfOk, All, length, map};
ghost use Rattle.ring_theory.specs.Rational.{rational, rational_mul, rational_inv};
ghost use Rattle.ring_theory.specs.Height.{rational_scalars};
ghost use Rattle.ring_law.specs.Fraction.{IsFrac, frac_value};
ghost use Rattle.ring_law.specs.Refusals.{OnRange};
ghost use Rattle.ring_formula.specs.Formulas.{formula_value};
ghost use Rattle.jet_law.specs.Heights.{IsHigh};
ghost use Rattle.ext_algebra.specs.declared.algebra.Algebra.{Algebra};
ghost use Rattle.ext_algebra.specs.declared.algebra.Algebra.TheVariants as algebra;
ghost use Rattle.ext_algebra.specs.Algebra.{IsElement, value_in};
ghost use Rattle.normal_forms.specs.Families.{sum_of, kind_of};
ghost use Rattle.normal_forms.specs.Units.{quartic_i, quartic_discriminant, triple_discriminant, quartic_heights, triple_heights, at, quotient_heights, modulus_heights, AreRational, IsNondegenerate, IsModulus, IsValidModulus};

use crate::family::Family;
use crate::invariant::{
    QUARTIC_NUMERATOR, TRIPLE_NUMERATOR, quartic_i_and_discriminant, triple_discriminant_of,
};
use crate::kind::{Kind, family_kind};
use crate::modulus_line::ModulusLine;
use ext_algebra::Ext;
use ring_formula::{Summand, evaluate};
use ring_law::{Frac, Range, Ring};
use small_frac::{Rationals, inv};

// The value of the numerator at its one letter, over the discriminant.
fn quotient(numerator: &[Summand], letter: Frac, discriminant: Frac) -> Result<Frac, Range>
    requires letter { IsFrac letter }
    requires discriminant { IsFrac discriminant }
    requires nonzero { frac_value discriminant ≢ rational (pos 0) 1 }
    ensures elem { IfOk result IsFrac }
    ensures value { IfOk result (λ q. frac_value q
        ≡ rational_mul (formula_value rational_scalars (frac_value letter ∷ []) numerator.now) (rational_inv (frac_value discriminant))) }
    ensures range { OnRange result (IsHigh (quotient_heights numerator.now (frac_value letter) (frac_value discriminant))) }
{
    let top = evaluate(&Rationals, numerator, &[letter])?;
    Rationals.mul(top, inv(discriminant).unwrap())
}

// 1728*I^3 over the discriminant of a quartic.
fn j_of_quartic(q: &[Frac]) -> Result<Frac, Range>
    requires elems { All IsFrac q.now }
    requires coefficients { length q.now ≡ 5 }
    requires nonzero { quartic_discriminant rational_scalars (map frac_value q.now) ≢ rational (pos 0) 1 }
    ensures elem { IfOk result IsFrac }
    ensures value { IfOk result (λ j. let qs = map frac_value q.now in frac_value j
        ≡ rational_mul (formula_value rational_scalars (quartic_i rational_scalars qs ∷ []) QUARTIC_NUMERATOR) (rational_inv (quartic_discriminant rational_scalars qs))) }
    ensures range { OnRange result (let qs = map frac_value q.now in IsHigh (quartic_heights rational_scalars qs
        ++ quotient_heights QUARTIC_NUMERATOR (quartic_i rational_scalars qs) (quartic_discriminant rational_scalars qs))) }
{
    let (i, discriminant) = quartic_i_and_discriminant(&Rationals, q)?;
    quotient(&QUARTIC_NUMERATOR, i, discriminant)
}

// 6912*c2^3 over the discriminant of c1*x^3 + c2*x*y^4 + c3*y^6.
fn j_of_triple(c: &[Frac]) -> Result<Frac, Range>
    requires elems { All IsFrac c.now }
    requires coefficients { length c.now ≡ 3 }
    requires nonzero { triple_discriminant rational_scalars (map frac_value c.now) ≢ rational (pos 0) 1 }
    ensures elem { IfOk result IsFrac }
    ensures value { IfOk result (λ j. let cs = map frac_value c.now in frac_value j
        ≡ rational_mul (formula_value rational_scalars (at rational_scalars cs 1 ∷ []) TRIPLE_NUMERATOR) (rational_inv (triple_discriminant rational_scalars cs))) }
    ensures range { OnRange result (let cs = map frac_value c.now in IsHigh (triple_heights rational_scalars cs
        ++ quotient_heights TRIPLE_NUMERATOR (at rational_scalars cs 1) (triple_discriminant rational_scalars cs))) }
{
    let discriminant = triple_discriminant_of(&Rationals, c)?;
    quotient(&TRIPLE_NUMERATOR, c[1], discriminant)
}

/// The modulus line of a form of the family with these coefficients, one for each monomial of the
/// family's sum: for X9 and J10 the j invariant, `1728*I^3/(I^3 - 27*J^2)` and
/// `6912*c2^3/(4*c2^3 + 27*c1*c3^2)`, for an exceptional family the last coefficient.
///
/// Errors: `Range` only for X9 and J10, where a number that these formulas form has height 2^120 or more.
pub fn modulus(family: Family, coefs: &[Ext<Frac>]) -> Result<ModulusLine, Range>
    requires coefficients { length coefs.now ≡ length (sum_of family) }
    requires rational { AreRational (kind_of family) coefs.now }
    requires nondegenerate { IsNondegenerate (kind_of family) (map (value_in algebra.Rational) coefs.now) }
    ensures elem { IfOk result (λ line. (a : Algebra) → All (IsElement a) coefs.now → IsValidModulus a line) }
    ensures modulus { IfOk result (λ line. (a : Algebra) → IsModulus a (kind_of family) (map (value_in a) coefs.now) line) }
    ensures range { OnRange result (IsHigh (modulus_heights (kind_of family) (map (value_in algebra.Rational) coefs.now))) }
{
    match family_kind(family) {
        Kind::Simple => Ok(ModulusLine::None),
        Kind::Hyperbolic | Kind::CubicForm => Ok(ModulusLine::Form),
        Kind::QuarticForm => {
            let q = [
                coefs[0].c0,
                coefs[1].c0,
                coefs[2].c0,
                coefs[3].c0,
                coefs[4].c0,
            ];
            Ok(ModulusLine::J(j_of_quartic(&q)?))
        }
        Kind::Triple => {
            let j = j_of_triple(&[coefs[0].c0, coefs[1].c0, coefs[2].c0])?;
            Ok(ModulusLine::J(j))
        }
        Kind::Exceptional => Ok(ModulusLine::Value(coefs[coefs.len() - 1])),
    }
}
