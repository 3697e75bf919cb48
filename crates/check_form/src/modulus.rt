//! Whether a printed modulus line is true of a form.

ghost use Rattle.std.specs.Prelude.{◌≡◌, ◌∷◌, [], ◌≤◌, ◌↔◌, IsTrue, IfOk, All, length, map};
ghost use Rattle.ring_law.specs.Refusals.{OnFault, OnRange};
ghost use Rattle.ring_formula.specs.Formulas.{formula_value};
ghost use Rattle.jet_law.specs.Heights.{IsHigh};
ghost use Rattle.ext_algebra.specs.Algebra.{IsAlgebra, IsElement, scalars, value_in};
ghost use Rattle.normal_forms.specs.Families.{kind_of, sum_of};
ghost use Rattle.normal_forms.specs.Units.{at, cube, times_number, quartic_i, quartic_discriminant, triple_discriminant, IsModulus};
ghost use Rattle.cert_text.specs.WellFormed.{is_valid_modulus, IsWellFormedNamed};
ghost use Rattle.report_law.specs.Items.{IsForm, IsModulusOf};
ghost use Rattle.check_form.specs.FormHeights.{times_divisor_heights, quartic_line_heights, triple_line_heights, line_heights, IsModulusHigh};

use cert_text::Named;
use ext_algebra::{AlgebraRing, Ext};
use normal_forms::{
    Family, Kind, ModulusLine, QUARTIC_NUMERATOR, TRIPLE_NUMERATOR, family_kind,
    quartic_i_and_discriminant, sum_coefficients, triple_discriminant_of,
};
use ring_formula::{Summand, evaluate};
use ring_law::{Fault, Frac, Range, Ring};
use std::alloc::Global;

// True where q times the divisor is the numerator at its one letter.
fn is_quotient(
    ring: &AlgebraRing,
    q: Ext<Frac>,
    numerator: &[Summand],
    letter: Ext<Frac>,
    divisor: Ext<Frac>,
) -> Result<bool, Range>
    requires ring { IsAlgebra ring.now.algebra }
    requires quotient { IsElement ring.now.algebra q }
    requires letter { IsElement ring.now.algebra letter }
    requires divisor { IsElement ring.now.algebra divisor }
    ensures quotient { IfOk result (λ b. let a = ring.now.algebra in let s = scalars a in IsTrue b
        ↔ (s.ops.mul (value_in a q) (value_in a divisor) ≡ formula_value s (value_in a letter ∷ []) numerator.now)) }
    ensures range { OnRange result (let a = ring.now.algebra in
        IsHigh (times_divisor_heights (scalars a) numerator.now (value_in a letter) (value_in a q) (value_in a divisor))) }
{
    let wanted = evaluate(ring, numerator, &[letter])?;
    let product = ring.mul(q, divisor)?;
    Ok(ring.eq(product, wanted))
}

// True where q*(I^3 - 27*J^2) = 1728*I^3.
fn is_j_of_quartic(ring: &AlgebraRing, q: Ext<Frac>, coefs: &[Ext<Frac>]) -> Result<bool, Range>
    requires ring { IsAlgebra ring.now.algebra }
    requires elem { IsElement ring.now.algebra q }
    requires elems { All (IsElement ring.now.algebra) coefs.now }
    requires coefficients { length coefs.now ≡ 5 }
    ensures line { IfOk result (λ b. let a = ring.now.algebra in let s = scalars a in let v = map (value_in a) coefs.now in IsTrue b
        ↔ (s.ops.mul (value_in a q) (quartic_discriminant s v) ≡ times_number s 1728 (cube s (quartic_i s v)))) }
    ensures range { OnRange result (let a = ring.now.algebra in IsHigh (quartic_line_heights (scalars a) (value_in a q) (map (value_in a) coefs.now))) }
{
    let (i, discriminant) = quartic_i_and_discriminant(ring, coefs)?;
    is_quotient(ring, q, &QUARTIC_NUMERATOR, i, discriminant)
}

// True where q*(4*c2^3 + 27*c1*c3^2) = 6912*c2^3.
fn is_j_of_triple(ring: &AlgebraRing, q: Ext<Frac>, coefs: &[Ext<Frac>]) -> Result<bool, Range>
    requires ring { IsAlgebra ring.now.algebra }
    requires elem { IsElement ring.now.algebra q }
    requires elems { All (IsElement ring.now.algebra) coefs.now }
    requires coefficients { length coefs.now ≡ 3 }
    ensures line { IfOk result (λ b. let a = ring.now.algebra in let s = scalars a in let v = map (value_in a) coefs.now in IsTrue b
        ↔ (s.ops.mul (value_in a q) (triple_discriminant s v) ≡ times_number s 6912 (cube s (at s v 1)))) }
    ensures range { OnRange result (let a = ring.now.algebra in IsHigh (triple_line_heights (scalars a) (value_in a q) (map (value_in a) coefs.now))) }
{
    let discriminant = triple_discriminant_of(ring, coefs)?;
    is_quotient(ring, q, &TRIPLE_NUMERATOR, coefs[1], discriminant)
}

// True where the line is true of a form of the family with these coefficients.
pub(crate) fn is_line(
    ring: &AlgebraRing,
    family: Family,
    coefs: &[Ext<Frac>],
    line: ModulusLine,
) -> Result<bool, Range>
    requires ring { IsAlgebra ring.now.algebra }
    requires elems { All (IsElement ring.now.algebra) coefs.now }
    requires coefficients { length coefs.now ≡ length (sum_of family) }
    requires line { IsTrue (is_valid_modulus ring.now.algebra line) }
    ensures line { IfOk result (λ b. let a = ring.now.algebra in IsTrue b ↔ IsModulus a (kind_of family) (map (value_in a) coefs.now) line) }
    ensures range { OnRange result (let a = ring.now.algebra in IsHigh (line_heights (scalars a) (kind_of family) (map (value_in a) coefs.now) line)) }
{
    match (family_kind(family), line) {
        (Kind::Simple, ModulusLine::None) => Ok(true),
        (Kind::Hyperbolic | Kind::CubicForm, ModulusLine::Form) => Ok(true),
        (Kind::QuarticForm, ModulusLine::J(q)) => is_j_of_quartic(ring, ring.inject(q), coefs),
        (Kind::Triple, ModulusLine::J(q)) => is_j_of_triple(ring, ring.inject(q), coefs),
        (Kind::Exceptional, ModulusLine::Value(e)) => Ok(ring.eq(e, coefs[coefs.len() - 1])),
        _ => Ok(false),
    }
}

/// True where the modulus line of a named report is true of its form: there is none; the form itself;
/// the coefficient of the modulus monomial; or the j invariant q, with `q*(I^3 - 27*J^2) = 1728*I^3`
/// for X9 and `q*(4*c2^3 + 27*c1*c3^2) = 6912*c2^3` for J10, over the algebra. The form is one of the
/// family.
///
/// Errors: `Range` only for X9 and J10, where a number that these formulas form has height 2^120 or
/// more.
pub fn is_modulus_line(alloc: Global, r: &Named) -> Result<bool, Fault>
    requires well_formed { IsWellFormedNamed r.now }
    requires form { IsForm r.now.family r.now.carried }
    ensures modulus { IfOk result (λ b. IsTrue b ↔ IsModulusOf r.now) }
    ensures range { OnFault result (IsModulusHigh r.now) }
{
    let ring = AlgebraRing {
        algebra: r.carried.algebra,
    };
    let coefs = sum_coefficients(alloc, &ring, r.family, &r.carried.jet)?;
    let holds = is_line(&ring, r.family, coefs.as_slice(), r.modulus)?;
    Ok(holds)
}
