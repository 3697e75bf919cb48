//! The shape of a binary cubic.

ghost use Rattle.std.specs.Prelude.{◌≡◌, ◌∷◌, [], IfOk, All, length, map};
ghost use Rattle.lin_row.specs.Plain.{Among};
ghost use Rattle.ring_law.specs.Refusals.{OnRange};
ghost use Rattle.ring_formula.specs.Formulas.{formula_value};
ghost use Rattle.move_law.specs.Shapes.{cubic_hessian as cubic_hessian_values, cubic_work};
ghost use Rattle.move_law.specs.Work.{IsWorkHigh};
ghost use Rattle.move_law.specs.Work as work;
ghost use Rattle.bin_forms.specs.Shapes.{IsCubicAnswer};

use crate::line::{Line, power_line};
use crate::number::{are_zero, is_zero};
use move_law::{CUBIC_H0, CUBIC_H1, CUBIC_H2, CUBIC_TEST};
use ring_formula::evaluate;
use ring_law::{Field, Range, Ring};

/// The shape of a binary cubic: zero; a multiple of the cube of a line; of the square of a line and
/// another line; or of lines that differ over each larger field.
#[derive(Clone, Copy, Debug)]
pub enum Cubic<E> {
    Zero,
    Cube { line: Line<E> },
    Double { line: Line<E> },
    Distinct,
}

// The coefficients of the Hessian of a cubic, up to a factor.
fn cubic_hessian<R: Ring>(ring: &R, c: &[R::Elem]) -> Result<[R::Elem; 3], Range>
    requires ring { R.is_ring ring.now }
    requires elems { All (R.meaning ring.now).is_elem c.now }
    requires coefficients { length c.now ≡ 4 }
    ensures elems { IfOk result (λ h. All (R.meaning ring.now).is_elem h) }
    ensures value { IfOk result (λ h. let m = R.meaning ring.now in map m.value h ≡ cubic_hessian_values m.scalars (map m.value c.now)) }
    ensures range { OnRange result (let m = R.meaning ring.now in let f = map m.value c.now in
        Among (IsWorkHigh 2 m.scalars) (work.formula f CUBIC_H0 ∷ work.formula f CUBIC_H1 ∷ work.formula f CUBIC_H2 ∷ [])) }
{
    let h0 = evaluate(ring, &CUBIC_H0, c)?;
    let h1 = evaluate(ring, &CUBIC_H1, c)?;
    let h2 = evaluate(ring, &CUBIC_H2, c)?;
    Ok([h0, h1, h2])
}

/// The shape of a binary cubic, by its coefficients from `x^3` to `y^3`: the multiplicities of its
/// linear factors, with the line that stands more than once.
///
/// Errors: `Range` only where an operation of the Hessian `h0, h1, h2`, of `h1^2 - 4*h0*h2` or of
/// the line's quotient has height 2^120 or more.
/// Source: P. J. Olver, Classical Invariant Theory, chapter 2.
pub fn cubic_shape<F: Field>(field: &F, c: &[F::Elem]) -> Result<Cubic<F::Elem>, Range>
    requires field { F.is_ring field.now }
    requires elems { All (F.meaning field.now).is_elem c.now }
    requires coefficients { length c.now ≡ 4 }
    ensures shape { IfOk result (IsCubicAnswer (F.meaning field.now) c.now) }
    ensures range { OnRange result (let m = F.meaning field.now in Among (IsWorkHigh 2 m.scalars) (cubic_work m.scalars 2 (map m.value c.now))) }
{
    if are_zero(field, c) {
        return Ok(Cubic::Zero);
    }
    let h = cubic_hessian(field, c)?;
    if are_zero(field, &h) {
        let line = power_line(field, 3, c[0], c[1])?;
        return Ok(Cubic::Cube { line });
    }
    let discriminant = evaluate(field, &CUBIC_TEST, &h)?;
    if !is_zero(field, discriminant) {
        return Ok(Cubic::Distinct);
    }
    let line = power_line(field, 2, h[0], h[1])?;
    Ok(Cubic::Double { line })
}
