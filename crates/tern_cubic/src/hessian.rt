//! The Hessian determinant of a ternary cubic, the determinant of its second partials.

ghost use Rattle.std.specs.Prelude.{◌≡◌, IfOk, All, map, flat_map};
ghost use Rattle.ring_theory.specs.Height.{rational_scalars};
ghost use Rattle.ring_law.specs.Fraction.{IsFrac, frac_value};
ghost use Rattle.ring_law.specs.Refusals.{OnRange};
ghost use Rattle.jet_law.specs.Heights.{IsHigh};
ghost use Rattle.ring_formula.specs.Formulas.{formula_heights};
ghost use Rattle.ternary_law.specs.Hessian.{hessian3 as hessian3_of, hessian_table};

use ring_formula::{Summand, evaluate};
use ring_law::{Frac, Range};
use small_frac::Rationals;

// The coefficients of the determinant as sums, in the letters that stand for the ten coefficients
// of the cubic in the monomial order.

/// At x^3.
const AT_X3: [Summand; 5] = [
    Summand {
        number: 24,
        exponents: [1, 0, 0, 1, 0, 1, 0, 0, 0, 0],
    },
    Summand {
        number: -6,
        exponents: [1, 0, 0, 0, 2, 0, 0, 0, 0, 0],
    },
    Summand {
        number: -8,
        exponents: [0, 2, 0, 0, 0, 1, 0, 0, 0, 0],
    },
    Summand {
        number: 8,
        exponents: [0, 1, 1, 0, 1, 0, 0, 0, 0, 0],
    },
    Summand {
        number: -8,
        exponents: [0, 0, 2, 1, 0, 0, 0, 0, 0, 0],
    },
];

/// At x^2*y.
const AT_X2Y: [Summand; 8] = [
    Summand {
        number: 24,
        exponents: [1, 0, 0, 1, 0, 0, 0, 0, 1, 0],
    },
    Summand {
        number: -24,
        exponents: [1, 0, 0, 0, 1, 0, 0, 1, 0, 0],
    },
    Summand {
        number: 72,
        exponents: [1, 0, 0, 0, 0, 1, 1, 0, 0, 0],
    },
    Summand {
        number: -8,
        exponents: [0, 2, 0, 0, 0, 0, 0, 0, 1, 0],
    },
    Summand {
        number: 16,
        exponents: [0, 1, 1, 0, 0, 0, 0, 1, 0, 0],
    },
    Summand {
        number: -8,
        exponents: [0, 1, 0, 1, 0, 1, 0, 0, 0, 0],
    },
    Summand {
        number: 2,
        exponents: [0, 1, 0, 0, 2, 0, 0, 0, 0, 0],
    },
    Summand {
        number: -24,
        exponents: [0, 0, 2, 0, 0, 0, 1, 0, 0, 0],
    },
];

/// At x^2*z.
const AT_X2Z: [Summand; 8] = [
    Summand {
        number: 72,
        exponents: [1, 0, 0, 1, 0, 0, 0, 0, 0, 1],
    },
    Summand {
        number: -24,
        exponents: [1, 0, 0, 0, 1, 0, 0, 0, 1, 0],
    },
    Summand {
        number: 24,
        exponents: [1, 0, 0, 0, 0, 1, 0, 1, 0, 0],
    },
    Summand {
        number: -24,
        exponents: [0, 2, 0, 0, 0, 0, 0, 0, 0, 1],
    },
    Summand {
        number: 16,
        exponents: [0, 1, 1, 0, 0, 0, 0, 0, 1, 0],
    },
    Summand {
        number: -8,
        exponents: [0, 0, 2, 0, 0, 0, 0, 1, 0, 0],
    },
    Summand {
        number: -8,
        exponents: [0, 0, 1, 1, 0, 1, 0, 0, 0, 0],
    },
    Summand {
        number: 2,
        exponents: [0, 0, 1, 0, 2, 0, 0, 0, 0, 0],
    },
];

/// At x*y^2.
const AT_XY2: [Summand; 8] = [
    Summand {
        number: 72,
        exponents: [1, 0, 0, 0, 0, 0, 1, 0, 1, 0],
    },
    Summand {
        number: -24,
        exponents: [1, 0, 0, 0, 0, 0, 0, 2, 0, 0],
    },
    Summand {
        number: -8,
        exponents: [0, 1, 0, 1, 0, 0, 0, 0, 1, 0],
    },
    Summand {
        number: 24,
        exponents: [0, 1, 0, 0, 0, 1, 1, 0, 0, 0],
    },
    Summand {
        number: 16,
        exponents: [0, 0, 1, 1, 0, 0, 0, 1, 0, 0],
    },
    Summand {
        number: -24,
        exponents: [0, 0, 1, 0, 1, 0, 1, 0, 0, 0],
    },
    Summand {
        number: -8,
        exponents: [0, 0, 0, 2, 0, 1, 0, 0, 0, 0],
    },
    Summand {
        number: 2,
        exponents: [0, 0, 0, 1, 2, 0, 0, 0, 0, 0],
    },
];

/// At x*y*z.
const AT_XYZ: [Summand; 10] = [
    Summand {
        number: 216,
        exponents: [1, 0, 0, 0, 0, 0, 1, 0, 0, 1],
    },
    Summand {
        number: -24,
        exponents: [1, 0, 0, 0, 0, 0, 0, 1, 1, 0],
    },
    Summand {
        number: -24,
        exponents: [0, 1, 0, 1, 0, 0, 0, 0, 0, 1],
    },
    Summand {
        number: -8,
        exponents: [0, 1, 0, 0, 1, 0, 0, 0, 1, 0],
    },
    Summand {
        number: 24,
        exponents: [0, 1, 0, 0, 0, 1, 0, 1, 0, 0],
    },
    Summand {
        number: 24,
        exponents: [0, 0, 1, 1, 0, 0, 0, 0, 1, 0],
    },
    Summand {
        number: -8,
        exponents: [0, 0, 1, 0, 1, 0, 0, 1, 0, 0],
    },
    Summand {
        number: -24,
        exponents: [0, 0, 1, 0, 0, 1, 1, 0, 0, 0],
    },
    Summand {
        number: -8,
        exponents: [0, 0, 0, 1, 1, 1, 0, 0, 0, 0],
    },
    Summand {
        number: 2,
        exponents: [0, 0, 0, 0, 3, 0, 0, 0, 0, 0],
    },
];

/// At x*z^2.
const AT_XZ2: [Summand; 8] = [
    Summand {
        number: 72,
        exponents: [1, 0, 0, 0, 0, 0, 0, 1, 0, 1],
    },
    Summand {
        number: -24,
        exponents: [1, 0, 0, 0, 0, 0, 0, 0, 2, 0],
    },
    Summand {
        number: -24,
        exponents: [0, 1, 0, 0, 1, 0, 0, 0, 0, 1],
    },
    Summand {
        number: 16,
        exponents: [0, 1, 0, 0, 0, 1, 0, 0, 1, 0],
    },
    Summand {
        number: 24,
        exponents: [0, 0, 1, 1, 0, 0, 0, 0, 0, 1],
    },
    Summand {
        number: -8,
        exponents: [0, 0, 1, 0, 0, 1, 0, 1, 0, 0],
    },
    Summand {
        number: -8,
        exponents: [0, 0, 0, 1, 0, 2, 0, 0, 0, 0],
    },
    Summand {
        number: 2,
        exponents: [0, 0, 0, 0, 2, 1, 0, 0, 0, 0],
    },
];

/// At y^3.
const AT_Y3: [Summand; 5] = [
    Summand {
        number: 24,
        exponents: [0, 1, 0, 0, 0, 0, 1, 0, 1, 0],
    },
    Summand {
        number: -8,
        exponents: [0, 1, 0, 0, 0, 0, 0, 2, 0, 0],
    },
    Summand {
        number: -8,
        exponents: [0, 0, 0, 2, 0, 0, 0, 0, 1, 0],
    },
    Summand {
        number: 8,
        exponents: [0, 0, 0, 1, 1, 0, 0, 1, 0, 0],
    },
    Summand {
        number: -6,
        exponents: [0, 0, 0, 0, 2, 0, 1, 0, 0, 0],
    },
];

/// At y^2*z.
const AT_Y2Z: [Summand; 8] = [
    Summand {
        number: 72,
        exponents: [0, 1, 0, 0, 0, 0, 1, 0, 0, 1],
    },
    Summand {
        number: -8,
        exponents: [0, 1, 0, 0, 0, 0, 0, 1, 1, 0],
    },
    Summand {
        number: 24,
        exponents: [0, 0, 1, 0, 0, 0, 1, 0, 1, 0],
    },
    Summand {
        number: -8,
        exponents: [0, 0, 1, 0, 0, 0, 0, 2, 0, 0],
    },
    Summand {
        number: -24,
        exponents: [0, 0, 0, 2, 0, 0, 0, 0, 0, 1],
    },
    Summand {
        number: 16,
        exponents: [0, 0, 0, 1, 0, 1, 0, 1, 0, 0],
    },
    Summand {
        number: 2,
        exponents: [0, 0, 0, 0, 2, 0, 0, 1, 0, 0],
    },
    Summand {
        number: -24,
        exponents: [0, 0, 0, 0, 1, 1, 1, 0, 0, 0],
    },
];

/// At y*z^2.
const AT_YZ2: [Summand; 8] = [
    Summand {
        number: 24,
        exponents: [0, 1, 0, 0, 0, 0, 0, 1, 0, 1],
    },
    Summand {
        number: -8,
        exponents: [0, 1, 0, 0, 0, 0, 0, 0, 2, 0],
    },
    Summand {
        number: 72,
        exponents: [0, 0, 1, 0, 0, 0, 1, 0, 0, 1],
    },
    Summand {
        number: -8,
        exponents: [0, 0, 1, 0, 0, 0, 0, 1, 1, 0],
    },
    Summand {
        number: -24,
        exponents: [0, 0, 0, 1, 1, 0, 0, 0, 0, 1],
    },
    Summand {
        number: 16,
        exponents: [0, 0, 0, 1, 0, 1, 0, 0, 1, 0],
    },
    Summand {
        number: 2,
        exponents: [0, 0, 0, 0, 2, 0, 0, 0, 1, 0],
    },
    Summand {
        number: -24,
        exponents: [0, 0, 0, 0, 0, 2, 1, 0, 0, 0],
    },
];

/// At z^3.
const AT_Z3: [Summand; 5] = [
    Summand {
        number: 24,
        exponents: [0, 0, 1, 0, 0, 0, 0, 1, 0, 1],
    },
    Summand {
        number: -8,
        exponents: [0, 0, 1, 0, 0, 0, 0, 0, 2, 0],
    },
    Summand {
        number: -6,
        exponents: [0, 0, 0, 0, 2, 0, 0, 0, 0, 1],
    },
    Summand {
        number: 8,
        exponents: [0, 0, 0, 0, 1, 1, 0, 0, 1, 0],
    },
    Summand {
        number: -8,
        exponents: [0, 0, 0, 0, 0, 2, 0, 1, 0, 0],
    },
];

/// The coefficients of the Hessian determinant of a ternary cubic, in the monomial order, by those
/// of the cubic.
///
/// Errors: `Range` only where a product that a summand of such a coefficient forms, from left to
/// right, or the sum of its summands has height 2^120 or more.
/// Source: P. J. Olver, Classical Invariant Theory, chapter 2.
pub fn hessian3(c: [Frac; 10]) -> Result<[Frac; 10], Range>
    requires { All IsFrac c }
    ensures elems { IfOk result (All IsFrac) }
    ensures value { IfOk result (λ h. map frac_value h ≡ hessian3_of rational_scalars (map frac_value c)) }
    ensures range { OnRange result (IsHigh (flat_map (formula_heights rational_scalars (map frac_value c)) hessian_table)) }
{
    let at_x3 = evaluate(&Rationals, &AT_X3, &c)?;
    let at_x2y = evaluate(&Rationals, &AT_X2Y, &c)?;
    let at_x2z = evaluate(&Rationals, &AT_X2Z, &c)?;
    let at_xy2 = evaluate(&Rationals, &AT_XY2, &c)?;
    let at_xyz = evaluate(&Rationals, &AT_XYZ, &c)?;
    let at_xz2 = evaluate(&Rationals, &AT_XZ2, &c)?;
    let at_y3 = evaluate(&Rationals, &AT_Y3, &c)?;
    let at_y2z = evaluate(&Rationals, &AT_Y2Z, &c)?;
    let at_yz2 = evaluate(&Rationals, &AT_YZ2, &c)?;
    let at_z3 = evaluate(&Rationals, &AT_Z3, &c)?;
    Ok([
        at_x3, at_x2y, at_x2z, at_xy2, at_xyz, at_xz2, at_y3, at_y2z, at_yz2, at_z3,
    ])
}
