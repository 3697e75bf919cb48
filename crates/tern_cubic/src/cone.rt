//! Cubics in fewer variables that have a repeated line.

ghost use Rattle.std.specs.Prelude.{◌≡◌, ◌≢◌, true, false, IfOk, MatchOption, All, map, length};
ghost use Rattle.ring_theory.specs.Height.{rational_scalars};
ghost use Rattle.ring_theory.specs.Rational.{rational_ops};
ghost use Rattle.ring_law.specs.Fraction.{IsFrac, frac_value, rational_meaning};
ghost use Rattle.ring_law.specs.Refusals.{OnFault, OnRange};
ghost use Rattle.lin_row.specs.Plain.{Among};
ghost use Rattle.jet_law.specs.Terms.{poly_of};
ghost use Rattle.jacobian_row.specs.Rows.{IsJetIn};
ghost use Rattle.move_law.specs.Shapes.{cubic_shape as cubic_shape_of, cubic_work};
ghost use Rattle.move_law.specs.Work.{IsWorkHigh};
ghost use Rattle.ternary_law.specs.Pairs.{line_matrix as line_matrix_of};
ghost use Rattle.ternary_law.specs.Steps.{last_place as last_place_of};
ghost use Rattle.ternary_law.specs.Routes.{AreStepsHigh};
ghost use Rattle.ternary_law.specs.Rules.{binary_part as binary_part_of, repeated_line as repeated_line_of, repeated_steps};
ghost use Rattle.ternary_law.specs.Triangle.{is_distinct};
ghost use Rattle.bin_forms.specs.Lines.{line_value};
ghost use Rattle.tern_cubic.specs.Matrices.{IsMatrix, vector_of};
ghost use Rattle.tern_cubic.specs.Reaching.{IsRepeatedMove};

use crate::matrix::{Matrix, axis_matrix, pair_row, row_or_unit, two_in_row};
use crate::moving::{advance, begin};
use crate::steps::coefficient;
use bin_forms::{Cubic, Line, cubic_shape};
use coord_change::Change;
use jet_poly::Jet;
use ring_law::{Fault, Frac, Range, Ring};
use small_frac::Rationals;
use std::alloc::Global;

/// The coefficients of the binary cubic in x and y, from `x^3` to `y^3`.
fn binary_part(f: &Jet<Frac>) -> [Frac; 4]
    requires { IsJetIn rational_meaning 3 f.now }
    ensures elems { All IsFrac result }
    ensures values { map frac_value result ≡ binary_part_of (poly_of 3 frac_value f.now.terms) }
{
    [
        coefficient(&Rationals, f, 3, 0, 0),
        coefficient(&Rationals, f, 2, 1, 0),
        coefficient(&Rationals, f, 1, 2, 0),
        coefficient(&Rationals, f, 0, 3, 0),
    ]
}

/// The repeated line of the binary cubic in x and y, which is y where the cubic is zero, or `None`
/// where its lines are three different ones.
///
/// Errors: `Range` only where an operation of its shape has height 2^120 or more.
fn repeated_line(f: &Jet<Frac>) -> Result<Option<Line<Frac>>, Range>
    requires { IsJetIn rational_meaning 3 f.now }
    ensures line { let t = cubic_shape_of rational_scalars (binary_part_of (poly_of 3 frac_value f.now.terms)) in
        IfOk result (λ o. MatchOption o (is_distinct t ≡ true)
        (λ l. (is_distinct t ≡ false) × IsFrac l.lambda × (line_value frac_value l ≡ repeated_line_of t))) }
    ensures range { OnRange result (Among (IsWorkHigh 3 rational_scalars) (cubic_work rational_scalars 3 (binary_part_of (poly_of 3 frac_value f.now.terms)))) }
{
    let c = binary_part(f);
    match cubic_shape(&Rationals, &c)? {
        Cubic::Zero => Ok(Some(Line {
            vertical: true,
            lambda: Rationals.zero(),
        })),
        Cubic::Cube { line } => Ok(Some(line)),
        Cubic::Double { line } => Ok(Some(line)),
        Cubic::Distinct => Ok(None),
    }
}

/// The matrix after which a line in x and y is x: the line y and x change places, and for
/// `x + lambda*y` x goes to `x - lambda*y`.
fn line_matrix<R: Ring>(ring: &R, line: Line<R::Elem>) -> Matrix<R::Elem>
    requires ring { R.is_ring ring.now }
    requires elem { (R.meaning ring.now).is_elem line.lambda }
    ensures { let m = R.meaning ring.now in IsMatrix m (line_matrix_of m.scalars (line_value m.value line)) result }
{
    if line.vertical {
        let first = two_in_row(ring, 0, ring.zero(), 1, ring.one());
        let second = two_in_row(ring, 0, ring.one(), 1, ring.zero());
        return [
            pair_row(ring, 0, 0, 1, first, second),
            pair_row(ring, 1, 0, 1, first, second),
            pair_row(ring, 2, 0, 1, first, second),
        ];
    }
    let row = two_in_row(ring, 0, ring.one(), 1, ring.neg(line.lambda));
    [
        row_or_unit(ring, 0, 0, row),
        row_or_unit(ring, 1, 0, row),
        row_or_unit(ring, 2, 0, row),
    ]
}

/// The linear move of a cubic in fewer variables with a repeated line, where v is the vector that the
/// partials take to 0: v goes to the axis of z, and then the line to x. `None` where there is none,
/// as for three different lines.
///
/// Errors: `Range` only where an operation of the rule has height 2^120 or more.
pub fn repeated_move(
    alloc: Global,
    f: &Jet<Frac>,
    v: &[Frac; 3],
) -> Result<Option<Change<Frac>>, Fault>
    requires jet { IsJetIn rational_meaning 3 f.now }
    requires elems { All IsFrac v.now }
    requires nonzero { let w = vector_of rational_meaning v.now in w (last_place_of rational_scalars w) ≢ rational_ops.zero }
    ensures change { IfOk result (IsRepeatedMove (poly_of 3 frac_value f.now.terms) (vector_of rational_meaning v.now)) }
    ensures range { let g = poly_of 3 frac_value f.now.terms in OnFault result (AreStepsHigh g (repeated_steps g (vector_of rational_meaning v.now))) }
{
    let axis = axis_matrix(&Rationals, 2, v)?;
    let Some(way) = begin(alloc, &Rationals, f, &axis)? else {
        return Ok(None);
    };
    let Some(line) = repeated_line(&way.form)? else {
        return Ok(None);
    };
    let matrix = line_matrix(&Rationals, line);
    match advance(alloc, &Rationals, &way, &matrix)? {
        Some(end) => Ok(Some(end.change)),
        None => Ok(None),
    }
}
