//! Shapes of binary forms: the multiplicities of their lines, and where two lines lie.

ghost use Rattle.std.specs.Prelude.{◌≡◌};
ghost use Rattle.probe.specs.Over.{IsOver};

use crate::scalars::{Over, put_elements};
use crate::words::{Stop, Words, is};
use bin_forms::{Cubic, Line, Pair, Quartic, cubic_shape, pair_lines, quartic_shape};
use ext_algebra::{Algebra, Ext};
use poly_text::{put_element, put_fraction};
use ring_law::{Field, Frac};
use std::alloc::Global;

// Appends the name of a shape and its line: y, or the coefficient of y beside x.
fn put_line(
    alloc: Global,
    out: &mut Vec<u8>,
    name: &[u8],
    line: Line<Ext<Frac>>,
) -> Result<(), Stop> {
    out.extend_from_slice(name)?;
    if line.vertical {
        return Ok(out.extend_from_slice(b" y")?);
    }
    out.push(b' ')?;
    Ok(put_element(alloc, out, line.lambda)?)
}

// Appends the shape of a cubic.
fn put_cubic(alloc: Global, out: &mut Vec<u8>, shape: Cubic<Ext<Frac>>) -> Result<(), Stop> {
    match shape {
        Cubic::Zero => Ok(out.extend_from_slice(b"zero")?),
        Cubic::Cube { line } => put_line(alloc, out, b"cube", line),
        Cubic::Double { line } => put_line(alloc, out, b"double", line),
        Cubic::Distinct => Ok(out.extend_from_slice(b"distinct")?),
    }
}

// Appends the shape of a quartic.
fn put_quartic(alloc: Global, out: &mut Vec<u8>, shape: Quartic<Ext<Frac>>) -> Result<(), Stop> {
    match shape {
        Quartic::Zero => Ok(out.extend_from_slice(b"zero")?),
        Quartic::Distinct => Ok(out.extend_from_slice(b"distinct")?),
        Quartic::Fourth { line } => put_line(alloc, out, b"fourth", line),
        Quartic::Triple { line } => put_line(alloc, out, b"triple", line),
        Quartic::Double { line } => put_line(alloc, out, b"double", line),
        Quartic::TwoDoubles { q0, q1, q2 } => {
            out.extend_from_slice(b"two-doubles ")?;
            put_elements(alloc, out, &[q0, q1, q2])
        }
    }
}

// Appends a word and two fractions.
fn put_two(out: &mut Vec<u8>, name: &[u8], a: Frac, b: Frac) -> Result<(), Stop> {
    out.extend_from_slice(name)?;
    put_fraction(out, a)?;
    out.push(b' ')?;
    Ok(put_fraction(out, b)?)
}

/// Appends where the two lines of a quadratic form over the rational numbers lie: the roots, or the
/// coefficients of the modulus of the algebra.
pub(crate) fn put_pair(words: &mut Words, out: &mut Vec<u8>) -> Result<(), Stop> {
    match pair_lines([words.fraction()?, words.fraction()?, words.fraction()?])? {
        Pair::Corner => Ok(out.extend_from_slice(b"corner")?),
        Pair::Roots(low, high) => put_two(out, b"roots ", low, high),
        Pair::Over(Algebra::Quadratic { m1, m0 }) => put_two(out, b"over ", m1, m0),
        Pair::Over(_) => Err(Stop::Nothing),
    }
}

/// Appends the shape of a binary form over a field.
pub(crate) fn calculate<F: Field<Elem = Ext<Frac>> + Drop>(
    alloc: Global,
    command: &[u8],
    over: &Over<F>,
    words: &mut Words,
    out: &mut Vec<u8>,
) -> Result<(), Stop>
    requires over { IsOver (F.is_ring over.now.field) (F.meaning over.now.field) over.now.algebra over.now.n over.now.order }
{
    if is(command, b"cubic") {
        let c = over.elements(alloc, words, 4)?;
        put_cubic(alloc, out, cubic_shape(&over.field, &c)?)
    } else if is(command, b"quartic") {
        let q = over.elements(alloc, words, 5)?;
        put_quartic(alloc, out, quartic_shape(&over.field, &q)?)
    } else {
        Err(Stop::Words)
    }
}
