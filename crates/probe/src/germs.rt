//! Mather's test, the quotient and the move of the Hessian of the germs of lines.

ghost use Rattle.std.specs.Prelude.{◌≡◌, ◌≤◌, true, IfOk};
ghost use Rattle.poly_law.specs.Polynomials.{StartsAtIn};
ghost use Rattle.ring_law.specs.Fraction.{rational_meaning};
ghost use Rattle.jet_poly.specs.Jets.{IsJet, polynomial_of};

use crate::words::{Stop, Words, is};
use determinacy::{MatherTest, mather};
use hessian_rank::diagonalise;
use jet_poly::{Jet, JetOf};
use jet_quotient::quotient;
use line_germ::{Read, read_line};
use line_io::MAX_LINE;
use mono_exp::degree;
use poly_text::{put_fraction, put_number};
use ring_law::{Frac, Ring};
use small_frac::Rationals;
use std::alloc::Global;

/// Whether no term of the jet has a degree below 2.
pub(crate) fn starts_at_two<R: Ring>(ring: &R, f: &JetOf<R>) -> bool
    requires ring { R.is_ring ring.now }
    requires jet { IsJet (R.meaning ring.now) f.now }
    ensures low { result ≡ true → (let m = R.meaning ring.now in StartsAtIn f.now.n m.scalars.ops 2 (polynomial_of m f.now)) }
{
    let _ = ring;
    let terms = f.terms();
    for t in terms {
        if degree(t.0) < 2 {
            return false;
        }
    }
    true
}

// Appends `holds` and how many rows Mather's test has at the order of a jet, or `fails`.
fn put_test(alloc: Global, out: &mut Vec<u8>, f: &Jet<Frac>) -> Result<(), Stop>
    requires jet { IsJet rational_meaning f.now }
    requires at_most_8_variables { f.now.n ≤ 8 }
    requires order_at_least_2 { 2 ≤ f.now.order }
    requires order_at_most_16 { f.now.order ≤ 16 }
{
    if !starts_at_two(&Rationals, f) {
        return Err(Stop::Words);
    }
    match mather(alloc, &Rationals, f, f.order())? {
        MatherTest::Holds(rows) => {
            out.extend_from_slice(b"holds ")?;
            Ok(put_number(out, rows.len() as u64)?)
        }
        MatherTest::Fails {
            functional: _,
            at: _,
        } => Ok(out.extend_from_slice(b"fails")?),
    }
}

// Appends how many monomials the basis of the quotient at the order of a jet has, and how many rows its table.
fn put_sizes(alloc: Global, out: &mut Vec<u8>, f: &Jet<Frac>) -> Result<(), Stop>
    requires jet { IsJet rational_meaning f.now }
    requires at_most_8_variables { f.now.n ≤ 8 }
    requires order_at_most_16 { f.now.order ≤ 16 }
{
    let algebra = quotient(alloc, &Rationals, f, f.order())?;
    put_number(out, algebra.basis.len() as u64)?;
    out.push(b' ')?;
    Ok(put_number(out, algebra.table.len() as u64)?)
}

// Appends a semicolon and fractions, each behind a space.
fn put_list(out: &mut Vec<u8>, fractions: &[Frac]) -> Result<(), Stop> {
    out.extend_from_slice(b" ;")?;
    for q in fractions {
        out.push(b' ')?;
        put_fraction(out, *q)?;
    }
    Ok(())
}

// Appends the corank of a jet, the coefficients of the squares of the last variables after the move of the Hessian, and the matrix of this move turned round.
fn put_hessian(alloc: Global, out: &mut Vec<u8>, f: &Jet<Frac>) -> Result<(), Stop>
    requires jet { IsJet rational_meaning f.now }
    requires at_most_8_variables { f.now.n ≤ 8 }
    requires order_at_least_2 { 2 ≤ f.now.order }
    requires order_at_most_16 { f.now.order ≤ 16 }
{
    if f.n() == 0 || !starts_at_two(&Rationals, f) {
        return Err(Stop::Words);
    }
    let diagonal = diagonalise(alloc, f)?;
    put_number(out, u64::from(diagonal.corank))?;
    put_list(out, diagonal.squares.as_slice())?;
    put_list(out, diagonal.change.inverse.as_slice())
}

/// Appends the answer of Mather's test, the sizes of the quotient, or what the move of the Hessian leaves, of the germ of a critical line at an order from 3 to 16.
pub(crate) fn calculate(
    alloc: Global,
    command: &[u8],
    words: &mut Words,
    out: &mut Vec<u8>,
) -> Result<(), Stop> {
    let order = words.small()?;
    let line = words.rest;
    if order < 3 || order > 16 || line.len() > MAX_LINE {
        return Err(Stop::Words);
    }
    let Read::Germ(germ) = read_line(alloc, line, order)? else {
        return Err(Stop::Words);
    };
    if germ.jet.n() > 8 || germ.jet.order() < 2 || germ.jet.order() > 16 {
        return Err(Stop::Words);
    }
    if is(command, b"mather") {
        put_test(alloc, out, &germ.jet)
    } else if is(command, b"quotient") {
        put_sizes(alloc, out, &germ.jet)
    } else if is(command, b"hessian") {
        put_hessian(alloc, out, &germ.jet)
    } else {
        Err(Stop::Words)
    }
}
