//! Forms of families: their unit values, their moduli, and the patterns past the list.

ghost use Rattle.std.specs.Prelude.{◌≡◌};
ghost use Rattle.ring_law.specs.Fraction.{IsFrac, frac_value};
ghost use Rattle.ext_algebra.specs.declared.algebra.Algebra.TheVariants as algebra;
ghost use Rattle.ext_algebra.specs.Algebra.{IsElement, value_in};
ghost use Rattle.probe.specs.Over.{IsOver};

use crate::jets::put_jets;
use crate::scalars::{Over, put_elements};
use crate::words::{Stop, Words, is};
use ext_algebra::Ext;
use normal_forms::{
    Family, ModulusLine, form_of, in_pattern, is_form, modulus, quartic_discriminant_of,
    quartic_invariants, sum_coefficients, triple_discriminant_of,
};
use poly_text::{put_element, put_fraction, put_number};
use ring_law::{Field, Frac, Ring};
use small_frac::Rationals;
use std::alloc::Global;
use text_reader::{read_family, read_pattern};

// A rational number as an element of an algebra.
fn constant(c0: Frac) -> Ext<Frac>
    requires { IsFrac c0 }
    ensures elem { IsElement algebra.Rational result }
    ensures value { value_in algebra.Rational result ≡ frac_value c0 }
{
    let zero = Rationals.zero();
    Ext {
        c0,
        c1: zero,
        c2: zero,
        c3: zero,
        c4: zero,
        c5: zero,
    }
}

// The modulus line of the form `a*x^4 + b*x^3*y + c*x^2*y^2 + d*x*y^3 + e*y^4` of X9, where its discriminant is not 0.
fn quartic_modulus(a: Frac, b: Frac, c: Frac, d: Frac, e: Frac) -> Result<ModulusLine, Stop>
    requires a { IsFrac a }
    requires b { IsFrac b }
    requires c { IsFrac c }
    requires d { IsFrac d }
    requires e { IsFrac e }
{
    let discriminant = quartic_discriminant_of(&Rationals, &[a, b, c, d, e])?;
    if Rationals.eq(discriminant, Rationals.zero()) {
        return Err(Stop::Nothing);
    }
    let coefs = [
        constant(a),
        constant(b),
        constant(c),
        constant(d),
        constant(e),
    ];
    let line = modulus(Family::X9, &coefs)?;
    Ok(line)
}

// The modulus line of the form `a*x^3 + b*x*y^4 + c*y^6` of J10, where its discriminant is not 0.
fn triple_modulus(a: Frac, b: Frac, c: Frac) -> Result<ModulusLine, Stop>
    requires a { IsFrac a }
    requires b { IsFrac b }
    requires c { IsFrac c }
{
    let discriminant = triple_discriminant_of(&Rationals, &[a, b, c])?;
    if Rationals.eq(discriminant, Rationals.zero()) {
        return Err(Stop::Nothing);
    }
    let coefs = [constant(a), constant(b), constant(c)];
    let line = modulus(Family::J10, &coefs)?;
    Ok(line)
}

// The modulus line of the form of X9 whose coefficients the next words spell.
fn quartic_line(words: &mut Words) -> Result<ModulusLine, Stop> {
    let a = words.fraction()?;
    let b = words.fraction()?;
    let c = words.fraction()?;
    let d = words.fraction()?;
    let e = words.fraction()?;
    quartic_modulus(a, b, c, d, e)
}

// The modulus line of the form of J10 or of E12 whose coefficients the next words spell.
fn triple_line(name: &[u8], words: &mut Words) -> Result<ModulusLine, Stop> {
    let a = words.fraction()?;
    let b = words.fraction()?;
    let c = words.fraction()?;
    if is(name, b"J10") {
        triple_modulus(a, b, c)
    } else {
        Ok(modulus(Family::E12, &[constant(a), constant(b), constant(c)])?)
    }
}

// The modulus line of the form of A3, or of P8, all of whose coefficients are the number that the next word spells.
fn single_line(name: &[u8], words: &mut Words) -> Result<ModulusLine, Stop> {
    let a = constant(words.fraction()?);
    if is(name, b"A3") {
        Ok(modulus(Family::A(3), &[a])?)
    } else {
        Ok(modulus(Family::P8, &[a; 10])?)
    }
}

// The modulus line of the form of a family with given rational coefficients.
fn line_of(words: &mut Words) -> Result<ModulusLine, Stop> {
    let name = words.next();
    if is(name, b"X9") {
        quartic_line(words)
    } else if is(name, b"J10") || is(name, b"E12") {
        triple_line(name, words)
    } else if is(name, b"A3") || is(name, b"P8") {
        single_line(name, words)
    } else {
        Err(Stop::Words)
    }
}

/// Appends a modulus line.
pub(crate) fn put_line(alloc: Global, out: &mut Vec<u8>, line: ModulusLine) -> Result<(), Stop> {
    match line {
        ModulusLine::J(q) => {
            out.extend_from_slice(b"j ")?;
            Ok(put_fraction(out, q)?)
        }
        ModulusLine::Value(e) => {
            out.extend_from_slice(b"value ")?;
            Ok(put_element(alloc, out, e)?)
        }
        ModulusLine::Form => Ok(out.extend_from_slice(b"form")?),
        ModulusLine::None => Ok(out.extend_from_slice(b"none")?),
    }
}

/// Appends the modulus line of the form of a family with given rational coefficients.
pub(crate) fn put_modulus(alloc: Global, words: &mut Words, out: &mut Vec<u8>) -> Result<(), Stop> {
    let line = line_of(words)?;
    put_line(alloc, out, line)
}

// Appends the unit values of a form of a family.
fn put_units<F: Field<Elem = Ext<Frac>> + Drop>(
    alloc: Global,
    over: &Over<F>,
    words: &mut Words,
    out: &mut Vec<u8>,
) -> Result<(), Stop>
    requires over { IsOver (F.is_ring over.now.field) (F.meaning over.now.field) over.now.algebra over.now.n over.now.order }
{
    let family = read_family(words.next()).ok_or(Stop::Words)?;
    let c = words.small()?;
    let f = over.jet(alloc, words)?;
    match is_form(alloc, &over.field, family, c, &f)? {
        Some(units) => put_elements(alloc, out, &units),
        None => Err(Stop::Nothing),
    }
}

// Appends the coefficients of the sum of a family's form.
fn put_coefficients<F: Field<Elem = Ext<Frac>> + Drop>(
    alloc: Global,
    over: &Over<F>,
    words: &mut Words,
    out: &mut Vec<u8>,
) -> Result<(), Stop>
    requires over { IsOver (F.is_ring over.now.field) (F.meaning over.now.field) over.now.algebra over.now.n over.now.order }
{
    let family = read_family(words.next()).ok_or(Stop::Words)?;
    let f = over.jet(alloc, words)?;
    let coefs = sum_coefficients(alloc, &over.field, family, &f)?;
    put_elements(alloc, out, &coefs)
}

// Appends 1 where a jet lies in a pattern, else 0.
fn put_pattern<F: Field<Elem = Ext<Frac>> + Drop>(
    alloc: Global,
    over: &Over<F>,
    words: &mut Words,
    out: &mut Vec<u8>,
) -> Result<(), Stop>
    requires over { IsOver (F.is_ring over.now.field) (F.meaning over.now.field) over.now.algebra over.now.n over.now.order }
{
    let pattern = read_pattern(words.next()).ok_or(Stop::Words)?;
    let c = words.small()?;
    let f = over.jet(alloc, words)?;
    Ok(put_number(out, u64::from(in_pattern(&over.field, pattern, c, &f)))?)
}

// Appends the form of D6 with two coefficients and that of a square.
fn put_form<F: Field<Elem = Ext<Frac>> + Drop>(
    alloc: Global,
    over: &Over<F>,
    words: &mut Words,
    out: &mut Vec<u8>,
) -> Result<(), Stop>
    requires over { IsOver (F.is_ring over.now.field) (F.meaning over.now.field) over.now.algebra over.now.n over.now.order }
{
    let coefs = [over.element(words)?, over.element(words)?];
    let squares = [over.element(words)?];
    let f = form_of(alloc, &over.field, Family::D(6), &coefs, &squares, 5)?;
    put_jets(alloc, out, &[f])
}

// Appends the invariants and the discriminant of a quartic form.
fn put_invariants<F: Field<Elem = Ext<Frac>> + Drop>(
    alloc: Global,
    over: &Over<F>,
    words: &mut Words,
    out: &mut Vec<u8>,
) -> Result<(), Stop>
    requires over { IsOver (F.is_ring over.now.field) (F.meaning over.now.field) over.now.algebra over.now.n over.now.order }
{
    let q = over.elements(alloc, words, 5)?;
    let (i, j) = quartic_invariants(&over.field, &q)?;
    let discriminant = quartic_discriminant_of(&over.field, &q)?;
    put_elements(alloc, out, &[i, j, discriminant])
}

// Appends the discriminant of a form of J10.
fn put_discriminant<F: Field<Elem = Ext<Frac>> + Drop>(
    alloc: Global,
    over: &Over<F>,
    words: &mut Words,
    out: &mut Vec<u8>,
) -> Result<(), Stop>
    requires over { IsOver (F.is_ring over.now.field) (F.meaning over.now.field) over.now.algebra over.now.n over.now.order }
{
    let q = over.elements(alloc, words, 3)?;
    Ok(put_element(alloc, out, triple_discriminant_of(&over.field, &q)?)?)
}

/// Appends the answer of a calculation with forms of families over a field.
pub(crate) fn calculate<F: Field<Elem = Ext<Frac>> + Drop>(
    alloc: Global,
    command: &[u8],
    over: &Over<F>,
    words: &mut Words,
    out: &mut Vec<u8>,
) -> Result<(), Stop>
    requires over { IsOver (F.is_ring over.now.field) (F.meaning over.now.field) over.now.algebra over.now.n over.now.order }
{
    if is(command, b"units") {
        put_units(alloc, over, words, out)
    } else if is(command, b"coefficients") {
        put_coefficients(alloc, over, words, out)
    } else if is(command, b"pattern") {
        put_pattern(alloc, over, words, out)
    } else if is(command, b"D6") {
        put_form(alloc, over, words, out)
    } else if is(command, b"quartic") {
        put_invariants(alloc, over, words, out)
    } else if is(command, b"triple") {
        put_discriminant(alloc, over, words, out)
    } else {
        Err(Stop::Words)
    }
}
