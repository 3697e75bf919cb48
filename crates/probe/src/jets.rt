//! Jets over a field: sums, products, derivatives, truncations, substitutions.

ghost use Rattle.std.specs.Prelude.{◌≡◌, ◌<◌, ◌≤◌, length, IfOk};
ghost use Rattle.jet_subst.specs.KeptPowers.{IsKept};
ghost use Rattle.probe.specs.Over.{IsOver};

use crate::scalars::Over;
use crate::words::{Stop, Words, is};
use ext_algebra::Ext;
use jet_poly::{Jet, add, coef, cut, derivative, from_terms, mul_cut, part, scale};
use jet_subst::{Kept, keep, powers, product, subst};
use poly_text::{new_names, put_element, put_polynomial};
use ring_law::{Field, Frac};
use std::alloc::Global;
use text_reader::read_monomial;

/// Appends jets in the variables u1 to u8, with spaces between them.
pub(crate) fn put_jets(
    alloc: Global,
    out: &mut Vec<u8>,
    jets: &[Jet<Ext<Frac>>],
) -> Result<(), Stop> {
    let names = new_names();
    for (i, f) in jets.iter().enumerate() {
        if i > 0 {
            out.push(b' ')?;
        }
        put_polynomial(alloc, out, &names, f)?;
    }
    Ok(())
}

// The substitution of jets in as many variables as the next word says.
fn substituted<F: Field<Elem = Ext<Frac>> + Drop>(
    alloc: Global,
    over: &Over<F>,
    words: &mut Words,
) -> Result<Jet<Ext<Frac>>, Stop>
    requires over { IsOver (F.is_ring over.now.field) (F.meaning over.now.field) over.now.algebra over.now.n over.now.order }
{
    let m = words.small()?;
    if over.n == 0 || m > 8 {
        return Err(Stop::Words);
    }
    let f = over.jet(alloc, words)?;
    let parts = over.parts(alloc, words, m)?;
    Ok(subst(alloc, &over.field, &f, &parts, over.order)?)
}

// The products of powers of the jets in m variables that the next words spell; none is formed yet.
fn kept_of<F: Field<Elem = Ext<Frac>> + Drop>(
    alloc: Global,
    over: &Over<F>,
    words: &mut Words,
    m: u8,
) -> Result<Kept<Ext<Frac>>, Stop>
    requires over { IsOver (F.is_ring over.now.field) (F.meaning over.now.field) over.now.algebra over.now.n over.now.order }
    requires given { 0 < over.now.n }
    requires at_most_8_variables { m ≤ 8 }
    ensures kept { IfOk result (IsKept (F.meaning over.now.field)) }
    ensures count { IfOk result (λ c. length c.parts ≡ over.now.n) }
    ensures order { IfOk result (λ c. c.order ≡ over.now.order) }
{
    let parts = over.parts(alloc, words, m)?;
    Ok(keep(alloc, &over.field, &parts, over.order)?)
}

// The product of powers of jets in as many variables as the next word says, with the exponents of a monomial.
fn kept_product<F: Field<Elem = Ext<Frac>> + Drop>(
    alloc: Global,
    over: &Over<F>,
    words: &mut Words,
) -> Result<Jet<Ext<Frac>>, Stop>
    requires over { IsOver (F.is_ring over.now.field) (F.meaning over.now.field) over.now.algebra over.now.n over.now.order }
{
    let m = words.small()?;
    if over.n == 0 || m > 8 {
        return Err(Stop::Words);
    }
    let monomial = over.jet(alloc, words)?;
    let mut kept = kept_of(alloc, over, words, m)?;
    let Some(t) = monomial.terms().first() else {
        return Err(Stop::Words);
    };
    Ok(product(&mut kept, alloc, &over.field, t.0)?)
}

// The sum of the terms of so many polynomials as the next word says.
fn collected<F: Field<Elem = Ext<Frac>> + Drop>(
    alloc: Global,
    over: &Over<F>,
    words: &mut Words,
) -> Result<Jet<Ext<Frac>>, Stop>
    requires over { IsOver (F.is_ring over.now.field) (F.meaning over.now.field) over.now.algebra over.now.n over.now.order }
{
    let count = words.small()?;
    let terms = over.terms(alloc, words, over.n, count)?;
    Ok(from_terms(alloc, &over.field, over.n, over.order, &terms)?)
}

// The sum or the product of two jets.
fn of_two<F: Field<Elem = Ext<Frac>> + Drop>(
    alloc: Global,
    command: &[u8],
    over: &Over<F>,
    words: &mut Words,
) -> Result<Jet<Ext<Frac>>, Stop>
    requires over { IsOver (F.is_ring over.now.field) (F.meaning over.now.field) over.now.algebra over.now.n over.now.order }
{
    let f = over.jet(alloc, words)?;
    let g = over.jet(alloc, words)?;
    if is(command, b"add") {
        Ok(add(alloc, &over.field, &f, &g)?)
    } else {
        Ok(mul_cut(alloc, &over.field, &f, &g, over.order)?)
    }
}

// A jet times a number.
fn scaled<F: Field<Elem = Ext<Frac>> + Drop>(
    alloc: Global,
    over: &Over<F>,
    words: &mut Words,
) -> Result<Jet<Ext<Frac>>, Stop>
    requires over { IsOver (F.is_ring over.now.field) (F.meaning over.now.field) over.now.algebra over.now.n over.now.order }
{
    let c = over.element(words)?;
    let f = over.jet(alloc, words)?;
    Ok(scale(alloc, &over.field, &f, c)?)
}

// The truncation or the part of a jet at the degree that the next word says.
fn at_degree<F: Field<Elem = Ext<Frac>> + Drop>(
    alloc: Global,
    command: &[u8],
    over: &Over<F>,
    words: &mut Words,
) -> Result<Jet<Ext<Frac>>, Stop>
    requires over { IsOver (F.is_ring over.now.field) (F.meaning over.now.field) over.now.algebra over.now.n over.now.order }
{
    let d = words.small()?;
    let f = over.jet(alloc, words)?;
    if is(command, b"cut") {
        Ok(cut(alloc, &over.field, &f, d)?)
    } else {
        Ok(part(alloc, &over.field, &f, d)?)
    }
}

// The derivative in the variable whose number the next word says, from 0 on.
fn slope<F: Field<Elem = Ext<Frac>> + Drop>(
    alloc: Global,
    over: &Over<F>,
    words: &mut Words,
) -> Result<Jet<Ext<Frac>>, Stop>
    requires over { IsOver (F.is_ring over.now.field) (F.meaning over.now.field) over.now.algebra over.now.n over.now.order }
{
    let i = words.small()?;
    let f = over.jet(alloc, words)?;
    if i < f.n() {
        return Ok(derivative(alloc, &over.field, &f, i)?);
    }
    Err(Stop::Words)
}

// The jet that is asked for.
fn jet_of<F: Field<Elem = Ext<Frac>> + Drop>(
    alloc: Global,
    command: &[u8],
    over: &Over<F>,
    words: &mut Words,
) -> Result<Jet<Ext<Frac>>, Stop>
    requires over { IsOver (F.is_ring over.now.field) (F.meaning over.now.field) over.now.algebra over.now.n over.now.order }
{
    if is(command, b"collect") {
        collected(alloc, over, words)
    } else if is(command, b"add") || is(command, b"mul") {
        of_two(alloc, command, over, words)
    } else if is(command, b"scale") {
        scaled(alloc, over, words)
    } else if is(command, b"cut") || is(command, b"part") {
        at_degree(alloc, command, over, words)
    } else if is(command, b"derivative") {
        slope(alloc, over, words)
    } else if is(command, b"subst") {
        substituted(alloc, over, words)
    } else if is(command, b"product-of-powers") {
        kept_product(alloc, over, words)
    } else {
        Err(Stop::Words)
    }
}

// Appends the powers of a jet, up to the exponent that the next word says.
fn put_powers<F: Field<Elem = Ext<Frac>> + Drop>(
    alloc: Global,
    over: &Over<F>,
    words: &mut Words,
    out: &mut Vec<u8>,
) -> Result<(), Stop>
    requires over { IsOver (F.is_ring over.now.field) (F.meaning over.now.field) over.now.algebra over.now.n over.now.order }
{
    let most = words.small()?;
    let p = over.jet(alloc, words)?;
    let all = powers(alloc, &over.field, &p, most, over.order)?;
    put_jets(alloc, out, &all)
}

// Appends the coefficient of a jet at a monomial.
fn put_coefficient<F: Field<Elem = Ext<Frac>> + Drop>(
    alloc: Global,
    over: &Over<F>,
    words: &mut Words,
    out: &mut Vec<u8>,
) -> Result<(), Stop>
    requires over { IsOver (F.is_ring over.now.field) (F.meaning over.now.field) over.now.algebra over.now.n over.now.order }
{
    let f = over.jet(alloc, words)?;
    let Some(m) = read_monomial(over.n, 17, words.next()) else {
        return Err(Stop::Words);
    };
    Ok(put_element(alloc, out, coef(&over.field, &f, m))?)
}

/// Appends the answer of a calculation with jets.
pub(crate) fn calculate<F: Field<Elem = Ext<Frac>> + Drop>(
    alloc: Global,
    command: &[u8],
    over: &Over<F>,
    words: &mut Words,
    out: &mut Vec<u8>,
) -> Result<(), Stop>
    requires over { IsOver (F.is_ring over.now.field) (F.meaning over.now.field) over.now.algebra over.now.n over.now.order }
{
    if is(command, b"powers") {
        put_powers(alloc, over, words, out)
    } else if is(command, b"coefficient") {
        put_coefficient(alloc, over, words, out)
    } else {
        let h = jet_of(alloc, command, over, words)?;
        Ok(put_polynomial(alloc, out, &new_names(), &h)?)
    }
}
