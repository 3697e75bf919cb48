//! Changes of coordinates over a field, and the matrices of their linear parts.

ghost use Rattle.std.specs.Prelude.{◌≡◌, ◌≢◌, ◌<◌, ◌≤◌, ◌-◌, true, length, All, IfOk, IfSome};
ghost use Rattle.poly_law.specs.Polynomials.{HaveNoConstant};
ghost use Rattle.jet_subst.specs.Parts.{IsPart, part_of};
ghost use Rattle.coord_change.specs.Changes.{IsChange};
ghost use Rattle.probe.specs.Over.{IsOver};

use crate::jets::put_jets;
use crate::scalars::{Over, put_elements};
use crate::words::{Stop, Words, is};
use coord_change::{
    Change, ChangeError, ChangeOf, carry, from_parts, identity, invert_to, linear, linear_part,
    matrix_product, then, unit_matrix,
};
use ext_algebra::Ext;
use jet_poly::{JetOf, coef};
use mono_exp::Exp;
use ring_law::{Field, Frac, Ring};
use split_lemma::split;
use std::alloc::Global;

/// Whether no jet of the list has a constant term.
fn have_no_constant<R: Ring>(ring: &R, n: u8, parts: &[JetOf<R>]) -> bool
    requires ring { R.is_ring ring.now }
    requires at_most_8_variables { n ≤ 8 }
    requires parts { All (IsPart (R.meaning ring.now) n) parts.now }
    ensures low { result ≡ true → (let m = R.meaning ring.now in HaveNoConstant n m.scalars.ops (length parts.now) (part_of n m.value parts.now)) }
{
    for p in parts {
        let constant = coef(ring, p, Exp { e: [0; 8] });
        if !ring.eq(constant, ring.zero()) {
            return false;
        }
    }
    true
}

// The change of coordinates with these n parts of an order; none where a part has a constant term.
fn change_with<F: Field>(
    alloc: Global,
    field: &F,
    n: u8,
    order: u8,
    parts: &[JetOf<F>],
) -> Result<Option<ChangeOf<F>>, ChangeError<F::Elem>>
    requires ring { F.is_ring field.now }
    requires given { 0 < n }
    requires at_most_8_variables { n ≤ 8 }
    requires order_at_least_1 { 1 ≤ order }
    requires order_at_most_17 { order ≤ 17 }
    requires count { length parts.now ≡ n }
    requires parts { All (IsPart (F.meaning field.now) n) parts.now }
    requires orders { All (λ p. p.order ≡ order) parts.now }
    ensures change { IfOk result (λ o. IfSome o (IsChange (F.meaning field.now))) }
    ensures n { IfOk result (λ o. IfSome o (λ c. c.n ≡ n)) }
    ensures order { IfOk result (λ o. IfSome o (λ c. c.order ≡ order)) }
{
    if have_no_constant(field, n, parts) {
        let change = from_parts(alloc, field, parts)?;
        return Ok(Some(change));
    }
    Ok(None)
}

/// The change of coordinates whose parts the next words spell.
pub(crate) fn change_of<F: Field<Elem = Ext<Frac>> + Drop>(
    alloc: Global,
    over: &Over<F>,
    words: &mut Words,
) -> Result<Change<Ext<Frac>>, Stop>
    requires over { IsOver (F.is_ring over.now.field) (F.meaning over.now.field) over.now.algebra over.now.n over.now.order }
    requires given { 0 < over.now.n }
    requires order_at_least_1 { 1 ≤ over.now.order }
    ensures change { IfOk result (IsChange (F.meaning over.now.field)) }
    ensures n { IfOk result (λ c. c.n ≡ over.now.n) }
    ensures order { IfOk result (λ c. c.order ≡ over.now.order) }
{
    let parts = over.parts(alloc, words, over.n)?;
    match change_with(alloc, &over.field, over.n, over.order, &parts)? {
        Some(change) => Ok(change),
        None => Err(Stop::Words),
    }
}

// The numbers, none of them 0, that the next words spell, one for each variable from the corank on.
fn squares_of<F: Field<Elem = Ext<Frac>> + Drop>(
    alloc: Global,
    over: &Over<F>,
    words: &mut Words,
    corank: u8,
) -> Result<Vec<Ext<Frac>>, Stop>
    requires over { IsOver (F.is_ring over.now.field) (F.meaning over.now.field) over.now.algebra over.now.n over.now.order }
    requires corank { corank ≤ over.now.n }
    ensures elems { IfOk result (λ v. All (F.meaning over.now.field).is_elem v.items) }
    ensures count { IfOk result (λ v. length v.items ≡ over.now.n - corank) }
    ensures units { IfOk result (λ v. All (λ x. (F.meaning over.now.field).value x ≢ (F.meaning over.now.field).scalars.ops.zero) v.items) }
{
    let mut squares = Vec::new(alloc);
    for _i in corank..over.n {
        let x = over.element(words)?;
        if over.field.eq(x, over.field.zero()) {
            return Err(Stop::Words);
        }
        squares.push(x)?;
    }
    Ok(squares)
}

// The split move of a degree of a jet whose squares have given coefficients.
fn split_of<F: Field<Elem = Ext<Frac>> + Drop>(
    alloc: Global,
    over: &Over<F>,
    words: &mut Words,
) -> Result<Change<Ext<Frac>>, Stop>
    requires over { IsOver (F.is_ring over.now.field) (F.meaning over.now.field) over.now.algebra over.now.n over.now.order }
    requires given { 0 < over.now.n }
{
    let (d, corank) = (words.small()?, words.small()?);
    if d < 3 || corank > over.n || over.order > 16 {
        return Err(Stop::Words);
    }
    let squares = squares_of(alloc, over, words, corank)?;
    let f = over.jet(alloc, words)?;
    Ok(split(alloc, &over.field, &f, &squares, corank, d)?)
}

/// Appends the parts of a change, and the inverse of its linear part behind a semicolon.
pub(crate) fn put_change(
    alloc: Global,
    out: &mut Vec<u8>,
    c: &Change<Ext<Frac>>,
) -> Result<(), Stop> {
    put_jets(alloc, out, c.parts.as_slice())?;
    out.extend_from_slice(b" ; ")?;
    put_elements(alloc, out, c.inverse.as_slice())
}

// The change of coordinates that a matrix, row after row, makes.
fn linear_of<F: Field<Elem = Ext<Frac>> + Drop>(
    alloc: Global,
    over: &Over<F>,
    words: &mut Words,
) -> Result<Change<Ext<Frac>>, Stop>
    requires over { IsOver (F.is_ring over.now.field) (F.meaning over.now.field) over.now.algebra over.now.n over.now.order }
    requires given { 0 < over.now.n }
    requires order_at_least_1 { 1 ≤ over.now.order }
{
    let count = usize::from(over.n) * usize::from(over.n);
    let matrix = over.elements(alloc, words, count)?;
    Ok(linear(alloc, &over.field, over.n, over.order, &matrix)?)
}

// A change of coordinates, and then the next one.
fn composed<F: Field<Elem = Ext<Frac>> + Drop>(
    alloc: Global,
    over: &Over<F>,
    words: &mut Words,
) -> Result<Change<Ext<Frac>>, Stop>
    requires over { IsOver (F.is_ring over.now.field) (F.meaning over.now.field) over.now.algebra over.now.n over.now.order }
    requires given { 0 < over.now.n }
    requires order_at_least_1 { 1 ≤ over.now.order }
{
    let first = change_of(alloc, over, words)?;
    let next = change_of(alloc, over, words)?;
    Ok(then(alloc, &over.field, &first, &next, over.order)?)
}

// The inverse of a change of coordinates.
fn inverted<F: Field<Elem = Ext<Frac>> + Drop>(
    alloc: Global,
    over: &Over<F>,
    words: &mut Words,
) -> Result<Change<Ext<Frac>>, Stop>
    requires over { IsOver (F.is_ring over.now.field) (F.meaning over.now.field) over.now.algebra over.now.n over.now.order }
    requires given { 0 < over.now.n }
    requires order_at_least_1 { 1 ≤ over.now.order }
{
    let c = change_of(alloc, over, words)?;
    Ok(invert_to(alloc, &over.field, &c, over.order)?)
}

// The change of coordinates that is asked for.
fn change_for<F: Field<Elem = Ext<Frac>> + Drop>(
    alloc: Global,
    command: &[u8],
    over: &Over<F>,
    words: &mut Words,
) -> Result<Change<Ext<Frac>>, Stop>
    requires over { IsOver (F.is_ring over.now.field) (F.meaning over.now.field) over.now.algebra over.now.n over.now.order }
    requires given { 0 < over.now.n }
    requires order_at_least_1 { 1 ≤ over.now.order }
{
    if is(command, b"identity") {
        Ok(identity(alloc, &over.field, over.n, over.order)?)
    } else if is(command, b"from-parts") {
        change_of(alloc, over, words)
    } else if is(command, b"linear") {
        linear_of(alloc, over, words)
    } else if is(command, b"then") {
        composed(alloc, over, words)
    } else if is(command, b"invert") {
        inverted(alloc, over, words)
    } else if is(command, b"split") {
        split_of(alloc, over, words)
    } else {
        Err(Stop::Words)
    }
}

// The linear part of the parts that the next words spell, row after row.
fn linear_part_of<F: Field<Elem = Ext<Frac>> + Drop>(
    alloc: Global,
    over: &Over<F>,
    words: &mut Words,
) -> Result<Vec<Ext<Frac>>, Stop>
    requires over { IsOver (F.is_ring over.now.field) (F.meaning over.now.field) over.now.algebra over.now.n over.now.order }
    requires given { 0 < over.now.n }
{
    let parts = over.parts(alloc, words, over.n)?;
    Ok(linear_part(alloc, &over.field, over.n, &parts)?)
}

// The product of two matrices, row after row.
fn product_of<F: Field<Elem = Ext<Frac>> + Drop>(
    alloc: Global,
    over: &Over<F>,
    words: &mut Words,
) -> Result<Vec<Ext<Frac>>, Stop>
    requires over { IsOver (F.is_ring over.now.field) (F.meaning over.now.field) over.now.algebra over.now.n over.now.order }
    requires given { 0 < over.now.n }
{
    let count = usize::from(over.n) * usize::from(over.n);
    let b = over.elements(alloc, words, count)?;
    let a = over.elements(alloc, words, count)?;
    Ok(matrix_product(alloc, &over.field, over.n, &b, &a)?)
}

// Appends a jet in new coordinates.
fn put_carried<F: Field<Elem = Ext<Frac>> + Drop>(
    alloc: Global,
    over: &Over<F>,
    words: &mut Words,
    out: &mut Vec<u8>,
) -> Result<(), Stop>
    requires over { IsOver (F.is_ring over.now.field) (F.meaning over.now.field) over.now.algebra over.now.n over.now.order }
    requires given { 0 < over.now.n }
    requires order_at_least_1 { 1 ≤ over.now.order }
{
    let c = change_of(alloc, over, words)?;
    let f = over.jet(alloc, words)?;
    let h = carry(alloc, &over.field, &c, &f, over.order)?;
    put_jets(alloc, out, &[h])
}

/// Appends the answer of a calculation with changes of coordinates.
pub(crate) fn calculate<F: Field<Elem = Ext<Frac>> + Drop>(
    alloc: Global,
    command: &[u8],
    over: &Over<F>,
    words: &mut Words,
    out: &mut Vec<u8>,
) -> Result<(), Stop>
    requires over { IsOver (F.is_ring over.now.field) (F.meaning over.now.field) over.now.algebra over.now.n over.now.order }
{
    if over.n == 0 || over.order == 0 {
        return Err(Stop::Words);
    }
    if is(command, b"carry") {
        put_carried(alloc, over, words, out)
    } else if is(command, b"linear-part") {
        put_elements(alloc, out, &linear_part_of(alloc, over, words)?)
    } else if is(command, b"matrix-product") {
        put_elements(alloc, out, &product_of(alloc, over, words)?)
    } else if is(command, b"unit-matrix") {
        put_elements(alloc, out, &unit_matrix(alloc, &over.field, over.n)?)
    } else {
        put_change(alloc, out, &change_for(alloc, command, over, words)?)
    }
}
