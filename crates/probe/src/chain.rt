//! Chains over a field: a germ that is carried by the moves of a line, order by order.

ghost use Rattle.std.specs.Prelude.{◌≡◌, ◌<◌, ◌≤◌, IfOk, OnOk};
ghost use Rattle.ext_algebra.specs.Algebra.{IsFieldAlgebra, algebra_meaning};
ghost use Rattle.probe.specs.Chained.{IsChained};
ghost use Rattle.probe.specs.Over.{IsOver};

use crate::changes::{change_of, put_change};
use crate::germs::starts_at_two;
use crate::scalars::Over;
use crate::words::{Stop, Words, is};
use chain_lift::lift_chain;
use coord_change::{Chain, Steps, composite, grow, push, start};
use ext_algebra::{Algebra, AlgebraField, Ext};
use poly_text::{new_names, put_polynomial};
use ring_law::{Field, Frac};
use std::alloc::Global;
use std::marker::Brand;
use std::sync::ledger::{Blank, Ledger};

// The chain of order 2 over the germ that the next word spells.
fn started<F: Field<Elem = Ext<Frac>> + Drop>(
    alloc: Global,
    over: &Over<F>,
    words: &mut Words,
) -> Result<Chain<Ext<Frac>>, Stop>
    requires over { IsOver (F.is_ring over.now.field) (F.meaning over.now.field) over.now.algebra over.now.n over.now.order }
    requires given { 0 < over.now.n }
    requires order_at_least_2 { 2 ≤ over.now.order }
    requires order_at_most_16 { over.now.order ≤ 16 }
    ensures chain { IfOk result (IsChained (F.meaning over.now.field) over.now.n over.now.order) }
{
    let germ = over.jet(alloc, words)?;
    if !starts_at_two(&over.field, &germ) {
        return Err(Stop::Words);
    }
    Ok(start(alloc, &over.field, &germ)?)
}

// The change of coordinates that the next words spell becomes the last move.
fn push_next<F: Field<Elem = Ext<Frac>> + Drop, L: Ledger>(
    alloc: Global,
    over: &Over<F>,
    words: &mut Words,
    chain: &mut Chain<Ext<Frac>>,
    steps: &mut Steps<L>,
) -> Result<(), Stop>
    requires over { IsOver (F.is_ring over.now.field) (F.meaning over.now.field) over.now.algebra over.now.n over.now.order }
    requires given { 0 < over.now.n }
    requires order_at_least_2 { 2 ≤ over.now.order }
    requires chain { IsChained (F.meaning over.now.field) over.now.n over.now.order chain.old }
    ensures chain { OnOk result (IsChained (F.meaning over.now.field) over.now.n over.now.order chain.new) }
{
    let change = change_of(alloc, over, words)?;
    Ok(push(chain, alloc, &over.field, &change, steps)?)
}

// The chain goes to the next order, where its germ is known that far.
fn grow_once<F: Field<Elem = Ext<Frac>> + Drop, L: Ledger>(
    alloc: Global,
    over: &Over<F>,
    chain: &mut Chain<Ext<Frac>>,
    steps: &mut Steps<L>,
) -> Result<(), Stop>
    requires over { IsOver (F.is_ring over.now.field) (F.meaning over.now.field) over.now.algebra over.now.n over.now.order }
    requires chain { IsChained (F.meaning over.now.field) over.now.n over.now.order chain.old }
    ensures chain { OnOk result (IsChained (F.meaning over.now.field) over.now.n over.now.order chain.new) }
{
    if chain.order() >= over.order {
        return Err(Stop::Words);
    }
    Ok(grow(chain, alloc, &over.field, steps)?)
}

// The chain that a germ and then as many steps as the next word says make: `grow`, or `push` and the parts of a change.
fn chain_of<F: Field<Elem = Ext<Frac>> + Drop, L: Ledger>(
    alloc: Global,
    over: &Over<F>,
    words: &mut Words,
    steps: &mut Steps<L>,
) -> Result<Chain<Ext<Frac>>, Stop>
    requires over { IsOver (F.is_ring over.now.field) (F.meaning over.now.field) over.now.algebra over.now.n over.now.order }
    requires given { 0 < over.now.n }
    requires order_at_least_2 { 2 ≤ over.now.order }
    requires order_at_most_16 { over.now.order ≤ 16 }
    ensures chain { IfOk result (IsChained (F.meaning over.now.field) over.now.n over.now.order) }
{
    let mut chain = started(alloc, over, words)?;
    let count = words.small()?;
    for _i in 0..count {
        if is(words.next(), b"push") {
            push_next(alloc, over, words, &mut chain, steps)?;
        } else {
            grow_once(alloc, over, &mut chain, steps)?;
        }
    }
    Ok(chain)
}

// Appends the last jet of a chain, or the composite of its moves.
fn put_chain<F: Field<Elem = Ext<Frac>> + Drop>(
    alloc: Global,
    command: &[u8],
    over: &Over<F>,
    chain: &Chain<Ext<Frac>>,
    out: &mut Vec<u8>,
) -> Result<(), Stop>
    requires over { IsOver (F.is_ring over.now.field) (F.meaning over.now.field) over.now.algebra over.now.n over.now.order }
    requires chain { IsChained (F.meaning over.now.field) over.now.n over.now.order chain.now }
{
    if is(command, b"carried") {
        Ok(put_polynomial(alloc, out, &new_names(), chain.carried())?)
    } else if is(command, b"composite") {
        put_change(alloc, out, &composite(chain, alloc, &over.field)?)
    } else {
        Err(Stop::Words)
    }
}

// Appends the answer of a chain, with its steps on a new ledger.
fn calculate_counted<F: Field<Elem = Ext<Frac>> + Drop, L: Ledger>(
    alloc: Global,
    blank: Blank,
    command: &[u8],
    over: &Over<F>,
    words: &mut Words,
    out: &mut Vec<u8>,
) -> Result<(), Stop>
    requires name { blank.name ≡ L.name }
    requires parts { blank.parts ≡ L.parts }
    requires ledger { 0 < L.parts }
    requires over { IsOver (F.is_ring over.now.field) (F.meaning over.now.field) over.now.algebra over.now.n over.now.order }
    requires given { 0 < over.now.n }
    requires order_at_least_2 { 2 ≤ over.now.order }
    requires order_at_most_16 { over.now.order ≤ 16 }
{
    let mut steps = Steps::<L>::open(blank);
    let chain = chain_of(alloc, over, words, &mut steps)?;
    put_chain(alloc, command, over, &chain, out)
}

/// Appends the answer of a calculation with a chain.
pub(crate) fn calculate<F: Field<Elem = Ext<Frac>> + Drop>(
    alloc: Global,
    command: &[u8],
    over: &Over<F>,
    words: &mut Words,
    out: &mut Vec<u8>,
) -> Result<(), Stop>
    requires over { IsOver (F.is_ring over.now.field) (F.meaning over.now.field) over.now.algebra over.now.n over.now.order }
{
    if over.n == 0 || over.order < 2 || over.order > 16 {
        return Err(Stop::Words);
    }
    calculate_counted::<F, Brand>(alloc, Blank::new(1), command, over, words, out)
}

// The chain over an algebra by the germ and the moves of the chain over the rational numbers that the next words make.
fn lifted_of<L: Ledger>(
    alloc: Global,
    over: &Over<AlgebraField>,
    words: &mut Words,
    steps: &mut Steps<L>,
) -> Result<Chain<Ext<Frac>>, Stop>
    requires over { IsOver (IsFieldAlgebra over.now.field.algebra) (algebra_meaning over.now.field.algebra) over.now.algebra over.now.n over.now.order }
    requires given { 0 < over.now.n }
    requires order_at_least_2 { 2 ≤ over.now.order }
    requires order_at_most_16 { over.now.order ≤ 16 }
    ensures chain { IfOk result (IsChained (algebra_meaning over.now.field.algebra) over.now.n over.now.order) }
{
    let rational = Over {
        field: AlgebraField {
            algebra: Algebra::Rational,
        },
        algebra: Algebra::Rational,
        n: over.n,
        order: over.order,
    };
    let chain = chain_of(alloc, &rational, words, steps)?;
    Ok(lift_chain(alloc, over.field.algebra, &chain, steps)?)
}

// Appends the answer of a chain that is lifted to an algebra, with its steps on a new ledger.
fn lifted_counted<L: Ledger>(
    alloc: Global,
    blank: Blank,
    command: &[u8],
    over: &Over<AlgebraField>,
    words: &mut Words,
    out: &mut Vec<u8>,
) -> Result<(), Stop>
    requires name { blank.name ≡ L.name }
    requires parts { blank.parts ≡ L.parts }
    requires ledger { 0 < L.parts }
    requires over { IsOver (IsFieldAlgebra over.now.field.algebra) (algebra_meaning over.now.field.algebra) over.now.algebra over.now.n over.now.order }
    requires given { 0 < over.now.n }
    requires order_at_least_2 { 2 ≤ over.now.order }
    requires order_at_most_16 { over.now.order ≤ 16 }
{
    let mut steps = Steps::<L>::open(blank);
    let chain = lifted_of(alloc, over, words, &mut steps)?;
    put_chain(alloc, command, over, &chain, out)
}

/// Appends the answer of a calculation with a chain over an algebra by the germ and the moves of one over the rational numbers.
pub(crate) fn calculate_lifted(
    alloc: Global,
    command: &[u8],
    over: &Over<AlgebraField>,
    words: &mut Words,
    out: &mut Vec<u8>,
) -> Result<(), Stop>
    requires over { IsOver (IsFieldAlgebra over.now.field.algebra) (algebra_meaning over.now.field.algebra) over.now.algebra over.now.n over.now.order }
{
    if over.n == 0 || over.order < 2 || over.order > 16 {
        return Err(Stop::Words);
    }
    lifted_counted::<Brand>(alloc, Blank::new(1), command, over, words, out)
}
