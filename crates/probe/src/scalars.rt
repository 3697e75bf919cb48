//! Elements of an algebra, and jets over it, from the words of a line.

ghost use Rattle.std.specs.Prelude.{◌≡◌, ◌≤◌, All, IfOk, IfSome, length};
ghost use Rattle.ext_algebra.specs.Algebra.{IsAlgebra, IsElement};
ghost use Rattle.ext_algebra.specs.declared.algebra.Ext.{Ext as ExtOf};
ghost use Rattle.ring_law.specs.declared.fraction.Frac.{Frac as FracOf};
ghost use Rattle.mono_exp.specs.Exponents.{IsIn};
ghost use Rattle.jet_poly.specs.Jets.{IsJet};
ghost use Rattle.jet_subst.specs.Parts.{IsPart};
ghost use Rattle.cert_text.specs.WellFormed.{IsJetOf};
ghost use Rattle.probe.specs.Over.{IsOver};

use crate::words::{Stop, Words, is};
use crate::{chain, changes, forms, jets, kills, rows, shapes, texts};
use ext_algebra::{Algebra, AlgebraField, AlgebraRing, Ext, ExtField, ExtRing, TowerField, Triple};
use jet_poly::{Jet, from_terms};
use mono_exp::Exp;
use poly_text::put_element;
use ring_law::{Field, Frac, Ring};
use small_frac::Rationals;
use std::alloc::Global;
use text_reader::{read_element, read_polynomial};

// The element of an algebra that the next word spells.
fn element_of(algebra: Algebra, words: &mut Words) -> Result<Ext<Frac>, Stop>
    ensures { IfOk result (IsElement algebra) }
{
    match read_element(algebra, words.next()) {
        Some(e) => Ok(e),
        None => Err(Stop::Words),
    }
}

// The polynomial in n variables over an algebra that the next word spells.
fn polynomial_of(
    alloc: Global,
    algebra: Algebra,
    words: &mut Words,
    n: u8,
) -> Result<Jet<Ext<Frac>>, Stop>
    ensures { IfOk result (IsJetOf n 17 algebra) }
{
    match read_polynomial(alloc, algebra, n, 17, words.next())? {
        Some(f) => Ok(f),
        None => Err(Stop::Words),
    }
}

/// A field whose elements are those of an algebra, and how many variables and which order a line is about.
#[derive(Drop)]
pub(crate) struct Over<F: Drop> {
    pub(crate) field: F,
    pub(crate) algebra: Algebra,
    pub(crate) n: u8,
    pub(crate) order: u8,
}

impl<F: Field<Elem = Ext<Frac>> + Drop> Over<F> {
    /// The element that the next word spells.
    pub(crate) fn element(&self, words: &mut Words) -> Result<Ext<Frac>, Stop>
        requires over { IsOver (F.is_ring self.now.field) (F.meaning self.now.field) self.now.algebra self.now.n self.now.order }
        ensures elem { IfOk result (F.meaning self.now.field).is_elem }
    {
        element_of(self.algebra, words)
    }

    /// The elements that the next words spell.
    pub(crate) fn elements(
        &self,
        alloc: Global,
        words: &mut Words,
        count: usize,
    ) -> Result<Vec<Ext<Frac>>, Stop>
        requires over { IsOver (F.is_ring self.now.field) (F.meaning self.now.field) self.now.algebra self.now.n self.now.order }
        ensures elems { IfOk result (λ v. All (F.meaning self.now.field).is_elem v.items) }
        ensures count { IfOk result (λ v. length v.items ≡ count) }
    {
        let mut elements = Vec::new(alloc);
        for _i in 0..count {
            let e = self.element(words)?;
            elements.push(e)?;
        }
        Ok(elements)
    }

    /// The terms in n variables of the polynomials that the next words spell.
    pub(crate) fn terms(
        &self,
        alloc: Global,
        words: &mut Words,
        n: u8,
        count: u8,
    ) -> Result<Vec<(Exp, Ext<Frac>)>, Stop>
        requires over { IsOver (F.is_ring self.now.field) (F.meaning self.now.field) self.now.algebra self.now.n self.now.order }
        ensures elems { IfOk result (λ v. All (λ t. (F.meaning self.now.field).is_elem t.1) v.items) }
        ensures variables { IfOk result (λ v. All (λ t. IsIn n t.0.e) v.items) }
    {
        let mut all = Vec::new(alloc);
        for _i in 0..count {
            let f = polynomial_of(alloc, self.algebra, words, n)?;
            all.extend_from_slice(f.terms())?;
        }
        Ok(all)
    }

    /// The jet in n variables of the polynomial that the next word spells.
    pub(crate) fn jet_in(
        &self,
        alloc: Global,
        words: &mut Words,
        n: u8,
    ) -> Result<Jet<Ext<Frac>>, Stop>
        requires over { IsOver (F.is_ring self.now.field) (F.meaning self.now.field) self.now.algebra self.now.n self.now.order }
        requires at_most_8_variables { n ≤ 8 }
        ensures jet { IfOk result (IsJet (F.meaning self.now.field)) }
        ensures n { IfOk result (λ f. f.n ≡ n) }
        ensures order { IfOk result (λ f. f.order ≡ self.now.order) }
    {
        let terms = self.terms(alloc, words, n, 1)?;
        Ok(from_terms(alloc, &self.field, n, self.order, &terms)?)
    }

    /// The same in the line's number of variables.
    pub(crate) fn jet(&self, alloc: Global, words: &mut Words) -> Result<Jet<Ext<Frac>>, Stop>
        requires over { IsOver (F.is_ring self.now.field) (F.meaning self.now.field) self.now.algebra self.now.n self.now.order }
        ensures jet { IfOk result (IsJet (F.meaning self.now.field)) }
        ensures n { IfOk result (λ f. f.n ≡ self.now.n) }
        ensures order { IfOk result (λ f. f.order ≡ self.now.order) }
    {
        self.jet_in(alloc, words, self.n)
    }

    /// As many jets in n variables as the line is about.
    pub(crate) fn parts(
        &self,
        alloc: Global,
        words: &mut Words,
        n: u8,
    ) -> Result<Vec<Jet<Ext<Frac>>>, Stop>
        requires over { IsOver (F.is_ring self.now.field) (F.meaning self.now.field) self.now.algebra self.now.n self.now.order }
        requires at_most_8_variables { n ≤ 8 }
        ensures count { IfOk result (λ v. length v.items ≡ self.now.n) }
        ensures parts { IfOk result (λ v. All (IsPart (F.meaning self.now.field) n) v.items) }
        ensures orders { IfOk result (λ v. All (λ p. p.order ≡ self.now.order) v.items) }
    {
        let mut parts = Vec::new(alloc);
        for _i in 0..self.n {
            let p = self.jet_in(alloc, words, n)?;
            parts.push(p)?;
        }
        Ok(parts)
    }
}

/// Appends elements with spaces between them.
pub(crate) fn put_elements(
    alloc: Global,
    out: &mut Vec<u8>,
    elements: &[Ext<Frac>],
) -> Result<(), Stop> {
    for (i, e) in elements.iter().enumerate() {
        if i > 0 {
            out.push(b' ')?;
        }
        put_element(alloc, out, *e)?;
    }
    Ok(())
}

// Appends the inverse of an element.
fn put_inverse<F: Field<Elem = Ext<Frac>> + Drop>(
    alloc: Global,
    over: &Over<F>,
    words: &mut Words,
    out: &mut Vec<u8>,
) -> Result<(), Stop>
    requires over { IsOver (F.is_ring over.now.field) (F.meaning over.now.field) over.now.algebra over.now.n over.now.order }
{
    let a = over.element(words)?;
    match over.field.inv(a)? {
        Some(x) => Ok(put_element(alloc, out, x)?),
        None => Err(Stop::Nothing),
    }
}

// Appends the answer to a line that is about a field.
fn answer_over<F: Field<Elem = Ext<Frac>> + Drop>(
    alloc: Global,
    group: &[u8],
    command: &[u8],
    over: &Over<F>,
    words: &mut Words,
    out: &mut Vec<u8>,
) -> Result<(), Stop>
    requires over { IsOver (F.is_ring over.now.field) (F.meaning over.now.field) over.now.algebra over.now.n over.now.order }
{
    if is(group, b"jet") {
        jets::calculate(alloc, command, over, words, out)
    } else if is(group, b"change") {
        changes::calculate(alloc, command, over, words, out)
    } else if is(group, b"chain") {
        chain::calculate(alloc, command, over, words, out)
    } else if is(group, b"kill") {
        kills::calculate(alloc, command, over, words, out)
    } else if is(group, b"row") {
        rows::calculate(alloc, command, over, words, out)
    } else if is(group, b"form") {
        forms::calculate(alloc, command, over, words, out)
    } else if is(group, b"shape") {
        shapes::calculate(alloc, command, over, words, out)
    } else if is(group, b"element") && is(command, b"inverse") {
        put_inverse(alloc, over, words, out)
    } else {
        Err(Stop::Words)
    }
}

// Appends the product of two elements of an algebra, which may be no field.
fn put_product(
    alloc: Global,
    algebra: Algebra,
    words: &mut Words,
    out: &mut Vec<u8>,
) -> Result<(), Stop>
    requires { IsAlgebra algebra }
{
    let ring = AlgebraRing { algebra };
    let a = element_of(algebra, words)?;
    let b = element_of(algebra, words)?;
    Ok(put_element(alloc, out, ring.mul(a, b)?)?)
}

// The ring of a quadratic or cubic algebra.
fn ring_of(algebra: Algebra) -> Option<ExtRing<Rationals>>
    requires { IsAlgebra algebra }
    ensures ring { IfSome result (λ r. ⟦<ExtRing<Rationals> as Ring>⟧.is_ring r) }
    ensures elements { IfSome result (λ r. (e : ExtOf FracOf) → IsElement algebra e → (⟦<ExtRing<Rationals> as Ring>⟧.meaning r).is_elem e) }
{
    match algebra {
        Algebra::Rational => None,
        Algebra::Quadratic { m1, m0 } => Some(ExtRing::quadratic(Rationals, m1, m0)),
        Algebra::Cubic { m2, m1, m0 } => Some(ExtRing::cubic(Rationals, m2, m1, m0)),
        Algebra::Tower { .. } => None,
    }
}

// Appends the conjugate of an element of a quadratic algebra.
fn put_conjugate(
    alloc: Global,
    algebra: Algebra,
    words: &mut Words,
    out: &mut Vec<u8>,
) -> Result<(), Stop>
    requires { IsAlgebra algebra }
{
    let a = element_of(algebra, words)?;
    match ring_of(algebra) {
        Some(ring) if ring.degree == 2 => Ok(put_element(alloc, out, ring.conjugate(a)?)?),
        _ => Err(Stop::Words),
    }
}

// The three components that the next words spell.
fn triple_of(algebra: Algebra, words: &mut Words) -> Result<Triple<Ext<Frac>>, Stop>
    ensures { IfOk result (λ t. IsElement algebra t.c0 × IsElement algebra t.c1 × IsElement algebra t.c2) }
{
    let c0 = element_of(algebra, words)?;
    let c1 = element_of(algebra, words)?;
    let c2 = element_of(algebra, words)?;
    Ok(Triple { c0, c1, c2 })
}

// Appends the components of the product of two elements of the ring over an algebra with a root of `t^3 - 3`, which are read by theirs.
fn put_tower(
    alloc: Global,
    algebra: Algebra,
    words: &mut Words,
    out: &mut Vec<u8>,
) -> Result<(), Stop>
    requires { IsAlgebra algebra }
{
    let base = AlgebraRing { algebra };
    let (zero, one) = (base.zero(), base.one());
    let minus_three = base.neg(base.add(one, base.add(one, one)?)?);
    let ring = ExtRing::cubic(base, zero, zero, minus_three);
    let a = ring.element(triple_of(algebra, words)?);
    let b = ring.element(triple_of(algebra, words)?);
    let product = ring.mul(a, b)?;
    put_elements(alloc, out, &[product.c0, product.c1, product.c2])
}

// The field of an algebra.
fn field_of(algebra: Algebra) -> Result<AlgebraField, Stop>
    requires { IsAlgebra algebra }
    ensures field { IfOk result (λ f. ⟦<AlgebraField as Ring>⟧.is_ring f) }
    ensures algebra { IfOk result (λ f. f.algebra ≡ algebra) }
{
    match algebra {
        Algebra::Rational => Ok(AlgebraField { algebra }),
        Algebra::Quadratic { m1, m0 } => {
            let _ = ExtField::new(ExtRing::quadratic(Rationals, m1, m0))?;
            Ok(AlgebraField { algebra })
        }
        Algebra::Cubic { m2, m1, m0 } => {
            let _ = ExtField::new(ExtRing::cubic(Rationals, m2, m1, m0))?;
            Ok(AlgebraField { algebra })
        }
        Algebra::Tower { m2, m1, m0, d } => {
            let _ = TowerField::new(m2, m1, m0, d)?;
            Ok(AlgebraField { algebra })
        }
    }
}

/// Appends the answer to a line that is about an algebra.
pub(crate) fn calculate(
    alloc: Global,
    group: &[u8],
    command: &[u8],
    words: &mut Words,
    out: &mut Vec<u8>,
) -> Result<(), Stop> {
    let algebra = words.algebra(alloc)?;
    if is(group, b"text") {
        return texts::calculate(alloc, command, algebra, words, out);
    }
    if is(command, b"product") {
        return put_product(alloc, algebra, words, out);
    }
    if is(command, b"conjugate") {
        return put_conjugate(alloc, algebra, words, out);
    }
    if is(command, b"tower") {
        return put_tower(alloc, algebra, words, out);
    }
    let (n, order) = (words.small()?, words.small()?);
    if n > 8 || order > 17 {
        return Err(Stop::Words);
    }
    let field = field_of(algebra)?;
    let over = Over {
        field,
        algebra,
        n,
        order,
    };
    if is(group, b"lifted") {
        return chain::calculate_lifted(alloc, command, &over, words, out);
    }
    answer_over(alloc, group, command, &over, words, out)
}
