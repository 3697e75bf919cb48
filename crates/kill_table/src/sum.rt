//! Terms in the monomial order, to which a term is added.

ghost use Rattle.std.specs.Prelude.{◌≡◌, ◌≤◌, ◌<◌, not, drop, OnOk, All, length};
ghost use Rattle.std.specs.List.{position_or_len};
ghost use Rattle.ring_law.specs.Refusals.{OnFault, OnRange};
ghost use Rattle.mono_exp.specs.Exponents.{is_before};
ghost use Rattle.kill_table.specs.Terms.{is_met_by, IsSumAt, IsRefusedAt, IsAdded, IsAddingHigh};

use mono_exp::{Exp, before};
use ring_law::{Fault, Range, Ring};

/// The place of the first term that does not stand before a monomial.
fn place_of<E: Copy>(terms: &[(Exp, E)], a: Exp) -> usize
    ensures within { result ≤ length terms.now }
    ensures place { result ≡ position_or_len (λ t. not (is_before t.0.e a.e)) terms.now }
{
    for (place, t) in terms.iter().enumerate() {
        if !before(t.0, a) {
            return place;
        }
    }
    terms.len()
}

/// True where there is a term at a place, before which a monomial does not stand.
fn is_met<E: Copy>(terms: &[(Exp, E)], place: usize, a: Exp) -> bool
    ensures { result ≡ is_met_by a (drop place terms.now) }
{
    match terms.get(place) {
        Some(t) => !before(a, t.0),
        None => false,
    }
}

/// Adds c to the coefficient of the term at a place; a sum that is zero is left out.
fn add_at<R: Ring>(
    ring: &R,
    terms: &mut Vec<(Exp, R::Elem)>,
    place: usize,
    c: R::Elem,
) -> Result<(), Range>
    requires ring { R.is_ring ring.now }
    requires inside { place < length terms.old.items }
    requires elems { All (λ t. (R.meaning ring.now).is_elem t.1) terms.old.items }
    requires elem { (R.meaning ring.now).is_elem c }
    ensures sum { OnOk result (IsSumAt (R.meaning ring.now) terms.old.items place c terms.new.items) }
    ensures range { OnRange result (IsRefusedAt (R.meaning ring.now) terms.old.items place c) }
{
    let (a, d) = terms[place];
    let sum = ring.add(d, c)?;
    if ring.eq(sum, ring.zero()) {
        terms.remove(place);
    } else {
        terms[place] = (a, sum);
    }
    Ok(())
}

/// Puts the term c*a in its place among terms in the monomial order, or adds it to the term that has
/// its monomial; a coefficient that is zero is left out.
pub fn add_term<R: Ring>(
    ring: &R,
    terms: &mut Vec<(Exp, R::Elem)>,
    a: Exp,
    c: R::Elem,
) -> Result<(), Fault>
    requires ring { R.is_ring ring.now }
    requires elems { All (λ t. (R.meaning ring.now).is_elem t.1) terms.old.items }
    requires elem { (R.meaning ring.now).is_elem c }
    ensures added { OnOk result (IsAdded (R.meaning ring.now) (a, c) terms.old.items terms.new.items) }
    ensures range { OnFault result (IsAddingHigh (R.meaning ring.now) (a, c) terms.old.items) }
{
    let place = place_of(terms, a);
    if is_met(terms, place, a) {
        add_at(ring, terms, place, c)?;
        return Ok(());
    }
    if !ring.eq(c, ring.zero()) {
        terms.insert(place, (a, c))?;
    }
    Ok(())
}
