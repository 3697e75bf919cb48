//! The units of a form with their inverses.

ghost use Rattle.std.specs.Prelude.{◌≡◌, ◌≤◌, ◌^◌, true, false, not, map, IfOk, MatchOption, All};
ghost use Rattle.std.specs.List.{list_all};
ghost use Rattle.ring_law.specs.Refusals.{OnFault};
ghost use Rattle.ext_algebra.specs.Algebra.{IsIrreducible};
ghost use Rattle.lin_row.specs.Plain.{Among};
ghost use Rattle.move_law.specs.Work as work;
ghost use Rattle.move_law.specs.Work.{IsWorkHigh};
ghost use Rattle.normal_forms.specs.Families.{is_family as is_family_of};
ghost use Rattle.cert_text.specs.WellFormed.{IsWellFormedCarried};
ghost use Rattle.certificate.specs.Readings.{is_read_as, AreUnitsRead, IsUnitHigh};

use cert_text::Carried;
use ext_algebra::{AlgebraField, Ext};
use normal_forms::{Family, has_form, is_form};
use ring_law::{Fault, Field, Frac, Ring};
use sqlite_items::Items;
use std::alloc::Global;

/// Whether the numbers of the family's name are such as the list of families has.
fn is_family(family: Family) -> bool
    ensures { result ≡ is_family_of family }
{
    match family {
        Family::A(m) => 1 <= m,
        Family::D(m) => 4 <= m,
        Family::T(2, 3, r) => 7 <= r,
        Family::T(2, 4, r) => 5 <= r,
        Family::T(2, q, r) => 5 <= q && q <= r,
        Family::T(p, q, r) => 3 <= p && p <= q && q <= r && 4 <= r,
        _ => true,
    }
}

/// Whether none of the elements is zero.
fn are_units<R: Ring>(ring: &R, xs: &[R::Elem]) -> bool
    requires ring { R.is_ring ring.now }
    requires elems { All (R.meaning ring.now).is_elem xs.now }
    ensures { let m = R.meaning ring.now in result ≡ list_all (λ v. not (m.scalars.is_zero v)) (map m.value xs.now) }
{
    for x in xs {
        if ring.eq(*x, ring.zero()) {
            return false;
        }
    }
    true
}

/// Values other than zero with their inverses.
fn with_inverses<F: Field>(
    alloc: Global,
    field: &F,
    values: &[F::Elem],
) -> Result<Vec<(F::Elem, F::Elem)>, Fault>
    requires field { F.is_ring field.now }
    requires elems { All (F.meaning field.now).is_elem values.now }
    requires units { let m = F.meaning field.now in list_all (λ v. not (m.scalars.is_zero v)) (map m.value values.now) ≡ true }
    ensures elems { IfOk result (λ v. All (λ u. let m = F.meaning field.now in m.is_elem u.0 × m.is_elem u.1) v.items) }
    ensures values { IfOk result (λ v. let m = F.meaning field.now in map {B = F.Value field.now × F.Value field.now} (λ u. (m.value u.0, m.value u.1)) v.items ≡ map {B = F.Value field.now × F.Value field.now} (λ x. (m.value x, m.scalars.inverse (m.value x))) values.now) }
    ensures range { OnFault result (let m = F.meaning field.now in Among (λ x. 2 ^ 120 ≤ m.scalars.inverse_height x) (map m.value values.now)) }
{
    let mut units = Vec::new(alloc);
    for value in values {
        let inverse = field.inv(*value)?.unwrap();
        units.push((*value, inverse))?;
    }
    Ok(units)
}

/// The units of the jet of a carried germ as a form of a family, in the order of the list of
/// families, and then the coefficients of its squares, each with its inverse, over a field; `None`
/// exactly where the jet is no form of the family, or a unit is zero.
///
/// Errors: `Range` only where a formula of the units, or, where none is zero, an inverse of one, has
/// height 2^120 or more.
pub fn units(
    alloc: Global,
    family: Family,
    c: &Carried,
) -> Result<Option<Items<(Ext<Frac>, Ext<Frac>)>>, Fault>
    requires well_formed { IsWellFormedCarried c.now }
    requires field { IsIrreducible c.now.algebra }
    ensures units { IfOk result (λ o. MatchOption o (is_read_as family c.now ≡ false) (AreUnitsRead family c.now)) }
    ensures range { OnFault result (IsUnitHigh family c.now) }
{
    let field = AlgebraField { algebra: c.algebra };
    if !is_family(family) || !has_form(family, c.corank, &c.jet) {
        return Ok(None);
    }
    let values = is_form(alloc, &field, family, c.corank, &c.jet)?.unwrap();
    if !are_units(&field, &values) {
        return Ok(None);
    }
    let units = with_inverses(alloc, &field, &values)?;
    Ok(Some(Items::from_vec(units)))
}
