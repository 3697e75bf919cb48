//! The values that must be units in a form, by its coefficients.

ghost use Rattle.std.specs.Prelude.{◌≡◌, ◌∷◌, [], ◌-◌, IfOk, OnOk, All, length, map, take, vec_len};
ghost use Rattle.ring_law.specs.Refusals.{OnFault};
ghost use Rattle.jet_law.specs.Heights.{IsHigh};
ghost use Rattle.normal_forms.specs.Families.{sum_of, kind_of};
ghost use Rattle.normal_forms.specs.Units.{unit_values, unit_heights};

use crate::family::Family;
use crate::invariant::{quartic_discriminant_of, triple_discriminant_of};
use crate::kind::{Kind, family_kind};
use ring_law::{Fault, Ring};
use std::alloc::Global;

// One value.
fn one_value<E: Copy>(alloc: Global, x: E) -> Result<Vec<E>, Fault>
    ensures items { IfOk result (λ v. v.items ≡ x ∷ []) }
    ensures memory { OnFault result ⊥ }
{
    let mut values = Vec::new(alloc);
    values.push(x)?;
    Ok(values)
}

// Two values.
fn two_values<E: Copy>(alloc: Global, x: E, y: E) -> Result<Vec<E>, Fault>
    ensures items { IfOk result (λ v. v.items ≡ x ∷ y ∷ []) }
    ensures memory { OnFault result ⊥ }
{
    let mut values = Vec::new(alloc);
    values.push(x)?;
    values.push(y)?;
    Ok(values)
}

// The values without the last one.
fn without_last<E: Copy>(values: Vec<E>) -> Vec<E>
    ensures { result.items ≡ take (vec_len values - 1) values.items }
{
    let mut front = values;
    let _ = front.pop();
    front
}

/// The values that must be units in a form of the family with these coefficients, in order.
///
/// Errors: `Range` only where a number that their formulas form has height 2^120 or more.
pub(crate) fn values_of_units<R: Ring>(
    alloc: Global,
    ring: &R,
    family: Family,
    coefs: Vec<R::Elem>,
) -> Result<Vec<R::Elem>, Fault>
    requires ring { R.is_ring ring.now }
    requires elems { All (R.meaning ring.now).is_elem coefs.items }
    requires coefficients { vec_len coefs ≡ length (sum_of family) }
    ensures elems { IfOk result (λ v. All (R.meaning ring.now).is_elem v.items) }
    ensures values { IfOk result (λ v. let m = R.meaning ring.now in map m.value v.items ≡ unit_values m.scalars (kind_of family) (map m.value coefs.items)) }
    ensures range { OnFault result (let m = R.meaning ring.now in IsHigh (unit_heights m.scalars (kind_of family) (map m.value coefs.items))) }
{
    match family_kind(family) {
        Kind::Simple | Kind::Hyperbolic => Ok(coefs),
        Kind::CubicForm => Ok(Vec::new(alloc)),
        Kind::QuarticForm => one_value(alloc, quartic_discriminant_of(ring, &coefs)?),
        Kind::Triple => {
            let discriminant = triple_discriminant_of(ring, &coefs)?;
            two_values(alloc, coefs[0], discriminant)
        }
        Kind::Exceptional => Ok(without_last(coefs)),
    }
}
