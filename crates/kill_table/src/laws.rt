//! A law of the divisors of the leads, the contract of a function that does nothing.

ghost use Rattle.kill_table.specs.Divisors.{UnitsAreEnough};

use ring_law::Field;

/// Where the letters that the leads of a part are divided by are not zero, nor for J10
/// `4*b^3 + 27*a*c^2`, nothing that the leads are divided by is zero: over the values of every field.
pub fn units_are_enough<F: Field>()
    ensures { (a : F) → F.is_ring a → UnitsAreEnough (F.meaning a).scalars }
{}
