//! The Milnor numbers of the families.

ghost use Rattle.std.specs.Prelude.{◌≡◌};
ghost use Rattle.normal_forms.specs.Families.{milnor_number_of};

use crate::family::Family;

/// The Milnor number of a form of the family with its units.
pub fn index(family: Family) -> u32
    ensures { result ≡ milnor_number_of family }
{
    match family {
        Family::A(m) | Family::D(m) => u32::from(m),
        Family::T(p, q, r) => (u32::from(p) + u32::from(q) + u32::from(r)).saturating_sub(1),
        Family::E6 => 6,
        Family::E7 => 7,
        Family::E8 | Family::P8 => 8,
        Family::X9 => 9,
        Family::J10 | Family::Q10 => 10,
        Family::Z11 | Family::Q11 | Family::S11 => 11,
        Family::E12 | Family::Z12 | Family::W12 | Family::Q12 | Family::S12 | Family::U12 => 12,
        Family::E13 | Family::Z13 | Family::W13 => 13,
        Family::E14 => 14,
    }
}
