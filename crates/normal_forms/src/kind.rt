//! How the unit values and the modulus of a form come from its coefficients.

ghost use Rattle.std.specs.Prelude.{◌≡◌};
ghost use Rattle.normal_forms.specs.Families.{kind_of};

use crate::family::Family;

/// The kinds of families: the simple ones, the T series, P8, X9, J10 and the exceptional ones.
#[derive(Clone, Copy, Debug, PartialEq, Eq)]
pub enum Kind {
    Simple,
    Hyperbolic,
    CubicForm,
    QuarticForm,
    Triple,
    Exceptional,
}

/// The kind of a family.
pub fn family_kind(family: Family) -> Kind
    ensures { result ≡ kind_of family }
{
    match family {
        Family::A(_) | Family::D(_) | Family::E6 | Family::E7 | Family::E8 => Kind::Simple,
        Family::T(_, _, _) => Kind::Hyperbolic,
        Family::P8 => Kind::CubicForm,
        Family::X9 => Kind::QuarticForm,
        Family::J10 => Kind::Triple,
        _ => Kind::Exceptional,
    }
}
