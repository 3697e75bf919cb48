//! The modulus line of a form.

ghost use Rattle.std.specs.Prelude.{◌≡◌, true, IfOk};
ghost use Rattle.ring_law.specs.Refusals.{OnFault};
ghost use Rattle.ext_algebra.specs.Algebra.{IsIrreducible};
ghost use Rattle.normal_forms.specs.Families.{kind_of};
ghost use Rattle.cert_text.specs.WellFormed.{IsWellFormedCarried};
ghost use Rattle.certificate.specs.Readings.{is_read_as};
ghost use Rattle.certificate.specs.Moduli.{IsRationalForm, IsModulusHigh, IsLineOf};

use cert_text::Carried;
use ext_algebra::AlgebraField;
use normal_forms::{Family, ModulusLine, modulus, sum_coefficients};
use ring_law::Fault;
use std::alloc::Global;

/// The modulus line of the jet of a carried germ that is read as a form of the family, over a field;
/// a form with a j invariant, as those of X9 and J10, is one over the rational numbers.
///
/// Errors: `Range` only where a number that the j invariant forms has height 2^120 or more.
pub fn modulus_line(alloc: Global, family: Family, c: &Carried) -> Result<ModulusLine, Fault>
    requires well_formed { IsWellFormedCarried c.now }
    requires field { IsIrreducible c.now.algebra }
    requires read { is_read_as family c.now ≡ true }
    requires rational { IsRationalForm c.now.algebra (kind_of family) }
    ensures line { IfOk result (IsLineOf family c.now) }
    ensures range { OnFault result (IsModulusHigh family c.now) }
{
    let field = AlgebraField { algebra: c.algebra };
    let coefs = sum_coefficients(alloc, &field, family, &c.jet)?;
    let line = modulus(family, &coefs)?;
    Ok(line)
}
