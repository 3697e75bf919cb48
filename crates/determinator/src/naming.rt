//! What names a carried germ: its units, the modulus line and the Milnor algebra.

ghost use Rattle.std.specs.Prelude.{◌≡◌, ◌≤◌, false, IfOk, MatchOption};
ghost use Rattle.ext_algebra.specs.Algebra.{IsIrreducible, ops};
ghost use Rattle.poly_law.specs.Polynomials.{StartsAtIn};
ghost use Rattle.normal_forms.specs.Families.{kind_of};
ghost use Rattle.cert_text.specs.WellFormed.{IsWellFormedCarried};
ghost use Rattle.report_law.specs.Items.{residual_of};
ghost use Rattle.certificate.specs.Readings.{is_read_as};
ghost use Rattle.certificate.specs.Moduli.{IsRationalForm};
ghost use Rattle.determinator.specs.Naming.{family_found as family_found_in, IsNamingBy, IsNamingByHigh, IsNamingOf, IsUnread, IsNamingHigh};
ghost use Rattle.determinator.specs.Places.{OnStop};

use crate::power::least_power;
use crate::stop::{Stop, in_phase};
use cert_text::{Carried, Phase};
use certificate::{milnor_algebra, modulus_line, units};
use ext_algebra::{AlgebraField, Ext};
use milnor_alg::JetQuotient;
use normal_forms::{Family, ModulusLine};
use ring_law::Frac;
use sqlite_items::Items;
use std::alloc::Global;

/// The name of a jet: the family, the units of its form, each beside its inverse, the modulus line,
/// and the Milnor algebra with its table.
#[derive(Drop)]
pub struct Naming {
    pub family: Family,
    pub units: Items<(Ext<Frac>, Ext<Frac>)>,
    pub modulus: ModulusLine,
    pub quotient: JetQuotient<Ext<Frac>>,
}

/// The family that the finish of a carried germ without a base part looks for: A1 in corank 0; in
/// corank 1 A(m - 1), m the least power of the residual variable, where there is one; none in corank
/// 2 and 3.
///
/// Source: Arnold, Gusein-Zade, Varchenko, Singularities of Differentiable Maps, volume 1.
pub fn family_found(c: &Carried) -> Option<Family>
    requires well_formed { IsWellFormedCarried c.now }
    requires field { IsIrreducible c.now.algebra }
    requires few { c.now.corank ≤ 3 }
    ensures family { result ≡ family_found_in c.now }
{
    if c.corank == 0 {
        return Some(Family::A(1));
    }
    if c.corank > 1 {
        return None;
    }
    let field = AlgebraField { algebra: c.algebra };
    match least_power(&field, &c.jet) {
        Some(m) => Some(Family::A(m - 1)),
        None => None,
    }
}

/// The name of a carried germ of corank at most 3, over a field, as a form of the family, or `None`
/// exactly where its jet is no such form, or a unit is zero; a form with a j invariant, as those of
/// X9 and J10, is one over the rational numbers.
///
/// Errors: `Range` in the phase of the finish only where a formula of the units, an inverse of one,
/// or a number that the j invariant forms has height 2^120 or more; in the phase of the Milnor
/// algebra only where its reduction forms such a number.
pub fn naming_by(alloc: Global, family: Family, c: &Carried) -> Result<Option<Naming>, Stop>
    requires well_formed { IsWellFormedCarried c.now }
    requires field { IsIrreducible c.now.algebra }
    requires few { c.now.corank ≤ 3 }
    requires low { StartsAtIn c.now.corank (ops c.now.algebra) 2 (residual_of c.now) }
    requires rational { IsRationalForm c.now.algebra (kind_of family) }
    ensures naming { IfOk result (λ o. MatchOption o (is_read_as family c.now ≡ false) (IsNamingBy family c.now)) }
    ensures range { OnStop result (IsNamingByHigh family c.now) }
{
    let units = match units(alloc, family, c) {
        Ok(Some(units)) => units,
        Ok(None) => return Ok(None),
        Err(fault) => return Err(in_phase(Phase::Finish, fault)),
    };
    let modulus = match modulus_line(alloc, family, c) {
        Ok(modulus) => modulus,
        Err(fault) => return Err(in_phase(Phase::Finish, fault)),
    };
    match milnor_algebra(alloc, c) {
        Ok(quotient) => Ok(Some(Naming {
            family,
            units,
            modulus,
            quotient,
        })),
        Err(fault) => Err(in_phase(Phase::Milnor, fault)),
    }
}

/// The name of a carried germ without a base part, or `None` where the finish looks for no family, or
/// the jet is no form of it.
///
/// Errors: `Range` in the phase of the finish only where a formula of the units, or an inverse of
/// one, has height 2^120 or more; in the phase of the Milnor algebra only where its reduction forms
/// such a number.
pub fn naming_of(alloc: Global, c: &Carried) -> Result<Option<Naming>, Stop>
    requires well_formed { IsWellFormedCarried c.now }
    requires field { IsIrreducible c.now.algebra }
    requires few { c.now.corank ≤ 3 }
    requires low { StartsAtIn c.now.corank (ops c.now.algebra) 2 (residual_of c.now) }
    ensures naming { IfOk result (λ o. MatchOption o (IsUnread c.now) (IsNamingOf c.now)) }
    ensures range { OnStop result (IsNamingHigh c.now) }
{
    match family_found(c) {
        Some(family) => naming_by(alloc, family, c),
        None => Ok(None),
    }
}
