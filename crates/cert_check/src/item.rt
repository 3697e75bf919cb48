//! The items of certificates whose calculation may be refused, each as a test: it holds, it does not, or
//! its numbers are too high.

ghost use Rattle.std.specs.Prelude.{IfOk};
ghost use Rattle.line_syntax.specs.Syntax.{Line};
ghost use Rattle.germ_law.specs.Germ.{IsCritical};
ghost use Rattle.cert_text.specs.WellFormed.{IsWellFormedCarried, IsWellFormedNamed, IsWellFormedLimit, IsWellFormedUnresolved};
ghost use Rattle.report_law.specs.Items.{IsShape, IsInvertibleChange, IsCarriedTo, IsForm, AreUnits, IsModulusOf, AreMatherRows, IsDetermined, IsLimitFunctional, IsMilnorTable};
ghost use Rattle.check_line.specs.Lines.{reading_limit, IsGermOfLine};
ghost use Rattle.check_line.specs.Tests.{IsTested};
ghost use Rattle.check_form.specs.FormHeights.{IsUnitsHigh, IsModulusHigh};
ghost use Rattle.check_change.specs.Heights.{IsInverseHigh};
ghost use Rattle.check_rows.specs.ItemHeights.{IsMatherHigh, IsFunctionalHigh};
ghost use Rattle.check_milnor.specs.Milnor.{IsMilnorHigh};
ghost use Rattle.cert_check.specs.Heights.{IsGermCarryHigh};

use crate::found::tested;
use cert_text::{Carried, Limit, Named, Unresolved};
use check_change::{is_carried, is_invertible_change};
use check_form::{are_units, is_modulus_line};
use check_line::Tested;
use check_milnor::is_milnor_table;
use check_rows::{are_mather_rows, is_determined, is_limit_functional};
use line_germ::Germ;
use ring_law::NoMemory;
use std::alloc::Global;

// Whether the change is invertible, with the printed matrix as inverse of its linear part.
pub(crate) fn inverse(alloc: Global, c: &Carried) -> Result<Tested, NoMemory>
    requires { IsWellFormedCarried c.now }
    ensures { IfOk result (IsTested (IsInvertibleChange c.now) (IsInverseHigh c.now)) }
{
    tested(is_invertible_change(alloc, c))
}

// Whether the change carries the germ of the line to the printed jet.
pub(crate) fn carry(
    alloc: Global,
    line: &[u8],
    germ: &Germ,
    c: &Carried,
) -> Result<Tested, NoMemory>
    requires well_formed { IsWellFormedCarried c.now }
    requires germ { IsGermOfLine line.now (reading_limit c.now.order) germ.now }
    requires shape { (l : Line) → IsCritical line.now l → IsShape l c.now }
    ensures { IfOk result (λ t. (l : Line) → IsCritical line.now l → IsTested (IsCarriedTo l c.now) (IsGermCarryHigh line.now c.now) t) }
{
    let _ = line;
    tested(is_carried(alloc, &germ.jet, c))
}

// Whether the printed values are the units of the form, each beside its inverse.
pub(crate) fn units(alloc: Global, r: &Named) -> Result<Tested, NoMemory>
    requires well_formed { IsWellFormedNamed r.now }
    requires form { IsForm r.now.family r.now.carried }
    ensures { IfOk result (IsTested (AreUnits r.now) (IsUnitsHigh r.now)) }
{
    tested(are_units(alloc, r))
}

// Whether the modulus line is true of the form.
pub(crate) fn modulus(alloc: Global, r: &Named) -> Result<Tested, NoMemory>
    requires well_formed { IsWellFormedNamed r.now }
    requires form { IsForm r.now.family r.now.carried }
    ensures { IfOk result (IsTested (IsModulusOf r.now) (IsModulusHigh r.now)) }
{
    tested(is_modulus_line(alloc, r))
}

// Whether the rows of a name are those of Mather's condition.
pub(crate) fn mather(alloc: Global, r: &Named) -> Result<Tested, NoMemory>
    requires { IsWellFormedNamed r.now }
    ensures { IfOk result (IsTested (AreMatherRows r.now.carried r.now.mather) (IsMatherHigh r.now.carried r.now.mather)) }
{
    tested(are_mather_rows(alloc, &r.carried, r.mather.as_slice()))
}

// Whether the printed table shows that the jets modulo the partials are free with the basis, as many
// as the Milnor number says.
pub(crate) fn milnor(alloc: Global, r: &Named) -> Result<Tested, NoMemory>
    requires { IsWellFormedNamed r.now }
    ensures { IfOk result (IsTested (IsMilnorTable r.now) (IsMilnorHigh r.now)) }
{
    tested(is_milnor_table(alloc, r))
}

// Whether the functional shows that there are no rows at the order.
pub(crate) fn functional(alloc: Global, r: &Limit) -> Result<Tested, NoMemory>
    requires { IsWellFormedLimit r.now }
    ensures { IfOk result (IsTested (IsLimitFunctional r.now) (IsFunctionalHigh r.now)) }
{
    tested(is_limit_functional(alloc, r))
}

// Whether the jet is split, with rows at the order.
pub(crate) fn determined(alloc: Global, r: &Unresolved) -> Result<Tested, NoMemory>
    requires { IsWellFormedUnresolved r.now }
    ensures { IfOk result (IsTested (IsDetermined r.now) (IsMatherHigh r.now.carried r.now.mather)) }
{
    tested(is_determined(alloc, r))
}
