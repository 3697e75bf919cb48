//! The items that all certificates have after the germ: shape, inverse and carried jet.

ghost use Rattle.std.specs.Prelude.{◌≤◌, IfOk, [], ◌∷◌, length};
ghost use Rattle.line_syntax.specs.Syntax.{Line};
ghost use Rattle.germ_law.specs.Germ.{IsCritical, line_limit};
ghost use Rattle.cert_text.specs.WellFormed.{IsWellFormedCarried};
ghost use Rattle.report_law.specs.Items.{IsShape};
ghost use Rattle.check_line.specs.Lines.{reading_limit, IsGermOfLine};
ghost use Rattle.cert_check.specs.Found.{IsFound, IsLineFound};
ghost use Rattle.cert_check.specs.Heights.{IsCarriedHigh};
ghost use Rattle.cert_check.specs.Items.{CarriedItem, carried_items};

use crate::found::Found;
use crate::item::{carry, inverse};
use cert_text::Carried;
use check_line::{GermTest, Tested, is_shape, read_germ};
use line_germ::Germ;
use report_law::Item;
use ring_law::NoMemory;
use std::alloc::Global;

// What is found of the carried jet.
fn carry_on(
    alloc: Global,
    line: &[u8],
    germ: &Germ,
    c: &Carried,
    fits: bool,
) -> Result<Found, NoMemory>
    requires well_formed { IsWellFormedCarried c.now }
    requires germ { IsGermOfLine line.now (reading_limit c.now.order) germ.now }
    requires shape { (l : Line) → IsCritical line.now l → IsShape l c.now }
    ensures { IfOk result (λ f. (l : Line) → IsCritical line.now l → IsFound (CarriedItem l c.now fits) (IsCarriedHigh line.now c.now) (Item.Carry ∷ []) f) }
{
    match carry(alloc, line, germ, c) {
        Err(NoMemory) => Err(NoMemory),
        Ok(Tested::Holds) => Ok(Found::Passed),
        Ok(Tested::Fails) => Ok(Found::Fails(Item::Carry)),
        Ok(Tested::High) => Ok(Found::High(Item::Carry)),
    }
}

// The same from the inverse on.
fn inverse_on(
    alloc: Global,
    line: &[u8],
    germ: &Germ,
    c: &Carried,
    fits: bool,
) -> Result<Found, NoMemory>
    requires well_formed { IsWellFormedCarried c.now }
    requires germ { IsGermOfLine line.now (reading_limit c.now.order) germ.now }
    requires shape { (l : Line) → IsCritical line.now l → IsShape l c.now }
    ensures { IfOk result (λ f. (l : Line) → IsCritical line.now l → IsFound (CarriedItem l c.now fits) (IsCarriedHigh line.now c.now) (Item.Inverse ∷ Item.Carry ∷ []) f) }
{
    match inverse(alloc, c) {
        Err(NoMemory) => Err(NoMemory),
        Ok(Tested::Holds) => carry_on(alloc, line, germ, c, fits),
        Ok(Tested::Fails) => Ok(Found::Fails(Item::Inverse)),
        Ok(Tested::High) => Ok(Found::High(Item::Inverse)),
    }
}

// The same of shape, inverse and carried jet, with the germ of the line; `fits` says whether the sizes
// fit the kind of answer.
fn shape_on(
    alloc: Global,
    line: &[u8],
    germ: &Germ,
    c: &Carried,
    fits: bool,
) -> Result<Found, NoMemory>
    requires well_formed { IsWellFormedCarried c.now }
    requires germ { IsGermOfLine line.now (reading_limit c.now.order) germ.now }
    ensures { IfOk result (λ f. (l : Line) → IsCritical line.now l → IsFound (CarriedItem l c.now fits) (IsCarriedHigh line.now c.now) carried_items f) }
{
    if !is_shape(germ.names.as_slice(), c) {
        return Ok(Found::Fails(Item::Shape));
    }
    if !fits {
        return Ok(Found::Fails(Item::Shape));
    }
    inverse_on(alloc, line, germ, c, fits)
}

/// What is found of the germ of the line, the shape, the inverse and the carried jet; `fits` says
/// whether the sizes fit the kind of answer.
pub(crate) fn carried_found(
    alloc: Global,
    line: &[u8],
    c: &Carried,
    fits: bool,
) -> Result<Found, NoMemory>
    requires short { length line.now ≤ line_limit }
    requires well_formed { IsWellFormedCarried c.now }
    ensures { IfOk result (IsLineFound line.now (λ l. CarriedItem l c.now fits) (IsCarriedHigh line.now c.now) carried_items) }
{
    match read_germ(alloc, line, c.order) {
        Err(NoMemory) => Err(NoMemory),
        Ok(GermTest::NotCritical) => Ok(Found::Fails(Item::Germ)),
        Ok(GermTest::High) => Ok(Found::High(Item::Germ)),
        Ok(GermTest::Critical(germ)) => shape_on(alloc, line, &germ, c, fits),
    }
}
