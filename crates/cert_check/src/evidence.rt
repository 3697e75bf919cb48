//! The items of a name after the carried jet: form, units, modulus, Mather's rows and the table.

ghost use Rattle.std.specs.Prelude.{IfOk, ℕ, List, [], ◌∷◌};
ghost use Rattle.line_syntax.specs.Syntax.{Line};
ghost use Rattle.cert_text.specs.WellFormed.{IsWellFormedNamed};
ghost use Rattle.report_law.specs.Items.{IsForm};
ghost use Rattle.report_law.specs.Valid.{NamedItem};
ghost use Rattle.cert_check.specs.Found.{IsFound};
ghost use Rattle.cert_check.specs.Heights.{IsNamedHigh};
ghost use Rattle.cert_check.specs.Items.{evidence_items, units_on as units_list};

use crate::found::Found;
use crate::item::{mather, milnor, modulus, units};
use cert_text::Named;
use check_form::is_named_form;
use check_line::Tested;
use report_law::Item;
use ring_law::NoMemory;
use std::alloc::Global;

// What is found of the table.
fn milnor_on(alloc: Global, r: &Named) -> Result<Found, NoMemory>
    requires { IsWellFormedNamed r.now }
    ensures { IfOk result (λ f. (bytes : List ℕ) (l : Line) → IsFound (NamedItem bytes l r.now) (IsNamedHigh bytes r.now) (Item.Milnor ∷ []) f) }
{
    match milnor(alloc, r) {
        Err(NoMemory) => Err(NoMemory),
        Ok(Tested::Holds) => Ok(Found::Passed),
        Ok(Tested::Fails) => Ok(Found::Fails(Item::Milnor)),
        Ok(Tested::High) => Ok(Found::High(Item::Milnor)),
    }
}

// The same from Mather's rows on.
fn mather_on(alloc: Global, r: &Named) -> Result<Found, NoMemory>
    requires { IsWellFormedNamed r.now }
    ensures { IfOk result (λ f. (bytes : List ℕ) (l : Line) → IsFound (NamedItem bytes l r.now) (IsNamedHigh bytes r.now) (Item.Mather ∷ Item.Milnor ∷ []) f) }
{
    match mather(alloc, r) {
        Err(NoMemory) => Err(NoMemory),
        Ok(Tested::Holds) => milnor_on(alloc, r),
        Ok(Tested::Fails) => Ok(Found::Fails(Item::Mather)),
        Ok(Tested::High) => Ok(Found::High(Item::Mather)),
    }
}

// The same from the modulus on.
fn modulus_on(alloc: Global, r: &Named) -> Result<Found, NoMemory>
    requires well_formed { IsWellFormedNamed r.now }
    requires form { IsForm r.now.family r.now.carried }
    ensures { IfOk result (λ f. (bytes : List ℕ) (l : Line) → IsFound (NamedItem bytes l r.now) (IsNamedHigh bytes r.now) (Item.Modulus ∷ Item.Mather ∷ Item.Milnor ∷ []) f) }
{
    match modulus(alloc, r) {
        Err(NoMemory) => Err(NoMemory),
        Ok(Tested::Holds) => mather_on(alloc, r),
        Ok(Tested::Fails) => Ok(Found::Fails(Item::Modulus)),
        Ok(Tested::High) => Ok(Found::High(Item::Modulus)),
    }
}

// The same from the units on.
fn units_on(alloc: Global, r: &Named) -> Result<Found, NoMemory>
    requires well_formed { IsWellFormedNamed r.now }
    requires form { IsForm r.now.family r.now.carried }
    ensures { IfOk result (λ f. (bytes : List ℕ) (l : Line) → IsFound (NamedItem bytes l r.now) (IsNamedHigh bytes r.now) units_list f) }
{
    match units(alloc, r) {
        Err(NoMemory) => Err(NoMemory),
        Ok(Tested::Holds) => modulus_on(alloc, r),
        Ok(Tested::Fails) => Ok(Found::Fails(Item::Units)),
        Ok(Tested::High) => Ok(Found::High(Item::Units)),
    }
}

/// What is found of the form, the units, the modulus, Mather's rows and the table of a name.
pub(crate) fn evidence_found(alloc: Global, r: &Named) -> Result<Found, NoMemory>
    requires { IsWellFormedNamed r.now }
    ensures { IfOk result (λ f. (bytes : List ℕ) (l : Line) → IsFound (NamedItem bytes l r.now) (IsNamedHigh bytes r.now) evidence_items f) }
{
    if is_named_form(r) {
        units_on(alloc, r)
    } else {
        Ok(Found::Fails(Item::Form))
    }
}
