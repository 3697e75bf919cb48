//! What is found of the items of each kind of certificate.

ghost use Rattle.std.specs.Prelude.{◌≡◌, ℕ, ◌≤◌, ◌&&◌, IfOk, List, [], ◌∷◌, length};
ghost use Rattle.line_syntax.specs.Syntax.{Line};
ghost use Rattle.germ_law.specs.Germ.{line_limit};
ghost use Rattle.normal_forms.specs.Patterns.{order_of as order_by};
ghost use Rattle.cert_text.specs.WellFormed.{IsWellFormedCarried, IsWellFormedNamed, IsWellFormedLimit, IsWellFormedUnresolved};
ghost use Rattle.report_law.specs.Valid.{NamedItem, OutsideItem, LimitItem, UnresolvedItem};
ghost use Rattle.cert_check.specs.Found.{IsFound, IsLineFound};
ghost use Rattle.cert_check.specs.Heights.{IsNamedHigh, IsOutsideHigh, IsLimitHigh, IsUnresolvedHigh};
ghost use Rattle.cert_check.specs.Items.{named_on, outside_on, limit_on, unresolved_on};

use crate::carried::carried_found;
use crate::evidence::evidence_found;
use crate::found::Found;
use crate::item::{determined, functional};
use cert_text::{Limit, Named, Outside, Unresolved};
use check_form::is_in_pattern;
use check_line::Tested;
use normal_forms::Pattern;
use report_law::Item;
use ring_law::NoMemory;
use std::alloc::Global;

/// What is found of a named report: its corank is at most 3.
pub(crate) fn named_found(alloc: Global, line: &[u8], r: &Named) -> Result<Found, NoMemory>
    requires short { length line.now ≤ line_limit }
    requires well_formed { IsWellFormedNamed r.now }
    ensures { IfOk result (IsLineFound line.now (λ l. NamedItem line.now l r.now) (IsNamedHigh line.now r.now) named_on) }
{
    let fits = r.carried.corank <= 3;
    match carried_found(alloc, line, &r.carried, fits) {
        Err(NoMemory) => Err(NoMemory),
        Ok(Found::Passed) => evidence_found(alloc, r),
        Ok(Found::Fails(item)) => Ok(Found::Fails(item)),
        Ok(Found::High(item)) => Ok(Found::High(item)),
    }
}

// The order of the jets of a pattern.
fn order_of(pattern: Pattern) -> u8
    ensures { result ≡ order_by pattern }
{
    match pattern {
        Pattern::O => 2,
        Pattern::V => 3,
        Pattern::N => 4,
        Pattern::J3 => 8,
        Pattern::Z1 => 6,
        Pattern::W1 => 5,
        Pattern::Q2 => 5,
        Pattern::S1 => 4,
        Pattern::U1 => 4,
    }
}

// What is found of the pattern.
fn pattern_on(r: &Outside) -> Found
    requires { IsWellFormedCarried r.now.carried }
    ensures { (bytes : List ℕ) (l : Line) → IsFound (OutsideItem bytes l r.now) (IsOutsideHigh bytes r.now) (Item.Pattern ∷ []) result }
{
    if is_in_pattern(r) {
        Found::Passed
    } else {
        Found::Fails(Item::Pattern)
    }
}

/// What is found of an outside report: its order is that of its pattern.
pub(crate) fn outside_found(alloc: Global, line: &[u8], r: &Outside) -> Result<Found, NoMemory>
    requires short { length line.now ≤ line_limit }
    requires well_formed { IsWellFormedCarried r.now.carried }
    ensures { IfOk result (IsLineFound line.now (λ l. OutsideItem line.now l r.now) (IsOutsideHigh line.now r.now) outside_on) }
{
    let fits = r.carried.order == order_of(r.pattern);
    match carried_found(alloc, line, &r.carried, fits) {
        Err(NoMemory) => Err(NoMemory),
        Ok(Found::Passed) => Ok(pattern_on(r)),
        Ok(Found::Fails(item)) => Ok(Found::Fails(item)),
        Ok(Found::High(item)) => Ok(Found::High(item)),
    }
}

// What is found of the functional.
fn functional_on(alloc: Global, r: &Limit) -> Result<Found, NoMemory>
    requires { IsWellFormedLimit r.now }
    ensures { IfOk result (λ f. (bytes : List ℕ) (l : Line) → IsFound (LimitItem bytes l r.now) (IsLimitHigh bytes r.now) (Item.Functional ∷ []) f) }
{
    match functional(alloc, r) {
        Err(NoMemory) => Err(NoMemory),
        Ok(Tested::Holds) => Ok(Found::Passed),
        Ok(Tested::Fails) => Ok(Found::Fails(Item::Functional)),
        Ok(Tested::High) => Ok(Found::High(Item::Functional)),
    }
}

// True where both are.
fn both(a: bool, b: bool) -> bool
    ensures { result ≡ (a && b) }
{
    a && b
}

/// What is found of a limit report: its corank is at most 3, and its order at least 3.
pub(crate) fn limit_found(alloc: Global, line: &[u8], r: &Limit) -> Result<Found, NoMemory>
    requires short { length line.now ≤ line_limit }
    requires well_formed { IsWellFormedLimit r.now }
    ensures { IfOk result (IsLineFound line.now (λ l. LimitItem line.now l r.now) (IsLimitHigh line.now r.now) limit_on) }
{
    let fits = both(r.carried.corank <= 3, 3 <= r.carried.order);
    match carried_found(alloc, line, &r.carried, fits) {
        Err(NoMemory) => Err(NoMemory),
        Ok(Found::Passed) => functional_on(alloc, r),
        Ok(Found::Fails(item)) => Ok(Found::Fails(item)),
        Ok(Found::High(item)) => Ok(Found::High(item)),
    }
}

// What is found of the rows of a determined jet.
fn determined_on(alloc: Global, r: &Unresolved) -> Result<Found, NoMemory>
    requires { IsWellFormedUnresolved r.now }
    ensures { IfOk result (λ f. (bytes : List ℕ) (l : Line) → IsFound (UnresolvedItem bytes l r.now) (IsUnresolvedHigh bytes r.now) (Item.Mather ∷ []) f) }
{
    match determined(alloc, r) {
        Err(NoMemory) => Err(NoMemory),
        Ok(Tested::Holds) => Ok(Found::Passed),
        Ok(Tested::Fails) => Ok(Found::Fails(Item::Mather)),
        Ok(Tested::High) => Ok(Found::High(Item::Mather)),
    }
}

/// What is found of an unresolved report: its corank is at most 3.
pub(crate) fn unresolved_found(
    alloc: Global,
    line: &[u8],
    r: &Unresolved,
) -> Result<Found, NoMemory>
    requires short { length line.now ≤ line_limit }
    requires well_formed { IsWellFormedUnresolved r.now }
    ensures { IfOk result (IsLineFound line.now (λ l. UnresolvedItem line.now l r.now) (IsUnresolvedHigh line.now r.now) unresolved_on) }
{
    let fits = r.carried.corank <= 3;
    match carried_found(alloc, line, &r.carried, fits) {
        Err(NoMemory) => Err(NoMemory),
        Ok(Found::Passed) => determined_on(alloc, r),
        Ok(Found::Fails(item)) => Ok(Found::Fails(item)),
        Ok(Found::High(item)) => Ok(Found::High(item)),
    }
}
