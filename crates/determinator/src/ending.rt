//! The answers in which a run ends without a name.

ghost use Rattle.std.specs.Prelude.{◌≡◌, ◌≤◌, IfOk, All};
ghost use Rattle.ring_law.specs.Refusals.{OnFault};
ghost use Rattle.ext_algebra.specs.Algebra.{IsFieldAlgebra};
ghost use Rattle.coord_change.specs.Chains.{carried_in};
ghost use Rattle.determinator.specs.Jets.{IsListed, IsFailureFor};
ghost use Rattle.determinator.specs.Places.{IsPlaced};
ghost use Rattle.determinator.specs.Steps.{IsComposingHigh, IsCarried, IsLimit, IsOutside};

use crate::jet::see_terms;
use cert_text::{Answer, Carried, Limit, Outside};
use coord_change::{Chain, composite};
use ext_algebra::{Algebra, AlgebraField, Ext};
use jet_poly::Jet;
use mono_exp::Exp;
use normal_forms::Pattern;
use poly_text::Name;
use ring_law::{Fault, Frac};
use sqlite_items::Items;
use std::alloc::{AllocError, Global};

// A copy of a jet.
fn copy(alloc: Global, f: &Jet<Ext<Frac>>) -> Result<Jet<Ext<Frac>>, AllocError>
    ensures { IfOk result (λ h. h ≡ f.now) }
{
    let mut terms = Vec::new(alloc);
    for t in f.terms() {
        terms.push(*t)?;
    }
    Ok(Jet::from_rising(f.n(), f.order(), terms))
}

// The terms of each of the jets stand in order, with eight exponents each.
fn see_jets(jets: &[Jet<Ext<Frac>>])
    ensures { All IsListed jets.now }
{
    for jet in jets {
        see_terms(jet);
    }
}

/// The germ carried by the moves of a chain, with their composite.
///
/// Errors: `Range` only where composing the moves forms a number of height 2^120 or more.
pub fn carried_of(
    alloc: Global,
    names: &[Name],
    algebra: Algebra,
    corank: u8,
    chain: &Chain<Ext<Frac>>,
) -> Result<Carried, Fault>
    requires field { IsFieldAlgebra algebra }
    requires placed { IsPlaced corank algebra chain.now }
    ensures carried { IfOk result (IsCarried corank algebra chain.now names.now) }
    ensures range { OnFault result (IsComposingHigh corank algebra chain.now) }
{
    let field = AlgebraField { algebra };
    let change = composite(chain, alloc, &field)?;
    see_jets(change.parts.as_slice());
    let jet = copy(alloc, chain.carried())?;
    see_terms(&jet);
    let names = Items::from_slice(alloc, names)?;
    let order = jet.order();
    Ok(Carried {
        names,
        algebra,
        order,
        corank,
        change,
        jet,
    })
}

/// The answer where Mather's test fails at the last order.
///
/// Errors: `Range` only where composing the moves forms a number of height 2^120 or more.
pub fn limited(
    alloc: Global,
    names: &[Name],
    algebra: Algebra,
    corank: u8,
    chain: &Chain<Ext<Frac>>,
    functional: Items<(Exp, Ext<Frac>)>,
    at: Exp,
) -> Result<Answer, Fault>
    requires field { IsFieldAlgebra algebra }
    requires placed { IsPlaced corank algebra chain.now }
    requires few { corank ≤ 3 }
    requires failure { IsFailureFor algebra corank (carried_in chain.now) functional at }
    ensures report { IfOk result (IsLimit corank algebra chain.now names.now) }
    ensures range { OnFault result (IsComposingHigh corank algebra chain.now) }
{
    let carried = carried_of(alloc, names, algebra, corank, chain)?;
    Ok(Answer::Limit(Limit {
        carried,
        at,
        functional,
    }))
}

/// The answer where a pattern past the list is decided: O in corank 4 and more, the other patterns by the test of a part.
///
/// Errors: `Range` only where composing the moves forms a number of height 2^120 or more.
pub fn outside(
    alloc: Global,
    names: &[Name],
    algebra: Algebra,
    corank: u8,
    pattern: Pattern,
    chain: &Chain<Ext<Frac>>,
) -> Result<Answer, Fault>
    requires field { IsFieldAlgebra algebra }
    requires placed { IsPlaced corank algebra chain.now }
    ensures report { IfOk result (IsOutside corank algebra chain.now pattern names.now) }
    ensures range { OnFault result (IsComposingHigh corank algebra chain.now) }
{
    let carried = carried_of(alloc, names, algebra, corank, chain)?;
    Ok(Answer::Outside(Outside { pattern, carried }))
}
