//! The multipliers of the partials that a combination of multiples gives.

ghost use Rattle.std.specs.Prelude.{◌≡◌, ℕ, ◌<◌, ◌≤◌, length, IfOk};
ghost use Rattle.ring_law.specs.Refusals.{OnFault};
ghost use Rattle.lin_row.specs.Lines.{IsRising, AllBelow};
ghost use Rattle.jacobian_row.specs.Multiples.{AreMultiples};
ghost use Rattle.jacobian_row.specs.Multipliers.{AreMultipliers, terms_of};

use crate::multiple::Multiple;
use jet_poly::Jet;
use mono_exp::Exp;
use ring_law::Fault;
use sqlite_items::Items;
use std::alloc::Global;

/// The terms of the multiplier of one partial.
fn multiplier_terms<E: Copy>(
    alloc: Global,
    multiples: &[Multiple],
    coefficients: &[(u32, E)],
    variable: u8,
) -> Result<Vec<(Exp, E)>, Fault>
    requires within { AllBelow (length multiples.now) coefficients.now }
    ensures terms { IfOk result (λ v. v.items ≡ terms_of multiples.now coefficients.now variable) }
    ensures memory { OnFault result ⊥ }
{
    let mut terms = Vec::new(alloc);
    for t in coefficients {
        let u = multiples[t.0 as usize];
        if u.variable != variable {
            continue;
        }
        terms.push((u.factor, t.1))?;
    }
    Ok(terms)
}

/// The multipliers of the partials, as jets of order k: for the partial in variable i the sum of coefficient times factor over the multiples of that partial,
/// with the coefficients by the numbers of their multiples.
pub fn multipliers<E: Copy>(
    alloc: Global,
    n: u8,
    k: u8,
    multiples: &[Multiple],
    coefficients: &[(u32, E)],
) -> Result<Items<Jet<E>>, Fault>
    requires at_most_8_variables { n ≤ 8 }
    requires multiples { (low : ℕ) × (high : ℕ) × AreMultiples n low high multiples.now }
    requires rising { IsRising coefficients.now }
    requires within { AllBelow (length multiples.now) coefficients.now }
    ensures multipliers { IfOk result (AreMultipliers n k multiples.now coefficients.now) }
    ensures memory { OnFault result ⊥ }
{
    let mut all = Vec::new(alloc);
    for variable in 0..n {
        let terms = multiplier_terms(alloc, multiples, coefficients, variable)?;
        all.push(Jet::from_rising(n, k, terms))?;
    }
    Ok(Items::from_vec(all))
}
