//! Jets of one order as the numbers of a calculation.

ghost use Rattle.std.specs.Prelude.{◌≡◌, ◌≤◌, IfOk};
ghost use Rattle.ring_law.specs.Refusals.{OnFault};
ghost use Rattle.jet_poly.specs.JetTerms.{IsRising};
ghost use Rattle.germ_law.specs.Jets.{jets, high_jets};
ghost use Rattle.line_jet_law.specs.LineJets.{IsRationalJet, rational_polynomial};

use jet_poly::{Jet, add, mul_cut};
use ring_law::{Fault, Frac};
use small_frac::Rationals;
use std::alloc::Global;

// The jet, of which contracts then see that its terms rise.
fn in_order(f: Jet<Frac>) -> Jet<Frac>
    ensures same { result ≡ f }
    ensures rising { IsRising result.terms }
{
    let _ = f.terms();
    f
}

/// The sum of two jets of order k in n variables.
pub(crate) fn sum(
    alloc: Global,
    n: u8,
    k: u8,
    f: &Jet<Frac>,
    g: &Jet<Frac>,
) -> Result<Jet<Frac>, Fault>
    requires few { n ≤ 8 }
    requires low { k ≤ 17 }
    requires left { IsRationalJet n k f.now }
    requires right { IsRationalJet n k g.now }
    ensures elem { IfOk result (IsRationalJet n k) }
    ensures value { IfOk result (λ h. rational_polynomial n h
        ≡ (jets n k).add (rational_polynomial n f.now) (rational_polynomial n g.now)) }
    ensures cause { OnFault result ((high_jets n k).sum (rational_polynomial n f.now) (rational_polynomial n g.now)) }
{
    let h = add(alloc, &Rationals, f, g)?;
    Ok(in_order(h))
}

/// The product of two jets of order k in n variables, cut at k.
pub(crate) fn product(
    alloc: Global,
    n: u8,
    k: u8,
    f: &Jet<Frac>,
    g: &Jet<Frac>,
) -> Result<Jet<Frac>, Fault>
    requires few { n ≤ 8 }
    requires low { k ≤ 17 }
    requires left { IsRationalJet n k f.now }
    requires right { IsRationalJet n k g.now }
    ensures elem { IfOk result (IsRationalJet n k) }
    ensures value { IfOk result (λ h. rational_polynomial n h
        ≡ (jets n k).mul (rational_polynomial n f.now) (rational_polynomial n g.now)) }
    ensures cause { OnFault result ((high_jets n k).product (rational_polynomial n f.now) (rational_polynomial n g.now)) }
{
    let h = mul_cut(alloc, &Rationals, f, g, k)?;
    Ok(in_order(h))
}
