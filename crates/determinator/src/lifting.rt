//! Jets over the rational numbers, over the algebra of the rational numbers.

ghost use Rattle.std.specs.Prelude.{◌≡◌, ℕ, All, IfOk};
ghost use Rattle.ring_theory.specs.Rational.{Rational};
ghost use Rattle.ring_law.specs.Fraction.{rational_meaning, IsFrac};
ghost use Rattle.ring_law.specs.Refusals.{OnFault};
ghost use Rattle.poly_law.specs.Polynomials.{Polynomial};
ghost use Rattle.ext_algebra.specs.Algebra.{algebra_meaning};
ghost use Rattle.ext_algebra.specs.declared.algebra.Algebra.TheVariants as algebras;
ghost use Rattle.jet_poly.specs.Jets.{IsJet};
ghost use Rattle.coord_change.specs.Changes.{IsChange};
ghost use Rattle.coord_change.specs.MoveJets.{IsJetFor};
ghost use Rattle.determinator.specs.Lifted.{AreLiftedParts, AreLiftedEntries, IsLiftedChange};

use coord_change::Change;
use ext_algebra::Ext;
use jet_poly::Jet;
use report_jet::{lifted_element, lifted_jet};
use ring_law::{Fault, Frac, NoMemory};
use sqlite_items::Items;
use std::alloc::{AllocError, Global};

/// The jet over the algebra of the rational numbers.
///
/// Errors: want of memory alone.
pub fn lift_jet(alloc: Global, f: &Jet<Frac>) -> Result<Jet<Ext<Frac>>, Fault>
    requires jet { IsJet rational_meaning f.now }
    ensures jet { IfOk result (λ g. (n k : ℕ) (p : Polynomial n Rational) → IsJetFor rational_meaning n k p f.now → IsJetFor (algebra_meaning algebras.Rational) n k p g) }
    ensures memory { OnFault result ⊥ }
{
    match lifted_jet(alloc, f) {
        Ok(jet) => Ok(jet),
        Err(NoMemory) => Err(Fault::NoMemory),
    }
}

// The parts of a change over the algebra of the rational numbers.
fn lift_parts(alloc: Global, change: &Change<Frac>) -> Result<Items<Jet<Ext<Frac>>>, Fault>
    requires change { IsChange rational_meaning change.now }
    ensures parts { IfOk result (AreLiftedParts change.now change.now.parts) }
    ensures memory { OnFault result ⊥ }
{
    let mut parts = Items::new(alloc);
    for part in change.parts.as_slice() {
        parts.push(lift_jet(alloc, part)?)?;
    }
    Ok(parts)
}

// The numbers as elements of the algebra of the rational numbers.
fn lift_entries(alloc: Global, entries: &[Frac]) -> Result<Items<Ext<Frac>>, AllocError>
    requires valid { All IsFrac entries.now }
    ensures entries { IfOk result (AreLiftedEntries entries.now) }
{
    let mut lifted = Items::new(alloc);
    for e in entries {
        let q = *e;
        lifted.push(lifted_element(q))?;
    }
    Ok(lifted)
}

/// The change over the algebra of the rational numbers.
///
/// Errors: want of memory alone.
pub fn lift_change(alloc: Global, change: &Change<Frac>) -> Result<Change<Ext<Frac>>, Fault>
    requires change { IsChange rational_meaning change.now }
    ensures change { IfOk result (IsLiftedChange change.now) }
    ensures memory { OnFault result ⊥ }
{
    let parts = lift_parts(alloc, change)?;
    let inverse = lift_entries(alloc, change.inverse.as_slice())?;
    Ok(Change {
        n: change.n,
        order: change.order,
        parts,
        inverse,
    })
}
