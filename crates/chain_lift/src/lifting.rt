//! The chain over an algebra by the germ and the moves of a chain over the rational numbers.

ghost use Rattle.std.specs.Prelude.{◌≡◌, ℕ, ◌≤◌, [], List, IfOk, OnOk};
ghost use Rattle.ring_law.specs.Refusals.{OnFault};
ghost use Rattle.ext_algebra.specs.Algebra.{IsAlgebra, algebra_meaning};
ghost use Rattle.ext_algebra.specs.declared.algebra.Algebra.TheVariants as algebras;
ghost use Rattle.poly_law.specs.Polynomials.{Polynomial};
ghost use Rattle.jet_law.specs.Canonical.{jet};
ghost use Rattle.coord_change.specs.Moves.{Move};
ghost use Rattle.coord_change.specs.CarryHeights.{IsCarryAllHigh};
ghost use Rattle.coord_change.specs.Chains.{AreMoves, IsChain, IsStanding};
ghost use Rattle.chain_lift.specs.Lifted.{IsLiftedChain, IsLiftingHigh, IsOpen};

use coord_change::{Chain, ChangeOf, Steps, grow, push, start};
use ext_algebra::{Algebra, AlgebraRing, Ext};
use ring_law::{Fault, Frac, Ring};
use std::alloc::Global;
use std::sync::ledger::Ledger;

// A chain without moves goes to a higher order.
fn grow_to<R: Ring, L: Ledger>(
    chain: &mut Chain<R::Elem>,
    alloc: Global,
    ring: &R,
    order: u8,
    steps: &mut Steps<L>,
) -> Result<(), Fault>
    requires ring { R.is_ring ring.now }
    requires ready { IsOpen (R.meaning ring.now) [] chain.old }
    requires upwards { chain.old.order ≤ order }
    requires at_most_last { order ≤ chain.old.germ.order }
    ensures chain { OnOk result (let m = R.meaning ring.now in (n last o : ℕ) (g : Polynomial n (R.Value ring.now)) → IsChain m n last g o [] chain.old → IsChain m n last g order [] chain.new) }
    ensures memory { OnFault result ⊥ }
{
    for _o in chain.order()..order {
        grow(chain, alloc, ring, steps)?;
    }
    Ok(())
}

// The changes become the moves of a chain without moves.
fn push_all<R: Ring, L: Ledger>(
    chain: &mut Chain<R::Elem>,
    alloc: Global,
    ring: &R,
    changes: &[ChangeOf<R>],
    steps: &mut Steps<L>,
) -> Result<(), Fault>
    requires ring { R.is_ring ring.now }
    requires ready { IsOpen (R.meaning ring.now) changes.now chain.old }
    ensures chain { OnOk result (let m = R.meaning ring.now in (n last o : ℕ) (g : Polynomial n (R.Value ring.now)) (moves : List (Move n (R.Value ring.now)))
        → IsChain m n last g o [] chain.old → AreMoves m n last moves changes.now → IsChain m n last g o moves chain.new) }
    ensures range { OnFault result (let m = R.meaning ring.now in (n last o : ℕ) (g : Polynomial n (R.Value ring.now)) (moves : List (Move n (R.Value ring.now)))
        → IsChain m n last g o [] chain.old → AreMoves m n last moves changes.now → IsCarryAllHigh n m.scalars o moves (jet n m.scalars o g)) }
{
    for change in changes {
        push(chain, alloc, ring, change, steps)?;
    }
    Ok(())
}

/// The chain over an algebra by the germ and the moves of a chain over the rational numbers, at the same order: its elements have the same components.
///
/// Errors: `Range` only where carrying the germ by the moves, over the algebra and up to that order, forms a number of height 2^120 or more.
pub fn lift_chain<L: Ledger>(
    alloc: Global,
    algebra: Algebra,
    chain: &Chain<Ext<Frac>>,
    steps: &mut Steps<L>,
) -> Result<Chain<Ext<Frac>>, Fault>
    requires algebra { IsAlgebra algebra }
    requires stands { IsStanding (algebra_meaning algebras.Rational) chain.now }
    ensures chain { IfOk result (IsLiftedChain algebra chain.now) }
    ensures range { OnFault result (IsLiftingHigh algebra chain.now) }
{
    let ring = AlgebraRing { algebra };
    let mut made = start(alloc, &ring, chain.germ())?;
    grow_to(&mut made, alloc, &ring, chain.order(), steps)?;
    push_all(&mut made, alloc, &ring, chain.moves(), steps)?;
    Ok(made)
}
