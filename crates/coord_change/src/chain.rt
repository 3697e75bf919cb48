//! A germ that is carried by a growing list of moves, order by order.

ghost use Rattle.std.specs.Prelude.{◌≡◌, ℕ, suc, ◌+◌, ◌<◌, ◌≤◌, ◌++◌, length, [], ◌∷◌, List, IfOk, OnOk, OnErr};
ghost use Rattle.ring_law.specs.Refusals.{OnFault};
ghost use Rattle.poly_law.specs.Polynomials.{Polynomial, StartsAtIn};
ghost use Rattle.jet_law.specs.Canonical.{jet};
ghost use Rattle.jet_poly.specs.Jets.{IsJet};
ghost use Rattle.coord_change.specs.Changes.{IsChange};
ghost use Rattle.coord_change.specs.Moves.{Move};
ghost use Rattle.coord_change.specs.Carries.{carry_all, composite as composite_of};
ghost use Rattle.coord_change.specs.CarryHeights.{IsCarryHigh, IsCarryAllHigh, IsCompositeHigh};
ghost use Rattle.coord_change.specs.MoveJets.{IsJetFor, IsMoveExactly};
ghost use Rattle.coord_change.specs.Chains.{carried_in, IsChain, IsStanding};

use crate::change::{Change, ChangeOf};
use crate::composed::composed;
use crate::growth::grown_jets;
use crate::parts::{copied, copy};
use crate::pullback::{carried_jet, truncated};
use crate::steps::Steps;
use crate::unit::identity;
use jet_poly::{Jet, JetOf};
use ring_law::{Fault, Ring};
use sqlite_items::Items;
use std::alloc::{AllocError, Global};
use std::marker::Model;
use std::sync::ledger::Ledger;

/// A germ that is carried by moves: the germ, the order up to which it is carried, the moves, and
/// the jets that they make of it, of which number i belongs to the first i moves.
#[derive(Drop)]
pub struct Chain<E> {
    germ: Jet<E>,
    order: u8,
    moves: Items<Change<E>>,
    jets: Items<Jet<E>>,
}

impl<E> Model for Chain<E> {
    ghost use Rattle.std.specs.Prelude.{◌≡◌, ◌+◌, length};
    ghost use Rattle.coord_change.specs.Chains.{ChainParts};

    ghost Value = { ChainParts E };

    ghost view = { λ c. record { germ = c.germ; order = c.order; moves = c.moves; jets = c.jets } };

    ghost invariant = { λ c. length c.jets ≡ length c.moves + 1 };
}

impl<E> Chain<E> {
    /// The germ.
    pub fn germ(&self) -> &Jet<E>
        ensures { result.now ≡ self.now.germ }
    {
        &self.germ
    }

    /// The degree up to which the germ is carried.
    pub fn order(&self) -> u8
        ensures { result ≡ self.now.order }
    {
        self.order
    }

    /// The moves, in order.
    pub fn moves(&self) -> &[Change<E>]
        ensures { result.now ≡ self.now.moves }
    {
        self.moves.as_slice()
    }

    /// The carried jets, of which number i belongs to the first i moves.
    fn jets(&self) -> &[Jet<E>]
        ensures { result.now ≡ self.now.jets }
    {
        self.jets.as_slice()
    }

    /// The jet that all moves make of the germ.
    pub fn carried(&self) -> &Jet<E>
        ensures { result.now ≡ carried_in self.now }
    {
        &self.jets.as_slice()[self.moves.len()]
    }
}

impl<E: Copy> Chain<E> {
    /// One move more, with the jet that it makes.
    fn add(&mut self, change: Change<E>, jet: Jet<E>) -> Result<(), AllocError>
        ensures added { OnOk result (self.new ≡ record { germ = self.old.germ; order = self.old.order; moves = self.old.moves ++ change ∷ []; jets = self.old.jets ++ jet ∷ [] }) }
        ensures refused { OnErr result (self.new ≡ self.old) }
    {
        self.jets.push(jet)?;
        match self.moves.push(change) {
            Ok(()) => Ok(()),
            Err(e) => {
                let _jet = self.jets.pop();
                Err(e)
            }
        }
    }

    /// The chain up to another order, with other carried jets.
    fn set(&mut self, order: u8, jets: Vec<Jet<E>>)
        requires count { length jets.items ≡ length self.old.moves + 1 }
        ensures { self.new ≡ record { germ = self.old.germ; order = order; moves = self.old.moves; jets = jets.items } }
    {
        self.order = order;
        self.jets = Items::from_vec(jets);
    }
}

/// The chain of order 2 over a germ, without moves.
///
/// Errors: never `Range`.
pub fn start<R: Ring>(alloc: Global, ring: &R, germ: &JetOf<R>) -> Result<Chain<R::Elem>, Fault>
    requires ring { R.is_ring ring.now }
    requires jet { IsJet (R.meaning ring.now) germ.now }
    requires given { 0 < germ.now.n }
    requires at_most_8_variables { germ.now.n ≤ 8 }
    requires order_at_least_2 { 2 ≤ germ.now.order }
    requires order_at_most_16 { germ.now.order ≤ 16 }
    ensures chain { IfOk result (λ c. let m = R.meaning ring.now in (n last : ℕ) (g : Polynomial n (R.Value ring.now))
        → StartsAtIn n m.scalars.ops 2 g → IsJetFor m n last (jet n m.scalars last g) germ.now → IsChain m n last g 2 [] c) }
    ensures memory { OnFault result ⊥ }
{
    let copied = copy(alloc, germ)?;
    let jet = truncated(alloc, ring, germ, 2)?;
    let mut jets = Items::new(alloc);
    jets.push(jet)?;
    let moves = Items::new(alloc);
    Ok(Chain {
        germ: copied,
        order: 2,
        moves,
        jets,
    })
}

/// The change becomes the last move of the chain. It takes at most as many steps as the order.
///
/// Errors: `Range` only where a number that carrying the last jet by the move forms has height
/// 2^120 or more. The chain is then as before.
pub fn push<R: Ring, L: Ledger>(
    chain: &mut Chain<R::Elem>,
    alloc: Global,
    ring: &R,
    change: &ChangeOf<R>,
    steps: &mut Steps<L>,
) -> Result<(), Fault>
    requires ring { R.is_ring ring.now }
    requires stands { IsStanding (R.meaning ring.now) chain.old }
    requires change { IsChange (R.meaning ring.now) change.now }
    requires variables { change.now.n ≡ chain.old.germ.n }
    requires order { chain.old.germ.order ≤ change.now.order }
    ensures chain { OnOk result (let m = R.meaning ring.now in (n last o k : ℕ) (g : Polynomial n (R.Value ring.now)) (moves : List (Move n (R.Value ring.now))) (move : Move n (R.Value ring.now))
        → IsChain m n last g o moves chain.old → last ≤ k → IsMoveExactly m n k move change.now → IsChain m n last g o (moves ++ move ∷ []) chain.new) }
    ensures refused { OnErr result (chain.new ≡ chain.old) }
    ensures range { OnFault result (let m = R.meaning ring.now in (n last o k : ℕ) (g : Polynomial n (R.Value ring.now)) (moves : List (Move n (R.Value ring.now))) (move : Move n (R.Value ring.now))
        → IsChain m n last g o moves chain.old → last ≤ k → IsMoveExactly m n k move change.now → IsCarryHigh n m.scalars o move (carry_all n m.scalars o moves (jet n m.scalars o g))) }
    ensures steps { steps.new ≤ steps.old + chain.old.order }
{
    steps.add(u64::from(chain.order()));
    let jet = carried_jet(alloc, ring, change, chain.carried(), chain.order())?;
    let copy = copied(alloc, change)?;
    chain.add(copy, jet)?;
    Ok(())
}

/// The chain at the next order, with the same moves. Of each carried jet only the terms of that
/// degree are formed: one step for each move.
///
/// Errors: `Range` only where a number that carrying the germ by the moves up to that order forms
/// has height 2^120 or more. The chain is then as before.
pub fn grow<R: Ring, L: Ledger>(
    chain: &mut Chain<R::Elem>,
    alloc: Global,
    ring: &R,
    steps: &mut Steps<L>,
) -> Result<(), Fault>
    requires ring { R.is_ring ring.now }
    requires stands { IsStanding (R.meaning ring.now) chain.old }
    requires below_last { chain.old.order < chain.old.germ.order }
    ensures chain { OnOk result (let m = R.meaning ring.now in (n last o : ℕ) (g : Polynomial n (R.Value ring.now)) (moves : List (Move n (R.Value ring.now)))
        → IsChain m n last g o moves chain.old → IsChain m n last g (suc o) moves chain.new) }
    ensures refused { OnErr result (chain.new ≡ chain.old) }
    ensures range { OnFault result (let m = R.meaning ring.now in (n last o : ℕ) (g : Polynomial n (R.Value ring.now)) (moves : List (Move n (R.Value ring.now)))
        → IsChain m n last g o moves chain.old → IsCarryAllHigh n m.scalars (suc o) moves (jet n m.scalars (suc o) g)) }
    ensures steps { steps.new ≤ steps.old + length chain.old.moves }
{
    let o = chain.order();
    let jets = grown_jets(
        alloc,
        ring,
        chain.germ(),
        chain.moves(),
        chain.jets(),
        o,
        steps,
    )?;
    chain.set(o + 1, jets);
    Ok(())
}

/// The composite of the moves up to the order of the chain, with the inverse of its linear part:
/// the identity where there are none.
///
/// Errors: `Range` only where composing the moves, one after the other, up to that order forms a
/// number of height 2^120 or more.
pub fn composite<R: Ring>(
    chain: &Chain<R::Elem>,
    alloc: Global,
    ring: &R,
) -> Result<ChangeOf<R>, Fault>
    requires ring { R.is_ring ring.now }
    requires stands { IsStanding (R.meaning ring.now) chain.now }
    ensures change { IfOk result (λ c. let m = R.meaning ring.now in (n last o : ℕ) (g : Polynomial n (R.Value ring.now)) (moves : List (Move n (R.Value ring.now)))
        → IsChain m n last g o moves chain.now → IsMoveExactly m n o (composite_of n m.scalars o moves) c) }
    ensures range { OnFault result (let m = R.meaning ring.now in (n last o : ℕ) (g : Polynomial n (R.Value ring.now)) (moves : List (Move n (R.Value ring.now)))
        → IsChain m n last g o moves chain.now → IsCompositeHigh n m.scalars o moves) }
{
    let n = chain.germ().n();
    let moves = chain.moves();
    if moves.is_empty() {
        let unit = identity(alloc, ring, n, chain.order())?;
        return Ok(unit);
    }
    let all = composed(alloc, ring, n, moves, chain.order())?;
    Ok(all)
}
