//! What a calculation needs of its numbers.

ghost use Rattle.std.specs.Prelude.{◌≡◌, ℕ, ◌<◌, IfOk};
ghost use Rattle.line_syntax.specs.Value.{Arithmetic};
ghost use Rattle.line_syntax.specs.High.{HighOperations};

use ring_law::Fault;
use std::alloc::{AllocError, Global};

/// Numbers with the operations that an expression needs. An operation may be refused only where it is high.
pub trait Calculator {
    type Elem: Drop;

    ghost use Rattle.ring_law.specs.Refusals.{OnFault};
    ghost use Rattle.line_value.specs.Powers.{PowerLaws};

    /// The unlimited values that numbers stand for.
    ghost Value: { Self → Type 0 };

    /// The operations on values.
    ghost arithmetic: { (r : Self) → Arithmetic (Value r) };

    /// Which operations on values are high.
    ghost high: { (r : Self) → HighOperations (Value r) };

    /// How many variables there are.
    ghost count: { Self → ℕ };

    /// The numbers that stand for a value.
    ghost is_elem: { Self → Self.Elem → Type 0 };

    /// The value of each.
    ghost value: { (r : Self) → Self.Elem → Value r };

    /// A variable, counted from 0.
    fn variable(&self, alloc: Global, i: usize) -> Result<Self::Elem, AllocError>
        requires within { i < count self.now }
        ensures elem { IfOk result (is_elem self.now) }
        ensures value { IfOk result (λ v. value self.now v ≡ (arithmetic self.now).variable i) };

    /// A whole number.
    fn number(&self, alloc: Global, n: u64) -> Result<Self::Elem, AllocError>
        ensures elem { IfOk result (is_elem self.now) }
        ensures value { IfOk result (λ v. value self.now v ≡ (arithmetic self.now).number n) };

    /// The opposite.
    fn neg(&self, alloc: Global, a: &Self::Elem) -> Result<Self::Elem, AllocError>
        requires elem { is_elem self.now a.now }
        ensures elem { IfOk result (is_elem self.now) }
        ensures value { IfOk result (λ v. value self.now v ≡ (arithmetic self.now).neg (value self.now a.now)) };

    /// The sum.
    fn add(&self, alloc: Global, a: &Self::Elem, b: &Self::Elem) -> Result<Self::Elem, Fault>
        requires left { is_elem self.now a.now }
        requires right { is_elem self.now b.now }
        ensures elem { IfOk result (is_elem self.now) }
        ensures value { IfOk result (λ v. value self.now v ≡ (arithmetic self.now).add (value self.now a.now) (value self.now b.now)) }
        ensures cause { OnFault result ((high self.now).sum (value self.now a.now) (value self.now b.now)) };

    /// The product.
    fn mul(&self, alloc: Global, a: &Self::Elem, b: &Self::Elem) -> Result<Self::Elem, Fault>
        requires left { is_elem self.now a.now }
        requires right { is_elem self.now b.now }
        ensures elem { IfOk result (is_elem self.now) }
        ensures value { IfOk result (λ v. value self.now v ≡ (arithmetic self.now).mul (value self.now a.now) (value self.now b.now)) }
        ensures cause { OnFault result ((high self.now).product (value self.now a.now) (value self.now b.now)) };

    /// The quotient by a whole number.
    fn over(&self, alloc: Global, a: &Self::Elem, n: u64) -> Result<Self::Elem, Fault>
        requires elem { is_elem self.now a.now }
        requires divisor { 0 < n }
        ensures elem { IfOk result (is_elem self.now) }
        ensures value { IfOk result (λ v. value self.now v ≡ (arithmetic self.now).over (value self.now a.now) n) }
        ensures cause { OnFault result ((high self.now).quotient (value self.now a.now) n) };

    ghost powers: { (r : Self) → PowerLaws (arithmetic r) (is_elem r) (value r) };
}
