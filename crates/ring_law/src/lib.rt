//! Commutative rings that contain the rational numbers, by the unlimited numbers that their elements stand for.
#![tactic(auto)]

ghost use Rattle.std.specs.Prelude.{◌≡◌, ◌≢◌, ℕ, ◌≤◌, ◌^◌, IfOk, IfErr, IfSome, IsTrue, ◌↔◌, MatchOption};
ghost use Rattle.ring_theory.specs.Scalars.{Meaning, MeaningLaws, HeightLaws, HasInverses, InverseHeightLaws, SumIsHigh};

mod fraction;

pub use fraction::{Fault, Frac, NoMemory, Op, Range};

/// A commutative ring that contains the rational numbers, on elements that fit in memory.
///
/// Contracts speak of the unlimited numbers that elements stand for; heights say when an operation may refuse.
pub trait Ring {
    /// The elements as data.
    type Elem: Copy;

    ghost use Rattle.ring_law.specs.Fraction.{IsFrac, frac_value};
    ghost use Rattle.ring_law.specs.Refusals.{OnRange};

    /// The unlimited numbers that elements stand for.
    ghost Value: { Self → Type 0 };

    /// The values of this type that are rings.
    ghost is_ring: { Self → Type 0 };

    /// The valid elements, and the number that each stands for.
    ghost meaning: { (r : Self) → Meaning Self.Elem (Value r) };

    /// The zero of the ring.
    fn zero(&self) -> Self::Elem
        requires { is_ring self.now }
        ensures elem { (meaning self.now).is_elem result }
        ensures value { (meaning self.now).value result ≡ (meaning self.now).scalars.ops.zero };

    /// The one of the ring.
    fn one(&self) -> Self::Elem
        requires { is_ring self.now }
        ensures elem { (meaning self.now).is_elem result }
        ensures value { (meaning self.now).value result ≡ (meaning self.now).scalars.ops.one };

    /// A rational number as an element of the ring.
    fn inject(&self, q: Frac) -> Self::Elem
        requires ring { is_ring self.now }
        requires frac { IsFrac q }
        ensures elem { (meaning self.now).is_elem result }
        ensures value { (meaning self.now).value result ≡ (meaning self.now).scalars.rational (frac_value q) };

    /// The sum `a + b`.
    ///
    /// Errors: `Range` only where the sum of each list that has parts with the sums `a` and `b` is of height 2^120 or more.
    fn add(&self, a: Self::Elem, b: Self::Elem) -> Result<Self::Elem, Range>
        requires ring { is_ring self.now }
        requires left { (meaning self.now).is_elem a }
        requires right { (meaning self.now).is_elem b }
        ensures elem { IfOk result ((meaning self.now).is_elem) }
        ensures value { IfOk result (λ x. (meaning self.now).value x ≡ (meaning self.now).scalars.ops.add ((meaning self.now).value a) ((meaning self.now).value b)) }
        ensures cause { OnRange result (SumIsHigh ((meaning self.now).scalars) ((meaning self.now).value a) ((meaning self.now).value b)) };

    /// The product `a * b`.
    ///
    /// Errors: `Range` only where the height of the product is 2^120 or more.
    fn mul(&self, a: Self::Elem, b: Self::Elem) -> Result<Self::Elem, Range>
        requires ring { is_ring self.now }
        requires left { (meaning self.now).is_elem a }
        requires right { (meaning self.now).is_elem b }
        ensures elem { IfOk result ((meaning self.now).is_elem) }
        ensures value { IfOk result (λ x. (meaning self.now).value x ≡ (meaning self.now).scalars.ops.mul ((meaning self.now).value a) ((meaning self.now).value b)) }
        ensures cause { OnRange result (2 ^ 120 ≤ (meaning self.now).scalars.product_height ((meaning self.now).value a) ((meaning self.now).value b)) };

    /// The opposite `-a`.
    fn neg(&self, a: Self::Elem) -> Self::Elem
        requires ring { is_ring self.now }
        requires elem { (meaning self.now).is_elem a }
        ensures elem { (meaning self.now).is_elem result }
        ensures value { (meaning self.now).value result ≡ (meaning self.now).scalars.ops.neg ((meaning self.now).value a) };

    /// Whether `a` and `b` stand for the same number.
    fn eq(&self, a: Self::Elem, b: Self::Elem) -> bool
        requires ring { is_ring self.now }
        requires left { (meaning self.now).is_elem a }
        requires right { (meaning self.now).is_elem b }
        ensures { IsTrue result ↔ ((meaning self.now).value a ≡ (meaning self.now).value b) };

    /// The numbers are a commutative ring that contains the rational numbers, and elements stand for them.
    ghost laws: { (r : Self) → is_ring r → MeaningLaws (meaning r) };

    /// The height of an element is at most that of each operation that has it as result.
    ghost heights: { (r : Self) → is_ring r → HeightLaws (meaning r).scalars };
}

/// A ring of which each element but zero has an inverse.
pub trait Field: Ring {
    ghost use Rattle.ring_law.specs.Refusals.{OnRange};

    /// The inverse `1 / a`, or `None` where `a` stands for zero.
    ///
    /// Errors: `Range` only where the height of the inverse is 2^120 or more.
    fn inv(&self, a: Self::Elem) -> Result<Option<Self::Elem>, Range>
        requires ring { Self.is_ring self.now }
        requires elem { (Self.meaning self.now).is_elem a }
        ensures zero { IfOk result (λ o. MatchOption o ((Self.meaning self.now).value a ≡ (Self.meaning self.now).scalars.ops.zero) (λ x. (Self.meaning self.now).value a ≢ (Self.meaning self.now).scalars.ops.zero)) }
        ensures elem { IfOk result (λ o. IfSome o ((Self.meaning self.now).is_elem)) }
        ensures value { IfOk result (λ o. IfSome o (λ x. (Self.meaning self.now).value x ≡ (Self.meaning self.now).scalars.inverse ((Self.meaning self.now).value a))) }
        ensures cause { OnRange result (2 ^ 120 ≤ (Self.meaning self.now).scalars.inverse_height ((Self.meaning self.now).value a)) };

    /// Each number but zero times its inverse is 1.
    ghost inverts: { (r : Self) → Self.is_ring r → HasInverses (Self.meaning r).scalars };

    /// The height of an inverse is at most that of inverting.
    ghost inverse_heights: { (r : Self) → Self.is_ring r → InverseHeightLaws (Self.meaning r).scalars };
}
