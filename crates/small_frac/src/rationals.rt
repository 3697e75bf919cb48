//! The field of the rational numbers, with fractions as its elements.

ghost use Rattle.std.specs.Prelude.{◌≡◌, ◌≢◌, ◌≤◌, ◌^◌, IfOk, IfSome, IsOk, MatchOption};
ghost use Rattle.ring_theory.specs.Height.{product_height, inverse_height, rational_scalars};
ghost use Rattle.ring_theory.specs.Rational.{rational_add, rational_mul, rational_inv, rational_ops};
ghost use Rattle.ring_theory.specs.Scalars.{SumIsHigh};
ghost use Rattle.ring_law.specs.Fraction.{IsFrac, frac_value};
ghost use Rattle.ring_law.specs.Refusals.{OnRange};
ghost use Rattle.small_frac.specs.Exact.{IsExactSum, IsExactProduct, IsInverseOf};

use crate::arithmetic;
use ring_law::{Field, Frac, Range, Ring};

/// The field of the rational numbers.
#[derive(Clone, Copy, Debug)]
pub struct Rationals;

impl Ring for Rationals {
    type Elem = Frac;

    ghost use Rattle.ring_theory.specs.Rational.{Rational};
    ghost use Rattle.ring_theory.proofs.HeightLaws.{rational_heights};
    ghost use Rattle.ring_law.specs.Fraction.{rational_meaning};
    ghost use Rattle.ring_law.proofs.FractionLaws.{rational_meaning_laws};

    ghost Value = { λ _. Rational };

    ghost is_ring = { λ _. Unit {0} };

    ghost meaning = { λ _. rational_meaning };

    ghost laws = { λ _ _. rational_meaning_laws };

    ghost heights = { λ _ _. rational_heights };

    fn zero(&self) -> Frac {
        Frac { num: 0, den: 1 }
    }

    fn one(&self) -> Frac {
        Frac { num: 1, den: 1 }
    }

    fn inject(&self, q: Frac) -> Frac {
        q
    }

    fn neg(&self, a: Frac) -> Frac {
        arithmetic::neg(a)
    }

    fn eq(&self, a: Frac, b: Frac) -> bool {
        a == b
    }

    fn add(&self, a: Frac, b: Frac) -> Result<Frac, Range>
        requires left { IsFrac a }
        requires right { IsFrac b }
        ensures elem { IfOk result (λ f. IsFrac f) }
        ensures value { IfOk result (λ f. frac_value f ≡ rational_add (frac_value a) (frac_value b)) }
        ensures cause { OnRange result (SumIsHigh rational_scalars (frac_value a) (frac_value b)) }
        ensures exact { IsExactSum a b result }
    {
        arithmetic::add(a, b)
    }

    fn mul(&self, a: Frac, b: Frac) -> Result<Frac, Range>
        requires left { IsFrac a }
        requires right { IsFrac b }
        ensures elem { IfOk result (λ f. IsFrac f) }
        ensures value { IfOk result (λ f. frac_value f ≡ rational_mul (frac_value a) (frac_value b)) }
        ensures cause { OnRange result (2 ^ 120 ≤ product_height (frac_value a) (frac_value b)) }
        ensures exact { IsExactProduct a b result }
    {
        arithmetic::mul(a, b)
    }
}

impl Field for Rationals {
    ghost use Rattle.ring_theory.proofs.RationalLaws.{rational_inverts};
    ghost use Rattle.ring_theory.proofs.HeightLaws.{rational_inverse_heights};

    ghost inverts = { λ _ _. rational_inverts };

    ghost inverse_heights = { λ _ _. rational_inverse_heights };

    fn inv(&self, a: Frac) -> Result<Option<Frac>, Range>
        requires elem { IsFrac a }
        ensures zero { IfOk result (λ o. MatchOption o (frac_value a ≡ rational_ops.zero) (λ _. frac_value a ≢ rational_ops.zero)) }
        ensures elem { IfOk result (λ o. IfSome o (λ f. IsFrac f)) }
        ensures value { IfOk result (λ o. IfSome o (λ f. frac_value f ≡ rational_inv (frac_value a))) }
        ensures cause { OnRange result (2 ^ 120 ≤ inverse_height (frac_value a)) }
        ensures exact { IfOk result (IsInverseOf a) }
        ensures answered { IsOk result }
    {
        Ok(arithmetic::inv(a))
    }
}
