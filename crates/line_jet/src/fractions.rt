//! Whole numbers and their inverses as fractions.

ghost use Rattle.std.specs.Prelude.{◌≡◌, ◌≢◌, ◌<◌};
ghost use Rattle.ring_theory.specs.Rational.{rational_ops};
ghost use Rattle.ring_law.specs.Fraction.{Represents, frac_value};
ghost use Rattle.germ_law.specs.Germ as germ;

use ring_law::Frac;

/// The whole number n.
pub(crate) fn whole(n: u64) -> Frac
    ensures { Represents result (germ.whole n) }
{
    Frac {
        num: i128::from(n),
        den: 1,
    }
}

/// The fraction 1 / n.
pub(crate) fn one_over(n: u64) -> Frac
    requires { 0 < n }
    ensures value { Represents result (germ.one_over n) }
    ensures nonzero { frac_value result ≢ rational_ops.zero }
{
    Frac {
        num: 1,
        den: i128::from(n),
    }
}
