//! The tower of degree six: t with a modulus of degree 3 above s with the square d.

ghost use Rattle.std.specs.Prelude.{◌≡◌, ◌≢◌, ◌≤◌, ◌^◌, IfOk, IfErr, IfSome, MatchOption};
ghost use Rattle.ring_theory.specs.Height.{rational_scalars};
ghost use Rattle.ring_theory.specs.Rational.{rational_ops};
ghost use Rattle.ring_law.specs.Fraction.{IsFrac, frac_value};
ghost use Rattle.ring_law.specs.Refusals.{OnRange};
ghost use Rattle.ext_theory.specs.Extension.{cubic_at};
ghost use Rattle.ext_theory.specs.Tower.{nest as nested_value, tower_scalars};
ghost use Rattle.ext_algebra.specs.Algebra.{sextic_of};
ghost use Rattle.ext_theory.specs.Roots.{HasNoRoot, IsNoSquare};
ghost use Rattle.ext_algebra.specs.ExtRing.{front_of, AllValid, triple_value};
ghost use Rattle.ext_algebra.specs.Tower.{AreFracs, IsPair, pair_of, pairs_value, IsNested};

use crate::inverse::cubic_inv;
use crate::{Ext, ExtField, ExtRing, Triple};
use ring_law::{Frac, Range, Ring};
use small_frac::Rationals;

// c0 + c1*s.
fn pair(c0: Frac, c1: Frac) -> Ext<Frac>
    requires c0_valid { IsFrac c0 }
    requires c1_valid { IsFrac c1 }
    ensures valid { IsPair result }
    ensures value { pair_of result ≡ record { c0 = frac_value c0; c1 = frac_value c1 } }
{
    let zero = Rationals.zero();
    Ext {
        c0,
        c1,
        c2: zero,
        c3: zero,
        c4: zero,
        c5: zero,
    }
}

/// The number `(c0 + c3*s) + (c1 + c4*s)*t + (c2 + c5*s)*t^2` over the ring of s.
pub fn nest(a: Ext<Frac>) -> Ext<Ext<Frac>>
    requires { AreFracs a }
    ensures valid { IsNested result }
    ensures value { pairs_value (front_of result) ≡ nested_value (sextic_of a) }
{
    let zero = Rationals.zero();
    let none = pair(zero, zero);
    Ext {
        c0: pair(a.c0, a.c3),
        c1: pair(a.c1, a.c4),
        c2: pair(a.c2, a.c5),
        c3: none,
        c4: none,
        c5: none,
    }
}

/// The six components of a number over the ring of s.
pub fn flat(a: Ext<Ext<Frac>>) -> Ext<Frac>
    requires { AllValid IsPair (front_of a) }
    ensures valid { AreFracs result }
    ensures value { nested_value (sextic_of result) ≡ pairs_value (front_of a) }
{
    Ext {
        c0: a.c0.c0,
        c1: a.c1.c0,
        c2: a.c2.c0,
        c3: a.c0.c1,
        c4: a.c1.c1,
        c5: a.c2.c1,
    }
}

// The product in the tower: that of the ring of t over the ring of s.
pub fn tower_mul(
    modulus: Triple<Frac>,
    d: Frac,
    a: Ext<Frac>,
    b: Ext<Frac>,
) -> Result<Ext<Frac>, Range>
    requires modulus { AllValid IsFrac modulus }
    requires d { IsFrac d }
    requires left { AreFracs a }
    requires right { AreFracs b }
    ensures elem { IfOk result AreFracs }
    ensures value { IfOk result (λ x. nested_value (sextic_of x)
        ≡ (tower_scalars rational_scalars (triple_value frac_value modulus) (frac_value d)).ops.mul (nested_value (sextic_of a)) (nested_value (sextic_of b))) }
    ensures cause { OnRange result
        (2 ^ 120 ≤ (tower_scalars rational_scalars (triple_value frac_value modulus) (frac_value d)).product_height (nested_value (sextic_of a)) (nested_value (sextic_of b))) }
{
    let zero = Rationals.zero();
    let below = ExtRing {
        base: Rationals,
        m0: Rationals.neg(d),
        m1: zero,
        m2: zero,
        degree: 2,
    };
    let m0 = below.lift(modulus.c0);
    let m1 = below.lift(modulus.c1);
    let m2 = below.lift(modulus.c2);
    let ring = ExtRing {
        base: below,
        m0,
        m1,
        m2,
        degree: 3,
    };
    let product = ring.mul(nest(a), nest(b))?;
    Ok(flat(product))
}

// The inverse in the tower, or `None` for 0: the adjugate over the norm, in the field of s.
pub fn tower_inv(modulus: Triple<Frac>, d: Frac, a: Ext<Frac>) -> Result<Option<Ext<Frac>>, Range>
    requires modulus { AllValid IsFrac modulus }
    requires d { IsFrac d }
    requires no_root { HasNoRoot (cubic_at rational_ops (triple_value frac_value modulus)) }
    requires no_square { IsNoSquare (frac_value d) }
    requires elem { AreFracs a }
    ensures zero { IfOk result (λ o. let s = tower_scalars rational_scalars (triple_value frac_value modulus) (frac_value d) in
        MatchOption o (nested_value (sextic_of a) ≡ s.ops.zero) (λ x. nested_value (sextic_of a) ≢ s.ops.zero)) }
    ensures elem { IfOk result (λ o. IfSome o AreFracs) }
    ensures value { IfOk result (λ o. IfSome o (λ x. nested_value (sextic_of x)
        ≡ (tower_scalars rational_scalars (triple_value frac_value modulus) (frac_value d)).inverse (nested_value (sextic_of a)))) }
    ensures cause { OnRange result
        (2 ^ 120 ≤ (tower_scalars rational_scalars (triple_value frac_value modulus) (frac_value d)).inverse_height (nested_value (sextic_of a))) }
{
    let zero = Rationals.zero();
    let ring = ExtRing {
        base: Rationals,
        m0: Rationals.neg(d),
        m1: zero,
        m2: zero,
        degree: 2,
    };
    let lifted = Triple {
        c0: ring.lift(modulus.c0),
        c1: ring.lift(modulus.c1),
        c2: ring.lift(modulus.c2),
    };
    let below = ExtField { ring };
    let nested = nest(a);
    match cubic_inv(&below, lifted, nested.front())? {
        None => Ok(None),
        Some(inverse) => Ok(Some(flat(Ext {
            c0: inverse.c0,
            c1: inverse.c1,
            c2: inverse.c2,
            c3: nested.c3,
            c4: nested.c4,
            c5: nested.c5,
        }))),
    }
}
