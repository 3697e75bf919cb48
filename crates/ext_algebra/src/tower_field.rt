//! The tower of degree six as a field.

ghost use Rattle.std.specs.Prelude.{◌≡◌, IfOk, IfErr};
ghost use Rattle.ring_law.specs.Fraction.{IsFrac};
ghost use Rattle.ext_algebra.specs.Tower.{IsTowerErrorOf};

use crate::{Algebra, AlgebraField, Ext, ExtError};
use ring_law::{Field, Frac, Range, Ring};
use small_frac::{is_square, rational_root_cubic};

/// Q[s, t] modulo `s^2 - d` and `t^3 + m2*t^2 + m1*t + m0`. It is valid where that polynomial has no rational root and d is no
/// square of a fraction, so that it is a field.
#[derive(Clone, Copy, Debug)]
pub struct TowerField {
    pub m2: Frac,
    pub m1: Frac,
    pub m0: Frac,
    pub d: Frac,
}

impl TowerField {
    /// The field of a tower.
    ///
    /// Errors: `Reducible`, exactly where the modulus in t has a rational root, with the least one; else `Square`, exactly where d is
    /// the square of a fraction, with the root that is not negative; `Range`, as `rational_root_cubic` says, before both.
    pub fn new(m2: Frac, m1: Frac, m0: Frac, d: Frac) -> Result<TowerField, ExtError>
        requires m2_valid { IsFrac m2 }
        requires m1_valid { IsFrac m1 }
        requires m0_valid { IsFrac m0 }
        requires d_valid { IsFrac d }
        ensures field { IfOk result (λ f. f ≡ record { m2 = m2; m1 = m1; m0 = m0; d = d }) }
        ensures valid { IfOk result (λ f. ⟦<TowerField as Ring>⟧.is_ring f) }
        ensures error { IfErr result (IsTowerErrorOf m2 m1 m0 d) }
    {
        match rational_root_cubic(m2, m1, m0) {
            Err(range) => Err(ExtError::Range(range)),
            Ok(Some(root)) => Err(ExtError::Reducible { root }),
            Ok(None) => match is_square(d) {
                Some(root) => Err(ExtError::Square { root }),
                None => Ok(TowerField { m2, m1, m0, d }),
            },
        }
    }
}

impl Ring for TowerField {
    type Elem = Ext<Frac>;

    ghost use Rattle.ring_theory.specs.Rational.{Rational};
    ghost use Rattle.ext_theory.specs.Extension.{Quadratic, Cubic};
    ghost use Rattle.ext_algebra.specs.declared.algebra.Algebra.TheVariants as algebras;
    ghost use Rattle.ext_algebra.specs.Algebra.{IsFieldAlgebra, algebra_meaning};
    ghost use Rattle.ext_algebra.specs.AlgebraLaws.{algebra_meaning_laws, algebra_heights};

    ghost Value = { λ _. Cubic (Quadratic Rational) };

    ghost is_ring = { λ f. IsFieldAlgebra (algebras.Tower f.m2 f.m1 f.m0 f.d) };

    ghost meaning = { λ f. algebra_meaning (algebras.Tower f.m2 f.m1 f.m0 f.d) };

    ghost laws = { λ f _. algebra_meaning_laws (algebras.Tower f.m2 f.m1 f.m0 f.d) };

    ghost heights = { λ f _. algebra_heights (algebras.Tower f.m2 f.m1 f.m0 f.d) };

    fn zero(&self) -> Ext<Frac> {
        let Self { m2, m1, m0, d } = *self;
        let field = AlgebraField {
            algebra: Algebra::Tower { m2, m1, m0, d },
        };
        field.zero()
    }

    fn one(&self) -> Ext<Frac> {
        let Self { m2, m1, m0, d } = *self;
        let field = AlgebraField {
            algebra: Algebra::Tower { m2, m1, m0, d },
        };
        field.one()
    }

    fn inject(&self, q: Frac) -> Ext<Frac> {
        let Self { m2, m1, m0, d } = *self;
        let field = AlgebraField {
            algebra: Algebra::Tower { m2, m1, m0, d },
        };
        field.inject(q)
    }

    fn neg(&self, a: Ext<Frac>) -> Ext<Frac> {
        let Self { m2, m1, m0, d } = *self;
        let field = AlgebraField {
            algebra: Algebra::Tower { m2, m1, m0, d },
        };
        field.neg(a)
    }

    fn eq(&self, a: Ext<Frac>, b: Ext<Frac>) -> bool {
        let Self { m2, m1, m0, d } = *self;
        let field = AlgebraField {
            algebra: Algebra::Tower { m2, m1, m0, d },
        };
        field.eq(a, b)
    }

    fn add(&self, a: Ext<Frac>, b: Ext<Frac>) -> Result<Ext<Frac>, Range> {
        let Self { m2, m1, m0, d } = *self;
        let field = AlgebraField {
            algebra: Algebra::Tower { m2, m1, m0, d },
        };
        field.add(a, b)
    }

    fn mul(&self, a: Ext<Frac>, b: Ext<Frac>) -> Result<Ext<Frac>, Range> {
        let Self { m2, m1, m0, d } = *self;
        let field = AlgebraField {
            algebra: Algebra::Tower { m2, m1, m0, d },
        };
        field.mul(a, b)
    }
}

impl Field for TowerField {
    ghost use Rattle.ext_algebra.specs.declared.algebra.Algebra.TheVariants as algebras;
    ghost use Rattle.ext_algebra.specs.AlgebraLaws.{algebra_inverts, algebra_inverse_heights};

    ghost inverts = { λ f h. algebra_inverts (algebras.Tower f.m2 f.m1 f.m0 f.d) h.irreducible };

    ghost inverse_heights = { λ f _. algebra_inverse_heights (algebras.Tower f.m2 f.m1 f.m0 f.d) };

    fn inv(&self, a: Ext<Frac>) -> Result<Option<Ext<Frac>>, Range> {
        let Self { m2, m1, m0, d } = *self;
        let field = AlgebraField {
            algebra: Algebra::Tower { m2, m1, m0, d },
        };
        field.inv(a)
    }
}
