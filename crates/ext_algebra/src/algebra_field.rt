//! The field of an algebra that is chosen at run time.

use crate::tower::tower_inv;
use crate::{Algebra, AlgebraRing, Ext, ExtField, ExtRing, Triple};
use ring_law::{Field, Frac, Range, Ring};
use small_frac::Rationals;

/// The field of an algebra: the rational numbers, or an extension whose modulus in t has no rational root, and over a tower d is no
/// square of a fraction.
#[derive(Clone, Copy, Debug)]
pub struct AlgebraField {
    pub algebra: Algebra,
}

impl Ring for AlgebraField {
    type Elem = Ext<Frac>;

    ghost use Rattle.ext_algebra.specs.Algebra.{Value as AlgebraValue, IsFieldAlgebra, algebra_meaning};
    ghost use Rattle.ext_algebra.specs.AlgebraLaws.{algebra_meaning_laws, algebra_heights};

    ghost Value = { λ f. AlgebraValue f.algebra };

    ghost is_ring = { λ f. IsFieldAlgebra f.algebra };

    ghost meaning = { λ f. algebra_meaning f.algebra };

    ghost laws = { λ f _. algebra_meaning_laws f.algebra };

    ghost heights = { λ f _. algebra_heights f.algebra };

    fn zero(&self) -> Ext<Frac> {
        let ring = AlgebraRing {
            algebra: self.algebra,
        };
        ring.zero()
    }

    fn one(&self) -> Ext<Frac> {
        let ring = AlgebraRing {
            algebra: self.algebra,
        };
        ring.one()
    }

    fn inject(&self, q: Frac) -> Ext<Frac> {
        let ring = AlgebraRing {
            algebra: self.algebra,
        };
        ring.inject(q)
    }

    fn neg(&self, a: Ext<Frac>) -> Ext<Frac> {
        let ring = AlgebraRing {
            algebra: self.algebra,
        };
        ring.neg(a)
    }

    fn eq(&self, a: Ext<Frac>, b: Ext<Frac>) -> bool {
        let ring = AlgebraRing {
            algebra: self.algebra,
        };
        ring.eq(a, b)
    }

    fn add(&self, a: Ext<Frac>, b: Ext<Frac>) -> Result<Ext<Frac>, Range> {
        let ring = AlgebraRing {
            algebra: self.algebra,
        };
        ring.add(a, b)
    }

    fn mul(&self, a: Ext<Frac>, b: Ext<Frac>) -> Result<Ext<Frac>, Range> {
        let ring = AlgebraRing {
            algebra: self.algebra,
        };
        ring.mul(a, b)
    }
}

impl Field for AlgebraField {
    ghost use Rattle.ext_algebra.specs.AlgebraLaws.{algebra_inverts, algebra_inverse_heights};

    ghost inverts = { λ f h. algebra_inverts f.algebra h.irreducible };

    ghost inverse_heights = { λ f _. algebra_inverse_heights f.algebra };

    fn inv(&self, a: Ext<Frac>) -> Result<Option<Ext<Frac>>, Range> {
        match self.algebra {
            Algebra::Rational => match Rationals.inv(a.c0)? {
                Some(inverse) => Ok(Some(self.inject(inverse))),
                None => Ok(None),
            },
            Algebra::Quadratic { m1, m0 } => {
                let field = ExtField {
                    ring: ExtRing {
                        base: Rationals,
                        m0,
                        m1,
                        m2: Rationals.zero(),
                        degree: 2,
                    },
                };
                field.inv(a)
            }
            Algebra::Cubic { m2, m1, m0 } => {
                let field = ExtField {
                    ring: ExtRing {
                        base: Rationals,
                        m0,
                        m1,
                        m2,
                        degree: 3,
                    },
                };
                field.inv(a)
            }
            Algebra::Tower { m2, m1, m0, d } => {
                let modulus = Triple {
                    c0: m0,
                    c1: m1,
                    c2: m2,
                };
                tower_inv(modulus, d, a)
            }
        }
    }
}
