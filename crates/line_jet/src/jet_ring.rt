//! The numbers of a calculation with jets.

ghost use Rattle.std.specs.Prelude.{◌≤◌};

use crate::fractions::one_over;
use crate::ring::{product, sum};
use crate::simple::{constant, multiple, opposite, variable};
use jet_poly::Jet;
use line_value::Calculator;
use ring_law::{Fault, Frac};
use std::alloc::{AllocError, Global};

/// Jets of one order in some variables, over the rational numbers.
#[derive(Clone, Copy, Debug)]
pub struct JetRing {
    pub count: u8,
    pub order: u8,
    ghost few_variables: { count ≤ 8 },
    ghost order_at_least_1: { 1 ≤ order },
    ghost order_at_most_17: { order ≤ 17 },
}

impl Calculator for JetRing {
    type Elem = Jet<Frac>;

    ghost use Rattle.ring_theory.specs.Rational.{Rational};
    ghost use Rattle.poly_law.specs.Polynomials.{Polynomial};
    ghost use Rattle.germ_law.specs.Jets.{jets, high_jets};
    ghost use Rattle.line_jet_law.specs.LineJets.{IsRationalJet, rational_polynomial};
    ghost use Rattle.line_jet_law.proofs.RingLaws.{jet_powers};

    ghost Value = { λ r. Polynomial r.count Rational };

    ghost arithmetic = { λ r. jets r.count r.order };

    ghost high = { λ r. high_jets r.count r.order };

    ghost count = { λ r. r.count };

    ghost is_elem = { λ r f. IsRationalJet r.count r.order f };

    ghost value = { λ r f. rational_polynomial r.count f };

    ghost powers = { λ r. jet_powers r.count r.order };

    fn variable(&self, alloc: Global, i: usize) -> Result<Jet<Frac>, AllocError> {
        variable(alloc, self.count, self.order, i)
    }

    fn number(&self, alloc: Global, n: u64) -> Result<Jet<Frac>, AllocError> {
        constant(alloc, self.count, self.order, n)
    }

    fn neg(&self, alloc: Global, a: &Jet<Frac>) -> Result<Jet<Frac>, AllocError> {
        opposite(alloc, self.count, self.order, a)
    }

    fn add(&self, alloc: Global, a: &Jet<Frac>, b: &Jet<Frac>) -> Result<Jet<Frac>, Fault> {
        sum(alloc, self.count, self.order, a, b)
    }

    fn mul(&self, alloc: Global, a: &Jet<Frac>, b: &Jet<Frac>) -> Result<Jet<Frac>, Fault> {
        product(alloc, self.count, self.order, a, b)
    }

    fn over(&self, alloc: Global, a: &Jet<Frac>, n: u64) -> Result<Jet<Frac>, Fault> {
        multiple(alloc, self.count, self.order, a, one_over(n))
    }
}
