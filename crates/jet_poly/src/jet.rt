//! The type of a jet: a polynomial in n variables up to an order, by its terms in the monomial order.

ghost use Rattle.std.specs.Prelude.{◌≡◌, ◌<◌, ◌↔◌, IsTrue, [], length, slice_get, Some};
ghost use Rattle.jet_poly.specs.JetTerms.{IsRising};

use mono_exp::Exp;
use ring_law::Ring;
use std::marker::Model;

/// A polynomial in `n` variables up to degree `order`: its terms, in the monomial order, lower
/// degree first and within a degree the greater exponent at the first place that differs.
#[derive(Drop)]
pub struct Jet<E> {
    n: u8,
    order: u8,
    terms: Vec<(Exp, E)>,
}

impl<E> Model for Jet<E> {
    ghost use Rattle.jet_poly.specs.JetTerms.{JetTerms, IsRising};

    ghost Value = { JetTerms E };

    ghost view = { λ f. record { n = f.n; order = f.order; terms = f.terms.items } };

    ghost invariant = { λ f. IsRising f.terms.items };
}

/// The jets over a ring.
pub type JetOf<R> = Jet<<R as Ring>::Elem>;

impl<E> Jet<E> {
    /// The jet with these terms, which stand in the monomial order. It takes no memory.
    pub fn from_rising(n: u8, order: u8, terms: Vec<(Exp, E)>) -> Self
        requires rising { IsRising terms.items }
        ensures { result ≡ record { n = n; order = order; terms = terms.items } }
    {
        Jet { n, order, terms }
    }

    /// The number of variables.
    pub fn n(&self) -> u8
        ensures { result ≡ self.now.n }
    {
        self.n
    }

    /// The degree up to which terms are kept.
    pub fn order(&self) -> u8
        ensures { result ≡ self.now.order }
    {
        self.order
    }

    /// The number of terms.
    pub fn len(&self) -> usize
        ensures { result ≡ length self.now.terms }
    {
        self.terms.len()
    }

    /// True where there is no term.
    pub fn is_empty(&self) -> bool
        ensures { IsTrue result ↔ (self.now.terms ≡ []) }
    {
        self.terms.is_empty()
    }

    /// The terms, in the monomial order.
    pub fn terms(&self) -> &[(Exp, E)]
        ensures terms { result.now ≡ self.now.terms }
        ensures rising { IsRising result.now }
    {
        &self.terms
    }
}

impl<E: Copy> Jet<E> {
    /// The term at a place, counted from 0 in the monomial order.
    pub fn term(&self, i: usize) -> (Exp, E)
        requires within { i < length self.now.terms }
        ensures { slice_get self.now.terms i ≡ Some result }
    {
        self.terms[i]
    }
}
