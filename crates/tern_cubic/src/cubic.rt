//! A ternary cubic as a jet.

ghost use Rattle.std.specs.Prelude.{◌≡◌, ◌++◌, [], ◌∷◌, IfOk, OnOk, All, map};
ghost use Rattle.ring_theory.specs.Height.{rational_scalars};
ghost use Rattle.ring_law.specs.Fraction.{IsFrac, frac_value};
ghost use Rattle.ring_law.specs.Refusals.{OnFault};
ghost use Rattle.jet_poly.specs.Gathered.{nonzero};
ghost use Rattle.line_jet_law.specs.LineJets.{IsRationalJet, rational_polynomial};
ghost use Rattle.ternary_law.specs.Cubics.{cubic_of};

use jet_poly::Jet;
use mono_exp::Exp;
use ring_law::{Fault, Frac, Ring};
use small_frac::Rationals;
use std::alloc::Global;

/// The cubic monomials in three variables, in the monomial order.
pub const CUBIC_MONOMIALS: [Exp; 10] = [
    Exp {
        e: [3, 0, 0, 0, 0, 0, 0, 0],
    },
    Exp {
        e: [2, 1, 0, 0, 0, 0, 0, 0],
    },
    Exp {
        e: [2, 0, 1, 0, 0, 0, 0, 0],
    },
    Exp {
        e: [1, 2, 0, 0, 0, 0, 0, 0],
    },
    Exp {
        e: [1, 1, 1, 0, 0, 0, 0, 0],
    },
    Exp {
        e: [1, 0, 2, 0, 0, 0, 0, 0],
    },
    Exp {
        e: [0, 3, 0, 0, 0, 0, 0, 0],
    },
    Exp {
        e: [0, 2, 1, 0, 0, 0, 0, 0],
    },
    Exp {
        e: [0, 1, 2, 0, 0, 0, 0, 0],
    },
    Exp {
        e: [0, 0, 3, 0, 0, 0, 0, 0],
    },
];

/// Adds the term c*a behind the others, unless c is zero.
fn push_term<R: Ring>(
    ring: &R,
    terms: &mut Vec<(Exp, R::Elem)>,
    a: Exp,
    c: R::Elem,
) -> Result<(), Fault>
    requires ring { R.is_ring ring.now }
    requires elem { (R.meaning ring.now).is_elem c }
    ensures pushed { OnOk result (let m = R.meaning ring.now in terms.new.items ≡ terms.old.items ++ nonzero m.scalars m.value ((a, c) ∷ [])) }
    ensures memory { OnFault result ⊥ }
{
    if !ring.eq(c, ring.zero()) {
        terms.push((a, c))?;
    }
    Ok(())
}

/// The cubic with these coefficients in the monomial order, as a jet.
pub fn cubic_jet(alloc: Global, c: [Frac; 10]) -> Result<Jet<Frac>, Fault>
    requires { All IsFrac c }
    ensures jet { IfOk result (IsRationalJet 3 3) }
    ensures polynomial { IfOk result (λ f. rational_polynomial 3 f ≡ cubic_of rational_scalars (map frac_value c)) }
    ensures memory { OnFault result ⊥ }
{
    let mut terms = Vec::new(alloc);
    for i in 0..10 {
        push_term(&Rationals, &mut terms, CUBIC_MONOMIALS[i], c[i])?;
    }
    Ok(Jet::from_rising(3, 3, terms))
}
