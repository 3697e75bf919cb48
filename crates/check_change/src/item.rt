//! The items Inverse and Carry of a report.

ghost use Rattle.std.specs.Prelude.{◌≡◌, ◌↔◌, length, IfOk, IsTrue};
ghost use Rattle.ring_theory.specs.Rational.{Rational, rational_ops};
ghost use Rattle.poly_law.specs.ExpList.{exps};
ghost use Rattle.poly_law.specs.Polynomials.{Polynomial, SameToIn, substitute};
ghost use Rattle.ring_law.specs.Fraction.{rational_meaning};
ghost use Rattle.ring_law.specs.Refusals.{OnFault};
ghost use Rattle.jet_poly.specs.Jets.{IsJet};
ghost use Rattle.line_jet_law.specs.LineJets.{rational_polynomial};
ghost use Rattle.cert_text.specs.WellFormed.{IsWellFormedCarried};
ghost use Rattle.report_law.specs.Polynomials.{lifted};
ghost use Rattle.report_law.specs.Items.{variables_of, ring_of, jet_of, part_of, IsInvertibleChange};
ghost use Rattle.check_change.specs.Heights.{IsInverseHigh, IsCarryHigh};

use crate::carry::is_carried_jet;
use crate::inverse::is_inverse_matrix;
use cert_text::Carried;
use ext_algebra::AlgebraRing;
use jet_poly::Jet;
use report_jet::lifted_jet;
use ring_law::{Fault, Frac};
use std::alloc::Global;

/// Whether the change of a report has an invertible linear part: the printed matrix is its inverse
/// on both sides.
///
/// Errors: `Range` only where a number of these products has height 2^120 or more.
pub fn is_invertible_change(alloc: Global, c: &Carried) -> Result<bool, Fault>
    requires well_formed { IsWellFormedCarried c.now }
    ensures inverse { IfOk result (λ b. IsTrue b ↔ IsInvertibleChange c.now) }
    ensures range { OnFault result (IsInverseHigh c.now) }
{
    let ring = AlgebraRing { algebra: c.algebra };
    let parts = c.change.parts.as_slice();
    is_inverse_matrix(alloc, &ring, c.change.n, parts, c.change.inverse.as_slice())
}

/// Whether the change of a report carries a germ to the printed jet, modulo the terms of degree
/// above the order. The germ is any polynomial that the given jet agrees with up to the order.
///
/// Errors: `Range` only where a number of the substitution into the given jet has height 2^120 or
/// more.
pub fn is_carried(alloc: Global, germ: &Jet<Frac>, c: &Carried) -> Result<bool, Fault>
    requires well_formed { IsWellFormedCarried c.now }
    requires germ { IsJet rational_meaning germ.now }
    requires same_variables { germ.now.n ≡ length c.now.names }
    ensures carried { IfOk result (λ b. let n = variables_of c.now in (g : Polynomial n Rational) → SameToIn n rational_ops c.now.order (rational_polynomial n germ.now) g
        → (IsTrue b ↔ SameToIn n (ring_of c.now) c.now.order (jet_of c.now) (substitute n n (ring_of c.now) (part_of c.now) (lifted n c.now.algebra g)))) }
    ensures range { OnFault result (IsCarryHigh c.now (rational_polynomial (variables_of c.now) germ.now)) }
{
    let ring = AlgebraRing { algebra: c.algebra };
    let f = match lifted_jet(alloc, germ) {
        Ok(f) => f,
        Err(_) => return Err(Fault::NoMemory),
    };
    is_carried_jet(alloc, &ring, c.change.parts.as_slice(), &f, c.order, &c.jet)
}
