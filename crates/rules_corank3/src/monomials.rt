//! Which monomials in three variables a jet has.

ghost use Rattle.std.specs.Prelude.{◌≡◌, ◌≤◌};
ghost use Rattle.jet_poly.specs.Jets.{IsJet, polynomial_of};
ghost use Rattle.coord_change.specs.Moves.{at as at_in};
ghost use Rattle.move_law.specs.Moves.{is_there as is_there_in};
ghost use Rattle.move_law.specs.Patterns.{three};

use jet_poly::{JetOf, coef};
use kill_leads::monomial;
use ring_law::Ring;

/// The coefficient of `x^i * y^k * z^l`.
fn at<R: Ring>(ring: &R, f: &JetOf<R>, i: u8, k: u8, l: u8) -> R::Elem
    requires ring { R.is_ring ring.now }
    requires jet { IsJet (R.meaning ring.now) f.now }
    requires three_variables { 3 ≤ f.now.n }
    requires at_most_8_variables { f.now.n ≤ 8 }
    ensures elem { (R.meaning ring.now).is_elem result }
    ensures value { let m = R.meaning ring.now in m.value result ≡ at_in f.now.n m.scalars (polynomial_of m f.now) (three i k l) }
{
    coef(ring, f, monomial([i, k, l]))
}

/// True where the coefficient of the monomial with these exponents of x, y and z is not zero.
pub(crate) fn is_there<R: Ring>(ring: &R, f: &JetOf<R>, e: [u8; 3]) -> bool
    requires ring { R.is_ring ring.now }
    requires jet { IsJet (R.meaning ring.now) f.now }
    requires three_variables { 3 ≤ f.now.n }
    requires at_most_8_variables { f.now.n ≤ 8 }
    ensures { let m = R.meaning ring.now in result ≡ is_there_in f.now.n m.scalars (polynomial_of m f.now) e }
{
    !ring.eq(at(ring, f, e[0], e[1], e[2]), ring.zero())
}
