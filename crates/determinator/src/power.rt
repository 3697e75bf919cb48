//! The least power of the residual variable, which decides on the family in corank 1.

ghost use Rattle.std.specs.Prelude.{◌≡◌, ◌≤◌};
ghost use Rattle.jet_law.specs.Terms.{poly_of};
ghost use Rattle.jet_poly.specs.Jets.{IsJet};
ghost use Rattle.move_law.specs.Finish.{least};

use jet_poly::{JetOf, coef};
use mono_exp::Exp;
use ring_law::Ring;

/// The least exponent, from 2 to the order, of a pure power of the first variable of a jet, or
/// `None` where it has no such power.
pub fn least_power<R: Ring>(ring: &R, f: &JetOf<R>) -> Option<u8>
    requires ring { R.is_ring ring.now }
    requires jet { IsJet (R.meaning ring.now) f.now }
    requires given { 1 ≤ f.now.n }
    requires at_most_8_variables { f.now.n ≤ 8 }
    requires order_at_most_16 { f.now.order ≤ 16 }
    ensures least { let m = R.meaning ring.now in let n = f.now.n in result ≡ least n m.scalars f.now.order 0 (poly_of n m.value f.now.terms) }
{
    for m in 2..f.order() + 1 {
        let power = Exp {
            e: [m, 0, 0, 0, 0, 0, 0, 0],
        };
        if !ring.eq(coef(ring, f, power), ring.zero()) {
            return Some(m);
        }
    }
    None
}
