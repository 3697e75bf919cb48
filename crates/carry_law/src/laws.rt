//! What carrying a germ by moves up to one order says of carrying it up to another.

ghost use Rattle.carry_law.specs.Orders.{OrdersAgree, ChainsAgree};

use ring_law::Ring;

/// Up to degree o ≤ k, a germ that is carried by moves up to order k, each step cut at k, is the
/// germ that they carry up to order o, each step cut at o.
pub fn orders_agree<R: Ring>()
    ensures { (a : R) → R.is_ring a → OrdersAgree (R.meaning a).scalars }
{}

/// Two chains over one germ with the same moves, up to degrees o ≤ k: jets of one number agree up
/// to degree o. So a chain at the next order, cut at its order, carries what the chain carries.
pub fn chains_agree<R: Ring>()
    ensures { (a : R) → R.is_ring a → ChainsAgree (R.meaning a) }
{}
