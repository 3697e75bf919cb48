//! Jets of terms that stand in the monomial order.

ghost use Rattle.std.specs.Prelude.{[], ◌∷◌, IfOk};
ghost use Rattle.ring_law.specs.Refusals.{OnFault};
ghost use Rattle.jet_law.specs.Terms.{poly_of};
ghost use Rattle.kill_table.specs.Moves.{IsPutFor};
ghost use Rattle.rules_corank2.specs.Ordered.{AreOrdered};

use jet_poly::{Jet, JetOf};
use mono_exp::Exp;
use ring_law::{Fault, Ring};
use std::alloc::Global;

/// The jet of terms that stand in the monomial order: those whose coefficients are not zero.
pub(crate) fn jet_of<R: Ring>(
    alloc: Global,
    ring: &R,
    n: u8,
    order: u8,
    terms: &[(Exp, R::Elem)],
) -> Result<JetOf<R>, Fault>
    requires ring { R.is_ring ring.now }
    requires ordered { AreOrdered (R.meaning ring.now) n order terms.now }
    ensures jet { IfOk result (let m = R.meaning ring.now in IsPutFor m n order (poly_of n m.value terms.now)) }
    ensures memory { OnFault result ⊥ }
{
    let mut kept = Vec::new(alloc);
    for t in terms {
        if !ring.eq(t.1, ring.zero()) {
            kept.push(*t)?;
        }
    }
    Ok(Jet::from_rising(n, order, kept))
}

/// The jet of one term.
pub(crate) fn one_term_jet<R: Ring>(
    alloc: Global,
    ring: &R,
    n: u8,
    order: u8,
    t: (Exp, R::Elem),
) -> Result<JetOf<R>, Fault>
    requires ring { R.is_ring ring.now }
    requires ordered { AreOrdered (R.meaning ring.now) n order (t ∷ []) }
    ensures jet { IfOk result (let m = R.meaning ring.now in IsPutFor m n order (poly_of n m.value (t ∷ []))) }
    ensures memory { OnFault result ⊥ }
{
    let mut terms = Vec::new(alloc);
    terms.push(t)?;
    jet_of(alloc, ring, n, order, &terms)
}

/// The jet of two terms that stand in the monomial order.
pub(crate) fn two_terms_jet<R: Ring>(
    alloc: Global,
    ring: &R,
    n: u8,
    order: u8,
    t: (Exp, R::Elem),
    u: (Exp, R::Elem),
) -> Result<JetOf<R>, Fault>
    requires ring { R.is_ring ring.now }
    requires ordered { AreOrdered (R.meaning ring.now) n order (t ∷ u ∷ []) }
    ensures jet { IfOk result (let m = R.meaning ring.now in IsPutFor m n order (poly_of n m.value (t ∷ u ∷ []))) }
    ensures memory { OnFault result ⊥ }
{
    let mut terms = Vec::new(alloc);
    terms.push(t)?;
    terms.push(u)?;
    jet_of(alloc, ring, n, order, &terms)
}

/// The jet of three terms that stand in the monomial order.
pub(crate) fn three_terms_jet<R: Ring>(
    alloc: Global,
    ring: &R,
    n: u8,
    order: u8,
    t: (Exp, R::Elem),
    u: (Exp, R::Elem),
    v: (Exp, R::Elem),
) -> Result<JetOf<R>, Fault>
    requires ring { R.is_ring ring.now }
    requires ordered { AreOrdered (R.meaning ring.now) n order (t ∷ u ∷ v ∷ []) }
    ensures jet { IfOk result (let m = R.meaning ring.now in IsPutFor m n order (poly_of n m.value (t ∷ u ∷ v ∷ []))) }
    ensures memory { OnFault result ⊥ }
{
    let mut terms = Vec::new(alloc);
    terms.push(t)?;
    terms.push(u)?;
    terms.push(v)?;
    jet_of(alloc, ring, n, order, &terms)
}
