//! Jets that are truncations of given polynomials: 1, truncations and products.

ghost use Rattle.std.specs.Prelude.{◌≡◌, ◌≤◌, IfOk};
ghost use Rattle.poly_law.specs.ExpList.{exps};
ghost use Rattle.poly_law.specs.Polynomials.{poly_in, times_in};
ghost use Rattle.ring_law.specs.Refusals.{OnFault};
ghost use Rattle.jet_law.specs.Heights.{IsHigh, product_heights};
ghost use Rattle.jet_law.specs.Terms.{poly_of};
ghost use Rattle.jet_poly.specs.Jets.{IsJet};
ghost use Rattle.jet_subst.specs.Powers.{IsTruncatedJet};

use jet_poly::{Jet, JetOf, cut, mul_cut};
use mono_exp::Exp;
use ring_law::{Fault, Ring};
use std::alloc::Global;

/// The constant 1 in n variables, of order k.
pub fn one<R: Ring>(alloc: Global, ring: &R, n: u8, k: u8) -> Result<JetOf<R>, Fault>
    requires { R.is_ring ring.now }
    ensures one { IfOk result (let m = R.meaning ring.now in IsTruncatedJet m n k (poly_in n m.scalars.ops).one) }
    ensures range { OnFault result ⊥ }
{
    let mut terms = Vec::new(alloc);
    terms.push((Exp { e: [0; 8] }, ring.one()))?;
    Ok(Jet::from_rising(n, k, terms))
}

/// The truncation of f at k.
pub fn truncation<R: Ring>(alloc: Global, ring: &R, f: &JetOf<R>, k: u8) -> Result<JetOf<R>, Fault>
    requires ring { R.is_ring ring.now }
    requires jet { IsJet (R.meaning ring.now) f.now }
    ensures truncation { IfOk result (let m = R.meaning ring.now in IsTruncatedJet m f.now.n k (poly_of f.now.n m.value f.now.terms)) }
    ensures range { OnFault result ⊥ }
{
    let truncated = cut(alloc, ring, f, k)?;
    let _terms = truncated.terms();
    Ok(truncated)
}

/// The product of f and g, cut at k.
pub fn product<R: Ring>(
    alloc: Global,
    ring: &R,
    f: &JetOf<R>,
    g: &JetOf<R>,
    k: u8,
) -> Result<JetOf<R>, Fault>
    requires ring { R.is_ring ring.now }
    requires left { IsJet (R.meaning ring.now) f.now }
    requires right { IsJet (R.meaning ring.now) g.now }
    requires same_variables { g.now.n ≡ f.now.n }
    requires at_most_8_variables { f.now.n ≤ 8 }
    requires order_at_most_17 { k ≤ 17 }
    ensures product { IfOk result (let m = R.meaning ring.now in IsTruncatedJet m f.now.n k
        (times_in f.now.n m.scalars.ops (poly_of f.now.n m.value f.now.terms) (poly_of f.now.n m.value g.now.terms))) }
    ensures range { OnFault result (let m = R.meaning ring.now in
        IsHigh (product_heights (exps f.now.n) m.scalars k (poly_of f.now.n m.value f.now.terms) (poly_of f.now.n m.value g.now.terms))) }
{
    let product = mul_cut(alloc, ring, f, g, k)?;
    let _terms = product.terms();
    Ok(product)
}
