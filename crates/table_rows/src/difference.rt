//! A monomial less a combination of basis monomials.

ghost use Rattle.std.specs.Prelude.{◌≡◌, ◌≤◌, All, IfOk, length};
ghost use Rattle.ring_law.specs.Refusals.{OnFault};
ghost use Rattle.poly_law.specs.ExpList.{exps};
ghost use Rattle.poly_law.specs.Polynomials.{SameIn, cut_in};
ghost use Rattle.mono_exp.specs.Exponents.{IsIn};
ghost use Rattle.jet_law.specs.Heights.{IsHigh, sums_heights};
ghost use Rattle.jet_law.specs.Terms.{poly_of};
ghost use Rattle.jet_poly.specs.Jets.{IsJet};
ghost use Rattle.check_rows.specs.Lists.{AreTermsIn};
ghost use Rattle.table_rows.specs.Tables.{IsTableShape, difference_of};

use jet_poly::{JetOf, from_terms};
use milnor_alg::TableRow;
use mono_exp::Exp;
use ring_law::{Fault, Ring};
use std::alloc::Global;

/// The terms of the monomial of a row less the combination of the basis with its values.
fn difference_terms<R: Ring>(
    alloc: Global,
    ring: &R,
    n: u8,
    basis: &[Exp],
    row: &TableRow<R::Elem>,
) -> Result<Vec<(Exp, R::Elem)>, Fault>
    requires ring { R.is_ring ring.now }
    requires basis { All (λ b. IsIn n b.e) basis.now }
    requires row { IsTableShape (R.meaning ring.now) n (length basis.now) row.now }
    ensures valid { IfOk result (λ v. AreTermsIn (R.meaning ring.now) n v.items) }
    ensures terms { IfOk result (λ v. let m = R.meaning ring.now in poly_of n m.value v.items ≡ difference_of m n basis.now row.now) }
    ensures memory { OnFault result ⊥ }
{
    let values = row.values.as_slice();
    let mut terms = Vec::new(alloc);
    terms.push((row.monomial, ring.one()))?;
    for j in 0..basis.len() {
        let v = values[j];
        terms.push((basis[j], ring.neg(v)))?;
    }
    Ok(terms)
}

/// The monomial of a row less the combination of the basis with its values, cut at degree k.
///
/// Errors: `Range` only where the sum of its coefficients at some monomial has height 2^120 or more.
pub(crate) fn difference_jet<R: Ring>(
    alloc: Global,
    ring: &R,
    n: u8,
    k: u8,
    basis: &[Exp],
    row: &TableRow<R::Elem>,
) -> Result<JetOf<R>, Fault>
    requires ring { R.is_ring ring.now }
    requires at_most_8_variables { n ≤ 8 }
    requires order_at_most_17 { k ≤ 17 }
    requires basis { All (λ b. IsIn n b.e) basis.now }
    requires row { IsTableShape (R.meaning ring.now) n (length basis.now) row.now }
    ensures jet { IfOk result (IsJet (R.meaning ring.now)) }
    ensures n { IfOk result (λ h. h.n ≡ n) }
    ensures order { IfOk result (λ h. h.order ≡ k) }
    ensures difference { IfOk result (λ h. let m = R.meaning ring.now in SameIn n m.scalars.ops (poly_of n m.value h.terms) (cut_in n m.scalars.ops k (difference_of m n basis.now row.now))) }
    ensures range { OnFault result (let m = R.meaning ring.now in IsHigh (sums_heights (exps n) m.scalars (cut_in n m.scalars.ops k (difference_of m n basis.now row.now)))) }
{
    let terms = difference_terms(alloc, ring, n, basis, row)?;
    from_terms(alloc, ring, n, k, &terms)
}
