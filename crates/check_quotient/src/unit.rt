//! Whether a table takes the monomials of a basis to the unit vectors.

ghost use Rattle.std.specs.Prelude.{◌≡◌, ℕ, ◌<◌, ◌≤◌, ◌↔◌, IsTrue, get_or, length, sum, []};
ghost use Rattle.std.specs.List.{AllByRecursion};
ghost use Rattle.poly_law.specs.Sums.{unit_at};
ghost use Rattle.jet_law.specs.Terms.{exp_of};
ghost use Rattle.normal_forms.specs.Monomials.{in_eight};
ghost use Rattle.check_quotient.specs.Tables.{AreValuesIn, IsUnitRow};

use crate::lookup::value_at;
use milnor_alg::TableRow;
use mono_exp::{Exp, degree};
use ring_law::Ring;

/// True where each monomial has degree at most k.
pub fn are_low(k: u8, basis: &[Exp]) -> bool
    ensures { IsTrue result ↔ AllByRecursion (λ b. sum b.e ≤ k) basis.now }
{
    for b in basis {
        if degree(*b) > u16::from(k) {
            return false;
        }
    }
    true
}

// The entry of unit vector i in place j.
fn unit<R: Ring>(ring: &R, i: usize, j: usize) -> R::Elem
    requires { R.is_ring ring.now }
    ensures elem { (R.meaning ring.now).is_elem result }
    ensures value { let m = R.meaning ring.now in m.value result ≡ unit_at m.scalars.ops i j }
{
    if i == j { ring.one() } else { ring.zero() }
}

// True where the values at a monomial are unit vector i in the first `size` places.
fn is_unit_row<R: Ring>(
    ring: &R,
    n: u8,
    table: &[TableRow<R::Elem>],
    b: Exp,
    i: usize,
    size: usize,
) -> bool
    requires ring { R.is_ring ring.now }
    requires at_most_8_variables { n ≤ 8 }
    requires values { AreValuesIn (R.meaning ring.now) table.now }
    ensures { IsTrue result ↔ (let m = R.meaning ring.now in IsUnitRow m n table.now size (exp_of n b) i) }
{
    for j in 0..size {
        if !ring.eq(value_at(ring, n, table, b, j), unit(ring, i, j)) {
            return false;
        }
    }
    true
}

/// True where the table takes the i-th of these monomials to the i-th unit vector, for each i.
pub fn are_unit_rows<R: Ring>(ring: &R, n: u8, table: &[TableRow<R::Elem>], basis: &[Exp]) -> bool
    requires ring { R.is_ring ring.now }
    requires at_most_8_variables { n ≤ 8 }
    requires values { AreValuesIn (R.meaning ring.now) table.now }
    ensures { IsTrue result ↔ (let m = R.meaning ring.now in (i : ℕ) → i < length basis.now
        → IsUnitRow m n table.now (length basis.now) (exp_of n (get_or basis.now i (in_eight []))) i) }
{
    for i in 0..basis.len() {
        if !is_unit_row(ring, n, table, basis[i], i, basis.len()) {
            return false;
        }
    }
    true
}
