//! The rows of a table by their monomials.

ghost use Rattle.std.specs.Prelude.{◌≡◌, ◌≤◌, length};
ghost use Rattle.std.specs.List.{position_or_len};
ghost use Rattle.poly_law.specs.Exps.{same};
ghost use Rattle.poly_law.specs.ExpList.{exps};
ghost use Rattle.jet_law.specs.Terms.{exp_of};
ghost use Rattle.check_quotient.specs.Tables.{AreValuesIn, value_in};

use milnor_alg::TableRow;
use mono_exp::Exp;
use report_jet::is_same_monomial;
use ring_law::Ring;

/// The place of the first row of a monomial, and the length of the table where it has none.
pub(crate) fn place_of<E>(n: u8, table: &[TableRow<E>], a: Exp) -> usize
    requires { n ≤ 8 }
    ensures within { result ≤ length table.now }
    ensures place { result ≡ position_or_len (λ row. same (exps n) (exp_of n row.monomial) (exp_of n a)) table.now }
{
    for (place, row) in table.iter().enumerate() {
        if is_same_monomial(n, row.monomial, a) {
            return place;
        }
    }
    table.len()
}

/// The value of a table at a monomial in place j; 0 where it has no row or no such place.
pub(crate) fn value_at<R: Ring>(
    ring: &R,
    n: u8,
    table: &[TableRow<R::Elem>],
    a: Exp,
    j: usize,
) -> R::Elem
    requires ring { R.is_ring ring.now }
    requires at_most_8_variables { n ≤ 8 }
    requires values { AreValuesIn (R.meaning ring.now) table.now }
    ensures elem { (R.meaning ring.now).is_elem result }
    ensures value { let m = R.meaning ring.now in m.value result ≡ value_in m n table.now (exp_of n a) j }
{
    let place = place_of(n, table, a);
    if place >= table.len() {
        return ring.zero();
    }
    let row = &table[place];
    let values = row.values.as_slice();
    if j >= values.len() {
        return ring.zero();
    }
    values[j]
}
