//! The shape of a carried germ: the names of its line, its sizes and its order.

ghost use Rattle.std.specs.Prelude.{◌≡◌, ◌≤◌, ◌↔◌, IsTrue, map};
ghost use Rattle.std.specs.List.{list_all};
ghost use Rattle.line_syntax.specs.Syntax.{Line, names_of};
ghost use Rattle.poly_text.specs.Polynomials.{name_text};
ghost use Rattle.cert_text.specs.WellFormed.{is_valid_name, IsWellFormedCarried};
ghost use Rattle.report_law.specs.Items.{IsShape};

use cert_text::Carried;
use poly_text::Name;

// True where in so many variables the order is at most 12, from five on.
fn is_small_order(n: usize, order: u8) -> bool
    ensures { IsTrue result ↔ (5 ≤ n → order ≤ 12) }
{
    n < 5 || order <= 12
}

/// True where a carried germ has the names of the line, a part for each, a corank of at most their
/// number, and from five variables on an order of at most 12; `names` are those of the line.
pub fn is_shape(names: &[Name], c: &Carried) -> bool
    requires well_formed { IsWellFormedCarried c.now }
    requires names { IsTrue (list_all is_valid_name names.now) }
    ensures { (l : Line) → map name_text names.now ≡ names_of l → (IsTrue result ↔ IsShape l c.now) }
{
    let same = names == c.names.as_slice();
    let small = is_small_order(c.names.len(), c.order);
    same && small
}
