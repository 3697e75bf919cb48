//! The patterns of jets past the list, in three variables.

ghost use Rattle.std.specs.Prelude.{◌≡◌, ◌≤◌, ◌==◌, ◌&&◌, not, if◌then◌else◌, Some, None};
ghost use Rattle.std.specs.List.{list_all};
ghost use Rattle.jet_poly.specs.Jets.{IsJet, polynomial_of};
ghost use Rattle.move_law.specs.Moves.{is_there as is_there_in};
ghost use Rattle.move_law.specs.Patterns.{pattern_of};
ghost use Rattle.rules_corank3.specs.Parts.{IsBase3};

use crate::monomials::is_there;
use jet_poly::JetOf;
use kill_law::Part;
use normal_forms::Pattern;
use ring_law::{Field, Ring};

/// The exponents of x, y and z that a jet of part Q has to lack for the pattern Q2.
static Q2: [[u8; 3]; 3] = [[0, 4, 0], [1, 3, 0], [0, 5, 0]];

/// Those that a jet of part S has to lack for the pattern S1.
static S1: [[u8; 3]; 2] = [[4, 0, 0], [3, 1, 0]];

/// Those that a jet of part U has to lack for the pattern U1.
static U1: [[u8; 3]; 1] = [[0, 0, 4]];

/// True where the coefficients at these monomials in x, y and z are all zero.
fn lacks<R: Ring>(ring: &R, f: &JetOf<R>, monomials: &[[u8; 3]]) -> bool
    requires ring { R.is_ring ring.now }
    requires jet { IsJet (R.meaning ring.now) f.now }
    requires three_variables { 3 ≤ f.now.n }
    requires at_most_8_variables { f.now.n ≤ 8 }
    ensures { let m = R.meaning ring.now in result ≡ list_all (λ e. not (is_there_in f.now.n m.scalars (polynomial_of m f.now) e)) monomials.now }
{
    for e in monomials {
        if is_there(ring, f, *e) {
            return false;
        }
    }
    true
}

/// The pattern, where the order is that of its test and the jet lacks the monomials of the test.
fn decided<R: Ring>(
    ring: &R,
    f: &JetOf<R>,
    o: u8,
    order: u8,
    monomials: &[[u8; 3]],
    pattern: Pattern,
) -> Option<Pattern>
    requires ring { R.is_ring ring.now }
    requires jet { IsJet (R.meaning ring.now) f.now }
    requires three_variables { 3 ≤ f.now.n }
    requires at_most_8_variables { f.now.n ≤ 8 }
    ensures { let m = R.meaning ring.now in result ≡ (if (order == o) && list_all (λ e. not (is_there_in f.now.n m.scalars (polynomial_of m f.now) e)) monomials.now then Some pattern else None) }
{
    if order == o && lacks(ring, f, monomials) {
        Some(pattern)
    } else {
        None
    }
}

/// The pattern that is decided at order o for a jet whose residual part has this part: Q2 at order 5
/// for Q, S1 at order 4 for S and U1 at order 4 for U, where the monomials of the test are all zero
/// in it. None where the part has no test of this order, or one of the monomials is there. The
/// pattern V is decided where the ternary cubic is reduced, and is none of these.
///
/// Source: V. I. Arnold, S. M. Gusein-Zade, A. N. Varchenko, Singularities of Differentiable Maps,
/// volume 1, chapter 16.
#[tactic(auto, unfolding(move_law::specs::Patterns::pattern_of, move_law::specs::Patterns::test_of, crate::specs::Parts::is_base3))]
pub fn pattern_of3<F: Field>(field: &F, part: Part, g: &JetOf<F>, o: u8) -> Option<Pattern>
    requires ring { F.is_ring field.now }
    requires jet { IsJet (F.meaning field.now) g.now }
    requires three_variables { 3 ≤ g.now.n }
    requires at_most_8_variables { g.now.n ≤ 8 }
    requires base { IsBase3 part }
    ensures pattern { let m = F.meaning field.now in result ≡ pattern_of g.now.n m.scalars part o (polynomial_of m g.now) }
{
    match part {
        Part::Q => decided(field, g, o, 5, &Q2, Pattern::Q2),
        Part::S => decided(field, g, o, 4, &S1, Pattern::S1),
        Part::U => decided(field, g, o, 4, &U1, Pattern::U1),
        _ => None,
    }
}
