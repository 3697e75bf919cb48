//! The patterns of jets past the list, in two variables.

ghost use Rattle.std.specs.Prelude.{◌≡◌, ◌≤◌, ◌==◌, ◌&&◌, not, if◌then◌else◌, Some, None};
ghost use Rattle.std.specs.List.{list_all};
ghost use Rattle.jet_poly.specs.Jets.{IsJet, polynomial_of};
ghost use Rattle.coord_change.specs.Moves.{at as at_in};
ghost use Rattle.move_law.specs.Moves.{is_there};
ghost use Rattle.move_law.specs.Patterns.{two, pattern_of};
ghost use Rattle.rules_corank2.specs.Parts.{IsBase2};

use jet_poly::{JetOf, coef};
use kill_law::Part;
use kill_leads::monomial;
use normal_forms::Pattern;
use ring_law::{Field, Ring};

/// The exponents of x and y that a jet of part J has to lack for the pattern J3.
static J3: [[u8; 2]; 8] = [
    [0, 4],
    [1, 3],
    [0, 5],
    [1, 4],
    [0, 6],
    [0, 7],
    [1, 5],
    [0, 8],
];

/// Those that a jet of part Z has to lack for the pattern Z1.
static Z1: [[u8; 2]; 3] = [[0, 5], [1, 4], [0, 6]];

/// Those that a jet of part W has to lack for the pattern W1.
static W1: [[u8; 2]; 2] = [[0, 5], [1, 4]];

/// The coefficient of `x^i * y^j`.
fn at<R: Ring>(ring: &R, f: &JetOf<R>, i: u8, j: u8) -> R::Elem
    requires ring { R.is_ring ring.now }
    requires jet { IsJet (R.meaning ring.now) f.now }
    requires two_variables { 2 ≤ f.now.n }
    requires at_most_8_variables { f.now.n ≤ 8 }
    ensures elem { (R.meaning ring.now).is_elem result }
    ensures value { let m = R.meaning ring.now in m.value result ≡ at_in f.now.n m.scalars (polynomial_of m f.now) (two i j) }
{
    coef(ring, f, monomial([i, j, 0]))
}

/// True where the coefficients at these monomials in x and y are all zero.
fn lacks<R: Ring>(ring: &R, f: &JetOf<R>, monomials: &[[u8; 2]]) -> bool
    requires ring { R.is_ring ring.now }
    requires jet { IsJet (R.meaning ring.now) f.now }
    requires two_variables { 2 ≤ f.now.n }
    requires at_most_8_variables { f.now.n ≤ 8 }
    ensures { let m = R.meaning ring.now in result ≡ list_all (λ e. not (is_there f.now.n m.scalars (polynomial_of m f.now) e)) monomials.now }
{
    for e in monomials {
        if !ring.eq(at(ring, f, e[0], e[1]), ring.zero()) {
            return false;
        }
    }
    true
}

/// The pattern, where the order is that of its test and the jet lacks the monomials of the test.
fn decided<R: Ring>(
    ring: &R,
    f: &JetOf<R>,
    o: u8,
    order: u8,
    monomials: &[[u8; 2]],
    pattern: Pattern,
) -> Option<Pattern>
    requires ring { R.is_ring ring.now }
    requires jet { IsJet (R.meaning ring.now) f.now }
    requires two_variables { 2 ≤ f.now.n }
    requires at_most_8_variables { f.now.n ≤ 8 }
    ensures { let m = R.meaning ring.now in result ≡ (if (order == o) && list_all (λ e. not (is_there f.now.n m.scalars (polynomial_of m f.now) e)) monomials.now then Some pattern else None) }
{
    if order == o && lacks(ring, f, monomials) {
        Some(pattern)
    } else {
        None
    }
}

/// The pattern that is decided at order o for a jet whose residual part has this part: the monomials
/// of the part's test, which is one of a single order, are all zero in it. None where the part has
/// no test of this order, or one of the monomials is there.
///
/// Source: V. I. Arnold, S. M. Gusein-Zade, A. N. Varchenko, Singularities of Differentiable Maps,
/// volume 1, chapter 16.
#[tactic(auto, unfolding(move_law::specs::Patterns::pattern_of, move_law::specs::Patterns::test_of, crate::specs::Parts::is_base2))]
pub fn pattern_of2<F: Field>(field: &F, part: Part, g: &JetOf<F>, o: u8) -> Option<Pattern>
    requires ring { F.is_ring field.now }
    requires jet { IsJet (F.meaning field.now) g.now }
    requires two_variables { 2 ≤ g.now.n }
    requires at_most_8_variables { g.now.n ≤ 8 }
    requires base { IsBase2 part }
    ensures pattern { let m = F.meaning field.now in result ≡ pattern_of g.now.n m.scalars part o (polynomial_of m g.now) }
{
    match part {
        Part::J => decided(field, g, o, 8, &J3, Pattern::J3),
        Part::Z => decided(field, g, o, 6, &Z1, Pattern::Z1),
        Part::W => decided(field, g, o, 5, &W1, Pattern::W1),
        _ => None,
    }
}
