//! Elements of an algebra.

ghost use Rattle.std.specs.Prelude.{◌≡◌, IsTrue, None, IfSome};
ghost use Rattle.ext_algebra.specs.Algebra.{is_element, is_zero_past};
ghost use Rattle.poly_text.specs.Numbers.{element_text, letters, numbers, signed_text};
ghost use Rattle.cert_text.specs.WellFormed.{is_zero_element};
ghost use Rattle.text_reader.specs.Elements.{rational_element};
ghost use Rattle.text_reader.specs.Reading.{IsTextOf, IsNoText};
ghost use Rattle.text_reader.specs.Pieces.{joined, AreFractions, AreTaken};

use crate::piece::take_component;
use crate::splitting::{is_text, strip_front};
use ext_algebra::{Algebra, Ext};
use ring_law::Frac;

/// The pieces of a sum, the first of which is written without its plus.
pub(crate) fn signed(bytes: &[u8]) -> Option<(u8, &[u8])>
    ensures { joined result ≡ signed_text bytes.now }
{
    match strip_front(bytes, b"-") {
        Some(magnitude) => Some((b'-', magnitude)),
        None => Some((b'+', bytes)),
    }
}

/// The element whose components stand at the front, and the pieces that follow.
pub(crate) fn take_element(sum: Option<(u8, &[u8])>) -> (Ext<Frac>, Option<(u8, &[u8])>)
    ensures { AreTaken letters (numbers result.0) (joined sum.entry) (joined result.1) }
{
    let (c0, sum) = take_component(sum, b"");
    let (c1, sum) = take_component(sum, b"*t");
    let (c2, sum) = take_component(sum, b"*t^2");
    let (c3, sum) = take_component(sum, b"*s");
    let (c4, sum) = take_component(sum, b"*s*t");
    let (c5, sum) = take_component(sum, b"*s*t^2");
    let e = Ext {
        c0,
        c1,
        c2,
        c3,
        c4,
        c5,
    };
    (e, sum)
}

/// The element that a number stands for.
pub(crate) fn rational(q: Frac) -> Ext<Frac>
    ensures { result ≡ rational_element q }
{
    let zero = Frac { num: 0, den: 1 };
    Ext {
        c0: q,
        c1: zero,
        c2: zero,
        c3: zero,
        c4: zero,
        c5: zero,
    }
}

/// All components are 0.
pub fn is_zero(e: Ext<Frac>) -> bool
    ensures { result ≡ is_zero_element e }
{
    e.c0.num == 0
        && e.c1.num == 0
        && e.c2.num == 0
        && e.c3.num == 0
        && e.c4.num == 0
        && e.c5.num == 0
}

/// The sum of the components, in any algebra.
pub(crate) fn read_components(bytes: &[u8]) -> Option<Ext<Frac>>
    ensures some { IfSome result (IsTextOf AreFractions element_text bytes.now) }
    ensures none { result ≡ None → IsNoText AreFractions element_text bytes.now }
{
    if is_text(bytes, b"0") {
        return Some(rational(Frac { num: 0, den: 1 }));
    }
    let (e, rest) = take_element(signed(bytes));
    if rest.is_some() { None } else { Some(e) }
}

/// True where the components past the degree of the algebra are 0.
pub(crate) fn vanishes_past(a: Algebra, e: Ext<Frac>) -> bool
    ensures { result ≡ is_zero_past a e }
{
    match a {
        Algebra::Rational => {
            e.c1.num == 0 && e.c2.num == 0 && e.c3.num == 0 && e.c4.num == 0 && e.c5.num == 0
        }
        Algebra::Quadratic { .. } => {
            e.c2.num == 0 && e.c3.num == 0 && e.c4.num == 0 && e.c5.num == 0
        }
        Algebra::Cubic { .. } => e.c3.num == 0 && e.c4.num == 0 && e.c5.num == 0,
        Algebra::Tower { .. } => true,
    }
}

/// An element of an algebra, as `1-1/4*t+s*t`.
pub fn read_element(a: Algebra, bytes: &[u8]) -> Option<Ext<Frac>>
    ensures some { IfSome result (IsTextOf (λ e. IsTrue (is_element a e)) element_text bytes.now) }
    ensures none { result ≡ None → IsNoText (λ e. IsTrue (is_element a e)) element_text bytes.now }
{
    match read_components(bytes) {
        None => None,
        Some(e) => { if vanishes_past(a, e) { Some(e) } else { None } }
    }
}
