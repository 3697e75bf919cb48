//! Two fields with a space between them.

ghost use Rattle.std.specs.Prelude.{◌≡◌, ◌≤◌, None, IfSome};
ghost use Rattle.text_reader.specs.Reading.{IsTextOf, IsNoText};
ghost use Rattle.report_reader.specs.Lines.{IsPlace, place_text, IsCounted, counted_monomial_text};

use mono_exp::Exp;
use poly_text::What;
use text_reader::{read_monomial, read_u32, read_u64, read_what, split_at_byte};

/// A column, and what stands there.
pub(crate) fn read_place(text: &[u8]) -> Option<(u32, What)>
    ensures some { IfSome result (IsTextOf IsPlace place_text text.now) }
    ensures none { result ≡ None → IsNoText IsPlace place_text text.now }
{
    match split_at_byte(text, b' ') {
        None => None,
        Some((front, behind)) => match read_u32(front) {
            None => None,
            Some(column) => match read_what(behind) {
                None => None,
                Some(what) => Some((column, what)),
            },
        },
    }
}

/// A residual monomial, and how many values follow.
pub(crate) fn read_counted(corank: u8, text: &[u8]) -> Option<(Exp, u64)>
    requires corank { corank ≤ 8 }
    ensures some { IfSome result (IsTextOf (IsCounted corank) counted_monomial_text text.now) }
    ensures none { result ≡ None → IsNoText (IsCounted corank) counted_monomial_text text.now }
{
    match split_at_byte(text, b' ') {
        None => None,
        Some((front, behind)) => match read_monomial(corank, 17, front) {
            None => None,
            Some(m) => match read_u64(behind) {
                None => None,
                Some(count) => Some((m, count)),
            },
        },
    }
}
