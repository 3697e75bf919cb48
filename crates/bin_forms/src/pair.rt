//! The two lines of a binary quadratic form.

ghost use Rattle.std.specs.Prelude.{IfOk, All, map};
ghost use Rattle.ring_law.specs.Fraction.{IsFrac, frac_value};
ghost use Rattle.ring_law.specs.Refusals.{OnRange};
ghost use Rattle.bin_forms.specs.Pairs.{IsPair, IsPairHigh};

use crate::number::quotient;
use ext_algebra::Algebra;
use ring_law::{Frac, Range};
use small_frac::{Rationals, rational_root_quadratic};

/// Where the two different lines of `q0*x^2 + q1*x*y + q2*y^2` lie: y is one of them; both belong to
/// the rational roots of `q0*t^2 + q1*t + q2`, the smaller first; or they lie over the extension by
/// such a root.
#[derive(Clone, Copy, Debug)]
pub enum Pair {
    Corner,
    Roots(Frac, Frac),
    Over(Algebra),
}

/// The two lines of `q0*x^2 + q1*x*y + q2*y^2` over the rationals, which differ where
/// `q1^2 - 4*q0*q2` is not 0: `Corner` where q0 is 0, `Roots` where `t^2 + q1/q0*t + q2/q0` has rational roots, and else `Over`
/// the algebra with this modulus.
///
/// Errors: `Range` only where a quotient by q0, or an operation of the roots of the quadratic, has
/// height 2^120 or more.
pub fn pair_lines(q: [Frac; 3]) -> Result<Pair, Range>
    requires elems { All IsFrac q }
    ensures pair { IfOk result (IsPair (map frac_value q)) }
    ensures range { OnRange result (IsPairHigh (map frac_value q)) }
{
    let [q0, q1, q2] = q;
    if q0.num == 0 {
        return Ok(Pair::Corner);
    }
    let m1 = quotient(&Rationals, q1, q0)?;
    let m0 = quotient(&Rationals, q2, q0)?;
    match rational_root_quadratic(m1, m0)? {
        Some((low, high)) => Ok(Pair::Roots(low, high)),
        None => Ok(Pair::Over(Algebra::Quadratic { m1, m0 })),
    }
}
