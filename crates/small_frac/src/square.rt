//! Square roots of whole numbers and of fractions.

ghost use Rattle.std.specs.Prelude.{◌≡◌, ◌≢◌, ℕ, ◌+◌, ◌*◌, ◌^◌, ◌<◌, ◌≤◌, MatchOption, IfSome};
ghost use Rattle.ring_law.specs.Fraction.{IsFrac};
ghost use Rattle.small_frac.specs.Exact.{IsRootOf};

use ring_law::Frac;

/// The largest r with `r * r <= n`.
pub fn int_root2(n: u128) -> u128
    ensures square_le { result * result ≤ n }
    ensures next_square_gt { n < (result + 1) * (result + 1) }
    ensures bound { result < 2 ^ 64 }
{
    n.isqrt()
}

// The root of a square.
fn exact_root(n: u128) -> Option<u128>
    ensures root { MatchOption result ((k : ℕ) → k * k ≢ n) (λ r. r * r ≡ n) }
    ensures bound { IfSome result (λ r. r < 2 ^ 64) }
{
    let root = int_root2(n);
    if root * root == n { Some(root) } else { None }
}

/// The root of `q` that is not negative, or `None` where `q` is the square of no rational number.
pub fn is_square(q: Frac) -> Option<Frac>
    requires { IsFrac q }
    ensures { IsRootOf q result }
{
    if q.num < 0 {
        return None;
    }
    let num = exact_root(q.num.unsigned_abs())?;
    let den = exact_root(q.den.unsigned_abs())?;
    Some(Frac {
        num: num as i128,
        den: den as i128,
    })
}
