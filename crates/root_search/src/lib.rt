//! The least whole root of a cubic `x^3 + a*x^2 + b*x + c` with coefficients below 2^120, in 128-bit arithmetic.
//!
//! The sign of the cubic at a whole number comes from Horner's rule with sums and products that stop at the ends of the type:
//! a number that stops and the true one are far out on the same side. Between the zeros of its differences the cubic rises, falls
//! and rises again, so six bisections of at most 123 steps find the least place of each stretch where it may be 0.
#![tactic(auto)]

ghost use Rattle.std.specs.Prelude.{◌≡◌, ◌≢◌, ℤ, ◌^◌, ◌≤◌, ◌<◌, pos, ◌+ℤ◌, ◌*ℤ◌, ◌≤ℤ◌, ◌↔◌, IsTrue, unsigned_abs, MatchOption};
ghost use Rattle.std.specs.Int.{w128, saturate_signed, int_signum};
ghost use Rattle.root_search.specs.Cubic.{int_cubic, slope, measured, place, Crosses, IsSmall, IsLeastRoot};

// What a bisection looks for.
#[derive(Clone, Copy)]
enum Test {
    Rise,
    Drop,
    Top,
    Bottom,
    Bend,
}

// 2^121 and 2^122.
const FAR: i128 = 0x200_0000_0000_0000_0000_0000_0000_0000;

const END: u128 = 0x400_0000_0000_0000_0000_0000_0000_0000;

// x * v + c, where each step stops at the ends of the type.
fn horner(x: i128, v: i128, c: i128) -> i128
    ensures { result ≡ saturate_signed w128 (saturate_signed w128 (x *ℤ v) +ℤ c) }
{
    x.saturating_mul(v).saturating_add(c)
}

// The sign of x^3 + a x^2 + b x + c.
fn cubic_sign(a: i128, b: i128, c: i128, x: i128) -> i128
    requires small { IsSmall a b c }
    requires x_small { unsigned_abs x ≤ 2 ^ 121 }
    ensures { result ≡ int_signum (int_cubic a b c x) }
{
    horner(x, horner(x, x + a, b), c).signum()
}

// The sign of the slope at x.
fn slope_sign(a: i128, b: i128, x: i128) -> i128
    requires a_small { unsigned_abs a < 2 ^ 120 }
    requires b_small { unsigned_abs b < 2 ^ 120 }
    requires x_small { unsigned_abs x ≤ 2 ^ 121 }
    ensures { result ≡ int_signum (slope a b x) }
{
    horner(x, 3 * x + (3 + 2 * a), 1 + a + b).signum()
}

fn passes(test: Test, a: i128, b: i128, c: i128, x: i128) -> bool
    requires small { IsSmall a b c }
    requires x_small { unsigned_abs x ≤ 2 ^ 121 }
    ensures { IsTrue result ↔ pos 0 ≤ℤ measured test a b c x }
{
    match test {
        Test::Rise => cubic_sign(a, b, c, x) >= 0,
        Test::Drop => cubic_sign(a, b, c, x) <= 0,
        Test::Top => slope_sign(a, b, x) <= 0,
        Test::Bottom => slope_sign(a, b, x) >= 0,
        Test::Bend => 6 * x + (6 + 2 * a) >= 0,
    }
}

fn place_at(k: u128) -> i128
    requires { k ≤ 2 ^ 122 }
    ensures { result ≡ place k }
{
    k as i128 - FAR
}

// The first place from `from` to `to` that passes, or `to`, where the places that pass stand behind the others.
fn crossing(test: Test, a: i128, b: i128, c: i128, from: u128, to: u128) -> u128
    requires small { IsSmall a b c }
    requires ordered { from ≤ to }
    requires end { to ≤ 2 ^ 122 }
    ensures { Crosses (λ k. measured test a b c (place k)) from to result }
{
    let mut low = from;
    let mut high = to;
    while low < high {
        let middle = low + (high - low) / 2;
        if passes(test, a, b, c, place_at(middle)) {
            high = middle;
        } else {
            low = middle + 1;
        }
    }
    low
}

/// The least whole root of `x^3 + a*x^2 + b*x + c`, or `None` where it has none.
pub fn least_root(a: i128, b: i128, c: i128) -> Option<i128>
    requires { IsSmall a b c }
    ensures { MatchOption result ((y : ℤ) → int_cubic a b c y ≢ pos 0) (λ r. IsLeastRoot a b c r) }
{
    let bend = crossing(Test::Bend, a, b, c, 0, END);
    let top = crossing(Test::Top, a, b, c, 0, bend);
    let bottom = crossing(Test::Bottom, a, b, c, bend, END);
    let first = place_at(crossing(Test::Rise, a, b, c, 0, top));
    let second = place_at(crossing(Test::Drop, a, b, c, top, bottom));
    let third = place_at(crossing(Test::Rise, a, b, c, bottom, END));
    if cubic_sign(a, b, c, first) == 0 {
        Some(first)
    } else if cubic_sign(a, b, c, second) == 0 {
        Some(second)
    } else if cubic_sign(a, b, c, third) == 0 {
        Some(third)
    } else {
        None
    }
}
