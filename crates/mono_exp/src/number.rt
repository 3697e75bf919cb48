//! Monomials by their numbers in the order, and lists of all monomials of a degree.

ghost use Rattle.std.specs.Prelude.{◌≡◌, ◌+◌, ◌<◌, ◌≤◌, length, sum};
ghost use Rattle.mono_exp.specs.Exponents.{IsIn, exponents, rank_of, monomials_below};

use crate::exponent::{Exp, degree};

/// In row n, at d: how many monomials in n variables have a degree below d.
const FIRST: [[u32; 19]; 9] = [
    [0, 1, 1, 1, 1, 1, 1, 1, 1, 1, 1, 1, 1, 1, 1, 1, 1, 1, 1],
    [
        0, 1, 2, 3, 4, 5, 6, 7, 8, 9, 10, 11, 12, 13, 14, 15, 16, 17, 18,
    ],
    [
        0, 1, 3, 6, 10, 15, 21, 28, 36, 45, 55, 66, 78, 91, 105, 120, 136, 153, 171,
    ],
    [
        0, 1, 4, 10, 20, 35, 56, 84, 120, 165, 220, 286, 364, 455, 560, 680, 816, 969, 1140,
    ],
    [
        0, 1, 5, 15, 35, 70, 126, 210, 330, 495, 715, 1001, 1365, 1820, 2380, 3060, 3876, 4845,
        5985,
    ],
    [
        0, 1, 6, 21, 56, 126, 252, 462, 792, 1287, 2002, 3003, 4368, 6188, 8568, 11628, 15504,
        20349, 26334,
    ],
    [
        0, 1, 7, 28, 84, 210, 462, 924, 1716, 3003, 5005, 8008, 12376, 18564, 27132, 38760, 54264,
        74613, 100947,
    ],
    [
        0, 1, 8, 36, 120, 330, 792, 1716, 3432, 6435, 11440, 19448, 31824, 50388, 77520, 116280,
        170544, 245157, 346104,
    ],
    [
        0, 1, 9, 45, 165, 495, 1287, 3003, 6435, 12870, 24310, 43758, 75582, 125970, 203490,
        319770, 490314, 735471, 1081575,
    ],
];

/// How many monomials in n variables have a degree below d.
fn first(n: u8, d: u8) -> u32
    requires variables { n ≤ 8 }
    requires degree { d ≤ 18 }
    ensures count { result ≡ length (monomials_below n d) }
    ensures small { result ≤ 1081575 }
{
    FIRST[usize::from(n)][usize::from(d)]
}

/// The number of a monomial of degree at most 17 in n variables: how many stand before it.
pub fn rank(n: u8, a: Exp) -> u32
    requires variables { n ≤ 8 }
    requires degree { sum a.e ≤ 17 }
    requires unused { IsIn n a.e }
    ensures rank { result ≡ rank_of n (exponents n a.e) }
    ensures within { result < length (monomials_below n 18) }
{
    let mut rest = degree(a);
    let mut number = 0;
    for i in 0..n {
        number += first(n - i, rest as u8);
        rest -= u16::from(a.e[usize::from(i)]);
    }
    number
}

/// The highest degree d up to `most` such that the first monomial of degree d in n variables has at
/// most this number.
fn degree_at(n: u8, number: u32, most: u8) -> u8
    requires variables { n ≤ 8 }
    requires small { most ≤ 17 }
    requires within { number < length (monomials_below n (most + 1)) }
    ensures small { result ≤ most }
    ensures reached { length (monomials_below n result) ≤ number }
    ensures next { number < length (monomials_below n (result + 1)) }
{
    let mut d = most;
    while number < first(n, d) {
        d -= 1;
    }
    d
}

/// The monomial in n variables with this number: as many stand before it.
pub fn unrank(n: u8, r: u32) -> Exp
    requires variables { n ≤ 8 }
    requires within { r < length (monomials_below n 18) }
    ensures rank { rank_of n (exponents n result.e) ≡ r }
    ensures degree { sum result.e ≤ 17 }
    ensures unused { IsIn n result.e }
    ensures long { length result.e ≡ 8 }
{
    let mut e = [0; 8];
    let mut left = r;
    let mut d = degree_at(n, r, 17);
    for i in 0..n {
        left -= first(n - i, d);
        let rest = degree_at(n - i - 1, left, d);
        e[usize::from(i)] = d - rest;
        d = rest;
    }
    Exp { e }
}
