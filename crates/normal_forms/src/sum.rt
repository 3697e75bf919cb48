//! The monomials of the sum of a family.

ghost use Rattle.std.specs.Prelude.{◌≡◌, ◌≢◌, false, map, IfOk};
ghost use Rattle.ring_law.specs.Refusals.{OnFault};
ghost use Rattle.normal_forms.specs.Families.{sum_of, has_numbers};
ghost use Rattle.normal_forms.specs.Monomials.{in_eight};

use crate::family::Family;
use mono_exp::Exp;
use ring_law::Fault;
use std::alloc::Global;

/// The sum of a family without numbers in its name, by the exponents of its monomials.
pub(crate) fn powers(family: Family) -> &'static [[u8; 3]]
    ensures { has_numbers family ≡ false → map in_eight result.now ≡ map in_eight (sum_of family) }
{
    match family {
        Family::A(_) | Family::D(_) | Family::T(_, _, _) => &[],
        Family::E6 => &[[3, 0, 0], [0, 4, 0]],
        Family::E7 => &[[3, 0, 0], [1, 3, 0]],
        Family::E8 => &[[3, 0, 0], [0, 5, 0]],
        Family::P8 => &[
            [3, 0, 0],
            [2, 1, 0],
            [2, 0, 1],
            [1, 2, 0],
            [1, 1, 1],
            [1, 0, 2],
            [0, 3, 0],
            [0, 2, 1],
            [0, 1, 2],
            [0, 0, 3],
        ],
        Family::X9 => &[[4, 0, 0], [3, 1, 0], [2, 2, 0], [1, 3, 0], [0, 4, 0]],
        Family::J10 => &[[3, 0, 0], [1, 4, 0], [0, 6, 0]],
        Family::E12 => &[[3, 0, 0], [0, 7, 0], [1, 5, 0]],
        Family::E13 => &[[3, 0, 0], [1, 5, 0], [0, 8, 0]],
        Family::E14 => &[[3, 0, 0], [0, 8, 0], [1, 6, 0]],
        Family::Z11 => &[[3, 1, 0], [0, 5, 0], [1, 4, 0]],
        Family::Z12 => &[[3, 1, 0], [1, 4, 0], [2, 3, 0]],
        Family::Z13 => &[[3, 1, 0], [0, 6, 0], [1, 5, 0]],
        Family::W12 => &[[4, 0, 0], [0, 5, 0], [2, 3, 0]],
        Family::W13 => &[[4, 0, 0], [1, 4, 0], [0, 6, 0]],
        Family::Q10 => &[[3, 0, 0], [0, 1, 2], [0, 4, 0], [1, 3, 0]],
        Family::Q11 => &[[3, 0, 0], [0, 1, 2], [1, 3, 0], [0, 5, 0]],
        Family::Q12 => &[[3, 0, 0], [0, 1, 2], [0, 5, 0], [1, 4, 0]],
        Family::S11 => &[[0, 2, 1], [1, 0, 2], [4, 0, 0], [3, 0, 1]],
        Family::S12 => &[[0, 2, 1], [1, 0, 2], [3, 1, 0], [5, 0, 0]],
        Family::U12 => &[[3, 0, 0], [0, 3, 0], [0, 0, 4], [1, 1, 2]],
    }
}

// x^i y^k z^l.
fn power(exponents: [u8; 3]) -> Exp
    ensures { result ≡ in_eight exponents }
{
    let [i, k, l] = exponents;
    Exp {
        e: [i, k, l, 0, 0, 0, 0, 0],
    }
}

// The monomials with these exponents.
fn power_list(alloc: Global, exponents: &[[u8; 3]]) -> Result<Vec<Exp>, Fault>
    ensures monomials { IfOk result (λ v. v.items ≡ map in_eight exponents.now) }
    ensures memory { OnFault result ⊥ }
{
    Ok(exponents.iter().map(|e| power(*e)).collect(alloc)?)
}

// The monomials of the sum of T(p,q,r).
fn hyperbolic_monomials(alloc: Global, p: u8, q: u8, r: u8) -> Result<Vec<Exp>, Fault>
    ensures monomials { IfOk result (λ v. v.items ≡ map in_eight (sum_of (Family.T p q r))) }
    ensures memory { OnFault result ⊥ }
{
    if p != 2 {
        return power_list(alloc, &[[1, 1, 1], [p, 0, 0], [0, q, 0], [0, 0, r]]);
    }
    match q {
        3 => power_list(alloc, &[[3, 0, 0], [2, 2, 0], [0, r, 0]]),
        4 => power_list(alloc, &[[4, 0, 0], [2, 2, 0], [0, r, 0]]),
        _ => power_list(alloc, &[[2, 2, 0], [q, 0, 0], [0, r, 0]]),
    }
}

/// The monomials of the sum of a family, in order.
pub(crate) fn monomials(alloc: Global, family: Family) -> Result<Vec<Exp>, Fault>
    requires small { family ≢ Family.A 255 }
    ensures monomials { IfOk result (λ v. v.items ≡ map in_eight (sum_of family)) }
    ensures memory { OnFault result ⊥ }
{
    match family {
        Family::A(1) => Ok(Vec::new(alloc)),
        Family::A(m) => power_list(alloc, &[[m + 1, 0, 0]]),
        Family::D(m) => power_list(alloc, &[[2, 1, 0], [0, m.saturating_sub(1), 0]]),
        Family::T(p, q, r) => hyperbolic_monomials(alloc, p, q, r),
        _ => power_list(alloc, powers(family)),
    }
}
