//! The list of all monomials of a degree.

ghost use Rattle.std.specs.Prelude.{◌≡◌, ◌<◌, ◌≤◌, ◌+◌, ◌-◌, [], ◌∷◌, ◌++◌, map, take, All, IfOk, OnOk};
ghost use Rattle.mono_exp.specs.Exponents.{IsIn, exponents, monomials_of};

use crate::exponent::Exp;
use ring_law::NoMemory;
use std::alloc::Global;

/// Appends the monomials with the first `from` exponents of `front` and degree d in the other
/// variables up to the n-th, in the monomial order.
fn append(all: &mut Vec<Exp>, front: Exp, from: u8, n: u8, d: u8) -> Result<(), NoMemory>
    requires variables { n ≤ 8 }
    requires within { from ≤ n }
    requires unused { IsIn from front.e }
    ensures list { OnOk result (map (λ a. exponents n a.e) all.new.items
        ≡ map (λ a. exponents n a.e) all.old.items ++ map (λ m. take from front.e ++ m) (monomials_of (n - from) d)) }
    ensures unused { All (λ a. IsIn n a.e) all.old.items → OnOk result (All (λ a. IsIn n a.e) all.new.items) }
{
    if from == n {
        if d == 0 {
            all.push(front)?;
        }
        return Ok(());
    }
    for j in 0..u16::from(d) + 1 {
        let rest = j as u8;
        append(all, with_exponent(front, from, d - rest), from + 1, n, rest)?;
    }
    Ok(())
}

/// The monomial with another exponent at a variable.
fn with_exponent(a: Exp, i: u8, exponent: u8) -> Exp
    requires within { i < 8 }
    requires unused { IsIn i a.e }
    ensures first { take (i + 1) result.e ≡ take i a.e ++ exponent ∷ [] }
    ensures unused { IsIn (i + 1) result.e }
{
    let mut e = a.e;
    e[usize::from(i)] = exponent;
    Exp { e }
}

/// All monomials of a degree in n variables, in the monomial order.
pub fn list(alloc: Global, n: u8, degree: u8) -> Result<Vec<Exp>, NoMemory>
    requires variables { n ≤ 8 }
    ensures list { IfOk result (λ v. map (λ a. exponents n a.e) v.items ≡ monomials_of n degree) }
    ensures unused { IfOk result (λ v. All (λ a. IsIn n a.e) v.items) }
{
    let mut all = Vec::new(alloc);
    append(&mut all, Exp { e: [0; 8] }, 0, n, degree)?;
    Ok(all)
}
