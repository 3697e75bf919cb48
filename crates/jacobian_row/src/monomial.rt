//! The monomials up to a degree, in order.

ghost use Rattle.std.specs.Prelude.{◌≡◌, suc, ◌<◌, ◌≤◌, ◌++◌, map, All, IfOk, OnOk};
ghost use Rattle.ring_law.specs.Refusals.{OnFault};
ghost use Rattle.mono_exp.specs.Exponents.{IsIn, exponents, monomials_below};

use crate::multiple::monomials;
use mono_exp::Exp;
use ring_law::Fault;
use std::alloc::Global;

/// Adds monomials.
fn add_monomials(all: &mut Vec<Exp>, n: u8, more: &[Exp]) -> Result<(), Fault>
    requires unused { All (λ a. IsIn n a.e) more.now }
    requires all_unused { All (λ a. IsIn n a.e) all.old.items }
    ensures list { OnOk result (map (λ a. exponents n a.e) all.new.items ≡ map (λ a. exponents n a.e) all.old.items ++ map (λ a. exponents n a.e) more.now) }
    ensures unused { OnOk result (All (λ a. IsIn n a.e) all.new.items) }
    ensures memory { OnFault result ⊥ }
{
    let _ = n;
    for a in more {
        all.push(*a)?;
    }
    Ok(())
}

/// All monomials of degree at most k in n variables, in the monomial order.
pub fn monomials_to(alloc: Global, n: u8, k: u8) -> Result<Vec<Exp>, Fault>
    requires variables { n ≤ 8 }
    requires degree { k < 255 }
    ensures list { IfOk result (λ v. map (λ a. exponents n a.e) v.items ≡ monomials_below n (suc k)) }
    ensures unused { IfOk result (λ v. All (λ a. IsIn n a.e) v.items) }
    ensures memory { OnFault result ⊥ }
{
    let mut all = Vec::new(alloc);
    for degree in 0..k + 1 {
        let more = monomials(alloc, n, degree)?;
        add_monomials(&mut all, n, &more)?;
    }
    Ok(all)
}
