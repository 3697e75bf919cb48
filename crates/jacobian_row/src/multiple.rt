//! The multiples of partials by monomials, in order.

ghost use Rattle.std.specs.Prelude.{◌≡◌, ◌<◌, ◌≤◌, ◌++◌, length, map, flat_map, All, IfOk, OnOk};
ghost use Rattle.ring_law.specs.Refusals.{OnFault};
ghost use Rattle.mono_exp.specs.Exponents.{IsIn, exponents, monomials_of, numbers_below};
ghost use Rattle.jacobian_row.specs.Multiples.{AreMultiples, pair_of};

use mono_exp::{Exp, list};
use ring_law::Fault;
use std::alloc::Global;

/// The multiple x^a * ∂g/∂x(i) of a partial of a jet g: its factor a and its variable i, counted from 0.
#[derive(Clone, Copy, Debug, PartialEq, Eq)]
pub struct Multiple {
    pub factor: Exp,
    pub variable: u8,
}

/// All monomials of a degree in n variables, in the monomial order.
pub fn monomials(alloc: Global, n: u8, degree: u8) -> Result<Vec<Exp>, Fault>
    requires variables { n ≤ 8 }
    ensures list { IfOk result (λ v. map (λ a. exponents n a.e) v.items ≡ monomials_of n degree) }
    ensures unused { IfOk result (λ v. All (λ a. IsIn n a.e) v.items) }
    ensures memory { OnFault result ⊥ }
{
    list(alloc, n, degree).map_err(|_| Fault::NoMemory)
}

/// Adds the multiples by one monomial, variable by variable.
fn add_multiples(all: &mut Vec<Multiple>, factor: Exp, n: u8) -> Result<(), Fault>
    requires unused { IsIn n factor.e }
    requires all_unused { All (λ u. IsIn n u.factor.e) all.old.items }
    requires all_long { All (λ u. length u.factor.e ≡ 8) all.old.items }
    ensures list { OnOk result (map (pair_of n) all.new.items ≡ map (pair_of n) all.old.items ++ map (λ i. (exponents n factor.e, i)) (numbers_below n)) }
    ensures unused { OnOk result (All (λ u. IsIn n u.factor.e) all.new.items) }
    ensures long { OnOk result (All (λ u. length u.factor.e ≡ 8) all.new.items) }
    ensures memory { OnFault result ⊥ }
{
    for variable in 0..n {
        all.push(Multiple { factor, variable })?;
    }
    Ok(())
}

/// Adds the multiples by the monomials of one degree.
fn add_degree(alloc: Global, all: &mut Vec<Multiple>, n: u8, degree: u8) -> Result<(), Fault>
    requires variables { n ≤ 8 }
    requires all_unused { All (λ u. IsIn n u.factor.e) all.old.items }
    requires all_long { All (λ u. length u.factor.e ≡ 8) all.old.items }
    ensures list { OnOk result (map (pair_of n) all.new.items ≡ map (pair_of n) all.old.items ++ flat_map (λ a. map (λ i. (a, i)) (numbers_below n)) (monomials_of n degree)) }
    ensures unused { OnOk result (All (λ u. IsIn n u.factor.e) all.new.items) }
    ensures long { OnOk result (All (λ u. length u.factor.e ≡ 8) all.new.items) }
    ensures memory { OnFault result ⊥ }
{
    let factors = monomials(alloc, n, degree)?;
    for factor in &factors {
        add_multiples(all, *factor, n)?;
    }
    Ok(())
}

/// The multiples by all monomials of degree `low` to `high` in n variables: monomial by monomial in the monomial order, and within these variable by
/// variable.
pub fn multiples(alloc: Global, n: u8, low: u8, high: u8) -> Result<Vec<Multiple>, Fault>
    requires variables { n ≤ 8 }
    requires some { low ≤ high }
    requires degree { high < 255 }
    ensures multiples { IfOk result (λ v. AreMultiples n low high v.items) }
    ensures memory { OnFault result ⊥ }
{
    let mut all = Vec::new(alloc);
    for degree in low..high + 1 {
        add_degree(alloc, &mut all, n, degree)?;
    }
    Ok(all)
}
