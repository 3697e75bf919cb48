//! The rows of the partials of a ternary cubic, and of their products with the quadratic monomials.

ghost use Rattle.std.specs.Prelude.{◌≡◌, ℕ, ◌+◌, ◌<◌, cond, ltb, length, IfOk, OnOk, All};
ghost use Rattle.ring_theory.specs.Height.{rational_scalars};
ghost use Rattle.ring_theory.specs.Rational.{Rational, rational_ops};
ghost use Rattle.ring_law.specs.Fraction.{IsFrac, frac_value, rational_meaning};
ghost use Rattle.ring_law.specs.Refusals.{OnFault};
ghost use Rattle.poly_law.specs.Polynomials.{Polynomial, SameIn, coefficient_in, term_in, times_in};
ghost use Rattle.mono_exp.specs.Exponents.{IsIn};
ghost use Rattle.jet_law.specs.Terms.{exp_of, poly_of};
ghost use Rattle.lin_row.specs.Lines.{IsLine, AllBelow, dot, entry};
ghost use Rattle.jacobian_row.specs.Rows.{IsJetIn, polynomial_at};
ghost use Rattle.ternary_law.specs.Cubics.{partial_rows as partial_rows_of, product_rows as product_rows_of};
ghost use Rattle.ternary_law.specs.Heights.{IsPartialHigh};
ghost use Rattle.tern_cubic.specs.Rows.{HaveEntries, monomial_at};

use jacobian_row::{monomials, multiples, partials};
use jet_poly::{Jet, coef};
use lin_row::Row;
use mono_exp::{Exp, quotient};
use ring_law::{Fault, Frac, Ring};
use small_frac::Rationals;
use sqlite_items::Items;
use std::alloc::Global;

/// Puts an entry at the end, unless it is zero.
fn push_entry<R: Ring>(
    ring: &R,
    entries: &mut Vec<(u32, R::Elem)>,
    column: u32,
    x: R::Elem,
) -> Result<(), Fault>
    requires ring { R.is_ring ring.now }
    requires elem { (R.meaning ring.now).is_elem x }
    requires line { IsLine (R.meaning ring.now) entries.old.items }
    requires below { AllBelow column entries.old.items }
    ensures line { OnOk result (IsLine (R.meaning ring.now) entries.new.items) }
    ensures below { OnOk result (AllBelow (column + 1) entries.new.items) }
    ensures value { OnOk result (let m = R.meaning ring.now in (w : ℕ → R.Value ring.now) → dot m entries.new.items w ≡ m.scalars.ops.add (dot m entries.old.items w) (m.scalars.ops.mul (m.value x) (w column))) }
    ensures memory { OnFault result ⊥ }
{
    if !ring.eq(x, ring.zero()) {
        entries.push((column, x))?;
    }
    Ok(())
}

/// The row of the coefficients of three jets at a monomial.
fn gradient_row(alloc: Global, gradient: &[Jet<Frac>], a: Exp) -> Result<Row<Frac>, Fault>
    requires count { length gradient.now ≡ 3 }
    requires jets { All (IsJetIn rational_meaning 3) gradient.now }
    requires unused { IsIn 3 a.e }
    ensures line { IfOk result (λ r. IsLine rational_meaning r.entries) }
    ensures below { IfOk result (λ r. AllBelow 3 r.entries) }
    ensures entries { IfOk result (λ r. (d : ℕ) → entry rational_meaning r.entries d
        ≡ cond (ltb d 3) (coefficient_in 3 rational_ops (polynomial_at 3 frac_value gradient.now d) (exp_of 3 a)) rational_ops.zero) }
    ensures memory { OnFault result ⊥ }
{
    let mut entries = Vec::new(alloc);
    for i in 0..3u8 {
        let x = coef(&Rationals, &gradient[usize::from(i)], a);
        push_entry(&Rationals, &mut entries, u32::from(i), x)?;
    }
    Ok(Row {
        entries: Items::from_vec(entries),
    })
}

/// The rows of the partials: for each quadratic monomial the coefficients of the partials there.
///
/// Errors: `Range` only where a partial is high.
pub fn partial_rows(alloc: Global, f: &Jet<Frac>) -> Result<Vec<Row<Frac>>, Fault>
    requires { IsJetIn rational_meaning 3 f.now }
    ensures rows { IfOk result (λ v. HaveEntries 3 (partial_rows_of rational_scalars (poly_of 3 frac_value f.now.terms)) v.items) }
    ensures range { OnFault result (IsPartialHigh (poly_of 3 frac_value f.now.terms)) }
{
    let gradient = partials(alloc, &Rationals, f)?;
    let all = monomials(alloc, 3, 2)?;
    let mut rows = Vec::new(alloc);
    for a in &all {
        let row = gradient_row(alloc, &gradient, *a)?;
        rows.push(row)?;
    }
    Ok(rows)
}

/// The coefficient of the product of a monomial and a jet at a monomial.
fn product_coefficient(f: &Jet<Frac>, factor: Exp, a: Exp) -> Frac
    requires jet { IsJetIn rational_meaning 3 f.now }
    requires factor_unused { IsIn 3 factor.e }
    requires unused { IsIn 3 a.e }
    ensures elem { IsFrac result }
    ensures value { (g : Polynomial 3 Rational) → SameIn 3 rational_ops (poly_of 3 frac_value f.now.terms) g
        → frac_value result ≡ coefficient_in 3 rational_ops (times_in 3 rational_ops (term_in 3 rational_ops (exp_of 3 factor)) g) (exp_of 3 a) }
{
    match quotient(a, factor) {
        Some(q) => coef(&Rationals, f, q),
        None => Rationals.zero(),
    }
}

/// The row of the coefficients of the product of a monomial and a jet at the quartic monomials.
fn product_row(
    alloc: Global,
    f: &Jet<Frac>,
    factor: Exp,
    quartics: &[Exp],
) -> Result<Row<Frac>, Fault>
    requires jet { IsJetIn rational_meaning 3 f.now }
    requires factor_unused { IsIn 3 factor.e }
    requires count { length quartics.now ≡ 15 }
    requires unused { All (λ a. IsIn 3 a.e) quartics.now }
    ensures line { IfOk result (λ r. IsLine rational_meaning r.entries) }
    ensures below { IfOk result (λ r. AllBelow 15 r.entries) }
    ensures entries { IfOk result (λ r. (g : Polynomial 3 Rational) → SameIn 3 rational_ops (poly_of 3 frac_value f.now.terms) g → (d : ℕ) → entry rational_meaning r.entries d
        ≡ cond (ltb d 15) (coefficient_in 3 rational_ops (times_in 3 rational_ops (term_in 3 rational_ops (exp_of 3 factor)) g) (exp_of 3 (monomial_at quartics.now d))) rational_ops.zero) }
    ensures memory { OnFault result ⊥ }
{
    let mut entries = Vec::new(alloc);
    for j in 0..15u8 {
        let x = product_coefficient(f, factor, quartics[usize::from(j)]);
        push_entry(&Rationals, &mut entries, u32::from(j), x)?;
    }
    Ok(Row {
        entries: Items::from_vec(entries),
    })
}

/// The rows of the 18 products of quadratic monomials with the partials: monomial by monomial, and
/// within these by variable, the coefficients at the quartic monomials.
///
/// Errors: `Range` only where a partial is high.
pub fn product_rows(alloc: Global, f: &Jet<Frac>) -> Result<Vec<Row<Frac>>, Fault>
    requires { IsJetIn rational_meaning 3 f.now }
    ensures rows { IfOk result (λ v. HaveEntries 15 (product_rows_of rational_scalars (poly_of 3 frac_value f.now.terms)) v.items) }
    ensures range { OnFault result (IsPartialHigh (poly_of 3 frac_value f.now.terms)) }
{
    let gradient = partials(alloc, &Rationals, f)?;
    let quartics = monomials(alloc, 3, 4)?;
    let all = multiples(alloc, 3, 2, 2)?;
    let mut rows = Vec::new(alloc);
    for u in &all {
        let partial = &gradient[usize::from(u.variable)];
        let row = product_row(alloc, partial, u.factor, &quartics)?;
        rows.push(row)?;
    }
    Ok(rows)
}
