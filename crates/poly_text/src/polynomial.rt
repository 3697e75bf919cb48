//! The text of monomials and polynomials.

ghost use Rattle.std.specs.Prelude.{◌≡◌, ◌++◌, OnOk, IfOk, length};
ghost use Rattle.poly_text.specs.Polynomials.{is_one, factor_text, factors_text, monomial_in, term_in, polynomial_in};

use crate::name::Name;
use crate::naming::put_name;
use crate::number::{put_element_pieces, put_number, put_scaled, put_signed, put_sum};
use ext_algebra::Ext;
use jet_poly::Jet;
use mono_exp::Exp;
use ring_law::{Frac, NoMemory};
use std::alloc::{AllocError, Global};

/// True for the monomial 1.
pub fn is_unit_monomial(m: Exp) -> bool
    ensures { result ≡ is_one m }
{
    m.e.iter().all(|e| *e == 0)
}

// Appends a power of a variable, with a star before it.
fn put_factor(out: &mut Vec<u8>, name: &Name, exponent: u8) -> Result<(), AllocError>
    ensures { OnOk result (out.new.items ≡ out.old.items ++ factor_text name.now exponent) }
{
    if exponent == 0 {
        return Ok(());
    }
    out.push(b'*')?;
    put_name(out, name)?;
    if exponent != 1 {
        out.push(b'^')?;
        put_number(out, u64::from(exponent))?;
    }
    Ok(())
}

// Appends the factors of a monomial, each with a star before it.
#[tactic(auto, unfolding(crate::specs::Polynomials::factors_text))]
fn put_factors(out: &mut Vec<u8>, names: &[Name], exponents: &[u8]) -> Result<(), AllocError>
    ensures { OnOk result (out.new.items ≡ out.old.items ++ factors_text names.now exponents.now) }
{
    for (i, name) in names.iter().enumerate() {
        if i < exponents.len() {
            put_factor(out, name, exponents[i])?;
        }
    }
    Ok(())
}

/// Appends a monomial in variables of these names.
#[tactic(auto, unfolding(crate::specs::Polynomials::monomial_in))]
pub fn put_monomial(
    alloc: Global,
    out: &mut Vec<u8>,
    names: &[Name],
    m: Exp,
) -> Result<(), AllocError>
    ensures { OnOk result (out.new.items ≡ out.old.items ++ monomial_in names.now m) }
{
    let mut factors = Vec::new(alloc);
    put_factors(&mut factors, names, &m.e)?;
    match factors.as_slice() {
        [] => out.push(b'1')?,
        [_, rest @ ..] => out.extend_from_slice(rest)?,
    }
    Ok(())
}

// Appends a term to the pieces of a sum.
#[tactic(auto, unfolding(crate::specs::Polynomials::term_in))]
fn put_term(
    alloc: Global,
    pieces: &mut Vec<u8>,
    names: &[Name],
    term: (Exp, Ext<Frac>),
) -> Result<(), AllocError>
    ensures { OnOk result (pieces.new.items ≡ pieces.old.items ++ term_in names.now term) }
{
    let (m, coefficient) = term;
    if is_unit_monomial(m) {
        return put_element_pieces(alloc, pieces, coefficient);
    }
    let mut body = Vec::new(alloc);
    put_factors(&mut body, names, &m.e)?;
    let mut piece = Vec::new(alloc);
    put_scaled(alloc, &mut piece, coefficient, &body)?;
    put_signed(pieces, &piece)
}

/// Appends a polynomial in variables of these names.
#[tactic(auto, unfolding(crate::specs::Polynomials::polynomial_in))]
pub fn put_polynomial(
    alloc: Global,
    out: &mut Vec<u8>,
    names: &[Name],
    f: &Jet<Ext<Frac>>,
) -> Result<(), AllocError>
    ensures { OnOk result (out.new.items ≡ out.old.items ++ polynomial_in names.now f.now) }
{
    let mut pieces = Vec::new(alloc);
    for term in f.terms() {
        put_term(alloc, &mut pieces, names, *term)?;
    }
    put_sum(out, &pieces)
}

/// The text of a polynomial in variables of these names.
///
/// Terms stand in the monomial order and are joined by their signs. There is one name for each
/// variable.
pub fn write_poly(alloc: Global, f: &Jet<Ext<Frac>>, names: &[Name]) -> Result<Vec<u8>, NoMemory>
    requires one_name_a_variable { length names.now ≡ f.now.n }
    ensures { IfOk result (λ text. text.items ≡ polynomial_in names.now f.now) }
{
    let mut out = Vec::new(alloc);
    match put_polynomial(alloc, &mut out, names, f) {
        Ok(()) => Ok(out),
        Err(_) => Err(NoMemory),
    }
}
