//! Whether a table has a row for each monomial, in order.

ghost use Rattle.std.specs.Prelude.{◌≡◌, ◌↔◌, IfOk, IsTrue, map};
ghost use Rattle.ring_law.specs.Refusals.{OnFault};
ghost use Rattle.cert_text.specs.WellFormed.{IsWellFormedNamed};
ghost use Rattle.check_milnor.specs.Milnor.{IsWhole};

use cert_text::Named;
use check_rows::have_same_exponents;
use jacobian_row::monomials_to;
use milnor_alg::TableRow;
use mono_exp::Exp;
use ring_law::Fault;
use std::alloc::{AllocError, Global};

// The monomials of rows.
fn monomials_of<E>(alloc: Global, rows: &[TableRow<E>]) -> Result<Vec<Exp>, AllocError>
    ensures { IfOk result (λ v. v.items ≡ map (λ row. row.monomial) rows.now) }
{
    rows.iter().map(|row| row.monomial).collect(alloc)
}

/// True where the table of a named report has one row for each monomial of degree at most the order in
/// the residual variables, in the monomial order.
pub(crate) fn has_all_monomials(alloc: Global, r: &Named) -> Result<bool, Fault>
    requires { IsWellFormedNamed r.now }
    ensures whole { IfOk result (λ b. IsTrue b ↔ IsWhole r.now) }
    ensures memory { OnFault result ⊥ }
{
    let c = &r.carried;
    let all = monomials_to(alloc, c.corank, c.order)?;
    let of_rows = monomials_of(alloc, r.quotient.table.as_slice())?;
    Ok(have_same_exponents(c.corank, &of_rows, &all))
}
