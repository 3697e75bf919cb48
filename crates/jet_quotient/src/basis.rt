//! The monomials in whose columns no row of a form begins.

ghost use Rattle.std.specs.Prelude.{◌≡◌, ◌≤◌, ◌==◌, sum, All, IfOk};
ghost use Rattle.ring_law.specs.Refusals.{OnFault};
ghost use Rattle.mono_exp.specs.Exponents.{IsIn};
ghost use Rattle.lin_row.specs.Lines.{lead_of};
ghost use Rattle.jet_quotient.specs.Answers.{begins_at, free_of};

use lin_row::Row;
use mono_exp::{Exp, rank};
use ring_law::Fault;
use std::alloc::Global;

/// Whether a row begins in a column.
fn begins<E: Copy>(row: &Row<E>, column: u32) -> bool
    ensures { result ≡ (lead_of row.now.entries == column) }
{
    let entries = row.entries.as_slice();
    entries.len() > 0 && entries[0].0 == column
}

/// Whether a row of a form begins in a column.
fn some_begins<E: Copy>(form: &[Row<E>], column: u32) -> bool
    ensures { result ≡ begins_at form.now column }
{
    for row in form {
        if begins(row, column) {
            return true;
        }
    }
    false
}

/// The monomials in whose columns no row of a form begins.
pub fn basis_of<E: Copy>(
    alloc: Global,
    n: u8,
    monomials: &[Exp],
    form: &[Row<E>],
) -> Result<Vec<Exp>, Fault>
    requires variables { n ≤ 8 }
    requires unused { All (λ a. IsIn n a.e) monomials.now }
    requires degrees { All (λ a. sum a.e ≤ 17) monomials.now }
    ensures basis { IfOk result (λ v. v.items ≡ free_of n form.now monomials.now) }
    ensures memory { OnFault result ⊥ }
{
    let mut basis = Vec::new(alloc);
    for a in monomials {
        if some_begins(form, rank(n, *a)) {
            continue;
        }
        basis.push(*a)?;
    }
    Ok(basis)
}
