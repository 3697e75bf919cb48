//! A move of two variables more.

ghost use Rattle.std.specs.Prelude.{◌≢◌, ◌<◌, ◌≤◌, IfOk};
ghost use Rattle.ring_law.specs.Refusals.{OnFault};
ghost use Rattle.rules_corank2.specs.Finishes.{IsStanding};
ghost use Rattle.rules_corank2.specs.Puts.{ArePut, IsPutNext, IsPuttingHigh};

use crate::finish_moves::putting;
use crate::finish_state::{Finishing, moved};
use jet_poly::JetOf;
use ring_law::{Fault, Field};
use std::alloc::Global;

/// A further move is made, which puts p for variable i and q for variable j, while all others stay.
///
/// Errors: `Range` only where the inverse of its linear part, carrying the jet, or composing the
/// moves forms a number of height 2^120 or more.
pub(crate) fn put_two<F: Field>(
    alloc: Global,
    field: &F,
    state: Finishing<F::Elem>,
    i: u8,
    p: JetOf<F>,
    j: u8,
    q: JetOf<F>,
) -> Result<Finishing<F::Elem>, Fault>
    requires ring { F.is_ring field.now }
    requires standing { IsStanding (F.meaning field.now) state }
    requires i_inside { i < state.form.n }
    requires j_inside { j < state.form.n }
    requires other { i ≢ j }
    requires put { ArePut (F.meaning field.now) state.form.n state.form.order i j p q }
    ensures moved { IfOk result (IsPutNext (F.meaning field.now) state i j p q) }
    ensures range { OnFault result (IsPuttingHigh (F.meaning field.now) state i j p q) }
{
    let change = putting(alloc, field, i, p, j, q)?;
    let next = moved(alloc, field, state, change)?;
    Ok(next)
}
