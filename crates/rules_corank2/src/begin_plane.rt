//! Linear changes of the first two variables.

ghost use Rattle.std.specs.Prelude.{◌≡◌, ◌<◌, ◌≤◌, IfOk};
ghost use Rattle.ring_law.specs.Refusals.{OnFault};
ghost use Rattle.coord_change.specs.Inverses.{InverseIsHigh};
ghost use Rattle.coord_change.specs.Moves.{Move, linear_part};
ghost use Rattle.hessian_rank.specs.Sound.{IsLinear};
ghost use Rattle.kill_table.specs.Moves.{IsMoveTo};
ghost use Rattle.rules_corank2.specs.Planes.{plane_of, IsRegularPlane, HasMatrix};

use crate::finish_state::up_to;
use coord_change::{ChangeError, ChangeOf, linear, unit_matrix};
use ring_law::{Fault, Field, Ring};
use std::alloc::Global;

/// The degree up to which a move is made.
pub(crate) const ORDER: u8 = 16;

/// The matrix in n variables, row after row, that puts `x.0*x + x.1*y` for x and `y.0*x + y.1*y`
/// for y.
fn plane_matrix<R: Ring>(
    alloc: Global,
    ring: &R,
    n: u8,
    x: (R::Elem, R::Elem),
    y: (R::Elem, R::Elem),
) -> Result<Vec<R::Elem>, Fault>
    requires ring { R.is_ring ring.now }
    requires x_elems { (R.meaning ring.now).is_elem x.0 × (R.meaning ring.now).is_elem x.1 }
    requires y_elems { (R.meaning ring.now).is_elem y.0 × (R.meaning ring.now).is_elem y.1 }
    requires two_variables { 2 ≤ n }
    requires at_most_8_variables { n ≤ 8 }
    ensures matrix { IfOk result (λ v. let m = R.meaning ring.now in
        HasMatrix m n (plane_of m.scalars (m.value x.0) (m.value x.1) (m.value y.0) (m.value y.1)) v.items) }
    ensures memory { OnFault result ⊥ }
{
    let rows = usize::from(n);
    let mut matrix = unit_matrix(alloc, ring, n)?;
    matrix[0] = x.0;
    matrix[1] = x.1;
    matrix[rows] = y.0;
    matrix[rows + 1] = y.1;
    Ok(matrix)
}

/// The change in n variables, 2 to 8, of order 16, that puts `x.0*x + x.1*y` for x and
/// `y.0*x + y.1*y` for y, where these forms are independent.
///
/// Errors: `Range` only where the plain row reduction of its matrix has height 2^120 or more.
pub fn plane_change<F: Field>(
    alloc: Global,
    field: &F,
    n: u8,
    x: (F::Elem, F::Elem),
    y: (F::Elem, F::Elem),
) -> Result<ChangeOf<F>, Fault>
    requires ring { F.is_ring field.now }
    requires x_elems { (F.meaning field.now).is_elem x.0 × (F.meaning field.now).is_elem x.1 }
    requires y_elems { (F.meaning field.now).is_elem y.0 × (F.meaning field.now).is_elem y.1 }
    requires two_variables { 2 ≤ n }
    requires at_most_8_variables { n ≤ 8 }
    requires regular { let m = F.meaning field.now in IsRegularPlane m.scalars (m.value x.0) (m.value x.1) (m.value y.0) (m.value y.1) }
    ensures change { IfOk result (λ c. let m = F.meaning field.now in (move : Move n (F.Value field.now))
        → IsLinear n m.scalars (plane_of m.scalars (m.value x.0) (m.value x.1) (m.value y.0) (m.value y.1)) move → IsMoveTo m n 16 move c) }
    ensures range { OnFault result (let m = F.meaning field.now in (move : Move n (F.Value field.now))
        → IsLinear n m.scalars (plane_of m.scalars (m.value x.0) (m.value x.1) (m.value y.0) (m.value y.1)) move
        → InverseIsHigh m.scalars n (linear_part n m.scalars move)) }
{
    let matrix = plane_matrix(alloc, field, n, x, y)?;
    match linear(alloc, field, n, ORDER, matrix.as_slice()) {
        Ok(change) => up_to(alloc, field, &change, ORDER),
        Err(ChangeError::Singular { kernel: _ }) => unreachable!(),
        Err(ChangeError::Range(e)) => Err(Fault::Range(e)),
        Err(ChangeError::NoMemory) => Err(Fault::NoMemory),
    }
}
