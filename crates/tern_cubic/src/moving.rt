//! Linear moves of ternary cubics, made matrix by matrix.

ghost use Rattle.std.specs.Prelude.{◌≡◌, ℕ, ◌∷◌, [], ◌++◌, length, IfOk, List, map};
ghost use Rattle.ring_law.specs.Refusals.{OnFault};
ghost use Rattle.lin_row.specs.Plain.{Among};
ghost use Rattle.poly_law.specs.Polynomials.{Polynomial};
ghost use Rattle.jet_law.specs.Terms.{poly_of};
ghost use Rattle.jacobian_row.specs.Rows.{IsJetIn};
ghost use Rattle.move_law.specs.Work.{IsWorkHigh, inverted};
ghost use Rattle.ternary_law.specs.Matrices.{Matrix as MatrixOf, matrix_product, linear_move, moved};
ghost use Rattle.tern_cubic.specs.Matrices.{IsMatrix};
ghost use Rattle.tern_cubic.specs.Moving.{AreEntries, IsMoving, IsUnderWay, IsChangeBy, AfterMatrix, beginning_work, advancing_work};

use crate::matrix::Matrix;
use coord_change::{Change, ChangeError, ChangeOf, carried_jet, linear, then};
use jet_poly::{Jet, JetOf};
use ring_law::{Fault, Field, Ring};
use std::alloc::Global;

/// The order of a move.
const ORDER: u8 = 16;

/// A linear move that is made matrix by matrix, and the cubic that it has reached.
#[derive(Drop)]
pub struct Moving<E> {
    pub change: Change<E>,
    pub form: Jet<E>,
}

/// A linear move under way over a ring.
pub(crate) type MovingOf<R> = Moving<<R as Ring>::Elem>;

/// The elements of three rows, one row after the other.
fn joined<E: Copy>(x: &[E; 3], y: &[E; 3], z: &[E; 3]) -> [E; 9]
    ensures elements { result ≡ x.now ++ (y.now ++ z.now) }
    ensures first { length x.now ≡ 3 }
    ensures second { length y.now ≡ 3 }
    ensures third { length z.now ≡ 3 }
{
    let [x0, x1, x2] = *x;
    let [y0, y1, y2] = *y;
    let [z0, z1, z2] = *z;
    [x0, x1, x2, y0, y1, y2, z0, z1, z2]
}

/// The entries of a matrix, row after row.
fn entries<R: Ring>(_ring: &R, a: &Matrix<R::Elem>) -> [R::Elem; 9]
    requires { R.is_ring _ring.now }
    ensures { let m = R.meaning _ring.now in (w : MatrixOf (R.Value _ring.now)) → IsMatrix m w a.now → AreEntries m w result }
{
    joined(&a[0], &a[1], &a[2])
}

/// The change of coordinates of a matrix, or `None` where it is singular.
///
/// Errors: `Range` only where the height of the row reduction of the matrix is 2^120 or more.
fn matrix_change<F: Field>(
    alloc: Global,
    field: &F,
    a: &Matrix<F::Elem>,
) -> Result<Option<ChangeOf<F>>, Fault>
    requires field { F.is_ring field.now }
    requires matrix { let m = F.meaning field.now in IsMatrix m (map (map m.value) a.now) a.now }
    ensures change { let m = F.meaning field.now in (w : MatrixOf (F.Value field.now)) → IsMatrix m w a.now → IfOk result (IsChangeBy m w) }
    ensures range { let m = F.meaning field.now in (w : MatrixOf (F.Value field.now)) → IsMatrix m w a.now
        → OnFault result (IsWorkHigh 3 m.scalars (inverted (linear_move 3 m.scalars w))) }
{
    let flat = entries(field, a);
    match linear(alloc, field, 3, ORDER, &flat) {
        Ok(change) => {
            // The terms of each part stand in the monomial order.
            for part in change.parts.as_slice() {
                let _ = part.terms();
            }
            Ok(Some(change))
        }
        Err(ChangeError::Singular { kernel: _ }) => Ok(None),
        Err(ChangeError::Range(e)) => Err(Fault::Range(e)),
        Err(ChangeError::NoMemory) => Err(Fault::NoMemory),
    }
}

/// The move of a matrix on a cubic, or `None` where the matrix is singular.
///
/// Errors: `Range` only where the row reduction of the matrix, or the substitution in the cubic, has
/// height 2^120 or more.
pub(crate) fn begin<F: Field>(
    alloc: Global,
    field: &F,
    f: &JetOf<F>,
    a: &Matrix<F::Elem>,
) -> Result<Option<MovingOf<F>>, Fault>
    requires field { F.is_ring field.now }
    requires jet { IsJetIn (F.meaning field.now) 3 f.now }
    requires matrix { let m = F.meaning field.now in IsMatrix m (map (map m.value) a.now) a.now }
    ensures way { let m = F.meaning field.now in let g = poly_of 3 m.value f.now.terms in (w : MatrixOf (F.Value field.now)) → IsMatrix m w a.now
        → IfOk result (AfterMatrix m w (moved m.scalars w g)) }
    ensures range { let m = F.meaning field.now in let g = poly_of 3 m.value f.now.terms in (w : MatrixOf (F.Value field.now)) → IsMatrix m w a.now
        → OnFault result (Among (IsWorkHigh 3 m.scalars) (beginning_work m.scalars w g)) }
{
    let Some(change) = matrix_change(alloc, field, a)? else {
        return Ok(None);
    };
    let form = carried_jet(alloc, field, &change, f, 3)?;
    Ok(Some(Moving { change, form }))
}

/// The move of a matrix after the one so far, or `None` where the matrix is singular.
///
/// Errors: `Range` only where the row reduction of the matrix, the composite, or the substitution in
/// the cubic, has height 2^120 or more.
pub(crate) fn advance<F: Field>(
    alloc: Global,
    field: &F,
    way: &MovingOf<F>,
    a: &Matrix<F::Elem>,
) -> Result<Option<MovingOf<F>>, Fault>
    requires field { F.is_ring field.now }
    requires under_way { IsUnderWay (F.meaning field.now) way.now }
    requires matrix { let m = F.meaning field.now in IsMatrix m (map (map m.value) a.now) a.now }
    ensures way { let m = F.meaning field.now in (v w : MatrixOf (F.Value field.now)) (g : Polynomial 3 (F.Value field.now)) → IsMoving m v g way.now
        → IsMatrix m w a.now → IfOk result (AfterMatrix m (matrix_product m.scalars v w) (moved m.scalars w g)) }
    ensures range { let m = F.meaning field.now in (v w : MatrixOf (F.Value field.now)) (g : Polynomial 3 (F.Value field.now)) → IsMoving m v g way.now
        → IsMatrix m w a.now → OnFault result (Among (IsWorkHigh 3 m.scalars) (advancing_work m.scalars v w g)) }
{
    let Some(next) = matrix_change(alloc, field, a)? else {
        return Ok(None);
    };
    let change = then(alloc, field, &way.change, &next, ORDER)?;
    let form = carried_jet(alloc, field, &next, &way.form, 3)?;
    Ok(Some(Moving { change, form }))
}
