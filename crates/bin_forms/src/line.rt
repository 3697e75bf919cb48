//! Lines through the origin of the plane.

ghost use Rattle.std.specs.Prelude.{◌≡◌, ◌<◌, IfOk};
ghost use Rattle.lin_row.specs.Plain.{Among};
ghost use Rattle.ring_law.specs.Refusals.{OnRange};
ghost use Rattle.move_law.specs.Shapes.{power_line as power_line_value, power_line_work};
ghost use Rattle.move_law.specs.Work.{IsWorkHigh};
ghost use Rattle.bin_forms.specs.Lines.{line_value};

use crate::number::{is_zero, over_multiple};
use ring_law::{Field, Range, Ring};

/// The line y where `vertical`, and then `lambda` is 0; else the line `x + lambda*y`.
#[derive(Clone, Copy, Debug)]
pub struct Line<E> {
    pub vertical: bool,
    pub lambda: E,
}

// The line of a form that is a multiple of its d-th power, by its first two coefficients:
// x + f1/(d*f0)*y, and y where f0 is 0.
pub(crate) fn power_line<F: Field>(
    field: &F,
    d: u8,
    f0: F::Elem,
    f1: F::Elem,
) -> Result<Line<F::Elem>, Range>
    requires field { F.is_ring field.now }
    requires degree { 0 < d }
    requires first { (F.meaning field.now).is_elem f0 }
    requires second { (F.meaning field.now).is_elem f1 }
    ensures elem { IfOk result (λ l. (F.meaning field.now).is_elem l.lambda) }
    ensures line { IfOk result (λ l. let m = F.meaning field.now in line_value m.value l ≡ power_line_value m.scalars d (m.value f0) (m.value f1)) }
    ensures range { OnRange result (let m = F.meaning field.now in Among (IsWorkHigh 2 m.scalars) (power_line_work m.scalars 2 d (m.value f0) (m.value f1))) }
{
    if is_zero(field, f0) {
        return Ok(Line {
            vertical: true,
            lambda: field.zero(),
        });
    }
    let lambda = over_multiple(field, d, f1, f0)?;
    Ok(Line {
        vertical: false,
        lambda,
    })
}
