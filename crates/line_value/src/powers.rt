//! Powers by repeated squares.

ghost use Rattle.std.specs.Prelude.{◌≡◌, IfOk};
ghost use Rattle.line_syntax.specs.High.{IsPowerHigh};
ghost use Rattle.ring_law.specs.Refusals.{OnFault};

use crate::calculator::Calculator;
use ring_law::Fault;
use std::alloc::Global;

/// The power with exponent n: the square of that with half the exponent, and for an odd n once more the base.
pub fn power<C: Calculator>(
    alloc: Global,
    calculator: &C,
    base: &C::Elem,
    n: u64,
) -> Result<C::Elem, Fault>
    requires { C.is_elem calculator.now base.now }
    ensures elem { IfOk result (C.is_elem calculator.now) }
    ensures value { IfOk result (λ v. C.value calculator.now v ≡ (C.arithmetic calculator.now).power (C.value calculator.now base.now) n) }
    ensures cause { OnFault result (IsPowerHigh (C.arithmetic calculator.now) (C.high calculator.now) (C.value calculator.now base.now) n) }
{
    if n == 0 {
        return Ok(calculator.number(alloc, 1)?);
    }
    if n == 1 {
        let one = calculator.number(alloc, 1)?;
        return calculator.mul(alloc, &one, base);
    }
    let square = if n < 4 {
        calculator.mul(alloc, base, base)?
    } else {
        let half = power(alloc, calculator, base, n / 2)?;
        calculator.mul(alloc, &half, &half)?
    };
    if n % 2 == 0 {
        Ok(square)
    } else {
        calculator.mul(alloc, &square, base)
    }
}
