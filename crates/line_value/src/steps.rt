//! A calculation over the steps of a line.

ghost use Rattle.std.specs.Prelude.{◌≡◌, ℕ, ◌<◌, ◌⊎◌, true, false, length, IfOk, IfSome, ◌==◌};
ghost use Rattle.std.specs.List.{All};
ghost use Rattle.std.specs.Option.{option_map};
ghost use Rattle.ring_law.specs.Refusals.{OnFault};
ghost use Rattle.line_reader.specs.Calculation as calculation;
ghost use Rattle.line_value.specs.Calculations.{calculates, frame_of, stack_of, state_of, IsFrame, IsAt, IsCalculation, IsStepWithin, AreStepsHigh};

use crate::calculation::{At, Calculation, Frame};
use crate::calculator::Calculator;
use crate::powers::power;
use line_reader::Step;
use ring_law::Fault;
use std::alloc::{AllocError, Global};

// The product with one more factor.
fn times<C: Calculator>(
    alloc: Global,
    calculator: &C,
    product: &Option<C::Elem>,
    factor: C::Elem,
) -> Result<C::Elem, Fault>
    requires product { IfSome product.now (C.is_elem calculator.now) }
    requires factor { C.is_elem calculator.now factor }
    ensures elem { IfOk result (C.is_elem calculator.now) }
    ensures value { IfOk result (λ v. C.value calculator.now v
        ≡ calculation.times (C.arithmetic calculator.now) (option_map (C.value calculator.now) product.now) (C.value calculator.now factor)) }
    ensures cause { OnFault result (calculation.IsTimesHigh (C.arithmetic calculator.now) (C.high calculator.now)
        (option_map (C.value calculator.now) product.now) (C.value calculator.now factor)) }
{
    match product {
        None => Ok(factor),
        Some(t) => calculator.mul(alloc, t, &factor),
    }
}

// The term, or its opposite.
fn signed<C: Calculator>(
    alloc: Global,
    calculator: &C,
    minus: bool,
    term: C::Elem,
) -> Result<C::Elem, AllocError>
    requires { C.is_elem calculator.now term }
    ensures elem { IfOk result (C.is_elem calculator.now) }
    ensures value { IfOk result (λ v. C.value calculator.now v
        ≡ calculation.signed_value (C.arithmetic calculator.now) minus (C.value calculator.now term)) }
{
    if minus {
        calculator.neg(alloc, &term)
    } else {
        Ok(term)
    }
}

// The sum with one more term.
fn total<C: Calculator>(
    alloc: Global,
    calculator: &C,
    frame: &Frame<C::Elem>,
    term: C::Elem,
) -> Result<C::Elem, Fault>
    requires frame { IsFrame (C.is_elem calculator.now) frame.now }
    requires term { C.is_elem calculator.now term }
    ensures elem { IfOk result (C.is_elem calculator.now) }
    ensures value { IfOk result (λ v. C.value calculator.now v
        ≡ calculation.total (C.arithmetic calculator.now) (frame_of (C.value calculator.now) frame.now) (C.value calculator.now term)) }
    ensures cause { OnFault result (calculation.IsTotalHigh (C.arithmetic calculator.now) (C.high calculator.now)
        (frame_of (C.value calculator.now) frame.now) (C.value calculator.now term)) }
{
    let term = signed(alloc, calculator, frame.minus, term)?;
    match &frame.sum {
        None => Ok(term),
        Some(sum) => calculator.add(alloc, sum, &term),
    }
}

// The calculation after a symbol that follows a term, or `None` where it may not stand.
fn on_term<C: Calculator>(
    alloc: Global,
    calculator: &C,
    mut stack: Vec<Frame<C::Elem>>,
    frame: Frame<C::Elem>,
    term: C::Elem,
    c: u8,
) -> Result<Option<Calculation<C::Elem>>, Fault>
    requires frames { All (IsFrame (C.is_elem calculator.now)) stack.items }
    requires last_frame { IsFrame (C.is_elem calculator.now) frame }
    requires term { C.is_elem calculator.now term }
    ensures elems { IfOk result (λ o. IfSome o (IsCalculation (C.is_elem calculator.now))) }
    ensures value { IfOk result (λ o. option_map (state_of (C.value calculator.now)) o
        ≡ calculation.on_term (C.arithmetic calculator.now) (stack_of (C.value calculator.now) stack.items) (frame_of (C.value calculator.now) frame) (C.value calculator.now term) c) }
    ensures cause { OnFault result (calculation.IsEndHigh (C.arithmetic calculator.now) (C.high calculator.now)
        (frame_of (C.value calculator.now) frame) (C.value calculator.now term) c) }
{
    if c == b'*' {
        let Frame { sum, minus, .. } = frame;
        let frame = Frame {
            sum,
            minus,
            product: Some(term),
        };
        let at = At::Wanted;
        Ok(Some(Calculation { stack, frame, at }))
    } else if c == b'/' {
        let Frame { sum, minus, .. } = frame;
        let frame = Frame {
            sum,
            minus,
            product: None,
        };
        let at = At::Divisor(term);
        Ok(Some(Calculation { stack, frame, at }))
    } else if c == b')' {
        let value = total(alloc, calculator, &frame, term)?;
        match stack.pop() {
            None => Ok(None),
            Some(frame) => {
                let at = At::Seen(value);
                Ok(Some(Calculation { stack, frame, at }))
            }
        }
    } else if c == b'+' {
        let sum = Some(total(alloc, calculator, &frame, term)?);
        let frame = Frame {
            sum,
            minus: false,
            product: None,
        };
        let at = At::Wanted;
        Ok(Some(Calculation { stack, frame, at }))
    } else if c == b'-' {
        let sum = Some(total(alloc, calculator, &frame, term)?);
        let frame = Frame {
            sum,
            minus: true,
            product: None,
        };
        let at = At::Wanted;
        Ok(Some(Calculation { stack, frame, at }))
    } else {
        Ok(None)
    }
}

// The calculation after a symbol that stands where an atom is wanted, or `None` where it may not.
fn on_front<C: Calculator>(
    calculator: &C,
    mut stack: Vec<Frame<C::Elem>>,
    frame: Frame<C::Elem>,
    c: u8,
) -> Result<Option<Calculation<C::Elem>>, AllocError>
    requires frames { All (IsFrame (C.is_elem calculator.now)) stack.items }
    requires last_frame { IsFrame (C.is_elem calculator.now) frame }
    ensures elems { IfOk result (λ o. IfSome o (IsCalculation (C.is_elem calculator.now))) }
    ensures value { IfOk result (λ o. option_map (state_of (C.value calculator.now)) o
        ≡ calculation.on_front (C.arithmetic calculator.now) (stack_of (C.value calculator.now) stack.items) (frame_of (C.value calculator.now) frame) c) }
{
    let at = At::Wanted;
    if c == b'(' {
        stack.push(frame)?;
        let frame = Frame {
            sum: None,
            minus: false,
            product: None,
        };
        Ok(Some(Calculation { stack, frame, at }))
    } else if c == b'+' || c == b'-' {
        let Frame { sum, product, .. } = frame;
        let frame = Frame {
            sum,
            minus: c == b'-',
            product,
        };
        Ok(Some(Calculation { stack, frame, at }))
    } else {
        Ok(None)
    }
}

// The calculation after one step more, or `None` where the step may not stand.
fn on_step<C: Calculator>(
    alloc: Global,
    calculator: &C,
    state: Calculation<C::Elem>,
    step: Step,
) -> Result<Option<Calculation<C::Elem>>, Fault>
    requires elems { IsCalculation (C.is_elem calculator.now) state }
    requires within { IsStepWithin (C.count calculator.now) step }
    ensures elems { IfOk result (λ o. IfSome o (IsCalculation (C.is_elem calculator.now))) }
    ensures value { IfOk result (λ o. option_map (state_of (C.value calculator.now)) o
        ≡ calculation.on_step (C.arithmetic calculator.now) (state_of (C.value calculator.now) state) step) }
    ensures cause { OnFault result (calculation.IsStepHigh (C.arithmetic calculator.now) (C.high calculator.now) (state_of (C.value calculator.now) state) step) }
{
    let Calculation { stack, frame, at } = state;
    match at {
        At::Wanted => match step {
            Step::Variable(i) => {
                let at = At::Seen(calculator.variable(alloc, i)?);
                Ok(Some(Calculation { stack, frame, at }))
            }
            Step::Number(n) => {
                let at = At::Seen(calculator.number(alloc, n)?);
                Ok(Some(Calculation { stack, frame, at }))
            }
            Step::Symbol(c) => Ok(on_front(calculator, stack, frame, c)?),
        },
        At::Seen(atom) => match step {
            Step::Symbol(c) => {
                if c == b'^' {
                    let at = At::Exponent(atom);
                    Ok(Some(Calculation { stack, frame, at }))
                } else {
                    let term = times(alloc, calculator, &frame.product, atom)?;
                    on_term(alloc, calculator, stack, frame, term, c)
                }
            }
            _ => Ok(None),
        },
        At::Exponent(atom) => match step {
            Step::Number(n) => {
                let factor = power(alloc, calculator, &atom, n)?;
                let term = times(alloc, calculator, &frame.product, factor)?;
                let Frame { sum, minus, .. } = frame;
                let frame = Frame {
                    sum,
                    minus,
                    product: None,
                };
                let at = At::Term(term);
                Ok(Some(Calculation { stack, frame, at }))
            }
            _ => Ok(None),
        },
        At::Divisor(term) => match step {
            Step::Number(n) => {
                if n == 0 {
                    return Ok(None);
                }
                let at = At::Term(calculator.over(alloc, &term, n)?);
                Ok(Some(Calculation { stack, frame, at }))
            }
            _ => Ok(None),
        },
        At::Term(term) => match step {
            Step::Symbol(c) => on_term(alloc, calculator, stack, frame, term, c),
            _ => Ok(None),
        },
    }
}

// The value at the end, or `None` where more has to come.
fn outcome<C: Calculator>(
    alloc: Global,
    calculator: &C,
    state: Calculation<C::Elem>,
) -> Result<Option<C::Elem>, Fault>
    requires { IsCalculation (C.is_elem calculator.now) state }
    ensures elem { IfOk result (λ o. IfSome o (C.is_elem calculator.now)) }
    ensures value { IfOk result (λ o. option_map (C.value calculator.now) o
        ≡ calculation.outcome (C.arithmetic calculator.now) (state_of (C.value calculator.now) state)) }
    ensures cause { OnFault result (calculation.IsOutcomeHigh (C.arithmetic calculator.now) (C.high calculator.now) (state_of (C.value calculator.now) state)) }
{
    let Calculation { frame, at, .. } = state;
    match at {
        At::Seen(atom) => {
            let term = times(alloc, calculator, &frame.product, atom)?;
            Ok(Some(total(alloc, calculator, &frame, term)?))
        }
        At::Term(term) => Ok(Some(total(alloc, calculator, &frame, term)?)),
        _ => Ok(None),
    }
}

/// The value of the steps of an expression, or `None` where they are those of none.
pub fn evaluate<C: Calculator>(
    alloc: Global,
    calculator: &C,
    steps: &[Step],
) -> Result<Option<C::Elem>, Fault>
    requires { All (IsStepWithin (C.count calculator.now)) steps.now }
    ensures elem { IfOk result (λ o. IfSome o (C.is_elem calculator.now)) }
    ensures value { IfOk result (λ o. option_map (C.value calculator.now) o ≡ calculates (C.arithmetic calculator.now) steps.now) }
    ensures cause { OnFault result (AreStepsHigh (C.arithmetic calculator.now) (C.high calculator.now) steps.now) }
{
    let mut state = Calculation {
        stack: Vec::new(alloc),
        frame: Frame {
            sum: None,
            minus: false,
            product: None,
        },
        at: At::Wanted,
    };
    for step in steps {
        match on_step(alloc, calculator, state, *step)? {
            None => return Ok(None),
            Some(next) => state = next,
        }
    }
    outcome(alloc, calculator, state)
}
