//! The value of a whole line.

ghost use Rattle.std.specs.Prelude.{◌≡◌, IfOk, map};
ghost use Rattle.ring_law.specs.Refusals.{OnFault};
ghost use Rattle.line_syntax.specs.Syntax as syntax;
ghost use Rattle.line_syntax.specs.Syntax.{Line};
ghost use Rattle.line_syntax.specs.Value.{expr_value};
ghost use Rattle.line_syntax.specs.High.{IsExprHigh};
ghost use Rattle.line_reader.specs.Steps.{step_of};
ghost use Rattle.line_value.specs.Lines.{AreStepsOf, AreLineSteps, begins_with_bracket};

use crate::calculator::Calculator;
use crate::steps::evaluate;
use line_reader::Step;
use ring_law::Fault;
use std::alloc::Global;

// Whether names are declared.
fn is_declared(steps: &[Step]) -> bool
    ensures { result ≡ begins_with_bracket steps.now }
{
    match steps.first() {
        Some(Step::Symbol(c)) => *c == b'[',
        _ => false,
    }
}

// The steps of the expression, behind the declaration if there is one.
fn body_steps(count: usize, steps: &[Step]) -> &[Step]
    requires { AreLineSteps count steps.now }
    ensures { (l : Line) → AreStepsOf count l steps.now → result.now ≡ map (step_of (syntax.names_of l)) (syntax.expr_tokens l.body) }
{
    if is_declared(steps) {
        &steps[2 * count + 1..]
    } else {
        steps
    }
}

/// The value of a line by its steps, in `count` variables.
///
/// Errors: `Range` only where an operation of the line is high.
pub fn evaluate_line<C: Calculator>(
    alloc: Global,
    calculator: &C,
    count: usize,
    steps: &[Step],
) -> Result<C::Elem, Fault>
    requires line { AreLineSteps count steps.now }
    requires same_count { C.count calculator.now ≡ count }
    ensures elem { IfOk result (C.is_elem calculator.now) }
    ensures value { IfOk result (λ v. (l : Line) → AreStepsOf count l steps.now → C.value calculator.now v
        ≡ expr_value (C.arithmetic calculator.now) (syntax.names_of l) l.body) }
    ensures cause { OnFault result ((l : Line) → AreStepsOf count l steps.now
        → IsExprHigh (C.arithmetic calculator.now) (C.high calculator.now) (syntax.names_of l) l.body) }
{
    match evaluate(alloc, calculator, body_steps(count, steps)) {
        Err(fault) => Err(fault),
        Ok(found) => match found {
            Some(value) => Ok(value),
            None => unreachable!(),
        },
    }
}
