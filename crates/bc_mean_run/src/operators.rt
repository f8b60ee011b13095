// Operators on values.

ghost use Rattle.std.specs.Prelude.{◌≡◌};
ghost use Rattle.bc_mean.specs.Evaluate.{calculate, invert, negate};
ghost use Rattle.bc_mean_run.specs.Tree.{Mirrors, combined, decided, truth};

use crate::halt::{Halt, Interrupt};
use crate::objects::known;
use crate::run::{Run, fault};
use crate::values::{arithmetic, divides_by_zero, negative, same_value};
use bc_data::program::Op;
use bc_data::run::{FaultKind, Place, Value};

/// A truth value, wherever an accepted program asks for one.
pub fn truth(x: Value, run: &Run) -> Result<bool, Interrupt>
    ensures { Mirrors result (λ b. b) run.now (truth x run.now) }
{
    match x {
        Value::Bool(b) => Ok(b),
        _ => Err(Interrupt::Halted(Halt::Wrong)),
    }
}

pub fn negate(x: Value, run: &Run) -> Result<Value, Interrupt>
    ensures { Mirrors result (λ x. x) run.now (negate x run.now) }
{
    match x {
        Value::Int(n) => Ok(Value::Int(negative(n))),
        _ => Err(Interrupt::Halted(Halt::Wrong)),
    }
}

pub fn invert(x: Value, run: &Run) -> Result<Value, Interrupt>
    ensures { Mirrors result (λ x. x) run.now (invert x run.now) }
{
    match x {
        Value::Bool(b) => Ok(Value::Bool(!b)),
        _ => Err(Interrupt::Halted(Halt::Wrong)),
    }
}

// An operator on two numbers.
fn calculate(at: Place, op: Op, x: Value, y: Value, run: &Run) -> Result<Value, Interrupt>
    ensures { Mirrors result (λ x. x) run.now (calculate at op x y run.now) }
{
    match x {
        Value::Int(a) => match y {
            Value::Int(b) => {
                if divides_by_zero(op, b) {
                    return Err(fault(FaultKind::Zero, at));
                }
                known(arithmetic(op, a, b), run)
            }
            _ => Err(Interrupt::Halted(Halt::Wrong)),
        },
        _ => Err(Interrupt::Halted(Halt::Wrong)),
    }
}

/// What the left operand alone decides.
pub fn decided(op: Op, x: Value, run: &Run) -> Result<Option<Value>, Interrupt>
    ensures { Mirrors result (λ d. d) run.now (decided op x run.now) }
{
    match op {
        Op::And => {
            if truth(x, run)? {
                Ok(None)
            } else {
                Ok(Some(Value::Bool(false)))
            }
        }
        Op::Or => {
            if truth(x, run)? {
                Ok(Some(Value::Bool(true)))
            } else {
                Ok(None)
            }
        }
        _ => Ok(None),
    }
}

/// What both operands give.
pub fn combined(at: Place, op: Op, x: Value, y: Value, run: &Run) -> Result<Value, Interrupt>
    ensures { Mirrors result (λ x. x) run.now (combined at op x y run.now) }
{
    match op {
        Op::And => Ok(y),
        Op::Or => Ok(y),
        Op::Same => Ok(Value::Bool(same_value(&x, &y))),
        Op::Differ => Ok(Value::Bool(!same_value(&x, &y))),
        _ => calculate(at, op, x, y, run),
    }
}
