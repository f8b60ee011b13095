// Instructions on slots and on the values on top of the stack.

ghost use Rattle.std.specs.Prelude.{◌≡◌, ◌≢◌, ◌<◌, ◌∷◌, false, pos, ◌+ℤ◌, ◌-ℤ◌, neg_ℤ, int_div, slice_get, slice_set, drop, take, IfOk, OnErr};
ghost use Rattle.std.specs.Int.{w32, int_wrap};
ghost use Rattle.bc_data.specs.declared.run.Value.TheVariants as value;
ghost use Rattle.bc_mean.specs.Values.{arithmetic, divides_by_zero, same_value};
ghost use Rattle.bc_mean.specs.Work.{Work, known};
ghost use Rattle.bc_mean.specs.Evaluate.{calculate, invert, negate};
ghost use Rattle.bc_code.specs.declared.code.Code.{Code};
ghost use Rattle.bc_code.specs.declared.code.Instruction.{Instruction};
ghost use Rattle.bc_code.specs.Instructions.{Reads, calculated, next, rule};
ghost use Rattle.bc_step.specs.Control.{Follows, IsStill, computed};

use crate::stack::{pop, push, replace_two, set_top, top, top_two};
use crate::state::{Did, State};
use bc_data::program::Op;
use bc_data::run::{Fault, FaultKind, Place, Value};
use std::alloc::AllocError;

/// The value of a number that stands in the program.
#[inline]
pub(crate) fn int_value(n: i32) -> Value
    ensures { result ≡ value.Int (int_wrap w32 n) }
{
    Value::Int(n)
}

/// A slot of the call whose slots begin at the base.
#[inline]
fn slot(slots: &[Value], base: usize, n: u32) -> Option<Value>
    ensures { result ≡ slice_get (drop base slots.now) n }
{
    let n = n as usize;
    if base < slots.len() && n < slots.len() - base {
        Some(slots[base + n])
    } else {
        None
    }
}

/// Writes a slot of the call whose slots begin at the base, if it has that slot.
#[inline]
fn set_slot(slots: &mut Vec<Value>, base: usize, n: u32, x: Value)
    ensures own { drop base slots.new.items ≡ slice_set (drop base slots.old.items) n x }
    ensures others { take base slots.new.items ≡ take base slots.old.items }
{
    let n = n as usize;
    if base < slots.len() && n < slots.len() - base {
        slots[base + n] = x;
    }
}

/// Whether two values are the same. References are where they are to one object.
#[inline]
fn same_value(x: Value, y: Value) -> bool
    ensures { result ≡ same_value x y }
{
    x == y
}

#[inline]
fn divides_by_zero(op: Op, b: i32) -> bool
    ensures { result ≡ divides_by_zero op b }
{
    match op {
        Op::Div => b == 0,
        Op::Rem => b == 0,
        _ => false,
    }
}

#[inline]
fn sum(a: i32, b: i32) -> i32
    ensures { result ≡ int_wrap w32 (a +ℤ b) }
{
    a.wrapping_add(b)
}

#[inline]
fn difference(a: i32, b: i32) -> i32
    ensures { result ≡ int_wrap w32 (a -ℤ b) }
{
    a.wrapping_sub(b)
}

// The quotient of the least number by -1 wraps.
#[inline]
fn quotient(a: i32, b: i32) -> i32
    requires { b ≢ pos 0 }
    ensures { result ≡ int_wrap w32 (int_div a b) }
{
    a.wrapping_div(b)
}

#[inline]
fn negative(a: i32) -> i32
    ensures { result ≡ int_wrap w32 (neg_ℤ a) }
{
    a.wrapping_neg()
}

/// What an operator on two numbers gives. A divisor is not 0.
#[inline]
fn arithmetic(op: Op, a: i32, b: i32) -> Option<Value>
    requires { divides_by_zero op b ≡ false }
    ensures { result ≡ arithmetic op a b }
{
    match op {
        Op::Add => Some(Value::Int(sum(a, b))),
        Op::Sub => Some(Value::Int(difference(a, b))),
        Op::Mul => Some(Value::Int(a.wrapping_mul(b))),
        Op::Div => Some(Value::Int(quotient(a, b))),
        Op::Rem => Some(Value::Int(a.wrapping_rem(b))),
        Op::Less => Some(Value::Bool(a < b)),
        Op::LessEq => Some(Value::Bool(a <= b)),
        Op::More => Some(Value::Bool(b < a)),
        Op::MoreEq => Some(Value::Bool(b <= a)),
        Op::Or | Op::And | Op::Same | Op::Differ => None,
    }
}

#[inline]
fn negated(x: Value) -> Option<Value>
    ensures { (w : Work) → negate x w ≡ known result w }
{
    match x {
        Value::Int(n) => Some(Value::Int(negative(n))),
        _ => None,
    }
}

#[inline]
fn inverted(x: Value) -> Option<Value>
    ensures { (w : Work) → invert x w ≡ known result w }
{
    match x {
        Value::Bool(b) => Some(Value::Bool(!b)),
        _ => None,
    }
}

/// What an operator gives on two numbers, or its fault. It has no value on others.
#[inline]
fn combined(op: Op, at: Place, x: Value, y: Value) -> Result<Value, Option<Fault>>
    ensures { (w : Work) → calculate at op x y w ≡ computed result w }
{
    match x {
        Value::Int(a) => match y {
            Value::Int(b) => {
                if divides_by_zero(op, b) {
                    return Err(Some(Fault {
                        kind: FaultKind::Zero,
                        at,
                    }));
                }
                match arithmetic(op, a, b) {
                    None => Err(None),
                    Some(z) => Ok(z),
                }
            }
            _ => Err(None),
        },
        _ => Err(None),
    }
}

impl State {
    /// Goes on behind the instruction, with this value on top.
    #[inline]
    pub(crate) fn put(&mut self, x: Value) -> Result<Option<Did>, AllocError>
        requires { self.old.current.next < 18446744073709551615 }
        ensures ok { IfOk result (λ did. Follows did self.old self.new (λ s. next s (x ∷ s.stack) s.work)) }
        ensures err { OnErr result (IsStill self.old self.new) }
    {
        push(&mut self.stack, x)?;
        self.current.next += 1;
        Ok(Some(Did::On))
    }

    #[inline]
    pub(crate) fn load(&mut self, n: u32) -> Result<Option<Did>, AllocError>
        requires { self.old.current.next < 18446744073709551615 }
        ensures ok { IfOk result (λ did. (R : Reads) (code : Code) (at : Place)
            → Follows did self.old self.new (rule R code at (Instruction.Load n))) }
        ensures err { OnErr result (IsStill self.old self.new) }
    {
        match slot(&self.slots, self.current.base, n) {
            None => Ok(None),
            Some(x) => self.put(x),
        }
    }

    #[inline]
    pub(crate) fn store(&mut self, n: u32) -> Option<Did>
        requires { self.old.current.next < 18446744073709551615 }
        ensures { (R : Reads) (code : Code) (at : Place)
            → Follows result self.old self.new (rule R code at (Instruction.Store n)) }
    {
        match pop(&mut self.stack) {
            None => None,
            Some(x) => {
                set_slot(&mut self.slots, self.current.base, n, x);
                self.current.next += 1;
                Some(Did::On)
            }
        }
    }

    #[inline]
    pub(crate) fn pop(&mut self) -> Option<Did>
        requires { self.old.current.next < 18446744073709551615 }
        ensures { (R : Reads) (code : Code) (at : Place)
            → Follows result self.old self.new (rule R code at Instruction.Pop) }
    {
        match pop(&mut self.stack) {
            None => None,
            Some(_) => {
                self.current.next += 1;
                Some(Did::On)
            }
        }
    }

    #[inline]
    pub(crate) fn neg(&mut self) -> Option<Did>
        requires { self.old.current.next < 18446744073709551615 }
        ensures { (R : Reads) (code : Code) (at : Place)
            → Follows result self.old self.new (rule R code at Instruction.Neg) }
    {
        let x = top(&self.stack)?;
        match negated(x) {
            None => None,
            Some(y) => {
                set_top(&mut self.stack, y);
                self.current.next += 1;
                Some(Did::On)
            }
        }
    }

    #[inline]
    pub(crate) fn not(&mut self) -> Option<Did>
        requires { self.old.current.next < 18446744073709551615 }
        ensures { (R : Reads) (code : Code) (at : Place)
            → Follows result self.old self.new (rule R code at Instruction.Not) }
    {
        let x = top(&self.stack)?;
        match inverted(x) {
            None => None,
            Some(y) => {
                set_top(&mut self.stack, y);
                self.current.next += 1;
                Some(Did::On)
            }
        }
    }

    /// An operator on two numbers.
    #[inline]
    pub(crate) fn calculate(&mut self, op: Op, at: Place) -> Option<Did>
        requires { self.old.current.next < 18446744073709551615 }
        ensures { Follows result self.old self.new (calculated at op) }
    {
        let (x, y) = top_two(&self.stack)?;
        match combined(op, at, x, y) {
            Err(None) => None,
            Err(Some(fault)) => Some(Did::Fault(fault)),
            Ok(z) => {
                replace_two(&mut self.stack, z);
                self.current.next += 1;
                Some(Did::On)
            }
        }
    }

    #[inline]
    pub(crate) fn same(&mut self) -> Option<Did>
        requires { self.old.current.next < 18446744073709551615 }
        ensures { (R : Reads) (code : Code) (at : Place)
            → Follows result self.old self.new (rule R code at Instruction.Same) }
    {
        match top_two(&self.stack) {
            None => None,
            Some((x, y)) => {
                replace_two(&mut self.stack, Value::Bool(same_value(x, y)));
                self.current.next += 1;
                Some(Did::On)
            }
        }
    }

    #[inline]
    pub(crate) fn differ(&mut self) -> Option<Did>
        requires { self.old.current.next < 18446744073709551615 }
        ensures { (R : Reads) (code : Code) (at : Place)
            → Follows result self.old self.new (rule R code at Instruction.Differ) }
    {
        match top_two(&self.stack) {
            None => None,
            Some((x, y)) => {
                replace_two(&mut self.stack, Value::Bool(!same_value(x, y)));
                self.current.next += 1;
                Some(Did::On)
            }
        }
    }
}
