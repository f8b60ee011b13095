// New bodies, and values that an instruction makes of numbers.

ghost use Rattle.std.specs.Prelude.{◌≡◌, ℕ, ◌+◌, ◌≤◌, ◌∷◌, pos, length, replicate, reverse, IfOk, IfErr, vec_len, vec_capacity};
ghost use Rattle.bc_data.specs.declared.run.Value.TheVariants as value;
ghost use Rattle.bc_mean.specs.Work.{Work, Stops};
ghost use Rattle.bc_mean.specs.Values.{zero_in};
ghost use Rattle.bc_mean.specs.Evaluate.{make_array, zero_array as meant_array};
ghost use Rattle.bc_code.specs.Instructions.{new_body as meant_body};
ghost use Rattle.bc_step.specs.Parts.{halt_of};

use crate::answer::{Halt, fault};
use bc_code::code::ClassCode;
use bc_data::list::List;
use bc_data::run::{Body, FaultKind, Kind, Place, Value};
use std::alloc::{AllocError, Global};

/// A length as a value. One that no number says counts as want of memory.
#[inline]
pub(crate) fn number(len: usize) -> Result<Value, AllocError>
    ensures { IfOk result (λ x. x ≡ value.Int (pos len)) }
{
    if len > i32::MAX as usize {
        return Err(AllocError);
    }
    Ok(Value::Int(len as i32))
}

/// A value on a stack that has room for it. It takes no memory.
#[inline]
pub(crate) fn push_within(stack: &mut Vec<Value>, x: Value)
    requires { vec_len stack.old + 1 ≤ vec_capacity stack.old }
    ensures { reverse stack.new.items ≡ x ∷ reverse stack.old.items }
{
    let _ = stack.push(x);
}

/// An object of a class at first.
pub(crate) fn new_body(alloc: Global, class: u32, k: &ClassCode) -> Result<Body, AllocError>
    ensures { IfOk result (λ b. b ≡ meant_body class k.now) }
{
    Ok(Body {
        kind: Kind::Class(class),
        cells: List::from_slice(alloc, k.cells.as_slice())?,
        flags: 0,
        tags: List::new(alloc),
    })
}

/// How many elements a new array has, of at most 65,536.
pub(crate) fn array_size(at: Place, x: Value) -> Result<u32, Halt>
    ensures few { IfOk result (λ n. n ≤ 65536) }
    ensures ok { IfOk result (λ n. x ≡ value.Int (pos n)) }
    ensures err { IfErr result (λ h. (k : Kind) (w : Work) → make_array at k x w ≡ Stops (halt_of h) w) }
{
    let Value::Int(n) = x else {
        return Err(Halt::Wrong);
    };
    if n < 0 || n > 65536 {
        Err(fault(FaultKind::Size, at))
    } else {
        Ok(n as u32)
    }
}

/// The value of an element at first.
#[inline]
fn zero_of(kind: Kind) -> Value
    ensures { result ≡ zero_in kind }
{
    match kind {
        Kind::Class(_) => Value::Null,
        Kind::Ints => Value::Int(0),
        Kind::Bools => Value::Bool(false),
        Kind::Objects(_) => Value::Null,
    }
}

/// An array of so many elements at first.
pub(crate) fn zero_array(alloc: Global, kind: Kind, n: u32) -> Result<Body, AllocError>
    ensures { IfOk result (λ b. b ≡ meant_array kind n) }
{
    let zero = zero_of(kind);
    let mut cells = List::with_capacity(alloc, n as usize)?;
    for _ in 0..n {
        cells.push(zero)?;
    }
    Ok(Body {
        kind,
        cells,
        flags: 0,
        tags: List::new(alloc),
    })
}
