// The stack of values. Contracts see it from its top, which is the last of its vector.

ghost use Rattle.std.specs.Prelude.{◌≡◌, ◌+◌, ◌<◌, ◌≤◌, [], ◌∷◌, List, reverse, length, IfSome, IfNone, OnOk, OnErr};
ghost use Rattle.bc_data.specs.declared.run.Value.{Value};

use bc_data::run::Value;
use std::alloc::AllocError;

/// Puts a value on top. On `Err` the stack is as it was.
#[inline]
pub(crate) fn push(stack: &mut Vec<Value>, x: Value) -> Result<(), AllocError>
    ensures ok { OnOk result (reverse stack.new.items ≡ x ∷ reverse stack.old.items) }
    ensures err { OnErr result (stack.new.items ≡ stack.old.items) }
{
    stack.push(x)?;
    Ok(())
}

/// Takes the top.
#[inline]
pub(crate) fn pop(stack: &mut Vec<Value>) -> Option<Value>
    ensures some { IfSome result (λ x. reverse stack.old.items ≡ x ∷ reverse stack.new.items) }
    ensures none { IfNone result (reverse stack.old.items ≡ []) }
{
    stack.pop()
}

/// The top.
#[inline]
pub(crate) fn top(stack: &[Value]) -> Option<Value>
    ensures some { IfSome result (λ x. (rest : List Value) × (reverse stack.now ≡ x ∷ rest)) }
    ensures none { IfNone result (reverse stack.now ≡ []) }
{
    let n = stack.len();
    if n == 0 { None } else { Some(stack[n - 1]) }
}

/// The value under the top, and the top.
#[inline]
pub(crate) fn top_two(stack: &[Value]) -> Option<(Value, Value)>
    ensures some { IfSome result (λ r. (rest : List Value) × (reverse stack.now ≡ r.1 ∷ r.0 ∷ rest)) }
    ensures none { IfNone result (length (reverse stack.now) < 2) }
{
    let n = stack.len();
    if n < 2 {
        None
    } else {
        Some((stack[n - 2], stack[n - 1]))
    }
}

/// The two values under the top, and the top.
#[inline]
pub(crate) fn top_three(stack: &[Value]) -> Option<(Value, Value, Value)>
    ensures some { IfSome result (λ r. (rest : List Value) × (reverse stack.now ≡ r.2 ∷ r.1 ∷ r.0 ∷ rest)) }
    ensures none { IfNone result (length (reverse stack.now) < 3) }
{
    let n = stack.len();
    if n < 3 {
        None
    } else {
        Some((stack[n - 3], stack[n - 2], stack[n - 1]))
    }
}

/// Puts a value in the place of the top.
#[inline]
pub(crate) fn set_top(stack: &mut Vec<Value>, x: Value)
    ensures { (y : Value) (rest : List Value)
        → reverse stack.old.items ≡ y ∷ rest → reverse stack.new.items ≡ x ∷ rest }
{
    let n = stack.len();
    if n > 0 {
        stack[n - 1] = x;
    }
}

#[inline]
pub(crate) fn drop_top(stack: &mut Vec<Value>)
    ensures { (y : Value) (rest : List Value) → reverse stack.old.items ≡ y ∷ rest → reverse stack.new.items ≡ rest }
{
    pop(stack);
}

#[inline]
pub(crate) fn drop_two(stack: &mut Vec<Value>)
    ensures { (x y : Value) (rest : List Value)
        → reverse stack.old.items ≡ y ∷ x ∷ rest → reverse stack.new.items ≡ rest }
{
    drop_top(stack);
    drop_top(stack);
}

#[inline]
pub(crate) fn drop_three(stack: &mut Vec<Value>)
    ensures { (x y z : Value) (rest : List Value)
        → reverse stack.old.items ≡ z ∷ y ∷ x ∷ rest → reverse stack.new.items ≡ rest }
{
    drop_two(stack);
    drop_top(stack);
}

/// Puts a value in the place of the two on top.
#[inline]
pub(crate) fn replace_two(stack: &mut Vec<Value>, z: Value)
    ensures { (x y : Value) (rest : List Value)
        → reverse stack.old.items ≡ y ∷ x ∷ rest → reverse stack.new.items ≡ z ∷ rest }
{
    drop_top(stack);
    set_top(stack, z);
}
