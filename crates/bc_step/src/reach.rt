// The objects on which an instruction works, and their cells.

ghost use Rattle.std.specs.Prelude.{◌≡◌, ◌<◌, Some, length, pos, IfOk, IfErr, IfSome, IfNone};
ghost use Rattle.bc_data.specs.declared.run.Value.TheVariants as value;
ghost use Rattle.bc_mean.specs.Work.{Work, Gives, Stops, reach as meant_reach};
ghost use Rattle.bc_mean.specs.Evaluate.{index_in as meant_index};
ghost use Rattle.bc_code.specs.Instructions.{new_object};
ghost use Rattle.bc_step.specs.Area.{body_in, reads_of};
ghost use Rattle.bc_step.specs.Parts.{element_at, field_at, halt_of, length_at, parameter_in, reached_at, Does, Halts};

use crate::answer::{Halt, fault};
use crate::area::{Area, ObjectRef};
use bc_data::run::{Body, FaultKind, Place, Value};

/// The object of a value, with its body: first the test for `null`, then the touch.
#[inline]
pub(crate) fn reach(area: &Area, at: Place, x: Value) -> Result<(ObjectRef, &Body), Halt>
    ensures there { IfOk result (λ r. body_in area.now r.0 ≡ Some r.1.now) }
    ensures ok { IfOk result (λ r.
        Does (reached_at r.0 r.1.now) area.now area.now (λ w. meant_reach (reads_of area.now).look at x w)) }
    ensures err { IfErr result (λ h. Halts h area.now (λ w. meant_reach (reads_of area.now).look at x w)) }
{
    match x {
        Value::Null => Err(fault(FaultKind::Null, at)),
        Value::Old(id) => match area.body_of(ObjectRef::Old(id)) {
            None => Err(Halt::Need(id)),
            Some(body) => Ok((ObjectRef::Old(id), body)),
        },
        Value::New(n) => match area.body_of(ObjectRef::New(n)) {
            None => Err(Halt::Wrong),
            Some(body) => Ok((ObjectRef::New(n), body)),
        },
        Value::Int(_) => Err(Halt::Wrong),
        Value::Bool(_) => Err(Halt::Wrong),
    }
}

/// The object of a parameter, with its body.
#[inline]
pub(crate) fn parameter(area: &Area, p: u32) -> Result<(ObjectRef, &Body), Halt>
    ensures there { IfOk result (λ r. body_in area.now r.0 ≡ Some r.1.now) }
    ensures ok { IfOk result (λ r.
        Does (reached_at r.0 r.1.now) area.now area.now (λ w. parameter_in (reads_of area.now) p w)) }
    ensures err { IfErr result (λ h. Halts h area.now (λ w. parameter_in (reads_of area.now) p w)) }
{
    match area.parameter(p) {
        None => Err(Halt::Wrong),
        Some(id) => match area.body_of(ObjectRef::Old(id)) {
            None => Err(Halt::Need(id)),
            Some(body) => Ok((ObjectRef::Old(id), body)),
        },
    }
}

/// The new object of a value, with its body.
#[inline]
pub(crate) fn made_at(area: &Area, x: Value) -> Option<(ObjectRef, &Body)>
    ensures there { IfSome result (λ r. body_in area.now r.0 ≡ Some r.1.now) }
    ensures some { IfSome result (λ r. Does (reached_at r.0 r.1.now) area.now area.now (λ w. new_object x w)) }
    ensures none { IfNone result (Halts Halt.Wrong area.now (λ w. new_object x w)) }
{
    match x {
        Value::New(n) => match area.body_of(ObjectRef::New(n)) {
            None => None,
            Some(body) => Some((ObjectRef::New(n), body)),
        },
        _ => None,
    }
}

/// The index of an element that the array has.
#[inline]
pub(crate) fn index_in(at: Place, body: &Body, i: Value) -> Result<usize, Halt>
    ensures within { IfOk result (λ n. n < length body.now.cells) }
    ensures ok { IfOk result (λ n. (w : Work) → meant_index at body.now i w ≡ Gives n w) }
    ensures err { IfErr result (λ h. (w : Work) → meant_index at body.now i w ≡ Stops (halt_of h) w) }
{
    let Value::Int(i) = i else {
        return Err(Halt::Wrong);
    };
    if i < 0 {
        return Err(fault(FaultKind::Bounds, at));
    }
    let n = i as usize;
    if n < body.cells.len() {
        Ok(n)
    } else {
        Err(fault(FaultKind::Bounds, at))
    }
}

/// The value of a field.
#[inline]
pub(crate) fn field_of(area: &Area, at: Place, x: Value, field: u32) -> Result<Value, Halt>
    ensures ok { IfOk result (λ y. Does y area.now area.now (λ w. field_at (reads_of area.now).look at x field w)) }
    ensures err { IfErr result (λ h. Halts h area.now (λ w. field_at (reads_of area.now).look at x field w)) }
{
    match reach(area, at, x) {
        Err(halt) => Err(halt),
        Ok((_, body)) => match body.cells.get(field as usize) {
            None => Err(Halt::Wrong),
            Some(y) => Ok(*y),
        },
    }
}

/// The number of elements of an array.
#[inline]
pub(crate) fn length_of(area: &Area, at: Place, x: Value) -> Result<usize, Halt>
    ensures ok { IfOk result (λ n.
        Does (value.Int (pos n)) area.now area.now (λ w. length_at (reads_of area.now).look at x w)) }
    ensures err { IfErr result (λ h. Halts h area.now (λ w. meant_reach (reads_of area.now).look at x w)) }
{
    match reach(area, at, x) {
        Err(halt) => Err(halt),
        Ok((_, body)) => Ok(body.cells.len()),
    }
}

/// The value of an element.
#[inline]
pub(crate) fn element_of(area: &Area, at: Place, x: Value, i: Value) -> Result<Value, Halt>
    ensures ok { IfOk result (λ y. Does y area.now area.now (λ w. element_at (reads_of area.now).look at x i w)) }
    ensures err { IfErr result (λ h. Halts h area.now (λ w. element_at (reads_of area.now).look at x i w)) }
{
    match reach(area, at, x) {
        Err(halt) => Err(halt),
        Ok((_, body)) => match index_in(at, body, i) {
            Err(halt) => Err(halt),
            Ok(n) => Ok(body.cells[n]),
        },
    }
}
