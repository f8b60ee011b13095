// The objects of a run: reading and writing their cells, flags and tag instances.

ghost use Rattle.std.specs.Prelude.{◌≡◌, not, pos, filter, slice_get, IfOk};
ghost use Rattle.std.specs.List.{list_any};
ghost use Rattle.bc_data.specs.declared.run.Value.TheVariants as value;
ghost use Rattle.bc_mean.specs.Values.{same_tag};
ghost use Rattle.bc_mean.specs.Work.{look_of, known, reach, with_flag, set_flag, bind, unbind, parameter};
ghost use Rattle.bc_mean.specs.Evaluate.{index_in};
ghost use Rattle.bc_mean.specs.Execute.{write_cell};
ghost use Rattle.bc_mean_run.specs.Tree.{Mirrors, found, touched, object_seen, reached_seen, read_field, read_length, read_element, write_field, write_element};

use crate::halt::{Halt, Interrupt};
use crate::run::{Object, Run, fault};
use crate::stage::Stage;
use crate::values::same_tag;
use bc_data::list::List;
use bc_data::run::{Body, FaultKind, Place, TagRef, Value};
use std::alloc::{AllocError, Global};

/// An object, and a copy of its body as the invocation sees it.
#[derive(Drop)]
pub struct Reached {
    pub object: Object,
    pub body: Body,
}

// The test for `null`, and the touch. Only objects of the store are touched.
fn touched(at: Place, x: Value, run: &mut Run) -> Result<Object, Interrupt>
    ensures { Mirrors result object_seen run.new (touched at x run.old) }
{
    match x {
        Value::Null => Err(fault(FaultKind::Null, at)),
        Value::Old(id) => {
            run.touch(id)?;
            Ok(Object::Old(id))
        }
        Value::New(n) => Ok(Object::New(n)),
        Value::Int(_) => Err(Interrupt::Halted(Halt::Wrong)),
        Value::Bool(_) => Err(Interrupt::Halted(Halt::Wrong)),
    }
}

/// An object with a copy of its body.
pub fn copied(stage: &Stage<'_>, object: Object, run: &Run) -> Result<Reached, Interrupt>
    ensures { Mirrors result reached_seen run.now (found (look_of stage.now.store.now) (object_seen object) run.now) }
{
    let body = run.found(stage.store, object)?;
    let body = body.copy(stage.alloc)?;
    Ok(Reached { object, body })
}

/// The object of a reference.
#[tactic(auto, using(crate::proofs::Reaching::reach_is))]
pub fn reach(stage: &Stage<'_>, at: Place, x: Value, run: &mut Run) -> Result<Reached, Interrupt>
    ensures { Mirrors result reached_seen run.new (reach (look_of stage.now.store.now) at x run.old) }
{
    let object = touched(at, x, run)?;
    copied(stage, object, run)
}

/// A parameter's object.
pub fn parameter(stage: &Stage<'_>, p: u32, run: &Run) -> Result<Reached, Interrupt>
    ensures { Mirrors result reached_seen run.now (parameter (look_of stage.now.store.now) (slice_get stage.now.objects.now p) run.now) }
{
    match stage.objects.get(p as usize) {
        Some(id) => copied(stage, Object::Old(*id), run),
        None => Err(Interrupt::Halted(Halt::Wrong)),
    }
}

// What is there wherever an accepted program asks for it.
pub fn known(value: Option<Value>, run: &Run) -> Result<Value, Interrupt>
    ensures { Mirrors result (λ x. x) run.now (known value run.now) }
{
    match value {
        Some(value) => Ok(value),
        None => Err(Interrupt::Halted(Halt::Wrong)),
    }
}

/// The value of a field.
#[tactic(auto, using(crate::proofs::Reaching::reach_is))]
pub fn read_field(
    stage: &Stage<'_>,
    at: Place,
    x: Value,
    field: u32,
    run: &mut Run,
) -> Result<Value, Interrupt>
    ensures { Mirrors result (λ x. x) run.new (read_field (look_of stage.now.store.now) at x field run.old) }
{
    let object = touched(at, x, run)?;
    let body = run.found(stage.store, object)?;
    known(body.cells.get(field as usize).copied(), run)
}

// A length as a value. An array that is longer than a number can say has no room in memory.
fn length_value(len: usize) -> Result<Value, AllocError>
    ensures { IfOk result (λ x. x ≡ value.Int (pos len)) }
{
    if len > i32::MAX as usize {
        return Err(AllocError);
    }
    Ok(Value::Int(len as i32))
}

/// The length of an array.
#[tactic(auto, using(crate::proofs::Reaching::reach_is))]
pub fn read_length(
    stage: &Stage<'_>,
    at: Place,
    x: Value,
    run: &mut Run,
) -> Result<Value, Interrupt>
    ensures { Mirrors result (λ x. x) run.new (read_length (look_of stage.now.store.now) at x run.old) }
{
    let object = touched(at, x, run)?;
    let body = run.found(stage.store, object)?;
    let len = length_value(body.cells.len())?;
    Ok(len)
}

// The index of an element that the array has.
fn index_in(at: Place, body: &Body, i: Value, run: &Run) -> Result<usize, Interrupt>
    ensures { Mirrors result (λ n. n) run.now (index_in at body.now i run.now) }
{
    match i {
        Value::Int(i) => {
            if i < 0 {
                return Err(fault(FaultKind::Bounds, at));
            }
            let i = i as usize;
            if i < body.cells.len() {
                Ok(i)
            } else {
                Err(fault(FaultKind::Bounds, at))
            }
        }
        _ => Err(Interrupt::Halted(Halt::Wrong)),
    }
}

/// The value of an element.
#[tactic(auto, using(crate::proofs::Reaching::reach_is))]
pub fn read_element(
    stage: &Stage<'_>,
    at: Place,
    x: Value,
    i: Value,
    run: &mut Run,
) -> Result<Value, Interrupt>
    ensures { Mirrors result (λ x. x) run.new (read_element (look_of stage.now.store.now) at x i run.old) }
{
    let object = touched(at, x, run)?;
    let body = run.found(stage.store, object)?;
    let n = index_in(at, body, i, run)?;
    known(body.cells.get(n).copied(), run)
}

// A cell gets this value.
fn write_cell(o: Reached, n: usize, x: Value, run: &mut Run) -> Result<(), Interrupt>
    ensures { Mirrors result (λ _. tt) run.new (write_cell (reached_seen o) n x run.old) }
{
    let Reached { object, body } = o;
    let mut body = body;
    if n < body.cells.len() {
        body.cells[n] = x;
    }
    run.write(object, body)
}

/// A field gets this value.
pub fn write_field(
    stage: &Stage<'_>,
    at: Place,
    x: Value,
    field: u32,
    y: Value,
    run: &mut Run,
) -> Result<(), Interrupt>
    ensures { Mirrors result (λ _. tt) run.new (write_field (look_of stage.now.store.now) at x field y run.old) }
{
    let o = reach(stage, at, x, run)?;
    write_cell(o, field as usize, y, run)
}

/// An element gets this value.
pub fn write_element(
    stage: &Stage<'_>,
    at: Place,
    x: Value,
    i: Value,
    y: Value,
    run: &mut Run,
) -> Result<(), Interrupt>
    ensures { Mirrors result (λ _. tt) run.new (write_element (look_of stage.now.store.now) at x i y run.old) }
{
    let o = reach(stage, at, x, run)?;
    let n = index_in(at, &o.body, i, run)?;
    write_cell(o, n, y, run)
}

// A mask with the bit of a flag set or cleared. No class has more than 32 flags.
fn with_flag(mask: u32, flag: u32, b: bool) -> Result<u32, AllocError>
    ensures { IfOk result (λ m. m ≡ with_flag mask flag b) }
{
    if flag >= 32 {
        return Err(AllocError);
    }
    let bit = 1u32 << flag;
    if b {
        Ok(mask | bit)
    } else {
        Ok(mask - (mask & bit))
    }
}

/// A flag is set or cleared.
pub fn set_flag(o: Reached, flag: u32, b: bool, run: &mut Run) -> Result<(), Interrupt>
    ensures { Mirrors result (λ _. tt) run.new (set_flag (reached_seen o) flag b run.old) }
{
    let Reached { object, body } = o;
    let mut body = body;
    body.flags = with_flag(body.flags, flag, b)?;
    run.write(object, body)
}

fn has_tag(tags: &[TagRef], t: &TagRef) -> bool
    ensures { result ≡ list_any (same_tag t.now) tags.now }
{
    tags.iter().any(|s| same_tag(t, s))
}

fn without_tag(alloc: Global, tags: &[TagRef], t: &TagRef) -> Result<List<TagRef>, AllocError>
    ensures { IfOk result (λ l. l ≡ filter (λ s. not (same_tag t.now s)) tags.now) }
{
    let mut kept = List::new(alloc);
    for s in tags {
        if !same_tag(t, s) {
            kept.push(*s)?;
        }
    }
    Ok(kept)
}

/// An instance is bound behind those that the object has, unless it has it.
pub fn bind(at: Place, o: Reached, t: TagRef, run: &mut Run) -> Result<(), Interrupt>
    ensures { Mirrors result (λ _. tt) run.new (bind at (reached_seen o) t run.old) }
{
    let Reached { object, body } = o;
    let mut body = body;
    if has_tag(body.tags.as_slice(), &t) {
        return Ok(());
    }
    if body.tags.len() >= 16 {
        return Err(fault(FaultKind::TagSlots, at));
    }
    body.tags.push(t)?;
    run.write(object, body)
}

/// The instances behind one that is cleared close up.
pub fn unbind(alloc: Global, o: Reached, t: TagRef, run: &mut Run) -> Result<(), Interrupt>
    ensures { Mirrors result (λ _. tt) run.new (unbind (reached_seen o) t run.old) }
{
    let Reached { object, body } = o;
    let mut body = body;
    body.tags = without_tag(alloc, body.tags.as_slice(), &t)?;
    run.write(object, body)
}
