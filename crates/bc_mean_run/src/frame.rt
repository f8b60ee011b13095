// The slots of the body that runs, and how a statement ends.

ghost use Rattle.std.specs.Prelude.{◌≡◌, ℕ, ◌-◌, ◌∷◌, ◌++◌, map, pos, length, replicate, slice_get, IfOk, OnOk};
ghost use Rattle.bc_data.specs.declared.run.Value.TheVariants as value;
ghost use Rattle.bc_data.specs.declared.run.TagRef.TheVariants as tag;
ghost use Rattle.bc_mean.specs.Execute.{method_frame, set_slot, set_tag, task_frame};

use bc_data::list::List;
use bc_data::program::{Method, Task};
use bc_data::run::{Invocation, TagRef, Value};
use std::alloc::{AllocError, Global};
use std::marker::Model;

/// The slots of the body that runs, and its tag variables.
#[derive(Drop)]
pub struct Frame {
    slots: List<Value>,
    tags: List<TagRef>,
}

/// How a statement ends: the next one follows, the method is left with a result or without, or the task is left.
#[derive(Clone, Copy, Drop)]
pub enum Flow {
    Goes,
    Returns(Option<Value>),
    Leaves,
}

/// The object and the arguments of a call.
#[derive(Drop)]
pub struct Operands {
    pub object: Value,
    pub arguments: List<Value>,
}

impl Model for Frame {
    ghost use Rattle.std.specs.Coded.{codes};
    ghost use Rattle.bc_mean.specs.Evaluate.{Frame as Meant};

    ghost Value = { Meant };

    ghost coded = { Prim.hlevel codes };

    ghost view = { λ f. record { slots = f.slots; tags = f.tags } };
}

/// A list up to this length, with this value behind it.
pub fn pad_values(list: &mut List<Value>, len: u32, value: Value) -> Result<(), AllocError>
    ensures { OnOk result (list.new ≡ list.old ++ replicate (len - length list.old) value) }
{
    while list.len() < len as usize {
        list.push(value)?;
    }
    Ok(())
}

fn pad_tags(list: &mut List<TagRef>, len: u32, tag: TagRef) -> Result<(), AllocError>
    ensures { OnOk result (list.new ≡ list.old ++ replicate (len - length list.old) tag) }
{
    while list.len() < len as usize {
        list.push(tag)?;
    }
    Ok(())
}

fn old_values(alloc: Global, ids: &[u32]) -> Result<List<Value>, AllocError>
    ensures { IfOk result (λ l. l ≡ map value.Old ids.now) }
{
    let mut list = List::new(alloc);
    for id in ids {
        list.push(Value::Old(*id))?;
    }
    Ok(list)
}

fn old_tags(alloc: Global, ids: &[u32]) -> Result<List<TagRef>, AllocError>
    ensures { IfOk result (λ l. l ≡ map tag.Old ids.now) }
{
    let mut list = List::new(alloc);
    for id in ids {
        list.push(TagRef::Old(*id))?;
    }
    Ok(list)
}

/// The first slots of a method: `this`, and then the arguments.
pub fn behind(x: Value, xs: List<Value>) -> Result<List<Value>, AllocError>
    ensures { IfOk result (λ l. l ≡ x ∷ xs) }
{
    let mut all = xs;
    all.insert(0, x)?;
    Ok(all)
}

impl Frame {
    /// The frame of a method's body: its first slots are `this` and the arguments.
    pub fn of_method(alloc: Global, m: &Method, first: List<Value>) -> Result<Self, AllocError>
        ensures { IfOk result (λ f. f ≡ method_frame m.now first) }
    {
        let mut slots = first;
        pad_values(&mut slots, m.locals(), Value::Int(0))?;
        Ok(Frame {
            slots,
            tags: List::new(alloc),
        })
    }

    /// The frame of a task's body: its first slots are its parameters.
    pub fn of_task(alloc: Global, t: &Task, v: &Invocation) -> Result<Self, AllocError>
        ensures { IfOk result (λ f. f ≡ task_frame t.now v.now) }
    {
        let mut slots = old_values(alloc, v.objects.as_slice())?;
        pad_values(&mut slots, t.locals(), Value::Int(0))?;
        let mut tags = old_tags(alloc, v.tags.as_slice())?;
        pad_tags(&mut tags, t.tags(), TagRef::New(0))?;
        Ok(Frame { slots, tags })
    }

    /// The value of a slot.
    pub fn slot(&self, slot: u32) -> Option<Value>
        ensures { result ≡ slice_get self.now.slots slot }
    {
        self.slots.get(slot as usize).copied()
    }

    /// The instance of a tag variable.
    pub fn tag(&self, variable: u32) -> Option<TagRef>
        ensures { result ≡ slice_get self.now.tags variable }
    {
        self.tags.get(variable as usize).copied()
    }

    pub fn set_slot(&mut self, slot: u32, value: Value)
        ensures { self.new ≡ set_slot self.old slot value }
    {
        let slot = slot as usize;
        if slot < self.slots.len() {
            self.slots[slot] = value;
        }
    }

    pub fn set_tag(&mut self, variable: u32, tag: TagRef)
        ensures { self.new ≡ set_tag self.old variable tag }
    {
        let variable = variable as usize;
        if variable < self.tags.len() {
            self.tags[variable] = tag;
        }
    }
}
