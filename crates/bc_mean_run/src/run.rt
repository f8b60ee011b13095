// The work of one invocation.

ghost use Rattle.std.specs.Prelude.{◌≡◌, ◌+◌, ◌<◌, nat_le, [], length, slice_set, IfOk, IfSome, OnOk};
ghost use Rattle.bc_data.specs.declared.run.Body.{Body};
ghost use Rattle.bc_data.specs.declared.run.Ran.TheVariants as ran;
ghost use Rattle.bc_mean_run.specs.declared.halt.Halt.TheVariants as halt;
ghost use Rattle.bc_mean_run.specs.declared.halt.Interrupt.TheVariants as interrupt;
ghost use Rattle.bc_mean.specs.Store.{cells_in};
ghost use Rattle.bc_mean.specs.Work.{look_of, touch, newest, put, write, say, turn, enter, make, make_instance};
ghost use Rattle.bc_mean_run.specs.Tree.{Mirrors, found, object_seen, put_at};

use crate::halt::{Halt, Interrupt};
use bc_data::list::{Bytes, List};
use bc_data::run::{Body, Changes, Fault, FaultKind, Outcome, Place, Ran, Written};
use bc_mean::plain::Plain;
use std::alloc::{AllocError, Global};
use std::marker::Model;

/// What an invocation has done so far: its newest copies of objects, its new objects, the types of its new tag
/// instances, its text, the turns that it has left, and the objects of the store that it touched.
#[derive(Drop)]
pub struct Run {
    changed: List<Written>,
    made: List<Body>,
    instances: List<u32>,
    text: Bytes,
    turns: u32,
    touched: List<u32>,
}

/// An object: one of the store, or one that the invocation made.
#[derive(Clone, Copy)]
pub enum Object {
    Old(u32),
    New(u32),
}

impl Model for Run {
    ghost use Rattle.std.specs.Coded.{codes};
    ghost use Rattle.bc_mean.specs.Work.{Work};

    ghost Value = { Work };

    ghost coded = { Prim.hlevel codes };

    ghost view = { λ r. record { changed = r.changed; made = r.made; instances = r.instances; text = r.text; turns = r.turns; touched = r.touched } };
}

/// The interrupt of a fault.
pub fn fault(kind: FaultKind, at: Place) -> Interrupt
    ensures { result ≡ interrupt.Halted (halt.Faulted (record { kind = kind; at = at })) }
{
    Interrupt::Halted(Halt::Faulted(Fault { kind, at }))
}

// The newest copy of an object, or the body that it had.
fn newest<'a>(changed: &'a [Written], id: u32, body: &'a Body) -> &'a Body
    ensures { result.now ≡ newest changed.now id body.now }
{
    for written in changed {
        if written.id == id {
            return &written.body;
        }
    }
    body
}

// The place of the first copy of this object.
fn place_of(changed: &[Written], id: u32) -> Option<usize>
    ensures within { IfSome result (λ i. i < length changed.now) }
    ensures place { (b : Body) → put id b changed.now ≡ put_at changed.now result (record { id = id; body = b }) }
{
    let mut i = 0;
    for written in changed {
        if written.id == id {
            return Some(i);
        }
        i += 1;
    }
    None
}

// An object's copy takes the place of the one before, or stands at the end.
fn put(changed: &mut List<Written>, id: u32, body: Body) -> Result<(), AllocError>
    ensures { OnOk result (changed.new ≡ put id body changed.old) }
{
    match place_of(changed.as_slice(), id) {
        Some(i) => changed[i] = Written { id, body },
        None => changed.push(Written { id, body })?,
    }
    Ok(())
}

fn set_body(made: &mut List<Body>, n: u32, body: Body)
    ensures { made.new ≡ slice_set made.old n body }
{
    let n = n as usize;
    if n < made.len() {
        made[n] = body;
    }
}

/// Whether so many cells more are within the limit.
pub fn has_room(bodies: &[Body], more: usize, limit: usize) -> bool
    ensures { result ≡ nat_le (cells_in bodies.now + more) limit }
{
    if more > limit {
        return false;
    }
    let mut room = limit - more;
    for body in bodies {
        if body.cells.len() > room {
            return false;
        }
        room -= body.cells.len();
    }
    true
}

impl Run {
    /// Nothing done, with so many turns, and these objects touched.
    pub fn new(alloc: Global, turns: u32, objects: &[u32]) -> Result<Self, AllocError>
        ensures { IfOk result (λ r. r ≡ record { changed = []; made = []; instances = []; text = []; turns = turns; touched = objects.now }) }
    {
        Ok(Run {
            changed: List::new(alloc),
            made: List::new(alloc),
            instances: List::new(alloc),
            text: Bytes::new(alloc),
            turns,
            touched: List::from_slice(alloc, objects)?,
        })
    }

    /// An object of the store that is touched joins the list at its end, unless it is there.
    pub fn touch(&mut self, id: u32) -> Result<(), AllocError>
        ensures { OnOk result (self.new ≡ touch id self.old) }
    {
        if !self.touched.contains(&id) {
            self.touched.push(id)?;
        }
        Ok(())
    }

    /// The body of an object, as the invocation sees it.
    pub fn found<'a>(&'a self, store: &'a Plain, object: Object) -> Result<&'a Body, Interrupt>
        ensures { Mirrors result (λ b. record { object = object_seen object; body = b.now }) self.now (found (look_of store.now) (object_seen object) self.now) }
    {
        match object {
            Object::Old(id) => match store.bodies.get(id as usize) {
                Some(body) => Ok(newest(self.changed.as_slice(), id, body)),
                None => Err(Interrupt::Halted(Halt::Missing(id))),
            },
            Object::New(n) => match self.made.get(n as usize) {
                Some(body) => Ok(body),
                None => Err(Interrupt::Halted(Halt::Wrong)),
            },
        }
    }

    /// An object gets this body.
    pub fn write(&mut self, object: Object, body: Body) -> Result<(), Interrupt>
        ensures { Mirrors result (λ _. tt) self.new (write (object_seen object) body self.old) }
    {
        match object {
            Object::Old(id) => put(&mut self.changed, id, body)?,
            Object::New(n) => set_body(&mut self.made, n, body),
        }
        Ok(())
    }

    /// More of the invocation's text.
    pub fn say(&mut self, at: Place, bytes: &[u8]) -> Result<(), Interrupt>
        ensures { Mirrors result (λ _. tt) self.new (say at bytes.now self.old) }
    {
        if self.text.len() > 65536 || bytes.len() > 65536 - self.text.len() {
            return Err(fault(FaultKind::Text, at));
        }
        self.text.extend_from_slice(bytes)?;
        Ok(())
    }

    /// One turn more, if one is left.
    pub fn turn(&mut self, at: Place) -> Result<(), Interrupt>
        ensures { Mirrors result (λ _. tt) self.new (turn at self.old) }
    {
        if self.turns == 0 {
            return Err(fault(FaultKind::Turns, at));
        }
        self.turns -= 1;
        Ok(())
    }

    /// A call within so many others.
    pub fn enter(&mut self, at: Place, depth: u32) -> Result<(), Interrupt>
        ensures answers { Mirrors result (λ _. tt) self.new (enter at depth self.old) }
        ensures below { OnOk result (depth < 100) }
    {
        self.turn(at)?;
        if depth < 100 {
            Ok(())
        } else {
            Err(fault(FaultKind::Depth, at))
        }
    }

    /// A new object, within the sizes that an invocation has.
    pub fn make(&mut self, at: Place, body: Body) -> Result<u32, Interrupt>
        ensures { Mirrors result (λ n. n) self.new (make at body self.old) }
    {
        let count = self.made.len();
        if count < 65536 && has_room(self.made.as_slice(), body.cells.len(), 4194304) {
            self.made.push(body)?;
            Ok(count as u32)
        } else {
            Err(fault(FaultKind::Size, at))
        }
    }

    /// A new tag instance of this type.
    pub fn make_instance(&mut self, at: Place, tag_type: u32) -> Result<u32, Interrupt>
        ensures { Mirrors result (λ n. n) self.new (make_instance at tag_type self.old) }
    {
        let count = self.instances.len();
        if count < 65536 {
            self.instances.push(tag_type)?;
            Ok(count as u32)
        } else {
            Err(fault(FaultKind::Size, at))
        }
    }

    /// The newest copy of an object, or the body that it had.
    pub fn newest<'a>(&'a self, id: u32, body: &'a Body) -> &'a Body
        ensures { result.now ≡ newest self.now.changed id body.now }
    {
        newest(self.changed.as_slice(), id, body)
    }

    /// The outcome of an exit that changes these bodies.
    pub fn into_outcome(self, bodies: List<Written>) -> Outcome
        ensures { result ≡ record { ran = ran.Commit (record { bodies = bodies; made = self.made; tags = self.instances; text = self.text }); touched = self.touched } }
    {
        let Run {
            changed: _,
            made,
            instances,
            text,
            turns: _,
            touched,
        } = self;
        Outcome {
            ran: Ran::Commit(Changes {
                bodies,
                made,
                tags: instances,
                text,
            }),
            touched,
        }
    }

    /// The objects of the store that it touched.
    pub fn into_touched(self) -> List<u32>
        ensures { result ≡ self.touched }
    {
        self.touched
    }
}
