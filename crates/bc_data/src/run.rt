// Values, bodies, invocations and what an invocation does.

ghost use Rattle.std.specs.Prelude.{◌≡◌, IfOk};

use crate::ids::Ids;
use crate::list::{Bytes, List};
use std::alloc::{AllocError, Global};

/// A place in a text. Lines and columns count from 1, columns in bytes.
#[derive(Clone, Copy, Debug, PartialEq, Eq)]
pub struct Place {
    pub line: u32,
    pub column: u32,
}

/// The value of a variable, a cell or an expression. A number of `Old` is that of an object of the store, a
/// number of `New` that of an object that the invocation made.
#[derive(Clone, Copy, Debug, PartialEq, Eq)]
pub enum Value {
    Int(i32),
    Bool(bool),
    Null,
    Old(u32),
    New(u32),
}

/// A tag instance: one of the store, or one that the invocation made.
#[derive(Clone, Copy, Debug, PartialEq, Eq)]
pub enum TagRef {
    Old(u32),
    New(u32),
}

/// What an object is: of a class, or an array of `int`, of `bool` or of a class.
#[derive(Clone, Copy, Debug, PartialEq, Eq)]
pub enum Kind {
    Class(u32),
    Ints,
    Bools,
    Objects(u32),
}

/// An object's kind, its fields or elements, its flags as a mask, and its tag instances in the order of binding.
#[derive(Clone, Debug, Drop)]
pub struct Body {
    pub kind: Kind,
    pub cells: List<Value>,
    pub flags: u32,
    pub tags: List<TagRef>,
}

/// A task with the objects for its parameters and a tag instance for each of its tag variables.
#[derive(Clone, Copy, Debug, PartialEq, Eq)]
pub struct Invocation {
    pub task: u32,
    pub objects: Ids,
    pub tags: Ids,
}

/// The committed invocations, in order.
pub type History = List<Invocation>;

/// A new body for an object of the store.
#[derive(Clone, Debug, Drop)]
pub struct Written {
    pub id: u32,
    pub body: Body,
}

/// What an invocation changes: bodies of the store (ascending by number), new bodies, the types of new tag
/// instances, and the text that it prints.
#[derive(Clone, Debug, Drop)]
pub struct Changes {
    pub bodies: List<Written>,
    pub made: List<Body>,
    pub tags: List<u32>,
    pub text: Bytes,
}

/// Why an invocation is rolled back. The last four are faults of room at its commit.
#[derive(Clone, Copy, Debug, PartialEq, Eq)]
pub enum FaultKind {
    Null,
    Bounds,
    Zero,
    Assert,
    Size,
    Turns,
    Depth,
    Text,
    TagSlots,
    Objects,
    Cells,
    Tags,
    Output,
}

/// A fault and its place in the program's text.
#[derive(Clone, Copy, Debug, PartialEq, Eq)]
pub struct Fault {
    pub kind: FaultKind,
    pub at: Place,
}

/// An invocation that faulted, and its fault.
#[derive(Clone, Copy, Debug, PartialEq, Eq)]
pub struct Failure {
    pub v: Invocation,
    pub fault: Fault,
}

/// How an invocation ends.
#[derive(Clone, Debug, Drop)]
pub enum Ran {
    Commit(Changes),
    Faulted(Fault),
}

/// How an invocation ends, and the objects of the store that it touched, in order.
#[derive(Clone, Debug, Drop)]
pub struct Outcome {
    pub ran: Ran,
    pub touched: List<u32>,
}

/// Why a run stopped: nothing is left, the limit of commits, too many enabled invocations, or want of memory.
#[derive(Clone, Copy, Debug, PartialEq, Eq)]
pub enum Stop {
    End,
    Spent(Invocation),
    Crowded(Invocation),
    Memory,
}

impl Body {
    /// A body equal to this one.
    pub fn copy(&self, alloc: Global) -> Result<Self, AllocError>
        ensures { IfOk result (λ body. body ≡ self.now) }
    {
        Ok(Body {
            kind: self.kind,
            cells: List::from_slice(alloc, self.cells.as_slice())?,
            flags: self.flags,
            tags: List::from_slice(alloc, self.tags.as_slice())?,
        })
    }
}

impl Written {
    /// An equal one.
    pub fn copy(&self, alloc: Global) -> Result<Self, AllocError>
        ensures { IfOk result (λ written. written ≡ self.now) }
    {
        Ok(Written {
            id: self.id,
            body: self.body.copy(alloc)?,
        })
    }
}

impl Changes {
    /// Changes equal to these.
    pub fn copy(&self, alloc: Global) -> Result<Self, AllocError>
        ensures { IfOk result (λ changes. changes ≡ self.now) }
    {
        Ok(Changes {
            bodies: self.bodies.copy(alloc)?,
            made: self.made.copy(alloc)?,
            tags: self.tags.copy(alloc)?,
            text: self.text.copy(alloc)?,
        })
    }
}

impl Ran {
    /// An equal one.
    pub fn copy(&self, alloc: Global) -> Result<Self, AllocError>
        ensures { IfOk result (λ ran. ran ≡ self.now) }
    {
        match self {
            Ran::Commit(changes) => Ok(Ran::Commit(changes.copy(alloc)?)),
            Ran::Faulted(fault) => Ok(Ran::Faulted(*fault)),
        }
    }
}

impl Outcome {
    /// An equal one.
    pub fn copy(&self, alloc: Global) -> Result<Self, AllocError>
        ensures { IfOk result (λ outcome. outcome ≡ self.now) }
    {
        Ok(Outcome {
            ran: self.ran.copy(alloc)?,
            touched: self.touched.copy(alloc)?,
        })
    }
}
