// The private copies of an invocation.

ghost use Rattle.std.specs.Prelude.{◌≡◌, ◌+◌, ◌≤◌, ◌==◌, true, false, [], ◌∷◌, ◌++◌, length, slice_get, Some, None, IfOk, IfSome, IfNone, OnOk, OnErr};
ghost use Rattle.std.specs.List.{list_any};
ghost use Rattle.bc_data.specs.declared.run.Body.{Body};
ghost use Rattle.bc_mean.specs.Changes.{changes_between};
ghost use Rattle.bc_mean.specs.Enabled.{are_different};
ghost use Rattle.bc_mean.specs.declared.plain.Plain.{Plain};
ghost use Rattle.bc_code.specs.Given.{given_look, ids_of};
ghost use Rattle.bc_step.specs.Area.{AgreesWith, FitsMask, HasNow, IsFresh, IsSame, MakesInstance, MakesObject, SaysText, body_in, copies_of, edited, emptied, given_of, room_of, work_with};

use crate::body::Edit;
use crate::created::Created;
use crate::held::Holdings;
use bc_data::ids::Ids;
use bc_data::list::{Bytes, List};
use bc_data::run::{Body, Changes, Fault, Invocation};
use std::alloc::{AllocError, Global};
use std::marker::Model;

/// An invocation makes at most so many tag instances.
const MOST_INSTANCES: usize = 65_536;

/// Its text has at most so many bytes.
const MOST_TEXT: usize = 65_536;

/// An object: one of the store, or one that the invocation made.
#[derive(Clone, Copy, Debug, PartialEq, Eq)]
pub enum ObjectRef {
    Old(u32),
    New(u32),
}

/// How an invocation ended.
#[derive(Clone, Copy, Debug, PartialEq, Eq)]
pub enum End {
    Exit,
    Fault(Fault),
}

/// The bodies given to an invocation, a private copy of each object from its first write on, the objects and
/// instances that it made, its text, and how it ended.
#[derive(Drop)]
pub struct Area {
    invocation: Invocation,
    holdings: Holdings,
    created: Created,
    instances: List<u32>,
    text: Bytes,
    end: Option<End>,
}

impl Model for Area {
    ghost use Rattle.bc_step.specs.Area.{AreaParts};

    ghost Value = { AreaParts };

    ghost view = { λ a. record {
      invocation = a.invocation;
      held = a.holdings.held;
      made = a.created;
      instances = a.instances;
      text = a.text;
      end = a.end;
      spare = a.holdings.spare;
    } };
}

impl Area {
    /// An invocation without objects, to which nothing is given. It takes no memory.
    pub fn idle(alloc: Global) -> Self
        ensures { IsFresh (record { task = 0; objects = []; tags = [] }) [] result }
    {
        Area {
            invocation: Invocation {
                task: 0,
                objects: Ids::none(),
                tags: Ids::none(),
            },
            holdings: Holdings::new(alloc),
            created: Created::new(alloc),
            instances: List::new(alloc),
            text: Bytes::new(alloc),
            end: None,
        }
    }

    /// Goes to another invocation before its first instruction, in the memory that it has: the objects of its
    /// parameters are given. Each takes the room of one that was given before, or was reserved. After want of memory
    /// nothing is given.
    pub fn restart(&mut self, v: Invocation, bodies: List<Body>) -> Result<(), AllocError>
        requires different { are_different v.objects ≡ true }
        requires each { length bodies ≡ length v.objects }
        ensures ok { OnOk result (IsFresh v bodies self.new) }
        ensures err { OnErr result (self.new.held ≡ []) }
        ensures room { room_of self.old ≤ room_of self.new }
    {
        self.clear();
        self.invocation = v;
        self.holdings.refill(v.objects.as_slice(), bodies)
    }

    /// An invocation before its first instruction: the objects of its parameters are given.
    pub fn new(alloc: Global, v: Invocation, bodies: List<Body>) -> Result<Self, AllocError>
        requires different { are_different v.objects ≡ true }
        requires each { length bodies ≡ length v.objects }
        ensures { IfOk result (IsFresh v bodies) }
    {
        let mut area = Area::idle(alloc);
        area.restart(v, bodies)?;
        Ok(area)
    }

    /// Whether the object was given.
    #[inline]
    pub fn has(&self, id: u32) -> bool
        ensures { result ≡ list_any (λ other. other == id) (ids_of (given_of self.now.held)) }
    {
        self.holdings.has(id)
    }

    /// Makes room for one object more that is given. Nothing else changes.
    pub fn reserve_given(&mut self) -> Result<(), AllocError>
        ensures room { OnOk result (1 ≤ self.new.spare) }
        ensures same { self.new ≡ record self.old { spare = self.new.spare } }
        ensures spare { self.old.spare ≤ self.new.spare }
    {
        self.holdings.reserve()
    }

    /// Gives an object. There must be room for it. It takes no memory.
    pub fn give(&mut self, id: u32, body: Body)
        requires new { list_any (λ other. other == id) (ids_of (given_of self.old.held)) ≡ false }
        requires room { 1 ≤ self.old.spare }
        ensures given { self.new ≡ record self.old {
          held = self.old.held ++ record { id = id; body = body; copy = None } ∷ [];
          spare = self.new.spare;
        } }
        ensures spare { self.old.spare ≤ self.new.spare + 1 }
    {
        self.holdings.give(id, body);
    }

    /// The body of an object as the invocation sees it.
    pub fn body(&self, object: ObjectRef) -> &Body
        requires { (b : Body) × (body_in self.now object ≡ Some b) }
        ensures { Some result.now ≡ body_in self.now object }
    {
        match self.body_of(object) {
            Some(body) => body,
            None => unreachable!(),
        }
    }

    /// The objects that were given, in order.
    pub fn touched(&self) -> &[u32]
        ensures { result.now ≡ ids_of (given_of self.now.held) }
    {
        self.holdings.ids()
    }

    /// The body that was given of an object.
    pub fn given(&self, id: u32) -> &Body
        requires { (b : Body) × (given_look (given_of self.now.held) id ≡ Some b) }
        ensures { Some result.now ≡ given_look (given_of self.now.held) id }
    {
        match self.holdings.given(id) {
            Some(body) => body,
            None => unreachable!(),
        }
    }

    /// Takes all out that was given and done. The invocation and the room stay.
    pub fn clear(&mut self)
        ensures cleared { self.new ≡ emptied self.old self.new.spare }
        ensures room { room_of self.old ≤ self.new.spare }
    {
        self.holdings.clear();
        self.created.clear();
        self.instances.clear();
        self.text.clear();
        self.end = None;
    }

    /// What the invocation changes in a store with the bodies that were given.
    pub fn changes(&self, alloc: Global) -> Result<Changes, AllocError>
        ensures { IfOk result (λ c. (S : Plain)
            → AgreesWith S (given_of self.now.held)
            → c ≡ changes_between S (work_with self.now 0 (copies_of self.now.held) [])) }
    {
        Ok(Changes {
            bodies: self.holdings.written(alloc)?,
            made: self.created.copy(alloc)?,
            tags: List::from_slice(alloc, self.instances.as_slice())?,
            text: Bytes::from_slice(alloc, self.text.as_slice())?,
        })
    }

    /// The body of an object as the invocation sees it, if the object is there.
    #[inline]
    pub(crate) fn body_of(&self, object: ObjectRef) -> Option<&Body>
        ensures some { IfSome result (λ b. body_in self.now object ≡ Some b.now) }
        ensures none { IfNone result (body_in self.now object ≡ None) }
    {
        match object {
            ObjectRef::Old(id) => self.holdings.body(id),
            ObjectRef::New(n) => self.created.get(n),
        }
    }

    /// The object of a parameter.
    #[inline]
    pub(crate) fn parameter(&self, p: u32) -> Option<u32>
        ensures { result ≡ slice_get self.now.invocation.objects p }
    {
        self.invocation.objects.get(p as usize)
    }

    /// Writes into an object. After want of memory nothing changed.
    #[inline]
    pub(crate) fn edit(
        &mut self,
        alloc: Global,
        object: ObjectRef,
        edit: Edit,
    ) -> Result<(), AllocError>
        requires there { (b : Body) × (body_in self.old object ≡ Some b) }
        requires fits { FitsMask edit }
        ensures ok { OnOk result ((b : Body)
            → body_in self.old object ≡ Some b → HasNow self.old self.new object (edited edit b)) }
        ensures err { OnErr result (IsSame self.old self.new) }
    {
        match object {
            ObjectRef::Old(id) => self.holdings.edit(alloc, id, edit),
            ObjectRef::New(n) => self.created.edit(n, edit),
        }
    }

    /// Makes an object and gives its number, or gives `None` where there is no room for it.
    pub(crate) fn make(&mut self, body: Body) -> Result<Option<u32>, AllocError>
        ensures ok { IfOk result (λ n. MakesObject n body self.old self.new) }
        ensures err { OnErr result (self.new ≡ self.old) }
    {
        self.created.make(body)
    }

    /// Makes a tag instance and gives its number, or gives `None` where there is no room for it.
    pub(crate) fn make_instance(&mut self, tag_type: u32) -> Result<Option<u32>, AllocError>
        ensures ok { IfOk result (λ n. MakesInstance n tag_type self.old self.new) }
        ensures err { OnErr result (self.new ≡ self.old) }
    {
        let n = self.instances.len();
        if n >= MOST_INSTANCES {
            return Ok(None);
        }
        self.instances.push(tag_type)?;
        Ok(Some(n as u32))
    }

    /// Appends to the text, and gives `false` where it would be too long.
    pub(crate) fn say(&mut self, bytes: &[u8]) -> Result<bool, AllocError>
        ensures ok { IfOk result (λ said. SaysText said bytes.now self.old self.new) }
        ensures err { OnErr result (self.new ≡ self.old) }
    {
        let len = self.text.len();
        if len > MOST_TEXT || bytes.len() > MOST_TEXT - len {
            return Ok(false);
        }
        self.text.extend_from_slice(bytes)?;
        Ok(true)
    }

    /// Notes how the invocation ended.
    pub(crate) fn set_end(&mut self, end: End)
        ensures { self.new ≡ record self.old { end = Some end } }
    {
        self.end = Some(end);
    }
}
