// The store.

ghost use Rattle.std.specs.Prelude.{◌≡◌, ◌<◌, ◌≤◌, length, slice_get, Some, IfOk, OnOk};
ghost use Rattle.bc_mean.specs.Changes.{fault_of_room};
ghost use Rattle.bc_mean.specs.Store.{start_store};
ghost use Rattle.bc_store.specs.Resolved.{put_in};
ghost use Rattle.bc_store.specs.Store.{KeepsLimits, CanPublish, HasSpare, KeepsSpare, UsesSpare};

use crate::startup::start_bodies;
use crate::vectors::{append_in, cells_of, place};
use bc_data::run::{Body, Changes, FaultKind};
use std::alloc::{AllocError, Global};
use std::marker::Model;

/// The most objects of a store.
const MOST_OBJECTS: usize = 65_536;

/// The most cells of all its objects together.
const MOST_CELLS: usize = 4_194_304;

/// The most tag instances.
const MOST_INSTANCES: usize = 65_536;

/// The most bytes of output.
const MOST_BYTES: usize = 16_777_216;

/// A store that keeps its limits, with the sum of its cells. The memory for changes is reserved before they are
/// published.
#[derive(Drop)]
pub struct Store {
    bodies: Vec<Body>,
    cells: usize,
    tags: Vec<u32>,
    output: Vec<u8>,
}

impl Model for Store {
    ghost use Rattle.std.specs.Prelude.{◌≡◌, ◌-◌, vec_len, vec_capacity};
    ghost use Rattle.bc_mean.specs.Store.{cells_in};
    ghost use Rattle.bc_store.specs.Store.{StoreParts, KeepsLimits};

    ghost Value = { StoreParts };

    ghost view = { λ s. record {
      plain = record { bodies = s.bodies.items; tags = s.tags.items; output = s.output.items };
      spare = record {
        objects = vec_capacity s.bodies - vec_len s.bodies;
        instances = vec_capacity s.tags - vec_len s.tags;
        bytes = vec_capacity s.output - vec_len s.output;
      };
    } };

    ghost invariant = { λ s. (s.cells ≡ cells_in s.bodies.items) × KeepsLimits (record { bodies = s.bodies.items; tags = s.tags.items; output = s.output.items }) };
}

impl Store {
    /// The store at the start of a run on this input.
    pub fn make(alloc: Global, input: &[u8]) -> Result<Self, AllocError>
        requires { length input.now ≤ 65536 }
        ensures { IfOk result (λ s. s.plain ≡ start_store input.now) }
    {
        let bodies = start_bodies(alloc, input)?;
        Ok(Store {
            bodies,
            cells: 1 + input.len(),
            tags: Vec::new(alloc),
            output: Vec::new(alloc),
        })
    }

    /// How many objects there are. The store keeps its limits.
    pub fn objects(&self) -> u32
        ensures value { result ≡ length self.now.plain.bodies }
        ensures limits { KeepsLimits self.now.plain }
    {
        self.bodies.len() as u32
    }

    /// The types of the tag instances.
    pub fn tags(&self) -> &[u32]
        ensures { result.now ≡ self.now.plain.tags }
    {
        self.tags.as_slice()
    }

    /// The body of an object.
    pub fn body(&self, id: u32) -> &Body
        requires { id < length self.now.plain.bodies }
        ensures { Some result.now ≡ slice_get self.now.plain.bodies id }
    {
        &self.bodies[id as usize]
    }

    /// What was printed.
    pub fn output(&self) -> &[u8]
        ensures { result.now ≡ self.now.plain.output }
    {
        self.output.as_slice()
    }

    /// The first sum that would pass its limit with these changes, if there is one.
    pub fn room_for(&self, changes: &Changes) -> Option<FaultKind>
        ensures { result ≡ fault_of_room self.now.plain changes.now }
    {
        if changes.made.len() > MOST_OBJECTS - self.bodies.len() {
            return Some(FaultKind::Objects);
        }
        if cells_of(changes.made.as_slice()) > MOST_CELLS - self.cells {
            return Some(FaultKind::Cells);
        }
        if changes.tags.len() > MOST_INSTANCES - self.tags.len() {
            return Some(FaultKind::Tags);
        }
        if changes.text.len() > MOST_BYTES - self.output.len() {
            return Some(FaultKind::Output);
        }
        None
    }

    /// Reserves the memory that these changes take. On `Err` memory was wanting; the store is as it was in each case.
    pub fn reserve_for(&mut self, changes: &Changes) -> Result<(), AllocError>
        ensures room { OnOk result (HasSpare self.new.spare changes.now) }
        ensures plain { self.new.plain ≡ self.old.plain }
        ensures spare { KeepsSpare self.old.spare self.new.spare }
    {
        self.bodies.reserve(changes.made.len())?;
        self.tags.reserve(changes.tags.len())?;
        self.output.reserve(changes.text.len())
    }

    /// Puts changes into the store as they stand. There must be room and memory for them. It takes no memory.
    pub(crate) fn put(&mut self, changes: Changes)
        requires publish { CanPublish self.old.plain changes }
        requires spare { HasSpare self.old.spare changes }
        ensures plain { self.new.plain ≡ put_in self.old.plain changes }
        ensures spare { UsesSpare self.old.spare self.new.spare changes }
    {
        let Changes {
            bodies,
            made,
            tags,
            text,
        } = changes;
        self.cells += cells_of(made.as_slice());
        place(&mut self.bodies, bodies);
        append_in(&mut self.bodies, made);
        append_in(&mut self.tags, tags);
        append_in(&mut self.output, text);
    }
}
