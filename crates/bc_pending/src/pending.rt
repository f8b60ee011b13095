// The pending list.

ghost use Rattle.std.specs.Prelude.{◌≡◌, ℕ, ◌+◌, ◌<◌, ◌≤◌, ◌==◌, Bool, true, false, [], ◌++◌, All, length, filter, replicate, remove, slice_get, slice_set, option_to_list, IfOk, OnOk, IfSome, IfNone, IsSome, count_by};
ghost use Rattle.std.specs.List.{list_any};
ghost use Rattle.bc_mean.specs.Orders.{IsAscending};
ghost use Rattle.bc_mean.specs.Serial.{listed, same_invocation};
ghost use Rattle.bc_pending.specs.Lists.{Moves, HasObjects, held_by, is_held, is_allowed, names, stays};

use crate::keep::Keep;
use crate::search::{
    any_same, extend_in, held_count, keep_in, place_of_allowed, place_of_same, push_in, remove_in,
};
use bc_data::list::List;
use bc_data::run::Invocation;
use bc_data::task_set::TaskSet;
use bc_steps::Steps;
use bc_tally::tally::Tally;
use std::alloc::{AllocError, Global};
use std::collections::VecDeque;
use std::marker::Model;
use std::sync::ledger::Ledger;

/// The number of objects that are counted.
const OBJECTS: u32 = 65536;

/// A list of invocations and, for each worker, the one that it holds or none. One that is held keeps its room. How often
/// the listed ones name each object is counted, so that an object that none names is known at once.
#[derive(Drop)]
pub struct Pending {
    items: VecDeque<Invocation>,
    slots: Vec<Option<Invocation>>,
    named: Tally,
}

impl Model for Pending {
    ghost use Rattle.std.specs.Prelude.{◌+◌, ◌-◌, ◌≤◌, count_by, is_some};
    ghost use Rattle.std.specs.VecDeque.{deque_len, deque_capacity};
    ghost use Rattle.bc_tally.specs.Counts.{Counts};
    ghost use Rattle.bc_pending.specs.Lists.{Lists};
    ghost use Rattle.bc_pending.specs.Named.{named_in};

    ghost Value = { Lists };

    ghost view = { λ p. record { listed = p.items.items; held = p.slots.items; spare = deque_capacity p.items - (deque_len p.items + count_by is_some p.slots.items) } };

    ghost invariant = { λ p. (deque_len p.items + count_by is_some p.slots.items ≤ deque_capacity p.items) × Counts p.named (named_in p.items.items) };
}

/// Empty slots for this many workers.
fn empty_slots(alloc: Global, workers: u32) -> Result<Vec<Option<Invocation>>, AllocError>
    ensures { IfOk result (λ slots. slots.items ≡ replicate workers None) }
{
    let mut slots = Vec::new(alloc);
    for _ in 0..workers {
        slots.push(None)?;
    }
    Ok(slots)
}

impl Pending {
    /// The empty list, with none held.
    pub fn make(alloc: Global, workers: u32) -> Result<Self, AllocError>
        requires some { 1 ≤ workers }
        requires few { workers ≤ 16 }
        ensures { IfOk result (λ p. (p.listed ≡ []) × (p.held ≡ replicate workers None)) }
    {
        let slots = empty_slots(alloc, workers)?;
        Ok(Pending {
            items: VecDeque::new(alloc),
            slots,
            named: Tally::make(alloc, OBJECTS)?,
        })
    }

    /// Makes room for this many more.
    pub fn reserve(&mut self, n: usize) -> Result<(), AllocError>
        ensures room { OnOk result (n ≤ self.new.spare) }
        ensures listed { self.new.listed ≡ self.old.listed }
        ensures held { self.new.held ≡ self.old.held }
        ensures spare { self.old.spare ≤ self.new.spare }
    {
        let held = held_count(self.slots.as_slice());
        let Some(room) = n.checked_add(held) else {
            return Err(AllocError);
        };
        self.items.reserve(room)
    }

    /// Moves the listed one at this place to the worker.
    fn move_to(&mut self, at: usize, worker: u32)
        requires at { at < length self.old.listed }
        requires worker { worker < length self.old.held }
        requires free { held_by self.old.held worker ≡ None }
        ensures listed { self.new.listed ≡ remove self.old.listed at }
        ensures held { self.new.held ≡ slice_set self.old.held worker (slice_get self.old.listed at) }
        ensures spare { self.old.spare ≤ self.new.spare }
    {
        self.slots[worker as usize] = remove_in(&mut self.items, &mut self.named, at);
    }

    /// Moves the first listed one of an allowed task to the worker. `None` exactly where no listed one is of an
    /// allowed task; then nothing changes.
    pub fn take_first_of(&mut self, worker: u32, tasks: &TaskSet) -> Option<Invocation>
        requires worker { worker < length self.old.held }
        requires free { held_by self.old.held worker ≡ None }
        ensures some { IfSome result (λ v. Moves (is_allowed tasks.now) worker v self.old self.new) }
        ensures none { IfNone result (list_any (is_allowed tasks.now) self.old.listed ≡ false) }
        ensures unchanged { IfNone result (self.new ≡ self.old) }
    {
        let Some(at) = place_of_allowed(&self.items, tasks) else {
            return None;
        };
        self.move_to(at, worker);
        self.held(worker)
    }

    /// Moves this one to the worker. `true` exactly where it is listed; otherwise nothing changes.
    pub fn take_this(&mut self, worker: u32, v: Invocation) -> bool
        requires worker { worker < length self.old.held }
        requires free { held_by self.old.held worker ≡ None }
        ensures value { result ≡ listed self.old.listed v }
        ensures taken { result ≡ true → Moves (same_invocation v) worker v self.old self.new }
        ensures unchanged { result ≡ false → self.new ≡ self.old }
    {
        let Some(at) = place_of_same(&self.items, &v) else {
            return false;
        };
        self.move_to(at, worker);
        true
    }

    /// The one that the worker holds.
    pub fn held(&self, worker: u32) -> Option<Invocation>
        requires { worker < length self.now.held }
        ensures { result ≡ held_by self.now.held worker }
    {
        self.slots[worker as usize]
    }

    /// Whether this one is listed.
    pub fn has(&self, v: Invocation) -> bool
        ensures { result ≡ listed self.now.listed v }
    {
        any_same(&self.items, &v)
    }

    /// How many are listed.
    pub fn len(&self) -> usize
        ensures { result ≡ length self.now.listed }
    {
        self.items.len()
    }

    /// Whether none is listed.
    pub fn is_empty(&self) -> bool
        ensures { result ≡ (length self.now.listed == 0) }
    {
        self.items.is_empty()
    }

    /// Moves the one that the worker holds to the end of the list. It takes no memory.
    pub fn put_back(&mut self, worker: u32)
        requires worker { worker < length self.old.held }
        requires holds { IsSome (held_by self.old.held worker) }
        ensures listed { self.new.listed ≡ self.old.listed ++ option_to_list (held_by self.old.held worker) }
        ensures held { self.new.held ≡ slice_set self.old.held worker None }
        ensures spare { self.old.spare ≤ self.new.spare }
    {
        let slot = worker as usize;
        if let Some(v) = self.slots[slot] {
            self.slots[slot] = None;
            push_in(&mut self.items, &mut self.named, v);
        }
    }

    /// Drops the one that the worker holds.
    pub fn forget(&mut self, worker: u32)
        requires worker { worker < length self.old.held }
        requires holds { IsSome (held_by self.old.held worker) }
        ensures listed { self.new.listed ≡ self.old.listed }
        ensures held { self.new.held ≡ slice_set self.old.held worker None }
        ensures spare { self.old.spare ≤ self.new.spare }
    {
        self.slots[worker as usize] = None;
    }

    /// Drops exactly the listed ones that name the object and that the test doesn't keep; the others keep their
    /// order. Each listed one that names the object is a step.
    pub fn drop_of<T: Keep, L: Ledger>(&mut self, id: u32, test: &T, steps: &mut Steps<L>)
        ensures listed { self.new.listed ≡ filter (stays id (T.keeps test.now)) self.old.listed }
        ensures held { self.new.held ≡ self.old.held }
        ensures spare { self.old.spare ≤ self.new.spare }
        ensures steps { steps.new ≡ steps.old + count_by (names id) self.old.listed }
    {
        if self.named.is_none(id) {
            return;
        }
        keep_in(&mut self.items, &mut self.named, id, test, steps);
    }

    /// Appends these in order. There must be room for them. It takes no memory.
    pub fn append_sorted(&mut self, more: &List<Invocation>)
        requires ascending { IsAscending more.now }
        requires not_listed { All (λ v. listed self.old.listed v ≡ false) more.now }
        requires not_held { All (λ v. is_held self.old.held v ≡ false) more.now }
        requires objects { All HasObjects more.now }
        requires room { length more.now ≤ self.old.spare }
        ensures listed { self.new.listed ≡ self.old.listed ++ more.now }
        ensures held { self.new.held ≡ self.old.held }
        ensures spare { self.old.spare ≤ self.new.spare + length more.now }
    {
        extend_in(&mut self.items, &mut self.named, more.as_slice());
    }
}
