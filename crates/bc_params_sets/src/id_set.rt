// An ascending set of object numbers.

ghost use Rattle.std.specs.Prelude.{◌≡◌, ◌+◌, ◌≤◌, ◌==◌, ◌||◌, ◌&&◌, not, ℕ, [], OnOk};
ghost use Rattle.bc_params_sets.specs.Members.{has, IsRising, IsSought};

use std::alloc::{AllocError, Global};
use std::marker::Model;

/// A set of object numbers, ascending. Where there is room, one more goes in without memory.
#[derive(Drop)]
pub struct IdSet {
    items: Vec<u32>,
}

impl Model for IdSet {
    ghost use Rattle.std.specs.Prelude.{◌-◌, vec_len, vec_capacity};
    ghost use Rattle.bc_params_sets.specs.Members.{Members, IsRising};

    ghost Value = { Members };

    ghost view = { λ s. record { members = s.items.items; spare = vec_capacity s.items - vec_len s.items } };

    ghost invariant = { λ s. IsRising s.items.items };
}

/// The place of an object, or where it would stand.
fn find(items: &[u32], id: u32) -> Result<usize, usize>
    requires { IsRising items.now }
    ensures { IsSought items.now id result }
{
    items.binary_search(&id)
}

impl IdSet {
    /// The empty set.
    pub fn new(alloc: Global) -> Self
        ensures { result.members ≡ [] }
    {
        IdSet {
            items: Vec::new(alloc),
        }
    }

    /// Makes room for this many more. On `Err` memory was wanting; the set is as it was in each case.
    pub fn reserve(&mut self, n: usize) -> Result<(), AllocError>
        ensures room { OnOk result (n ≤ self.new.spare) }
        ensures members { self.new.members ≡ self.old.members }
        ensures spare { self.old.spare ≤ self.new.spare }
    {
        self.items.reserve(n)
    }

    /// Whether the object is in the set.
    pub fn contains(&self, id: u32) -> bool
        ensures { result ≡ has self.now.members id }
    {
        find(self.items.as_slice(), id).is_ok()
    }

    /// The objects, ascending.
    pub fn as_slice(&self) -> &[u32]
        ensures value { result.now ≡ self.now.members }
        ensures rising { IsRising self.now.members }
    {
        self.items.as_slice()
    }

    /// Puts an object in, if it isn't there. There must be room for it. It takes no memory.
    pub fn insert(&mut self, id: u32)
        requires { 1 ≤ self.old.spare }
        ensures members { (x : ℕ) → has self.new.members x ≡ (has self.old.members x || (id == x)) }
        ensures spare { self.old.spare ≤ self.new.spare + 1 }
    {
        if let Err(place) = find(self.items.as_slice(), id) {
            let _ = self.items.insert(place, id);
        }
    }

    /// Takes an object out, if it is there.
    pub fn remove(&mut self, id: u32)
        ensures members { (x : ℕ) → has self.new.members x ≡ (has self.old.members x && not (id == x)) }
        ensures spare { self.old.spare ≤ self.new.spare }
    {
        if let Ok(place) = find(self.items.as_slice(), id) {
            self.items.remove(place);
        }
    }
}
