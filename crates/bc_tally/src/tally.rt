// How often each object is named.

ghost use Rattle.std.specs.Prelude.{◌≡◌, ◌++◌, ◌==◌, ℕ, List, [], All, length, slice_index_or, IfOk};
ghost use Rattle.bc_tally.specs.Counts.{Counts};

use crate::counts::{lower_all, raise_all, zeros};
use std::alloc::{AllocError, Global};
use std::marker::Model;

/// For each object below some number, how often it is named by lists of objects that were added and not removed since. A count
/// that has come to the end of its type stays there, and tells nothing then.
#[derive(Drop)]
pub struct Tally {
    counts: Vec<u32>,
}

impl Model for Tally {
    ghost use Rattle.std.specs.Prelude.{ℕ, List};

    ghost Value = { List ℕ };

    ghost view = { λ t. t.counts.items };
}

impl Tally {
    /// Counts of the objects below this number, which no list names yet.
    pub fn make(alloc: Global, objects: u32) -> Result<Self, AllocError>
        ensures objects { IfOk result (λ t. length t ≡ objects) }
        ensures zero { IfOk result (All (λ n. n ≡ 0)) }
        ensures counts { IfOk result (λ t. Counts t []) }
    {
        Ok(Tally {
            counts: zeros(alloc, objects)?,
        })
    }

    /// Whether the object is counted and no list names it.
    pub fn is_none(&self, id: u32) -> bool
        ensures { result ≡ (slice_index_or self.now id 1 == 0) }
    {
        self.counts.get(id as usize) == Some(&0)
    }

    /// Adds a list of objects. Those that aren't counted are passed over. It takes no memory.
    pub fn add(&mut self, ids: &[u32])
        ensures { (before after : List ℕ) → Counts self.old (before ++ after) → Counts self.new (before ++ (ids.now ++ after)) }
    {
        raise_all(self.counts.as_mut_slice(), ids);
    }

    /// Removes a list of objects that was added.
    pub fn remove(&mut self, ids: &[u32])
        ensures { (before after : List ℕ) → Counts self.old (before ++ (ids.now ++ after)) → Counts self.new (before ++ after) }
    {
        lower_all(self.counts.as_mut_slice(), ids);
    }
}
