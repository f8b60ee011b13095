// The failures.

ghost use Rattle.std.specs.Prelude.{◌≡◌, ◌+◌, ◌<◌, ◌≤◌, Bool, true, false, [], ◌∷◌, ◌++◌, All, length, filter, map, take, IfOk, OnOk, count_by, vec_len, vec_capacity};
ghost use Rattle.bc_mean.specs.Enabled.{are_different};
ghost use Rattle.bc_mean.specs.Serial.{has_failure};
ghost use Rattle.bc_failed.specs.Records.{touches, leaves};
ghost use Rattle.bc_failed.specs.Ordered.{ordered};

use crate::entry::Record;
use crate::order::{all_ordered, drop_in, invocations, touching_ordered};
use bc_data::list::List;
use bc_data::run::{Failure, Fault, Invocation};
use bc_steps::Steps;
use bc_tally::tally::Tally;
use std::alloc::{AllocError, Global};
use std::marker::Model;
use std::sync::ledger::Ledger;

/// The invocations that faulted, in the order in which they came, each with the objects that it touched. There are at
/// most 262,144.
#[derive(Drop)]
pub struct Failures {
    items: Vec<Record>,
    /// How often each object was touched, so that there is no search for one that none touched.
    named: Tally,
}

impl Model for Failures {
    ghost use Rattle.std.specs.Prelude.{◌-◌, ◌≤◌, vec_len, vec_capacity};
    ghost use Rattle.bc_tally.specs.Counts.{Counts};
    ghost use Rattle.bc_failed.specs.Records.{Records};
    ghost use Rattle.bc_failed.specs.Touched.{touched_in};

    ghost Value = { Records };

    ghost view = { λ f. record { failures = f.items.items; spare = vec_capacity f.items - vec_len f.items } };

    ghost invariant = { λ f. (vec_len f.items ≤ 262144) × Counts f.named (touched_in f.items.items) };
}

/// The objects that are counted are below this.
const OBJECTS: u32 = 65_536;

fn push_in(items: &mut Vec<Record>, entry: Record)
    requires { vec_len items.old + 1 ≤ vec_capacity items.old }
    ensures items { items.new.items ≡ items.old.items ++ entry ∷ [] }
    ensures len { vec_len items.new ≡ vec_len items.old + 1 }
    ensures capacity { vec_capacity items.old ≤ vec_capacity items.new }
{
    let _ = items.push(entry);
}

impl Failures {
    /// No failures.
    pub fn make(alloc: Global) -> Result<Self, AllocError>
        ensures { IfOk result (λ f. f.failures ≡ []) }
    {
        let named = Tally::make(alloc, OBJECTS)?;
        Ok(Failures {
            items: Vec::new(alloc),
            named,
        })
    }

    /// Makes room for a failure that touched this many objects.
    pub fn reserve(&mut self, touched: usize) -> Result<(), AllocError>
        ensures room { OnOk result (touched ≤ self.new.spare) }
        ensures failures { self.new.failures ≡ self.old.failures }
        ensures spare { self.old.spare ≤ self.new.spare }
    {
        self.items.reserve(touched)
    }

    /// Adds a failure. There must be room for it. It takes no memory.
    pub fn add(&mut self, v: Invocation, fault: Fault, touched: List<u32>)
        requires new { has_failure self.old.failures v ≡ false }
        requires few { length self.old.failures < 262144 }
        requires some { 1 ≤ length touched }
        requires different { are_different touched ≡ true }
        requires below { All (λ id. id < 65536) touched }
        requires room { length touched ≤ self.old.spare }
        ensures failures { self.new.failures ≡ self.old.failures ++ record { v = v; fault = fault; touched = touched } ∷ [] }
        ensures spare { self.old.spare ≤ self.new.spare + length touched }
    {
        self.named.add(touched.as_slice());
        push_in(&mut self.items, Record::new(v, fault, touched));
    }

    /// Whether the counts say that no failure touched the object.
    fn none_touched(&self, id: u32) -> bool
        ensures { result ≡ true → count_by (touches id) self.now.failures ≡ 0 }
    {
        self.named.is_none(id)
    }

    /// The invocations whose failure touched the object, ascending.
    pub fn touching(&self, alloc: Global, id: u32) -> Result<List<Invocation>, AllocError>
        ensures { IfOk result (λ vs. vs ≡ map (λ f. f.v) (ordered (filter (touches id) self.now.failures))) }
    {
        if self.none_touched(id) {
            return Ok(List::new(alloc));
        }
        let found = touching_ordered(alloc, self.items.as_slice(), id)?;
        Ok(List::from_vec(invocations(alloc, found.as_slice())?))
    }

    /// Drops exactly the failures that touched the object; the others keep their order. Each one dropped is a step.
    pub fn drop_touching<L: Ledger>(&mut self, id: u32, steps: &mut Steps<L>)
        ensures failures { self.new.failures ≡ filter (leaves id) self.old.failures }
        ensures spare { self.old.spare ≤ self.new.spare }
        ensures steps { steps.new ≡ steps.old + count_by (touches id) self.old.failures }
    {
        if self.none_touched(id) {
            return;
        }
        drop_in(&mut self.items, &mut self.named, id, steps);
    }

    /// Whether there is a failure of this invocation.
    pub fn has(&self, v: Invocation) -> bool
        ensures { result ≡ has_failure self.now.failures v }
    {
        self.items.iter().any(|entry| entry.is_of(&v))
    }

    /// How many failures there are.
    pub fn count(&self) -> u32
        ensures value { result ≡ length self.now.failures }
        ensures few { length self.now.failures ≤ 262144 }
    {
        self.items.len() as u32
    }

    /// The first `n` failures by invocation, ascending.
    pub fn least(&self, alloc: Global, n: usize) -> Result<List<Failure>, AllocError>
        ensures { IfOk result (λ fs. fs ≡ take n (ordered self.now.failures)) }
    {
        let mut found = all_ordered(alloc, self.items.as_slice())?;
        found.truncate(n);
        Ok(List::from_vec(found))
    }
}
