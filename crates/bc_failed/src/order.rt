// Failures in the order of invocations.

ghost use Rattle.std.specs.Prelude.{◌≡◌, ℕ, ◌+◌, ◌≤◌, List, ◌++◌, filter, map, count_by, vec_len, vec_capacity, OnOk, IfOk, if◌then◌else◌};
ghost use Rattle.bc_mean.specs.Orders.{invocation_cmp};
ghost use Rattle.bc_tally.specs.Counts.{Counts};
ghost use Rattle.bc_failed.specs.Records.{touches, leaves};
ghost use Rattle.bc_failed.specs.Ordered.{failure_of, in_order, ordered};
ghost use Rattle.bc_failed.specs.Touched.{touched_in};

use crate::entry::Record;
use bc_data::run::{Failure, Invocation};
use bc_steps::Steps;
use bc_tally::tally::Tally;
use std::alloc::{AllocError, Global};
use std::cmp::Ordering;
use std::sync::ledger::Ledger;

fn compare(v: &Invocation, w: &Invocation) -> Ordering
    ensures { result ≡ invocation_cmp v.now w.now }
{
    let objects = v.objects.as_slice().cmp(w.objects.as_slice());
    let tags = v.tags.as_slice().cmp(w.tags.as_slice());
    v.task.cmp(&w.task).then(objects.then(tags))
}

/// Sorts them by invocation.
fn sort(found: &mut Vec<Failure>) -> Result<(), AllocError>
    ensures { OnOk result (found.new.items ≡ in_order found.old.items) }
{
    found.sort_by(|f, g| compare(&f.v, &g.v))?;
    Ok(())
}

fn failures_of(alloc: Global, records: &[Record]) -> Result<Vec<Failure>, AllocError>
    ensures { IfOk result (λ found. found.items ≡ map failure_of records.now) }
{
    records.iter().map(|entry| entry.failure()).collect(alloc)
}

fn touching_of(alloc: Global, records: &[Record], id: u32) -> Result<Vec<Failure>, AllocError>
    ensures { IfOk result (λ found. found.items ≡ map failure_of (filter (touches id) records.now)) }
{
    records
        .iter()
        .filter(|entry| entry.touches(id))
        .map(|entry| entry.failure())
        .collect(alloc)
}

/// All of them, ascending.
pub fn all_ordered(alloc: Global, records: &[Record]) -> Result<Vec<Failure>, AllocError>
    ensures { IfOk result (λ found. found.items ≡ ordered records.now) }
{
    let mut found = failures_of(alloc, records)?;
    sort(&mut found)?;
    Ok(found)
}

/// Those that touched the object, ascending.
pub fn touching_ordered(
    alloc: Global,
    records: &[Record],
    id: u32,
) -> Result<Vec<Failure>, AllocError>
    ensures { IfOk result (λ found. found.items ≡ ordered (filter (touches id) records.now)) }
{
    let mut found = touching_of(alloc, records, id)?;
    sort(&mut found)?;
    Ok(found)
}

/// Whether it stays. The objects of one that goes are taken out of the counts.
fn is_left<L: Ledger>(entry: &Record, id: u32, named: &mut Tally, steps: &mut Steps<L>) -> bool
    ensures value { result ≡ leaves id entry.now }
    ensures named { (before after : List ℕ) → Counts named.old (before ++ (entry.now.touched ++ after)) → Counts named.new (before ++ (if touches id entry.now then after else entry.now.touched ++ after)) }
    ensures steps { steps.new ≡ (if touches id entry.now then steps.old + 1 else steps.old) }
{
    let stays = entry.stays(id, steps);
    if !stays {
        named.remove(entry.touched());
    }
    stays
}

/// Leaves those that didn't touch the object, in order, and in the counts what those touched.
pub fn drop_in<L: Ledger>(items: &mut Vec<Record>, named: &mut Tally, id: u32, steps: &mut Steps<L>)
    requires { Counts named.old (touched_in items.old.items) }
    ensures items { items.new.items ≡ filter (leaves id) items.old.items }
    ensures named { Counts named.new (touched_in items.new.items) }
    ensures len { vec_len items.new ≤ vec_len items.old }
    ensures capacity { vec_capacity items.new ≡ vec_capacity items.old }
    ensures steps { steps.new ≡ steps.old + count_by (touches id) items.old.items }
{
    let mut kept = 0;
    for at in 0..items.len() {
        if is_left(&items[at], id, named, steps) {
            items.swap(kept, at);
            kept += 1;
        }
    }
    items.truncate(kept);
}

/// Their invocations, in order.
pub fn invocations(alloc: Global, found: &[Failure]) -> Result<Vec<Invocation>, AllocError>
    ensures { IfOk result (λ vs. vs.items ≡ map (λ f. f.v) found.now) }
{
    found.iter().map(|f| f.v).collect(alloc)
}
