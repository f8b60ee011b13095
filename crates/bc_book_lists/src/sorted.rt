// Invocations in order, each once.

ghost use Rattle.std.specs.Prelude.{◌≡◌, ◌≤◌, true, false, length, if◌then◌else◌, ◌∷◌, [], ◌++◌, slice_get, IfOk, OnOk};
ghost use Rattle.std.specs.List.Sorted.{IsPartitionPoint, IsPermutation, IsSortedBy};
ghost use Rattle.bc_mean.specs.Enabled.{is_some_and};
ghost use Rattle.bc_mean.specs.Orders.{IsAscending, invocation_cmp, precedes};
ghost use Rattle.bc_mean.specs.Serial.{listed, same_invocation};
ghost use Rattle.bc_book_lists.specs.Search.{IsListOf, distinct};

use crate::search::is_same;
use bc_data::list::List;
use bc_data::run::Invocation;
use std::alloc::{AllocError, Global};
use std::cmp::Ordering;

fn compare(v: &Invocation, w: &Invocation) -> Ordering
    ensures { result ≡ invocation_cmp v.now w.now }
{
    let objects = v.objects.as_slice().cmp(w.objects.as_slice());
    let tags = v.tags.as_slice().cmp(w.tags.as_slice());
    v.task.cmp(&w.task).then(objects.then(tags))
}

fn sort(found: &mut Vec<Invocation>) -> Result<(), AllocError>
    ensures sorted { OnOk result (IsSortedBy precedes found.new.items) }
    ensures same { OnOk result (IsPermutation found.old.items found.new.items) }
{
    found.sort_by(|v, w| compare(v, w))?;
    Ok(())
}

/// Whether the invocation stands at this place too.
fn is_at(vs: &[Invocation], place: usize, v: &Invocation) -> bool
    ensures { result ≡ is_some_and (slice_get vs.now place) (same_invocation v.now) }
{
    match vs.get(place) {
        Some(other) => is_same(v, other),
        None => false,
    }
}

fn push_unless(kept: &mut List<Invocation>, v: &Invocation, again: bool) -> Result<(), AllocError>
    ensures { OnOk result (kept.new ≡ (if again then kept.old else kept.old ++ v.now ∷ [])) }
{
    if !again {
        kept.push(*v)?;
    }
    Ok(())
}

/// Each once.
fn distinct(alloc: Global, sorted: &[Invocation]) -> Result<List<Invocation>, AllocError>
    ensures { IfOk result (λ kept. kept ≡ distinct sorted.now) }
{
    let mut kept = List::new(alloc);
    for i in 0..sorted.len() {
        let v = &sorted[i];
        let again = is_at(sorted, i + 1, v);
        push_unless(&mut kept, v, again)?;
    }
    Ok(kept)
}

/// These in order, each once.
pub(crate) fn in_order(
    alloc: Global,
    mut found: Vec<Invocation>,
) -> Result<List<Invocation>, AllocError>
    ensures { IfOk result (IsListOf (listed found.items)) }
{
    sort(&mut found)?;
    distinct(alloc, found.as_slice())
}

fn precedes(v: &Invocation, w: &Invocation) -> bool
    ensures { result ≡ precedes v.now w.now }
{
    compare(v, w).is_lt()
}

/// How many of these, which ascend, precede the invocation.
fn place_of(vs: &[Invocation], v: &Invocation) -> usize
    requires { IsAscending vs.now }
    ensures within { result ≤ length vs.now }
    ensures point { IsPartitionPoint (λ w. precedes w v.now ≡ true) (λ w. precedes w v.now ≡ false) vs.now result }
{
    vs.partition_point(|w| precedes(w, v))
}

/// Whether the invocation is among these, which ascend.
pub(crate) fn has_in_order(vs: &[Invocation], v: &Invocation) -> bool
    requires { IsAscending vs.now }
    ensures { result ≡ listed vs.now v.now }
{
    let place = place_of(vs, v);
    is_at(vs, place, v)
}
