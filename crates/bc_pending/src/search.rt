// Searches in a list of invocations, and changes of it. Beside it there is a count of the objects that its invocations name.

ghost use Rattle.std.specs.Prelude.{◌≡◌, ℕ, Bool, ◌+◌, ◌<◌, ◌≤◌, ◌++◌, ◌∷◌, [], length, filter, position, remove, slice_get, count_by, is_some, slice_set, slice_index_or, if◌then◌else◌};
ghost use Rattle.std.specs.VecDeque.{deque_len, deque_capacity};
ghost use Rattle.bc_data.specs.declared.run.Invocation.{Invocation};
ghost use Rattle.bc_mean.specs.Serial.{listed, same_invocation};
ghost use Rattle.bc_pending.specs.Lists.{is_allowed, names, stays};
ghost use Rattle.bc_pending.specs.Named.{named_in};
ghost use Rattle.bc_tally.specs.Counts.{Counts};

use crate::keep::Keep;
use bc_data::run::Invocation;
use bc_data::task_set::TaskSet;
use bc_steps::Steps;
use bc_tally::tally::Tally;
use std::collections::VecDeque;
use std::sync::ledger::Ledger;

/// The tasks of a set are below this.
const TASKS: u32 = 256;

fn is_allowed_in(v: &Invocation, tasks: &TaskSet) -> bool
    ensures { result ≡ is_allowed tasks.now v.now }
{
    v.task < TASKS && tasks.has(v.task)
}

fn is_same(v: &Invocation, w: &Invocation) -> bool
    ensures { result ≡ same_invocation v.now w.now }
{
    v.task == w.task
        && v.objects.as_slice() == w.objects.as_slice()
        && v.tags.as_slice() == w.tags.as_slice()
}

/// The place of the first one of an allowed task.
pub fn place_of_allowed(items: &VecDeque<Invocation>, tasks: &TaskSet) -> Option<usize>
    ensures { result ≡ position (is_allowed tasks.now) items.now.items }
{
    items.iter().position(|v| is_allowed_in(v, tasks))
}

/// The place of the first one that is the same.
pub fn place_of_same(items: &VecDeque<Invocation>, v: &Invocation) -> Option<usize>
    ensures { result ≡ position (same_invocation v.now) items.now.items }
{
    items.iter().position(|w| is_same(v, w))
}

/// Whether one is the same.
pub fn any_same(items: &VecDeque<Invocation>, v: &Invocation) -> bool
    ensures { result ≡ listed items.now.items v.now }
{
    items.iter().any(|w| is_same(v, w))
}

/// How many of the slots hold an invocation.
pub fn held_count(slots: &[Option<Invocation>]) -> usize
    ensures { result ≡ count_by is_some slots.now }
{
    slots.iter().filter(|slot| slot.is_some()).count()
}

/// Appends one where there is room.
pub fn push_in(items: &mut VecDeque<Invocation>, named: &mut Tally, v: Invocation)
    requires { deque_len items.old < deque_capacity items.old }
    ensures items { items.new.items ≡ items.old.items ++ v ∷ [] }
    ensures len { deque_len items.new ≡ deque_len items.old + 1 }
    ensures capacity { deque_capacity items.new ≡ deque_capacity items.old }
    ensures named { Counts named.old (named_in items.old.items) → Counts named.new (named_in items.new.items) }
{
    named.add(v.objects.as_slice());
    items.push_back_reserved(v);
}

/// Appends several where there is room.
pub fn extend_in(items: &mut VecDeque<Invocation>, named: &mut Tally, more: &[Invocation])
    requires { deque_len items.old + length more.now ≤ deque_capacity items.old }
    ensures items { items.new.items ≡ items.old.items ++ more.now }
    ensures len { deque_len items.new ≡ deque_len items.old + length more.now }
    ensures capacity { deque_capacity items.new ≡ deque_capacity items.old }
    ensures named { Counts named.old (named_in items.old.items) → Counts named.new (named_in items.new.items) }
{
    for v in more {
        push_in(items, named, *v);
    }
}

/// Takes out the one at this place.
pub fn remove_in(
    items: &mut VecDeque<Invocation>,
    named: &mut Tally,
    at: usize,
) -> Option<Invocation>
    requires { at < deque_len items.old }
    ensures value { result ≡ slice_get items.old.items at }
    ensures items { items.new.items ≡ remove items.old.items at }
    ensures len { deque_len items.new + 1 ≡ deque_len items.old }
    ensures capacity { deque_capacity items.new ≡ deque_capacity items.old }
    ensures named { Counts named.old (named_in items.old.items) → Counts named.new (named_in items.new.items) }
{
    let Some(taken) = items.remove(at) else {
        return None;
    };
    named.remove(taken.objects.as_slice());
    Some(taken)
}

/// Whether the invocation stays. The test is asked, in one step, of those that name the object alone.
fn is_kept<T: Keep, L: Ledger>(v: &Invocation, id: u32, test: &T, steps: &mut Steps<L>) -> bool
    ensures value { result ≡ stays id (T.keeps test.now) v.now }
    ensures steps { steps.new ≡ (if names id v.now then steps.old + 1 else steps.old) }
{
    if v.objects.as_slice().contains(&id) {
        steps.tick();
        test.keep(*v)
    } else {
        true
    }
}

/// Writes the one at a place to an earlier place.
fn move_up(items: &mut VecDeque<Invocation>, to: usize, from: usize)
    requires order { to ≤ from }
    requires within { from < deque_len items.old }
    ensures items { (d : Invocation) → items.new.items ≡ slice_set items.old.items to (slice_index_or items.old.items from d) }
    ensures len { deque_len items.new ≡ deque_len items.old }
    ensures capacity { deque_capacity items.new ≡ deque_capacity items.old }
{
    if to < from {
        items[to] = items[from];
    }
}

/// Leaves those that don't name the object and those that the test keeps, in order.
pub fn keep_in<T: Keep, L: Ledger>(
    items: &mut VecDeque<Invocation>,
    named: &mut Tally,
    id: u32,
    test: &T,
    steps: &mut Steps<L>,
)
    ensures items { items.new.items ≡ filter (stays id (T.keeps test.now)) items.old.items }
    ensures len { deque_len items.new ≤ deque_len items.old }
    ensures capacity { deque_capacity items.new ≡ deque_capacity items.old }
    ensures named { Counts named.old (named_in items.old.items) → Counts named.new (named_in items.new.items) }
    ensures steps { steps.new ≡ steps.old + count_by (names id) items.old.items }
{
    let mut kept = 0;
    for at in 0..items.len() {
        if is_kept(&items[at], id, test, steps) {
            move_up(items, kept, at);
            kept += 1;
        } else {
            named.remove(items[at].objects.as_slice());
        }
    }
    items.truncate(kept);
}
