// The search for invocations that are newly pending.

ghost use Rattle.std.specs.Prelude.{◌≡◌, ◌<◌, ◌&&◌, ◌||◌, true, false, length, IfOk, OnOk, IfSome, IfNone};
ghost use Rattle.bc_data.specs.Typed.{TypedProgram};
ghost use Rattle.bc_data.specs.declared.run.Invocation.{Invocation as Call};
ghost use Rattle.bc_mean.specs.declared.plain.Plain.{Plain};
ghost use Rattle.bc_mean.specs.Enabled.{all_enabled, is_enabled, is_some_and};
ghost use Rattle.bc_mean.specs.Orders.{IsAscending};
ghost use Rattle.bc_mean.specs.Serial.{has_failure, listed, same_invocation};
ghost use Rattle.bc_book_events.specs.Book.{is_running};
ghost use Rattle.bc_book_events.specs.Reshaped.{failures_dropped, names_any};
ghost use Rattle.bc_book_lists.specs.Search.{Adds, AreOf, IsListOf, is_new};

use crate::sorted::{has_in_order, in_order};
use bc_data::list::List;
use bc_data::run::Invocation;
use bc_failed::failures::Failures;
use bc_params::params::Params;
use bc_pending::pending::Pending;
use std::alloc::{AllocError, Global};

/// The most invocations that may be enabled.
const MOST: usize = 262_144;

pub(crate) fn is_same(v: &Invocation, w: &Invocation) -> bool
    ensures { result ≡ same_invocation v.now w.now }
{
    v.task == w.task
        && v.objects.as_slice() == w.objects.as_slice()
        && v.tags.as_slice() == w.tags.as_slice()
}

fn is_in(slot: Option<Invocation>, v: &Invocation) -> bool
    ensures { result ≡ is_some_and slot (same_invocation v.now) }
{
    match slot {
        Some(other) => is_same(v, &other),
        None => false,
    }
}

/// Whether some worker has the invocation.
fn is_running(pending: &Pending, workers: u32, v: &Invocation) -> bool
    requires { workers ≡ length pending.now.held }
    ensures { result ≡ is_running pending.now.held v.now }
{
    for worker in 0..workers {
        if is_in(pending.held(worker), v) {
            return true;
        }
    }
    false
}

/// Whether the invocation isn't among these, which ascend, and no worker has it.
fn is_new(pending: &Pending, workers: u32, before: &[Invocation], v: &Invocation) -> bool
    requires workers { workers ≡ length pending.now.held }
    requires ascending { IsAscending before.now }
    ensures { result ≡ is_new before.now pending.now.held v.now }
{
    !has_in_order(before, v) && !is_running(pending, workers, v)
}

fn add_if(found: &mut Vec<Invocation>, v: &Invocation, good: bool) -> Result<(), AllocError>
    ensures { OnOk result (Adds (λ w. same_invocation w v.now && good) found.old.items found.new.items) }
{
    if good {
        found.push(*v)?;
    }
    Ok(())
}

/// Adds those of these that are not among those before, and that no worker has.
fn add_new(
    found: &mut Vec<Invocation>,
    pending: &Pending,
    workers: u32,
    before: &[Invocation],
    offered: &[Invocation],
) -> Result<(), AllocError>
    requires workers { workers ≡ length pending.now.held }
    requires ascending { IsAscending before.now }
    ensures { OnOk result (Adds (λ w. listed offered.now w && is_new before.now pending.now.held w) found.old.items found.new.items) }
{
    for v in offered {
        let good = is_new(pending, workers, before, v);
        add_if(found, v, good)?;
    }
    Ok(())
}

/// Adds those of these that are enabled.
fn add_enabled(
    found: &mut Vec<Invocation>,
    params: &Params,
    offered: &[Invocation],
) -> Result<(), AllocError>
    ensures { OnOk result ((P : TypedProgram) (S : Plain) → AreOf P S params.now.kept → Adds (λ w. listed offered.now w && is_enabled P S w) found.old.items found.new.items) }
{
    for v in offered {
        let good = params.is_enabled(*v);
        add_if(found, v, good)?;
    }
    Ok(())
}

/// Adds those whose failure touched one of these objects and that are enabled.
fn add_dropped(
    alloc: Global,
    found: &mut Vec<Invocation>,
    params: &Params,
    failures: &Failures,
    changed: &[u32],
) -> Result<(), AllocError>
    ensures { OnOk result ((P : TypedProgram) (S : Plain) → AreOf P S params.now.kept
        → Adds (λ w. has_failure (failures_dropped changed.now failures.now.failures) w && is_enabled P S w) found.old.items found.new.items) }
{
    for id in changed {
        let offered = failures.touching(alloc, *id)?;
        add_enabled(found, params, offered.as_slice())?;
    }
    Ok(())
}

/// Adds all of these.
fn add_all(found: &mut Vec<Invocation>, offered: &[Invocation]) -> Result<(), AllocError>
    ensures { OnOk result (Adds (listed offered.now) found.old.items found.new.items) }
{
    for v in offered {
        add_if(found, v, true)?;
    }
    Ok(())
}

/// Adds the enabled ones that name one of these objects. `false` where so many are enabled that the search breaks off.
fn add_naming(
    alloc: Global,
    found: &mut Vec<Invocation>,
    params: &Params,
    reshaped: &[u32],
) -> Result<bool, AllocError>
    ensures all { IfOk result (λ all. all ≡ true → (P : TypedProgram) (S : Plain) → AreOf P S params.now.kept → Adds (λ w. names_any reshaped.now w && is_enabled P S w) found.old.items found.new.items) }
    ensures many { IfOk result (λ all. all ≡ false → (P : TypedProgram) (S : Plain) → AreOf P S params.now.kept → 262144 < length (all_enabled P S)) }
{
    for id in reshaped {
        let offered = params.tuples_with(alloc, *id, MOST + 1)?;
        if offered.len() > MOST {
            return Ok(false);
        }
        add_all(found, offered.as_slice())?;
    }
    Ok(true)
}

/// The enabled ones that name one of these objects, in order; nothing where so many are enabled that the search breaks off.
pub(crate) fn naming(
    alloc: Global,
    params: &Params,
    reshaped: &[u32],
) -> Result<Option<List<Invocation>>, AllocError>
    ensures some { IfOk result (λ o. IfSome o (λ found. (P : TypedProgram) (S : Plain) → AreOf P S params.now.kept → IsListOf (λ w. names_any reshaped.now w && is_enabled P S w) found)) }
    ensures ascending { IfOk result (λ o. IfSome o IsAscending) }
    ensures none { IfOk result (λ o. IfNone o ((P : TypedProgram) (S : Plain) → AreOf P S params.now.kept → 262144 < length (all_enabled P S))) }
{
    let mut found = Vec::new(alloc);
    if !add_naming(alloc, &mut found, params, reshaped)? {
        return Ok(None);
    }
    Ok(Some(in_order(alloc, found)?))
}

/// What a commit of `v` appends to the pending list: of those `behind` it that name an object that was reshaped, the ones that were not
/// enabled `before`; and, where they are enabled, those whose failure touched a changed object, and `v` itself.
pub(crate) fn appended(
    alloc: Global,
    params: &Params,
    pending: &Pending,
    workers: u32,
    failures: &Failures,
    changed: &[u32],
    before: &[Invocation],
    behind: &[Invocation],
    v: Invocation,
) -> Result<List<Invocation>, AllocError>
    requires workers { workers ≡ length pending.now.held }
    requires ascending { IsAscending before.now }
    ensures { IfOk result (λ found. (P : TypedProgram) (S : Plain) → AreOf P S params.now.kept → IsListOf (λ w.
        (listed behind.now w && is_new before.now pending.now.held w)
        || ((has_failure (failures_dropped changed.now failures.now.failures) w || same_invocation w v) && is_enabled P S w)) found) }
{
    let mut found = Vec::new(alloc);
    add_new(&mut found, pending, workers, before, behind)?;
    add_dropped(alloc, &mut found, params, failures, changed)?;
    add_enabled(&mut found, params, &[v])?;
    in_order(alloc, found)
}
