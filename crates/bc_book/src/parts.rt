// Parts of the book: the lists of invocations, and copies of bodies.

ghost use Rattle.std.specs.Prelude.{◌≡◌, false, true, [], ◌∷◌, ◌<◌, ◌≤◌, ◌==◌, not, ◌&&◌, ◌++◌, All, length, replicate, slice_get, slice_set, option_to_list, None, is_some, if◌then◌else◌, IfOk, OnOk, OnErr, IsSome};
ghost use Rattle.std.specs.List.{filter_map, list_any};
ghost use Rattle.bc_mean.specs.Store.{start_store};
ghost use Rattle.bc_mean.specs.Enabled.{all_enabled};
ghost use Rattle.bc_mean.specs.Serial.{has_failure};
ghost use Rattle.bc_mean.specs.Enabled.{are_different};
ghost use Rattle.bc_pending.specs.Lists.{held_by};

use bc_book_events::laws::enabled_names;
use bc_data::list::List;
use bc_data::program::Program;
use bc_data::run::{Body, Fault, Invocation};
use bc_failed::failures::Failures;
use bc_mean::laws::all_ascending;
use bc_mean::{all_enabled, start};
use bc_pending::pending::Pending;
use bc_store::store::Store;
use std::alloc::{AllocError, Global};

/// Whether some worker has an invocation.
fn any_running(pending: &Pending, workers: u32) -> bool
    requires { workers ≡ length pending.now.held }
    ensures { result ≡ list_any is_some pending.now.held }
{
    for worker in 0..workers {
        if pending.held(worker).is_some() {
            return true;
        }
    }
    false
}

/// Whether nothing is pending, and nothing is running.
pub(crate) fn is_at_rest(pending: &Pending, workers: u32) -> bool
    requires { workers ≡ length pending.now.held }
    ensures { result ≡ ((length pending.now.listed == 0) && not (list_any is_some pending.now.held)) }
{
    pending.is_empty() && !any_running(pending, workers)
}

/// Takes the worker's invocation from it: to the end of the list, or away.
pub(crate) fn release(pending: &mut Pending, worker: u32, back: bool)
    requires worker { worker < length pending.old.held }
    requires holds { IsSome (held_by pending.old.held worker) }
    ensures listed { pending.new.listed ≡ (if back then pending.old.listed ++ option_to_list (held_by pending.old.held worker) else pending.old.listed) }
    ensures held { pending.new.held ≡ slice_set pending.old.held worker None }
{
    if back {
        pending.put_back(worker)
    } else {
        pending.forget(worker)
    }
}

/// Copies of the bodies of these objects, which are there.
pub(crate) fn bodies_of(alloc: Global, store: &Store, ids: &[u32]) -> Result<List<Body>, AllocError>
    requires { All (λ id. id < length store.now.plain.bodies) ids.now }
    ensures { IfOk result (λ bodies. bodies ≡ filter_map (slice_get store.now.plain.bodies) ids.now) }
{
    let mut bodies = List::new(alloc);
    for id in ids {
        bodies.push(store.body(*id).copy(alloc)?)?;
    }
    Ok(bodies)
}

/// The lists at the start: all that is enabled is pending, and no worker has an invocation.
pub(crate) fn pending_at_start(
    alloc: Global,
    program: &Program,
    input: &[u8],
    workers: u32,
) -> Result<Pending, AllocError>
    requires some { 1 ≤ workers }
    requires few { workers ≤ 16 }
    ensures listed { IfOk result (λ p. p.listed ≡ all_enabled program.now (start_store input.now)) }
    ensures held { IfOk result (λ p. p.held ≡ replicate workers None) }
{
    all_ascending();
    enabled_names();
    program.is_well_typed();
    let store = start(alloc, program, input)?;
    let enabled = all_enabled(alloc, program, &store)?;
    let mut pending = Pending::make(alloc, workers)?;
    pending.reserve(enabled.len())?;
    pending.append_sorted(&enabled);
    Ok(pending)
}

/// Adds a failure. On `Err` memory was wanting, and the failures are as they were.
pub(crate) fn add_failure(
    alloc: Global,
    failures: &mut Failures,
    v: Invocation,
    fault: Fault,
    touched: &[u32],
) -> Result<(), AllocError>
    requires new { has_failure failures.old.failures v ≡ false }
    requires few { length failures.old.failures < 262144 }
    requires some { 1 ≤ length touched.now }
    requires different { are_different touched.now ≡ true }
    requires below { All (λ id. id < 65536) touched.now }
    ensures ok { OnOk result (failures.new.failures ≡ failures.old.failures ++ record { v = v; fault = fault; touched = touched.now } ∷ []) }
    ensures err { OnErr result (failures.new.failures ≡ failures.old.failures) }
{
    let touched = List::from_slice(alloc, touched)?;
    failures.reserve(touched.len())?;
    failures.add(v, fault, touched);
    Ok(())
}
