// A commit, on the parts of a book. Whatever may want memory comes first; only the sets are changed meanwhile, and taken back
// where the commit doesn't happen.

ghost use Rattle.std.specs.Prelude.{◌≡◌, ℕ, ◌+◌, ◌<◌, ◌≤◌, ◌||◌, not, true, if◌then◌else◌, ◌++◌, ◌∷◌, [], length, map, filter, slice_set, None, IfOk, IfSome, IfNone, IsSome, OnErr, vec_len, vec_capacity};
ghost use Rattle.bc_data.specs.Typed.{TypedProgram};
ghost use Rattle.bc_data.specs.declared.run.Invocation.{Invocation as Call};
ghost use Rattle.bc_mean.specs.declared.plain.Plain.{Plain};
ghost use Rattle.bc_mean.specs.Changes.{apply_changes};
ghost use Rattle.bc_mean.specs.Enabled.{is_enabled};
ghost use Rattle.bc_mean.specs.Orders.{IsAscending};
ghost use Rattle.bc_mean.specs.Serial.{is_crowded};
ghost use Rattle.bc_mean.specs.Store.{Fits};
ghost use Rattle.bc_mean.specs.Work.{look_of};
ghost use Rattle.bc_pending.specs.Lists.{held_by};
ghost use Rattle.bc_store.specs.Resolved.{IsResolved};
ghost use Rattle.bc_store.specs.Store.{CanPublish, HasSpare};
ghost use Rattle.bc_params_sets.specs.Kept.{AreSets};
ghost use Rattle.bc_book_reshaped.specs.Reshaped.{KindsStay, guard_tests};
ghost use Rattle.bc_book_events.specs.Book.{BookState};
ghost use Rattle.bc_book_events.specs.Reshaped.{names_any};
ghost use Rattle.bc_book_lists.specs.Search.{AreBooks, AreOf, IsBefore, IsFound, IsSearch};
ghost use Rattle.bc_book.specs.Commits.{ArePartsOf, IsReady, MayAppend};

use bc_book_lists::drops::drop_fallen;
use bc_book_lists::find::{Before, Found, enabled_before, find};
use bc_book_reshaped::reshaped::{ids_of, reshaped_of};
use bc_book_reshaped::sets::{bring, take_back};
use bc_data::run::{Changes, Invocation};
use bc_failed::failures::Failures;
use bc_params::params::Params;
use bc_pending::pending::Pending;
use bc_steps::Steps;
use bc_store::store::Store;
use std::alloc::{AllocError, Global};
use std::sync::ledger::Ledger;

/// What a commit needs once nothing can fail any more: the objects that move, those that change, and what was found.
#[derive(Drop)]
pub(crate) struct Ready {
    pub reshaped: Vec<u32>,
    pub changed: Vec<u32>,
    pub found: Found,
}

/// The objects that changes write.
fn written_ids(alloc: Global, changes: &Changes) -> Result<Vec<u32>, AllocError>
    ensures { IfOk result (λ ids. ids.items ≡ map (λ w. w.id) changes.now.bodies) }
{
    changes
        .bodies
        .as_slice()
        .iter()
        .map(|w| w.id)
        .collect(alloc)
}

/// What the commit of `v` appends, with room for it; nothing where it would leave too many enabled.
fn find_with_room(
    alloc: Global,
    params: &Params,
    pending: &mut Pending,
    workers: u32,
    failures: &Failures,
    reshaped: &[u32],
    changed: &[u32],
    before: &Before,
    v: Invocation,
) -> Result<Option<Found>, AllocError>
    requires workers { workers ≡ length pending.old.held }
    requires ascending { IsAscending before.now.named }
    requires some { length before.now.named ≤ before.now.enabled }
    requires few { before.now.enabled ≤ 262144 }
    ensures listed { pending.new.listed ≡ pending.old.listed }
    ensures held { pending.new.held ≡ pending.old.held }
    ensures room { IfOk result (λ o. IfSome o (λ found. length found.appended ≤ pending.new.spare)) }
    ensures found { IfOk result (λ o. IfSome o (λ found. (b : BookState) (T : Plain) (worker : ℕ) → IsSearch b T worker v reshaped.now
        → AreBooks b pending.old.listed pending.old.held failures.now.failures → AreOf b.program T params.now.kept → IsBefore b reshaped.now before.now.named before.now.enabled
        → IsFound b T worker v reshaped.now changed.now found.appended found.falls)) }
    ensures none { IfOk result (λ o. IfNone o ((b : BookState) (T : Plain) (worker : ℕ) → IsSearch b T worker v reshaped.now
        → AreBooks b pending.old.listed pending.old.held failures.now.failures → AreOf b.program T params.now.kept → IsBefore b reshaped.now before.now.named before.now.enabled
        → is_crowded b.program T ≡ true)) }
{
    let Some(found) = find(
        alloc, params, pending, workers, failures, reshaped, changed, before, v,
    )?
    else {
        return Ok(None);
    };
    pending.reserve(found.appended.len())?;
    Ok(Some(found))
}

/// Makes a commit ready: reserves its memory, finds what it appends, and brings the sets to the store behind it. Nothing where it
/// would leave too many enabled; then, and on `Err`, where memory was wanting, the sets are those of the store.
pub(crate) fn make_ready<L: Ledger>(
    alloc: Global,
    store: &mut Store,
    params: &mut Params,
    pending: &mut Pending,
    workers: u32,
    failures: &Failures,
    changes: &Changes,
    v: Invocation,
    steps: &mut Steps<L>,
) -> Result<Option<Ready>, AllocError>
    requires workers { workers ≡ length pending.old.held }
    requires can { CanPublish store.old.plain changes.now }
    requires resolved { IsResolved changes.now }
    requires kinds { KindsStay store.old.plain changes.now }
    requires book { (b : BookState) × (worker : ℕ) × ArePartsOf b worker v store.old.plain pending.old.listed pending.old.held failures.now.failures params.old.kept }
    ensures store { store.new.plain ≡ store.old.plain }
    ensures listed { pending.new.listed ≡ pending.old.listed }
    ensures held { pending.new.held ≡ pending.old.held }
    ensures spare { IfOk result (λ o. IfSome o (λ ready. HasSpare store.new.spare changes.now)) }
    ensures room { IfOk result (λ o. IfSome o (λ ready. length ready.found.appended ≤ pending.new.spare)) }
    ensures ready { IfOk result (λ o. IfSome o (λ ready. (b : BookState) (worker : ℕ)
        → ArePartsOf b worker v store.old.plain pending.old.listed pending.old.held failures.now.failures params.old.kept
        → IsReady b changes.now worker v ready.reshaped.items ready.changed.items ready.found.appended ready.found.falls params.new.kept)) }
    ensures none { IfOk result (λ o. IfNone o ((b : BookState) (worker : ℕ)
        → ArePartsOf b worker v store.old.plain pending.old.listed pending.old.held failures.now.failures params.old.kept
        → (is_crowded b.program (apply_changes b.store changes.now) ≡ true) × AreOf b.program b.store params.new.kept)) }
    ensures err { OnErr result ((b : BookState) (worker : ℕ)
        → ArePartsOf b worker v store.old.plain pending.old.listed pending.old.held failures.now.failures params.old.kept
        → AreOf b.program b.store params.new.kept) }
    ensures steps { IfOk result (λ o. IfSome o (λ ready. (b : BookState) (worker : ℕ)
        → ArePartsOf b worker v store.old.plain pending.old.listed pending.old.held failures.now.failures params.old.kept
        → steps.new ≤ steps.old + guard_tests b.program changes.now)) }
{
    store.reserve_for(changes)?;
    let reshapes = reshaped_of(alloc, store, changes)?;
    let reshaped = ids_of(alloc, reshapes.as_slice())?;
    let changed = written_ids(alloc, changes)?;
    let before = enabled_before(
        alloc,
        params,
        pending,
        workers,
        failures,
        reshaped.as_slice(),
    )?;
    params.reserve_for(changes)?;
    bring(params, store, changes, reshapes.as_slice(), steps);
    let found = find_with_room(
        alloc,
        params,
        pending,
        workers,
        failures,
        reshaped.as_slice(),
        changed.as_slice(),
        &before,
        v,
    );
    match found {
        Ok(Some(found)) => Ok(Some(Ready {
            reshaped,
            changed,
            found,
        })),
        Ok(None) => {
            take_back(params, store, changes, reshapes.as_slice());
            Ok(None)
        }
        Err(error) => {
            take_back(params, store, changes, reshapes.as_slice());
            Err(error)
        }
    }
}

/// Drops those that are not enabled any more, where there may be some.
fn drop_if(falls: bool, pending: &mut Pending, params: &Params, reshaped: &[u32])
    ensures listed { (P : TypedProgram) (S : Plain) → AreOf P S params.now.kept
        → pending.new.listed ≡ (if falls then filter (λ w. not (names_any reshaped.now w) || is_enabled P S w) pending.old.listed else pending.old.listed) }
    ensures held { pending.new.held ≡ pending.old.held }
    ensures spare { pending.old.spare ≤ pending.new.spare }
{
    if falls {
        drop_fallen(pending, params, reshaped);
    }
}

/// The pending list behind a commit: the worker's invocation goes, those that are not enabled any more fall out, and what was
/// found comes behind. It takes no memory.
pub(crate) fn renew(pending: &mut Pending, params: &Params, worker: u32, ready: &Ready)
    requires worker { worker < length pending.old.held }
    requires holds { IsSome (held_by pending.old.held worker) }
    requires append { MayAppend pending.old.listed pending.old.held worker ready.now.found.appended }
    requires sets { (P : TypedProgram) × (S : Plain) × AreOf P S params.now.kept }
    requires room { length ready.now.found.appended ≤ pending.old.spare }
    ensures listed { (P : TypedProgram) (S : Plain) → AreOf P S params.now.kept
        → pending.new.listed ≡ (if ready.now.found.falls then filter (λ w. not (names_any ready.now.reshaped.items w) || is_enabled P S w) pending.old.listed else pending.old.listed) ++ ready.now.found.appended }
    ensures held { pending.new.held ≡ slice_set pending.old.held worker None }
{
    pending.forget(worker);
    drop_if(
        ready.found.falls,
        pending,
        params,
        ready.reshaped.as_slice(),
    );
    pending.append_sorted(&ready.found.appended);
}

/// Appends a commit to the history. There must be room for it. It takes no memory.
pub(crate) fn push_in(history: &mut Vec<Invocation>, v: Invocation)
    requires { vec_len history.old + 1 ≤ vec_capacity history.old }
    ensures { history.new.items ≡ history.old.items ++ v ∷ [] }
{
    let _ = history.push(v);
}
