// What a commit appends to the pending list, and whether it may.

ghost use Rattle.std.specs.Prelude.{◌≡◌, ◌⊎◌, ℕ, ◌≤◌, true, length, IfOk, IfSome, IfNone};
ghost use Rattle.std.specs.Bool.{OnFalse};
ghost use Rattle.bc_mean.specs.declared.plain.Plain.{Plain};
ghost use Rattle.bc_mean.specs.Orders.{IsAscending};
ghost use Rattle.bc_mean.specs.Serial.{is_crowded, listed, same_invocation};
ghost use Rattle.bc_data.specs.declared.run.Invocation.{Invocation as Call};
ghost use Rattle.bc_book_events.specs.Book.{BookState};
ghost use Rattle.bc_book_events.specs.Sound.{IsSoundBook};
ghost use Rattle.bc_book_lists.specs.Search.{AreBooks, AreOf, IsBefore, IsFound, IsSearch};

use crate::count::{enabled_count, is_crowded};
use crate::search::{appended, is_same, naming};
use crate::sorted::has_in_order;
use bc_data::list::List;
use bc_data::run::Invocation;
use bc_failed::failures::Failures;
use bc_params::params::Params;
use bc_pending::pending::Pending;
use std::alloc::{AllocError, Global};

/// What was enabled before a commit: those that name an object that is reshaped, in order, and how many are enabled at all.
#[derive(Drop)]
pub struct Before {
    pub named: List<Invocation>,
    pub enabled: usize,
}

/// What a commit appends to the pending list, in order, and whether some pending one may fall out.
#[derive(Drop)]
pub struct Found {
    pub appended: List<Invocation>,
    pub falls: bool,
}

/// What is enabled before a commit in which these objects move. On `Err` memory was wanting.
pub fn enabled_before(
    alloc: Global,
    params: &Params,
    pending: &Pending,
    workers: u32,
    failures: &Failures,
    reshaped: &[u32],
) -> Result<Before, AllocError>
    requires workers { workers ≡ length pending.now.held }
    requires book { (b : BookState) × IsSoundBook b × AreBooks b pending.now.listed pending.now.held failures.now.failures × AreOf b.program b.store params.now.kept }
    ensures before { IfOk result (λ before. (b : BookState) → IsSoundBook b → AreBooks b pending.now.listed pending.now.held failures.now.failures → AreOf b.program b.store params.now.kept
        → IsBefore b reshaped.now before.named before.enabled) }
    ensures ascending { IfOk result (λ before. IsAscending before.named) }
    ensures some { IfOk result (λ before. length before.named ≤ before.enabled) }
    ensures few { IfOk result (λ before. before.enabled ≤ 262144) }
{
    let Some(named) = naming(alloc, params, reshaped)? else {
        unreachable!()
    };
    Ok(Before {
        named,
        enabled: enabled_count(params, pending, workers, failures),
    })
}

/// Whether the invocation is another than `v` and is not among these, which ascend.
fn is_gone(behind: &[Invocation], v: &Invocation, w: &Invocation) -> bool
    requires { IsAscending behind.now }
    ensures { OnFalse result ((listed behind.now w.now ≡ true) ⊎ (same_invocation w.now v.now ≡ true)) }
{
    !is_same(w, v) && !has_in_order(behind, w)
}

/// Whether some other than `v` that was enabled before is not enabled any more.
fn any_gone(before: &[Invocation], behind: &[Invocation], v: &Invocation) -> bool
    requires { IsAscending behind.now }
    ensures { OnFalse result ((w : Call) → listed before.now w ≡ true → (listed behind.now w ≡ true) ⊎ (same_invocation w v.now ≡ true)) }
{
    for w in before {
        if is_gone(behind, v, w) {
            return true;
        }
    }
    false
}

/// What the commit of `v` appends, over the sets of the store behind it; nothing where it would leave too many enabled. On `Err`
/// memory was wanting.
pub fn find(
    alloc: Global,
    params: &Params,
    pending: &Pending,
    workers: u32,
    failures: &Failures,
    reshaped: &[u32],
    changed: &[u32],
    before: &Before,
    v: Invocation,
) -> Result<Option<Found>, AllocError>
    requires workers { workers ≡ length pending.now.held }
    requires ascending { IsAscending before.now.named }
    requires some { length before.now.named ≤ before.now.enabled }
    requires few { before.now.enabled ≤ 262144 }
    ensures found { IfOk result (λ o. IfSome o (λ found. (b : BookState) (T : Plain) (worker : ℕ) → IsSearch b T worker v reshaped.now
        → AreBooks b pending.now.listed pending.now.held failures.now.failures → AreOf b.program T params.now.kept → IsBefore b reshaped.now before.now.named before.now.enabled
        → IsFound b T worker v reshaped.now changed.now found.appended found.falls)) }
    ensures none { IfOk result (λ o. IfNone o ((b : BookState) (T : Plain) (worker : ℕ) → IsSearch b T worker v reshaped.now
        → AreBooks b pending.now.listed pending.now.held failures.now.failures → AreOf b.program T params.now.kept → IsBefore b reshaped.now before.now.named before.now.enabled
        → is_crowded b.program T ≡ true)) }
{
    let Some(behind) = naming(alloc, params, reshaped)? else {
        return Ok(None);
    };
    if is_crowded(before.enabled, &before.named, &behind) {
        return Ok(None);
    }
    let appended = appended(
        alloc,
        params,
        pending,
        workers,
        failures,
        changed,
        before.named.as_slice(),
        behind.as_slice(),
        v,
    )?;
    let falls = any_gone(before.named.as_slice(), behind.as_slice(), &v);
    Ok(Some(Found { appended, falls }))
}
