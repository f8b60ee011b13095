// How many invocations are enabled.

ghost use Rattle.std.specs.Prelude.{◌≡◌, ℕ, ◌&&◌, ◌+◌, ◌≤◌, List as Sequence, length, filter};
ghost use Rattle.bc_data.specs.Typed.{TypedProgram};
ghost use Rattle.bc_mean.specs.declared.plain.Plain.{Plain};
ghost use Rattle.bc_mean.specs.Enabled.{all_enabled, is_enabled, is_some_and};
ghost use Rattle.bc_data.specs.WellTyped.{IsWellTyped};
ghost use Rattle.bc_mean.specs.Serial.{is_crowded};
ghost use Rattle.bc_mean.specs.Store.{Fits};
ghost use Rattle.bc_book_events.specs.Reshaped.{ReshapesOnly, names_any};
ghost use Rattle.bc_book_events.specs.Book.{busy};
ghost use Rattle.bc_book_lists.specs.Search.{AreOf, IsListOf};

use bc_data::list::List;
use bc_data::run::Invocation;
use bc_failed::failures::Failures;
use bc_params::params::Params;
use bc_pending::pending::Pending;

/// The most invocations that may be enabled.
const MOST: usize = 262_144;

/// Whether there is an invocation, and it is enabled.
fn is_enabled_in(params: &Params, slot: Option<Invocation>) -> bool
    ensures { (P : TypedProgram) (S : Plain) → AreOf P S params.now.kept → result ≡ is_some_and slot (is_enabled P S) }
{
    match slot {
        Some(v) => params.is_enabled(v),
        None => false,
    }
}

/// How many of the invocations that workers have are enabled.
fn enabled_running(params: &Params, pending: &Pending, workers: u32) -> usize
    requires { workers ≡ length pending.now.held }
    ensures value { (P : TypedProgram) (S : Plain) → AreOf P S params.now.kept → result ≡ length (filter (is_enabled P S) (busy pending.now.held)) }
    ensures few { result ≤ workers }
{
    let mut count = 0;
    for worker in 0..workers {
        if is_enabled_in(params, pending.held(worker)) {
            count += 1;
        }
    }
    count
}

/// How many invocations are enabled in the store of which these are the sets, where the pending list is exact there.
pub(crate) fn enabled_count(
    params: &Params,
    pending: &Pending,
    workers: u32,
    failures: &Failures,
) -> usize
    requires workers { workers ≡ length pending.now.held }
    requires few { length pending.now.listed ≤ 262144 }
    ensures { (P : TypedProgram) (S : Plain) → AreOf P S params.now.kept
        → result ≡ length pending.now.listed + (length (filter (is_enabled P S) (busy pending.now.held)) + length failures.now.failures) }
{
    pending.len() + (enabled_running(params, pending, workers) + failures.count() as usize)
}

/// Whether too many invocations are enabled behind changes: of those that were enabled before, these named an object that was reshaped,
/// and of those that are enabled now, these do.
pub(crate) fn is_crowded(
    enabled: usize,
    before: &List<Invocation>,
    behind: &List<Invocation>,
) -> bool
    requires some { length before.now ≤ enabled }
    requires few { enabled ≤ 262144 }
    ensures { (P : TypedProgram) (S T : Plain) (reshaped : Sequence ℕ) → ReshapesOnly reshaped S T → IsWellTyped P → Fits P S → enabled ≡ length (all_enabled P S)
        → IsListOf (λ w. names_any reshaped w && is_enabled P S w) before.now → IsListOf (λ w. names_any reshaped w && is_enabled P T w) behind.now → result ≡ is_crowded P T }
{
    behind.len() > MOST - (enabled - before.len())
}
