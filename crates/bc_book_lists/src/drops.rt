// What a commit takes out of the lists.

ghost use Rattle.std.specs.Prelude.{◌≡◌, ◌≤◌, ◌<◌, ◌||◌, not, filter};
ghost use Rattle.bc_data.specs.Typed.{TypedProgram};
ghost use Rattle.bc_mean.specs.declared.plain.Plain.{Plain};
ghost use Rattle.bc_mean.specs.Enabled.{is_enabled};
ghost use Rattle.bc_params_sets.specs.Kept.{is_enabled_by};
ghost use Rattle.bc_book_events.specs.Reshaped.{names_any};
ghost use Rattle.bc_book_events.specs.Steps.{failures_left};
ghost use Rattle.bc_book_lists.specs.Search.{AreOf, stays_behind};

use bc_data::run::Invocation;
use bc_failed::failures::Failures;
use bc_params::params::Params;
use bc_params_search::enabled::is_enabled_by;
use bc_pending::keep::Keep;
use bc_pending::pending::Pending;
use bc_steps::Steps;
use std::marker::Brand;
use std::sync::ledger::{Blank, Ledger};

/// Keeps what is enabled in the store of which these are the sets.
#[derive(Clone, Copy)]
struct StillEnabled<'a> {
    params: &'a Params,
}

impl Keep for StillEnabled<'_> {
    ghost use Rattle.bc_params_sets.specs.Kept.{is_enabled_by};

    ghost keeps = { λ t v. is_enabled_by t.params.now.kept v };

    fn keep(&self, v: Invocation) -> bool {
        is_enabled_by(self.params.tasks(), self.params.tags(), v)
    }
}

/// Drops the listed ones that name one of these objects and are not enabled any more, over the sets of the store behind a
/// commit. It takes no memory.
pub fn drop_fallen(pending: &mut Pending, params: &Params, reshaped: &[u32])
    ensures listed { (P : TypedProgram) (S : Plain) → AreOf P S params.now.kept
        → pending.new.listed ≡ filter (λ w. not (names_any reshaped.now w) || is_enabled P S w) pending.old.listed }
    ensures held { pending.new.held ≡ pending.old.held }
    ensures spare { pending.old.spare ≤ pending.new.spare }
{
    drop_each::<Brand>(pending, params, reshaped, Blank::new(1));
}

/// The same. Nobody asks for the steps.
fn drop_each<L: Ledger>(pending: &mut Pending, params: &Params, reshaped: &[u32], blank: Blank)
    requires name { blank.name ≡ L.name }
    requires parts { blank.parts ≡ L.parts }
    requires some { 0 < L.parts }
    ensures listed { pending.new.listed ≡ filter (stays_behind params.now.kept reshaped.now) pending.old.listed }
    ensures held { pending.new.held ≡ pending.old.held }
    ensures spare { pending.old.spare ≤ pending.new.spare }
{
    let mut steps = Steps::<L>::new(blank);
    let test = StillEnabled { params };
    for id in reshaped {
        pending.drop_of(*id, &test, &mut steps);
    }
}

/// Drops the failures that touched one of these objects. It takes no memory.
pub fn drop_touching(failures: &mut Failures, changed: &[u32])
    ensures { failures.new.failures ≡ failures_left changed.now failures.old.failures }
{
    drop_touching_each::<Brand>(failures, changed, Blank::new(1));
}

/// The same. Nobody asks for the steps.
fn drop_touching_each<L: Ledger>(failures: &mut Failures, changed: &[u32], blank: Blank)
    requires name { blank.name ≡ L.name }
    requires parts { blank.parts ≡ L.parts }
    requires some { 0 < L.parts }
    ensures { failures.new.failures ≡ failures_left changed.now failures.old.failures }
{
    let mut steps = Steps::<L>::new(blank);
    for id in changed {
        failures.drop_touching(*id, &mut steps);
    }
}
