// Whether one invocation is enabled.

ghost use Rattle.std.specs.Prelude.{◌≡◌, All};
ghost use Rattle.bc_data.specs.Typed.{TypedProgram};
ghost use Rattle.bc_mean.specs.declared.plain.Plain.{Plain};
ghost use Rattle.bc_mean.specs.Enabled.{is_enabled};
ghost use Rattle.bc_mean.specs.Work.{look_of};
ghost use Rattle.bc_params_sets.specs.Kept.{AreSets};
ghost use Rattle.bc_params_search.specs.Laws.{BindsAll};

use crate::params::Params;
use bc_data::run::Invocation;
use bc_params_search::enabled::is_enabled_by;
use bc_params_search::laws::enabled_by_sets;

impl Params {
    /// Whether the invocation is enabled in a store of which these are the sets, where some parameter binds each tag
    /// variable, as in every well-typed program. No guard is tested.
    pub fn is_enabled(&self, v: Invocation) -> bool
        ensures { (P : TypedProgram) (S : Plain) → AreSets P (look_of S) S.tags self.now.kept → All BindsAll P.tasks → result ≡ is_enabled P S v }
    {
        enabled_by_sets();
        is_enabled_by(self.tasks(), self.tags(), v)
    }
}
