// Whether one invocation is enabled.

ghost use Rattle.std.specs.Prelude.{◌≡◌};
ghost use Rattle.bc_params_sets.specs.Kept.{is_enabled_by};

use crate::search::{are_different, take_all};
use bc_data::run::Invocation;
use bc_params_sets::place::TaskSets;
use bc_params_sets::tag_index::TagIndex;

/// Whether the invocation is enabled, as the sets and the index tell. No guard is tested.
pub fn is_enabled_by(tasks: &[TaskSets], tags: &TagIndex, v: Invocation) -> bool
    ensures { result ≡ is_enabled_by (record { tasks = tasks.now; bound = tags.now.bound }) v }
{
    let Some(task) = tasks.get(v.task as usize) else {
        return false;
    };
    let instances = v.tags.as_slice();
    let objects = v.objects.as_slice();
    instances.len() == task.variables.len()
        && take_all(task, tags, instances, task.places.as_slice(), objects)
        && are_different(objects)
}
