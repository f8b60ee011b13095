// The places of a program, with no object in their sets.

ghost use Rattle.std.specs.Prelude.{IfOk};
ghost use Rattle.bc_params_sets.specs.Kept.{IsPlace, ArePlaces, IsTaskSets, AreTasks};
ghost use Rattle.bc_params.specs.Look.{nobody};

use bc_data::list::List;
use bc_data::program::{Param, Task};
use bc_flags::guard::guard_of;
use bc_params_sets::id_set::IdSet;
use bc_params_sets::place::{Place, TaskSets};
use std::alloc::{AllocError, Global};

fn empty_place(alloc: Global, param: &Param) -> Result<Place, AllocError>
    ensures { IfOk result (IsPlace nobody param.now) }
{
    Ok(Place {
        class: param.class(),
        guard: guard_of(alloc, param.guard())?,
        binds: List::from_slice(alloc, param.binds())?,
        objects: IdSet::new(alloc),
    })
}

fn empty_places(alloc: Global, params: &[Param]) -> Result<List<Place>, AllocError>
    ensures { IfOk result (ArePlaces nobody params.now) }
{
    let mut places = List::new(alloc);
    for param in params {
        places.push(empty_place(alloc, param)?)?;
    }
    Ok(places)
}

fn empty_task(alloc: Global, task: &Task) -> Result<TaskSets, AllocError>
    ensures { IfOk result (IsTaskSets nobody task.now) }
{
    Ok(TaskSets {
        places: empty_places(alloc, task.params())?,
        variables: List::from_slice(alloc, task.variables())?,
    })
}

/// The sets of a program where no object is.
pub fn empty_tasks(alloc: Global, tasks: &[Task]) -> Result<Vec<TaskSets>, AllocError>
    ensures { IfOk result (λ sets. AreTasks nobody tasks.now sets.items) }
{
    let mut sets = Vec::new(alloc);
    for task in tasks {
        sets.push(empty_task(alloc, task)?)?;
    }
    Ok(sets)
}
