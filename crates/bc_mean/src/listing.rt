// All enabled invocations.

ghost use Rattle.std.specs.Prelude.{◌≡◌, ◌+◌, ◌<◌, ◌≤◌, [], ◌∷◌, ◌++◌, length, slice_get, option_copied, IfOk, OnOk};
ghost use Rattle.bc_mean.specs.Enabled.{all_enabled};
ghost use Rattle.bc_mean.specs.Listing.{IsNumbered, listed_behind, may_stand, may_stand_all, may_begin, enabled_with, enabled_on, enabled_of};

use crate::enabledness::{are_different, is_class, is_enabled_of, meets};
use crate::plain::Plain;
use bc_data::ids::Ids;
use bc_data::list::List;
use bc_data::program::{Param, Program, Task};
use bc_data::run::Invocation;
use std::alloc::{AllocError, Global};

/// The numbers and one more behind them.
fn with(front: Ids, n: u32) -> Ids
    requires { length front < 4 }
    ensures { result ≡ front ++ n ∷ [] }
{
    let mut longer = front;
    longer.push(n);
    longer
}

/// Whether an object is of the class of a parameter and meets its guard.
fn may_stand(store: &Plain, param: &Param, id: u32) -> bool
    ensures { result ≡ may_stand store.now param.now id }
{
    match store.bodies.get(id as usize) {
        None => false,
        Some(body) => is_class(param.class(), body.kind) && meets(param.guard(), body.flags),
    }
}

/// Whether each object may stand for its parameter.
fn may_stand_all(store: &Plain, params: &[Param], ids: &[u32]) -> bool
    ensures { result ≡ may_stand_all store.now params.now ids.now }
{
    match params {
        [] => true,
        [param, params @ ..] => match ids {
            [] => true,
            [id, ids @ ..] => may_stand(store, param, *id) && may_stand_all(store, params, ids),
        },
    }
}

/// Whether these may be the first objects of an enabled invocation.
fn may_begin(task: &Task, store: &Plain, front: &[u32]) -> bool
    ensures { result ≡ may_begin task.now store.now front.now }
{
    may_stand_all(store, task.params(), front) && are_different(front)
}

/// Appends an invocation, if it is enabled.
fn add_one(
    task: &Task,
    store: &Plain,
    found: &mut List<Invocation>,
    number: u32,
    objects: Ids,
    instances: Ids,
) -> Result<(), AllocError>
    ensures { OnOk result (found.new ≡ found.old ++ enabled_with task.now store.now number objects instances) }
{
    if is_enabled_of(task, store, objects.as_slice(), instances.as_slice()) {
        found.push(Invocation {
            task: number,
            objects,
            tags: instances,
        })?;
    }
    Ok(())
}

/// Appends the enabled invocations of a task on these objects, whose instances begin with these and have so many more.
fn add_instances(
    task: &Task,
    store: &Plain,
    found: &mut List<Invocation>,
    number: u32,
    objects: Ids,
    front: Ids,
    left: usize,
) -> Result<(), AllocError>
    requires numbered { IsNumbered store.now }
    requires few { length front + left ≤ 4 }
    ensures { OnOk result (found.new ≡ found.old ++ listed_behind (enabled_with task.now store.now number objects) (length store.now.tags) front left) }
{
    if left == 0 {
        return add_one(task, store, found, number, objects, front);
    }
    for n in 0..store.tags.len() {
        let longer = with(front, n as u32);
        add_instances(task, store, found, number, objects, longer, left - 1)?;
    }
    Ok(())
}

/// Appends the enabled invocations of a task whose objects begin with these and have so many more.
fn add_objects(
    task: &Task,
    store: &Plain,
    found: &mut List<Invocation>,
    number: u32,
    front: Ids,
    left: usize,
) -> Result<(), AllocError>
    requires numbered { IsNumbered store.now }
    requires few_variables { length task.now.variables ≤ 4 }
    requires few { length front + left ≤ 4 }
    ensures { OnOk result (found.new ≡ found.old ++ listed_behind (enabled_on task.now store.now number) (length store.now.bodies) front left) }
{
    // no other objects behind these make an enabled invocation of them
    if !may_begin(task, store, front.as_slice()) {
        return Ok(());
    }
    if left == 0 {
        let variables = task.variables().len();
        return add_instances(task, store, found, number, front, Ids::none(), variables);
    }
    for id in 0..store.bodies.len() {
        let longer = with(front, id as u32);
        add_objects(task, store, found, number, longer, left - 1)?;
    }
    Ok(())
}

/// The task with this number, if there is one.
fn task_at(program: &Program, number: u32) -> Option<&Task>
    ensures { option_copied result ≡ slice_get program.now.tasks number }
{
    program.tasks().get(number as usize)
}

/// Appends the enabled invocations of a task.
fn add_task(
    program: &Program,
    store: &Plain,
    found: &mut List<Invocation>,
    number: u32,
) -> Result<(), AllocError>
    requires { IsNumbered store.now }
    ensures { OnOk result (found.new ≡ found.old ++ enabled_of store.now number (slice_get program.now.tasks number)) }
{
    program.is_well_typed();
    match task_at(program, number) {
        None => Ok(()),
        Some(task) => {
            let params = task.params().len();
            add_objects(task, store, found, number, Ids::none(), params)
        }
    }
}

/// All enabled invocations, ascending. Objects are tried in order, one parameter after the other, and then all instances.
pub fn all_enabled(
    alloc: Global,
    program: &Program,
    store: &Plain,
) -> Result<List<Invocation>, AllocError>
    requires { IsNumbered store.now }
    ensures { IfOk result (λ vs. vs ≡ all_enabled program.now store.now) }
{
    program.is_well_typed();
    let mut found = List::new(alloc);
    for number in 0..program.tasks().len() {
        add_task(program, store, &mut found, number as u32)?;
    }
    Ok(found)
}
