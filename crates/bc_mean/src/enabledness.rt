// Whether an invocation is enabled, and all that are.

ghost use Rattle.bc_data.specs.ProgramView.{view_flag_expr};
ghost use Rattle.std.specs.Prelude.{◌≡◌, nat_lt, length, ◌&&◌, ◌==◌, slice_get};
ghost use Rattle.std.specs.List.{list_all, list_any};
ghost use Rattle.bc_data.specs.Guard.{guard_truth, is_set};
ghost use Rattle.bc_mean.specs.Listing.{is_enabled_of};
ghost use Rattle.bc_mean.specs.Enabled.{is_some_and, is_class, is_instance, carries, takes, take_all, are_different, is_enabled};

use crate::plain::Plain;
use bc_data::program::{FlagExpr, Param, Program, Task};
use bc_data::run::{Body, Invocation, Kind, TagRef};

/// Whether a flag is set in a mask.
fn is_set(mask: u32, flag: u32) -> bool
    ensures { result ≡ is_set mask flag }
{
    if flag >= u32::BITS {
        return false;
    }
    (mask >> flag) & 1 == 1
}

/// Whether these flags meet a guard.
pub(crate) fn meets(guard: &FlagExpr, mask: u32) -> bool
    ensures { result ≡ guard_truth (view_flag_expr guard.now) mask }
{
    match guard {
        FlagExpr::Flag(flag) => is_set(mask, *flag),
        FlagExpr::Truth(truth) => *truth,
        FlagExpr::Not(g) => !meets(g, mask),
        FlagExpr::And(g, h) => meets(g, mask) && meets(h, mask),
        FlagExpr::Or(g, h) => meets(g, mask) || meets(h, mask),
    }
}

/// Whether an object of this kind is of the class.
pub(crate) fn is_class(class: u32, kind: Kind) -> bool
    ensures { result ≡ is_class class kind }
{
    match kind {
        Kind::Class(other) => other == class,
        Kind::Ints | Kind::Bools | Kind::Objects(_) => false,
    }
}

/// Whether an instance is the one with this number in the store.
fn is_instance(number: u32, tag: TagRef) -> bool
    ensures { result ≡ is_instance number tag }
{
    match tag {
        TagRef::Old(other) => other == number,
        TagRef::New(_) => false,
    }
}

/// Whether an instance is there and has this type.
fn has_type(store: &Plain, number: u32, tag_type: u32) -> bool
    ensures { result ≡ is_some_and (slice_get store.now.tags number) (λ own. own == tag_type) }
{
    match store.tags.get(number as usize) {
        None => false,
        Some(own) => *own == tag_type,
    }
}

/// Whether an instance is among these.
fn has_tag(tags: &[TagRef], number: u32) -> bool
    ensures { result ≡ list_any (is_instance number) tags.now }
{
    tags.iter().any(|tag| is_instance(number, *tag))
}

/// Whether an object has the instance with this number, and the instance this type.
fn has_instance(store: &Plain, body: &Body, number: u32, tag_type: u32) -> bool
    ensures { result ≡ (list_any (is_instance number) body.now.tags && is_some_and (slice_get store.now.tags number) (λ own. own == tag_type)) }
{
    has_tag(body.tags.as_slice(), number) && has_type(store, number, tag_type)
}

/// Whether an object has the instance that the variable names, and the instance has the variable's type.
fn carries(store: &Plain, task: &Task, instances: &[u32], body: &Body, variable: u32) -> bool
    ensures { result ≡ carries store.now task.now instances.now body.now variable }
{
    match (
        task.variables().get(variable as usize),
        instances.get(variable as usize),
    ) {
        (Some(tag_type), Some(number)) => has_instance(store, body, *number, *tag_type),
        _ => false,
    }
}

/// Whether an object has the instances that these variables name.
fn carries_all(store: &Plain, task: &Task, instances: &[u32], body: &Body, binds: &[u32]) -> bool
    ensures { result ≡ list_all (carries store.now task.now instances.now body.now) binds.now }
{
    binds.iter().all(|variable| carries(store, task, instances, body, *variable))
}

/// Whether an object is there for a parameter.
fn takes(store: &Plain, task: &Task, instances: &[u32], param: &Param, id: u32) -> bool
    ensures { result ≡ takes store.now task.now instances.now param.now id }
{
    let Some(body) = store.bodies.get(id as usize) else {
        return false;
    };
    if !is_class(param.class(), body.kind) {
        return false;
    }
    if !meets(param.guard(), body.flags) {
        return false;
    }
    carries_all(store, task, instances, body, param.binds())
}

/// Whether there is one object for each parameter.
fn take_all(store: &Plain, task: &Task, instances: &[u32], params: &[Param], ids: &[u32]) -> bool
    ensures { result ≡ take_all store.now task.now instances.now params.now ids.now }
{
    match params {
        [] => ids.is_empty(),
        [param, params @ ..] => match ids {
            [] => false,
            [id, ids @ ..] => {
                takes(store, task, instances, param, *id)
                    && take_all(store, task, instances, params, ids)
            }
        },
    }
}

/// Whether no two of these numbers are the same.
pub(crate) fn are_different(ids: &[u32]) -> bool
    ensures { result ≡ are_different ids.now }
{
    match ids {
        [] => true,
        [id, rest @ ..] => !rest.contains(id) && are_different(rest),
    }
}

/// Whether these instances are in the store.
fn are_there(store: &Plain, instances: &[u32]) -> bool
    ensures { result ≡ list_all (λ n. nat_lt n (length store.now.tags)) instances.now }
{
    let there = store.tags.len();
    instances.iter().all(|number| (*number as usize) < there)
}

/// Whether an invocation of this task is enabled.
pub(crate) fn is_enabled_of(task: &Task, store: &Plain, objects: &[u32], instances: &[u32]) -> bool
    ensures { result ≡ is_enabled_of task.now store.now objects.now instances.now }
{
    if instances.len() != task.variables().len() {
        return false;
    }
    if !take_all(store, task, instances, task.params(), objects) {
        return false;
    }
    are_different(objects) && are_there(store, instances)
}

/// Whether an invocation is enabled.
pub fn is_enabled(program: &Program, store: &Plain, v: Invocation) -> bool
    ensures { result ≡ is_enabled program.now store.now v }
{
    match program.tasks().get(v.task as usize) {
        None => false,
        Some(task) => is_enabled_of(task, store, v.objects.as_slice(), v.tags.as_slice()),
    }
}
