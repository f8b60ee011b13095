// What is searched for, and the test of what is found.

ghost use Rattle.std.specs.Prelude.{◌≡◌, ◌<◌, ◌≤◌, ◌&&◌, ◌==◌, [], ◌∷◌, ◌++◌, length, take, slice_get, if◌then◌else◌, OnOk};
ghost use Rattle.std.specs.List.{list_all, list_any};
ghost use Rattle.bc_mean.specs.Enabled.{are_different};
ghost use Rattle.bc_params_sets.specs.Kept.{is_in, carries_by, takes_by, take_all_by};
ghost use Rattle.bc_params_search.specs.Tuples.{names};
ghost use Rattle.bc_params_search.specs.Search.{is_sought, only_if_sought};

use bc_data::ids::Ids;
use bc_data::list::List;
use bc_data::run::Invocation;
use bc_params_sets::place::{Place, TaskSets};
use bc_params_sets::tag_index::{Binding, TagIndex};
use std::alloc::AllocError;
use std::marker::Model;

/// A search among the invocations of a task: its sets and its number, the index of tag instances, the object that they
/// name, and how many are wanted.
#[derive(Drop)]
pub(crate) struct Search<'a> {
    pub task: &'a TaskSets,
    pub tags: &'a TagIndex,
    pub number: u32,
    pub id: u32,
    pub most: usize,
}

impl<'a> Model for Search<'a> {
    ghost use Rattle.std.specs.Coded.{codes};
    ghost use Rattle.bc_flags.specs.contracts.guard.Guard as guard;
    ghost use Rattle.bc_params_search.specs.Search.{Sought};

    ghost Value = { Sought };

    ghost coded = { Prim.hlevel (codes, guard.the_row.coded) };

    ghost view = { λ s. record { task = s.task.now; bound = s.tags.now.bound; number = s.number; id = s.id; most = s.most } };
}

/// The numbers and one more behind them.
pub(crate) fn with(front: Ids, n: u32) -> Ids
    requires { length front < 4 }
    ensures { result ≡ front ++ n ∷ [] }
{
    let mut longer = front;
    longer.push(n);
    longer
}

/// Whether an object is in the set of one of these places.
pub(crate) fn is_in_some(places: &[Place], id: u32) -> bool
    ensures { result ≡ list_any (λ q. is_in q id) places.now }
{
    places.iter().any(|place| place.objects.contains(id))
}

/// Whether no two of these numbers are the same.
pub(crate) fn are_different(ids: &[u32]) -> bool
    ensures { result ≡ are_different ids.now }
{
    match ids {
        [] => true,
        [id, rest @ ..] => !rest.contains(id) && are_different(rest),
    }
}

/// Whether an object carries the instance that a variable of the task names.
fn carries(task: &TaskSets, tags: &TagIndex, instances: &[u32], object: u32, variable: u32) -> bool
    ensures { result ≡ carries_by task.now tags.now.bound instances.now object variable }
{
    match (
        task.variables.get(variable as usize),
        instances.get(variable as usize),
    ) {
        (Some(tag_type), Some(instance)) => tags.contains(Binding {
            object,
            tag_type: *tag_type,
            instance: *instance,
        }),
        _ => false,
    }
}

/// Whether an object carries the instances that these variables name.
fn carries_all(
    task: &TaskSets,
    tags: &TagIndex,
    instances: &[u32],
    object: u32,
    variables: &[u32],
) -> bool
    ensures { result ≡ list_all (carries_by task.now tags.now.bound instances.now object) variables.now }
{
    variables.iter().all(|variable| carries(task, tags, instances, object, *variable))
}

/// Whether an object is in the set of a place and carries the instances that the place binds.
fn takes(task: &TaskSets, tags: &TagIndex, instances: &[u32], place: &Place, object: u32) -> bool
    ensures { result ≡ takes_by task.now tags.now.bound instances.now place.now object }
{
    place.objects.contains(object)
        && carries_all(task, tags, instances, object, place.binds.as_slice())
}

/// Whether there is one object for each place.
pub(crate) fn take_all(
    task: &TaskSets,
    tags: &TagIndex,
    instances: &[u32],
    places: &[Place],
    objects: &[u32],
) -> bool
    ensures { result ≡ take_all_by task.now tags.now.bound instances.now places.now objects.now }
{
    match places {
        [] => objects.is_empty(),
        [place, places @ ..] => match objects {
            [] => false,
            [object, objects @ ..] => {
                takes(task, tags, instances, place, *object)
                    && take_all(task, tags, instances, places, objects)
            }
        },
    }
}

impl<'a> Search<'a> {
    /// Whether these objects and instances make an enabled invocation that names the object.
    fn is_sought(&self, objects: &[u32], instances: &[u32]) -> bool
        ensures { result ≡ is_sought self.now (record { task = self.now.number; objects = objects.now; tags = instances.now }) }
    {
        instances.len() == self.task.variables.len()
            && take_all(
                self.task,
                self.tags,
                instances,
                self.task.places.as_slice(),
                objects,
            )
            && are_different(objects)
            && objects.contains(&self.id)
    }

    /// Appends the invocation of these objects and instances, if it is sought and one more is wanted.
    pub fn add_one(
        &self,
        found: &mut List<Invocation>,
        objects: Ids,
        tags: Ids,
    ) -> Result<(), AllocError>
        requires { length found.old ≤ self.now.most }
        ensures short { length found.new ≤ self.now.most }
        ensures found { OnOk result (found.new ≡ take self.now.most (found.old ++ only_if_sought self.now objects tags)) }
    {
        if found.len() < self.most && self.is_sought(objects.as_slice(), tags.as_slice()) {
            found.push(Invocation {
                task: self.number,
                objects,
                tags,
            })?;
        }
        Ok(())
    }
}
