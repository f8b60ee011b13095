// The search over all tasks.

ghost use Rattle.std.specs.Prelude.{◌≡◌, ◌<◌, ◌≤◌, ◌&&◌, ◌==◌, [], List as Sequence, length, take, All, IfOk, OnOk};
ghost use Rattle.std.specs.List.{list_any};
ghost use Rattle.bc_data.specs.declared.run.Invocation.{Invocation as Named};
ghost use Rattle.bc_mean.specs.Orders.{IsAscending};
ghost use Rattle.bc_mean.specs.Serial.{listed};
ghost use Rattle.bc_params_sets.specs.Kept.{is_enabled_by};
ghost use Rattle.bc_params_search.specs.Tuples.{names, IsSmall, IsBound, AreFew};
ghost use Rattle.bc_params_search.specs.Search.{Adds, has_none, picked};

use crate::search::{Search, is_in_some};
use bc_data::ids::Ids;
use bc_data::list::List;
use bc_data::run::Invocation;
use bc_params_sets::place::{Place, TaskSets};
use bc_params_sets::tag_index::TagIndex;
use std::alloc::{AllocError, Global};

/// Whether one of these places has no object.
fn is_some_empty(places: &[Place]) -> bool
    ensures { result ≡ list_any has_none places.now }
{
    places
        .iter()
        .any(|place| place.objects.as_slice().is_empty())
}

impl<'a> Search<'a> {
    /// Appends the sought invocations of the task, while more are wanted.
    fn add_task(&self, alloc: Global, found: &mut List<Invocation>) -> Result<(), AllocError>
        requires small { IsSmall self.now.task }
        requires bound { IsBound self.now.task }
        requires short { length found.old ≤ self.now.most }
        ensures short { length found.new ≤ self.now.most }
        ensures found { OnOk result (Adds self.now (picked self.now [] []) found.old found.new) }
    {
        let places = self.task.places.as_slice();
        // an object of no set stands at no place, and nothing stands where a set is empty
        if !is_in_some(places, self.id) {
            return Ok(());
        }
        if is_some_empty(places) {
            return Ok(());
        }
        self.add_objects(alloc, found, Ids::none())
    }
}

/// The first `most` enabled invocations that name the object, ascending, as the sets and the index tell.
pub fn tuples_with(
    alloc: Global,
    tasks: &[TaskSets],
    tags: &TagIndex,
    id: u32,
    most: usize,
) -> Result<List<Invocation>, AllocError>
    requires few { AreFew tasks.now }
    requires bound { All IsBound tasks.now }
    ensures { IfOk result (λ vs. (all : Sequence Named) → IsAscending all
        → ((v : Named) → listed all v ≡ (is_enabled_by (record { tasks = tasks.now; bound = tags.now.bound }) v && names id v))
        → vs ≡ take most all) }
{
    let mut found = List::new(alloc);
    for number in 0..tasks.len() {
        let search = Search {
            task: &tasks[number],
            tags,
            number: number as u32,
            id,
            most,
        };
        search.add_task(alloc, &mut found)?;
    }
    Ok(found)
}
