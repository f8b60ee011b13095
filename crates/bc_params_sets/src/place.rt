// The places of tasks, with the objects that fit.

use crate::id_set::IdSet;
use bc_data::list::List;
use bc_flags::guard::Guard;

/// A parameter of a task: its class, its guard, the tag variables that it binds, and the objects of that class whose
/// flags meet the guard.
#[derive(Drop)]
pub struct Place {
    pub class: u32,
    pub guard: Guard,
    pub binds: List<u32>,
    pub objects: IdSet,
}

/// The places of a task, and the types of its tag variables.
#[derive(Drop)]
pub struct TaskSets {
    pub places: List<Place>,
    pub variables: List<u32>,
}
