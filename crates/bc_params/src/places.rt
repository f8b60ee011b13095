// The places of tasks, updated where a body is replaced.

ghost use Rattle.std.specs.Prelude.{◌≡◌, ◌+◌, ◌≤◌, ◌<◌, ◌^◌, if◌then◌else◌, length, count_by, option_copied, IfSome};
ghost use Rattle.bc_params.specs.Look.{class_of, class_of_either};
ghost use Rattle.bc_params.specs.Places.{flags_of, update_of, is_of, is_met_now, IsUpdated, AtEachPlace, Each, places_of, PlacesHaveRoom, HaveRoom};

use bc_data::list::List;
use bc_data::run::{Body, Kind};
use bc_flags::guard::Guard;
use bc_params_sets::place::{Place, TaskSets};
use bc_steps::Steps;
use std::sync::ledger::Ledger;

/// What the places need to know where a body is replaced: the object, its class, if it is of one, and its flags, if it is
/// there now.
#[derive(Clone, Copy)]
pub struct Update {
    pub id: u32,
    pub class: Option<u32>,
    pub flags: Option<u32>,
}

fn class_of(kind: Kind) -> Option<u32>
    ensures { result ≡ class_of kind }
{
    match kind {
        Kind::Class(class) => Some(class),
        Kind::Ints | Kind::Bools | Kind::Objects(_) => None,
    }
}

fn class_of_either(before: Option<&Body>, after: Option<&Body>) -> Option<u32>
    ensures { result ≡ class_of_either (option_copied before.entry) (option_copied after.entry) }
{
    match (before, after) {
        (Some(body), _) => class_of(body.kind),
        (None, Some(body)) => class_of(body.kind),
        (None, None) => None,
    }
}

fn flags_in(body: &Body) -> u32
    ensures { result ≡ body.now.flags }
{
    body.flags
}

fn flags_of(after: Option<&Body>) -> Option<u32>
    ensures value { result ≡ flags_of (option_copied after.entry) }
    ensures fits { IfSome result (λ flags. flags < 2 ^ 32) }
{
    match after {
        Some(body) => Some(flags_in(body)),
        None => None,
    }
}

/// The update from a body to another.
pub fn update_of(id: u32, before: Option<&Body>, after: Option<&Body>) -> Update
    ensures value { result ≡ update_of id (option_copied before.entry) (option_copied after.entry) }
    ensures fits { IfSome result.flags (λ flags. flags < 2 ^ 32) }
{
    Update {
        id,
        class: class_of_either(before, after),
        flags: flags_of(after),
    }
}

fn is_of(class: Option<u32>, place: &Place) -> bool
    ensures { result ≡ is_of class place.now }
{
    match class {
        Some(class) => place.class == class,
        None => false,
    }
}

/// Whether the object is there and meets the guard, which is tested once.
fn is_met_now<L: Ledger>(guard: &Guard, flags: Option<u32>, steps: &mut Steps<L>) -> bool
    ensures value { result ≡ is_met_now flags guard.now }
    ensures steps { steps.new ≤ steps.old + 1 }
{
    match flags {
        Some(flags) => guard.holds(flags, steps),
        None => false,
    }
}

/// Puts the object into the set of a place of its class, or takes it out.
fn update_place<L: Ledger>(place: &mut Place, update: Update, steps: &mut Steps<L>)
    requires { 1 ≤ place.old.objects.spare }
    ensures updated { IsUpdated update place.old place.new }
    ensures steps { steps.new ≤ steps.old + (if is_of update.class place.old then 1 else 0) }
{
    if !is_of(update.class, place) {
        return;
    }
    if is_met_now(&place.guard, update.flags, steps) {
        place.objects.insert(update.id);
    } else {
        place.objects.remove(update.id);
    }
    let _ = place.objects.as_slice();
}

fn update_places<L: Ledger>(places: &mut List<Place>, update: Update, steps: &mut Steps<L>)
    requires { PlacesHaveRoom 1 places.old }
    ensures updated { Each (IsUpdated update) places.old places.new }
    ensures steps { steps.new ≤ steps.old + count_by (is_of update.class) places.old }
{
    for i in 0..places.len() {
        update_place(&mut places[i], update, steps);
    }
}

/// Brings the sets of all places up to date.
pub fn update_tasks<L: Ledger>(tasks: &mut Vec<TaskSets>, update: Update, steps: &mut Steps<L>)
    requires { HaveRoom 1 tasks.old.items }
    ensures updated { Each (AtEachPlace (IsUpdated update)) tasks.old.items tasks.new.items }
    ensures steps { steps.new ≤ steps.old + places_of update.class tasks.old.items }
{
    for i in 0..tasks.len() {
        update_places(&mut tasks[i].places, update, steps);
    }
}
