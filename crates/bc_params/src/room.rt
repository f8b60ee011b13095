// Room in the sets of places, and how much changes ask for.

ghost use Rattle.std.specs.Prelude.{◌≡◌, ◌+◌, ◌*◌, ◌^◌, ◌≤◌, length, MatchOption, OnOk, sum_by};
ghost use Rattle.bc_params.specs.Places.{Each, IsRoomier, AtEachPlace, PlacesHaveRoom, HaveRoom, bodies_in, tags_of_changes};

use bc_data::list::List;
use bc_data::run::{Body, Changes, Written};
use bc_params_sets::place::{Place, TaskSets};
use std::alloc::AllocError;

/// The most tags that an object of a store has.
const MOST_TAGS: usize = 16;

/// Makes room in the sets of these places.
fn reserve_places(places: &mut List<Place>, n: usize) -> Result<(), AllocError>
    ensures same { Each IsRoomier places.old places.new }
    ensures room { OnOk result (PlacesHaveRoom n places.new) }
{
    for i in 0..places.len() {
        places[i].objects.reserve(n)?;
    }
    Ok(())
}

/// Makes room in the sets of all places.
pub fn reserve_tasks(tasks: &mut Vec<TaskSets>, n: usize) -> Result<(), AllocError>
    ensures same { Each (AtEachPlace IsRoomier) tasks.old.items tasks.new.items }
    ensures room { OnOk result (HaveRoom n tasks.new.items) }
{
    for i in 0..tasks.len() {
        reserve_places(&mut tasks[i].places, n)?;
    }
    Ok(())
}

/// How many tags these have, unless they can't be counted.
fn tags_of_written(bodies: &[Written]) -> Option<usize>
    ensures { MatchOption result (2 ^ 64 ≤ sum_by (λ w. length w.body.tags) bodies.now) (λ n. n ≡ sum_by (λ w. length w.body.tags) bodies.now) }
{
    let mut sum = 0_usize;
    for written in bodies {
        sum = sum.checked_add(written.body.tags.len())?;
    }
    Some(sum)
}

fn tags_of_made(bodies: &[Body]) -> Option<usize>
    ensures { MatchOption result (2 ^ 64 ≤ sum_by (λ b. length b.tags) bodies.now) (λ n. n ≡ sum_by (λ b. length b.tags) bodies.now) }
{
    let mut sum = 0_usize;
    for body in bodies {
        sum = sum.checked_add(body.tags.len())?;
    }
    Some(sum)
}

/// For how many updates to make room, unless they can't be counted.
pub fn updates_for(changes: &Changes) -> Option<usize>
    ensures { MatchOption result (2 ^ 64 ≤ 2 * bodies_in changes.now) (λ n. n ≡ 2 * bodies_in changes.now) }
{
    let bodies = changes.bodies.len().checked_add(changes.made.len())?;
    bodies.checked_mul(2)
}

/// For how many bindings to make room: for those of the new bodies, and for those of the bodies that come back; `None` where they
/// can't be counted.
pub fn bindings_for(changes: &Changes) -> Option<usize>
    ensures { MatchOption result (2 ^ 64 ≤ 2 * tags_of_changes changes.now + 16 * length changes.now.bodies) (λ n. n ≡ 2 * tags_of_changes changes.now + 16 * length changes.now.bodies) }
{
    let changed = tags_of_written(changes.bodies.as_slice())?;
    let made = tags_of_made(changes.made.as_slice())?;
    let twice = changed.checked_add(made)?.checked_mul(2)?;
    let back = changes.bodies.len().checked_mul(MOST_TAGS)?;
    twice.checked_add(back)
}
