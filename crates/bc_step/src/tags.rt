// Tag variables, and the instances that they bind to objects.

ghost use Rattle.std.specs.Prelude.{◌≡◌, ◌<◌, ℕ, List, Some, reverse, slice_get, IfOk, OnErr};
ghost use Rattle.std.specs.List.{list_any};
ghost use Rattle.bc_data.specs.declared.run.Body.{Body};
ghost use Rattle.bc_data.specs.declared.run.Written.{Written};
ghost use Rattle.bc_mean.specs.Values.{same_tag as meant_same};
ghost use Rattle.bc_mean.specs.Work.{Got, Reached, Work};
ghost use Rattle.bc_step.specs.Area.{AreaParts, AreCopies, IsSame, body_in};
ghost use Rattle.bc_step.specs.Parts.{Binds, Does, binds_next, reached_at, tags_set};
ghost use Rattle.bc_step.specs.State.{AnswersIf, KeepsGiven, StaysPut, state_with, tags_in};

use crate::answer::{advance, faulted};
use crate::area::{Area, ObjectRef};
use crate::body::{Edit, same_tag};
use crate::state::{Did, State};
use bc_data::run::{FaultKind, Place, TagRef};
use std::alloc::{AllocError, Global};

/// An object has at most so many tag instances.
const MOST_TAGS: usize = 16;

/// The instance of a tag variable. Only the task has tag variables, and no call within it.
#[inline]
pub(crate) fn tag_of(state: &State, variable: u32) -> Option<TagRef>
    ensures { result ≡ slice_get (tags_in (reverse state.now.callers.items) state.now.tags.items) variable }
{
    if state.callers.is_empty() {
        state.tags.get(variable as usize).copied()
    } else {
        None
    }
}

/// Puts an instance into a tag variable, if the task has it.
#[inline]
pub(crate) fn set_tag(state: &mut State, variable: u32, tag: TagRef)
    ensures tags { state.new.tags.items ≡ tags_set (reverse state.old.callers.items) variable tag state.old.tags.items }
    ensures others { state.new ≡ record state.old { tags = state.new.tags } }
{
    let variable = variable as usize;
    if state.callers.is_empty() && variable < state.tags.len() {
        state.tags[variable] = tag;
    }
}

fn has_tag(tags: &[TagRef], t: &TagRef) -> bool
    ensures { result ≡ list_any (meant_same t.now) tags.now }
{
    tags.iter().any(|s| same_tag(t, s))
}

/// Binds an instance to an object behind those that it has, unless it has it, and gives `false` where it has too
/// many.
fn bind(alloc: Global, area: &mut Area, object: ObjectRef, t: TagRef) -> Result<bool, AllocError>
    requires { (b : Body) × (body_in area.old object ≡ Some b) }
    ensures ok { IfOk result (λ bound. (p : Place) (b : Body)
        → body_in area.old object ≡ Some b → Binds bound p object b t area.old area.new) }
    ensures kept { KeepsGiven area.old area.new }
    ensures end { area.new.end ≡ area.old.end }
    ensures err { OnErr result (IsSame area.old area.new) }
{
    let body = area.body(object);
    if has_tag(body.tags.as_slice(), &t) {
        return Ok(true);
    }
    if body.tags.len() >= MOST_TAGS {
        return Ok(false);
    }
    area.edit(alloc, object, Edit::Bind(t))?;
    Ok(true)
}

/// Binds the instance of a tag variable to an object that was found, and goes on.
pub(crate) fn bind_variable(
    alloc: Global,
    state: &mut State,
    area: &mut Area,
    at: Place,
    object: ObjectRef,
    variable: u32,
) -> Result<Option<Did>, AllocError>
    requires there { (b : Body) × (body_in area.old object ≡ Some b) }
    requires next { state.old.current.next < 18446744073709551615 }
    ensures ok { IfOk result (λ did. (find : Work → Got Reached) (b : Body) (cs : List Written) (ts : List ℕ)
        → body_in area.old object ≡ Some b
        → Does (reached_at object b) area.old area.old find
        → AreCopies cs area.old.held
        → AnswersIf did state.old area.old state.new area.new
        (binds_next at variable find (state_with state.old area.old cs ts))) }
    ensures kept { KeepsGiven area.old area.new }
    ensures err { OnErr result (StaysPut state.old area.old state.new area.new) }
{
    let Some(tag) = tag_of(state, variable) else {
        return Ok(None);
    };
    if bind(alloc, area, object, tag)? {
        advance(state);
        Ok(Some(Did::On))
    } else {
        Ok(Some(faulted(area, FaultKind::TagSlots, at)))
    }
}
