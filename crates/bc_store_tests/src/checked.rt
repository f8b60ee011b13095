// Whether changes can be published, found by looking.

ghost use Rattle.std.specs.Prelude.{◌≡◌, length, All, IsTrue};
ghost use Rattle.bc_mean.specs.Commit.{IsMadeValue, IsMadeTag, IsMadeBody};
ghost use Rattle.bc_store.specs.Store.{CanPublish};
ghost use Rattle.bc_store_tests.specs.Checked.{Ascend, CanWrite};

use bc_data::run::{Body, Changes, FaultKind, TagRef, Value, Written};
use bc_store::store::Store;
use std::alloc::AllocError;

/// Whether a value names no new object, or one of so many.
fn is_made_value(made: usize, value: Value) -> bool
    ensures { IsTrue result → IsMadeValue made value }
{
    match value {
        Value::New(n) => (n as usize) < made,
        Value::Int(_) | Value::Bool(_) | Value::Null | Value::Old(_) => true,
    }
}

/// Whether an instance is not new, or one of so many.
fn is_made_tag(made: usize, tag: TagRef) -> bool
    ensures { IsTrue result → IsMadeTag made tag }
{
    match tag {
        TagRef::New(n) => (n as usize) < made,
        TagRef::Old(_) => true,
    }
}

fn are_made_values(made: usize, values: &[Value]) -> bool
    ensures { IsTrue result → All (IsMadeValue made) values.now }
{
    values.iter().all(|value| is_made_value(made, *value))
}

fn are_made_tags(made: usize, tags: &[TagRef]) -> bool
    ensures { IsTrue result → All (IsMadeTag made) tags.now }
{
    tags.iter().all(|tag| is_made_tag(made, *tag))
}

/// Whether the new objects and instances that a body names are among those of the changes.
fn is_made_body(changes: &Changes, body: &Body) -> bool
    ensures { IsTrue result → IsMadeBody changes.now body.now }
{
    are_made_values(changes.made.len(), body.cells.as_slice())
        && are_made_tags(changes.tags.len(), body.tags.as_slice())
}

fn are_made_bodies(changes: &Changes) -> bool
    ensures { IsTrue result → All (IsMadeBody changes.now) changes.now.made }
{
    changes.made.iter().all(|body| is_made_body(changes, body))
}

fn can_write(store: &Store, changes: &Changes, written: &Written) -> bool
    ensures { IsTrue result → CanWrite store.now.plain changes.now written.now }
{
    written.id < store.objects()
        && written.body.cells.len() == store.body(written.id).cells.len()
        && is_made_body(changes, &written.body)
}

fn can_write_all(store: &Store, changes: &Changes) -> bool
    ensures { IsTrue result → All (CanWrite store.now.plain changes.now) changes.now.bodies }
{
    changes
        .bodies
        .iter()
        .all(|written| can_write(store, changes, written))
}

/// Whether the objects ascend, from this number on.
fn ascend(from: u64, bodies: &[Written]) -> bool
    ensures { IsTrue result → Ascend from bodies.now }
{
    match bodies {
        [] => true,
        [written, rest @ ..] => {
            from <= u64::from(written.id) && ascend(u64::from(written.id) + 1, rest)
        }
    }
}

/// Whether changes can be published in a store.
pub fn can_publish(store: &Store, changes: &Changes) -> bool
    ensures { IsTrue result → CanPublish store.now.plain changes.now }
{
    if store.room_for(changes).is_some() {
        return false;
    }
    if !can_write_all(store, changes) {
        return false;
    }
    if !are_made_bodies(changes) {
        return false;
    }
    ascend(0, changes.bodies.as_slice())
}

/// Publishes changes in memory that is reserved for them, and says whether they could be published.
pub fn publish(store: &mut Store, changes: Changes) -> Result<bool, AllocError> {
    if !can_publish(store, &changes) {
        return Ok(false);
    }
    store.reserve_for(&changes)?;
    store.publish(changes);
    Ok(true)
}

/// Resolves changes, and says whether they could be published.
pub fn resolve(store: &Store, changes: &mut Changes) -> bool {
    if !can_publish(store, changes) {
        return false;
    }
    store.resolve(changes);
    true
}

/// Whether a store has room for changes.
pub fn has_room(store: &Store, changes: Changes) -> bool {
    store.room_for(&changes).is_none()
}

/// Whether changes would pass limits of a store, of which this is the first.
pub fn is_past(store: &Store, changes: &Changes, limit: FaultKind) -> bool {
    store.room_for(changes) == Some(limit)
}

/// As `is_past`, of changes that are dropped then.
pub fn passes(store: &Store, changes: Changes, limit: FaultKind) -> bool {
    is_past(store, &changes, limit)
}
