// New objects and instances get their numbers in the store, in place.

ghost use Rattle.std.specs.Prelude.{◌≡◌, map, All};
ghost use Rattle.bc_mean.specs.Changes.{value_in, tag_in, body_in, apply_changes};
ghost use Rattle.bc_mean.specs.Commit.{written_in};
ghost use Rattle.bc_store.specs.Resolved.{resolved, HasNumber, HasTagNumber, HasNumbers, IsResolved};
ghost use Rattle.bc_store.specs.Store.{CanPublish};

use crate::store::Store;
use bc_data::list::List;
use bc_data::run::{Body, Changes, TagRef, Value, Written};

/// A value, with the number that a new object gets in the store.
fn value_in(store: &Store, value: Value) -> Value
    requires { HasNumber store.now.plain value }
    ensures { result ≡ value_in store.now.plain value }
{
    match value {
        Value::New(n) => Value::Old(store.objects() + n),
        Value::Int(n) => Value::Int(n),
        Value::Bool(b) => Value::Bool(b),
        Value::Null => Value::Null,
        Value::Old(n) => Value::Old(n),
    }
}

/// A tag instance, with the number that a new one gets in the store.
fn tag_in(store: &Store, tag: TagRef) -> TagRef
    requires { HasTagNumber store.now.plain tag }
    ensures { result ≡ tag_in store.now.plain tag }
{
    match tag {
        TagRef::New(n) => TagRef::Old(store.tags().len() as u32 + n),
        TagRef::Old(n) => TagRef::Old(n),
    }
}

fn resolve_cells(store: &Store, cells: &mut List<Value>)
    requires { All (HasNumber store.now.plain) cells.old }
    ensures { cells.new ≡ map (value_in store.now.plain) cells.old }
{
    for at in 0..cells.len() {
        cells[at] = value_in(store, cells[at]);
    }
}

fn resolve_tags(store: &Store, tags: &mut List<TagRef>)
    requires { All (HasTagNumber store.now.plain) tags.old }
    ensures { tags.new ≡ map (tag_in store.now.plain) tags.old }
{
    for at in 0..tags.len() {
        tags[at] = tag_in(store, tags[at]);
    }
}

fn resolve_body(store: &Store, body: &mut Body)
    requires { HasNumbers store.now.plain body.old }
    ensures { body.new ≡ body_in store.now.plain body.old }
{
    resolve_cells(store, &mut body.cells);
    resolve_tags(store, &mut body.tags);
}

fn resolve_written(store: &Store, written: &mut Written)
    requires { HasNumbers store.now.plain written.old.body }
    ensures { written.new ≡ written_in store.now.plain written.old }
{
    resolve_body(store, &mut written.body);
}

fn resolve_made(store: &Store, made: &mut List<Body>)
    requires { All (HasNumbers store.now.plain) made.old }
    ensures { made.new ≡ map (body_in store.now.plain) made.old }
{
    for at in 0..made.len() {
        resolve_body(store, &mut made[at]);
    }
}

fn resolve_changed(store: &Store, changed: &mut List<Written>)
    requires { All (λ w. HasNumbers store.now.plain w.body) changed.old }
    ensures { changed.new ≡ map (written_in store.now.plain) changed.old }
{
    for at in 0..changed.len() {
        resolve_written(store, &mut changed[at]);
    }
}

impl Store {
    /// Gives the new objects and instances of changes the numbers that they get in the store, in place. The changes
    /// mean the same. It takes no memory.
    pub fn resolve(&self, changes: &mut Changes)
        requires { CanPublish self.now.plain changes.old }
        ensures new { changes.new ≡ resolved self.now.plain changes.old }
        ensures same { apply_changes self.now.plain changes.new ≡ apply_changes self.now.plain changes.old }
        ensures still { CanPublish self.now.plain changes.new }
        ensures none_new { IsResolved changes.new }
    {
        resolve_changed(self, &mut changes.bodies);
        resolve_made(self, &mut changes.made);
    }
}
