// Changes are applied to a store.

ghost use Rattle.std.specs.Prelude.{◌≡◌, ◌<◌, ◌++◌, length, map, All, IfOk, OnOk, OnErr};
ghost use Rattle.bc_mean.specs.Changes.{value_in, tag_in, body_in, apply_changes};
ghost use Rattle.bc_mean.specs.Commit.{IsMadeValue, IsMadeTag, IsMadeBody, HasRoom, written_in, placed};

use crate::plain::Plain;
use bc_data::list::{Bytes, List};
use bc_data::run::{Body, Changes, TagRef, Value, Written};
use std::alloc::{AllocError, Global};

/// A value, with the number that a new object gets in the store.
fn value_in(store: &Plain, changes: &Changes, value: Value) -> Value
    requires room { HasRoom store.now changes.now }
    requires made { IsMadeValue (length changes.now.made) value }
    ensures { result ≡ value_in store.now value }
{
    let _ = changes;
    match value {
        Value::New(n) => Value::Old(store.bodies.len() as u32 + n),
        Value::Int(n) => Value::Int(n),
        Value::Bool(b) => Value::Bool(b),
        Value::Null => Value::Null,
        Value::Old(n) => Value::Old(n),
    }
}

/// A tag instance, with the number that a new one gets in the store.
fn tag_in(store: &Plain, changes: &Changes, tag: TagRef) -> TagRef
    requires room { HasRoom store.now changes.now }
    requires made { IsMadeTag (length changes.now.tags) tag }
    ensures { result ≡ tag_in store.now tag }
{
    let _ = changes;
    match tag {
        TagRef::New(n) => TagRef::Old(store.tags.len() as u32 + n),
        TagRef::Old(n) => TagRef::Old(n),
    }
}

/// The values of cells, with the numbers that new objects get.
fn cells_in(
    alloc: Global,
    store: &Plain,
    changes: &Changes,
    cells: &[Value],
) -> Result<List<Value>, AllocError>
    requires room { HasRoom store.now changes.now }
    requires made { All (IsMadeValue (length changes.now.made)) cells.now }
    ensures { IfOk result (λ values. values ≡ map (value_in store.now) cells.now) }
{
    let mut values = List::new(alloc);
    for value in cells {
        values.push(value_in(store, changes, *value))?;
    }
    Ok(values)
}

/// The instances of an object, with the numbers that new ones get.
fn tags_in(
    alloc: Global,
    store: &Plain,
    changes: &Changes,
    tags: &[TagRef],
) -> Result<List<TagRef>, AllocError>
    requires room { HasRoom store.now changes.now }
    requires made { All (IsMadeTag (length changes.now.tags)) tags.now }
    ensures { IfOk result (λ instances. instances ≡ map (tag_in store.now) tags.now) }
{
    let mut instances = List::new(alloc);
    for tag in tags {
        instances.push(tag_in(store, changes, *tag))?;
    }
    Ok(instances)
}

/// A body as it stands in the store.
fn body_in(alloc: Global, store: &Plain, changes: &Changes, body: &Body) -> Result<Body, AllocError>
    requires room { HasRoom store.now changes.now }
    requires made { IsMadeBody changes.now body.now }
    ensures { IfOk result (λ own. own ≡ body_in store.now body.now) }
{
    Ok(Body {
        kind: body.kind,
        cells: cells_in(alloc, store, changes, body.cells.as_slice())?,
        flags: body.flags,
        tags: tags_in(alloc, store, changes, body.tags.as_slice())?,
    })
}

/// The new bodies as they stand in the store.
fn made_in(alloc: Global, store: &Plain, changes: &Changes) -> Result<List<Body>, AllocError>
    requires { HasRoom store.now changes.now }
    ensures { IfOk result (λ bodies. bodies ≡ map (body_in store.now) changes.now.made) }
{
    let mut bodies = List::new(alloc);
    for body in changes.made.as_slice() {
        bodies.push(body_in(alloc, store, changes, body)?)?;
    }
    Ok(bodies)
}

/// The changed bodies as they stand in the store.
fn changed_in(alloc: Global, store: &Plain, changes: &Changes) -> Result<List<Written>, AllocError>
    requires { HasRoom store.now changes.now }
    ensures { IfOk result (λ bodies. bodies ≡ map (written_in store.now) changes.now.bodies) }
{
    let mut bodies = List::new(alloc);
    for written in changes.bodies.as_slice() {
        bodies.push(Written {
            id: written.id,
            body: body_in(alloc, store, changes, &written.body)?,
        })?;
    }
    Ok(bodies)
}

/// Puts bodies in their objects' places.
fn place(bodies: &mut List<Body>, changed: List<Written>)
    requires { All (λ w. w.id < length bodies.old) changed }
    ensures { bodies.new ≡ placed changed bodies.old }
{
    for written in changed {
        bodies[written.id as usize] = written.body;
    }
}

/// Appends new bodies, types of new instances, and text. On `Err` the store is as it was.
fn append(
    store: &mut Plain,
    made: &mut List<Body>,
    tags: &mut List<u32>,
    text: &mut Bytes,
) -> Result<(), AllocError>
    ensures ok { OnOk result (store.new ≡ record { bodies = store.old.bodies ++ made.old; tags = store.old.tags ++ tags.old; output = store.old.output ++ text.old }) }
    ensures err { OnErr result (store.new ≡ store.old) }
{
    let objects = store.bodies.len();
    let instances = store.tags.len();
    store.bodies.append(made)?;
    if let Err(error) = store.tags.append(tags) {
        store.bodies.truncate(objects);
        return Err(error);
    }
    if let Err(error) = store.output.append(text) {
        store.tags.truncate(instances);
        store.bodies.truncate(objects);
        return Err(error);
    }
    Ok(())
}

/// Applies changes to a store: each changed body takes the place of the one before, new objects and instances get the next
/// numbers in order, and the text goes behind the output. On `Err` the store is as it was.
pub fn apply(alloc: Global, store: &mut Plain, changes: Changes) -> Result<(), AllocError>
    requires { HasRoom store.old changes }
    ensures ok { OnOk result (store.new ≡ apply_changes store.old changes) }
    ensures err { OnErr result (store.new ≡ store.old) }
{
    let changed = changed_in(alloc, store, &changes)?;
    let mut made = made_in(alloc, store, &changes)?;
    let Changes {
        mut tags,
        mut text,
        ..
    } = changes;
    append(store, &mut made, &mut tags, &mut text)?;
    place(&mut store.bodies, changed);
    Ok(())
}
