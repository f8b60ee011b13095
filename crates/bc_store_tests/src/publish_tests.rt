// Changes published and resolved, body by body. The store starts with an input of two bytes.

use crate::changes::{body, has, has_numbers, no_changes, numbers, written, written_to};
use crate::checked::{publish, resolve};
use bc_data::list::{Bytes, List};
use bc_data::run::{Body, Changes, Kind, TagRef, Value, Written};
use bc_store::store::Store;
use std::alloc::{AllocError, Global};

// The first changes: both objects change. Two new ones name each other, themselves and old ones, and have the new
// instances.
fn startup_to_write(alloc: Global) -> Result<Body, AllocError> {
    let cells = [Value::New(1)];
    body(alloc, Kind::Class(0), &cells, 0, &[TagRef::New(1)])
}

fn first_written(alloc: Global) -> Result<List<Written>, AllocError> {
    let startup = startup_to_write(alloc)?;
    let input = numbers(alloc, &[Value::Int(5), Value::Int(-6)])?;
    written(alloc, startup, input)
}

fn third_to_make(alloc: Global) -> Result<Body, AllocError> {
    let cells = [Value::New(1), Value::Old(0), Value::Null, Value::Bool(true)];
    let tags = [TagRef::New(1), TagRef::New(0)];
    body(alloc, Kind::Class(1), &cells, 3, &tags)
}

fn fourth_to_make(alloc: Global) -> Result<Body, AllocError> {
    let cells = [Value::New(0), Value::Null, Value::New(1)];
    body(alloc, Kind::Objects(1), &cells, 0, &[])
}

fn first_made(alloc: Global) -> Result<List<Body>, AllocError> {
    let mut made = List::new(alloc);
    made.push(third_to_make(alloc)?)?;
    made.push(fourth_to_make(alloc)?)?;
    Ok(made)
}

fn first_changes(alloc: Global) -> Result<Changes, AllocError> {
    Ok(Changes {
        bodies: first_written(alloc)?,
        made: first_made(alloc)?,
        tags: List::from_slice(alloc, &[4, 2])?,
        text: Bytes::from_slice(alloc, b"hi")?,
    })
}

// The objects of the start as the first changes leave them.
fn is_first(body: &Body) -> bool {
    has(body, Kind::Class(0), &[Value::Old(3)], 0, &[TagRef::Old(1)])
}

fn is_second(body: &Body) -> bool {
    has_numbers(body, &[Value::Int(5), Value::Int(-6)])
}

// The first new object as it stands in the store.
fn is_third(body: &Body) -> bool {
    let cells = [Value::Old(3), Value::Old(0), Value::Null, Value::Bool(true)];
    let tags = [TagRef::Old(1), TagRef::Old(0)];
    has(body, Kind::Class(1), &cells, 3, &tags)
}

// The second one.
fn is_fourth(body: &Body) -> bool {
    let cells = [Value::Old(2), Value::Null, Value::Old(3)];
    has(body, Kind::Objects(1), &cells, 0, &[])
}

// Whether a store is the one behind the first changes.
fn has_first_changes(store: &Store) -> bool {
    store.objects() == 4
        && is_first(store.body(0))
        && is_second(store.body(1))
        && is_third(store.body(2))
        && is_fourth(store.body(3))
        && store.tags() == [4, 2].as_slice()
        && store.output() == b"hi".as_slice()
}

#[test]
fn publishes(rt: HostRuntime) -> Result<(), AllocError> {
    let alloc = rt.alloc();
    let mut store = Store::make(alloc, b"ab")?;
    assert!(rt; publish(&mut store, first_changes(alloc)?)?);
    assert!(rt; has_first_changes(&store));
    Ok(())
}

// The second changes: an object that the first changes made gets a new object, and a new instance beside its own. The
// new object has the new instance and an old one.
fn third_to_write(alloc: Global) -> Result<Body, AllocError> {
    let cells = [
        Value::New(0),
        Value::Old(3),
        Value::Null,
        Value::Bool(false),
    ];
    let tags = [TagRef::Old(1), TagRef::New(0)];
    body(alloc, Kind::Class(1), &cells, 2, &tags)
}

fn fifth_to_make(alloc: Global) -> Result<List<Body>, AllocError> {
    let tags = [TagRef::New(0), TagRef::Old(0)];
    let mut made = List::new(alloc);
    made.push(body(alloc, Kind::Class(2), &[], 1, &tags)?)?;
    Ok(made)
}

fn second_changes(alloc: Global) -> Result<Changes, AllocError> {
    Ok(Changes {
        bodies: written_to(alloc, 2, third_to_write(alloc)?)?,
        made: fifth_to_make(alloc)?,
        tags: List::from_slice(alloc, &[7])?,
        text: Bytes::from_slice(alloc, b", you")?,
    })
}

fn is_changed_third(body: &Body) -> bool {
    let cells = [
        Value::Old(4),
        Value::Old(3),
        Value::Null,
        Value::Bool(false),
    ];
    let tags = [TagRef::Old(1), TagRef::Old(2)];
    has(body, Kind::Class(1), &cells, 2, &tags)
}

fn is_fifth(body: &Body) -> bool {
    let tags = [TagRef::Old(2), TagRef::Old(0)];
    has(body, Kind::Class(2), &[], 1, &tags)
}

// Whether a store is the one behind both changes.
fn has_both_changes(store: &Store) -> bool {
    store.objects() == 5
        && is_first(store.body(0))
        && is_second(store.body(1))
        && is_changed_third(store.body(2))
        && is_fourth(store.body(3))
        && is_fifth(store.body(4))
        && store.tags() == [4, 2, 7].as_slice()
        && store.output() == b"hi, you".as_slice()
}

#[test]
fn publishes_twice(rt: HostRuntime) -> Result<(), AllocError> {
    let alloc = rt.alloc();
    let mut store = Store::make(alloc, b"ab")?;
    assert!(rt; publish(&mut store, first_changes(alloc)?)?);
    assert!(rt; publish(&mut store, second_changes(alloc)?)?);
    assert!(rt; has_both_changes(&store));
    Ok(())
}

// Whether a store is the one at the start, of an input of one byte.
fn is_at_the_start(store: &Store) -> bool {
    store.objects() == 2
        && has(store.body(0), Kind::Class(0), &[Value::Old(1)], 1, &[])
        && has_numbers(store.body(1), &[Value::Int(97)])
        && store.tags().is_empty()
        && store.output().is_empty()
}

#[test]
fn publishes_nothing(rt: HostRuntime) -> Result<(), AllocError> {
    let alloc = rt.alloc();
    let mut store = Store::make(alloc, b"a")?;
    assert!(rt; publish(&mut store, no_changes(alloc))?);
    assert!(rt; is_at_the_start(&store));
    Ok(())
}

// Whether these are the bodies of the first objects, behind the first changes.
fn are_written(bodies: &[Written]) -> bool {
    match bodies {
        [first, second] => {
            first.id == 0 && is_first(&first.body) && second.id == 1 && is_second(&second.body)
        }
        _ => false,
    }
}

fn are_made(bodies: &[Body]) -> bool {
    match bodies {
        [third, fourth] => is_third(third) && is_fourth(fourth),
        _ => false,
    }
}

// Resolved, the changes have the bodies that stand in the store behind them, and lead to the same store.
#[test]
fn resolves(rt: HostRuntime) -> Result<(), AllocError> {
    let alloc = rt.alloc();
    let mut store = Store::make(alloc, b"ab")?;
    let mut changes = first_changes(alloc)?;
    assert!(rt; resolve(&store, &mut changes));
    assert!(rt; are_written(changes.bodies.as_slice()));
    assert!(rt; are_made(changes.made.as_slice()));
    assert!(rt; store.objects() == 2);
    assert!(rt; publish(&mut store, changes)?);
    assert!(rt; has_first_changes(&store));
    Ok(())
}
