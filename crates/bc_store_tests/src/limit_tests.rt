// A store that is filled to each limit by what is published in it, and what has room then.

use crate::changes::{
    bodies_of, new_cells, new_instances, new_objects, new_text, no_changes, numbers, written_to,
};
use crate::checked::{has_room, passes, publish};
use bc_data::list::{Bytes, List};
use bc_data::run::{Changes, FaultKind, Value};
use bc_store::store::Store;
use std::alloc::{AllocError, Global};

// Whether there is room for these changes, which are published then.
fn takes(store: &mut Store, changes: Changes) -> Result<bool, AllocError> {
    if store.room_for(&changes).is_some() {
        return Ok(false);
    }
    publish(store, changes)
}

fn fill_with_objects(alloc: Global, store: &mut Store) -> Result<bool, AllocError> {
    Ok(
        publish(store, new_objects(alloc, 30_000)?)?
            && publish(store, new_objects(alloc, 35_533)?)?
            && takes(store, new_objects(alloc, 1)?)?,
    )
}

fn is_full_of_objects(alloc: Global, store: &Store) -> Result<bool, AllocError> {
    Ok(
        has_room(store, no_changes(alloc))
            && passes(store, new_objects(alloc, 1)?, FaultKind::Objects),
    )
}

#[test]
fn fills_with_objects(rt: HostRuntime) -> Result<(), AllocError> {
    let alloc = rt.alloc();
    let mut store = Store::make(alloc, b"abc")?;
    assert!(rt; fill_with_objects(alloc, &mut store)?);
    assert!(rt; store.objects() == 65_536);
    assert!(rt; is_full_of_objects(alloc, &store)?);
    Ok(())
}

// A cell of a new object, and a changed body, which takes no room.
fn last_cell(alloc: Global) -> Result<Changes, AllocError> {
    let cells = [Value::Int(1), Value::Int(2), Value::Int(3)];
    let bodies = written_to(alloc, 1, numbers(alloc, &cells)?)?;
    Ok(Changes {
        bodies,
        made: bodies_of(alloc, &[1])?,
        tags: List::new(alloc),
        text: Bytes::new(alloc),
    })
}

fn fill_with_cells(alloc: Global, store: &mut Store) -> Result<bool, AllocError> {
    Ok(
        publish(store, new_cells(alloc, &[4_000_000, 0])?)?
            && publish(store, new_cells(alloc, &[194_299])?)?
            && takes(store, last_cell(alloc)?)?,
    )
}

fn is_full_of_cells(alloc: Global, store: &Store) -> Result<bool, AllocError> {
    Ok(
        has_room(store, new_cells(alloc, &[0])?)
            && passes(store, new_cells(alloc, &[0, 1])?, FaultKind::Cells),
    )
}

#[test]
fn fills_with_cells(rt: HostRuntime) -> Result<(), AllocError> {
    let alloc = rt.alloc();
    let mut store = Store::make(alloc, b"abc")?;
    assert!(rt; fill_with_cells(alloc, &mut store)?);
    assert!(rt; store.objects() == 6);
    assert!(rt; is_full_of_cells(alloc, &store)?);
    Ok(())
}

fn fill_with_instances(alloc: Global, store: &mut Store) -> Result<bool, AllocError> {
    Ok(publish(store, new_instances(alloc, 65_535)?)? && takes(store, new_instances(alloc, 1)?)?)
}

fn is_full_of_instances(alloc: Global, store: &Store) -> Result<bool, AllocError> {
    Ok(
        has_room(store, no_changes(alloc))
            && passes(store, new_instances(alloc, 1)?, FaultKind::Tags),
    )
}

#[test]
fn fills_with_instances(rt: HostRuntime) -> Result<(), AllocError> {
    let alloc = rt.alloc();
    let mut store = Store::make(alloc, b"abc")?;
    assert!(rt; fill_with_instances(alloc, &mut store)?);
    assert!(rt; store.tags().len() == 65_536);
    assert!(rt; is_full_of_instances(alloc, &store)?);
    Ok(())
}

fn fill_with_output(alloc: Global, store: &mut Store) -> Result<bool, AllocError> {
    Ok(publish(store, new_text(alloc, 16_777_215)?)? && takes(store, new_text(alloc, 1)?)?)
}

fn is_full_of_output(alloc: Global, store: &Store) -> Result<bool, AllocError> {
    Ok(has_room(store, no_changes(alloc)) && passes(store, new_text(alloc, 1)?, FaultKind::Output))
}

#[test]
fn fills_with_output(rt: HostRuntime) -> Result<(), AllocError> {
    let alloc = rt.alloc();
    let mut store = Store::make(alloc, b"abc")?;
    assert!(rt; fill_with_output(alloc, &mut store)?);
    assert!(rt; store.output().len() == 16_777_216);
    assert!(rt; is_full_of_output(alloc, &store)?);
    Ok(())
}
