// The room for changes at each limit and one past it. The store at the start has two objects, and a cell more than its input.

use crate::changes::{
    bodies_of, empty_bodies, instances, long_text, new_cells, new_instances, new_objects, new_text,
    nulls,
};
use crate::checked::{has_room, is_past, passes};
use bc_data::list::List;
use bc_data::run::{Body, Changes, FaultKind};
use bc_store::store::Store;
use std::alloc::{AllocError, Global};

#[test]
fn room_for_objects(rt: HostRuntime) -> Result<(), AllocError> {
    let alloc = rt.alloc();
    let store = Store::make(alloc, b"abc")?;
    assert!(rt; has_room(&store, new_objects(alloc, 65_534)?));
    assert!(rt; passes(&store, new_objects(alloc, 65_535)?, FaultKind::Objects));
    Ok(())
}

#[test]
fn room_for_cells(rt: HostRuntime) -> Result<(), AllocError> {
    let alloc = rt.alloc();
    let store = Store::make(alloc, b"abc")?;
    assert!(rt; has_room(&store, new_cells(alloc, &[4_000_000, 194_300])?));
    let cells = new_cells(alloc, &[4_000_000, 194_301])?;
    assert!(rt; passes(&store, cells, FaultKind::Cells));
    Ok(())
}

#[test]
fn room_for_instances(rt: HostRuntime) -> Result<(), AllocError> {
    let alloc = rt.alloc();
    let store = Store::make(alloc, b"abc")?;
    assert!(rt; has_room(&store, new_instances(alloc, 65_536)?));
    assert!(rt; passes(&store, new_instances(alloc, 65_537)?, FaultKind::Tags));
    Ok(())
}

#[test]
fn room_for_output(rt: HostRuntime) -> Result<(), AllocError> {
    let alloc = rt.alloc();
    let store = Store::make(alloc, b"abc")?;
    assert!(rt; has_room(&store, new_text(alloc, 16_777_216)?));
    assert!(rt; passes(&store, new_text(alloc, 16_777_217)?, FaultKind::Output));
    Ok(())
}

// More objects than there is room for, and more cells.
fn too_many_bodies(alloc: Global) -> Result<List<Body>, AllocError> {
    let mut made = empty_bodies(alloc, 65_535)?;
    made.push(nulls(alloc, 4_194_301)?)?;
    Ok(made)
}

// Changes that pass all four limits.
fn too_much_of_all(alloc: Global) -> Result<Changes, AllocError> {
    Ok(Changes {
        bodies: List::new(alloc),
        made: too_many_bodies(alloc)?,
        tags: instances(alloc, 65_537)?,
        text: long_text(alloc, 16_777_217)?,
    })
}

// Whether each limit is named in its turn, as the changes pass one fewer at a time.
fn passes_each(alloc: Global, store: &Store, changes: &mut Changes) -> Result<bool, AllocError> {
    let objects = is_past(store, changes, FaultKind::Objects);
    changes.made = bodies_of(alloc, &[4_194_301])?;
    let cells = is_past(store, changes, FaultKind::Cells);
    changes.made.clear();
    let tags = is_past(store, changes, FaultKind::Tags);
    changes.tags.clear();
    Ok(objects && cells && tags && is_past(store, changes, FaultKind::Output))
}

#[test]
fn the_first_limit_counts(rt: HostRuntime) -> Result<(), AllocError> {
    let alloc = rt.alloc();
    let store = Store::make(alloc, b"abc")?;
    let mut changes = too_much_of_all(alloc)?;
    assert!(rt; passes_each(alloc, &store, &mut changes)?);
    Ok(())
}
