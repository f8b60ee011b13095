// Bodies and changes, made for the tests, and compared.

use bc_data::list::{Bytes, List};
use bc_data::run::{Body, Changes, Kind, TagRef, Value, Written};
use std::alloc::{AllocError, Global};

/// A body of these parts.
pub fn body(
    alloc: Global,
    kind: Kind,
    cells: &[Value],
    flags: u32,
    tags: &[TagRef],
) -> Result<Body, AllocError> {
    Ok(Body {
        kind,
        cells: List::from_slice(alloc, cells)?,
        flags,
        tags: List::from_slice(alloc, tags)?,
    })
}

/// An array of numbers.
pub fn numbers(alloc: Global, cells: &[Value]) -> Result<Body, AllocError> {
    body(alloc, Kind::Ints, cells, 0, &[])
}

/// Bodies written to the first objects of a store.
pub fn written(alloc: Global, first: Body, second: Body) -> Result<List<Written>, AllocError> {
    let mut bodies = List::new(alloc);
    bodies.push(Written { id: 0, body: first })?;
    bodies.push(Written {
        id: 1,
        body: second,
    })?;
    Ok(bodies)
}

/// A body written to one object.
pub fn written_to(alloc: Global, id: u32, body: Body) -> Result<List<Written>, AllocError> {
    let mut bodies = List::new(alloc);
    bodies.push(Written { id, body })?;
    Ok(bodies)
}

/// An array of this many nulls.
pub fn nulls(alloc: Global, cells: usize) -> Result<Body, AllocError> {
    Ok(Body {
        kind: Kind::Objects(0),
        cells: List::from_vec(vec![in alloc; Value::Null; cells]?),
        flags: 0,
        tags: List::new(alloc),
    })
}

/// No changes.
pub fn no_changes(alloc: Global) -> Changes {
    Changes {
        bodies: List::new(alloc),
        made: List::new(alloc),
        tags: List::new(alloc),
        text: Bytes::new(alloc),
    }
}

/// New objects alone.
pub fn only_made(alloc: Global, made: List<Body>) -> Changes {
    Changes {
        bodies: List::new(alloc),
        made,
        tags: List::new(alloc),
        text: Bytes::new(alloc),
    }
}

/// As many bodies, which have no cells.
pub fn empty_bodies(alloc: Global, objects: usize) -> Result<List<Body>, AllocError> {
    let mut made = List::new(alloc);
    for _ in 0..objects {
        made.push(nulls(alloc, 0)?)?;
    }
    Ok(made)
}

/// As many new objects, which have no cells.
pub fn new_objects(alloc: Global, objects: usize) -> Result<Changes, AllocError> {
    Ok(only_made(alloc, empty_bodies(alloc, objects)?))
}

/// Bodies with so many cells.
pub fn bodies_of(alloc: Global, sizes: &[usize]) -> Result<List<Body>, AllocError> {
    let mut made = List::new(alloc);
    for size in sizes {
        made.push(nulls(alloc, *size)?)?;
    }
    Ok(made)
}

/// New objects with so many cells.
pub fn new_cells(alloc: Global, sizes: &[usize]) -> Result<Changes, AllocError> {
    Ok(only_made(alloc, bodies_of(alloc, sizes)?))
}

/// The types of as many instances.
pub fn instances(alloc: Global, instances: usize) -> Result<List<u32>, AllocError> {
    Ok(List::from_vec(vec![in alloc; 0; instances]?))
}

/// As many new instances.
pub fn new_instances(alloc: Global, count: usize) -> Result<Changes, AllocError> {
    let tags = instances(alloc, count)?;
    Ok(Changes {
        bodies: List::new(alloc),
        made: List::new(alloc),
        tags,
        text: Bytes::new(alloc),
    })
}

/// A text of so many bytes, of which there are at most 2 to the power of 25.
pub fn long_text(alloc: Global, bytes: usize) -> Result<Bytes, AllocError> {
    let mut text = Bytes::from_slice(alloc, b"x")?;
    for _ in 0..25 {
        let mut half = Bytes::from_slice(alloc, text.as_slice())?;
        text.append(&mut half)?;
    }
    text.truncate(bytes);
    Ok(text)
}

/// A new text of so many bytes.
pub fn new_text(alloc: Global, bytes: usize) -> Result<Changes, AllocError> {
    let text = long_text(alloc, bytes)?;
    Ok(Changes {
        bodies: List::new(alloc),
        made: List::new(alloc),
        tags: List::new(alloc),
        text,
    })
}

/// Whether a body is of this kind, and has these cells, flags and instances.
pub fn has(body: &Body, kind: Kind, cells: &[Value], flags: u32, tags: &[TagRef]) -> bool {
    body.kind == kind
        && body.cells.as_slice() == cells
        && body.flags == flags
        && body.tags.as_slice() == tags
}

/// Whether a body is an array of these numbers.
pub fn has_numbers(body: &Body, cells: &[Value]) -> bool {
    has(body, Kind::Ints, cells, 0, &[])
}
