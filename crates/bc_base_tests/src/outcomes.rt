// An outcome is copied whole.

use bc_data::list::{Bytes, List};
use bc_data::run::{Body, Changes, Kind, Outcome, Ran, TagRef, Value, Written};
use std::alloc::{AllocError, Global};

fn some_body(alloc: Global) -> Result<Body, AllocError> {
    Ok(Body {
        kind: Kind::Ints,
        cells: List::from_slice(alloc, &[Value::Int(-4), Value::New(0)])?,
        flags: 5,
        tags: List::from_slice(alloc, &[TagRef::New(0)])?,
    })
}

fn is_some_body(body: &Body) -> bool {
    body.kind == Kind::Ints
        && body.cells.as_slice() == [Value::Int(-4), Value::New(0)].as_slice()
        && body.flags == 5
        && body.tags.as_slice() == [TagRef::New(0)].as_slice()
}

fn some_made(alloc: Global) -> Result<List<Body>, AllocError> {
    let mut made = List::new(alloc);
    made.push(some_body(alloc)?)?;
    Ok(made)
}

fn is_some_made(made: &[Body]) -> bool {
    match made {
        [body] => is_some_body(body),
        _ => false,
    }
}

fn some_written(alloc: Global) -> Result<List<Written>, AllocError> {
    let mut bodies = List::new(alloc);
    bodies.push(Written {
        id: 2,
        body: some_body(alloc)?,
    })?;
    Ok(bodies)
}

fn is_some_written(bodies: &[Written]) -> bool {
    match bodies {
        [written] => written.id == 2 && is_some_body(&written.body),
        _ => false,
    }
}

fn some_changes(alloc: Global) -> Result<Changes, AllocError> {
    Ok(Changes {
        bodies: some_written(alloc)?,
        made: some_made(alloc)?,
        tags: List::from_slice(alloc, &[3])?,
        text: Bytes::from_slice(alloc, b"done")?,
    })
}

fn are_some_changes(changes: &Changes) -> bool {
    is_some_written(changes.bodies.as_slice())
        && is_some_made(changes.made.as_slice())
        && changes.tags.as_slice() == [3].as_slice()
        && changes.text.as_slice() == b"done".as_slice()
}

fn some_outcome(alloc: Global) -> Result<Outcome, AllocError> {
    Ok(Outcome {
        ran: Ran::Commit(some_changes(alloc)?),
        touched: List::from_slice(alloc, &[2])?,
    })
}

fn is_some_outcome(outcome: &Outcome) -> bool {
    match &outcome.ran {
        Ran::Commit(changes) => {
            are_some_changes(changes) && outcome.touched.as_slice() == [2].as_slice()
        }
        Ran::Faulted(_) => false,
    }
}

fn copied(alloc: Global) -> Result<Outcome, AllocError> {
    some_outcome(alloc)?.copy(alloc)
}

#[test]
fn copies_an_outcome(rt: HostRuntime) -> Result<(), AllocError> {
    assert!(rt; is_some_outcome(&copied(rt.alloc())?));
    Ok(())
}
