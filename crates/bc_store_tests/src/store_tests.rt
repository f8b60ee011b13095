// The store at the start of a run.

use crate::changes::{has, has_numbers, new_objects};
use bc_data::run::{Kind, Value};
use bc_store::store::Store;
use std::alloc::{AllocError, Global};

// Whether the objects are those of the start, with these numbers as the input.
fn starts_with(store: &Store, input: &[Value]) -> bool {
    store.objects() == 2
        && has(store.body(0), Kind::Class(0), &[Value::Old(1)], 1, &[])
        && has_numbers(store.body(1), input)
}

#[test]
fn starts_with_the_input(rt: HostRuntime) -> Result<(), AllocError> {
    let store = Store::make(rt.alloc(), &[104, 105, 0, 255])?;
    let input = [
        Value::Int(104),
        Value::Int(105),
        Value::Int(0),
        Value::Int(255),
    ];
    assert!(rt; starts_with(&store, &input));
    assert!(rt; store.tags().is_empty());
    assert!(rt; store.output().is_empty());
    Ok(())
}

#[test]
fn starts_with_no_input(rt: HostRuntime) -> Result<(), AllocError> {
    let store = Store::make(rt.alloc(), &[])?;
    assert!(rt; starts_with(&store, &[]));
    Ok(())
}

fn reserve_objects(alloc: Global, store: &mut Store) -> Result<(), AllocError> {
    store.reserve_for(&new_objects(alloc, 3)?)
}

#[test]
fn stays_where_memory_is_taken(rt: HostRuntime) -> Result<(), AllocError> {
    let alloc = rt.alloc();
    let mut store = Store::make(alloc, b"a")?;
    reserve_objects(alloc, &mut store)?;
    assert!(rt; starts_with(&store, &[Value::Int(97)]));
    Ok(())
}
