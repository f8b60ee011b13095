// Stores that are made by hand: their start, their enabled invocations, and changes.

ghost use Rattle.std.specs.Prelude.{◌≡◌, ◌≤◌, pos, [], ◌∷◌, length, IfOk, OnOk};
ghost use Rattle.bc_mean.specs.Changes.{apply_changes};
ghost use Rattle.bc_mean.specs.Commit.{HasRoom};

use crate::rows::accepted;
use bc_data::ids::Ids;
use bc_data::list::{Bytes, List};
use bc_data::program::Program;
use bc_data::run::{Body, Changes, Invocation, Kind, TagRef, Value, Written};
use bc_mean::plain::Plain;
use bc_mean::{all_enabled, apply, start};
use std::alloc::{AllocError, Global};
use std::process::Abort;
use std::test::Fail;

// The program of a text with two classes, two tag types, a task that nothing enables, and a task of two objects.
fn program(rt: &impl Abort, alloc: Global, second_task: &str) -> Result<Program, Fail> {
    let text = format!(in alloc;
        "tagtype T; tagtype U;
class A {{ flag f; }}
class B {{ flag f; flag g; }}
task none(StartupObject s in false) {{ }}
{second_task}"
    )?;
    assert!(rt; text.len() <= 1_048_576);
    accepted(alloc, text.as_str())
}

fn is_body(body: &Body, kind: Kind, cells: &[Value], flags: u32, tags: &[TagRef]) -> bool {
    body.kind == kind
        && body.cells.as_slice() == cells
        && body.flags == flags
        && body.tags.as_slice() == tags
}

fn are_at_the_start(startup: &Body, input: &Body) -> bool {
    let bytes = [Value::Int(97), Value::Int(98), Value::Int(99)];
    is_body(startup, Kind::Class(0), &[Value::Old(1)], 1, &[])
        && is_body(input, Kind::Ints, &bytes, 0, &[])
}

#[test]
fn starts_with_the_input(rt: HostRuntime) -> Result<(), Fail> {
    let alloc = rt.alloc();
    let store = start(alloc, &program(&rt, alloc, "")?, b"abc")?;
    let [startup, input] = store.bodies.as_slice() else {
        return Err("two objects")?;
    };
    assert!(rt; are_at_the_start(startup, input));
    assert!(rt; store.tags.is_empty());
    assert!(rt; store.output.is_empty());
    Ok(())
}

fn object(alloc: Global, class: u32, flags: u32, tags: &[TagRef]) -> Result<Body, AllocError> {
    Ok(Body {
        kind: Kind::Class(class),
        cells: List::new(alloc),
        flags,
        tags: List::from_slice(alloc, tags)?,
    })
}

// Objects 2, 3 and 6 are of class 1, and 4 and 5 of class 2. Instances 0 and 2 have the type 0, and 1 has the type 1.
fn some_store(alloc: Global, program: &Program) -> Result<Plain, AllocError> {
    let mut store = start(alloc, program, b"")?;
    let bodies = &mut store.bodies;
    bodies.push(object(alloc, 1, 1, &[TagRef::Old(0)])?)?;
    let three = [TagRef::Old(1), TagRef::Old(0), TagRef::Old(2)];
    bodies.push(object(alloc, 1, 1, &three)?)?;
    bodies.push(object(alloc, 2, 2, &[TagRef::Old(1), TagRef::Old(2)])?)?;
    bodies.push(object(alloc, 2, 2, &[TagRef::Old(0)])?)?;
    bodies.push(object(alloc, 1, 0, &[])?)?;
    store.tags.extend_from_slice(&[0, 1, 0])?;
    Ok(store)
}

fn found(alloc: Global, program: &Program) -> Result<List<Invocation>, Fail> {
    let store = some_store(alloc, program)?;
    if store.bodies.len() > 65_536 || store.tags.len() > 65_536 {
        return Err("a small store")?;
    }
    Ok(all_enabled(alloc, program, &store)?)
}

#[test]
fn pairs_different_objects_in_order(rt: HostRuntime) -> Result<(), Fail> {
    let alloc = rt.alloc();
    let program = program(&rt, alloc, "task pair(A x in f, A y in true) { }")?;
    let found = found(alloc, &program)?;
    let pair = |one: u32, other: u32| Invocation {
        task: 1,
        objects: Ids::from_slice(&[one, other]),
        tags: Ids::none(),
    };
    assert_eq!(rt;
        found.as_slice(),
        [pair(2, 3), pair(2, 6), pair(3, 2), pair(3, 6)].as_slice()
    );
    Ok(())
}

#[test]
fn joins_by_a_shared_tag(rt: HostRuntime) -> Result<(), Fail> {
    let alloc = rt.alloc();
    let task = "task join(A x in f with T t, B y in g and !f with T t) { }";
    let program = program(&rt, alloc, task)?;
    let found = found(alloc, &program)?;
    let joined = |one: u32, other: u32, tag: u32| Invocation {
        task: 1,
        objects: Ids::from_slice(&[one, other]),
        tags: Ids::from_slice(&[tag]),
    };
    assert_eq!(rt;
        found.as_slice(),
        [joined(2, 5, 0), joined(3, 4, 2), joined(3, 5, 0)].as_slice()
    );
    Ok(())
}

// Object 0 gets a new object and a new instance.
fn some_changes(alloc: Global) -> Result<Changes, AllocError>
    ensures { IfOk result (λ c. c ≡ record {
      bodies = record { id = 0; body = record { kind = Kind.Class 0; cells = Value.New 0 ∷ Value.Old 1 ∷ []; flags = 6; tags = TagRef.New 0 ∷ [] } } ∷ [];
      made = record { kind = Kind.Ints; cells = Value.Int (pos 7) ∷ []; flags = 0; tags = [] } ∷ [];
      tags = 1 ∷ [];
      text = 111 ∷ 107 ∷ [];
    }) }
{
    let mut bodies = List::new(alloc);
    bodies.push(Written {
        id: 0,
        body: Body {
            kind: Kind::Class(0),
            cells: List::from_slice(alloc, &[Value::New(0), Value::Old(1)])?,
            flags: 6,
            tags: List::from_slice(alloc, &[TagRef::New(0)])?,
        },
    })?;
    let mut made = List::new(alloc);
    made.push(Body {
        kind: Kind::Ints,
        cells: List::from_slice(alloc, &[Value::Int(7)])?,
        flags: 0,
        tags: List::new(alloc),
    })?;
    Ok(Changes {
        bodies,
        made,
        tags: List::from_slice(alloc, &[1])?,
        text: Bytes::from_slice(alloc, b"ok")?,
    })
}

fn applied(alloc: Global, program: &Program) -> Result<Plain, AllocError> {
    let mut store = start(alloc, program, b"a")?;
    let changes = some_changes(alloc)?;
    apply(alloc, &mut store, changes)?;
    Ok(store)
}

fn are_applied(startup: &Body, input: &Body, made: &Body) -> bool {
    let cells = [Value::Old(2), Value::Old(1)];
    is_body(startup, Kind::Class(0), &cells, 6, &[TagRef::Old(0)])
        && is_body(input, Kind::Ints, &[Value::Int(97)], 0, &[])
        && is_body(made, Kind::Ints, &[Value::Int(7)], 0, &[])
}

#[test]
fn applies_changes(rt: HostRuntime) -> Result<(), Fail> {
    let alloc = rt.alloc();
    let store = applied(alloc, &program(&rt, alloc, "")?)?;
    let [startup, input, made] = store.bodies.as_slice() else {
        return Err("three objects")?;
    };
    assert!(rt; are_applied(startup, input, made));
    assert_eq!(rt; store.tags.as_slice(), [1].as_slice());
    assert_eq!(rt; store.output.as_slice(), b"ok".as_slice());
    Ok(())
}
