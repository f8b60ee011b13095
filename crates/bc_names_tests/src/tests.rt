// Which numbers names have, and the first name that is there twice.

use crate::texts::{is_told, numbered};
use bc_names::Names;
use std::alloc::Global;
use std::process::Abort;
use std::test::Fail;

const TWO_CLASSES: &str = "class A { flag f; int x; void m() { } flag x; A() { } }
tagtype t;
class B { int y; int x; }
task s(A a in f) { }
task t(A a in f) { }";

fn of_the_program(names: &Names) -> bool {
    names.class(b"StartupObject") == Some(0)
        && names.class(b"A") == Some(1)
        && names.class(b"B") == Some(2)
        && names.class(b"t").is_none()
        && names.tag_type(b"t") == Some(0)
        && names.tag_type(b"s").is_none()
        && names.task(b"t") == Some(1)
        && names.task(b"").is_none()
}

fn of_the_classes(names: &Names) -> bool {
    names.flag(0, b"initialstate") == Some(0)
        && names.field(0, b"input") == Some(0)
        && names.flag(1, b"f") == Some(0)
        && names.flag(1, b"x") == Some(1)
        && names.field(1, b"x") == Some(0)
        && names.method(1, b"m") == Some(0)
        && names.field(2, b"y") == Some(0)
        && names.field(2, b"x") == Some(1)
}

fn not_declared(names: &Names) -> bool {
    names.method(0, b"input").is_none()
        && names.method(1, b"A").is_none()
        && names.field(1, b"y").is_none()
        && names.method(2, b"m").is_none()
        && names.field(3, b"x").is_none()
        && names.flag(4_294_967_295, b"f").is_none()
}

fn are_numbered(names: &Names) -> [bool; 3] {
    [
        of_the_program(names),
        of_the_classes(names),
        not_declared(names),
    ]
}

fn names_of_two_classes(alloc: Global) -> Result<Names, Fail> {
    numbered(alloc, TWO_CLASSES)?.map_err(|_| "each name is there once".into())
}

// Whether the names of the program, those of its classes, and those that a class doesn't have get their answers.
fn two_classes(alloc: Global) -> Result<[bool; 3], Fail> {
    Ok(are_numbered(&names_of_two_classes(alloc)?))
}

#[test]
fn names_of_a_program_have_their_numbers(rt: HostRuntime) -> Result<(), Fail> {
    let [of_the_program, _, _] = two_classes(rt.alloc())?;
    assert!(rt; of_the_program);
    Ok(())
}

#[test]
fn names_of_a_class_have_their_numbers(rt: HostRuntime) -> Result<(), Fail> {
    let [_, of_the_classes, _] = two_classes(rt.alloc())?;
    assert!(rt; of_the_classes);
    Ok(())
}

#[test]
fn names_of_another_class_have_none(rt: HostRuntime) -> Result<(), Fail> {
    let [_, _, not_declared] = two_classes(rt.alloc())?;
    assert!(rt; not_declared);
    Ok(())
}

// Whether each row gets its answer.
fn are_told(rt: &impl Abort, alloc: Global, rows: &str) -> Result<(), Fail> {
    for row in rows.lines() {
        let (want, text) = row.split_once(" | ").unwrap_or((row, ""));
        is_told(rt, alloc, text, want)?;
    }
    Ok(())
}

const TWICE: &str = r#"Twice 1:31 | class A { } class a { } class a { }
Twice 1:32 | class A { } tagtype a; tagtype a;
Twice 1:42 | class A { } task a(A x in true) { } task a(A x in true) { }
Twice 1:24 | class A { flag a; flag a; }
Twice 1:22 | class A { int a; int a; }
Twice 1:29 | class A { void a() { } void a() { } }
Twice 1:19 | class A { a() { } a() { } }
Twice 1:7 | class StartupObject { }
Twice 1:19 | class A { B() { } A() { } }
"#;

#[test]
fn second_name_is_twice(rt: HostRuntime) -> Result<(), Fail> {
    are_told(&rt, rt.alloc(), TWICE)
}

// In the first row a member comes first, in the second a class.
const FIRST_FAULTS: &str =
    r#"Twice 1:29 | class A { void m() { } void m() { } flag f; flag f; } class A { }
Twice 1:43 | task A(A x in true) { } class A { } class A { int x; int x; } task A(A x in true) { }
"#;

#[test]
fn first_fault_is_answered(rt: HostRuntime) -> Result<(), Fail> {
    are_told(&rt, rt.alloc(), FIRST_FAULTS)
}
