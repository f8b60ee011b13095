// Answers to texts.

ghost use Rattle.std.specs.Prelude.{◌≤◌, length};

use crate::texts::checked;
use bc_data::program::Program;
use bc_types::TypeFault;
use std::alloc::Global;
use std::process::Abort;
use std::test::Fail;

/// How much a program has, with `StartupObject` among its classes, or its first fault.
fn glance(alloc: Global, answer: Result<Program, TypeFault>) -> Result<String, Fail> {
    match answer {
        Ok(program) => {
            let classes = program.classes().len();
            let tag_types = program.tag_types().len();
            let tasks = program.tasks().len();
            Ok(format!(in alloc; "{classes} classes, {tag_types} tag types, {tasks} tasks")?)
        }
        Err(TypeFault::Refused { kind, at }) => {
            let line = at.line;
            let column = at.column;
            Ok(format!(in alloc; "{kind:?} at {line}:{column}")?)
        }
        Err(TypeFault::Memory) => Ok(String::from_str(alloc, "memory")?),
    }
}

/// A glance at the program of a text.
fn answer(alloc: Global, text: &str) -> Result<String, Fail>
    requires { length text.now ≤ 1048576 }
{
    glance(alloc, checked(alloc, text)?)
}

fn are_answered(rt: &impl Abort, alloc: Global, cases: &[(&str, &str)]) -> Result<(), Fail> {
    for (text, want) in cases {
        assert!(rt; text.len() < 1000);
        assert_eq!(rt; answer(alloc, text)?.as_str(), *want);
    }
    Ok(())
}

#[test]
fn names_and_types(rt: HostRuntime) -> Result<(), Fail> {
    are_answered(
        &rt,
        rt.alloc(),
        &[
            ("", "1 classes, 0 tag types, 0 tasks"),
            (
                "class A { flag f; B b; int[] v; } tagtype k; class B { A[] all; bool b; }",
                "3 classes, 1 tag types, 0 tasks",
            ),
            ("class A { int x; int x; }", "Twice at 1:22"),
            ("class StartupObject { }", "Twice at 1:7"),
            ("class A { A() { } B() { } }", "Twice at 1:19"),
            ("class A { B b; }", "Unknown at 1:11"),
            ("class A { B[] b; C c; }", "Unknown at 1:11"),
            ("class A { B b; int x; int x; }", "Twice at 1:27"),
            ("class A { B b; } class A { }", "Twice at 1:24"),
        ],
    )
}

#[test]
fn bodies(rt: HostRuntime) -> Result<(), Fail> {
    are_answered(
        &rt,
        rt.alloc(),
        &[
            (
                "class Cell { flag on; flag off; int d; }
task startup(StartupObject s in initialstate) {
  new Cell() { on := true, off := true };
  taskexit(s: initialstate := false);
}
task bad(Cell c in on) { print(8 / c.d); taskexit(c: on := false); }
task fix(Cell c in off) { c.d = 2; taskexit(c: off := false); }",
                "2 classes, 0 tag types, 3 tasks",
            ),
            (
                "class A { int n; A(int n) { this.n = n; } int next() { this.n = this.n + 1; return this.n; } }
tagtype k;
task t(StartupObject s in initialstate with k c) { print((new A(3)).next()); taskexit(s: clear c); }",
                "2 classes, 1 tag types, 1 tasks",
            ),
            (
                "task t(StartupObject s in initialstate) {\n  x = 1;\n}",
                "Unknown at 2:3",
            ),
            (
                "class C { int m() { if (true) { return 1; } } }",
                "NoReturn at 1:15",
            ),
            (
                "task t(StartupObject s in initialstate) { s = null; }",
                "Fixed at 1:43",
            ),
            ("class A { B() { } }", "Unknown at 1:11"),
            ("class A { B m() { return null; } }", "Unknown at 1:11"),
            (
                "class A { void m(int x) { this.k(x); } void k(C c) { } }",
                "Mismatch at 1:34",
            ),
            (
                "class A { void m() { this.k(null); } void k(C c) { } }",
                "Unknown at 1:45",
            ),
            ("task t(A a in f) { } class B { C c; }", "Unknown at 1:8"),
        ],
    )
}
