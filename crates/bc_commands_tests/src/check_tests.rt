// The top call over objects in memory: `check`, and `show` of texts whose names or types are wrong.

use crate::calls::{is_told, sound};
use std::alloc::{AllocError, Global};
use std::process::Abort;

const CELLS: &str =
    "class Cell { flag on; flag off; int d; }\ntask startup(StartupObject s in initialstate) { new Cell(){on := true, off := true}; taskexit(s: initialstate := false); }\ntask bad(Cell c in on) { print(8 / c.d); taskexit(c: on := false); }\ntask fix(Cell c in off) { c.d = 2; taskexit(c: off := false); }\n";

fn expect_checked(
    rt: &impl Abort,
    alloc: Global,
    text: &str,
    told: &str,
) -> Result<(), AllocError> {
    let rest = is_told(rt, alloc, &["check", "p"], sound(text, b""), 0, told, "")?;
    assert!(rt; !rest.has_stop);
    assert_eq!(rt; rest.asked, 1);
    Ok(())
}

// Both commands refuse such a text.
fn expect_refused(
    rt: &impl Abort,
    alloc: Global,
    text: &str,
    message: &str,
) -> Result<(), AllocError> {
    let setting = sound(text, b"");
    is_told(rt, alloc, &["check", "p"], setting, 1, "", message)?;
    is_told(rt, alloc, &["show", "p"], setting, 1, "", message)?;
    Ok(())
}

#[test]
fn counts_what_is_declared(rt: HostRuntime) -> Result<(), AllocError> {
    let alloc = rt.alloc();
    expect_checked(&rt, alloc, CELLS, "ok: 1 classes, 0 tag types, 3 tasks\n")?;
    expect_checked(&rt, alloc, "", "ok: 0 classes, 0 tag types, 0 tasks\n")?;
    expect_checked(
        &rt,
        alloc,
        "tagtype T; tagtype U; class A { A next; int[] xs; A(int n) { this.xs = new int[n]; } int len() { return this.xs.length; } }",
        "ok: 1 classes, 2 tag types, 0 tasks\n",
    )
}

#[test]
fn tells_the_first_fault_of_names_and_types(rt: HostRuntime) -> Result<(), AllocError> {
    let alloc = rt.alloc();
    expect_refused(
        &rt,
        alloc,
        "class A { int x; int x; }",
        "refused: Twice at 1:22\n",
    )?;
    expect_refused(
        &rt,
        alloc,
        "task t(StartupObject s in initialstate) {\n  x = 1;\n}\n",
        "refused: Unknown at 2:3\n",
    )?;
    expect_refused(
        &rt,
        alloc,
        "class C { int m() { if (true) { return 1; } } }",
        "refused: NoReturn at 1:15\n",
    )?;
    expect_refused(
        &rt,
        alloc,
        "task t(StartupObject s in initialstate) { s = null; }",
        "refused: Fixed at 1:43\n",
    )?;
    expect_refused(
        &rt,
        alloc,
        "class A { int x; A(int n) { this.x = n; } } task t(StartupObject s in initialstate) { new A(); }",
        "refused: Arity at 1:87\n",
    )
}

#[test]
fn tells_mismatches_and_misplaced_statements(rt: HostRuntime) -> Result<(), AllocError> {
    let alloc = rt.alloc();
    expect_refused(
        &rt,
        alloc,
        "task t(StartupObject s in initialstate) { int x = true; }",
        "refused: Mismatch at 1:51\n",
    )?;
    expect_refused(
        &rt,
        alloc,
        "class A { void m() { taskexit(); } }",
        "refused: Misplaced at 1:22\n",
    )?;
    expect_refused(
        &rt,
        alloc,
        "task t(StartupObject a in true, StartupObject b in true, StartupObject c in true, StartupObject d in true, StartupObject e in true) { }",
        "refused: TooMany at 1:122\n",
    )
}
