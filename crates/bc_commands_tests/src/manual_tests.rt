// The rules of names and types as the manual tells them, each with programs that keep it and programs that don't.

use crate::calls::{call_with, sound};
use std::alloc::{AllocError, Global};
use std::process::Abort;

// A row is `ok` and a program, or a kind of fault and a text with `@` in front of the place of the fault.
const ROWS: &str = r#"ok tagtype A; class A { } task A(StartupObject s in initialstate) { }
Twice class A { } class @A { }
Twice class @StartupObject { }
Twice tagtype T; tagtype @T;
ok class A { flag x; int x; int x() { return 1; } }
Twice class A { int x; int @x; }
Twice class A { A() { } @A() { } }
ok class A { A() { } }
Unknown class A { @B() { } }
ok class A { B b; } class B { }
Unknown class A { @B b; }
ok class A { flag f; } task t(A a in f, A b in !f) { }
Unknown task t(@A a in f) { }
Unknown class A { flag f; } task t(A a in @g) { }
Twice class A { } task t(A a in true, A @a in true) { }
ok class A { } task t(A a in true, A b in true, A c in true, A d in true) { }
TooMany class A { } task t(A a in true, A b in true, A c in true, A d in true, A @e in true) { }
ok tagtype T; class A { } task t(A a in true with T x, A b in true with T x) { }
Unknown class A { } task t(A a in true with @T x) { }
Twice tagtype T; class A { } task t(A a in true with T x and T @x) { }
Mismatch tagtype T; tagtype U; class A { } task t(A a in true with T x, A b in true with U @x) { }
ok task t(StartupObject s in initialstate) { { int x = 1; } int x = 2; }
Unknown task t(StartupObject s in initialstate) { { int x = 1; } @x = 2; }
Twice task t(StartupObject s in initialstate) { int x = 1; { int @x = 2; } }
Unknown task t(StartupObject s in initialstate) { int x = @x; }
ok class A { flag f; int v; A next; A(int v) { this.v = v; } int get() { return this.v; } void put(int v) { this.v = v; } } task t(StartupObject s in initialstate) { A a = null; int[] xs = null; a = new A(1); }
Mismatch task t(StartupObject s in initialstate) { int x = @true; }
Mismatch task t(StartupObject s in initialstate) { int x = @null; }
Mismatch class A { flag f; int v; A next; A(int v) { this.v = v; } int get() { return this.v; } void put(int v) { this.v = v; } } task t(StartupObject s in initialstate) { A a = @s; }
ok task t(StartupObject s in initialstate) { StartupObject o = s; o = s; }
Fixed task t(StartupObject s in initialstate) { @s = null; }
ok class A { A me() { return this; } }
Misplaced task t(StartupObject s in initialstate) { StartupObject o = @this; }
ok class A { flag f; int v; A next; A(int v) { this.v = v; } int get() { return this.v; } void put(int v) { this.v = v; } } task t(StartupObject s in initialstate) { A a = null; bool b = 1 + 2 * 3 < 4 && !(a == null) || s != s; }
Mismatch task t(StartupObject s in initialstate) { int x = 1 @+ true; }
Mismatch task t(StartupObject s in initialstate) { bool b = @!1; }
Mismatch task t(StartupObject s in initialstate) { bool b = 1 @== true; }
ok task t(StartupObject s in initialstate) { int[] xs = s.input; }
Unknown task t(StartupObject s in initialstate) { int x = s.@n; }
Mismatch task t(StartupObject s in initialstate) { int x = s.input@.n; }
ok task t(StartupObject s in initialstate) { int x = s.input.length + s.input[0]; }
Mismatch task t(StartupObject s in initialstate) { int x = s@.length; }
Mismatch task t(StartupObject s in initialstate) { int x = s.input@[true]; }
Mismatch task t(StartupObject s in initialstate) { int x = s@[0]; }
ok class A { flag f; int v; A next; A(int v) { this.v = v; } int get() { return this.v; } void put(int v) { this.v = v; } } task t(StartupObject s in initialstate) { A a = new A(1); a.put(a.get()); }
Unknown class A { flag f; int v; A next; A(int v) { this.v = v; } int get() { return this.v; } void put(int v) { this.v = v; } } task t(StartupObject s in initialstate) { A a = new A(1); a.@none(); }
Arity class A { flag f; int v; A next; A(int v) { this.v = v; } int get() { return this.v; } void put(int v) { this.v = v; } } task t(StartupObject s in initialstate) { A a = new A(1); a@.put(); }
Mismatch class A { flag f; int v; A next; A(int v) { this.v = v; } int get() { return this.v; } void put(int v) { this.v = v; } } task t(StartupObject s in initialstate) { A a = new A(1); a.put(@true); }
Mismatch class A { flag f; int v; A next; A(int v) { this.v = v; } int get() { return this.v; } void put(int v) { this.v = v; } } task t(StartupObject s in initialstate) { A a = new A(1); int x = a@.put(1); }
ok tagtype T; tagtype U; class A { flag f; } task t(A a in f with T x, StartupObject s in initialstate) { new A(){f := true, add x}; }
Unknown task t(StartupObject s in initialstate) { new @A(); }
Arity class A { flag f; int v; A next; A(int v) { this.v = v; } int get() { return this.v; } void put(int v) { this.v = v; } } task t(StartupObject s in initialstate) { @new A(); }
Mismatch class A { flag f; int v; A next; A(int v) { this.v = v; } int get() { return this.v; } void put(int v) { this.v = v; } } task t(StartupObject s in initialstate) { new A(@true); }
Unknown class A { flag f; int v; A next; A(int v) { this.v = v; } int get() { return this.v; } void put(int v) { this.v = v; } } task t(StartupObject s in initialstate) { new A(1){@g := true}; }
Mismatch tagtype T; tagtype U; class A { flag f; } task t(A a in f with T x, StartupObject s in initialstate) { new A(){add @s}; }
ok task t(StartupObject s in initialstate) { int[] xs = new int[3]; }
Mismatch task t(StartupObject s in initialstate) { int[] xs = @new int[true]; }
Unknown task t(StartupObject s in initialstate) { int x = 1; x = 2; s.input = new @B[3]; }
ok task t(StartupObject s in initialstate) { if (true) { assert(1 < 2); } print("n", 1, true); }
Mismatch task t(StartupObject s in initialstate) { if (@1) { } }
Mismatch task t(StartupObject s in initialstate) { while (@s) { } }
Mismatch task t(StartupObject s in initialstate) { print(@null); }
ok class A { int m() { return 1; } void n() { return; } }
Misplaced task t(StartupObject s in initialstate) { @return; }
Misplaced class A { void n() { @return 1; } }
Mismatch class A { int m() { @return; } }
Mismatch class A { int m() { return @true; } }
ok class A { int m(bool b) { if (b) { return 1; } else { return 2; } } }
NoReturn class A { int @m(bool b) { if (b) { return 1; } } }
NoReturn class A { int @m() { while (true) { return 1; } } }
ok tagtype T; tagtype U; class A { flag f; } task t(A a in f with T x, StartupObject s in initialstate) { taskexit(a: f := false, clear x; s: initialstate := false, add x); }
Misplaced class A { void m() { @taskexit(); } }
Unknown task t(StartupObject s in initialstate) { int x = 1; taskexit(@x: initialstate := false); }
Twice task t(StartupObject s in initialstate) { taskexit(s: initialstate := false; @s: initialstate := true); }
Unknown task t(StartupObject s in initialstate) { taskexit(s: @f := true); }
ok tagtype T; tagtype U; class A { flag f; } task t(A a in f with T x, StartupObject s in initialstate) { tag y = new tag(U); new A(){add y}; }
Misplaced tagtype T; class A { void m() { @tag x = new tag(T); } }
Unknown task t(StartupObject s in initialstate) { tag x = new tag(@T); }
Mismatch tagtype T; tagtype U; class A { flag f; } task t(A a in f with T x, StartupObject s in initialstate) { int n = @x; }
Mismatch tagtype T; tagtype U; class A { flag f; } task t(A a in f with T x, StartupObject s in initialstate) { @x = null; }
"#;

// A text that is refused with this message, or accepted where there is none.
fn expect_told(
    rt: &impl Abort,
    alloc: Global,
    text: &str,
    message: &str,
) -> Result<(), AllocError> {
    let told = call_with(alloc, &["check", "p"], sound(text, b""))?;
    let status = if message.is_empty() { 0 } else { 1 };
    assert!(rt; told.report.status == status, "{text}");
    assert!(rt; told.err.as_slice() == message.as_bytes(), "{text}");
    Ok(())
}

fn expect_fault(
    rt: &impl Abort,
    alloc: Global,
    kind: &str,
    front: &str,
    back: &str,
) -> Result<(), AllocError> {
    let column = front.len().saturating_add(1);
    let text = format!(in alloc; "{front}{back}")?;
    let message = format!(in alloc; "refused: {kind} at 1:{column}\n")?;
    expect_told(rt, alloc, text.as_str(), message.as_str())
}

fn expect_row(rt: &impl Abort, alloc: Global, row: &str) -> Result<(), AllocError> {
    let (kind, text) = row.split_once(' ').unwrap_or((row, ""));
    match text.split_once('@') {
        Some((front, back)) => expect_fault(rt, alloc, kind, front, back),
        None => {
            assert_eq!(rt; kind, "ok");
            expect_told(rt, alloc, text, "")
        }
    }
}

#[test]
fn rules_of_the_manual(rt: HostRuntime) -> Result<(), AllocError> {
    let mut rows: u32 = 0;
    for row in ROWS.lines() {
        expect_row(&rt, rt.alloc(), row)?;
        rows = rows.saturating_add(1);
    }
    assert_eq!(rt; rows, 80);
    Ok(())
}
