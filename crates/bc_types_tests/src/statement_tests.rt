// Rules of statements and bodies.

use crate::texts::{Frame, are_told};
use std::test::Fail;

const ALONE: Frame<'static> = Frame {
    front: "",
    back: "",
    rest: "",
};

const ROWS: &str = r#"
ok tagtype T; task t(StartupObject s in initialstate) { tag a = new tag(T); { tag b = new tag(T); } tag b = new tag(T); }
Twice tagtype T; task t(StartupObject s in initialstate) { tag a = new tag(T); { tag b = new tag(T); } tag @a = new tag(T); }
Misplaced class A { void m() { @tag x = new tag(Q); } }
Misplaced class A { void m() { @taskexit(q: f := true); } }
Unknown task t(StartupObject s in initialstate) { taskexit(@q: f := true; s: initialstate := false); }
ok class A { flag f; } task t(A a in !(f or true) and f) { }
Unknown class A { flag f; } task t(A a in f and @g) { }
Unknown class A { flag f; } task t(StartupObject s in @f) { }
ok class A { A(int x) { } int m(int x) { int y = x; return y; } }
"#;

#[test]
fn rules_of_bodies(rt: HostRuntime) -> Result<(), Fail> {
    are_told(&rt, rt.alloc(), ALONE, ROWS)
}
