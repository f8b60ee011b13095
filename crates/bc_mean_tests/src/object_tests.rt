// Objects: what refers to them, and what a commit or a fault makes of them.

use crate::rows::{Row, holds};
use std::test::Fail;

// The object that the failure touched is written, and is in the end as it was.
const SAME: Row<'static> = Row {
    text: "class Cell { int d; }
class Pair { flag on; flag off; Cell c; Pair(Cell c) { this.c = c; } }
task startup(StartupObject s in initialstate) {
  Cell c = new Cell();
  new Pair(c){on := true};
  new Pair(c){off := true};
  taskexit(s: initialstate := false);
}
task bad(Pair p in on) { print(8 / p.c.d); taskexit(p: on := false); }
task fix(Pair p in off) { p.c.d = 2; p.c.d = 0; taskexit(p: off := false); }",
    input: "",
    limit: 10,
    told: "startup(0)
fix(4)
bad(3) Zero at 9:34 over 3,2
end: 2 committed, 1 failed",
    output: "",
};

const OTHER: Row<'static> = Row {
    text: "class Cell { int d; }
class Pair { flag on; flag off; Cell c; Pair(Cell c) { this.c = c; } }
task startup(StartupObject s in initialstate) {
  Cell c = new Cell();
  new Pair(c){on := true};
  new Pair(c){off := true};
  taskexit(s: initialstate := false);
}
task bad(Pair p in on) { print(8 / p.c.d); taskexit(p: on := false); }
task fix(Pair p in off) { p.c.d = 2; p.c.d = 4; taskexit(p: off := false); }",
    input: "",
    limit: 10,
    told: "startup(0)
fix(4)
bad(3)
end: 3 committed, 0 failed",
    output: "2",
};

#[test]
fn a_change_that_ends_as_it_was_is_none(rt: HostRuntime) -> Result<(), Fail> {
    holds(&rt, rt.alloc(), SAME)?;
    holds(&rt, rt.alloc(), OTHER)
}

const INPUT: Row<'static> = Row {
    text: r#"class R { flag f; int[] a; R(int[] a) { this.a = a; } }
task startup(StartupObject s in initialstate) {
  s.input[0] = 120;
  new R(s.input){f := true};
  taskexit(s: initialstate := false);
}
task read(R r in f) { print(r.a[0], " ", r.a[1]); taskexit(r: f := false); }"#,
    input: "ab",
    limit: 10,
    told: "startup(0)
read(2)
end: 2 committed, 0 failed",
    output: "120 98",
};

// The array's field of a second startup object is null.
const STARTUP: Row<'static> = Row {
    text: r#"task startup(StartupObject s in initialstate) {
  if (s.input == null) {
    print("second");
    taskexit(s: initialstate := false);
  }
  new StartupObject(){initialstate := true};
  print(s.input.length, " ");
  taskexit(s: initialstate := false);
}"#,
    input: "abc",
    limit: 10,
    told: "startup(0)
startup(2)
end: 2 committed, 0 failed",
    output: "3 second",
};

#[test]
fn the_startup_object_and_its_input(rt: HostRuntime) -> Result<(), Fail> {
    holds(&rt, rt.alloc(), INPUT)?;
    holds(&rt, rt.alloc(), STARTUP)
}

const SELF: Row<'static> = Row {
    text: r#"class N { flag f; N me; int v; N() { this.me = this; this.v = 7; } }
task startup(StartupObject s in initialstate) {
  new N(){f := true};
  taskexit(s: initialstate := false);
}
task look(N n in f) { print(n.me == n, " ", n.me.me.v); taskexit(n: f := false); }"#,
    input: "",
    limit: 10,
    told: "startup(0)
look(2)
end: 2 committed, 0 failed",
    output: "true 7",
};

const ALIAS: Row<'static> = Row {
    text: r#"class A { flag f; flag g; int v; A other; }
task startup(StartupObject s in initialstate) {
  A x = new A(){f := true};
  A y = new A(){g := true};
  x.other = y;
  taskexit(s: initialstate := false);
}
task both(A x in f, A y in g) {
  x.other.v = 5;
  print(y.v, " ");
  y.v = 6;
  print(x.other.v, " ", x.other == y, " ", x == y);
  taskexit(x: f := false);
}"#,
    input: "",
    limit: 10,
    told: "startup(0)
both(2,3)
end: 2 committed, 0 failed",
    output: "5 6 true false",
};

// New objects that name one another, in two commits.
const LINKS: Row<'static> = Row {
    text: r#"class A { int v; A next; A(int v, A next) { this.v = v; this.next = next; } }
class H { flag one; flag two; A[] all; H(A[] all) { this.all = all; } }
task startup(StartupObject s in initialstate) {
  A[] all = new A[2];
  all[0] = new A(1, null);
  new H(all){one := true};
  taskexit(s: initialstate := false);
}
task more(H h in one) {
  h.all[1] = new A(2, h.all[0]);
  h.all[0] = new A(3, h.all[1]);
  taskexit(h: one := false, two := true);
}
task last(H h in two) {
  A a = h.all[0];
  print(h.all.length, " ", a.v, a.next.v, a.next.next.v, " ", a.next.next.next == null);
  taskexit(h: two := false);
}"#,
    input: "",
    limit: 10,
    told: "startup(0)
more(4)
last(4)
end: 3 committed, 0 failed",
    output: "2 321 true",
};

#[test]
fn references_name_objects(rt: HostRuntime) -> Result<(), Fail> {
    holds(&rt, rt.alloc(), SELF)?;
    holds(&rt, rt.alloc(), ALIAS)?;
    holds(&rt, rt.alloc(), LINKS)
}

const ROLLED_BACK: Row<'static> = Row {
    text: r#"class C { flag f; int v; }
task startup(StartupObject s in initialstate) {
  new C(){f := true};
  taskexit(s: initialstate := false);
}
task bad(C c in f) {
  print("lost");
  c.v = 1;
  new C(){f := true};
  assert(c.v == 0);
}
task read(C c in f) { print(c.v); taskexit(c: f := false); }"#,
    input: "",
    limit: 10,
    told: "startup(0)
read(2)
end: 2 committed, 0 failed",
    output: "0",
};

#[test]
fn a_fault_leaves_nothing(rt: HostRuntime) -> Result<(), Fail> {
    holds(&rt, rt.alloc(), ROLLED_BACK)
}
