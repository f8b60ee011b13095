// The limits of turns, and those of the store.

use crate::rows::{Row, holds, run};
use std::test::Fail;

const TURNS: Row<'static> = Row {
    text: "task spin(StartupObject s in initialstate) {
  int i = 0;
  while (i < 1000000) { i = i + 1; }
  taskexit(s: initialstate := false);
}",
    input: "",
    limit: 10,
    told: "spin(0)
end: 1 committed, 0 failed",
    output: "",
};

#[test]
fn a_million_turns(rt: HostRuntime) -> Result<(), Fail> {
    holds(&rt, rt.alloc(), TURNS)
}

const LOOPS: Row<'static> = Row {
    text: "task spin(StartupObject s in initialstate) {
  int i = 0;
  while (i < 1000001) { i = i + 1; }
  taskexit(s: initialstate := false);
}",
    input: "",
    limit: 10,
    told: "spin(0) Turns at 3:3 over 0
end: 0 committed, 1 failed",
    output: "",
};

#[test]
fn a_loop_takes_one_turn_more(rt: HostRuntime) -> Result<(), Fail> {
    holds(&rt, rt.alloc(), LOOPS)
}

// A call before the loop takes one turn, and then each round takes two.
const CALLS: Row<'static> = Row {
    text: "class M { int m(int i) { return i + 1; } }
task spin(StartupObject s in initialstate) {
  M x = new M();
  int i = x.m(-1);
  while (i < 500000) { i = x.m(i); }
  taskexit(s: initialstate := false);
}",
    input: "",
    limit: 10,
    told: "spin(0) Turns at 5:29 over 0
end: 0 committed, 1 failed",
    output: "",
};

#[test]
fn a_call_takes_one_turn_more(rt: HostRuntime) -> Result<(), Fail> {
    holds(&rt, rt.alloc(), CALLS)
}

// The store gets 1524 objects at each of 43 commits, and with the last of these the one that makes another.
const OBJECTS: Row<'static> = Row {
    text: "class A { flag f; }
class Filler { flag go; int times; }
task startup(StartupObject s in initialstate) {
  new Filler(){go := true};
  taskexit(s: initialstate := false);
}
task fill(Filler x in go) {
  int i = 0;
  while (i < 1524) { new A(); i = i + 1; }
  x.times = x.times + 1;
  if (x.times == 43) {
    new A(){f := true};
    taskexit(x: go := false);
  }
}
task more(A a in f) { new A(); taskexit(a: f := false); }",
    input: "",
    limit: 200,
    told: "more(65535) Objects at 16:1 over 65535
end: 44 committed, 1 failed",
    output: "",
};

#[test]
fn no_room_for_an_object(rt: HostRuntime) -> Result<(), Fail> {
    holds(&rt, rt.alloc(), OBJECTS)
}

// The startup object has one cell. So the first invocation fills the store.
const CELLS: Row<'static> = Row {
    text: "task fill(StartupObject s in initialstate) {
  int i = 0;
  while (i < 63) { int[] a = new int[65536]; i = i + 1; }
  int[] b = new int[65535];
}",
    input: "",
    limit: 10,
    told: "fill(0)
fill(0) Cells at 1:1 over 0
end: 1 committed, 1 failed",
    output: "",
};

const TAGS: Row<'static> = Row {
    text: "tagtype T;
task fill(StartupObject s in initialstate) {
  int i = 0;
  while (i < 32768) { tag t = new tag(T); i = i + 1; }
}",
    input: "",
    limit: 10,
    told: "fill(0)
fill(0)
fill(0) Tags at 2:1 over 0
end: 2 committed, 1 failed",
    output: "",
};

#[test]
fn no_room_for_a_cell_or_a_tag(rt: HostRuntime) -> Result<(), Fail> {
    holds(&rt, rt.alloc(), CELLS)?;
    holds(&rt, rt.alloc(), TAGS)
}

const OUTPUT: Row<'static> = Row {
    text: r#"task say(StartupObject s in initialstate) {
  int i = 0;
  while (i < 512) {
    print("0123456789abcdef0123456789abcdef0123456789abcdef0123456789abcdef0123456789abcdef0123456789abcdef0123456789abcdef0123456789abcdef");
    i = i + 1;
  }
}"#,
    input: "",
    limit: 300,
    told: "say(0) Output at 1:1 over 0
end: 256 committed, 1 failed",
    output: "",
};

#[test]
fn no_room_for_output(rt: HostRuntime) -> Result<(), Fail> {
    let course = run(&rt, rt.alloc(), OUTPUT)?;
    assert_eq!(rt; course.store.output.len(), 16_777_216);
    assert_eq!(rt; course.store.output.last(), Some(&b'f'));
    Ok(())
}
