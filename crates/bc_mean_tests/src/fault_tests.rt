// Faults and their places. Where nothing is committed, each invocation fails in turn.

use crate::rows::{Row, holds};
use std::test::Fail;

const NULLS: Row<'static> = Row {
    text: "class C { int n; int[] a; int m() { return 1; } }
task field(StartupObject s in initialstate) {
  C c = null;
  print(c.n);
}
task write(StartupObject s in initialstate) {
  C c = null;
  c.n = 1;
}
task call(StartupObject s in initialstate) {
  C c = null;
  print(c.m());
}
task elem(StartupObject s in initialstate) {
  C c = new C();
  print(c.a[0]);
}
task put(StartupObject s in initialstate) {
  C c = new C();
  c.a[0] = 1;
}
task many(StartupObject s in initialstate) {
  C c = new C();
  print(c.a.length);
}",
    input: "",
    limit: 10,
    told: "field(0) Null at 4:10 over 0
write(0) Null at 8:4 over 0
call(0) Null at 12:10 over 0
elem(0) Null at 16:12 over 0
put(0) Null at 20:6 over 0
many(0) Null at 24:12 over 0
end: 0 committed, 6 failed",
    output: "",
};

// The index and the value come before the array is looked at.
const NUMBERS: Row<'static> = Row {
    text: "task index(StartupObject s in initialstate) {
  int[] x = null;
  print(x[1 / 0]);
}
task value(StartupObject s in initialstate) {
  s.input[5] = 1 / 0;
}
task below(StartupObject s in initialstate) {
  s.input[-1] = 1;
}
task behind(StartupObject s in initialstate) {
  print(s.input[2]);
}
task rest(StartupObject s in initialstate) {
  print(1 % 0);
}
task wrong(StartupObject s in initialstate) {
  assert(s.input.length == 1);
}",
    input: "ab",
    limit: 10,
    told: "index(0) Zero at 3:13 over 0
value(0) Zero at 6:18 over 0
below(0) Bounds at 9:10 over 0,1
behind(0) Bounds at 12:16 over 0,1
rest(0) Zero at 15:11 over 0
wrong(0) Assert at 18:3 over 0,1
end: 0 committed, 6 failed",
    output: "",
};

#[test]
fn null_bounds_zero_and_assert(rt: HostRuntime) -> Result<(), Fail> {
    holds(&rt, rt.alloc(), NULLS)?;
    holds(&rt, rt.alloc(), NUMBERS)
}

const SIZES: Row<'static> = Row {
    text: "tagtype T;
task below(StartupObject s in initialstate) {
  int[] a = new int[-1];
}
task above(StartupObject s in initialstate) {
  bool[] a = new bool[65537];
}
task cells(StartupObject s in initialstate) {
  int i = 0;
  while (i < 65) { int[] a = new int[65536]; i = i + 1; }
}
task tags(StartupObject s in initialstate) {
  int i = 0;
  while (i < 65537) { tag t = new tag(T); i = i + 1; }
}",
    input: "",
    limit: 10,
    told: "below(0) Size at 3:13 over 0
above(0) Size at 6:14 over 0
cells(0) Size at 10:30 over 0
tags(0) Size at 14:23 over 0
end: 0 committed, 4 failed",
    output: "",
};

const TEXT: Row<'static> = Row {
    text: r#"task most(StartupObject s in initialstate) {
  int i = 0;
  while (i < 4096) { print("0123456789abcdef"); i = i + 1; }
  print("");
  assert(i == 0);
}
task loud(StartupObject s in initialstate) {
  int i = 0;
  while (i < 4096) { print("0123456789abcdef"); i = i + 1; }
  print("", 1);
}"#,
    input: "",
    limit: 10,
    told: "most(0) Assert at 5:3 over 0
loud(0) Text at 10:3 over 0
end: 0 committed, 2 failed",
    output: "",
};

#[test]
fn size_and_text(rt: HostRuntime) -> Result<(), Fail> {
    holds(&rt, rt.alloc(), SIZES)?;
    holds(&rt, rt.alloc(), TEXT)
}

const DEPTH: Row<'static> = Row {
    text: "class D { int d() { return this.d(); } }
task t(StartupObject s in initialstate) { D x = new D(); print(x.d()); taskexit(s: initialstate := false); }",
    input: "",
    limit: 10,
    told: "t(0) Depth at 1:32 over 0
end: 0 committed, 1 failed",
    output: "",
};

const MAKERS: Row<'static> = Row {
    text: "class D { D() { new D(); } }
task t(StartupObject s in initialstate) { new D(); taskexit(s: initialstate := false); }",
    input: "",
    limit: 10,
    told: "t(0) Depth at 1:17 over 0
end: 0 committed, 1 failed",
    output: "",
};

// As many calls as may be nested, and one more.
const NESTED: Row<'static> = Row {
    text: "class D {
  int d(int n) {
    if (n == 1) { return 0; }
    return 1 + this.d(n - 1);
  }
}
task over(StartupObject s in initialstate) { D x = new D(); print(x.d(101)); }
task most(StartupObject s in initialstate) { D x = new D(); print(x.d(100)); }",
    input: "",
    limit: 1,
    told: "most(0)
over(0) Depth at 4:20 over 0
spent: 1 committed, 1 failed",
    output: "99",
};

#[test]
fn depth(rt: HostRuntime) -> Result<(), Fail> {
    holds(&rt, rt.alloc(), DEPTH)?;
    holds(&rt, rt.alloc(), MAKERS)?;
    holds(&rt, rt.alloc(), NESTED)
}

const SLOTS: Row<'static> = Row {
    text: "tagtype T;
class C { flag f; }
task startup(StartupObject s in initialstate) {
  new C(){f := true};
  taskexit(s: initialstate := false);
}
task more(C c in f) {
  tag t = new tag(T);
  taskexit(c: add t);
}",
    input: "",
    limit: 100,
    told: "more(2) TagSlots at 9:15 over 2
end: 17 committed, 1 failed",
    output: "",
};

const BRACES: Row<'static> = Row {
    text: "tagtype T;
class C { }
task startup(StartupObject s in initialstate) {
  tag a = new tag(T); tag b = new tag(T); tag c = new tag(T); tag d = new tag(T);
  tag e = new tag(T); tag f = new tag(T); tag g = new tag(T); tag h = new tag(T);
  tag i = new tag(T); tag j = new tag(T); tag k = new tag(T); tag l = new tag(T);
  tag m = new tag(T); tag n = new tag(T); tag o = new tag(T); tag p = new tag(T);
  tag q = new tag(T);
  new C(){
    add a, add b, add c, add d, add e, add f, add g, add h,
    add i, add j, add k, add l, add m, add n, add o, add p,
    add a, add p,
    add q
  };
}",
    input: "",
    limit: 10,
    told: "startup(0) TagSlots at 13:5 over 0
end: 0 committed, 1 failed",
    output: "",
};

#[test]
fn tag_slots(rt: HostRuntime) -> Result<(), Fail> {
    holds(&rt, rt.alloc(), SLOTS)?;
    holds(&rt, rt.alloc(), BRACES)
}
