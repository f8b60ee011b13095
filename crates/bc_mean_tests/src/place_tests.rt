// Faults at their places, and the objects that are touched before them.

use crate::rows::{Row, holds};
use std::test::Fail;

// Behind a first object of the store: what is null is not touched, and what stands in front of it is.
const NULLS: Row<'static> = Row {
    text: "class N {
  flag f; N next; int[] a; N[] all; int v;
  int plus(int x) { return x + this.v; }
  N follow() { return this.next; }
}
task startup(StartupObject s in initialstate) {
  N n = new N(){f := true};
  n.next = new N();
  n.all = new N[2];
  n.all[1] = n.next;
  taskexit(s: initialstate := false);
}
task field(N n in f) { print(n.next.next.v); }
task write(N n in f) { n.next.next.v = n.all.length; }
task call(N n in f) { print(n.next.next.plus(n.all.length)); }
task result(N n in f) { print(n.next.follow().follow().v); }
task size(N n in f) { print(n.next.a.length); }
task element(N n in f) { print(n.next.a[n.all.length]); }
task put(N n in f) { n.next.a[n.v] = n.all.length; }
task empty(N n in f) { print(n.all[0].v); }
task inside(N n in f) { print(n.all[1].all[n.all[1].v].v); }",
    input: "",
    limit: 10,
    told: "startup(0)
field(2) Null at 13:41 over 2,3
write(2) Null at 14:35 over 2,3,4
call(2) Null at 15:40 over 2,3,4
result(2) Null at 16:46 over 2,3
size(2) Null at 17:37 over 2,3
element(2) Null at 18:40 over 2,3,4
put(2) Null at 19:30 over 2,3,4
empty(2) Null at 20:38 over 2,4
inside(2) Null at 21:43 over 2,4,3
end: 1 committed, 9 failed",
    output: "",
};

// An array is touched before its bounds are tested, and one that the task made is in no list.
const BOUNDS: Row<'static> = Row {
    text: "class N { flag f; bool[] b; N[] all; }
task startup(StartupObject s in initialstate) {
  N n = new N(){f := true};
  n.b = new bool[2];
  n.all = new N[1];
  taskexit(s: initialstate := false);
}
task below(N n in f) { print(n.all[-1] == n.all[0]); }
task behind(N n in f) { n.all[0] = n; print(n.all[n.all.length] == n); }
task put_below(N n in f) { n.b[0 - 1] = n.all[0] == n; }
task put_behind(N n in f) { n.b[1] = true; n.b[n.b.length] = true; }
task smallest(N n in f) { n.b[-2147483647 - 1] = true; }
task made(N n in f) { int[] a = new int[3]; a[0] = 1; a[2] = 2; print(a[3]); }
task none(N n in f) { N[] a = new N[0]; a[0] = n.all[0]; }",
    input: "",
    limit: 10,
    told: "startup(0)
below(2) Bounds at 8:35 over 2,4
behind(2) Bounds at 9:50 over 2,4
put_below(2) Bounds at 10:31 over 2,4,3
put_behind(2) Bounds at 11:47 over 2,3
smallest(2) Bounds at 12:30 over 2,3
made(2) Bounds at 13:72 over 2
none(2) Bounds at 14:42 over 2,4
end: 1 committed, 7 failed",
    output: "",
};

#[test]
fn null_and_bounds(rt: HostRuntime) -> Result<(), Fail> {
    holds(&rt, rt.alloc(), NULLS)?;
    holds(&rt, rt.alloc(), BOUNDS)
}

// Other faults behind some touches, in a task, in a method and in a constructor.
const KINDS: Row<'static> = Row {
    text: "class N {
  flag f; N next; int v; int[] a;
  int part(int n) { return n / this.next.v; }
  void check(bool b) { assert(b); }
  int[] many(int n) { return new int[n]; }
}
class M { N n; M(N n, int i) { this.n = n; n.a[i] = n.next.v; } }
task startup(StartupObject s in initialstate) {
  N n = new N(){f := true};
  n.next = new N();
  n.a = new int[1];
  taskexit(s: initialstate := false);
}
task zero(N n in f) { print(n.part(n.a.length)); }
task rest(N n in f) { n.v = n.next.v - 1 % n.next.v; }
task unsure(N n in f) { n.check(n.next.v != n.a.length - 1); }
task wrong(N n in f) { n.next.check(n.next == null); }
task plain(N n in f) { N m = n.next; assert(m == n); }
task negative(N n in f) { n.next.a = new int[n.next.v - n.a.length]; }
task large(N n in f) { n.next.v = n.next.many(65536 * n.a.length).length; n.a = n.next.many(65536 + n.a.length); }
task maker(N n in f) { new M(n, 0); new M(n, n.a.length); }",
    input: "",
    limit: 10,
    told: "startup(0)
zero(2) Zero at 3:30 over 2,4,3
rest(2) Zero at 15:42 over 2,3
unsure(2) Assert at 4:24 over 2,3,4
wrong(2) Assert at 4:24 over 2,3
plain(2) Assert at 18:38 over 2
negative(2) Size at 19:38 over 2,3,4
large(2) Size at 5:30 over 2,4,3
maker(2) Bounds at 7:47 over 2,3,4
end: 1 committed, 8 failed",
    output: "",
};

// The item that is too long stands in a method. What was printed is lost with it.
const TEXT: Row<'static> = Row {
    text: r#"class N {
  flag f; N next; int v;
  void say(int n) {
    int i = 0;
    while (i < n) { print("0123456789abcde", n % 10); i = i + 1; }
  }
}
task startup(StartupObject s in initialstate) {
  N n = new N(){f := true};
  n.next = new N();
  taskexit(s: initialstate := false);
}
task loud(N n in f) { n.say(4095); n.next.say(2); }
task most(N n in f) { n.say(4095); n.next.say(1); assert(n.v == 1); }"#,
    input: "",
    limit: 10,
    told: "startup(0)
loud(2) Text at 5:21 over 2,3
most(2) Assert at 14:51 over 2,3
end: 1 committed, 2 failed",
    output: "",
};

// An instance that is cleared makes room for another.
const SLOTS: Row<'static> = Row {
    text: "tagtype T;
tagtype U;
class C { flag f; flag g; flag h; }
task startup(StartupObject s in initialstate) {
  tag t = new tag(T);
  tag a = new tag(U); tag b = new tag(U); tag c = new tag(U); tag d = new tag(U);
  tag e = new tag(U); tag f = new tag(U); tag g = new tag(U); tag h = new tag(U);
  tag i = new tag(U); tag j = new tag(U); tag k = new tag(U); tag l = new tag(U);
  tag m = new tag(U); tag n = new tag(U); tag o = new tag(U);
  new C(){
    f := true, add t,
    add a, add b, add c, add d, add e, add f, add g, add h,
    add i, add j, add k, add l, add m, add n, add o
  };
  new C(){g := true};
  taskexit(s: initialstate := false);
}
task swap(C c in f with T t) {
  tag u = new tag(T);
  taskexit(c: clear t, add u, f := false, h := true);
}
task over(C d in g, C c in h with T t) {
  tag u = new tag(T);
  taskexit(d: add t, add u, clear t; c: add t, clear t, add u, g := true, add t);
}",
    input: "",
    limit: 10,
    told: "startup(0)
swap(2|0)
over(3,2|16) TagSlots at 24:75 over 3,2
end: 2 committed, 1 failed",
    output: "",
};

#[test]
fn other_kinds(rt: HostRuntime) -> Result<(), Fail> {
    holds(&rt, rt.alloc(), KINDS)?;
    holds(&rt, rt.alloc(), TEXT)?;
    holds(&rt, rt.alloc(), SLOTS)
}

// A constructor takes a turn, and a new object of a class without one takes none.
const MADE: Row<'static> = Row {
    text: "class N { int v; N(int v) { this.v = v; } }
class O { int v; }
task made(StartupObject s in initialstate) {
  int i = 0;
  while (i < 999999) { i = i + 1; }
  new O();
  new N(1);
  new O();
  new N(1 + i);
}",
    input: "",
    limit: 10,
    told: "made(0) Turns at 9:3 over 0
end: 0 committed, 1 failed",
    output: "",
};

#[test]
fn turns_of_constructors(rt: HostRuntime) -> Result<(), Fail> {
    holds(&rt, rt.alloc(), MADE)
}

// A call that is too deep takes its turn first, and here none is left.
const DEEP: Row<'static> = Row {
    text: "class D {
  void down(int n) {
    if (n == 1) {
      int i = 0;
      while (i < 999900) { i = i + 1; }
    }
    this.down(n - 1);
  }
}
task deep(StartupObject s in initialstate) { D d = new D(); d.down(100); }",
    input: "",
    limit: 10,
    told: "deep(0) Turns at 7:9 over 0
end: 0 committed, 1 failed",
    output: "",
};

#[test]
fn turns_come_before_depth(rt: HostRuntime) -> Result<(), Fail> {
    holds(&rt, rt.alloc(), DEEP)
}

// 100 constructors within one another, and one more. The methods walk as deep.
const CHAINS: Row<'static> = Row {
    text: r#"class N {
  N next; int n;
  N(int n) {
    this.n = n;
    if (n > 1) { this.next = new N(n - 1); }
  }
  int sum() {
    if (this.next == null) { return this.n; }
    return this.n + this.next.sum();
  }
}
task over(StartupObject s in initialstate) { N x = new N(101); print(x.sum()); }
task most(StartupObject s in initialstate) { N x = new N(100); print(x.sum(), " ", x.next.sum()); }"#,
    input: "",
    limit: 1,
    told: "most(0)
over(0) Depth at 5:30 over 0
spent: 1 committed, 1 failed",
    output: "5050 4950",
};

// A call that is too deep comes behind its arguments, and its object is touched.
const LEAVES: Row<'static> = Row {
    text: "class N {
  flag f; N last; N other; int v;
  int down(int n, N last) {
    if (n == 100) { return last.leaf(this.other.v, last.v); }
    return this.down(n + 1, last);
  }
  int leaf(int a, int b) { return a + b; }
  int deep(int n) {
    if (n == 100) { return this.last.leaf(n, 0); }
    return this.deep(n + 1);
  }
  int round(int n) { return this.other.round(n + 1); }
}
task startup(StartupObject s in initialstate) {
  N n = new N(){f := true};
  n.last = new N();
  n.other = new N();
  n.other.other = n.last;
  n.last.other = n;
  n.last.v = 3;
  n.other.v = 4;
  taskexit(s: initialstate := false);
}
task over(N n in f) { print(n.down(1, n.last)); }
task alone(N n in f) { print(n.deep(1)); }
task round(N n in f) { print(n.round(1)); }
task most(N n in f) { print(n.down(2, n.last), n.deep(2)); }",
    input: "",
    limit: 2,
    told: "startup(0)
most(2)
over(2) Depth at 4:32 over 2,4,3
alone(2) Depth at 9:37 over 2,3
round(2) Depth at 12:39 over 2,4,3
spent: 2 committed, 3 failed",
    output: "7100",
};

#[test]
fn depth(rt: HostRuntime) -> Result<(), Fail> {
    holds(&rt, rt.alloc(), CHAINS)?;
    holds(&rt, rt.alloc(), LEAVES)
}

// Objects that are reached in the middle of argument lists: the object of a call is touched behind its arguments.
const CALLS: Row<'static> = Row {
    text: "class N {
  flag f; N left; N right; int v;
  int get() { return this.v; }
  int two(int a, int b) { return a * 10 + b; }
  void put(N n, int v) { n.v = v; assert(v != 0); }
}
task startup(StartupObject s in initialstate) {
  N n = new N(){f := true};
  n.right = new N();
  n.left = new N();
  n.left.left = new N();
  n.left.v = 4;
  n.left.left.v = 2;
  taskexit(s: initialstate := false);
}
task sum(N n in f) { assert(n.right.two(n.left.get(), n.left.left.get()) != 42); }
task none(N n in f) { print(n.right.two(n.left.get(), n.left.right.get())); }
task late(N n in f) { print(n.left.left.left.two(n.right.get(), 1 / n.left.v)); }
task early(N n in f) { print(n.left.left.left.two(n.left.get(), 1 / n.right.v)); }
task nested(N n in f) { n.left.put(n.right, n.left.left.two(n.right.get(), n.v)); }
task plus(N n in f) { n.v = n.right.get() + n.left.left.get() * n.left.get(); assert(n.v == 0); }",
    input: "",
    limit: 10,
    told: "startup(0)
sum(2) Assert at 16:22 over 2,4,5,3
none(2) Null at 17:67 over 2,4
late(2) Null at 18:45 over 2,4,5,3
early(2) Zero at 19:67 over 2,4,5,3
nested(2) Assert at 5:35 over 2,4,3,5
plus(2) Assert at 21:79 over 2,3,4,5
end: 1 committed, 6 failed",
    output: "",
};

// What is assigned to is touched last.
const WRITES: Row<'static> = Row {
    text: "class N {
  flag f; N left; N right; N[] all; int[] a; int v;
  int get() { return this.v; }
}
task startup(StartupObject s in initialstate) {
  N n = new N(){f := true};
  n.right = new N();
  n.left = new N();
  n.all = new N[2];
  n.a = new int[2];
  n.all[1] = n.left;
  n.left.v = 1;
  taskexit(s: initialstate := false);
}
task field(N n in f) { n.right.v = n.left.get(); assert(n.v == 1); }
task element(N n in f) { n.all[n.left.get()] = n.right.left; assert(n.all[1] != null); }
task index(N n in f) { n.a[n.all[1].v] = n.right.get(); assert(n.right == null); }
task value(N n in f) { n.a[n.a.length - 1] = n.all.length + n.right.v; assert(n.a[1] != 2); }
task fault(N n in f) { n.a[n.right.v - n.left.v] = n.all.length; }
task before(N n in f) { n.a[n.right.v - 1] = n.all.length / n.right.v; }
task same(N n in f) { n.left.left = n.left; n.left.left.right = n; assert(n.left.right.left != n.left); }",
    input: "",
    limit: 10,
    told: "startup(0)
field(2) Assert at 15:50 over 2,4,3
element(2) Assert at 16:62 over 2,4,3,5
index(2) Assert at 17:57 over 2,5,4,3,6
value(2) Assert at 18:72 over 2,6,5,3
fault(2) Bounds at 19:27 over 2,3,4,5,6
before(2) Zero at 20:59 over 2,3,5
same(2) Assert at 21:68 over 2,4
end: 1 committed, 7 failed",
    output: "",
};

// Neither `==` nor a reference that is handed on touches.
const EQUAL: Row<'static> = Row {
    text: "class N {
  flag f; N left; N right; int[] a;
  N pass(N n) { return n; }
  bool same(N n, N m) { return n == m; }
}
task startup(StartupObject s in initialstate) {
  N n = new N(){f := true};
  n.left = new N();
  n.right = n.left;
  n.a = new int[1];
  taskexit(s: initialstate := false);
}
task alike(N n in f) { assert(n.left != n.right || n.a == null); }
task passed(N n in f) { N m = n.pass(n.left); m = n.pass(m); assert(n.same(m, n)); }
task moved(N n in f) { n.left = n.pass(n); n.right = null; int[] a = n.a; n.a = new int[2]; assert(a == n.a); }
task used(N n in f) { assert(n.pass(n.left).right == n.left || n.a.length == 0); }",
    input: "",
    limit: 10,
    told: "startup(0)
alike(2) Assert at 13:24 over 2
passed(2) Assert at 14:62 over 2
moved(2) Assert at 15:93 over 2
used(2) Assert at 16:23 over 2,3,4
end: 1 committed, 4 failed",
    output: "",
};

// What is skipped is not touched, and what is not skipped faults.
const SKIPS: Row<'static> = Row {
    text: "class N {
  flag f; N next; N none; int v;
  bool is(int v) { return this.v == v; }
}
task startup(StartupObject s in initialstate) {
  N n = new N(){f := true};
  n.next = new N();
  taskexit(s: initialstate := false);
}
task left(N n in f) { assert(n.v == 1 && n.next.is(0)); }
task both(N n in f) { assert(n.is(0) && n.next.is(1)); }
task first(N n in f) { assert(!(n.is(0) || n.next.is(0))); }
task second(N n in f) { assert(n.is(1) || n.next.is(1)); }
task zero(N n in f) { print(n.next.is(0) && 1 / n.v == 1); }
task missing(N n in f) { print(n.v != 0 || n.none.is(0)); }
task three(N n in f) { assert(n.is(1) && n.none.is(0) || n.next.is(1)); }
task four(N n in f) { if (n.none == null || n.none.v == 1) { print(1 % n.next.v); } }
task five(N n in f) { while (n.v < 1 && n.next.none.is(2)) { n.v = n.v + 1; } }",
    input: "",
    limit: 10,
    told: "startup(0)
left(2) Assert at 10:23 over 2
both(2) Assert at 11:23 over 2,3
first(2) Assert at 12:24 over 2
second(2) Assert at 13:25 over 2,3
zero(2) Zero at 14:47 over 2,3
missing(2) Null at 15:50 over 2
three(2) Assert at 16:24 over 2,3
four(2) Zero at 17:70 over 2,3
five(2) Null at 18:52 over 2,3
end: 1 committed, 9 failed",
    output: "",
};

#[test]
fn touched_in_order(rt: HostRuntime) -> Result<(), Fail> {
    holds(&rt, rt.alloc(), CALLS)?;
    holds(&rt, rt.alloc(), WRITES)?;
    holds(&rt, rt.alloc(), EQUAL)?;
    holds(&rt, rt.alloc(), SKIPS)
}

// An instance that is taken away and bound again goes behind the others. A failure is forgotten by that, and comes again.
const TURNED: Row<'static> = Row {
    text: "tagtype T;
class C { flag f; }
task startup(StartupObject s in initialstate) {
  tag a = new tag(T);
  tag b = new tag(T);
  new C(){f := true, add a, add b};
  new C(){f := true, add b};
  taskexit(s: initialstate := false);
}
task bad(C c in f) { assert(false); }
task turn(C c in f with T t) { taskexit(c: clear t, add t); }",
    input: "",
    limit: 4,
    told: "startup(0)
turn(2|0)
turn(2|1)
turn(3|1)
bad(3) Assert at 10:22 over 3
bad(2) Assert at 10:22 over 2
spent: 4 committed, 2 failed",
    output: "",
};

// To add a bound instance changes nothing, its place neither, and to clear one that the object lacks changes nothing.
const BOUND: Row<'static> = Row {
    text: "tagtype T;
class C { flag f; flag g; }
task startup(StartupObject s in initialstate) {
  tag a = new tag(T);
  tag b = new tag(T);
  new C(){g := true, add b};
  new C(){f := true, add a, add b};
  taskexit(s: initialstate := false);
}
task bad(C c in f or g) { assert(false); }
task again(C c in f with T t, C d in g) { taskexit(c: add t; d: clear t); }",
    input: "",
    limit: 4,
    told: "startup(0)
again(3,2|0)
again(3,2|1)
again(3,2|0)
bad(3) Assert at 10:27 over 3
bad(2) Assert at 10:27 over 2
spent: 4 committed, 2 failed",
    output: "",
};

// An instance that is bound and taken away again has its number nevertheless.
const LOST: Row<'static> = Row {
    text: r#"tagtype T;
class C { flag f; flag g; flag h; }
task startup(StartupObject s in initialstate) {
  new C(){f := true};
  taskexit(s: initialstate := false);
}
task lose(C c in f) {
  tag t = new tag(T);
  taskexit(c: add t, f := false, clear t, g := true, clear t);
}
task bind(C c in g) {
  tag t = new tag(T);
  tag u = new tag(T);
  taskexit(c: add u, add t, add u, g := false, h := true);
}
task use(C c in h with T t) { print("u"); taskexit(c: clear t); }"#,
    input: "",
    limit: 10,
    told: "startup(0)
lose(2)
bind(2)
use(2|1)
use(2|2)
end: 5 committed, 0 failed",
    output: "uu",
};

#[test]
fn instances_in_order(rt: HostRuntime) -> Result<(), Fail> {
    holds(&rt, rt.alloc(), TURNED)?;
    holds(&rt, rt.alloc(), BOUND)?;
    holds(&rt, rt.alloc(), LOST)
}
