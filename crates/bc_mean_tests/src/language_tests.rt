// Expressions and statements: what is evaluated, in what order, and what it leaves.

use crate::rows::{Row, holds};
use std::test::Fail;

// Two variables to one object, and two elements to it.
const VARIABLES: Row<'static> = Row {
    text: r#"class C { int v; }
task startup(StartupObject s in initialstate) {
  C a = new C();
  C b = a;
  b.v = 3;
  a.v = a.v + 1;
  C[] all = new C[3];
  all[0] = a;
  all[2] = b;
  all[0].v = all[2].v * 10;
  print(a.v, " ", b.v, " ", all[0] == all[2], " ", all[1] == null, " ");
  a = new C();
  print(a.v, " ", b.v, " ", a == b, " ", all[0] == b);
  taskexit(s: initialstate := false);
}"#,
    input: "",
    limit: 10,
    told: "startup(0)
end: 1 committed, 0 failed",
    output: "40 40 true true 0 40 false true",
};

// The same in the store: a field and two elements name one object, which is touched once.
const CELLS: Row<'static> = Row {
    text: "class Cell { int v; }
class Two {
  flag f; flag g; Cell c; Cell[] all;
  Two(Cell c, Cell[] all) { this.c = c; this.all = all; }
}
task startup(StartupObject s in initialstate) {
  Cell c = new Cell();
  Cell[] all = new Cell[2];
  all[0] = c;
  all[1] = c;
  new Two(c, all){f := true};
  taskexit(s: initialstate := false);
}
task sum(Two t in f) {
  t.all[0].v = 5;
  t.all[1].v = t.all[0].v + t.c.v;
  print(t.c.v);
  taskexit(t: f := false, g := true);
}
task look(Two t in g) { assert(t.c.v != t.all[1].v); }",
    input: "",
    limit: 10,
    told: "startup(0)
sum(4)
look(4) Assert at 20:25 over 4,2,3
end: 2 committed, 1 failed",
    output: "10",
};

// Each parameter is reached through a field of the other.
const PARAMETERS: Row<'static> = Row {
    text: r#"class A { flag f; flag g; flag h; flag k; int v; A other; }
task startup(StartupObject s in initialstate) {
  A x = new A(){f := true};
  A y = new A(){g := true};
  x.other = y;
  y.other = x;
  taskexit(s: initialstate := false);
}
task both(A x in f, A y in g) {
  x.other.v = 3;
  y.other.v = y.v + 1;
  print(x.v, y.v, " ", x.other.other == x, y.other == y);
  taskexit(x: f := false, h := true; y: g := false, k := true);
}
task last(A y in k, A x in h) {
  x.other.v = 5;
  print("lost");
  assert(y.other.v == y.v);
}"#,
    input: "",
    limit: 10,
    told: "startup(0)
both(2,3)
last(3,2) Assert at 18:3 over 3,2
end: 2 committed, 1 failed",
    output: "43 truefalse",
};

// A method's parameters are its own variables, and the objects that they name are not.
const VALUES: Row<'static> = Row {
    text: r#"class C {
  int v;
  void set(int x, C c, int[] a) {
    x = 9;
    c.v = x;
    a[0] = x + 1;
    c = this;
    c.v = 8;
    a = new int[1];
    a[0] = x;
  }
}
task startup(StartupObject s in initialstate) {
  int x = 1;
  C c = new C();
  C d = new C();
  int[] a = new int[1];
  c.set(x, d, a);
  print(x, " ", c.v, " ", d.v, " ", a[0]);
  c.set(x, c, a);
  print(" ", c.v);
  taskexit(s: initialstate := false);
}"#,
    input: "",
    limit: 10,
    told: "startup(0)
end: 1 committed, 0 failed",
    output: "1 8 9 10 8",
};

#[test]
fn names_of_one_object(rt: HostRuntime) -> Result<(), Fail> {
    holds(&rt, rt.alloc(), VARIABLES)?;
    holds(&rt, rt.alloc(), CELLS)?;
    holds(&rt, rt.alloc(), PARAMETERS)?;
    holds(&rt, rt.alloc(), VALUES)
}

// Behind `taskexit` nothing is done, however deep it stands.
const ROUNDS: Row<'static> = Row {
    text: r#"class C { flag f; flag g; int v; C(int v) { this.v = v; } }
task startup(StartupObject s in initialstate) {
  new C(0){f := true};
  new C(1){f := true};
  new C(2){f := true};
  while (true) {
    {
      while (true) { taskexit(s: initialstate := false); print("lost"); assert(false); }
    }
    print("lost");
  }
  new C(3){f := true};
}
task leave(C c in f) {
  int i = 0;
  while (i < 2) {
    int j = 0;
    while (j < 3) {
      if (c.v == 0) {
        if (j == 2) { c.v = 5; taskexit(c: f := false, g := true); c.v = 6; }
        c.v = 0;
      } else {
        if (c.v == 1 && i == 1) {
          print("one ");
          taskexit(c: f := false, g := true);
          assert(false);
        } else { if (c.v == 3) { taskexit(c: f := false); } }
      }
      print(i, j, " ");
      j = j + 1;
    }
    i = i + 1;
  }
  print("end ");
  taskexit(c: f := false, g := true);
  c.v = 7;
}
task read(C c in g) { print(c.v, ";"); taskexit(c: g := false); }"#,
    input: "",
    limit: 10,
    told: "startup(0)
leave(2)
leave(3)
leave(4)
read(2)
read(3)
read(4)
end: 7 committed, 0 failed",
    output: "00 01 00 01 02 one 00 01 02 10 11 12 end 5;1;2;",
};

// Actions go from left to right, so the last one of a flag or an instance stands.
const ACTIONS: Row<'static> = Row {
    text: r#"tagtype T;
class C { flag f; flag g; flag d; int v; C(int v) { this.v = v; } }
task startup(StartupObject s in initialstate) {
  new C(1){f := true};
  new C(2){f := true, g := false, g := true};
  taskexit(s: initialstate := false, initialstate := true, initialstate := false);
}
task both(C x in f and !g, C y in f and g) {
  tag t = new tag(T);
  taskexit(y: add t, f := false, g := false, clear t; x: f := false, g := true, g := false, add t, g := true);
}
task each(C c in !f and !d) { print(c.v); taskexit(c: d := true); }
task one(C c in g with T t) { print("g", c.v); taskexit(c: clear t); }"#,
    input: "",
    limit: 10,
    told: "startup(0)
both(2,3)
each(2)
each(3)
one(2|0)
end: 5 committed, 0 failed",
    output: "12g1",
};

// A task that runs off its end exits with what it has written.
const OFF_THE_END: Row<'static> = Row {
    text: "class C { flag f; int v; }
task startup(StartupObject s in initialstate) {
  new C(){f := true};
  taskexit(s: initialstate := false);
}
task count(C c in f) {
  c.v = c.v + 1;
  print(c.v);
  assert(c.v < 4);
}",
    input: "",
    limit: 10,
    told: "startup(0)
count(2)
count(2)
count(2)
count(2) Assert at 9:3 over 2
end: 4 committed, 1 failed",
    output: "123",
};

#[test]
fn exits(rt: HostRuntime) -> Result<(), Fail> {
    holds(&rt, rt.alloc(), ROUNDS)?;
    holds(&rt, rt.alloc(), ACTIONS)?;
    holds(&rt, rt.alloc(), OFF_THE_END)
}

// `return` leaves all blocks and loops of its body, and nothing else.
const RETURNS: Row<'static> = Row {
    text: r#"class R {
  int v;
  R(int n) {
    while (true) {
      this.v = this.v + 1;
      { if (this.v == n) { return; } }
    }
    this.v = 100;
  }
  int pair(int n) {
    int i = 1;
    while (i < 10) {
      int j = 1;
      while (j < 10) {
        if (i * j == n) { return i * 10 + j; } else { if (i + j > 17) { return -1; } }
        j = j + 1;
      }
      i = i + 1;
    }
    return 0;
  }
  void third(int[] a) {
    while (true) {
      a[0] = a[0] + 1;
      while (a[0] % 3 == 0) { return; a[0] = 100; }
    }
    a[0] = 200;
  }
  int small() {
    int i = 0;
    while (i < 3) { i = i + this.v; { { return i; } } }
    return 100;
  }
}
task startup(StartupObject s in initialstate) {
  R r = new R(4);
  int[] a = new int[1];
  r.third(a);
  print(r.v, " ", r.pair(12), " ", r.pair(11), " ", r.pair(72), " ", a[0]);
  int i = 0;
  while (i < 2) { r.third(a); print(" ", a[0], r.small()); i = i + 1; }
  r.v = 0 - r.v;
  print(" ", r.small());
  taskexit(s: initialstate := false);
}"#,
    input: "",
    limit: 10,
    told: "startup(0)
end: 1 committed, 0 failed",
    output: "4 26 -1 89 3 64 94 -4",
};

// A method that leaves on each way, and blocks whose variables have the same name.
const BRANCHES: Row<'static> = Row {
    text: r#"class C {
  int sign(int n) {
    if (n < 0) { int r = -1; return r; } else {
      if (n == 0) { return 0; } else { int r = 1; { return r; } }
    }
  }
  bool odd(int n) { if (n % 2 == 0) { return false; } return true; }
}
task startup(StartupObject s in initialstate) {
  C c = new C();
  { int x = 4; print(c.sign(x), c.odd(x), " "); }
  { bool x = c.odd(7); if (x) { x = false; } else { x = c.odd(1 / 0); } print(x, " "); }
  if (c.sign(-5) == -1) { int x = 2; x = x + 1; print(x); } else { bool x = true; print(x); }
  if (c.sign(0) != 0) { print("lost"); }
  int x = -7;
  print(" ", c.sign(x), c.odd(x));
  taskexit(s: initialstate := false);
}"#,
    input: "",
    limit: 10,
    told: "startup(0)
end: 1 committed, 0 failed",
    output: "1false false 3 -1true",
};

#[test]
fn returns_and_branches(rt: HostRuntime) -> Result<(), Fail> {
    holds(&rt, rt.alloc(), RETURNS)?;
    holds(&rt, rt.alloc(), BRANCHES)
}

// Numbers at both ends, in variables.
const EDGES: Row<'static> = Row {
    text: r#"task startup(StartupObject s in initialstate) {
  int max = 2147483647;
  int min = -max - 1;
  int one = -1;
  print(max + 1, " ", min - 1, " ", min + one, " ", max - one, " ", min + min, "\n");
  print(max * max, " ", min * one, " ", min * min, " ", max * 2, " ", 65536 * 32768, " ", 65536 * 65536, "\n");
  print(-min, " ", - -max, " ", -max, " ", -(max + 1) == min, "\n");
  print(min / one, " ", min % one, " ", min / 1, " ", min % 1, " ", min / max, " ", min % max, "\n");
  print(max / min, " ", max % min, " ", max / one, " ", max % one, " ", min / min, " ", min % min, "\n");
  print(max + 1 < max, " ", min - 1 > min, " ", min <= min, " ", max >= min, " ", min < max, " ", max > max);
  taskexit(s: initialstate := false);
}"#,
    input: "",
    limit: 10,
    told: "startup(0)
end: 1 committed, 0 failed",
    output: "-2147483648 2147483647 2147483647 -2147483648 0\n1 -2147483648 0 -2 -2147483648 0\n-2147483648 2147483647 -2147483647 true\n-2147483648 0 -2147483648 0 -1 -1\n0 2147483647 -2147483647 0 1 0\ntrue true true true true false",
};

// Quotients are cut towards zero, and a remainder has the sign of its left operand.
const SIGNS: Row<'static> = Row {
    text: r#"class M {
  int quotient(int a, int b) { return a / b; }
  int rest(int a, int b) { return a % b; }
}
task startup(StartupObject s in initialstate) {
  M m = new M();
  print(m.quotient(7, 2), m.rest(7, 2), " ", m.quotient(-7, 2), m.rest(-7, 2), " ");
  print(m.quotient(7, -2), m.rest(7, -2), " ", m.quotient(-7, -2), m.rest(-7, -2), " ");
  print(m.quotient(-1, 2), m.rest(-1, 2), " ", m.quotient(0, -5), m.rest(0, -5), " ");
  print(-7 / 2 * 2 + -7 % 2, " ", 100 - 7 / 2 - 1, " ", 2 * 7 % 4 / 2, " ", 2 - -3 - - 4);
  taskexit(s: initialstate := false);
}"#,
    input: "",
    limit: 10,
    told: "startup(0)
end: 1 committed, 0 failed",
    output: "31 -3-1 -31 3-1 0-1 00 -7 96 1 9",
};

#[test]
fn arithmetic(rt: HostRuntime) -> Result<(), Fail> {
    holds(&rt, rt.alloc(), EDGES)?;
    holds(&rt, rt.alloc(), SIGNS)
}

// Arguments, the object, its braces, and its constructor, in this order. Numbers follow the making.
const MAKERS: Row<'static> = Row {
    text: r#"class Q { flag f; int v; Q(int v) { this.v = v; print("Q", v, " "); } }
class P {
  flag g; Q q; Q r; int n;
  P(Q q, int n) {
    print("P", n, " ");
    this.q = q;
    this.r = new Q(q.v + n){f := true};
    this.n = n;
  }
  int sum() { return this.q.v + this.r.v; }
}
class Z { int n; bool b; Z o; int[] a; }
task startup(StartupObject s in initialstate) {
  P p = new P(new Q(1){f := true}, 3){g := true};
  print(p.sum(), p.n);
  Z z = new Z();
  print(" ", z.n, z.b, z.o == null, z.a == null);
  taskexit(s: initialstate := false);
}
task p(P x in g) { print(" p", x.sum(), x.n); taskexit(x: g := false); }
task q(Q x in f) { print(" q", x.v); taskexit(x: f := false); }"#,
    input: "",
    limit: 10,
    told: "startup(0)
p(3)
q(2)
q(4)
end: 4 committed, 0 failed",
    output: "Q1 P3 Q4 53 0falsetruetrue p53 q1 q4",
};

// A constructor that faults in the middle of an argument list.
const MIDDLE: Row<'static> = Row {
    text: "class C {
  flag f; int[] a;
  C(int n) { this.a = new int[n]; this.a[2] = n; }
  int two(C x, C y) { return x.a[2] * 10 + y.a.length; }
}
task bad(StartupObject s in initialstate) {
  C c = new C(3);
  print(c.two(c, new C(2){f := true}));
}
task good(StartupObject s in initialstate) {
  C c = new C(s.input.length);
  print(c.two(new C(4), c));
}",
    input: "abc",
    limit: 1,
    told: "good(0)
bad(0) Bounds at 3:41 over 0
spent: 1 committed, 1 failed",
    output: "43",
};

#[test]
fn constructors(rt: HostRuntime) -> Result<(), Fail> {
    holds(&rt, rt.alloc(), MAKERS)?;
    holds(&rt, rt.alloc(), MIDDLE)
}

// Each operand is evaluated once, from left to right, and what it gave stays.
const EFFECTS: Row<'static> = Row {
    text: r#"class P {
  int v;
  int next() { this.v = this.v + 1; return this.v; }
  int two(int a, int b) { return a * 10 + b; }
  P same(int n) { print("s", n, " "); return this; }
}
class M { int a; int b; M(int a, int b) { this.a = a; this.b = b; } }
task startup(StartupObject s in initialstate) {
  P p = new P();
  print(p.two(p.next(), p.next()), " ", p.two(p.v, p.next()), " ", p.two(p.next(), p.v), "\n");
  print(p.next() - p.next(), " ", p.next() * 10 + p.next(), " ", p.next() < p.next(), " ", p.next() == p.v, "\n");
  int[] a = new int[p.next() - 7];
  a[p.next() - 12] = p.next();
  a[p.v - 12] = a[0] + a[p.next() - 14];
  M m = new M(p.next(), p.next());
  print(a.length, " ", a[0], " ", a[1], " ", a[2], " ", m.a, " ", m.b, "\n");
  print(p.same(p.next()).two(p.next(), p.same(p.v).next()), " ", p.same(0) == p.same(1), "\n");
  p.v = 1;
  p.same(2).v = p.next() + p.v;
  print(p.v, "\n");
  int i = 1;
  i = i + p.two(i, i);
  i = p.two(i, p.next()) + i;
  print(i);
  taskexit(s: initialstate := false);
}"#,
    input: "",
    limit: 10,
    told: "startup(0)
end: 1 committed, 0 failed",
    output: "12 23 44\n-1 78 true true\n5 0 14 14 16 17\ns18 s19 210 s0 s1 true\ns2 4\n137",
};

// A result that is thrown away: what the call did stays.
const DROPPED: Row<'static> = Row {
    text: r#"class P {
  flag f; int v;
  int next() { this.v = this.v + 1; return this.v; }
  P me() { this.next(); print(this.v); return this; }
}
task startup(StartupObject s in initialstate) {
  P p = new P();
  p.next();
  p.me().me().next();
  new P(){f := true};
  P[] all = new P[1];
  all[0] = p;
  all[0].me();
  print(" ", p.v);
  taskexit(s: initialstate := false);
}
task use(P p in f) { p.me(); p.next(); print(" ", p.me().v); taskexit(p: f := false); }"#,
    input: "",
    limit: 10,
    told: "startup(0)
use(3)
end: 2 committed, 0 failed",
    output: "235 51 33",
};

// Calls in the condition of a loop: as often as the condition is evaluated.
const CONDITIONS: Row<'static> = Row {
    text: r#"class P {
  int v; int tests;
  int next() { this.v = this.v + 1; return this.v; }
  bool under(int x, int y) { this.tests = this.tests + 1; return x < y; }
  int multiple(int n) {
    while (this.next() % n != 0 || this.under(this.v, 8)) { print("."); }
    return this.v;
  }
}
task startup(StartupObject s in initialstate) {
  P p = new P();
  int i = 0;
  while (p.under(p.next() + p.next(), 10) && !p.under(i, 0)) { i = i + 1; print(p.v, " "); }
  print(i, p.v, p.tests, " ");
  P q = new P();
  while (p.under(q.multiple(3), 12)) { i = i + 10; print(q.v, q.tests, " "); }
  print(i, " ", q.v, q.tests, p.tests);
  while (false) { print("lost"); }
  taskexit(s: initialstate := false);
}"#,
    input: "",
    limit: 10,
    told: "startup(0)
end: 1 committed, 0 failed",
    output: "2 4 265 ........93 ..12 1247",
};

#[test]
fn effects_in_order(rt: HostRuntime) -> Result<(), Fail> {
    holds(&rt, rt.alloc(), EFFECTS)?;
    holds(&rt, rt.alloc(), DROPPED)?;
    holds(&rt, rt.alloc(), CONDITIONS)
}

// What `&&` and `||` leave out can neither fault nor print.
const SKIPPED: Row<'static> = Row {
    text: r#"class N {
  N next; int v;
  bool say(bool b) { print(b, " "); return b; }
}
task startup(StartupObject s in initialstate) {
  N n = new N();
  N none = null;
  print(none != null && none.v == 0, none == null || none.v == 0, "\n");
  print(n.say(false) && n.say(true) || n.say(true) && n.say(false), "\n");
  print(n.say(true) || n.say(false) && 1 / 0 == 1, "\n");
  print(!(n.say(true) && n.say(true)) || n.next != null && n.next.v == 1, "\n");
  if (n.v == 1 && n.v / n.v == 1 || n.next == null) { print("then "); }
  bool b = false;
  while (b || n.v < 2 && n.say(true)) { n.v = n.v + 1; }
  b = n.say(b) == n.say(false) && b != true;
  print(b);
  taskexit(s: initialstate := false);
}"#,
    input: "",
    limit: 10,
    told: "startup(0)
end: 1 committed, 0 failed",
    output: "falsetrue\nfalse true false false\ntrue true\ntrue true false\nthen true true false false true",
};

#[test]
fn what_is_skipped(rt: HostRuntime) -> Result<(), Fail> {
    holds(&rt, rt.alloc(), SKIPPED)
}

// The first and the last element, and the smallest and the largest array.
const ENDS: Row<'static> = Row {
    text: r#"class C { C next; }
task startup(StartupObject s in initialstate) {
  int[] a = s.input;
  bool[] b = new bool[2];
  C[] c = new C[1];
  a[0] = a[a.length - 1];
  a[a.length - 1] = 7;
  b[1] = true;
  c[0] = new C();
  c[0].next = c[c.length - 1];
  print(a[0], " ", a[1], " ", a[2], " ", s.input[2], " ", b[0], b[1], " ", c[0].next == c[0]);
  int[] most = new int[65536];
  most[65535] = 5;
  print(" ", (new int[0]).length, (new C[0]).length, " ", most.length, " ", most[0] + most[65535]);
  taskexit(s: initialstate := false);
}"#,
    input: "abc",
    limit: 10,
    told: "startup(0)
end: 1 committed, 0 failed",
    output: "99 98 7 7 falsetrue true 00 65536 5",
};

#[test]
fn ends_of_arrays(rt: HostRuntime) -> Result<(), Fail> {
    holds(&rt, rt.alloc(), ENDS)
}
