// Worked programs: what commits, what fails, and what is printed.

use crate::rows::{Row, holds};
use std::test::Fail;

const CELL: Row<'static> = Row {
    text: "class Cell { flag on; flag off; int d; }
task startup(StartupObject s in initialstate) {
  new Cell(){on := true, off := true};
  taskexit(s: initialstate := false);
}
task bad(Cell c in on) { print(8 / c.d); taskexit(c: on := false); }
task fix(Cell c in off) { c.d = 2; taskexit(c: off := false); }",
    input: "",
    limit: 10,
    told: "startup(0)
fix(2)
bad(2)
end: 3 committed, 0 failed",
    output: "4",
};

#[test]
fn a_change_lets_a_failure_try_again(rt: HostRuntime) -> Result<(), Fail> {
    holds(&rt, rt.alloc(), CELL)
}

const ARRAYS: Row<'static> = Row {
    text: "class At {
  flag look; int[] a; int i;
  At(int[] a, int i) { this.a = a; this.i = i; }
}
task startup(StartupObject s in initialstate) {
  new At(s.input, 2){look := true};
  new At(s.input, 3){look := true};
  taskexit(s: initialstate := false);
}
task read(At x in look) {
  print(x.a[x.i]);
  taskexit(x: look := false);
}",
    input: "abc",
    limit: 10,
    told: "startup(0)
read(2)
read(3) Bounds at 11:12 over 3,1
end: 2 committed, 1 failed",
    output: "99",
};

#[test]
fn a_failure_leaves_the_others(rt: HostRuntime) -> Result<(), Fail> {
    holds(&rt, rt.alloc(), ARRAYS)
}

const NUMBERS: Row<'static> = Row {
    text: r#"task startup(StartupObject s in initialstate) {
  int m = -2147483647 - 1;
  print(m / -1, " ", m % -1, " ", -7 / 2, " ", -7 % 2);
  taskexit(s: initialstate := false);
}"#,
    input: "",
    limit: 10,
    told: "startup(0)
end: 1 committed, 0 failed",
    output: "-2147483648 0 -3 -1",
};

#[test]
fn numbers_have_32_bits(rt: HostRuntime) -> Result<(), Fail> {
    holds(&rt, rt.alloc(), NUMBERS)
}

// A body that runs off its end changes nothing here, so each pair is appended again behind those that are pending.
const PAIRS: Row<'static> = Row {
    text: r#"class N { flag f; int v; N(int v) { this.v = v; } }
task startup(StartupObject s in initialstate) {
  new N(0){f := true};
  new N(1){f := true};
  new N(2){f := true};
  taskexit(s: initialstate := false);
}
task pair(N x in f, N y in f) { print(x.v, y.v, " "); }"#,
    input: "",
    limit: 7,
    told: "startup(0)
pair(2,3)
pair(2,4)
pair(3,2)
pair(3,4)
pair(4,2)
pair(4,3)
spent: 7 committed, 0 failed",
    output: "01 02 10 12 20 21 ",
};

#[test]
fn pairs_of_different_objects_in_order(rt: HostRuntime) -> Result<(), Fail> {
    holds(&rt, rt.alloc(), PAIRS)
}

const JOBS: Row<'static> = Row {
    text: r#"class Job {
  flag todo;
  int n;
  Job(int n) { this.n = n; }
  int share(int whole) { return whole / this.n; }
}
task split(StartupObject s in initialstate) {
  int i = 0;
  while (i < s.input.length) {
    new Job(s.input[i] - 48){todo := true};
    i = i + 1;
  }
  taskexit(s: initialstate := false);
}
task serve(Job j in todo) { print(j.share(60), "\n"); taskexit(j: todo := false); }"#,
    input: "305",
    limit: 10,
    told: "split(0)
serve(2)
serve(4)
serve(3) Zero at 5:39 over 3
end: 3 committed, 1 failed",
    output: "20
12
",
};

#[test]
fn a_fault_in_a_method(rt: HostRuntime) -> Result<(), Fail> {
    holds(&rt, rt.alloc(), JOBS)
}

const GUARDS: Row<'static> = Row {
    text: "class G { flag f; flag g; }
task startup(StartupObject s in initialstate) {
  new G(){f := true};
  new G(){g := true};
  new G(){f := true, g := true};
  new G();
  taskexit(s: initialstate := false);
}
task none(G x in !(f or g)) { taskexit(x: f := true, g := true); }
task only(G x in f and !g) { taskexit(x: f := false, g := true); }
task all(G x in true and f and g) { taskexit(x: f := false); }",
    input: "",
    limit: 10,
    told: "startup(0)
none(5)
only(2)
all(4)
all(5)
end: 5 committed, 0 failed",
    output: "",
};

#[test]
fn guards_choose_objects(rt: HostRuntime) -> Result<(), Fail> {
    holds(&rt, rt.alloc(), GUARDS)
}

const ORDER: Row<'static> = Row {
    text: r#"class P {
  int say(int n) { print(n); return n; }
  int sum(int a, int b) { return a * 10 + b; }
}
task startup(StartupObject s in initialstate) {
  P p = new P();
  print(p.sum(p.say(1), p.say(2)) - p.say(3), p.say(4) < p.say(5));
  print(" ", false && 1 / 0 == 1, true || 1 / 0 == 1, !true);
  taskexit(s: initialstate := false);
}"#,
    input: "",
    limit: 10,
    told: "startup(0)
end: 1 committed, 0 failed",
    output: "123945true falsetruefalse",
};

const LEAVING: Row<'static> = Row {
    text: r#"class A {
  int at(int[] a, int x) {
    int i = 0;
    while (i < a.length) {
      { if (a[i] == x) { return i; } }
      i = i + 1;
    }
    return -1;
  }
  void nothing(int[] a) { if (a.length == 3) { return; } print("lost"); }
}
task startup(StartupObject s in initialstate) {
  A a = new A();
  a.nothing(s.input);
  print(a.at(s.input, 99), " ", a.at(s.input, 1), " ");
  int i = 0;
  while (true) {
    if (i == 3) { taskexit(s: initialstate := false); } else { print(i); }
    i = i + 1;
  }
}"#,
    input: "abc",
    limit: 10,
    told: "startup(0)
end: 1 committed, 0 failed",
    output: "2 -1 012",
};

#[test]
fn evaluation_and_leaving(rt: HostRuntime) -> Result<(), Fail> {
    holds(&rt, rt.alloc(), ORDER)?;
    holds(&rt, rt.alloc(), LEAVING)
}
