// The top call over objects in memory: `serial`.

use crate::calls::{call_with, is_told, of_file, sound};
use bc_data::list::{Bytes, List};
use bc_data::run::{Invocation, Stop};
use std::alloc::{AllocError, Global};
use std::process::Abort;

// A program, its input and its limit of commits; the status, and what the call writes.
#[derive(Clone, Copy)]
struct Row<'a> {
    text: &'a str,
    input: &'a str,
    commits: &'a str,
    status: u8,
    out: &'a str,
    err: &'a str,
}

const HELLO: Row<'static> = Row {
    text: "task startup(StartupObject s in initialstate) {
  print(\"hello\\n\");
  taskexit(s: initialstate := false);
}",
    input: "",
    commits: "100",
    status: 0,
    out: "hello\n",
    err: "end: 1 committed, 0 failed\n",
};

const EMPTY: Row<'static> = Row {
    text: "",
    input: "",
    commits: "1",
    status: 0,
    out: "",
    err: "end: 0 committed, 0 failed\n",
};

// What a task prints is lost where it faults.
const BOOM: Row<'static> = Row {
    text: "task boom(StartupObject s in initialstate) {
  print(\"a\");
  assert(false);
}",
    input: "",
    commits: "9",
    status: 0,
    out: "",
    err: "end: 0 committed, 1 failed\nfailed: boom(0): Assert at 3:3\n",
};

// A commit drops the failure that touched its object.
const FIXED: Row<'static> = Row {
    text: "class Cell { flag on; flag off; int d; }
task startup(StartupObject s in initialstate) { new Cell(){on := true, off := true}; taskexit(s: initialstate := false); }
task bad(Cell c in on) { print(8 / c.d); taskexit(c: on := false); }
task fix(Cell c in off) { c.d = 2; taskexit(c: off := false); }",
    input: "",
    commits: "9",
    status: 0,
    out: "4",
    err: "end: 3 committed, 0 failed\n",
};

const AGAIN: Row<'static> = Row {
    text: "task again(StartupObject s in initialstate) { print(\"x\"); }",
    input: "",
    commits: "3",
    status: 3,
    out: "xxx",
    err: "spent: 3 committed\n",
};

// Two tasks that stay enabled take turns.
const TURNS: Row<'static> = Row {
    text: "task a(StartupObject s in initialstate) { print(\"a\"); }
task b(StartupObject s in initialstate) { print(\"b\"); }",
    input: "",
    commits: "3",
    status: 3,
    out: "aba",
    err: "spent: 3 committed\n",
};

const READS: Row<'static> = Row {
    text: "class At {
  flag look; int[] a; int i;
  At(int[] a, int i) { this.a = a; this.i = i; }
}
task startup(StartupObject s in initialstate) {
  new At(s.input, 2){look := true};
  new At(s.input, 3){look := true};
  taskexit(s: initialstate := false);
}
task read(At x in look) {
  print(x.a[x.i]);
  taskexit(x: look := false);
}",
    input: "abc",
    commits: "9",
    status: 0,
    out: "99",
    err: "end: 2 committed, 1 failed\nfailed: read(3): Bounds at 11:12\n",
};

const LEAST: Row<'static> = Row {
    text: "task startup(StartupObject s in initialstate) { int m = -2147483647 - 1; print(m / -1, \" \", m % -1, \" \", -7 / 2, \" \", -7 % 2); taskexit(s: initialstate := false); }",
    input: "",
    commits: "9",
    status: 0,
    out: "-2147483648 0 -3 -1",
    err: "end: 1 committed, 0 failed\n",
};

const PAIRS: Row<'static> = Row {
    text: "class N { flag f; int v; N(int v) { this.v = v; } }
task startup(StartupObject s in initialstate) { new N(0){f := true}; new N(1){f := true}; new N(2){f := true}; taskexit(s: initialstate := false); }
task pair(N x in f, N y in f) { print(x.v, y.v, \" \"); }",
    input: "",
    commits: "7",
    status: 3,
    out: "01 02 10 12 20 21 ",
    err: "spent: 7 committed\n",
};

const JOINS: Row<'static> = Row {
    text: "tagtype T;
class L { flag f; int v; L(int v) { this.v = v; } }
class R { flag f; int v; R(int v) { this.v = v; } }
task startup(StartupObject s in initialstate) {
  tag a = new tag(T);
  tag b = new tag(T);
  new L(1){f := true, add a};
  new R(2){f := true, add a};
  new L(3){f := true, add b};
  new R(4){f := true, add b};
  taskexit(s: initialstate := false);
}
task join(L x in f with T t, R y in f with T t) { print(x.v, y.v, \" \"); taskexit(x: f := false; y: f := false); }",
    input: "",
    commits: "9",
    status: 0,
    out: "12 34 ",
    err: "end: 3 committed, 0 failed\n",
};

const CLEARS: Row<'static> = Row {
    text: "tagtype T;
class C { flag f; }
task startup(StartupObject s in initialstate) {
  tag a = new tag(T);
  tag b = new tag(T);
  new C(){f := true, add a, add b};
  taskexit(s: initialstate := false);
}
task each(C c in f with T t) { print(\"t\"); taskexit(c: clear t); }",
    input: "",
    commits: "9",
    status: 0,
    out: "tt",
    err: "end: 3 committed, 0 failed\n",
};

const SPINS: Row<'static> = Row {
    text: "task spin(StartupObject s in initialstate) {
  int i = 0;
  while (i < 1000000) { i = i + 1; }
  taskexit(s: initialstate := false);
}",
    input: "",
    commits: "9",
    status: 0,
    out: "",
    err: "end: 1 committed, 0 failed\n",
};

const SPINS_TOO_LONG: Row<'static> = Row {
    text: "task spin(StartupObject s in initialstate) {
  int i = 0;
  while (i < 1000001) { i = i + 1; }
  taskexit(s: initialstate := false);
}",
    input: "",
    commits: "9",
    status: 0,
    out: "",
    err: "end: 0 committed, 1 failed\nfailed: spin(0): Turns at 3:3\n",
};

const DEEP: Row<'static> = Row {
    text: "class D { int d() { return this.d(); } }
task t(StartupObject s in initialstate) { D x = new D(); print(x.d()); taskexit(s: initialstate := false); }",
    input: "",
    commits: "9",
    status: 0,
    out: "",
    err: "end: 0 committed, 1 failed\nfailed: t(0): Depth at 1:32\n",
};

const FILLS: Row<'static> = Row {
    text: "class A { flag f; }
task fill(StartupObject s in initialstate) {
  int i = 0;
  while (i < 65533) { new A(); i = i + 1; }
  new A(){f := true};
  taskexit(s: initialstate := false);
}
task more(A a in f) { new A(); taskexit(a: f := false); }",
    input: "",
    commits: "9",
    status: 0,
    out: "",
    err: "end: 1 committed, 1 failed\nfailed: more(65535): Objects at 8:1\n",
};

// 512 objects make 261,632 pairs, and 513 make 262,656.
const NEARLY_CROWDED: Row<'static> = Row {
    text: "class A { flag f; }
task startup(StartupObject s in initialstate) {
  int i = 0;
  while (i < 512) { new A(){f := true}; i = i + 1; }
  taskexit(s: initialstate := false);
}
task pair(A x in f, A y in f) { }",
    input: "",
    commits: "1",
    status: 3,
    out: "",
    err: "spent: 1 committed\n",
};

const CROWDED: Row<'static> = Row {
    text: "class A { flag f; }
task startup(StartupObject s in initialstate) {
  int i = 0;
  while (i < 513) { new A(){f := true}; i = i + 1; }
  taskexit(s: initialstate := false);
}
task pair(A x in f, A y in f) { }",
    input: "",
    commits: "1",
    status: 4,
    out: "",
    err: "crowded: 0 committed, over 262144 enabled\n",
};

// One job that fails stops no other.
const SERVICE: Row<'static> = Row {
    text: "class Job {
  flag todo;
  int n;
  Job(int n) { this.n = n; }
  int share(int whole) { return whole / this.n; }
}
task split(StartupObject s in initialstate) { int i = 0; while (i < s.input.length) { new Job(s.input[i] - 48){todo := true}; i = i + 1; } taskexit(s: initialstate := false); }
task serve(Job j in todo) { print(j.share(60), \"\\n\"); taskexit(j: todo := false); }",
    input: "305",
    commits: "100",
    status: 0,
    out: "20\n12\n",
    err: "end: 3 committed, 1 failed\nfailed: serve(3): Zero at 5:39\n",
};

fn holds(rt: &impl Abort, alloc: Global, row: Row<'_>) -> Result<(), AllocError> {
    let words = ["serial", "p", row.commits];
    let setting = sound(row.text, row.input.as_bytes());
    let rest = is_told(rt, alloc, &words, setting, row.status, row.out, row.err)?;
    assert!(rt; rest.has_stop);
    assert_eq!(rt; rest.asked, 1);
    assert_eq!(rt; rest.left, 0);
    Ok(())
}

#[test]
fn runs_programs(rt: HostRuntime) -> Result<(), AllocError> {
    let alloc = rt.alloc();
    holds(&rt, alloc, HELLO)?;
    holds(&rt, alloc, EMPTY)?;
    holds(&rt, alloc, BOOM)?;
    holds(&rt, alloc, FIXED)?;
    holds(&rt, alloc, AGAIN)?;
    holds(&rt, alloc, TURNS)?;
    holds(&rt, alloc, READS)?;
    holds(&rt, alloc, LEAST)?;
    holds(&rt, alloc, PAIRS)?;
    holds(&rt, alloc, JOINS)?;
    holds(&rt, alloc, CLEARS)?;
    holds(&rt, alloc, SERVICE)
}

#[test]
fn keeps_the_limits_of_runs(rt: HostRuntime) -> Result<(), AllocError> {
    let alloc = rt.alloc();
    holds(&rt, alloc, SPINS)?;
    holds(&rt, alloc, SPINS_TOO_LONG)?;
    holds(&rt, alloc, DEEP)?;
    holds(&rt, alloc, FILLS)?;
    holds(&rt, alloc, NEARLY_CROWDED)?;
    holds(&rt, alloc, CROWDED)
}

fn is_join(v: &Invocation, objects: &[u32], tags: &[u32]) -> bool {
    v.task == 1 && v.objects.as_slice() == objects && v.tags.as_slice() == tags
}

fn are_joins(history: &[Invocation]) -> bool {
    match history {
        [_, second, third] => is_join(second, &[2, 3], &[0]) && is_join(third, &[4, 5], &[1]),
        _ => false,
    }
}

#[test]
fn reports_history_and_stop(rt: HostRuntime) -> Result<(), AllocError> {
    let told = call_with(rt.alloc(), &["serial", "p", "9"], sound(JOINS.text, b""))?;
    assert!(rt; matches!(told.report.stop, Some(Stop::End)));
    assert!(rt; are_joins(told.report.history.as_slice()));
    Ok(())
}

fn failures_from_2_to_21(alloc: Global) -> Result<String, AllocError> {
    let mut err = String::from_str(alloc, "end: 1 committed, 21 failed\n")?;
    for id in 2..22 {
        let line = format!(in alloc; "failed: bad({id}): Assert at 7:22\n")?;
        err.push_str(line.as_str())?;
    }
    Ok(err)
}

// Of more than 20 failures the first 20 are told.
#[test]
fn tells_twenty_failures(rt: HostRuntime) -> Result<(), AllocError> {
    let alloc = rt.alloc();
    let text = "class C { flag f; }
task startup(StartupObject s in initialstate) {
  int i = 0;
  while (i < 21) { new C(){f := true}; i = i + 1; }
  taskexit(s: initialstate := false);
}
task bad(C c in f) { assert(false); }";
    let err = failures_from_2_to_21(alloc)?;
    let words = ["serial", "p", "30"];
    is_told(&rt, alloc, &words, sound(text, b""), 0, "", err.as_str())?;
    Ok(())
}

// A task that prints a text of 65,536 bytes at each run.
fn loud(alloc: Global) -> Result<Bytes, AllocError> {
    let front = b"\n  task a(StartupObject s in initialstate){print(\"";
    let mut text = List::from_slice(alloc, front)?;
    for _ in 0..65_536 {
        text.push(b'x')?;
    }
    text.extend_from_slice(b"\");}")?;
    Ok(text)
}

// 256 such texts fill the output: one run more has no room, and is told as a failure.
#[test]
fn tells_a_full_output(rt: HostRuntime) -> Result<(), AllocError> {
    let alloc = rt.alloc();
    let text = loud(alloc)?;
    let told = call_with(alloc, &["serial", "p", "256"], of_file(text.as_slice()))?;
    let err = b"end: 256 committed, 1 failed\nfailed: a(0): Output at 2:3\n";
    assert!(rt; told.report.status == 0);
    assert!(rt; told.out.len() == 256 * 65_536);
    assert!(rt; told.err.as_slice() == err.as_slice());
    Ok(())
}
