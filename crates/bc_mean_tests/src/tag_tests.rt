// Tag instances: which objects they join, and which invocations they make.

use crate::rows::{Row, holds};
use std::test::Fail;

const JOINS: Row<'static> = Row {
    text: r#"tagtype T;
class L { flag f; int v; L(int v) { this.v = v; } }
class R { flag f; int v; R(int v) { this.v = v; } }
task startup(StartupObject s in initialstate) {
  tag a = new tag(T);
  tag b = new tag(T);
  new L(1){f := true, add a};
  new R(2){f := true, add a};
  new L(3){f := true, add b};
  new R(4){f := true, add b};
  taskexit(s: initialstate := false);
}
task join(L x in f with T t, R y in f with T t) {
  print(x.v, y.v, " ");
  taskexit(x: f := false; y: f := false);
}"#,
    input: "",
    limit: 10,
    told: "startup(0)
join(2,3|0)
join(4,5|1)
end: 3 committed, 0 failed",
    output: "12 34 ",
};

#[test]
fn objects_with_one_instance_join(rt: HostRuntime) -> Result<(), Fail> {
    holds(&rt, rt.alloc(), JOINS)
}

const TWO: Row<'static> = Row {
    text: r#"tagtype T;
class C { flag f; }
task startup(StartupObject s in initialstate) {
  tag a = new tag(T);
  tag b = new tag(T);
  new C(){f := true, add a, add b};
  taskexit(s: initialstate := false);
}
task each(C c in f with T t) { print("t"); taskexit(c: clear t); }"#,
    input: "",
    limit: 10,
    told: "startup(0)
each(2|0)
each(2|1)
end: 3 committed, 0 failed",
    output: "tt",
};

#[test]
fn an_invocation_for_each_instance(rt: HostRuntime) -> Result<(), Fail> {
    holds(&rt, rt.alloc(), TWO)
}

const FOUR: Row<'static> = Row {
    text: r#"tagtype T;
tagtype U;
class C { flag f; }
task startup(StartupObject s in initialstate) {
  tag a = new tag(T);
  tag u = new tag(U);
  tag b = new tag(T);
  new C(){f := true, add a, add u, add b};
  taskexit(s: initialstate := false);
}
task both(C c in f with T x and T y) { print("."); }"#,
    input: "",
    limit: 6,
    told: "startup(0)
both(2|0,0)
both(2|0,2)
both(2|2,0)
both(2|2,2)
both(2|0,0)
spent: 6 committed, 0 failed",
    output: ".....",
};

#[test]
fn two_variables_may_name_one_instance(rt: HostRuntime) -> Result<(), Fail> {
    holds(&rt, rt.alloc(), FOUR)
}

// A new instance leaves the task with its object, and is bound once however often it is added.
const MADE: Row<'static> = Row {
    text: r#"tagtype T;
class C { flag f; flag g; }
task startup(StartupObject s in initialstate) {
  new C(){f := true};
  new C(){f := true};
  taskexit(s: initialstate := false);
}
task bind(C c in f, C d in f) {
  tag t = new tag(T);
  taskexit(c: f := false, add t, add t, g := true; d: f := false, add t, g := true);
}
task use(C c in g with T t) { print("u"); taskexit(c: clear t); }"#,
    input: "",
    limit: 10,
    told: "startup(0)
bind(2,3)
use(2|0)
use(3|0)
end: 4 committed, 0 failed",
    output: "uu",
};

#[test]
fn an_exit_binds_new_instances(rt: HostRuntime) -> Result<(), Fail> {
    holds(&rt, rt.alloc(), MADE)
}
