// Rules of expressions.

use crate::texts::{Frame, are_told};
use std::test::Fail;

const IN_METHOD: Frame<'static> = Frame {
    front: "class C { flag g; C[] cs; }
class A {
  flag f;
  int x;
  A(int i) { }
  void m(int i, A a) { }
  int n() { return 1; }
  void test(int i, bool b, A a, C c, int[] is) {",
    back: "} }",
    rest: "",
};

const IN_METHOD_ROWS: &str = r#"
ok i = -i; is = (is); b = true || 1 == 1;
Mismatch i = @-true;
Mismatch b = 1 @|| true;
Unknown b = null < @q;
Mismatch b = a @== c;
ok C[] x = c.cs; c = c.cs[i];
Unknown i = c.@x;
Mismatch i = 1@[1];
Unknown i = 1[@q];
ok a.m(1, null); a.n(); i = this.n();
Unknown a.m(@q.q(), r);
Unknown this.q(@q);
Mismatch i@.n(1);
Arity a@.m(true);
Mismatch a.m(@true, 1);
Mismatch a.m(1, @c);
Unknown new B(@q);
Arity @new C(1);
Mismatch new C() {add @i};
Unknown new C() {add @u};
Unknown new C() {@f := true, q := true};
Arity @new A() {q := true};
Mismatch new A(@null) {q := true};
ok bool[] x = new bool[1]; C[] y = new C[1];
Unknown is = new @B[true];
Unknown is = new B[@q];
"#;

#[test]
fn rules_in_a_method(rt: HostRuntime) -> Result<(), Fail> {
    are_told(&rt, rt.alloc(), IN_METHOD, IN_METHOD_ROWS)
}

const IN_TASK: Frame<'static> = Frame {
    front: "tagtype T;
class A { flag f; A(int i) { } }
task t(A a in f with T v) {",
    back: "}",
    rest: "",
};

const IN_TASK_ROWS: &str = r#"
ok new A(1) {f := true, add v};
Mismatch new A(@v);
Unknown new A(1) {f := true, @v := true};
"#;

#[test]
fn rules_in_a_task(rt: HostRuntime) -> Result<(), Fail> {
    are_told(&rt, rt.alloc(), IN_TASK, IN_TASK_ROWS)
}

// A class that the program doesn't declare is used before it is written, and has its own fault there.
const UNDECLARED: Frame<'static> = Frame {
    front: "task t(StartupObject s in initialstate) {
A a = null;",
    back: "}
class A { int x; ",
    rest: "B b; B[] bs; B k(B b) { return b; } }",
};

const UNDECLARED_ROWS: &str = r#"
Unknown bool b = a.b == null;
Unknown bool b = a.b == a.b;
Mismatch bool b = a @== a.b;
Mismatch bool b = a.bs @== a.b;
Unknown int i = a.b.@x;
Mismatch int i = a.bs@.x;
Unknown int i = a.bs.length;
Mismatch int i = a.b@.length;
Unknown bool b = a.bs[1] == a.b;
Unknown bool b = a.k(a.b) == a.b;
Unknown a.k(null);
Mismatch a.k(@a);
Unknown a.b.@n(1);
Unknown a.b = null; a.b = a.k(a.b); a.bs = null;
Mismatch A c = a@.b;
"#;

#[test]
fn rules_of_undeclared_classes(rt: HostRuntime) -> Result<(), Fail> {
    are_told(&rt, rt.alloc(), UNDECLARED, UNDECLARED_ROWS)
}
