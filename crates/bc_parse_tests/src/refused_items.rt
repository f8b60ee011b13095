// Items, members, parameters and guards, one a line, with a mark `@` in front of the token that is refused. What has no
// mark has a tree.

use crate::answers::{Kind, marked_lines};
use std::test::Fail;

const ITEMS: &str = r#" // and no more
@;
@}
@a
@1
@flag f;
@int a;
@{ }
@else
tagtype k; class A { } tagtype l;
class A { } class A { }
class A { }@;
class A { } @}
class A { } @else { }
class A { } @flag f;
tagtype k@, l;
tagtype @int;
tagtype k @= k;
tagtype k @class A { }
tagtype @;
class @task { }
class @{ }
class A @extends B { }
class A@; class B { }
class A@()
task t(A x in f) { }
task t(A x in f) { }@;
task t(A x in f) { } @{ }
task t(A x in f)@;
task @new(A x in f) { }
task @(A x in f) { }
task t @{ }
"#;

#[test]
fn items(rt: HostRuntime) -> Result<(), Fail> {
    marked_lines(&rt, rt.alloc(), "", ITEMS, "", Kind::Unexpected)
}

const MEMBERS: &str = r#"@;
@{ }
@this
@class B { }
@tag a;
@print();
@task a;
@1
@[] a;
flag f; flag g;
flag f@, g;
flag f@[];
flag @int;
flag @;
flag f@() { }
flag f @= true;
int a; bool b; A c; int[] d; bool[] e; A[] g;
int a @= 1;
int a@, b;
int a@[];
int @;
int @() { }
int[@2] a;
int[]@;
int[]@[] a;
int[] @() { }
A@;
A@.a;
A @= 1;
A[] @() { }
A[@A] a;
A[]@[] a;
A a @{ }
void @;
void a@;
void@[] a() { }
void @int a() { }
void @() { }
int a() { } A b(int c) { } A[] d(A[] e) { } void f() { } g() { }
bool a()@;
A()@;
A() { } @;
A() @a() { }
A(b@) { }
A(int@) { }
A(int a @b) { }
A(int a,@) { }
A(int a@;
A(@,) { }
A(@1) { }
A(int[] a, bool[] b, B[] c) { }
A(int[]@[] a) { }
A(@void a) { }
A(int a@[]) { }
A(@flag a) { }
A(B[@1] a) { }
A() { } } @}
"#;

#[test]
fn members(rt: HostRuntime) -> Result<(), Fail> {
    marked_lines(
        &rt,
        rt.alloc(),
        "class A { ",
        MEMBERS,
        " }",
        Kind::Unexpected,
    )
}

const PARAMETERS: &str = r#"@
A@
A x@
A x in@
x @in f
@int x in f
@this x in f
A@[] x in f
A x @f
A x in f, B y in g, C z in h, D u in i, E v in j
A x in f,@
A x in f @B y in g
A x in f@; B y in g
A x in f, B @in g
@, A x in f
"#;

#[test]
fn parameters(rt: HostRuntime) -> Result<(), Fail> {
    marked_lines(
        &rt,
        rt.alloc(),
        "task t(",
        PARAMETERS,
        ") { }",
        Kind::Unexpected,
    )
}

const GUARDS: &str = r#"@
f
true
false and !true
!(f or g) and h
((f))
!!f or g and !(!true)
(@)
f @g
f and @
f or @
@and f
@or f
f and @and g
f or @and g
!@
!@and f
f @!g
f @&& g
f @|| g
f @== g
(f @g)
(f and @)
f@(g)
f@.g
f @true
true @f
@1
@null
@this
@-f
f with@
f with k@
f with k a
f with k a and l b and k a
f with k a, B y in g with l b
f with k a @b
f with k a @or l b
f with k a and@
f with k a and l@
f with k a,@
f with k a, l b@
f with k a, @with l b
f with k a @with l b
f with @(k a)
f with @int a
f and @with k a
"#;

#[test]
fn guards(rt: HostRuntime) -> Result<(), Fail> {
    marked_lines(
        &rt,
        rt.alloc(),
        "task t(A x in ",
        GUARDS,
        ") { }",
        Kind::Unexpected,
    )
}
