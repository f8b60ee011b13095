// Statements and expressions, one a line, with a mark `@` in front of the token that is refused. What has no mark has a
// tree.

use crate::answers::{Kind, marked_lines};
use std::test::Fail;

const FRONT: &str = "task t(A x in f) { ";

const SIMPLE: &str = r#"@;
@1;
@(a).b = 1;
@-a;
@!a;
@null;
@true;
@"a";
@else { }
@void a;
@class
@flag f;
@length;
a@;
a b@;
a@, b = 1;
a @1;
a = b@, c = 1;
a = b @c;
a = @"a";
a @+ 1;
a @:= 1;
a @+= 1;
a@(b);
int a = 1; bool b = a; int[] c = null; A d = null; A[] e = d;
int a@;
int a @+ 1;
int @= 1;
int[@2] a = b;
int[] a@[0] = 1;
int[]@[] a = b;
int@.a = 1;
bool@(a);
A[] @= b;
A[0] @a = b;
A[]@.b = 1;
A[@;
A.b @c = 1;
this@;
this @= 1;
this @a = 1;
this@();
this.a = 1; this[0] = 1; this.a(); this.a[0].b().c = 1; this.length.a = 1;
a.@1 = b;
a.@;
a.b@;
a.b @c = 1;
a.b() @= 1;
a.b() @c;
a.b()@();
a.b().c = 1; a.b()[0] = 1; a[0].b(); a.length.b = 1; a.length[0] = 1;
a.length @= 1;
a.length@;
a.length@();
a[0]@;
a[0]@();
a[0@;
a.b(@;
a.b(c@;
tag a = new tag(k);
tag @= new tag(k);
tag a@;
tag a = @b;
tag a = new @A();
tag a = new tag@;
tag a = new tag(@);
tag a = new tag(k@, l);
tag a = new tag(k)@.b;
tag@[] a = b;
tag a = new tag(@int);
"#;

#[test]
fn declarations_assignments_and_calls(rt: HostRuntime) -> Result<(), Fail> {
    marked_lines(&rt, rt.alloc(), FRONT, SIMPLE, "\n}", Kind::Unexpected)
}

const LED_BY_A_WORD: &str =
    r#"new A(); new A(1, b); new A(){}; new A(){f := true, g := false, add u};
new A@;
new @(a);
new A()@.b();
new A() @= a;
new @int[2];
new A@[2];
new A(@,);
new @tag(k);
new A(){@,};
new A(){f@};
new A(){f := @1};
new A(){f := true @g := true};
new A(){f := true,@};
new A(){add @};
new A(){add @true};
new A(){@clear u};
new A(){f @= true};
new A(){}@{};
new A(){@1};
if (a) { } if (a) { } else { } if (a) { } else { if (b) { } }
if @a { }
if (@) { }
if (a@;
if (a) @a = 1;
if (a) @return;
if (a) { } else @if (b) { }
if (a) { } else @;
if (a) { } else { } @else { }
if (a) { }@;
while (a) { }
while @a { }
while (@) { }
while (a) @;
while (a) { } @else { }
{ } { { } }
{ }@;
{ @else { } }
{ } @else { }
return; return a; return (a);
return @return;
return a @b;
return a@, b;
return @"a";
return @int;
print("a"); print(a, "b", c);
print@;
print(@);
print(a@;
print(a,@);
print("a" @"b");
print("a" @+ a);
print(a + @"a");
print(-@"a");
print((@"a"));
print(a)@.b;
print(a) @= b;
print @"a";
assert(a);
assert(@);
assert(a@, b);
assert(@"a");
assert @a;
taskexit(); taskexit(x: f := true, add u, clear v; y: clear v, f := false);
taskexit@;
taskexit(f @:= true);
taskexit(x@);
taskexit(x:@);
taskexit(x: f@);
taskexit(x: f := @1);
taskexit(x: f := @!g);
taskexit(x: f := true @g := true);
taskexit(x: f := true,@);
taskexit(x: f := true;@);
taskexit(@; x: f := true);
taskexit(x: add@);
taskexit(x: add @true);
taskexit(x: clear u @v);
taskexit(x: f := true, y@: g := true);
taskexit(x: @new A());
taskexit(@this: f := true);
taskexit()@.a;
"#;

#[test]
fn statements_led_by_a_word(rt: HostRuntime) -> Result<(), Fail> {
    marked_lines(
        &rt,
        rt.alloc(),
        FRONT,
        LED_BY_A_WORD,
        "\n}",
        Kind::Unexpected,
    )
}

const EXPRESSIONS: &str = r#"@
(@)
(b@
b @c
b + @
@+ b
@* b
b * @/ c
b @!c
b && @&& c
b @= c
b == @= c
b @:= c
b@: c
@)
@]
@{ }
@"a"
b + @"a"
@print(b)
b @and c
b @or c
- -b
!-!-b
-b.c()
b - -c
b < c < d
b == c != d
b || c && d || e
-@
!@
-@)
b.@
b.@.c
b.@(c)
b.@1
b.@if
b.@new A()
b.@this
b.@int
b.length@(c)
b.length[0].length
1.length
null[0].b()
true.b + false[1]
b.c(@
b.c(d@
b.c(d @e)
b.c(@,)
b.c(d,@)
b.c(@"a")
b[@]
b[c@
b[c@, d]
b@{ }
b@(c)
(b)@(c)
(b) @c
(b).c(d)[0]
b[0]@(c)
b.c()@(d)
1@(b)
1 @2
@int
@int[2]
new @
new @1
new @this
new A@
new A@.b
new int@()
new bool@
new int[@]
new int[b@
new int[2]@[3]
new int[2]@.length
new A[2]@[0]
new A[2]@.b
new A[2]@{f := true}
new A()@.b
new A()@[0]
new A()@()
new A(){f := true}@.b
new A(@int)
new @void[1]
new @tag(k)
(new A()).b
(new int[2])[0] + (new bool[b]).length
-new A() * new int[2] + new A(){add u}
"#;

#[test]
fn expressions(rt: HostRuntime) -> Result<(), Fail> {
    let alloc = rt.alloc();
    marked_lines(
        &rt,
        alloc,
        "task t(A x in f) { a = ",
        EXPRESSIONS,
        ";\n}",
        Kind::Unexpected,
    )?;
    marked_lines(
        &rt,
        alloc,
        "class A { int m() { return b && ",
        EXPRESSIONS,
        "; } }",
        Kind::Unexpected,
    )
}
