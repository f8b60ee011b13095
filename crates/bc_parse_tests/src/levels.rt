// Texts with 63, 64 and 65 levels. The mark `@` stands in front of the token that is too deep.

use crate::answers::{Kind, has_fault, has_tree, marked, marked_lines};
use std::alloc::{AllocError, Global};
use std::process::Abort;
use std::test::Fail;

const TASK: &str = "task t(A x in f) { ";

const PRINT: &str = "task t(A x in f) { print(";

fn repeated(alloc: Global, part: &str, count: usize) -> Result<String, AllocError> {
    let mut whole = String::new(alloc);
    for _ in 0..count {
        whole.push_str(part)?;
    }
    Ok(whole)
}

/// A line `open # core # close`: what opens a level, what stands within, and what closes it.
#[derive(Clone, Copy)]
struct Nest<'a> {
    open: &'a str,
    core: &'a str,
    close: &'a str,
}

fn nest_of(line: &str) -> Nest<'_> {
    let (open, rest) = line.split_once('#').unwrap_or((line, ""));
    let (core, close) = rest.split_once('#').unwrap_or((rest, ""));
    Nest { open, core, close }
}

/// A front, so many nested openings and their closings, and a back.
fn nested(
    alloc: Global,
    front: &str,
    nest: Nest<'_>,
    count: usize,
    back: &str,
) -> Result<String, Fail> {
    let opened = repeated(alloc, nest.open, count)?;
    let closed = repeated(alloc, nest.close, count)?;
    let core = nest.core;
    Ok(format!(in alloc; "{front}{opened}{core}{closed}{back}")?)
}

/// So many openings have a tree, and the next is too deep at its mark, whatever follows.
fn deepest(
    rt: &impl Abort,
    alloc: Global,
    front: &str,
    line: &str,
    back: &str,
    count: usize,
) -> Result<(), Fail> {
    let Nest { open, core, close } = nest_of(line);
    let (before, behind) = open.split_once('@').unwrap_or((open, ""));
    let plain = format!(in alloc; "{before}{behind}")?;
    let open = plain.as_str();
    let nest = Nest { open, core, close };
    for less in [count.saturating_sub(1), count] {
        let text = nested(alloc, front, nest, less, back)?;
        has_tree(rt, alloc, text.as_str());
    }
    let opened = repeated(alloc, open, count)?;
    let fault = format!(in alloc; "{front}{opened}{before}")?;
    for more in [count.saturating_add(1), count.saturating_add(2)] {
        let text = nested(alloc, front, nest, more, back)?;
        has_fault(rt, alloc, text.as_str(), Kind::TooDeep, fault.as_str());
    }
    Ok(())
}

/// Each line is the deepest at this count.
fn deepest_lines(
    rt: &impl Abort,
    alloc: Global,
    front: &str,
    rows: &str,
    back: &str,
    count: usize,
) -> Result<(), Fail> {
    for row in rows.lines() {
        deepest(rt, alloc, front, row, back, count)?;
    }
    Ok(())
}

const OPERATORS: &str = r#" @+ 1
 @- 1
 @* 1
 @/ 1
 @% 1
 @< 1
 @<= 1
 @> 1
 @>= 1
 @== 1
 @!= 1
 @&& 1
 @|| 1
"#;

const LINKS: &str = r#"@.b
@.length
@[0]
@.m()
@.m(1, b)
"#;

const OPERANDS: &str = r#"@( # 1 # )
@- # 1 #
@! # 1 #
@new A( # 1 # )
@new A(b, # 1 # )
@new A( # 1 # , b){f := true, add u}
@new int[ # 1 # ]
@new bool[ # 1 # ]
@new A[ # 1 # ]
x@.m( # 1 # )
x@.m(b, # 1 # , c)
this@.m( # 1 # )
x@[ # 1 # ]
"#;

// Two levels for each opening.
const PAIRS: &str = r#"1 + @( # -1 # )
b || @( # !b # )
-@( # -1 # )
!@( # !b # )
(@- # -1 # )
new A(@- # -1 # )
new A[@( # -1 # )]
x[@( # -1 # )]
x.m(1 @+ # -1 # )
"#;

// What an element or a call stands on is one level below it.
const ON_A_LINK: &str = r#"x.b@[ # -1 # ]
x.b@.m( # -1 # )
x.m(b)@.n( # -1 # )
x[0]@[ # -1 # ]
"#;

// A right operand that binds tighter stands one level below each further operator.
const LAST_OF_TWO: &str = r#" @+ 1 * 1
 @- 1 % 1
 @< 1 + 1
 @== 1 < 1
 @&& 1 == 1
 @|| 1 && 1
"#;

// A print is a level, and each expression in it that is no leaf.
#[test]
fn expressions(rt: HostRuntime) -> Result<(), Fail> {
    let alloc = rt.alloc();
    deepest_lines(
        &rt,
        alloc,
        "task t(A x in f) { print(1",
        OPERATORS,
        "); }",
        63,
    )?;
    deepest_lines(&rt, alloc, "task t(A x in f) { print(x", LINKS, "); }", 63)?;
    deepest_lines(&rt, alloc, PRINT, OPERANDS, "); }", 63)?;
    deepest_lines(
        &rt,
        alloc,
        "task t(A x in f) { print(\"a\", ",
        OPERANDS,
        ", \"b\"); }",
        63,
    )?;
    deepest_lines(&rt, alloc, PRINT, PAIRS, "); }", 31)?;
    deepest_lines(&rt, alloc, PRINT, ON_A_LINK, "); }", 62)?;
    deepest_lines(
        &rt,
        alloc,
        "task t(A x in f) { print(1",
        LAST_OF_TWO,
        "); }",
        62,
    )
}

const UNARY: &str = r#"@( # 1 # )
@- # 1 #
x@[ # 1 # ]
x@.m( # 1 # )
"#;

// Statements with one level around the expression that stands for the `#`.
const ONE_LEVEL: &str = r#"int a = #; }
A[] a = #; }
a = #; }
a.b = #; }
a[1] = #; }
return #; }
assert(#); }
if (#) { } }
if (#) { } else { } }
while (#) { } }
"#;

const TWO_LEVELS: &str = r#"a[#] = 1; }
a.b[#] = 1; }
a.m(#); }
a.m(1, #, 2); }
a[1].m(#); }
this.m(#); }
new A(#); }
new A(1, #){add u}; }
"#;

// Each line of `UNARY` is the deepest at this count within the statement.
fn within(rt: &impl Abort, alloc: Global, statement: &str, count: usize) -> Result<(), Fail> {
    let (open, close) = statement.split_once('#').unwrap_or((statement, ""));
    let front = format!(in alloc; "{TASK}{open}")?;
    deepest_lines(rt, alloc, front.as_str(), UNARY, close, count)
}

// What stands around an expression is a level, and so is the element, call or `new` that it is part of.
#[test]
fn expressions_of_statements(rt: HostRuntime) -> Result<(), Fail> {
    for statement in ONE_LEVEL.lines() {
        within(&rt, rt.alloc(), statement, 63)?;
    }
    for statement in TWO_LEVELS.lines() {
        within(&rt, rt.alloc(), statement, 62)?;
    }
    Ok(())
}

// A call, and an assignment to a field or an element, is a statement with an expression in it.
#[test]
fn chains(rt: HostRuntime) -> Result<(), Fail> {
    let alloc = rt.alloc();
    for chain in ["x", "this"] {
        let front = format!(in alloc; "{TASK}{chain}")?;
        let front = front.as_str();
        deepest(&rt, alloc, front, "@.m()", "; }", 63)?;
        deepest(&rt, alloc, front, "@.m(1, b)", "; }", 63)?;
        deepest(&rt, alloc, front, "@.b", " = 1; }", 63)?;
        deepest(&rt, alloc, front, "@[0]", " = 1; }", 63)?;
        // a length is no target and no call, so that one more link has to follow
        deepest(&rt, alloc, front, ".@length", ".b = 1; }", 62)?;
        deepest(&rt, alloc, front, ".@length", ".m(); }", 62)?;
    }
    Ok(())
}

const STATEMENTS: &str = r#"@{ # # }
@if (a) { # # }
@if (a) { # # } else { }
@if (a) { } else { # # }
@while (a) { # # }
@{ } { # # } { }
@int a = 1; { # # }
"#;

#[test]
fn statements(rt: HostRuntime) -> Result<(), Fail> {
    let alloc = rt.alloc();
    let body = STATEMENTS;
    deepest_lines(&rt, alloc, TASK, body, "}", 64)?;
    deepest_lines(&rt, alloc, "class A { void m() { ", body, "} }", 64)?;
    deepest_lines(&rt, alloc, "class A { int m(int a) { ", body, "} }", 64)?;
    deepest_lines(&rt, alloc, "class A { A() { ", body, "} }", 64)
}

const FLAGS: &str = r#"@! # f #
@( # f # )
"#;

const FLAG_PAIRS: &str = r#"f and @( # !f # )
f or @( # !f # )
!@( # !f # )
(@! # !f # )
"#;

// The root of a guard is at level 1.
#[test]
fn guards(rt: HostRuntime) -> Result<(), Fail> {
    let alloc = rt.alloc();
    let second = "task t(A x in f and g with k a, B y in ";
    deepest_lines(&rt, alloc, "task t(A x in ", FLAGS, ") { }", 64)?;
    deepest_lines(&rt, alloc, second, FLAGS, " with k b) { }", 64)?;
    deepest_lines(
        &rt,
        alloc,
        "task t(A x in f",
        " @and f\n @or f\n",
        ") { }",
        64,
    )?;
    deepest(&rt, alloc, "task t(A x in f", " @or f and f", ") { }", 63)?;
    deepest_lines(&rt, alloc, "task t(A x in (", FLAG_PAIRS, ")) { }", 31)
}

const IN_LEVEL_63: &str = r#"a = 1;
x.b = 1;
x.b@.c = 1;
x.@length.b = 1;
x.b@.length.c = 1;
x[0] = 1;
x[0]@[0] = 1;
x[@-1] = 1;
x.m();
x.m()@.n();
x.m(@-1);
this.b = 1;
this.b@.c = 1;
this.@length.b = 1;
this[0] = 1;
this[0]@.m();
this.m();
new A();
new A(1, b){f := true, add u};
new A(@(1));
new A(@new B());
print(-1);
print(-@-1);
print("a", (1), x[0], x.m(1), new A(), new int[2], 1 + 1);
print("a", (@(1)));
a = b.c;
a = b.c@.d;
a = b.c();
a = b.c(1, d);
a = b.c(1 @+ 1);
a = b.c() @+ 1;
a = b.length;
a = b.length@.c;
a = b + c;
a = b + c @+ d;
a = b + c @* d;
a = b * c @+ d;
a = -b@.c;
a = -b @+ c;
if (a) { a = 1; } else { a = 1; }
if (-a) { return b; }
if (a) { x@.b = 1; }
if (a) { } else { x@.m(); }
while (a) { { } print("a", b); }
while (a) { { @{ } } }
while (a) { @this.b = 1; }
{ @new A(); }
"#;

const IN_LEVEL_64: &str = r#"int a = 1;
A a = null;
A[] a = true;
int[] a = this;
tag a = new tag(k);
a = 1;
{ }
if (a) { }
if (a) { } else { }
while (a) { }
return;
return a;
print("a", a, "b");
assert(a);
taskexit();
taskexit(a: f := true, add b, clear c; b: clear d, g := false);
x@.b = 1;
x@.m();
x@.length.b = 1;
x[@0] = 1;
x[@y] = 1;
x[@-1] = 1;
x[@(1)] = 1;
x[@!a] = 1;
x[@new
x[@null
x[@true
x[@this
@this.a = 1;
@this[0] = 1;
@this.m();
@new A();
{ @{ } }
{ @a = 1; }
if (a) { @return; }
if (a) { } else { @a = 1; }
while (a) { @print(1); }
if (@!a) { }
while (@-a) { }
return @(a);
return a @+ b;
int a = b@.c;
A a = @new A();
a = b @+ c;
a = b@[c];
a = b@.length;
a = @-1;
a = @new int[2];
print("a", @-a);
print(a@.m());
assert(a @== b);
"#;

const IN_LEVEL_65: &str = r#"@int a = 1;
@A a = null;
@bool[] a = b;
@tag a = new tag(k);
@a = 1;
@this.a = 1;
@new A();
@{ }
@if (a) { }
@while (a) { }
@return;
@print(1);
@assert(a);
@taskexit();
"#;

const UNEXPECTED: &str = r#"x[@;
x[@)
x[@class
x[]@=
x@(
x@)
a = @;
a = b @c;
a = b@(c);
print(@);
return @]
if (@) { }
@else { }
@;
@)
@class A { }
"#;

fn in_blocks(
    rt: &impl Abort,
    alloc: Global,
    count: usize,
    rows: &str,
    kind: Kind,
) -> Result<(), Fail> {
    let opened = repeated(alloc, "{ ", count)?;
    let closed = repeated(alloc, " }", count)?;
    let front = format!(in alloc; "{TASK}{opened}")?;
    let back = format!(in alloc; "{closed} }}")?;
    marked_lines(rt, alloc, front.as_str(), rows, back.as_str(), kind)
}

#[test]
fn single_statements(rt: HostRuntime) -> Result<(), Fail> {
    let alloc = rt.alloc();
    in_blocks(&rt, alloc, 62, IN_LEVEL_63, Kind::TooDeep)?;
    in_blocks(&rt, alloc, 63, IN_LEVEL_64, Kind::TooDeep)?;
    in_blocks(&rt, alloc, 64, IN_LEVEL_65, Kind::TooDeep)?;
    in_blocks(&rt, alloc, 62, UNEXPECTED, Kind::Unexpected)?;
    in_blocks(&rt, alloc, 63, UNEXPECTED, Kind::Unexpected)
}

// What stands behind so many nested openings: each line is as `marked` has it.
fn behind_nested(
    rt: &impl Abort,
    alloc: Global,
    front: &str,
    nest: Nest<'_>,
    count: usize,
    backs: &str,
) -> Result<(), Fail> {
    for back in backs.lines() {
        let text = nested(alloc, front, nest, count, back)?;
        marked(rt, alloc, text.as_str(), Kind::TooDeep)?;
    }
    Ok(())
}

const BEHIND_GROUPS: &str = r#" + 1; }
 + 1 @+ 1; }
 - 1 * 1; }
 * 1 @- 1; }
 == 1 @|| 1; }
"#;

const BEHIND_SUMS: &str = r#"; }
 + 1; }
 + 1 @+ 1; }
"#;

// Each operator moves all that stands left of it down a level.
#[test]
fn left_operands(rt: HostRuntime) -> Result<(), Fail> {
    let alloc = rt.alloc();
    let front = "task t(A x in f) { int x = ";
    behind_nested(&rt, alloc, front, nest_of("(#1#)"), 62, BEHIND_GROUPS)?;
    // a group and an operator for each opening
    let sums = nest_of("(#1# + 1)");
    behind_nested(&rt, alloc, front, sums, 31, BEHIND_SUMS)?;
    let front = "task t(A x in f) { int x = (";
    behind_nested(&rt, alloc, front, sums, 31, "); }\n @+ 1); }")
}
