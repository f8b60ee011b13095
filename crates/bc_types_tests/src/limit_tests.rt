// As many declarations as there may be, and one more.

use crate::texts::{Frame, Told, are_told, kind_of, tell};
use bc_data::text::read_decimal;
use std::alloc::Global;
use std::process::Abort;
use std::test::Fail;

// Line 1 is a first text. Then come so many lines, each a piece with its number, from 0 on, in the place of `#`; and then
// a last text.
fn text_of(
    alloc: Global,
    first: &str,
    piece: &str,
    count: u64,
    last: &str,
) -> Result<String, Fail> {
    let Some((before, behind)) = piece.split_once('#') else {
        return Err("a piece has a number".into());
    };
    let mut text = String::from_str(alloc, first)?;
    text.push_str("\n")?;
    for i in 0..count {
        text.push_str(format!(in alloc; "{before}{i}{behind}\n")?.as_str())?;
    }
    text.push_str(last)?;
    Ok(text)
}

// `ok`, or a kind of fault and its line and column.
fn wanted(words: &str) -> Option<Told> {
    if words == "ok" {
        return Some(Told::Accepted);
    }
    let (kind, place) = words.split_once(' ')?;
    let (line, column) = place.split_once(':')?;
    let kind = kind_of(kind)?;
    let line = read_decimal(line.as_bytes())?;
    let column = read_decimal(column.as_bytes())?;
    Some(Told::Refused(kind, line, column))
}

// A row is a count and what is to be told; then the first text, the piece and the last text.
fn is_limit(rt: &impl Abort, alloc: Global, row: &str) -> Result<(), Fail> {
    let Some((head, texts)) = row.split_once(" | ") else {
        return Err("a row has four parts".into());
    };
    let Some((first, pieces)) = texts.split_once(" | ") else {
        return Err("a row has four parts".into());
    };
    let Some((piece, last)) = pieces.split_once(" | ") else {
        return Err("a row has four parts".into());
    };
    let Some((count, words)) = head.split_once(' ') else {
        return Err("a row has a count".into());
    };
    let Some(count) = read_decimal(count.as_bytes()) else {
        return Err("a count is a number".into());
    };
    let text = text_of(alloc, first, piece, count, last)?;
    let answer = tell(rt, alloc, text.as_str())?;
    assert_eq!(rt; Some(answer), wanted(words), "{row}");
    Ok(())
}

fn are_limits(rt: &impl Abort, alloc: Global, rows: &str) -> Result<(), Fail> {
    for row in rows.split('\n') {
        if !row.is_empty() {
            is_limit(rt, alloc, row)?;
        }
    }
    Ok(())
}

// Classes count `StartupObject`. All names come before the walk, so of a type without a class nothing is told where a
// name is one too many.
const NAMES: &str = r#"
255 ok | tagtype T; | class C# { } | tagtype U;
256 TooMany 257:7 | tagtype T; | class C# { } | tagtype U;
255 Twice 257:7 | tagtype T; | class C# { } | class StartupObject { }
256 ok | class A { } | task t#(StartupObject s in initialstate) { } | class B { }
257 TooMany 258:6 | class A { } | task t#(StartupObject s in initialstate) { } | class B { }
64 ok | class A { } | tagtype T#; | class B { }
65 TooMany 66:9 | class A { } | tagtype T#; | class B { }
32 ok | class A { | flag f#; | }
33 TooMany 34:6 | class A { | flag f#; | }
32 Twice 34:6 | class A { | flag f#; | flag f0; }
32 Unknown 1:11 | class B { Q q; } class A { | flag f#; | }
33 TooMany 34:6 | class B { Q q; } class A { | flag f#; | }
256 ok | class A { | int x#; | }
257 TooMany 258:5 | class A { | int x#; | }
256 ok | class A { | void m#() { } | }
257 TooMany 258:6 | class A { | void m#() { } | }
"#;

#[test]
fn names_of_programs_and_classes(rt: HostRuntime) -> Result<(), Fail> {
    are_limits(&rt, rt.alloc(), NAMES)
}

const PARAMETERS: &str = r#"
15 ok | class A { void m(int y | , int x# | ) { } }
16 TooMany 17:7 | class A { void m(int y | , int x# | ) { } }
15 Twice 17:7 | class A { void m(int y | , int x# | , int y) { } }
15 Unknown 17:3 | class A { void m(int y | , int x# | , Q z) { } }
15 ok | class A { A(int y | , int x# | ) { } }
16 TooMany 17:7 | class A { A(int y | , int x# | ) { } }
"#;

#[test]
fn parameters_of_methods(rt: HostRuntime) -> Result<(), Fail> {
    are_limits(&rt, rt.alloc(), PARAMETERS)
}

const ALONE: Frame<'static> = Frame {
    front: "",
    back: "",
    rest: "",
};

// The fifth parameter has its faults in the order of its parts: its class, its name, its guard.
const FIFTH_PARAMETERS: &str = r#"
Unknown class A { } task t(A a in true, A b in true, A c in true, A d in true, @Q e in true) { }
Twice class A { } task t(A a in true, A b in true, A c in true, A d in true, A @a in true) { }
TooMany class A { } task t(A a in true, A b in true, A c in true, A d in true, A @e in q) { }
"#;

#[test]
fn parameters_of_tasks(rt: HostRuntime) -> Result<(), Fail> {
    are_told(&rt, rt.alloc(), ALONE, FIFTH_PARAMETERS)
}

const IN_PARAMETERS: Frame<'static> = Frame {
    front: "tagtype T; class A { } task t(",
    back: ") { }",
    rest: "",
};

// Four different variables over all parameters; one that is used again is no declaration.
const VARIABLES: &str = r#"
ok A a in true with T v and T w, A b in true with T x and T y
TooMany A a in true with T v and T w, A b in true with T x and T y and T @z
TooMany A a in true with T v and T w, A b in true with T x, A c in true with T y, A d in true with T @z
ok A a in true with T v and T w and T x and T y, A b in true with T v and T w and T x and T y
TooMany A a in true with T v and T w and T x and T y, A b in true with T v and T @z
TooMany A a in true with T v and T w and T x and T y and T @z
Twice A a in true with T v and T w and T x and T y and T @v
Twice A a in true with T v and T w and T x and T y and T @a
Unknown A a in true with T v and T w and T x and T y and @Q z
"#;

#[test]
fn variables_of_parameters(rt: HostRuntime) -> Result<(), Fail> {
    are_told(&rt, rt.alloc(), IN_PARAMETERS, VARIABLES)
}

// 256 names in a body: its parameters, its tag variables, and its locals with those of ended blocks. `this` is none of
// them, and each body has its own.
const BODIES: &str = r#"
255 ok | task t(StartupObject s in initialstate) { | int x# = 1; | }
256 TooMany 257:5 | task t(StartupObject s in initialstate) { | int x# = 1; | }
255 TooMany 257:5 | task t(StartupObject s in initialstate) { | int x# = 1; | int z = true; }
255 Twice 257:5 | task t(StartupObject s in initialstate) { | int x# = 1; | int s = 1; }
255 Unknown 257:9 | task t(StartupObject s in initialstate) { | int x# = 1; | int z = q; }
255 ok | task t(StartupObject s in initialstate) { | { int x = #; } | }
256 TooMany 257:7 | task t(StartupObject s in initialstate) { | { int x = #; } | }
254 ok | tagtype T; task t(StartupObject s in initialstate with T v) { | tag x# = new tag(T); | }
255 TooMany 256:5 | tagtype T; task t(StartupObject s in initialstate with T v) { | tag x# = new tag(T); | }
127 ok | tagtype T; task t(StartupObject s in initialstate with T v) { | { tag x = new tag(T); } int y# = 1; | }
127 TooMany 129:5 | tagtype T; task t(StartupObject s in initialstate with T v) { | { tag x = new tag(T); } int y# = 1; | int z = 1; }
128 TooMany 129:7 | tagtype T; task t(StartupObject s in initialstate with T v) { | { tag x = new tag(T); } int y# = 1; | }
253 ok | tagtype T; class A { } task t(A a in true with T v, A b in true with T v) { | int x# = 1; | }
254 TooMany 255:5 | tagtype T; class A { } task t(A a in true with T v, A b in true with T v) { | int x# = 1; | }
255 ok | class A { void m(int y) { | int x# = 1; | } void n() { int y = 1; } }
256 TooMany 257:5 | class A { void m(int y) { | int x# = 1; | } }
256 ok | class A { A() { | int x# = 1; | } }
257 TooMany 258:5 | class A { A() { | int x# = 1; | } }
"#;

#[test]
fn names_of_bodies(rt: HostRuntime) -> Result<(), Fail> {
    are_limits(&rt, rt.alloc(), BODIES)
}
