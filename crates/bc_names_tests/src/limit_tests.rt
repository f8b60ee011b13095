// As many names as a space may have, and one more.

use crate::texts::is_told;
use bc_data::text::read_decimal;
use std::alloc::Global;
use std::process::Abort;
use std::test::Fail;

// Line 1 of a text is its first part. Then come `count` lines, each a number, from 0 on, between two parts. Behind them
// is the last part.
#[derive(Clone, Copy)]
struct Row<'a> {
    count: u64,
    want: &'a str,
    first: &'a str,
    before: &'a str,
    behind: &'a str,
    last: &'a str,
}

fn row_of(line: &str) -> Option<Row<'_>> {
    let (head, texts) = line.split_once(" | ")?;
    let (count, want) = head.split_once(' ')?;
    let (first, pieces) = texts.split_once(" | ")?;
    let (piece, last) = pieces.split_once(" | ")?;
    let (before, behind) = piece.split_once('#')?;
    Some(Row {
        count: read_decimal(count.as_bytes())?,
        want,
        first,
        before,
        behind,
        last,
    })
}

fn text_of(alloc: Global, row: Row<'_>) -> Result<String, Fail> {
    let mut text = String::from_str(alloc, row.first)?;
    text.push_str("\n")?;
    for i in 0..row.count {
        let before = row.before;
        let behind = row.behind;
        text.push_str(format!(in alloc; "{before}{i}{behind}\n")?.as_str())?;
    }
    text.push_str(row.last)?;
    Ok(text)
}

fn is_limit(rt: &impl Abort, alloc: Global, line: &str) -> Result<(), Fail> {
    let Some(row) = row_of(line) else {
        return Err("a row has its parts".into());
    };
    let text = text_of(alloc, row)?;
    is_told(rt, alloc, text.as_str(), row.want)
}

// Classes count `StartupObject`. A name that its space has is `Twice`, even where it is one too many.
const LIMITS: &str = r#"254 ok | class A { } | class c# { } | //
254 TooMany 256:7 | class A { } | class c# { } | class more { } class c0 { }
254 Twice 256:7 | class A { } | class c# { } | class c0 { } class more { }
64 ok | class A { } | tagtype t#; | //
64 TooMany 66:9 | class A { } | tagtype t#; | tagtype more; tagtype t0;
64 Twice 66:9 | class A { } | tagtype t#; | tagtype t0; tagtype more;
256 ok | class A { } | task t#(A a in true) { } | //
256 TooMany 258:6 | class A { } | task t#(A a in true) { } | task more(A a in true) { } task t0(A a in true) { }
256 Twice 258:6 | class A { } | task t#(A a in true) { } | task t0(A a in true) { } task more(A a in true) { }
32 ok | class A { | flag f#; | }
32 TooMany 34:6 | class A { | flag f#; | flag more; flag f0; }
32 Twice 34:6 | class A { | flag f#; | flag f0; flag more; }
256 ok | class A { | int x#; | }
256 TooMany 258:5 | class A { | int x#; | int more; int x0; }
256 Twice 258:5 | class A { | int x#; | int x0; int more; }
256 ok | class A { | void m#() { } | }
256 TooMany 258:6 | class A { | void m#() { } | void more() { } void m0() { } }
256 Twice 258:6 | class A { | void m#() { } | void m0() { } void more() { } }
"#;

#[test]
fn one_more_than_the_limit_is_too_many(rt: HostRuntime) -> Result<(), Fail> {
    for line in LIMITS.lines() {
        is_limit(&rt, rt.alloc(), line)?;
    }
    Ok(())
}
