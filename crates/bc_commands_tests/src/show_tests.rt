// The top call over objects in memory: `show`.

use crate::calls::{Setting, is_told, is_told_of_spaces, of_file, sound};
use bc_data::list::{Bytes, List};
use std::alloc::{AllocError, Global};
use std::process::Abort;

// A program on one line, and its canonical text.
const ONE_LINE: &str =
    "class N{flag f;flag g;int v;}task t(N x in f and!g){if(x.v<0){x.v= -x.v;}else{assert(x.v!=1);}taskexit(x:f:=false,g:=true);}";

const CANONICAL: &str =
    "class N {\n  flag f;\n  flag g;\n  int v;\n}\ntask t(N x in f and !g) {\n  if (x.v < 0) {\n    x.v = -x.v;\n  } else {\n    assert(x.v != 1);\n  }\n  taskexit(x: f := false, g := true);\n}\n";

const HELLO: &str =
    "task startup(StartupObject s in initialstate) {\n  print(\"hello\\n\");\n  taskexit(s: initialstate := false);\n}\n";

fn expect_shown(rt: &impl Abort, alloc: Global, text: &str, shown: &str) -> Result<(), AllocError> {
    let rest = is_told(rt, alloc, &["show", "p"], sound(text, b""), 0, shown, "")?;
    assert!(rt; !rest.has_stop);
    assert_eq!(rt; rest.commits, 0);
    assert_eq!(rt; rest.asked, 1);
    Ok(())
}

fn expect_refused(
    rt: &impl Abort,
    alloc: Global,
    text: &[u8],
    message: &str,
) -> Result<(), AllocError> {
    is_told(rt, alloc, &["show", "p"], of_file(text), 1, "", message)?;
    Ok(())
}

#[test]
fn shows_canonical_texts(rt: HostRuntime) -> Result<(), AllocError> {
    let alloc = rt.alloc();
    expect_shown(&rt, alloc, ONE_LINE, CANONICAL)?;
    expect_shown(&rt, alloc, CANONICAL, CANONICAL)?;
    expect_shown(&rt, alloc, "", "")?;
    expect_shown(&rt, alloc, HELLO, HELLO)?;
    expect_shown(&rt, alloc, "  // nothing\n/* at all */", "")
}

#[test]
fn tells_the_first_fault_of_a_text(rt: HostRuntime) -> Result<(), AllocError> {
    let alloc = rt.alloc();
    expect_refused(
        &rt,
        alloc,
        b"task t(StartupObject s in initialstate) { taskexit(",
        "refused: Unexpected at 1:52\n",
    )?;
    expect_refused(
        &rt,
        alloc,
        b"task t(StartupObject s in initialstate) {\n  print(2147483648);\n}\n",
        "refused: NumberRange at 2:9\n",
    )?;
    expect_refused(&rt, alloc, b"/* x", "refused: OpenComment at 1:1\n")?;
    expect_refused(&rt, alloc, b"&", "refused: BadByte at 1:1\n")?;
    expect_refused(&rt, alloc, b"\n \"a", "refused: OpenText at 2:2\n")?;
    // a fault of the tokens comes before each fault of the grammar
    expect_refused(&rt, alloc, b"class class &", "refused: BadByte at 1:13\n")
}

// A task with so many parentheses open in its second line.
fn nested(alloc: Global, levels: usize) -> Result<Bytes, AllocError> {
    let mut text = List::from_slice(
        alloc,
        b"task t(StartupObject s in initialstate) {\n  int x = ",
    )?;
    for _ in 0..levels {
        text.push(b'(')?;
    }
    Ok(text)
}

#[test]
fn tells_where_a_text_is_too_deep(rt: HostRuntime) -> Result<(), AllocError> {
    let alloc = rt.alloc();
    let deep = nested(alloc, 65)?;
    expect_refused(&rt, alloc, deep.as_slice(), "refused: TooDeep at 2:74\n")?;
    let cut = nested(alloc, 63)?;
    expect_refused(&rt, alloc, cut.as_slice(), "refused: Unexpected at 2:74\n")
}

#[test]
fn has_a_limit_for_files(rt: HostRuntime) -> Result<(), AllocError> {
    let words = ["show", "p"];
    is_told_of_spaces(&rt, rt.alloc(), &words, 1_048_577, 8, "too long\n")?;
    is_told_of_spaces(&rt, rt.alloc(), &words, 1_048_576, 0, "")
}

#[test]
fn tells_other_words_and_failed_calls(rt: HostRuntime) -> Result<(), AllocError> {
    let alloc = rt.alloc();
    let none = sound("", b"");
    let refused = "words: not a command\n";
    is_told(&rt, alloc, &["show", "p", "3"], none, 2, "", refused)?;
    is_told(&rt, alloc, &["show"], none, 2, "", refused)?;
    is_told(&rt, alloc, &["show", "q"], none, 6, "", "read failed\n")?;
    let cut = Setting {
        most: 7,
        out_fails: &[2],
        ..sound(HELLO, b"")
    };
    is_told(
        &rt,
        alloc,
        &["show", "p"],
        cut,
        7,
        "task st",
        "write failed\n",
    )?;
    Ok(())
}
