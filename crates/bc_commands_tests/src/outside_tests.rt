// The top call over objects in memory: words, files and inputs that it refuses, and objects that fail.

use crate::calls::{Rest, Setting, call_with, is_told, is_told_of_spaces, sound, spaces};
use std::alloc::{AllocError, Global};
use std::process::Abort;

const HELLO: &str =
    "task startup(StartupObject s in initialstate) {\n  print(\"hello\\n\");\n  taskexit(s: initialstate := false);\n}\n";

// A program that tells how long its input is.
const LENGTH: &str =
    "task t(StartupObject s in initialstate) { print(s.input.length); taskexit(s: initialstate := false); }";

// Texts that are no program, each with its message.
const REFUSED: [(&str, &str); 7] = [
    (
        "task t(StartupObject s in initialstate) { taskexit(",
        "refused: Unexpected at 1:52\n",
    ),
    (
        "task t(StartupObject s in initialstate) {\n  int x = (((((((((((((((((((((((((((((((((((((((((((((((((((((((((((((((((",
        "refused: TooDeep at 2:74\n",
    ),
    (
        "task t(StartupObject s in initialstate) {\n  print(2147483648);\n}\n",
        "refused: NumberRange at 2:9\n",
    ),
    ("/* x", "refused: OpenComment at 1:1\n"),
    ("&", "refused: BadByte at 1:1\n"),
    ("class A { int x; int x; }", "refused: Twice at 1:22\n"),
    (
        "task t(StartupObject s in initialstate) {\n  x = 1;\n}\n",
        "refused: Unknown at 2:3\n",
    ),
];

fn serial(
    rt: &impl Abort,
    alloc: Global,
    setting: Setting<'_>,
    status: u8,
    out: &str,
    err: &str,
) -> Result<Rest, AllocError> {
    is_told(rt, alloc, &["serial", "p", "9"], setting, status, out, err)
}

// These words are no command.
fn refuses(rt: &impl Abort, alloc: Global, words: &[&str]) -> Result<(), AllocError> {
    let setting = sound(HELLO, b"");
    let rest = is_told(rt, alloc, words, setting, 2, "", "words: not a command\n")?;
    assert_eq!(rt; rest.asked, 0);
    Ok(())
}

// So many commits are accepted.
fn accepts(rt: &impl Abort, alloc: Global, commits: &str) -> Result<(), AllocError> {
    let words = ["serial", "p", commits];
    let err = "end: 0 committed, 0 failed\n";
    is_told(rt, alloc, &words, sound("", b""), 0, "", err)?;
    Ok(())
}

#[test]
fn refuses_words(rt: HostRuntime) -> Result<(), AllocError> {
    for commits in ["0", "03", "1000001", "18446744073709551617", "-1", "x", ""] {
        refuses(&rt, rt.alloc(), &["serial", "p", commits])?;
    }
    for commits in ["1", "257", "1000000"] {
        accepts(&rt, rt.alloc(), commits)?;
    }
    Ok(())
}

#[test]
fn refuses_other_commands(rt: HostRuntime) -> Result<(), AllocError> {
    let alloc = rt.alloc();
    refuses(&rt, alloc, &[])?;
    refuses(&rt, alloc, &["serial", "p"])?;
    refuses(&rt, alloc, &["serial", "p", "3", "4"])?;
    refuses(&rt, alloc, &["cereal", "p", "3"])?;
    refuses(&rt, alloc, &["run", "p", "4", "100"])
}

// Such a text is refused before the input is read, though that is too long.
fn refuses_before(
    rt: &impl Abort,
    alloc: Global,
    text: &str,
    long: &[u8],
    message: &str,
) -> Result<(), AllocError> {
    let rest = serial(rt, alloc, sound(text, long), 1, "", message)?;
    assert!(rt; !rest.has_stop);
    assert_eq!(rt; rest.left, 65_537);
    Ok(())
}

#[test]
fn refuses_texts_before_inputs(rt: HostRuntime) -> Result<(), AllocError> {
    let long = spaces(rt.alloc(), 65_537)?;
    for (text, message) in REFUSED {
        refuses_before(&rt, rt.alloc(), text, &long, message)?;
    }
    Ok(())
}

#[test]
fn keeps_the_limit_of_files(rt: HostRuntime) -> Result<(), AllocError> {
    let words = ["serial", "p", "9"];
    let end = "end: 0 committed, 0 failed\n";
    is_told_of_spaces(&rt, rt.alloc(), &words, 1_048_577, 8, "too long\n")?;
    is_told_of_spaces(&rt, rt.alloc(), &words, 1_048_576, 0, end)
}

// The program of lengths on an input of so many spaces.
fn on_spaces(
    rt: &impl Abort,
    alloc: Global,
    len: usize,
    status: u8,
    out: &str,
    err: &str,
) -> Result<Rest, AllocError> {
    let input = spaces(alloc, len)?;
    serial(rt, alloc, sound(LENGTH, &input), status, out, err)
}

#[test]
fn keeps_the_limit_of_inputs(rt: HostRuntime) -> Result<(), AllocError> {
    let alloc = rt.alloc();
    let rest = on_spaces(&rt, alloc, 65_537, 8, "", "too long\n")?;
    assert!(rt; !rest.has_stop);
    let end = "end: 1 committed, 0 failed\n";
    on_spaces(&rt, alloc, 65_536, 0, "65536", end)?;
    Ok(())
}

fn fails_at(rt: &impl Abort, alloc: Global, call: u32) -> Result<(), AllocError> {
    let setting = Setting {
        input_fails: &[call],
        ..sound(LENGTH, b"abc")
    };
    let rest = serial(rt, alloc, setting, 6, "", "read failed\n")?;
    assert_eq!(rt; rest.input_faults, 1);
    assert_eq!(rt; rest.commits, 0);
    Ok(())
}

#[test]
fn tells_failed_reads(rt: HostRuntime) -> Result<(), AllocError> {
    let alloc = rt.alloc();
    let words = ["serial", "none", "5"];
    is_told(
        &rt,
        alloc,
        &words,
        sound(HELLO, b""),
        6,
        "",
        "read failed\n",
    )?;
    let setting = Setting {
        shelf_fails: &[1],
        ..sound(HELLO, b"")
    };
    serial(&rt, alloc, setting, 6, "", "read failed\n")?;
    // the second read of the source is that of the end
    fails_at(&rt, alloc, 1)?;
    fails_at(&rt, alloc, 2)
}

#[test]
fn tells_failed_writes(rt: HostRuntime) -> Result<(), AllocError> {
    let alloc = rt.alloc();
    let cut = Setting {
        most: 3,
        out_fails: &[2],
        ..sound(HELLO, b"")
    };
    let rest = serial(&rt, alloc, cut, 7, "hel", "write failed\n")?;
    assert_eq!(rt; rest.commits, 1);
    assert!(rt; rest.has_ended);
    let silent = Setting {
        err_fails: &[1],
        ..sound(HELLO, b"")
    };
    let rest = serial(&rt, alloc, silent, 7, "hello\n", "")?;
    assert!(rt; rest.has_ended);
    let both = Setting {
        err_fails: &[1],
        ..cut
    };
    serial(&rt, alloc, both, 7, "hel", "")?;
    Ok(())
}

// The command leaves the source, of which so many bytes can be read behind it.
fn leaves(
    rt: &impl Abort,
    alloc: Global,
    command: &str,
    input_fails: &[u32],
    left: usize,
) -> Result<(), AllocError> {
    let setting = Setting {
        input_fails,
        ..sound(HELLO, b"abc")
    };
    let told = call_with(alloc, &[command, "p"], setting)?;
    assert!(rt; told.report.status == 0, "{command}");
    assert!(rt; told.left == left && told.input_faults == 0, "{command}");
    Ok(())
}

// These commands leave a source as it was, also one that fails at its first read.
#[test]
fn leaves_the_input(rt: HostRuntime) -> Result<(), AllocError> {
    for command in ["show", "check", "code"] {
        leaves(&rt, rt.alloc(), command, &[], 3)?;
        leaves(&rt, rt.alloc(), command, &[1], 0)?;
    }
    Ok(())
}
