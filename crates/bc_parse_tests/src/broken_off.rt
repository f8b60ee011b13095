// Items that break off behind each of their tokens, and with comments between their tokens.

use crate::answers::{Answer, Kind, TREE, expect, has_tree, place_behind};
use bc_data::token::Token;
use bc_lex::tokens;
use bc_parse_expr::cursor::spelled;
use std::alloc::{AllocError, Global};
use std::process::Abort;
use std::test::Fail;

/// Items, one a line, that together have every construct of the grammar.
const ITEMS: &str = r#"tagtype k;
class A { }
class A { flag f; flag g; int a; bool b; A c; int[] d; bool[] e; A[] h; }
class A { void m() { } int n(int a) { } bool p(bool a, A b) { } A q(int[] a, bool[] b, A[] c) { } int[] r() { return; } bool[] s() { } A[] u() { } }
class A { A() { } B(int a, bool[] b) { this.a = a; } flag f; }
task t(A x in f) { }
task t(A x in true, B y in false, C z in !f) { }
task t(A x in f and g and !h or true or (f or g) and !(f and !!g)) { }
task t(A x in f with k a) { }
task t(A x in f with k a and l b, B y in g with k a) { }
task t(A x in f) { int a = 1; bool b = true; A c = null; int[] d = null; bool[] e = null; A[] h = null; tag u = new tag(k); }
task t(A x in f) { a = 2; x.a = 3; this.a.b = 4; a[0] = 5; x.m().d[a][b] = 6; this[1] = 7; x.length.a = 8; x[0].length[1] = 9; }
task t(A x in f) { x.m(); this.m(1); x.a.m(1, 2).n(); x[0].m(a)[1].n(true, null, this); }
task t(A x in f) { new A(); new A(1, x); new A(){}; new A(1){f := true, g := false, add u}; new B(){add u, add v}; }
task t(A x in f) { { } { { } { a = 1; } } if (a) { } if (a) { a = 1; } else { } if (a) { } else { if (b) { } else { return; } } }
task t(A x in f) { while (true) { while (a) { a = b; } } return; return a; }
task t(A x in f) { print("a"); print(1, "b\n\"", x, ""); assert(a); }
task t(A x in f) { taskexit(); taskexit(x: f := true); taskexit(x: f := false, add u, clear v; y: clear u, g := true); taskexit(x: add u; y: add v; z: clear u); }
task t(A x in f) { a = 0; a = 2147483647; a = true; a = false; a = null; a = this; a = x; a = (x); a = ((1) + (x)); a = -1; a = !b; a = --!!-a; }
task t(A x in f) { a = b || c && d == e != f < g <= h > i >= j + k - l * m / n % o; a = (b || c) && d || e; a = b % c - d < e == f && g || h; }
task t(A x in f) { a = x.b.c; a = x.length; a = x.b.length; a = x[0]; a = x[y[1]].z[2].length; a = x.m(); a = x.m(1).n(a, b + 1)[0].length; }
task t(A x in f) { a = this.m(); a = (x).b; a = null[0]; a = true.b; a = 1.length; a = (x).m()[(0)]; }
task t(A x in f) { a = new A(); a = new A(1, new B()); a = new A(){}; a = new A(x){f := true, add u, add v, g := false}; }
task t(A x in f) { a = new int[1]; a = new bool[n + 1]; a = new A[x.length]; a = new A() + new int[2] * -new A(b); a = (new A()).m(new B[1]); }
"#;

// A text, what stands behind it, and something further that is refused.
fn joined(alloc: Global, text: &[u8], tail: &[u8]) -> Result<Vec<u8>, Fail> {
    let mut whole = Vec::new(alloc);
    whole.extend_from_slice(text)?;
    whole.extend_from_slice(tail)?;
    Ok(whole)
}

// A text is refused behind its end, where something further stands that is refused.
fn refused_behind(rt: &impl Abort, alloc: Global, text: &[u8], further: &str) -> Result<(), Fail> {
    let want = Answer {
        kind: Kind::Unexpected,
        at: place_behind(text),
    };
    let whole = joined(alloc, text, further.as_bytes())?;
    expect(rt, alloc, whole.as_slice(), want, further);
    Ok(())
}

/// The item broken off behind each token but its last, with a tail and then something that no item takes: it is refused
/// there. With nothing further the end is.
fn broken_off(
    rt: &impl Abort,
    alloc: Global,
    item: &[u8],
    tail: &[u8],
    further: &str,
) -> Result<(), Fail> {
    assert!(rt; item.len() < 1_000_000);
    let found = tokens(alloc, item)?;
    assert!(rt; 1 < found.len());
    for token in &found {
        let end = (token.end as usize).min(item.len());
        if end < item.len() {
            let text = joined(alloc, &item[..end], tail)?;
            refused_behind(rt, alloc, text.as_slice(), further)?;
        }
    }
    Ok(())
}

// An item has a tree, and something further is refused behind it.
fn is_whole(rt: &impl Abort, alloc: Global, item: &str, further: &str) -> Result<(), Fail> {
    let front = joined(alloc, item.as_bytes(), b" ")?;
    has_tree(rt, alloc, item);
    refused_behind(rt, alloc, front.as_slice(), further)
}

#[test]
fn whole_items(rt: HostRuntime) -> Result<(), Fail> {
    has_tree(&rt, rt.alloc(), ITEMS);
    for item in ITEMS.lines() {
        for further in ["}", "else", ";", "flag"] {
            is_whole(&rt, rt.alloc(), item, further)?;
        }
    }
    Ok(())
}

// The end is refused behind its last byte, in a new line where that is a line feed.
#[test]
fn the_end_comes_too_early(rt: HostRuntime) -> Result<(), Fail> {
    let alloc = rt.alloc();
    for item in ITEMS.lines() {
        for tail in ["", "\n", " \t", "\n\n // no more", " /* \n */\r"] {
            broken_off(&rt, alloc, item.as_bytes(), tail.as_bytes(), "")?;
        }
    }
    Ok(())
}

#[test]
fn a_token_that_no_item_takes(rt: HostRuntime) -> Result<(), Fail> {
    let alloc = rt.alloc();
    for item in ITEMS.lines() {
        for further in ["class", "task", "tagtype", "class }", "task \n 0"] {
            broken_off(&rt, alloc, item.as_bytes(), b" ", further)?;
        }
    }
    Ok(())
}

/// A program, one item a line.
const PROGRAM: &str = r#"tagtype k;
class A { flag f; int a; A() { } }
tagtype l;
task t(A x in f and !g with k a) { print("a"); taskexit(x: f := false, clear a); }
task u(A x in f) { }
class B { }
class C { void m() { { } } }
"#;

// The front of a program up to a token: it has a tree exactly where a line, and so an item, has ended.
fn cut_behind(rt: &impl Abort, alloc: Global, program: &[u8], token: Token) {
    let end = (token.end as usize).min(program.len());
    let front = &program[..end];
    let ended = end == program.len() || program[end] == b'\n';
    let cut = Answer {
        kind: Kind::Unexpected,
        at: place_behind(front),
    };
    let want = if ended { TREE } else { cut };
    expect(rt, alloc, front, want, "a front of the program");
}

#[test]
fn a_program_broken_off(rt: HostRuntime) -> Result<(), Fail> {
    let alloc = rt.alloc();
    let program = PROGRAM.as_bytes();
    assert!(rt; program.len() < 1_000_000);
    for token in tokens(alloc, program)? {
        cut_behind(&rt, alloc, program, token);
    }
    Ok(())
}

// All byte values in order, without the one that would end the comment.
fn all_bytes(
    alloc: Global,
    front: &[u8],
    left_out: Option<u8>,
    back: &[u8],
) -> Result<Vec<u8>, Fail> {
    let mut comment = joined(alloc, front, b"")?;
    for byte in 0..=255u8 {
        if left_out != Some(byte) {
            comment.push(byte)?;
        }
    }
    comment.extend_from_slice(back)?;
    Ok(comment)
}

// Appends the bytes of a token, behind the comment where it isn't the first.
fn push_token(
    text: &mut Vec<u8>,
    item: &[u8],
    token: &Token,
    comment: &[u8],
) -> Result<(), AllocError> {
    let (start, end) = (token.start as usize, token.end as usize);
    if 0 < start && start < end {
        text.extend_from_slice(comment)?;
    }
    text.extend_from_slice(spelled(item, start, end))
}

/// The item with a comment between every two tokens. The comment begins with a space, since it may follow a `/`.
fn commented(rt: &impl Abort, alloc: Global, item: &[u8], comment: &[u8]) -> Result<Vec<u8>, Fail> {
    assert!(rt; item.len() < 1_000_000);
    let found = tokens(alloc, item)?;
    let mut text = Vec::new(alloc);
    for token in &found {
        push_token(&mut text, item, token, comment)?;
    }
    Ok(text)
}

// Whether tokens of two texts are of one kind and spelled alike.
fn same_token(one: &[u8], a: &Token, other: &[u8], b: &Token) -> bool {
    let left = spelled(one, a.start as usize, a.end as usize);
    let right = spelled(other, b.start as usize, b.end as usize);
    a.kind == b.kind && left == right
}

/// Both texts have the same tokens.
fn same_tokens(rt: &impl Abort, alloc: Global, one: &[u8], other: &[u8]) -> Result<(), Fail> {
    assert!(rt; one.len() < 1_000_000 && other.len() < 1_000_000);
    let left = tokens(alloc, one)?;
    let right = tokens(alloc, other)?;
    assert_eq!(rt; left.len(), right.len());
    for (a, b) in left.iter().zip(&right) {
        assert!(rt; same_token(one, a, other, b));
    }
    Ok(())
}

/// With the comment between every two tokens the item has the same tokens, and a tree.
fn takes_comment(rt: &impl Abort, alloc: Global, item: &str, comment: &[u8]) -> Result<(), Fail> {
    let text = commented(rt, alloc, item.as_bytes(), comment)?;
    same_tokens(rt, alloc, item.as_bytes(), text.as_slice())?;
    expect(rt, alloc, text.as_slice(), TREE, item);
    Ok(())
}

#[test]
fn comments_of_all_bytes(rt: HostRuntime) -> Result<(), Fail> {
    let alloc = rt.alloc();
    let block = all_bytes(alloc, b" /*", None, b"*/")?;
    let line = all_bytes(alloc, b" //", Some(b'\n'), b"\n")?;
    for item in ITEMS.lines() {
        takes_comment(&rt, alloc, item, block.as_slice())?;
        takes_comment(&rt, alloc, item, line.as_slice())?;
    }
    Ok(())
}

fn broken_off_behind(
    rt: &impl Abort,
    alloc: Global,
    item: &str,
    comment: &[u8],
) -> Result<(), Fail> {
    let text = commented(rt, alloc, item.as_bytes(), comment)?;
    broken_off(rt, alloc, text.as_slice(), comment, "class")
}

// Each token then stands in a line of its own.
#[test]
fn broken_off_behind_comments(rt: HostRuntime) -> Result<(), Fail> {
    let comment = all_bytes(rt.alloc(), b" //", Some(b'\n'), b"\n")?;
    for item in ITEMS.lines() {
        broken_off_behind(&rt, rt.alloc(), item, comment.as_slice())?;
    }
    Ok(())
}

const LIKE_TOKENS: [&[u8]; 12] = [
    b" /**/",
    b" /***/",
    b" /*/*/",
    b" /* // */",
    b" /*\"*/",
    b" //\"\n",
    b" // /*\n",
    b" //*/\n",
    b" //\n",
    b" /*\n*/",
    b" /*;*/",
    b" //}\n",
];

#[test]
fn comments_like_tokens(rt: HostRuntime) -> Result<(), Fail> {
    for item in ITEMS.lines() {
        for comment in LIKE_TOKENS {
            takes_comment(&rt, rt.alloc(), item, comment)?;
        }
    }
    Ok(())
}
