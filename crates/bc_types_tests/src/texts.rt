// What the checker tells of texts, and rows of texts with what it is to tell.

ghost use Rattle.std.specs.Prelude.{◌≤◌, length};

use bc_data::program::Program;
use bc_read::reader::read_tree;
use bc_types::{TypeFault, TypeKind, check};
use std::alloc::Global;
use std::process::Abort;
use std::test::Fail;

/// A fault has its line and its column.
#[derive(Clone, Copy, Debug, PartialEq, Eq)]
pub enum Told {
    Accepted,
    Refused(TypeKind, u64, u64),
}

/// The program of a text that has a tree, or its first fault.
pub fn checked(alloc: Global, text: &str) -> Result<Result<Program, TypeFault>, Fail>
    requires { length text.now ≤ 1048576 }
{
    match read_tree(alloc, text.as_bytes()) {
        Ok(tree) => Ok(check(alloc, &tree)),
        Err(_) => Err("a text has a tree".into()),
    }
}

/// What is told of a text.
pub fn tell(rt: &impl Abort, alloc: Global, text: &str) -> Result<Told, Fail> {
    assert!(rt; text.len() <= 1_048_576);
    match checked(alloc, text)? {
        Ok(_) => Ok(Told::Accepted),
        Err(TypeFault::Refused { kind, at }) => Ok(Told::Refused(
            kind,
            u64::from(at.line),
            u64::from(at.column),
        )),
        Err(TypeFault::Memory) => Err("out of memory".into()),
    }
}

/// The kind of fault that a word names.
pub fn kind_of(word: &str) -> Option<TypeKind> {
    match word {
        "Twice" => Some(TypeKind::Twice),
        "TooMany" => Some(TypeKind::TooMany),
        "Unknown" => Some(TypeKind::Unknown),
        "Mismatch" => Some(TypeKind::Mismatch),
        "Arity" => Some(TypeKind::Arity),
        "Fixed" => Some(TypeKind::Fixed),
        "Misplaced" => Some(TypeKind::Misplaced),
        "NoReturn" => Some(TypeKind::NoReturn),
        _ => None,
    }
}

// A fault of the kind that a word names, right behind a text; or none, where the word is another.
fn wanted(word: &str, before: &str) -> Told {
    let mut line: u64 = 1;
    let mut column: u64 = 1;
    for byte in before.as_bytes() {
        if *byte == b'\n' {
            line = line.saturating_add(1);
            column = 1;
        } else {
            column = column.saturating_add(1);
        }
    }
    match kind_of(word) {
        Some(kind) => Told::Refused(kind, line, column),
        None => Told::Accepted,
    }
}

/// What stands before and behind each row. A fault behind `back` is that of a row that has none itself.
#[derive(Clone, Copy)]
pub struct Frame<'a> {
    pub front: &'a str,
    pub back: &'a str,
    pub rest: &'a str,
}

// A row is `ok` and a text, or a kind of fault and a text with `@` in front of the place of the fault.
fn is_told(rt: &impl Abort, alloc: Global, frame: Frame<'_>, row: &str) -> Result<(), Fail> {
    let Some((word, text)) = row.split_once(' ') else {
        return Err("a row has a word and a text".into());
    };
    let front = frame.front;
    let back = frame.back;
    let rest = frame.rest;
    let (before, behind) = match text.split_once('@') {
        Some((before, behind)) => (
            format!(in alloc; "{front}\n{before}")?,
            format!(in alloc; "{behind}\n{back}{rest}")?,
        ),
        None => (
            format!(in alloc; "{front}\n{text}\n{back}")?,
            format!(in alloc; "{rest}")?,
        ),
    };
    let before = before.as_str();
    let behind = behind.as_str();
    let whole = format!(in alloc; "{before}{behind}")?;
    assert_eq!(rt;
        tell(rt, alloc, whole.as_str())?,
        wanted(word, before),
        "{row}"
    );
    Ok(())
}

/// Whether each row that isn't empty gets its answer.
pub fn are_told(rt: &impl Abort, alloc: Global, frame: Frame<'_>, rows: &str) -> Result<(), Fail> {
    for row in rows.split('\n') {
        if !row.is_empty() {
            is_told(rt, alloc, frame, row)?;
        }
    }
    Ok(())
}
