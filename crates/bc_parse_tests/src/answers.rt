// What the reader answers to a text, at a glance.

ghost use Rattle.std.specs.Prelude.{◌≤◌, length};
ghost use Rattle.bc_data.specs.Seen.{seen};
ghost use Rattle.bc_data.specs.Refusal.{IsEnded};

use bc_data::list::List;
use bc_data::run::Place;
use bc_data::token::Token;
use bc_lex::{LexFault, tokens};
use bc_parse::{ParseFault, parse};
use std::alloc::Global;
use std::process::Abort;
use std::test::Fail;

/// Whether a text has a tree, or which fault.
#[derive(Clone, Copy, Debug, PartialEq, Eq)]
pub enum Kind {
    Tree,
    Unexpected,
    TooDeep,
    BadByte,
    OpenComment,
    OpenText,
    NumberRange,
    Memory,
}

/// A kind, and the place of the fault. A tree stands at line 0.
#[derive(Clone, Copy, Debug, PartialEq, Eq)]
pub struct Answer {
    pub kind: Kind,
    pub at: Place,
}

const NOWHERE: Place = Place { line: 0, column: 0 };

pub const TREE: Answer = Answer {
    kind: Kind::Tree,
    at: NOWHERE,
};

fn parsed(alloc: Global, text: &[u8], found: List<Token>) -> Answer
    requires { IsEnded (seen text.now found) }
{
    match parse(alloc, text, &found) {
        Ok(_) => TREE,
        Err(ParseFault::Unexpected { at }) => Answer {
            kind: Kind::Unexpected,
            at,
        },
        Err(ParseFault::TooDeep { at }) => Answer {
            kind: Kind::TooDeep,
            at,
        },
        Err(ParseFault::Memory) => Answer {
            kind: Kind::Memory,
            at: NOWHERE,
        },
    }
}

fn unlexed(fault: LexFault) -> Answer {
    match fault {
        LexFault::BadByte { at } => Answer {
            kind: Kind::BadByte,
            at,
        },
        LexFault::OpenComment { at } => Answer {
            kind: Kind::OpenComment,
            at,
        },
        LexFault::OpenText { at } => Answer {
            kind: Kind::OpenText,
            at,
        },
        LexFault::NumberRange { at } => Answer {
            kind: Kind::NumberRange,
            at,
        },
        LexFault::Memory => Answer {
            kind: Kind::Memory,
            at: NOWHERE,
        },
    }
}

/// The answer to a text.
#[tactic(auto, using(bc_parse::proofs::Lexed::ended))]
pub fn read(alloc: Global, text: &[u8]) -> Answer
    requires { length text.now ≤ 1048576 }
{
    match tokens(alloc, text) {
        Ok(found) => parsed(alloc, text, found),
        Err(fault) => unlexed(fault),
    }
}

/// The place behind bytes.
pub fn place_behind(bytes: &[u8]) -> Place {
    let mut line: u32 = 1;
    let mut column: u32 = 1;
    for byte in bytes {
        if *byte == b'\n' {
            line = line.saturating_add(1);
            column = 1;
        } else {
            column = column.saturating_add(1);
        }
    }
    Place { line, column }
}

/// What a text is to be answered. `name` names it where it isn't.
pub fn expect(rt: &impl Abort, alloc: Global, text: &[u8], want: Answer, name: &str) {
    assert!(rt; text.len() < 1_000_000);
    assert_eq!(rt; read(alloc, text), want, "{name}");
}

/// The text has a tree.
pub fn has_tree(rt: &impl Abort, alloc: Global, text: &str) {
    expect(rt, alloc, text.as_bytes(), TREE, text);
}

/// The text has a fault of this kind, right behind this front of it.
pub fn has_fault(rt: &impl Abort, alloc: Global, text: &str, kind: Kind, front: &str) {
    let want = Answer {
        kind,
        at: place_behind(front.as_bytes()),
    };
    expect(rt, alloc, text.as_bytes(), want, text);
}

/// The text without its mark `@` has a fault of this kind at the mark, or a tree where there is no mark.
pub fn marked(rt: &impl Abort, alloc: Global, text: &str, kind: Kind) -> Result<(), Fail> {
    match text.split_once('@') {
        Some((front, back)) => {
            let whole = format!(in alloc; "{front}{back}")?;
            has_fault(rt, alloc, whole.as_str(), kind, front);
        }
        None => has_tree(rt, alloc, text),
    }
    Ok(())
}

/// Each line between a front and a back, as `marked` has it.
pub fn marked_lines(
    rt: &impl Abort,
    alloc: Global,
    front: &str,
    rows: &str,
    back: &str,
    kind: Kind,
) -> Result<(), Fail> {
    for row in rows.lines() {
        let text = format!(in alloc; "{front}{row}{back}")?;
        marked(rt, alloc, text.as_str(), kind)?;
    }
    Ok(())
}
