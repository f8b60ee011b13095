// The names of texts, and what is told of them.

ghost use Rattle.std.specs.Prelude.{◌≤◌, length};

use bc_data::text::read_decimal;
use bc_names::{Names, TypeFault, TypeKind, number};
use bc_read::reader::read_tree;
use std::alloc::Global;
use std::process::Abort;
use std::test::Fail;

/// The numbers of the names of a text that has a tree, or its first fault.
pub fn numbered(alloc: Global, text: &str) -> Result<Result<Names, TypeFault>, Fail>
    requires { length text.now ≤ 1048576 }
{
    match read_tree(alloc, text.as_bytes()) {
        Ok(tree) => Ok(number(alloc, &tree)),
        Err(_) => Err("a text has a tree".into()),
    }
}

/// What is told of a text. A fault has its line and its column.
#[derive(Clone, Copy, Debug, PartialEq, Eq)]
pub enum Told {
    Numbered,
    Refused(TypeKind, u64, u64),
}

fn tell(answer: &Result<Names, TypeFault>) -> Option<Told> {
    match answer {
        Ok(_) => Some(Told::Numbered),
        Err(TypeFault::Refused { kind, at }) => {
            let line = u64::from(at.line);
            let column = u64::from(at.column);
            Some(Told::Refused(*kind, line, column))
        },
        Err(TypeFault::Memory) => None,
    }
}

// `ok`, or a kind of fault and its place.
fn wanted(words: &str) -> Option<Told> {
    if words == "ok" {
        return Some(Told::Numbered);
    }
    let (kind, place) = words.split_once(' ')?;
    let (line, column) = place.split_once(':')?;
    let kind = match kind {
        "Twice" => TypeKind::Twice,
        "TooMany" => TypeKind::TooMany,
        _ => return None,
    };
    let line = read_decimal(line.as_bytes())?;
    let column = read_decimal(column.as_bytes())?;
    Some(Told::Refused(kind, line, column))
}

fn told_of(alloc: Global, text: &str) -> Result<Option<Told>, Fail>
    requires { length text.now ≤ 1048576 }
{
    Ok(tell(&numbered(alloc, text)?))
}

/// Whether a text gets its answer.
pub fn is_told(rt: &impl Abort, alloc: Global, text: &str, want: &str) -> Result<(), Fail> {
    assert!(rt; text.len() <= 1_048_576);
    let answer = told_of(alloc, text)?;
    assert!(rt; answer.is_some());
    assert_eq!(rt; answer, wanted(want), "{text}");
    Ok(())
}
