// What texts give.

ghost use Rattle.std.specs.Prelude.{◌≤◌, length};

use bc_lex::tokens;
use std::alloc::Global;
use std::test::Fail;

/// The kinds of a text's tokens, or its fault.
fn kinds(alloc: Global, text: &[u8]) -> Result<String, Fail>
    requires { length text.now ≤ 1048576 }
{
    let mut shown = String::new(alloc);
    match tokens(alloc, text) {
        Ok(found) => {
            for token in found.as_slice() {
                let kind = format!(in alloc; "{:?} ", token.kind)?;
                shown.push_str(kind.as_str())?;
            }
        }
        Err(fault) => shown.push_str(format!(in alloc; "{fault:?}")?.as_str())?,
    }
    Ok(shown)
}

/// The spans and places of a text's tokens, or its fault.
fn places(alloc: Global, text: &[u8]) -> Result<String, Fail>
    requires { length text.now ≤ 1048576 }
{
    let mut shown = String::new(alloc);
    match tokens(alloc, text) {
        Ok(found) => {
            for token in found.as_slice() {
                let place = format!(in alloc;
                    "{}..{} {}:{}, ",
                    token.start, token.end, token.at.line, token.at.column
                )?;
                shown.push_str(place.as_str())?;
            }
        }
        Err(fault) => shown.push_str(format!(in alloc; "{fault:?}")?.as_str())?,
    }
    Ok(shown)
}

/// A fault's name, line and column, from its `Debug` form.
fn is_fault(alloc: Global, text: &[u8], name: &str, line: u32, column: u32) -> Result<bool, Fail>
    requires { length text.now ≤ 1048576 }
{
    let want = format!(in alloc; "{name} {{ at: Place {{ line: {line}, column: {column} }} }}")?;
    Ok(kinds(alloc, text)?.as_str() == want.as_str())
}

#[test]
fn every_keyword(rt: HostRuntime) -> Result<(), Fail> {
    let text =
        b"add and assert bool class clear else false flag if in int length new null or print return tag tagtype task taskexit this true void while with";
    let want =
        "Keyword(Add) Keyword(And) Keyword(Assert) Keyword(Bool) Keyword(Class) Keyword(Clear) Keyword(Else) Keyword(False) Keyword(Flag) Keyword(If) Keyword(In) Keyword(Int) Keyword(Length) Keyword(New) Keyword(Null) Keyword(Or) Keyword(Print) Keyword(Return) Keyword(Tag) Keyword(TagType) Keyword(Task) Keyword(TaskExit) Keyword(This) Keyword(True) Keyword(Void) Keyword(While) Keyword(With) End ";
    assert_eq!(rt; kinds(rt.alloc(), text)?.as_str(), want);
    Ok(())
}

#[test]
fn every_mark(rt: HostRuntime) -> Result<(), Fail> {
    let text = b"{ } ( ) [ ] ; , . : := = == ! != < <= > >= + - * / % && ||";
    let want =
        "Mark(OpenBrace) Mark(CloseBrace) Mark(OpenParen) Mark(CloseParen) Mark(OpenBracket) Mark(CloseBracket) Mark(Semicolon) Mark(Comma) Mark(Dot) Mark(Colon) Mark(Becomes) Mark(Equals) Mark(Same) Mark(Bang) Mark(Differ) Mark(Less) Mark(LessEq) Mark(More) Mark(MoreEq) Mark(Plus) Mark(Minus) Mark(Star) Mark(Slash) Mark(Percent) Mark(Both) Mark(Either) End ";
    assert_eq!(rt; kinds(rt.alloc(), text)?.as_str(), want);
    Ok(())
}

#[test]
fn the_longest_token(rt: HostRuntime) -> Result<(), Fail> {
    let alloc = rt.alloc();
    assert_eq!(rt;
        kinds(alloc, b"<=:====!=&&&&")?.as_str(),
        "Mark(LessEq) Mark(Becomes) Mark(Same) Mark(Equals) Mark(Differ) Mark(Both) Mark(Both) End "
    );
    assert_eq!(rt;
        kinds(alloc, b"12ab 0x1 taskx _9 2147483647")?.as_str(),
        "Number(12) Name Number(0) Name Name Name Number(2147483647) End "
    );
    assert_eq!(rt;
        kinds(alloc, b"\"a\\n\\t\\\"\\\\ ~\"x///\"\n/ /**/*")?.as_str(),
        "Text Name Mark(Slash) Mark(Star) End "
    );
    assert_eq!(rt; kinds(alloc, b"")?.as_str(), "End ");
    Ok(())
}

#[test]
fn spans_and_places(rt: HostRuntime) -> Result<(), Fail> {
    let alloc = rt.alloc();
    assert_eq!(rt;
        places(alloc, b"ab\n\tcd /* \x00 ** /\n\xff */ <=\r\n")?.as_str(),
        "0..2 1:1, 4..6 2:2, 22..24 3:6, 26..26 4:1, "
    );
    assert_eq!(rt;
        places(alloc, b"\"x\"1 // y")?.as_str(),
        "0..3 1:1, 3..4 1:4, 9..9 1:10, "
    );
    Ok(())
}

#[test]
fn faults(rt: HostRuntime) -> Result<(), Fail> {
    let alloc = rt.alloc();
    let cases: [(&str, &str, u32, u32); 14] = [
        ("&", "BadByte", 1, 1),
        ("a\n |b", "BadByte", 2, 2),
        ("\"\x01", "BadByte", 1, 2),
        ("\"\\q\"", "BadByte", 1, 3),
        ("/* x", "OpenComment", 1, 1),
        ("x /*/", "OpenComment", 1, 3),
        (" \"ab", "OpenText", 1, 2),
        ("\"a\nb\"", "OpenText", 1, 1),
        ("\"a\\\n\"", "OpenText", 1, 1),
        ("\"a\\", "OpenText", 1, 1),
        ("00", "NumberRange", 1, 1),
        ("x 01 &", "NumberRange", 1, 3),
        ("2147483648", "NumberRange", 1, 1),
        ("99999999999999999999", "NumberRange", 1, 1),
    ];
    for (text, name, line, column) in cases {
        let bytes = text.as_bytes();
        assert!(rt; bytes.len() < 100);
        assert!(rt; is_fault(alloc, bytes, name, line, column)?, "{text:?}");
    }
    Ok(())
}
