// The tokens of a program's text.

use crate::run::Place;

/// A keyword.
#[derive(Clone, Copy, Debug, PartialEq, Eq)]
pub enum Word {
    Add,
    And,
    Assert,
    Bool,
    Class,
    Clear,
    Else,
    False,
    Flag,
    If,
    In,
    Int,
    Length,
    New,
    Null,
    Or,
    Print,
    Return,
    Tag,
    TagType,
    Task,
    TaskExit,
    This,
    True,
    Void,
    While,
    With,
}

/// A mark: `Becomes` is `:=`, `Equals` is `=`, `Same` is `==`, `Both` is `&&` and `Either` is `||`.
#[derive(Clone, Copy, Debug, PartialEq, Eq)]
pub enum Sign {
    OpenBrace,
    CloseBrace,
    OpenParen,
    CloseParen,
    OpenBracket,
    CloseBracket,
    Semicolon,
    Comma,
    Dot,
    Colon,
    Becomes,
    Equals,
    Same,
    Bang,
    Differ,
    Less,
    LessEq,
    More,
    MoreEq,
    Plus,
    Minus,
    Star,
    Slash,
    Percent,
    Both,
    Either,
}

/// What a token is. `End` stands behind the last byte of the text.
#[derive(Clone, Copy, Debug, PartialEq, Eq)]
pub enum TokenKind {
    Keyword(Word),
    Name,
    Number(i32),
    Text,
    Mark(Sign),
    End,
}

/// A token: what it is, its bytes from `start` to before `end`, and its place in the text.
#[derive(Clone, Copy, Debug, PartialEq, Eq)]
pub struct Token {
    pub kind: TokenKind,
    pub start: u32,
    pub end: u32,
    pub at: Place,
}
