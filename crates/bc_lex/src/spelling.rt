// Keywords and marks.

ghost use Rattle.std.specs.Prelude.{◌≡◌, ℕ, ◌<◌, ◌+◌, length, take, drop, slice_index_or, IfSome, IfNone, IsTrue, ◌↔◌};
ghost use Rattle.std.specs.List.{Contains};
ghost use Rattle.bc_data.specs.declared.token.Word.{Word};
ghost use Rattle.bc_data.specs.declared.token.Sign.{Sign};
ghost use Rattle.bc_data.specs.Spelling.{word_text, sign_text};
ghost use Rattle.bc_data.specs.Lexical.{StandsAt, IsMarkAt};

use bc_data::token::{Sign, Word};

const WORDS: [Word; 27] = [
    Word::Add,
    Word::And,
    Word::Assert,
    Word::Bool,
    Word::Class,
    Word::Clear,
    Word::Else,
    Word::False,
    Word::Flag,
    Word::If,
    Word::In,
    Word::Int,
    Word::Length,
    Word::New,
    Word::Null,
    Word::Or,
    Word::Print,
    Word::Return,
    Word::Tag,
    Word::TagType,
    Word::Task,
    Word::TaskExit,
    Word::This,
    Word::True,
    Word::Void,
    Word::While,
    Word::With,
];

const LONG_MARKS: [Sign; 7] = [
    Sign::Becomes,
    Sign::Same,
    Sign::Differ,
    Sign::LessEq,
    Sign::MoreEq,
    Sign::Both,
    Sign::Either,
];

const SHORT_MARKS: [Sign; 19] = [
    Sign::OpenBrace,
    Sign::CloseBrace,
    Sign::OpenParen,
    Sign::CloseParen,
    Sign::OpenBracket,
    Sign::CloseBracket,
    Sign::Semicolon,
    Sign::Comma,
    Sign::Dot,
    Sign::Colon,
    Sign::Equals,
    Sign::Bang,
    Sign::Less,
    Sign::More,
    Sign::Plus,
    Sign::Minus,
    Sign::Star,
    Sign::Slash,
    Sign::Percent,
];

/// How a keyword is spelled.
fn word_text(word: Word) -> &'static [u8]
    ensures { result.now ≡ word_text word }
{
    match word {
        Word::Add => b"add",
        Word::And => b"and",
        Word::Assert => b"assert",
        Word::Bool => b"bool",
        Word::Class => b"class",
        Word::Clear => b"clear",
        Word::Else => b"else",
        Word::False => b"false",
        Word::Flag => b"flag",
        Word::If => b"if",
        Word::In => b"in",
        Word::Int => b"int",
        Word::Length => b"length",
        Word::New => b"new",
        Word::Null => b"null",
        Word::Or => b"or",
        Word::Print => b"print",
        Word::Return => b"return",
        Word::Tag => b"tag",
        Word::TagType => b"tagtype",
        Word::Task => b"task",
        Word::TaskExit => b"taskexit",
        Word::This => b"this",
        Word::True => b"true",
        Word::Void => b"void",
        Word::While => b"while",
        Word::With => b"with",
    }
}

/// How a mark is spelled.
fn sign_text(sign: Sign) -> &'static [u8]
    ensures { result.now ≡ sign_text sign }
{
    match sign {
        Sign::OpenBrace => b"{",
        Sign::CloseBrace => b"}",
        Sign::OpenParen => b"(",
        Sign::CloseParen => b")",
        Sign::OpenBracket => b"[",
        Sign::CloseBracket => b"]",
        Sign::Semicolon => b";",
        Sign::Comma => b",",
        Sign::Dot => b".",
        Sign::Colon => b":",
        Sign::Becomes => b":=",
        Sign::Equals => b"=",
        Sign::Same => b"==",
        Sign::Bang => b"!",
        Sign::Differ => b"!=",
        Sign::Less => b"<",
        Sign::LessEq => b"<=",
        Sign::More => b">",
        Sign::MoreEq => b">=",
        Sign::Plus => b"+",
        Sign::Minus => b"-",
        Sign::Star => b"*",
        Sign::Slash => b"/",
        Sign::Percent => b"%",
        Sign::Both => b"&&",
        Sign::Either => b"||",
    }
}

/// The first of these keywords that the bytes spell.
fn spelled(bytes: &[u8], words: &[Word]) -> Option<Word>
    ensures some { IfSome result (λ word. bytes.now ≡ word_text word) }
    ensures none { IfNone result ((k : ℕ) (d : Word) → k < length words.now →
        bytes.now ≡ word_text (slice_index_or words.now k d) → ⊥) }
{
    for word in words {
        if word_text(*word) == bytes {
            return Some(*word);
        }
    }
    None
}

/// The keyword that the bytes spell, if they spell one.
pub fn keyword(bytes: &[u8]) -> Option<Word>
    ensures some { IfSome result (λ word. bytes.now ≡ word_text word) }
    ensures none { IfNone result ((word : Word) → bytes.now ≡ word_text word → ⊥) }
{
    spelled(bytes, &WORDS)
}

/// Whether the text has the mark at the offset.
fn stands_at(text: &[u8], i: usize, mark: Sign) -> bool
    requires { i < length text.now }
    ensures { IsTrue result ↔ StandsAt text.now i (sign_text mark) }
{
    text[i..].starts_with(sign_text(mark))
}

/// The first of these marks that the text has at the offset.
fn standing(text: &[u8], i: usize, marks: &[Sign]) -> Option<Sign>
    requires { i < length text.now }
    ensures some { IfSome result (λ mark. Contains marks.now mark × StandsAt text.now i (sign_text mark)) }
    ensures none { IfNone result ((k : ℕ) (d : Sign) → k < length marks.now →
        StandsAt text.now i (sign_text (slice_index_or marks.now k d)) → ⊥) }
{
    for mark in marks {
        if stands_at(text, i, *mark) {
            return Some(*mark);
        }
    }
    None
}

/// The longest mark at the offset.
pub fn mark_at(text: &[u8], i: usize) -> Option<Sign>
    requires { i < length text.now }
    ensures some { IfSome result (λ mark. IsMarkAt text.now i mark) }
    ensures none { IfNone result ((mark : Sign) → StandsAt text.now i (sign_text mark) → ⊥) }
{
    match standing(text, i, &LONG_MARKS) {
        Some(mark) => Some(mark),
        None => standing(text, i, &SHORT_MARKS),
    }
}

/// How many bytes a mark has.
pub fn mark_len(mark: Sign) -> usize
    ensures { result ≡ length (sign_text mark) }
{
    sign_text(mark).len()
}
