// The piece of a text at an offset.

ghost use Rattle.std.specs.Prelude.{◌≡◌, ℕ, ◌+◌, ◌<◌, ◌≤◌, length, slice_index};
ghost use Rattle.bc_data.specs.Lexical.{start_of, start_at, IsPiece, IsPieceFrom, LineComment, BlockComment, Digits, Letters, Other};
ghost use Rattle.bc_lex.specs.Pieces.{piece_view, start_view, IsInside};

use crate::classes::{is_blank, is_digit, is_letter};
use crate::scan::{Piece, byte_at, closing, digits_end, line_end, literal, name_end, number_of};
use crate::spelling::{keyword, mark_at, mark_len};
use bc_data::token::TokenKind;

/// What begins at an offset.
#[derive(Clone, Copy, Debug, PartialEq, Eq)]
enum Start {
    Blank,
    LineComment,
    BlockComment,
    Digits,
    Letters,
    Opening,
    Other,
}

#[tactic(auto, unfolding(bc_data::specs::Lexical::start_of))]
fn start_of(first: u8, second: u8) -> Start
    ensures { start_view result ≡ start_of first second }
{
    if is_blank(first) {
        Start::Blank
    } else if first == b'/' && second == b'/' {
        Start::LineComment
    } else if first == b'/' && second == b'*' {
        Start::BlockComment
    } else if is_digit(first) {
        Start::Digits
    } else if is_letter(first) {
        Start::Letters
    } else if first == b'"' {
        Start::Opening
    } else {
        Start::Other
    }
}

fn line_comment(text: &[u8], i: usize) -> Piece
    requires { i + 2 ≤ length text.now }
    ensures { IsPieceFrom LineComment text.now i (piece_view i result) }
{
    Piece::Gap(line_end(text, i + 2))
}

fn block_comment(text: &[u8], i: usize) -> Piece
    requires { i + 2 ≤ length text.now }
    ensures { IsPieceFrom BlockComment text.now i (piece_view i result) }
{
    match closing(text, i + 2) {
        Some(close) => Piece::Gap(close + 2),
        None => Piece::OpenComment,
    }
}

fn number(text: &[u8], i: usize) -> Piece
    requires { i < length text.now }
    ensures { IsPieceFrom Digits text.now i (piece_view i result) }
{
    let end = digits_end(text, i);
    match number_of(&text[i..end]) {
        Some(n) => Piece::Lexeme(TokenKind::Number(n), end),
        None => Piece::NumberRange,
    }
}

fn name(text: &[u8], i: usize) -> Piece
    requires { i < length text.now }
    ensures { IsPieceFrom Letters text.now i (piece_view i result) }
{
    let end = name_end(text, i);
    match keyword(&text[i..end]) {
        Some(word) => Piece::Lexeme(TokenKind::Keyword(word), end),
        None => Piece::Lexeme(TokenKind::Name, end),
    }
}

fn mark(text: &[u8], i: usize) -> Piece
    requires { i < length text.now }
    ensures { IsPieceFrom Other text.now i (piece_view i result) }
{
    match mark_at(text, i) {
        Some(mark) => Piece::Lexeme(TokenKind::Mark(mark), i + mark_len(mark)),
        None => Piece::BadByte(i),
    }
}

/// The piece at an offset, where this is what begins there.
fn piece_from(start: Start, text: &[u8], i: usize) -> Piece
    requires within { i < length text.now }
    requires start { start_view start ≡ start_at text.now i }
    ensures { IsPiece text.now i (piece_view i result) }
{
    match start {
        Start::Blank => Piece::Gap(i + 1),
        Start::LineComment => line_comment(text, i),
        Start::BlockComment => block_comment(text, i),
        Start::Digits => number(text, i),
        Start::Letters => name(text, i),
        Start::Opening => literal(text, i),
        Start::Other => mark(text, i),
    }
}

/// The piece at an offset.
pub fn piece_at(text: &[u8], i: usize) -> Piece
    requires { i < length text.now }
    ensures piece { IsPiece text.now i (piece_view i result) }
    ensures inside { IsInside text.now i (piece_view i result) }
{
    piece_from(start_of(text[i], byte_at(text, i + 1)), text, i)
}
