// Where runs of bytes, comments and text literals end.

ghost use Rattle.std.specs.Prelude.{◌≡◌, ℕ, ◌+◌, ◌<◌, ◌≤◌, min, length, slice_index, IfSome, IfNone};
ghost use Rattle.bc_data.specs.Spelling.{digits_value, number_of};
ghost use Rattle.bc_data.specs.Lexical.{is_digit, is_name_byte, IsRunEnd, IsLineEnd, IsClosing, is_missing, escaped_at, character_at, IsTextFrom};
ghost use Rattle.bc_lex.specs.Pieces.{piece_view, character_view};

use crate::classes::{is_digit, is_escape, is_name_byte, is_plain};
use bc_data::token::TokenKind;

/// What the text has at an offset: white space or a comment up to an offset, a token up to an offset, or a fault.
/// `BadByte` has the fault's offset; the other faults stand where the piece begins.
#[derive(Clone, Copy, Debug, PartialEq, Eq)]
pub enum Piece {
    Gap(usize),
    Lexeme(TokenKind, usize),
    BadByte(usize),
    OpenComment,
    OpenText,
    NumberRange,
}

/// What stands at an offset of a text literal: a whole character with its length, the closing quote, the end of the
/// line or the text, or a byte that isn't allowed, with its offset.
#[derive(Clone, Copy, Debug, PartialEq, Eq)]
pub enum Character {
    Whole(usize),
    Quote,
    Missing,
    Wrong(usize),
}

/// The byte at an offset. Behind the text it is 0, which begins nothing.
pub fn byte_at(text: &[u8], i: usize) -> u8
    ensures { result ≡ slice_index text.now i }
{
    text.get(i).copied().unwrap_or(0)
}

/// Where the digits from an offset on end.
pub fn digits_end(text: &[u8], from: usize) -> usize
    requires { from ≤ length text.now }
    ensures { IsRunEnd is_digit text.now from result }
{
    for i in from..text.len() {
        if !is_digit(text[i]) {
            return i;
        }
    }
    text.len()
}

/// Where the letters, digits and `_` from an offset on end.
pub fn name_end(text: &[u8], from: usize) -> usize
    requires { from ≤ length text.now }
    ensures { IsRunEnd is_name_byte text.now from result }
{
    for i in from..text.len() {
        if !is_name_byte(text[i]) {
            return i;
        }
    }
    text.len()
}

/// The first line feed from an offset on, or the end of the text.
pub fn line_end(text: &[u8], from: usize) -> usize
    requires { from ≤ length text.now }
    ensures { IsLineEnd text.now from result }
{
    for i in from..text.len() {
        if text[i] == b'\n' {
            return i;
        }
    }
    text.len()
}

/// The first `*/` from an offset on.
pub fn closing(text: &[u8], from: usize) -> Option<usize>
    requires { from ≤ length text.now }
    ensures some { IfSome result (λ close. IsClosing text.now from close × (close < length text.now)) }
    ensures none { IfNone result (IsClosing text.now from (length text.now)) }
{
    for i in from..text.len() {
        if text[i] == b'*' && byte_at(text, i + 1) == b'/' {
            return Some(i);
        }
    }
    None
}

/// The value of decimal digits, or 2,147,483,648 if it is larger.
fn digits_value(digits: &[u8]) -> u64
    ensures { result ≡ min (digits_value digits.now) 2147483648 }
{
    let mut value = 0u64;
    for digit in digits {
        value = (10 * value + u64::from(digit.saturating_sub(b'0'))).min(2_147_483_648);
    }
    value
}

/// The number that digits stand for, if they are a number.
#[tactic(auto, unfolding(bc_data::specs::Spelling::number_of))]
pub fn number_of(digits: &[u8]) -> Option<i32>
    ensures { result ≡ number_of digits.now }
{
    if byte_at(digits, 0) == b'0' && 1 < digits.len() {
        return None;
    }
    let value = digits_value(digits);
    if 2_147_483_647 < value {
        return None;
    }
    Some(value as i32)
}

/// Whether the line or the text ends at an offset.
fn is_missing(text: &[u8], i: usize) -> bool
    ensures { result ≡ is_missing text.now i }
{
    text.len() <= i || byte_at(text, i) == b'\n'
}

fn escaped_at(text: &[u8], i: usize) -> Character
    ensures { character_view result ≡ escaped_at text.now i }
{
    if is_escape(byte_at(text, i)) {
        Character::Whole(2)
    } else if is_missing(text, i) {
        Character::Missing
    } else {
        Character::Wrong(i)
    }
}

#[tactic(auto, unfolding(bc_data::specs::Lexical::character_at))]
fn character_at(text: &[u8], i: usize) -> Character
    requires { i ≤ length text.now }
    ensures { character_view result ≡ character_at text.now i }
{
    let b = byte_at(text, i);
    if is_plain(b) {
        Character::Whole(1)
    } else if b == b'"' {
        Character::Quote
    } else if b == b'\\' {
        escaped_at(text, i + 1)
    } else if is_missing(text, i) {
        Character::Missing
    } else {
        Character::Wrong(i)
    }
}

/// The text literal that opens at an offset.
pub fn literal(text: &[u8], opening: usize) -> Piece
    requires { opening < length text.now }
    ensures { IsTextFrom text.now opening (opening + 1) (piece_view opening result) }
{
    let mut i = opening + 1;
    loop {
        match character_at(text, i) {
            Character::Whole(len) => i += len,
            Character::Quote => return Piece::Lexeme(TokenKind::Text, i + 1),
            Character::Missing => return Piece::OpenText,
            Character::Wrong(offset) => return Piece::BadByte(offset),
        }
    }
}
