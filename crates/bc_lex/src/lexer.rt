// The tokens of a text.

ghost use Rattle.std.specs.Prelude.{◌≡◌, ℕ, ◌+◌, ◌<◌, ◌≤◌, ◌^◌, [], ◌∷◌, ◌++◌, length, OnOk, IfErr};
ghost use Rattle.bc_data.specs.Lexical.{after_byte, place_behind};
ghost use Rattle.bc_lex.specs.Contract.{IsLexed};

use crate::piece::piece_at;
use crate::scan::Piece;
use bc_data::list::List;
use bc_data::run::Place;
use bc_data::token::{Token, TokenKind};
use std::alloc::Global;
use thiserror::Error;

/// Why a text has no tokens, with the place of its first fault.
#[derive(Debug, Drop, Error)]
pub enum LexFault {
    #[error("a byte that starts no token, or that a text literal doesn't allow")]
    BadByte { at: Place },
    #[error("a comment that isn't closed")]
    OpenComment { at: Place },
    #[error("a text literal that isn't closed")]
    OpenText { at: Place },
    #[error("digits that are no number")]
    NumberRange { at: Place },
    #[error("out of memory")]
    Memory,
}

/// The place behind a byte.
fn after_byte(at: Place, byte: u8) -> Place
    requires line { at.line + 1 < 2 ^ 32 }
    requires column { at.column + 1 < 2 ^ 32 }
    ensures place { result ≡ after_byte at byte }
    ensures line { result.line ≤ at.line + 1 }
    ensures column { result.column ≤ at.column + 1 }
{
    if byte == b'\n' {
        Place {
            line: at.line + 1,
            column: 1,
        }
    } else {
        Place {
            line: at.line,
            column: at.column + 1,
        }
    }
}

/// The place behind bytes that begin at a place.
fn place_behind(at: Place, bytes: &[u8]) -> Place
    requires line { at.line + length bytes.now < 2 ^ 32 }
    requires column { at.column + length bytes.now < 2 ^ 32 }
    ensures place { result ≡ place_behind at bytes.now }
    ensures line { result.line ≤ at.line + length bytes.now }
    ensures column { result.column ≤ at.column + length bytes.now }
{
    let mut place = at;
    for byte in bytes {
        place = after_byte(place, *byte);
    }
    place
}

/// Appends a token.
fn push(tokens: &mut List<Token>, token: Token) -> Result<(), LexFault>
    ensures ok { OnOk result (tokens.new ≡ tokens.old ++ token ∷ []) }
    ensures err { IfErr result (λ fault. fault ≡ LexFault.Memory) }
{
    tokens.push(token).map_err(|_| LexFault::Memory)
}

/// The tokens of a text, the last of which is `End`.
///
/// # Errors
///
/// The first fault from the left, or `Memory`.
pub fn tokens(alloc: Global, text: &[u8]) -> Result<List<Token>, LexFault>
    requires { length text.now ≤ 1048576 }
    ensures { IsLexed text.now result }
{
    let mut tokens = List::new(alloc);
    let mut at = Place { line: 1, column: 1 };
    let mut i = 0;
    while i < text.len() {
        let end = match piece_at(text, i) {
            Piece::Gap(end) => end,
            Piece::Lexeme(kind, end) => {
                let token = Token {
                    kind,
                    start: i as u32,
                    end: end as u32,
                    at,
                };
                push(&mut tokens, token)?;
                end
            }
            Piece::BadByte(offset) => {
                return Err(LexFault::BadByte {
                    at: place_behind(at, &text[i..offset]),
                });
            }
            Piece::OpenComment => return Err(LexFault::OpenComment { at }),
            Piece::OpenText => return Err(LexFault::OpenText { at }),
            Piece::NumberRange => return Err(LexFault::NumberRange { at }),
        };
        at = place_behind(at, &text[i..end]);
        i = end;
    }
    let end = Token {
        kind: TokenKind::End,
        start: i as u32,
        end: i as u32,
        at,
    };
    push(&mut tokens, end)?;
    Ok(tokens)
}
