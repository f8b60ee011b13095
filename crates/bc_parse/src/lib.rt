//! The parser of programs.
#![tactic(auto)]

pub mod guard;
pub mod item;

ghost use Rattle.std.specs.Prelude.{IfOk, IfErr};
ghost use Rattle.bc_data.specs.Seen.{seen};
ghost use Rattle.bc_data.specs.View.{view_tree};
ghost use Rattle.bc_data.specs.Refusal.{IsTreeOf, IsEnded};
ghost use Rattle.bc_parse.specs.Fault.{IsFault};

use bc_data::list::List;
use bc_data::run::Place;
use bc_data::token::Token;
use bc_data::tree::Tree;
use bc_parse_expr::cursor::Fault;
use item::program;
use std::alloc::Global;
use thiserror::Error;

/// Why tokens have no tree: the place of the first token behind which no tree within 64 levels continues. It is
/// `TooDeep` where a tree without the limit continues behind that token.
#[derive(Debug, Drop, Error)]
pub enum ParseFault {
    #[error("unexpected token")]
    Unexpected { at: Place },
    #[error("more than 64 levels")]
    TooDeep { at: Place },
    #[error("out of memory")]
    Memory,
}

/// The one tree that the tokens of a text spell. Names are the bytes of the text, and texts the bytes that they mean,
/// with their escapes replaced. An array type `[]` is part of a `TypeText`; the type of a `new` with a length is that
/// of its elements.
#[tactic(auto, using(bc_law_grammar::proofs::Exact::sound, bc_law_grammar::proofs::Exact::unexpected, bc_law_grammar::proofs::Exact::too_deep))]
pub fn parse(alloc: Global, text: &[u8], tokens: &List<Token>) -> Result<Tree, ParseFault>
    requires { IsEnded (seen text.now tokens.now) }
    ensures ok { IfOk result (λ tree. IsTreeOf 64 (view_tree tree) (seen text.now tokens.now)) }
    ensures err { IfErr result (λ fault. IsFault fault (seen text.now tokens.now)) }
{
    match program(alloc, text, tokens.as_slice()) {
        Ok(items) => Ok(Tree { items }),
        Err(Fault::Unexpected(at)) => Err(ParseFault::Unexpected { at }),
        Err(Fault::TooDeep(at)) => Err(ParseFault::TooDeep { at }),
        // tokens that end are read up to their end
        Err(Fault::Cut) => Err(ParseFault::Unexpected {
            at: Place { line: 0, column: 0 },
        }),
        Err(Fault::Memory) => Err(ParseFault::Memory),
    }
}
