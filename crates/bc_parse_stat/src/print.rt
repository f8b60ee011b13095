// The items of a `print`.

ghost use Rattle.std.specs.Prelude.{◌≡◌, ℕ, ◌+◌, ◌-◌, ◌≤◌, ◌<◌, ◌++◌, Bool, true, false, List, [], ◌∷◌, length, IfOk, IfErr, IfSome, IfNone};
ghost use Rattle.bc_data.specs.Seen.{escaped, meaning};
ghost use Rattle.bc_data.specs.SourceTree.{Sequence, Empty, More, PrintItem, Statements, Then};
ghost use Rattle.bc_data.specs.View.{view_item, view_stat, onto_by};
ghost use Rattle.bc_data.specs.declared.token.Sign.TheVariants as sign;
ghost use Rattle.bc_data.specs.declared.token.TokenKind.TheVariants as token_kind;
ghost use Rattle.bc_law_grammar.specs.Machine.{State, Stack, Stats, Never, OnMark, Printing, levels, run, print_behind, print_ends};
ghost use Rattle.bc_parse_expr.specs.Contract.{Stops, first_kind, Reads};
ghost use Rattle.bc_parse_expr.specs.declared.cursor.Fault.TheVariants.{Memory};

use crate::row::StatRead;
use bc_data::list::{Bytes, List};
use bc_data::run::Place;
use bc_data::token::{Sign, Token, TokenKind};
use bc_data::tree::{ItemText, StatText};
use bc_parse_expr::cursor::{Fault, accept, expect, next, spelled};
use bc_parse_expr::expression::binary;
use std::alloc::Global;

/// An item that was read, and the tokens behind it.
#[derive(Drop)]
struct ItemRead<'a> {
    item: ItemText,
    rest: &'a [Token],
}

/// Items that were read, and the tokens behind them.
#[derive(Drop)]
struct ItemList<'a> {
    list: Vec<ItemText>,
    rest: &'a [Token],
}

// The byte that this one means behind a `\`.
fn escaped_byte(byte: u8) -> u8
    ensures { result ≡ escaped byte }
{
    match byte {
        b'n' => b'\n',
        b't' => b'\t',
        _ => byte,
    }
}

// What bytes between quotes mean, with the escapes replaced.
fn meaning_of(alloc: Global, bytes: &[u8]) -> Result<Bytes, Fault>
    ensures ok { IfOk result (λ m. m ≡ meaning false bytes.now) }
    ensures err { IfErr result (λ e. e ≡ Memory) }
{
    let mut meant = List::new(alloc);
    let mut escapes = false;
    for byte in bytes {
        if escapes {
            meant.push(escaped_byte(*byte))?;
            escapes = false;
        } else if *byte == b'\\' {
            escapes = true;
        } else {
            meant.push(*byte)?;
        }
    }
    Ok(meant)
}

// A text, or an expression.
fn print_item<'a>(
    alloc: Global,
    text: &[u8],
    tokens: &'a [Token],
    base: u32,
) -> Result<ItemRead<'a>, Fault>
    requires base { base < 64 }
    ensures answers { (items : Sequence PrintItem) (onward : Sequence PrintItem → State) (st : Stack) →
        levels st ≡ base →
        Reads text.now result (Printing items onward st) tokens.now
        (λ r. print_behind (More items (view_item r.item)) onward st) (λ r. r.rest.now) }
    ensures shorter { IfOk result (λ r. length r.rest.now < length tokens.now) }
{
    let (token, behind) = next(tokens)?;
    match token.kind {
        TokenKind::Text => {
            let bytes = spelled(
                text,
                token.start as usize + 1,
                (token.end as usize).saturating_sub(1),
            );
            Ok(ItemRead {
                item: ItemText::Text(meaning_of(alloc, bytes)?),
                rest: behind,
            })
        }
        _ => value_item(alloc, text, tokens, base),
    }
}

// An expression.
#[tactic(auto, using(crate::proofs::Statements::item_end, crate::proofs::Statements::printing_value))]
fn value_item<'a>(
    alloc: Global,
    text: &[u8],
    tokens: &'a [Token],
    base: u32,
) -> Result<ItemRead<'a>, Fault>
    requires base { base < 64 }
    requires value { first_kind tokens.now ≡ token_kind.Text → ⊥ }
    ensures answers { (items : Sequence PrintItem) (onward : Sequence PrintItem → State) (st : Stack) →
        levels st ≡ base →
        Reads text.now result (Printing items onward st) tokens.now
        (λ r. print_behind (More items (view_item r.item)) onward st) (λ r. r.rest.now) }
    ensures shorter { IfOk result (λ r. length r.rest.now < length tokens.now) }
{
    let value = binary(alloc, text, tokens, base + 1, 7)?;
    Ok(ItemRead {
        item: ItemText::Value(value.tree),
        rest: value.rest,
    })
}

// The items, and the `)` behind them.
#[tactic(auto, using(crate::proofs::Statements::items_push))]
fn print_items<'a>(
    alloc: Global,
    text: &[u8],
    tokens: &'a [Token],
    base: u32,
) -> Result<ItemList<'a>, Fault>
    requires base { base < 64 }
    ensures answers { (onward : Sequence PrintItem → State) (st : Stack) → levels st ≡ base →
        Reads text.now result (Printing Empty onward st) tokens.now
        (λ r. onward (onto_by view_item r.list.items Empty)) (λ r. r.rest.now) }
    ensures shorter { IfOk result (λ r. length r.rest.now < length tokens.now) }
{
    let mut read = ItemList {
        list: Vec::new(alloc),
        rest: tokens,
    };
    loop {
        let last = print_item(alloc, text, read.rest, base)?;
        read.list.push(last.item)?;
        match accept(last.rest, Sign::CloseParen) {
            Some(close) => {
                read.rest = close.rest;
                return Ok(read);
            }
            None => {
                let comma = expect(last.rest, Sign::Comma)?;
                read.rest = comma.rest;
            }
        }
    }
}

/// A `print`, behind its keyword.
pub fn print_statement<'a>(
    alloc: Global,
    text: &[u8],
    at: Place,
    tokens: &'a [Token],
    base: u32,
) -> Result<StatRead<'a>, Fault>
    requires base { base < 64 }
    ensures answers { (st : Stack) (front : Statements) → levels st ≡ base →
        Reads text.now result (OnMark sign.OpenParen (λ _. Printing Empty (print_ends at front st) st) Never) tokens.now
        (λ r. Stats (Then front (view_stat r.tree)) st) (λ r. r.rest.now) }
    ensures shorter { IfOk result (λ r. length r.rest.now < length tokens.now) }
{
    let open = expect(tokens, Sign::OpenParen)?;
    let items = print_items(alloc, text, open.rest, base)?;
    let semicolon = expect(items.rest, Sign::Semicolon)?;
    Ok(StatRead {
        tree: StatText::Print(at, items.list),
        rest: semicolon.rest,
    })
}
