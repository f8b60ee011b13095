// The changes of a `taskexit`.

ghost use Rattle.std.specs.Prelude.{◌≡◌, ℕ, ◌+◌, ◌≤◌, ◌<◌, Bool, true, false, List, [], ◌∷◌, length, if◌then◌else◌, IfOk, IfErr, IfSome, IfNone};
ghost use Rattle.bc_data.specs.SourceTree.{Sequence, Empty, More, Change, Statements, Then};
ghost use Rattle.bc_data.specs.View.{view_change, view_stat, onto, onto_by};
ghost use Rattle.bc_data.specs.declared.tree.ActionText.{ActionText};
ghost use Rattle.bc_law_grammar.specs.Machine.{State, Stack, Stats, Acting, Changing, run, act_behind, exit_ends, exit_row};
ghost use Rattle.bc_parse_expr.specs.Contract.{Stops, Reads};

use crate::row::StatRead;
use bc_data::run::Place;
use bc_data::token::{Sign, Token, TokenKind, Word};
use bc_data::tree::{ActionText, ChangeText, StatText};
use bc_parse_expr::actions::{ActionRead, flag_action};
use bc_parse_expr::cursor::{Fault, accept, expect, expect_name, named, next};
use std::alloc::Global;

/// The actions of a change, whether a `)` came behind them in place of a `;`, and the tokens behind that.
#[derive(Drop)]
struct Acts<'a> {
    list: Vec<ActionText>,
    is_last: bool,
    rest: &'a [Token],
}

/// A change, whether it is the last, and the tokens behind it.
#[derive(Drop)]
struct ChangeRead<'a> {
    change: ChangeText,
    is_last: bool,
    rest: &'a [Token],
}

/// Changes that were read, and the tokens behind them.
#[derive(Drop)]
struct ChangeList<'a> {
    list: Vec<ChangeText>,
    rest: &'a [Token],
}

fn action<'a>(alloc: Global, text: &[u8], tokens: &'a [Token]) -> Result<ActionRead<'a>, Fault>
    ensures answers { (actions : Sequence ActionText) (more last : Sequence ActionText → State) →
        Reads text.now result (Acting actions more last) tokens.now
        (λ r. act_behind (More actions r.action) more last) (λ r. r.rest.now) }
    ensures shorter { IfOk result (λ r. length r.rest.now < length tokens.now) }
{
    let (token, behind) = next(tokens)?;
    match token.kind {
        TokenKind::Name => flag_action(named(alloc, text, token)?, behind),
        TokenKind::Keyword(Word::Add) => {
            let tag = expect_name(alloc, text, behind)?;
            Ok(ActionRead {
                action: ActionText::Add(token.at, tag.name),
                rest: tag.rest,
            })
        }
        TokenKind::Keyword(Word::Clear) => {
            let tag = expect_name(alloc, text, behind)?;
            Ok(ActionRead {
                action: ActionText::Clear(token.at, tag.name),
                rest: tag.rest,
            })
        }
        _ => Err(Fault::Unexpected(token.at)),
    }
}

#[tactic(auto, using(bc_parse_expr::proofs::Rows::onto_push))]
fn actions<'a>(alloc: Global, text: &[u8], tokens: &'a [Token]) -> Result<Acts<'a>, Fault>
    ensures answers { (more last : Sequence ActionText → State) →
        Reads text.now result (Acting Empty more last) tokens.now
        (λ r. if r.is_last then last (onto r.list.items Empty) else more (onto r.list.items Empty)) (λ r. r.rest.now) }
    ensures shorter { IfOk result (λ r. length r.rest.now < length tokens.now) }
{
    let mut read = Acts {
        list: Vec::new(alloc),
        is_last: false,
        rest: tokens,
    };
    loop {
        let last = action(alloc, text, read.rest)?;
        read.list.push(last.action)?;
        if let Some(close) = accept(last.rest, Sign::CloseParen) {
            read.is_last = true;
            read.rest = close.rest;
            return Ok(read);
        }
        if let Some(semicolon) = accept(last.rest, Sign::Semicolon) {
            read.rest = semicolon.rest;
            return Ok(read);
        }
        let comma = expect(last.rest, Sign::Comma)?;
        read.rest = comma.rest;
    }
}

fn change<'a>(alloc: Global, text: &[u8], tokens: &'a [Token]) -> Result<ChangeRead<'a>, Fault>
    ensures answers { (changes : Sequence Change) (onward : Sequence Change → State) →
        Reads text.now result (Changing changes onward) tokens.now
        (λ r. if r.is_last then onward (More changes (view_change r.change))
        else Changing (More changes (view_change r.change)) onward) (λ r. r.rest.now) }
    ensures shorter { IfOk result (λ r. length r.rest.now < length tokens.now) }
{
    let (token, behind) = next(tokens)?;
    match token.kind {
        TokenKind::Name => {
            let param = named(alloc, text, token)?;
            let colon = expect(behind, Sign::Colon)?;
            let acts = actions(alloc, text, colon.rest)?;
            Ok(ChangeRead {
                change: ChangeText {
                    param,
                    actions: acts.list,
                },
                is_last: acts.is_last,
                rest: acts.rest,
            })
        }
        _ => Err(Fault::Unexpected(token.at)),
    }
}

// The changes, and the `)` behind them.
#[tactic(auto, using(crate::proofs::Statements::changes_push))]
fn changes<'a>(alloc: Global, text: &[u8], tokens: &'a [Token]) -> Result<ChangeList<'a>, Fault>
    ensures answers { (onward : Sequence Change → State) →
        Reads text.now result (Changing Empty onward) tokens.now
        (λ r. onward (onto_by view_change r.list.items Empty)) (λ r. r.rest.now) }
    ensures shorter { IfOk result (λ r. length r.rest.now < length tokens.now) }
{
    let mut read = ChangeList {
        list: Vec::new(alloc),
        rest: tokens,
    };
    loop {
        let last = change(alloc, text, read.rest)?;
        read.list.push(last.change)?;
        read.rest = last.rest;
        if last.is_last {
            return Ok(read);
        }
    }
}

/// A `taskexit`, behind its keyword.
pub fn exit_statement<'a>(
    alloc: Global,
    text: &[u8],
    at: Place,
    tokens: &'a [Token],
) -> Result<StatRead<'a>, Fault>
    ensures answers { (st : Stack) (front : Statements) →
        Reads text.now result (exit_row at front st) tokens.now
        (λ r. Stats (Then front (view_stat r.tree)) st) (λ r. r.rest.now) }
    ensures shorter { IfOk result (λ r. length r.rest.now < length tokens.now) }
{
    let open = expect(tokens, Sign::OpenParen)?;
    let read = match accept(open.rest, Sign::CloseParen) {
        Some(close) => ChangeList {
            list: Vec::new(alloc),
            rest: close.rest,
        },
        None => changes(alloc, text, open.rest)?,
    };
    let semicolon = expect(read.rest, Sign::Semicolon)?;
    Ok(StatRead {
        tree: StatText::Exit(at, read.list),
        rest: semicolon.rest,
    })
}
