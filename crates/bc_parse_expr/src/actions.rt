// Actions, and the braces of a `new`.

ghost use Rattle.std.specs.Prelude.{◌≡◌, ℕ, ◌+◌, ◌≤◌, ◌<◌, Bool, List, [], ◌∷◌, length, IfOk, IfErr, IfSome, IfNone};
ghost use Rattle.bc_data.specs.SourceTree.{Sequence, Empty, More, Expressions, Make};
ghost use Rattle.bc_data.specs.View.{onto};
ghost use Rattle.bc_data.specs.declared.run.Place.{Place};
ghost use Rattle.bc_data.specs.declared.tree.Named.{Named};
ghost use Rattle.bc_data.specs.declared.tree.ActionText.{ActionText};
ghost use Rattle.bc_law_grammar.specs.Machine.{State, Stack, After, Tweaking, tweaks_row, truth_row, tweak_behind};
ghost use Rattle.bc_parse_expr.specs.Contract.{Stops, Reads};

use crate::cursor::{Fault, accept, accept_word, expect, expect_name, expect_word, named, next};
use bc_data::token::{Sign, Token, TokenKind, Word};
use bc_data::tree::{ActionText, Named};
use std::alloc::Global;

/// An action that was read, and the tokens behind it.
#[derive(Drop)]
pub struct ActionRead<'a> {
    pub action: ActionText,
    pub rest: &'a [Token],
}

/// Actions that were read, and the tokens behind them.
#[derive(Drop)]
pub struct ActionList<'a> {
    pub list: Vec<ActionText>,
    pub rest: &'a [Token],
}

/// `:=` and a truth value, behind the flag of an action.
pub fn flag_action(flag: Named, tokens: &[Token]) -> Result<ActionRead<'_>, Fault>
    ensures answers { (text : List ℕ) (next : ActionText → State) →
        Reads text result (truth_row flag next) tokens.now
        (λ r. next r.action) (λ r. r.rest.now) }
    ensures shorter { IfOk result (λ r. length r.rest.now < length tokens.now) }
{
    let becomes = expect(tokens, Sign::Becomes)?;
    match accept_word(becomes.rest, Word::True) {
        Some(behind) => Ok(ActionRead {
            action: ActionText::Flag(flag, true),
            rest: behind.rest,
        }),
        None => {
            let behind = expect_word(becomes.rest, Word::False)?;
            Ok(ActionRead {
                action: ActionText::Flag(flag, false),
                rest: behind.rest,
            })
        }
    }
}

// An action in the braces of a `new`.
fn tweak<'a>(alloc: Global, text: &[u8], tokens: &'a [Token]) -> Result<ActionRead<'a>, Fault>
    ensures answers { (tweaks : Sequence ActionText) (next : Sequence ActionText → State) →
        Reads text.now result (Tweaking tweaks next) tokens.now
        (λ r. tweak_behind (More tweaks r.action) next) (λ r. r.rest.now) }
    ensures shorter { IfOk result (λ r. length r.rest.now < length tokens.now) }
{
    let (token, behind) = next(tokens)?;
    match token.kind {
        TokenKind::Name => flag_action(named(alloc, text, token)?, behind),
        TokenKind::Keyword(Word::Add) => {
            let tag = expect_name(alloc, text, behind)?;
            Ok(ActionRead {
                action: ActionText::Add(token.at, tag.name),
                rest: tag.rest,
            })
        }
        _ => Err(Fault::Unexpected(token.at)),
    }
}

// The actions in the braces of a `new`, and its `}`.
#[tactic(auto, using(crate::proofs::Rows::onto_push))]
fn tweaks<'a>(alloc: Global, text: &[u8], tokens: &'a [Token]) -> Result<ActionList<'a>, Fault>
    ensures answers { (next : Sequence ActionText → State) →
        Reads text.now result (Tweaking Empty next) tokens.now
        (λ r. next (onto r.list.items Empty)) (λ r. r.rest.now) }
    ensures shorter { IfOk result (λ r. length r.rest.now < length tokens.now) }
{
    let mut read = ActionList {
        list: Vec::new(alloc),
        rest: tokens,
    };
    loop {
        let last = tweak(alloc, text, read.rest)?;
        read.list.push(last.action)?;
        match accept(last.rest, Sign::CloseBrace) {
            Some(behind) => {
                read.rest = behind.rest;
                return Ok(read);
            }
            None => {
                let behind = expect(last.rest, Sign::Comma)?;
                read.rest = behind.rest;
            }
        }
    }
}

/// The braces behind a `new`, if there are any.
pub fn braces<'a>(alloc: Global, text: &[u8], tokens: &'a [Token]) -> Result<ActionList<'a>, Fault>
    ensures answers { (at : Place) (x : Named) (args : Expressions) (st : Stack) →
        Reads text.now result (tweaks_row at x args st) tokens.now
        (λ r. After (Make at x args (onto r.list.items Empty)) st) (λ r. r.rest.now) }
    ensures shorter { IfOk result (λ r. length r.rest.now ≤ length tokens.now) }
{
    match accept(tokens, Sign::OpenBrace) {
        None => Ok(ActionList {
            list: Vec::new(alloc),
            rest: tokens,
        }),
        Some(open) => match accept(open.rest, Sign::CloseBrace) {
            Some(close) => Ok(ActionList {
                list: Vec::new(alloc),
                rest: close.rest,
            }),
            None => tweaks(alloc, text, open.rest),
        },
    }
}
