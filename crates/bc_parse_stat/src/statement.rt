// Statements. `base` is the number of levels that are open around the statement.

ghost use Rattle.std.specs.Prelude.{◌≡◌, ℕ, ◌+◌, ◌≤◌, ◌<◌, Bool, List, [], ◌∷◌, length, Some, None, IfOk, IfErr, IfSome, IfNone};
ghost use Rattle.bc_data.specs.Seen.{Keyword, seen};
ghost use Rattle.bc_data.specs.SourceTree.{Expression, Statements, Nothing, Then, Block, If, IfElse, While};
ghost use Rattle.bc_data.specs.View.{view, view_stat, stat_views};
ghost use Rattle.bc_data.specs.declared.token.TokenKind.TheVariants as token_kind;
ghost use Rattle.bc_data.specs.declared.token.Word.TheVariants as word;
ghost use Rattle.bc_data.specs.declared.token.Sign.TheVariants as sign;
ghost use Rattle.bc_law_grammar.specs.Machine.{State, Stack, Body, Stats, levels, run, body_row, braces_row, else_row};
ghost use Rattle.bc_parse_expr.specs.Contract.{Answers, Stops, first_kind, Reads};
ghost use Rattle.bc_parse_stat.specs.Reading.{ClosesTo};

use crate::chain::{named_statement, this_statement};
use crate::exit::exit_statement;
use crate::print::print_statement;
use crate::row::{
    StatRead, assert_statement, declaration, made_statement, return_statement, tag_statement, test,
};
use bc_data::run::Place;
use bc_data::token::{Sign, Token, TokenKind, Word};
use bc_data::tree::{Base, ExprText, StatText};
use bc_parse_expr::cursor::{Behind, Fault, accept_word, check_level, expect, next};
use std::alloc::Global;

/// Statements that were read, and the tokens behind their `}`.
#[derive(Drop)]
pub struct StatList<'a> {
    pub list: Vec<StatText>,
    pub rest: &'a [Token],
}

#[tactic(auto, using(crate::proofs::Lists::view_block))]
fn new_block(at: Place, body: Vec<StatText>) -> StatText
    ensures { view_stat result ≡ Block at (stat_views body.items Nothing) }
{
    StatText::Block(at, body)
}

#[tactic(auto, using(crate::proofs::Lists::view_while))]
fn new_while(at: Place, test: ExprText, body: Vec<StatText>) -> StatText
    ensures { view_stat result ≡ While at (view test) (stat_views body.items Nothing) }
{
    StatText::While(at, test, body)
}

#[tactic(auto, using(crate::proofs::Lists::view_if))]
fn new_if(at: Place, test: ExprText, body: Vec<StatText>) -> StatText
    ensures { view_stat result ≡ If at (view test) (stat_views body.items Nothing) }
{
    StatText::If(at, test, body, None)
}

#[tactic(auto, using(crate::proofs::Lists::view_if_else))]
fn new_if_else(at: Place, test: ExprText, body: Vec<StatText>, other: Vec<StatText>) -> StatText
    ensures { view_stat result ≡ IfElse at (view test) (stat_views body.items Nothing)
        (stat_views other.items Nothing) }
{
    StatText::If(at, test, body, Some(other))
}

// The tokens behind the `}` of statements, if it comes next.
#[tactic(auto, using(crate::proofs::Statements::closed))]
fn close_brace(tokens: &[Token]) -> Option<Behind<'_>>
    ensures some { (text : List ℕ) (ps : Statements) (st : Stack) (onward : Statements → State) → ClosesTo st onward →
        IfSome result (λ r. run 64 (Stats ps st) (seen text tokens.now) ≡ run 64 (onward ps) (seen text r.rest.now)) }
    ensures none { IfNone result (first_kind tokens.now ≡ token_kind.Mark sign.CloseBrace → ⊥) }
    ensures shorter { IfSome result (λ r. length r.rest.now < length tokens.now) }
{
    match tokens {
        [first, rest @ ..] => match first.kind {
            TokenKind::Mark(Sign::CloseBrace) => Some(Behind { at: first.at, rest }),
            _ => None,
        },
        [] => None,
    }
}

// A statement of one row, behind its keyword.
fn row_statement<'a>(
    alloc: Global,
    text: &[u8],
    keyword: Word,
    at: Place,
    tokens: &'a [Token],
    base: u32,
) -> Result<StatRead<'a>, Fault>
    requires base { base ≤ 64 }
    requires this { keyword ≡ word.This → ⊥ }
    requires new { keyword ≡ word.New → ⊥ }
    requires branch { keyword ≡ word.If → ⊥ }
    requires repeat { keyword ≡ word.While → ⊥ }
    ensures answers { (st : Stack) (front : Statements) → levels st ≡ base →
        Answers result (λ r. run 64 (Stats (Then front (view_stat r.tree)) st) (seen text.now r.rest.now))
        (run 64 (Stats front st) (record { kind = Keyword keyword; at = at } ∷ seen text.now tokens.now)) }
    ensures shorter { IfOk result (λ r. length r.rest.now < length tokens.now) }
{
    match keyword {
        Word::Int => {
            check_level(base, 0, at)?;
            declaration(alloc, text, Base::Int, at, tokens, base)
        }
        Word::Bool => {
            check_level(base, 0, at)?;
            declaration(alloc, text, Base::Bool, at, tokens, base)
        }
        Word::Tag => {
            check_level(base, 0, at)?;
            tag_statement(alloc, text, at, tokens)
        }
        Word::Return => {
            check_level(base, 0, at)?;
            return_statement(alloc, text, at, tokens, base)
        }
        Word::Print => {
            check_level(base, 0, at)?;
            print_statement(alloc, text, at, tokens, base)
        }
        Word::Assert => {
            check_level(base, 0, at)?;
            assert_statement(alloc, text, at, tokens, base)
        }
        Word::TaskExit => {
            check_level(base, 0, at)?;
            exit_statement(alloc, text, at, tokens)
        }
        _ => Err(Fault::Unexpected(at)),
    }
}

// A `new` that is a statement.
fn new_statement<'a>(
    alloc: Global,
    text: &[u8],
    token: Token,
    tokens: &'a [Token],
    base: u32,
) -> Result<StatRead<'a>, Fault>
    requires base { base ≤ 64 }
    requires keyword { token.kind ≡ token_kind.Keyword word.New }
    ensures answers { (st : Stack) (front : Statements) → levels st ≡ base →
        Reads text.now result (Stats front st) (token ∷ tokens.now)
        (λ r. Stats (Then front (view_stat r.tree)) st) (λ r. r.rest.now) }
    ensures shorter { IfOk result (λ r. length r.rest.now < length tokens.now) }
{
    check_level(base, 1, token.at)?;
    made_statement(alloc, text, token.at, tokens, base)
}

/// Statements, and the `}` behind them.
#[cycle(stat)]
#[tactic(auto, using(crate::proofs::Statements::stats_push))]
pub fn statements<'a>(
    alloc: Global,
    text: &[u8],
    tokens: &'a [Token],
    base: u32,
) -> Result<StatList<'a>, Fault>
    requires { base ≤ 64 }
    ensures answers { (st : Stack) (onward : Statements → State) → levels st ≡ base → ClosesTo st onward →
        Reads text.now result (Stats Nothing st) tokens.now
        (λ r. onward (stat_views r.list.items Nothing)) (λ r. r.rest.now) }
    ensures shorter { IfOk result (λ r. length r.rest.now < length tokens.now) }
{
    let mut read = StatList {
        list: Vec::new(alloc),
        rest: tokens,
    };
    loop {
        match close_brace(read.rest) {
            Some(close) => {
                read.rest = close.rest;
                return Ok(read);
            }
            None => {
                let last = statement(alloc, text, read.rest, base)?;
                read.list.push(last.tree)?;
                read.rest = last.rest;
            }
        }
    }
}

#[cycle(stat)]
fn statement<'a>(
    alloc: Global,
    text: &[u8],
    tokens: &'a [Token],
    base: u32,
) -> Result<StatRead<'a>, Fault>
    requires base { base ≤ 64 }
    requires brace { first_kind tokens.now ≡ token_kind.Mark sign.CloseBrace → ⊥ }
    ensures answers { (st : Stack) (front : Statements) → levels st ≡ base →
        Reads text.now result (Stats front st) tokens.now
        (λ r. Stats (Then front (view_stat r.tree)) st) (λ r. r.rest.now) }
    ensures shorter { IfOk result (λ r. length r.rest.now < length tokens.now) }
{
    let (token, behind) = next(tokens)?;
    match token.kind {
        TokenKind::Name => named_statement(alloc, text, token, behind, base),
        TokenKind::Keyword(keyword) => keyword_statement(alloc, text, keyword, token, behind, base),
        TokenKind::Mark(Sign::OpenBrace) => block(alloc, text, token, behind, base),
        _ => Err(Fault::Unexpected(token.at)),
    }
}

#[cycle(stat)]
fn keyword_statement<'a>(
    alloc: Global,
    text: &[u8],
    keyword: Word,
    token: Token,
    tokens: &'a [Token],
    base: u32,
) -> Result<StatRead<'a>, Fault>
    requires base { base ≤ 64 }
    requires keyword { token.kind ≡ token_kind.Keyword keyword }
    ensures answers { (st : Stack) (front : Statements) → levels st ≡ base →
        Reads text.now result (Stats front st) (token ∷ tokens.now)
        (λ r. Stats (Then front (view_stat r.tree)) st) (λ r. r.rest.now) }
    ensures shorter { IfOk result (λ r. length r.rest.now < length tokens.now) }
{
    match keyword {
        Word::This => this_statement(alloc, text, token, tokens, base),
        Word::New => new_statement(alloc, text, token, tokens, base),
        Word::If => if_statement(alloc, text, token, tokens, base),
        Word::While => while_statement(alloc, text, token, tokens, base),
        _ => row_statement(alloc, text, keyword, token.at, tokens, base),
    }
}

#[cycle(stat)]
fn block<'a>(
    alloc: Global,
    text: &[u8],
    token: Token,
    tokens: &'a [Token],
    base: u32,
) -> Result<StatRead<'a>, Fault>
    requires base { base ≤ 64 }
    requires brace { token.kind ≡ token_kind.Mark sign.OpenBrace }
    ensures answers { (st : Stack) (front : Statements) → levels st ≡ base →
        Reads text.now result (Stats front st) (token ∷ tokens.now)
        (λ r. Stats (Then front (view_stat r.tree)) st) (λ r. r.rest.now) }
    ensures shorter { IfOk result (λ r. length r.rest.now < length tokens.now) }
{
    check_level(base, 0, token.at)?;
    let body = statements(alloc, text, tokens, base + 1)?;
    Ok(StatRead {
        tree: new_block(token.at, body.list),
        rest: body.rest,
    })
}

// Statements in braces.
#[cycle(stat)]
fn braces<'a>(
    alloc: Global,
    text: &[u8],
    tokens: &'a [Token],
    base: u32,
) -> Result<StatList<'a>, Fault>
    requires { base < 64 }
    ensures answers { (st : Stack) (onward : Statements → State) → levels st ≡ base →
        Reads text.now result (braces_row onward st) tokens.now
        (λ r. onward (stat_views r.list.items Nothing)) (λ r. r.rest.now) }
    ensures shorter { IfOk result (λ r. length r.rest.now < length tokens.now) }
{
    let open = expect(tokens, Sign::OpenBrace)?;
    statements(alloc, text, open.rest, base + 1)
}

#[cycle(stat)]
fn while_statement<'a>(
    alloc: Global,
    text: &[u8],
    token: Token,
    tokens: &'a [Token],
    base: u32,
) -> Result<StatRead<'a>, Fault>
    requires base { base ≤ 64 }
    requires keyword { token.kind ≡ token_kind.Keyword word.While }
    ensures answers { (st : Stack) (front : Statements) → levels st ≡ base →
        Reads text.now result (Stats front st) (token ∷ tokens.now)
        (λ r. Stats (Then front (view_stat r.tree)) st) (λ r. r.rest.now) }
    ensures shorter { IfOk result (λ r. length r.rest.now < length tokens.now) }
{
    check_level(base, 0, token.at)?;
    let condition = test(alloc, text, tokens, base)?;
    let body = braces(alloc, text, condition.rest, base)?;
    Ok(StatRead {
        tree: new_while(token.at, condition.tree, body.list),
        rest: body.rest,
    })
}

#[cycle(stat)]
fn if_statement<'a>(
    alloc: Global,
    text: &[u8],
    token: Token,
    tokens: &'a [Token],
    base: u32,
) -> Result<StatRead<'a>, Fault>
    requires base { base ≤ 64 }
    requires keyword { token.kind ≡ token_kind.Keyword word.If }
    ensures answers { (st : Stack) (front : Statements) → levels st ≡ base →
        Reads text.now result (Stats front st) (token ∷ tokens.now)
        (λ r. Stats (Then front (view_stat r.tree)) st) (λ r. r.rest.now) }
    ensures shorter { IfOk result (λ r. length r.rest.now < length tokens.now) }
{
    check_level(base, 0, token.at)?;
    let condition = test(alloc, text, tokens, base)?;
    let body = braces(alloc, text, condition.rest, base)?;
    if_behind(alloc, text, token.at, condition.tree, body, base)
}

// What follows the first braces of an `if`.
#[cycle(stat)]
fn if_behind<'a>(
    alloc: Global,
    text: &[u8],
    at: Place,
    test: ExprText,
    body: StatList<'a>,
    base: u32,
) -> Result<StatRead<'a>, Fault>
    requires base { base < 64 }
    ensures answers { (st : Stack) (front : Statements) → levels st ≡ base →
        Reads text.now result (else_row at (view test)
        (stat_views body.entry.list.items Nothing) front st) body.entry.rest.now
        (λ r. Stats (Then front (view_stat r.tree)) st) (λ r. r.rest.now) }
    ensures shorter { IfOk result (λ r. length r.rest.now ≤ length body.entry.rest.now) }
{
    match accept_word(body.rest, Word::Else) {
        Some(behind) => {
            let other = braces(alloc, text, behind.rest, base)?;
            Ok(StatRead {
                tree: new_if_else(at, test, body.list, other.list),
                rest: other.rest,
            })
        }
        None => Ok(StatRead {
            tree: new_if(at, test, body.list),
            rest: body.rest,
        }),
    }
}

/// The body of a task, a method or a constructor, with its braces.
pub fn body<'a>(alloc: Global, text: &[u8], tokens: &'a [Token]) -> Result<StatList<'a>, Fault>
    ensures answers { (onward : Statements → State) →
        Reads text.now result (body_row onward) tokens.now
        (λ r. onward (stat_views r.list.items Nothing)) (λ r. r.rest.now) }
    ensures shorter { IfOk result (λ r. length r.rest.now < length tokens.now) }
{
    let open = expect(tokens, Sign::OpenBrace)?;
    statements(alloc, text, open.rest, 0)
}
