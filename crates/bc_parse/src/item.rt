// Classes, tasks and whole programs.

ghost use Rattle.std.specs.Prelude.{◌≡◌, ℕ, ◌+◌, ◌≤◌, ◌<◌, Bool, true, false, List, [], ◌∷◌, length, Some, None, if◌then◌else◌, IfOk, IfErr, IfSome, IfNone};
ghost use Rattle.bc_data.specs.Seen.{seen};
ghost use Rattle.bc_data.specs.SourceTree.{Sequence, Empty, More, Statements, Nothing, Param};
ghost use Rattle.bc_data.specs.SourceTree as source;
ghost use Rattle.bc_data.specs.View.{view_member, view_param, view_text_item, stat_views, onto, onto_by};
ghost use Rattle.bc_data.specs.declared.tree.Formal.{Formal};
ghost use Rattle.bc_data.specs.declared.tree.TypeText.{TypeText};
ghost use Rattle.bc_data.specs.declared.tree.Bind.{Bind};
ghost use Rattle.bc_data.specs.declared.token.TokenKind.TheVariants as token_kind;
ghost use Rattle.bc_data.specs.declared.token.Word.TheVariants as word;
ghost use Rattle.bc_data.specs.declared.token.Sign.TheVariants as sign;
ghost use Rattle.bc_law_grammar.specs.Machine.{State, Never, OnMark, OnWord, Declaring, Parameters, Binding, Members, Items, Done, Accepted, run, brackets, formal_row, code_row, member_row, flag_row, void_row, maker_row, tag_type_row, class_row, task_row};
ghost use Rattle.bc_parse_expr.specs.Contract.{Answers, Stops, first_kind, Reads};

use crate::guard::guard;
use bc_data::run::Place;
use bc_data::token::{Sign, Token, TokenKind, Word};
use bc_data::tree::{
    Base, Bind, ClassText, Formal, Item, Member, MethodText, Named, ParamText, StatText, TaskText,
    TypeText,
};
use bc_parse_expr::cursor::{Behind, Fault, accept, expect, expect_name, expect_word, named, next};
use bc_parse_stat::row::type_behind;
use bc_parse_stat::statement::body;
use std::alloc::Global;

#[derive(Drop)]
struct FormalRead<'a> {
    formal: Formal,
    rest: &'a [Token],
}

#[derive(Drop)]
struct FormalList<'a> {
    list: Vec<Formal>,
    rest: &'a [Token],
}

/// The formals and the body of a method or a constructor, and the tokens behind them.
#[derive(Drop)]
struct CodeRead<'a> {
    formals: Vec<Formal>,
    body: Vec<StatText>,
    rest: &'a [Token],
}

#[derive(Drop)]
struct MemberRead<'a> {
    member: Member,
    rest: &'a [Token],
}

#[derive(Drop)]
struct MemberList<'a> {
    list: Vec<Member>,
    rest: &'a [Token],
}

/// Tag variables, whether a `)` came behind them in place of a `,`, and the tokens behind that.
#[derive(Drop)]
struct BindList<'a> {
    list: Vec<Bind>,
    is_last: bool,
    rest: &'a [Token],
}

#[derive(Drop)]
struct ParamRead<'a> {
    param: ParamText,
    is_last: bool,
    rest: &'a [Token],
}

#[derive(Drop)]
struct ParamList<'a> {
    list: Vec<ParamText>,
    rest: &'a [Token],
}

#[derive(Drop)]
struct ItemRead<'a> {
    item: Item,
    rest: &'a [Token],
}

/// Items that were read, and the tokens from the first on that begins none.
#[derive(Drop)]
pub struct ItemList<'a> {
    pub list: Vec<Item>,
    pub rest: &'a [Token],
}

// The name behind the type of a formal.
fn formal_of<'a>(
    alloc: Global,
    text: &[u8],
    kind: TypeText,
    tokens: &'a [Token],
) -> Result<FormalRead<'a>, Fault>
    ensures answers { (formals : Sequence Formal) (onward : Sequence Formal → State) →
        Reads text.now result (formal_row kind formals onward) tokens.now
        (λ r. OnMark sign.CloseParen (λ _. onward (More formals r.formal))
        (OnMark sign.Comma (λ _. Declaring (More formals r.formal) onward) Never)) (λ r. r.rest.now) }
    ensures shorter { IfOk result (λ r. length r.rest.now < length tokens.now) }
{
    let name = expect_name(alloc, text, tokens)?;
    Ok(FormalRead {
        formal: Formal {
            kind,
            name: name.name,
        },
        rest: name.rest,
    })
}

fn formal_behind<'a>(
    alloc: Global,
    text: &[u8],
    base: Base,
    at: Place,
    tokens: &'a [Token],
) -> Result<FormalRead<'a>, Fault>
    ensures answers { (formals : Sequence Formal) (onward : Sequence Formal → State) →
        Reads text.now result (brackets base at (λ kind. formal_row kind formals onward)) tokens.now
        (λ r. OnMark sign.CloseParen (λ _. onward (More formals r.formal))
        (OnMark sign.Comma (λ _. Declaring (More formals r.formal) onward) Never)) (λ r. r.rest.now) }
    ensures shorter { IfOk result (λ r. length r.rest.now < length tokens.now) }
{
    let read = type_behind(base, at, tokens)?;
    formal_of(alloc, text, read.kind, read.rest)
}

fn formal<'a>(alloc: Global, text: &[u8], tokens: &'a [Token]) -> Result<FormalRead<'a>, Fault>
    ensures answers { (formals : Sequence Formal) (onward : Sequence Formal → State) →
        Reads text.now result (Declaring formals onward) tokens.now
        (λ r. OnMark sign.CloseParen (λ _. onward (More formals r.formal))
        (OnMark sign.Comma (λ _. Declaring (More formals r.formal) onward) Never)) (λ r. r.rest.now) }
    ensures shorter { IfOk result (λ r. length r.rest.now < length tokens.now) }
{
    let (token, behind) = next(tokens)?;
    match token.kind {
        TokenKind::Name => {
            let name = named(alloc, text, token)?;
            formal_behind(alloc, text, Base::Class(name.name), name.at, behind)
        }
        TokenKind::Keyword(Word::Int) => formal_behind(alloc, text, Base::Int, token.at, behind),
        TokenKind::Keyword(Word::Bool) => formal_behind(alloc, text, Base::Bool, token.at, behind),
        _ => Err(Fault::Unexpected(token.at)),
    }
}

// Formals, and the `)` behind them.
#[tactic(auto, using(bc_parse_expr::proofs::Rows::onto_push))]
fn formals<'a>(alloc: Global, text: &[u8], tokens: &'a [Token]) -> Result<FormalList<'a>, Fault>
    ensures answers { (onward : Sequence Formal → State) →
        Reads text.now result (Declaring Empty onward) tokens.now
        (λ r. onward (onto r.list.items Empty)) (λ r. r.rest.now) }
    ensures shorter { IfOk result (λ r. length r.rest.now < length tokens.now) }
{
    let mut read = FormalList {
        list: Vec::new(alloc),
        rest: tokens,
    };
    loop {
        let last = formal(alloc, text, read.rest)?;
        read.list.push(last.formal)?;
        match accept(last.rest, Sign::CloseParen) {
            Some(close) => {
                read.rest = close.rest;
                return Ok(read);
            }
            None => {
                let comma = expect(last.rest, Sign::Comma)?;
                read.rest = comma.rest;
            }
        }
    }
}

// The formals and the body, behind the `(`.
fn code<'a>(alloc: Global, text: &[u8], tokens: &'a [Token]) -> Result<CodeRead<'a>, Fault>
    ensures answers { (onward : Sequence Formal → Statements → State) →
        Reads text.now result (code_row onward) tokens.now
        (λ r. onward (onto r.formals.items Empty) (stat_views r.body.items Nothing)) (λ r. r.rest.now) }
    ensures shorter { IfOk result (λ r. length r.rest.now < length tokens.now) }
{
    match accept(tokens, Sign::CloseParen) {
        Some(close) => {
            let read = body(alloc, text, close.rest)?;
            Ok(CodeRead {
                formals: Vec::new(alloc),
                body: read.list,
                rest: read.rest,
            })
        }
        None => {
            let declared = formals(alloc, text, tokens)?;
            let read = body(alloc, text, declared.rest)?;
            Ok(CodeRead {
                formals: declared.list,
                body: read.list,
                rest: read.rest,
            })
        }
    }
}

// A method or a field, behind its type.
fn typed_member<'a>(
    alloc: Global,
    text: &[u8],
    kind: TypeText,
    tokens: &'a [Token],
) -> Result<MemberRead<'a>, Fault>
    ensures answers { (members : Sequence source.Member) (onward : Sequence source.Member → State) →
        Reads text.now result (member_row kind members onward) tokens.now
        (λ r. Members (More members (view_member r.member)) onward) (λ r. r.rest.now) }
    ensures shorter { IfOk result (λ r. length r.rest.now < length tokens.now) }
{
    let name = expect_name(alloc, text, tokens)?;
    match accept(name.rest, Sign::Semicolon) {
        Some(behind) => Ok(MemberRead {
            member: Member::Field(Formal {
                kind,
                name: name.name,
            }),
            rest: behind.rest,
        }),
        None => {
            let open = expect(name.rest, Sign::OpenParen)?;
            let read = code(alloc, text, open.rest)?;
            Ok(MemberRead {
                member: Member::Method(MethodText {
                    result: Some(kind),
                    name: name.name,
                    formals: read.formals,
                    body: read.body,
                }),
                rest: read.rest,
            })
        }
    }
}

fn member_behind<'a>(
    alloc: Global,
    text: &[u8],
    base: Base,
    at: Place,
    tokens: &'a [Token],
) -> Result<MemberRead<'a>, Fault>
    ensures answers { (members : Sequence source.Member) (onward : Sequence source.Member → State) →
        Reads text.now result (brackets base at (λ kind. member_row kind members onward)) tokens.now
        (λ r. Members (More members (view_member r.member)) onward) (λ r. r.rest.now) }
    ensures shorter { IfOk result (λ r. length r.rest.now < length tokens.now) }
{
    let read = type_behind(base, at, tokens)?;
    typed_member(alloc, text, read.kind, read.rest)
}

// A flag, behind its keyword.
fn flag_member<'a>(alloc: Global, text: &[u8], tokens: &'a [Token]) -> Result<MemberRead<'a>, Fault>
    ensures answers { (members : Sequence source.Member) (onward : Sequence source.Member → State) →
        Reads text.now result (flag_row members onward) tokens.now
        (λ r. Members (More members (view_member r.member)) onward) (λ r. r.rest.now) }
    ensures shorter { IfOk result (λ r. length r.rest.now < length tokens.now) }
{
    let name = expect_name(alloc, text, tokens)?;
    let semicolon = expect(name.rest, Sign::Semicolon)?;
    Ok(MemberRead {
        member: Member::Flag(name.name),
        rest: semicolon.rest,
    })
}

// A method without result, behind `void`.
fn void_member<'a>(alloc: Global, text: &[u8], tokens: &'a [Token]) -> Result<MemberRead<'a>, Fault>
    ensures answers { (members : Sequence source.Member) (onward : Sequence source.Member → State) →
        Reads text.now result (void_row members onward) tokens.now
        (λ r. Members (More members (view_member r.member)) onward) (λ r. r.rest.now) }
    ensures shorter { IfOk result (λ r. length r.rest.now < length tokens.now) }
{
    let name = expect_name(alloc, text, tokens)?;
    let open = expect(name.rest, Sign::OpenParen)?;
    let read = code(alloc, text, open.rest)?;
    Ok(MemberRead {
        member: Member::Method(MethodText {
            result: None,
            name: name.name,
            formals: read.formals,
            body: read.body,
        }),
        rest: read.rest,
    })
}

// A member that begins with a name: a constructor, or one whose type is a class.
fn named_member<'a>(
    alloc: Global,
    text: &[u8],
    name: Named,
    tokens: &'a [Token],
) -> Result<MemberRead<'a>, Fault>
    ensures answers { (members : Sequence source.Member) (onward : Sequence source.Member → State) →
        Reads text.now result (maker_row name members onward) tokens.now
        (λ r. Members (More members (view_member r.member)) onward) (λ r. r.rest.now) }
    ensures shorter { IfOk result (λ r. length r.rest.now < length tokens.now) }
{
    match accept(tokens, Sign::OpenParen) {
        Some(open) => {
            let read = code(alloc, text, open.rest)?;
            Ok(MemberRead {
                member: Member::Maker(MethodText {
                    result: None,
                    name,
                    formals: read.formals,
                    body: read.body,
                }),
                rest: read.rest,
            })
        }
        None => member_behind(alloc, text, Base::Class(name.name), name.at, tokens),
    }
}

fn member<'a>(alloc: Global, text: &[u8], tokens: &'a [Token]) -> Result<MemberRead<'a>, Fault>
    requires brace { first_kind tokens.now ≡ token_kind.Mark sign.CloseBrace → ⊥ }
    ensures answers { (members : Sequence source.Member) (onward : Sequence source.Member → State) →
        Reads text.now result (Members members onward) tokens.now
        (λ r. Members (More members (view_member r.member)) onward) (λ r. r.rest.now) }
    ensures shorter { IfOk result (λ r. length r.rest.now < length tokens.now) }
{
    let (token, behind) = next(tokens)?;
    match token.kind {
        TokenKind::Name => {
            let name = named(alloc, text, token)?;
            named_member(alloc, text, name, behind)
        }
        TokenKind::Keyword(keyword) => match keyword {
            Word::Flag => flag_member(alloc, text, behind),
            Word::Void => void_member(alloc, text, behind),
            Word::Int => member_behind(alloc, text, Base::Int, token.at, behind),
            Word::Bool => member_behind(alloc, text, Base::Bool, token.at, behind),
            _ => Err(Fault::Unexpected(token.at)),
        },
        _ => Err(Fault::Unexpected(token.at)),
    }
}

// The tokens behind the `}` of a class, if it comes next.
fn class_end(tokens: &[Token]) -> Option<Behind<'_>>
    ensures some { (text : List ℕ) (members : Sequence source.Member) (onward : Sequence source.Member → State) →
        IfSome result (λ r. run 64 (Members members onward) (seen text tokens.now)
        ≡ run 64 (onward members) (seen text r.rest.now)) }
    ensures none { IfNone result (first_kind tokens.now ≡ token_kind.Mark sign.CloseBrace → ⊥) }
    ensures shorter { IfSome result (λ r. length r.rest.now < length tokens.now) }
{
    match tokens {
        [first, rest @ ..] => match first.kind {
            TokenKind::Mark(Sign::CloseBrace) => Some(Behind { at: first.at, rest }),
            _ => None,
        },
        [] => None,
    }
}

// The members of a class, and its `}`.
#[tactic(auto, using(crate::proofs::Sequences::members_push))]
fn members<'a>(alloc: Global, text: &[u8], tokens: &'a [Token]) -> Result<MemberList<'a>, Fault>
    ensures answers { (onward : Sequence source.Member → State) →
        Reads text.now result (Members Empty onward) tokens.now
        (λ r. onward (onto_by view_member r.list.items Empty)) (λ r. r.rest.now) }
    ensures shorter { IfOk result (λ r. length r.rest.now < length tokens.now) }
{
    let mut read = MemberList {
        list: Vec::new(alloc),
        rest: tokens,
    };
    loop {
        match class_end(read.rest) {
            Some(close) => {
                read.rest = close.rest;
                return Ok(read);
            }
            None => {
                let last = member(alloc, text, read.rest)?;
                read.list.push(last.member)?;
                read.rest = last.rest;
            }
        }
    }
}

// Tag variables, and the `,` or `)` behind them.
#[tactic(auto, using(bc_parse_expr::proofs::Rows::onto_push))]
fn binds<'a>(alloc: Global, text: &[u8], tokens: &'a [Token]) -> Result<BindList<'a>, Fault>
    ensures answers { (more last : Sequence Bind → State) →
        Reads text.now result (Binding Empty more last) tokens.now
        (λ r. if r.is_last then last (onto r.list.items Empty) else more (onto r.list.items Empty)) (λ r. r.rest.now) }
    ensures shorter { IfOk result (λ r. length r.rest.now < length tokens.now) }
{
    let mut read = BindList {
        list: Vec::new(alloc),
        is_last: false,
        rest: tokens,
    };
    loop {
        let (token, behind) = next(read.rest)?;
        let TokenKind::Name = token.kind else {
            return Err(Fault::Unexpected(token.at));
        };
        let tag_type = named(alloc, text, token)?;
        let variable = expect_name(alloc, text, behind)?;
        read.list.push(Bind {
            tag_type,
            variable: variable.name,
        })?;
        if let Some(close) = accept(variable.rest, Sign::CloseParen) {
            read.is_last = true;
            read.rest = close.rest;
            return Ok(read);
        }
        if let Some(comma) = accept(variable.rest, Sign::Comma) {
            read.rest = comma.rest;
            return Ok(read);
        }
        let and = expect_word(variable.rest, Word::And)?;
        read.rest = and.rest;
    }
}

// What follows the guard of a parameter.
fn bound<'a>(alloc: Global, text: &[u8], tokens: &'a [Token]) -> Result<BindList<'a>, Fault>
    ensures answers { (many : Sequence Bind → State) (all : Sequence Bind → State) →
        Reads text.now result (OnMark sign.CloseParen (λ _. all Empty)
        (OnMark sign.Comma (λ _. many Empty) (OnWord word.With (λ _. Binding Empty many all) Never))) tokens.now
        (λ r. if r.is_last then all (onto r.list.items Empty) else many (onto r.list.items Empty)) (λ r. r.rest.now) }
    ensures shorter { IfOk result (λ r. length r.rest.now < length tokens.now) }
{
    if let Some(close) = accept(tokens, Sign::CloseParen) {
        return Ok(BindList {
            list: Vec::new(alloc),
            is_last: true,
            rest: close.rest,
        });
    }
    if let Some(comma) = accept(tokens, Sign::Comma) {
        return Ok(BindList {
            list: Vec::new(alloc),
            is_last: false,
            rest: comma.rest,
        });
    }
    let with = expect_word(tokens, Word::With)?;
    binds(alloc, text, with.rest)
}

// A parameter of a task, and the `,` or `)` behind it.
#[tactic(auto, using(crate::proofs::Flags::guarded_end))]
fn param<'a>(alloc: Global, text: &[u8], tokens: &'a [Token]) -> Result<ParamRead<'a>, Fault>
    ensures answers { (params : Sequence Param) (onward : Sequence Param → State) →
        Reads text.now result (Parameters params onward) tokens.now
        (λ r. if r.is_last then onward (More params (view_param r.param))
        else Parameters (More params (view_param r.param)) onward) (λ r. r.rest.now) }
    ensures shorter { IfOk result (λ r. length r.rest.now < length tokens.now) }
{
    let (token, behind) = next(tokens)?;
    let TokenKind::Name = token.kind else {
        return Err(Fault::Unexpected(token.at));
    };
    let class = named(alloc, text, token)?;
    let name = expect_name(alloc, text, behind)?;
    let within = expect_word(name.rest, Word::In)?;
    let condition = guard(alloc, text, within.rest, 0, 3)?;
    let tags = bound(alloc, text, condition.rest)?;
    Ok(ParamRead {
        param: ParamText {
            class,
            name: name.name,
            guard: condition.tree,
            binds: tags.list,
        },
        is_last: tags.is_last,
        rest: tags.rest,
    })
}

// The parameters of a task, and the `)` behind them.
#[tactic(auto, using(crate::proofs::Sequences::params_push))]
fn params<'a>(alloc: Global, text: &[u8], tokens: &'a [Token]) -> Result<ParamList<'a>, Fault>
    ensures answers { (onward : Sequence Param → State) →
        Reads text.now result (Parameters Empty onward) tokens.now
        (λ r. onward (onto_by view_param r.list.items Empty)) (λ r. r.rest.now) }
    ensures shorter { IfOk result (λ r. length r.rest.now < length tokens.now) }
{
    let mut read = ParamList {
        list: Vec::new(alloc),
        rest: tokens,
    };
    loop {
        let last = param(alloc, text, read.rest)?;
        read.list.push(last.param)?;
        read.rest = last.rest;
        if last.is_last {
            return Ok(read);
        }
    }
}

fn task_item<'a>(
    alloc: Global,
    text: &[u8],
    at: Place,
    tokens: &'a [Token],
) -> Result<ItemRead<'a>, Fault>
    ensures answers { (items : Sequence source.Item) →
        Reads text.now result (task_row at items) tokens.now
        (λ r. Items (More items (view_text_item r.item))) (λ r. r.rest.now) }
    ensures shorter { IfOk result (λ r. length r.rest.now < length tokens.now) }
{
    let name = expect_name(alloc, text, tokens)?;
    let open = expect(name.rest, Sign::OpenParen)?;
    let declared = params(alloc, text, open.rest)?;
    let read = body(alloc, text, declared.rest)?;
    Ok(ItemRead {
        item: Item::Task(TaskText {
            at,
            name: name.name,
            params: declared.list,
            body: read.list,
        }),
        rest: read.rest,
    })
}

fn class_item<'a>(alloc: Global, text: &[u8], tokens: &'a [Token]) -> Result<ItemRead<'a>, Fault>
    ensures answers { (items : Sequence source.Item) →
        Reads text.now result (class_row items) tokens.now
        (λ r. Items (More items (view_text_item r.item))) (λ r. r.rest.now) }
    ensures shorter { IfOk result (λ r. length r.rest.now < length tokens.now) }
{
    let name = expect_name(alloc, text, tokens)?;
    let open = expect(name.rest, Sign::OpenBrace)?;
    let read = members(alloc, text, open.rest)?;
    Ok(ItemRead {
        item: Item::Class(ClassText {
            name: name.name,
            members: read.list,
        }),
        rest: read.rest,
    })
}

fn tag_type_item<'a>(alloc: Global, text: &[u8], tokens: &'a [Token]) -> Result<ItemRead<'a>, Fault>
    ensures answers { (items : Sequence source.Item) →
        Reads text.now result (tag_type_row items) tokens.now
        (λ r. Items (More items (view_text_item r.item))) (λ r. r.rest.now) }
    ensures shorter { IfOk result (λ r. length r.rest.now < length tokens.now) }
{
    let name = expect_name(alloc, text, tokens)?;
    let semicolon = expect(name.rest, Sign::Semicolon)?;
    Ok(ItemRead {
        item: Item::TagType(name.name),
        rest: semicolon.rest,
    })
}

fn item<'a>(
    alloc: Global,
    text: &[u8],
    token: Token,
    tokens: &'a [Token],
) -> Result<ItemRead<'a>, Fault>
    requires end { token.kind ≡ token_kind.End → ⊥ }
    ensures answers { (items : Sequence source.Item) →
        Reads text.now result (Items items) (token ∷ tokens.now)
        (λ r. Items (More items (view_text_item r.item))) (λ r. r.rest.now) }
    ensures shorter { IfOk result (λ r. length r.rest.now < length tokens.now) }
{
    match token.kind {
        TokenKind::Keyword(keyword) => match keyword {
            Word::TagType => tag_type_item(alloc, text, tokens),
            Word::Class => class_item(alloc, text, tokens),
            Word::Task => task_item(alloc, text, token.at, tokens),
            _ => Err(Fault::Unexpected(token.at)),
        },
        _ => Err(Fault::Unexpected(token.at)),
    }
}

// Behind the end nothing follows.
fn at_end(list: Vec<Item>, rest: &[Token]) -> Result<Vec<Item>, Fault>
    ensures { (text : List ℕ) →
        Answers result (λ v. Accepted (onto_by view_text_item v.items Empty))
        (run 64 (Done (onto_by view_text_item list.items Empty)) (seen text rest.now)) }
{
    match rest {
        [] => Ok(list),
        [first, ..] => Err(Fault::Unexpected(first.at)),
    }
}

/// All of the tokens, up to the end.
#[tactic(auto, using(crate::proofs::Sequences::items_push))]
pub fn program(alloc: Global, text: &[u8], tokens: &[Token]) -> Result<Vec<Item>, Fault>
    ensures { Answers result (λ v. Accepted (onto_by view_text_item v.items Empty))
        (run 64 (Items Empty) (seen text.now tokens.now)) }
{
    let mut list = Vec::new(alloc);
    let mut rest = tokens;
    loop {
        let (token, behind) = next(rest)?;
        if let TokenKind::End = token.kind {
            return at_end(list, behind);
        }
        let last = item(alloc, text, token, behind)?;
        list.push(last.item)?;
        rest = last.rest;
    }
}
