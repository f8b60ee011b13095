// Expressions, by recursive descent. `base` is the number of levels that are open around.

ghost use Rattle.std.specs.Prelude.{◌≡◌, ℕ, ◌+◌, ◌≤◌, ◌<◌, Bool, true, false, List, [], ◌∷◌, length, IfOk, IfErr, IfSome, IfNone, OnOk, OnErr};
ghost use Rattle.bc_data.specs.Seen.{Lexeme, Keyword, Mark, seen};
ghost use Rattle.bc_data.specs.SourceTree.{Expression, Expressions, NoArg, Empty, Field, Call, Make, height, tallest};
ghost use Rattle.bc_data.specs.Grammar.{sign_of, looseness, IsMade};
ghost use Rattle.bc_data.specs.View.{view, views, onto};
ghost use Rattle.bc_data.specs.declared.token.TokenKind.TheVariants as token_kind;
ghost use Rattle.bc_data.specs.declared.token.Word.TheVariants as word;
ghost use Rattle.bc_data.specs.declared.token.Sign.TheVariants as sign;
ghost use Rattle.bc_law_grammar.specs.Machine.{State, Stack, Inside, Want, Got, After, Dotted, No, On, levels, args_row, tweaks_row, new_row, array_row, one_type, want, run, reach, kind_at, Room, NoCall, Unbracketed};
ghost use Rattle.bc_parse_expr.specs.Contract.{Stops, IsMeasured, IsLinked, IsPrefix, ChainIs, first_kind, reach_of, closer_of, Reads};
ghost use Rattle.bc_parse_expr.specs.declared.cursor.Fault.TheVariants.{Memory};

use crate::actions::braces;
use crate::cursor::{Close, Fault, accept, check_level, closing, expect, named, next};
use bc_data::program::Op;
use bc_data::run::Place;
use bc_data::token::{Sign, Token, TokenKind, Word};
use bc_data::tree::{ActionText, Base, ExprText, Named, TypeText};
use std::alloc::Global;

/// An expression that was read, how many levels it has, and the tokens behind it.
#[derive(Drop)]
pub struct ExprRead<'a> {
    pub tree: ExprText,
    pub height: u32,
    pub rest: &'a [Token],
}

/// Arguments that were read, how many levels they have, and the tokens behind them.
#[derive(Drop)]
pub struct ArgumentList<'a> {
    pub list: Vec<ExprText>,
    pub height: u32,
    pub rest: &'a [Token],
}

fn looseness_of(op: Op) -> u32
    ensures { result ≡ looseness op }
{
    match op {
        Op::Or => 7,
        Op::And => 6,
        Op::Same | Op::Differ => 5,
        Op::Less | Op::LessEq | Op::More | Op::MoreEq => 4,
        Op::Add | Op::Sub => 3,
        Op::Mul | Op::Div | Op::Rem => 2,
    }
}

// The binary operator that a mark is.
fn operator_of(mark: Sign) -> Option<Op>
    ensures some { IfSome result (λ op. mark ≡ sign_of op) }
    ensures none { IfNone result (reach (Mark mark) ≡ 8) }
{
    match mark {
        Sign::Either => Some(Op::Or),
        Sign::Both => Some(Op::And),
        Sign::Same => Some(Op::Same),
        Sign::Differ => Some(Op::Differ),
        Sign::Less => Some(Op::Less),
        Sign::LessEq => Some(Op::LessEq),
        Sign::More => Some(Op::More),
        Sign::MoreEq => Some(Op::MoreEq),
        Sign::Plus => Some(Op::Add),
        Sign::Minus => Some(Op::Sub),
        Sign::Star => Some(Op::Mul),
        Sign::Slash => Some(Op::Div),
        Sign::Percent => Some(Op::Rem),
        _ => None,
    }
}

// The binary operator that comes next.
fn operator(tokens: &[Token]) -> Option<Op>
    ensures some { IfSome result (λ op. first_kind tokens.now ≡ token_kind.Mark (sign_of op)) }
    ensures none { IfNone result (reach_of tokens.now ≡ 8) }
{
    match tokens {
        [first, ..] => match first.kind {
            TokenKind::Mark(mark) => operator_of(mark),
            _ => None,
        },
        [] => None,
    }
}

// What an operand begins with.
enum Start {
    Prefix,
    New,
    Primary,
}

fn start_of(kind: TokenKind) -> Start
    ensures prefix { result ≡ Start.Prefix → IsPrefix kind }
    ensures new { result ≡ Start.New → kind ≡ token_kind.Keyword word.New }
    ensures no_prefix { result ≡ Start.Primary → IsPrefix kind → ⊥ }
    ensures no_new { result ≡ Start.Primary → kind ≡ token_kind.Keyword word.New → ⊥ }
{
    match kind {
        TokenKind::Mark(Sign::Minus) | TokenKind::Mark(Sign::Bang) => Start::Prefix,
        TokenKind::Keyword(Word::New) => Start::New,
        _ => Start::Primary,
    }
}

// What a link begins with.
enum Link {
    Dot,
    Bracket,
    None,
}

fn link_of(tokens: &[Token]) -> Link
    ensures dot { result ≡ Link.Dot → first_kind tokens.now ≡ token_kind.Mark sign.Dot }
    ensures bracket { result ≡ Link.Bracket → first_kind tokens.now ≡ token_kind.Mark sign.OpenBracket }
    ensures no_dot { result ≡ Link.None → first_kind tokens.now ≡ token_kind.Mark sign.Dot → ⊥ }
    ensures no_bracket { result ≡ Link.None → first_kind tokens.now ≡ token_kind.Mark sign.OpenBracket → ⊥ }
{
    match tokens {
        [first, ..] => match first.kind {
            TokenKind::Mark(Sign::Dot) => Link::Dot,
            TokenKind::Mark(Sign::OpenBracket) => Link::Bracket,
            _ => Link::None,
        },
        [] => Link::None,
    }
}

// The tokens behind a `(`, if it comes next.
#[tactic(auto, using(crate::proofs::Expressions::not_opening))]
fn opening(tokens: &[Token]) -> Option<&[Token]>
    ensures some { (text : List ℕ) (at : Place) (a : Expression) (x : Named) (st : Stack) →
        IfSome result (λ r. run 64 (Got (Field at a x) st) (seen text tokens.now)
        ≡ run 64 (args_row (λ args. Got (Call at a x args) st) st) (seen text r.now)) }
    ensures none { (text : List ℕ) (e : Expression) → IfNone result (NoCall (kind_at (seen text tokens.now)) e) }
    ensures shorter { IfSome result (λ r. length r.now < length tokens.now) }
{
    match tokens {
        [first, rest @ ..] => match first.kind {
            TokenKind::Mark(Sign::OpenParen) => Some(rest),
            _ => None,
        },
        [] => None,
    }
}

/// A tree without levels, and the tokens behind it.
pub fn leaf(tree: ExprText, rest: &[Token]) -> ExprRead<'_>
    requires { height (view tree) ≡ 0 }
    ensures tree { result.tree ≡ tree }
    ensures rest { result.rest.now ≡ rest.now }
    ensures height { result.height ≡ 0 }
{
    ExprRead {
        tree,
        height: 0,
        rest,
    }
}

// The leaf that a keyword is.
fn keyword_leaf(keyword: Word, at: Place) -> Option<ExprText>
    ensures some { (st : Stack) → IfSome result (λ e. want (Keyword keyword) at st ≡ On (Got (view e) st)) }
    ensures height { IfSome result (λ e. height (view e) ≡ 0) }
    ensures whole { (k : Lexeme) → IfSome result (λ e. NoCall k (view e)) }
    ensures none { (st : Stack) → (keyword ≡ word.New → ⊥) → IfNone result (want (Keyword keyword) at st ≡ No) }
{
    match keyword {
        Word::True => Some(ExprText::Truth(at, true)),
        Word::False => Some(ExprText::Truth(at, false)),
        Word::Null => Some(ExprText::Null(at)),
        Word::This => Some(ExprText::This(at)),
        _ => None,
    }
}

#[tactic(auto, using(crate::proofs::Views::view_call))]
fn call(
    alloc: Global,
    at: Place,
    of: ExprText,
    name: Named,
    args: Vec<ExprText>,
) -> Result<ExprText, Fault>
    ensures ok { IfOk result (λ e. view e ≡ Call at (view of) name (views args.items NoArg)) }
    ensures err { IfErr result (λ e. e ≡ Memory) }
{
    Ok(ExprText::Call(at, Box::new(alloc, of)?, name, args))
}

#[tactic(auto, using(crate::proofs::Views::view_make))]
fn new_make(at: Place, name: Named, args: Vec<ExprText>, tweaks: Vec<ActionText>) -> ExprText
    ensures { view result ≡ Make at name (views args.items NoArg) (onto tweaks.items Empty) }
{
    ExprText::Make(at, name, args, tweaks)
}

/// An expression whose operators bind at most as loosely as `loosest`: 7 is any expression.
#[cycle(expr)]
#[tactic(auto, using(bc_law_grammar::proofs::Forward::room_down))]
pub fn binary<'a>(
    alloc: Global,
    text: &[u8],
    tokens: &'a [Token],
    base: u32,
    loosest: u32,
) -> Result<ExprRead<'a>, Fault>
    requires base { base ≤ 64 }
    requires loosest { (1 ≤ loosest) × (loosest ≤ 7) }
    ensures answers { (st : Stack) → levels st ≡ base → Room loosest st →
        Reads text.now result (Want st) tokens.now
        (λ x. After (view x.tree) st) (λ x. x.rest.now) }
    ensures whole { IfOk result (λ x. loosest < reach_of x.rest.now) }
    ensures height { IfOk result (λ x. IsMeasured base x.height (view x.tree)) }
    ensures shorter { IfOk result (λ x. length x.rest.now < length tokens.now) }
{
    let mut left = unary(alloc, text, tokens, base)?;
    while let Some(op) = operator(left.rest) {
        if looseness_of(op) > loosest {
            return Ok(left);
        }
        left = with_operator(alloc, text, left, base, op)?;
    }
    Ok(left)
}

// The left operand, the operator and its right operand.
#[cycle(expr)]
fn with_operator<'a>(
    alloc: Global,
    text: &[u8],
    left: ExprRead<'a>,
    base: u32,
    op: Op,
) -> Result<ExprRead<'a>, Fault>
    requires base { base ≤ 64 }
    requires op { first_kind left.rest.now ≡ token_kind.Mark (sign_of op) }
    requires height { IsMeasured base left.height (view left.tree) }
    ensures answers { (st : Stack) → levels st ≡ base → Room (looseness op) st →
        Reads text.now result (After (view left.entry.tree) st) left.entry.rest.now
        (λ x. After (view x.tree) st) (λ x. x.rest.now) }
    ensures height { IfOk result (λ x. IsMeasured base x.height (view x.tree)) }
    ensures shorter { IfOk result (λ x. length x.rest.now < length left.entry.rest.now) }
{
    let (token, behind) = next(left.rest)?;
    check_level(base, left.height, token.at)?;
    let right = binary(alloc, text, behind, base + 1, looseness_of(op) - 1)?;
    Ok(ExprRead {
        tree: ExprText::Two(
            token.at,
            op,
            Box::new(alloc, left.tree)?,
            Box::new(alloc, right.tree)?,
        ),
        height: left.height.max(right.height) + 1,
        rest: right.rest,
    })
}

#[cycle(expr)]
#[tactic(auto, using(crate::proofs::Expressions::room_chain, bc_law_grammar::proofs::Forward::operand_unbracketed))]
fn unary<'a>(
    alloc: Global,
    text: &[u8],
    tokens: &'a [Token],
    base: u32,
) -> Result<ExprRead<'a>, Fault>
    requires { base ≤ 64 }
    ensures answers { (st : Stack) → levels st ≡ base → Room 1 st →
        Reads text.now result (Want st) tokens.now
        (λ x. After (view x.tree) st) (λ x. x.rest.now) }
    ensures height { IfOk result (λ x. IsMeasured base x.height (view x.tree)) }
    ensures shorter { IfOk result (λ x. length x.rest.now < length tokens.now) }
{
    let (token, behind) = next(tokens)?;
    match start_of(token.kind) {
        Start::Prefix => prefix(alloc, text, token, behind, base),
        Start::New => made(alloc, text, token, behind, base),
        Start::Primary => {
            let first = primary(alloc, text, token, behind, base)?;
            links(alloc, text, first, base, false)
        }
    }
}

// `-` or `!`, and its operand.
#[cycle(expr)]
#[tactic(auto, using(bc_law_grammar::proofs::Steps::end_neg, bc_law_grammar::proofs::Steps::end_not))]
fn prefix<'a>(
    alloc: Global,
    text: &[u8],
    token: Token,
    tokens: &'a [Token],
    base: u32,
) -> Result<ExprRead<'a>, Fault>
    requires base { base ≤ 64 }
    requires prefix { IsPrefix token.kind }
    ensures answers { (st : Stack) → levels st ≡ base →
        Reads text.now result (Want st) (token ∷ tokens.now)
        (λ x. After (view x.tree) st) (λ x. x.rest.now) }
    ensures height { IfOk result (λ x. IsMeasured base x.height (view x.tree)) }
    ensures shorter { IfOk result (λ x. length x.rest.now < length tokens.now + 1) }
{
    check_level(base, 0, token.at)?;
    let operand = unary(alloc, text, tokens, base + 1)?;
    let tree = Box::new(alloc, operand.tree)?;
    Ok(ExprRead {
        tree: match token.kind {
            TokenKind::Mark(Sign::Minus) => ExprText::Neg(token.at, tree),
            _ => ExprText::Not(token.at, tree),
        },
        height: operand.height + 1,
        rest: operand.rest,
    })
}

#[cycle(expr)]
fn primary<'a>(
    alloc: Global,
    text: &[u8],
    token: Token,
    tokens: &'a [Token],
    base: u32,
) -> Result<ExprRead<'a>, Fault>
    requires base { base ≤ 64 }
    requires no_prefix { IsPrefix token.kind → ⊥ }
    requires no_new { token.kind ≡ token_kind.Keyword word.New → ⊥ }
    ensures answers { (st : Stack) → levels st ≡ base →
        Reads text.now result (Want st) (token ∷ tokens.now)
        (λ x. Got (view x.tree) st) (λ x. x.rest.now) }
    ensures whole { IfOk result (λ x. NoCall (kind_at (seen text.now x.rest.now)) (view x.tree)) }
    ensures height { IfOk result (λ x. IsMeasured base x.height (view x.tree)) }
    ensures shorter { IfOk result (λ x. length x.rest.now < length tokens.now + 1) }
{
    match token.kind {
        TokenKind::Number(n) => Ok(leaf(ExprText::Int(token.at, n), tokens)),
        TokenKind::Name => Ok(leaf(ExprText::Name(named(alloc, text, token)?), tokens)),
        TokenKind::Keyword(keyword) => match keyword_leaf(keyword, token.at) {
            Some(tree) => Ok(leaf(tree, tokens)),
            None => Err(Fault::Unexpected(token.at)),
        },
        TokenKind::Mark(Sign::OpenParen) => group(alloc, text, token, tokens, base),
        _ => Err(Fault::Unexpected(token.at)),
    }
}

// What stands in parentheses.
#[cycle(expr)]
fn group<'a>(
    alloc: Global,
    text: &[u8],
    token: Token,
    tokens: &'a [Token],
    base: u32,
) -> Result<ExprRead<'a>, Fault>
    requires base { base ≤ 64 }
    requires paren { token.kind ≡ token_kind.Mark sign.OpenParen }
    ensures answers { (st : Stack) → levels st ≡ base →
        Reads text.now result (Want st) (token ∷ tokens.now)
        (λ x. Got (view x.tree) st) (λ x. x.rest.now) }
    ensures whole { IfOk result (λ x. NoCall (kind_at (seen text.now x.rest.now)) (view x.tree)) }
    ensures height { IfOk result (λ x. IsMeasured base x.height (view x.tree)) }
    ensures shorter { IfOk result (λ x. length x.rest.now < length tokens.now) }
{
    check_level(base, 0, token.at)?;
    let inner = inside(alloc, text, tokens, base, Close::Paren)?;
    Ok(ExprRead {
        tree: ExprText::Group(token.at, Box::new(alloc, inner.tree)?),
        height: inner.height + 1,
        rest: inner.rest,
    })
}

/// An expression one level further down, and the mark that closes its place.
#[cycle(expr)]
#[tactic(auto, using(crate::proofs::Expressions::inside_end))]
pub fn inside<'a>(
    alloc: Global,
    text: &[u8],
    tokens: &'a [Token],
    base: u32,
    close: Close,
) -> Result<ExprRead<'a>, Fault>
    requires base { base < 64 }
    ensures answers { (st : Stack) (onward : Expression → State) → levels st ≡ base →
        Reads text.now result (Want (Inside (closer_of close) onward st)) tokens.now
        (λ x. onward (view x.tree)) (λ x. x.rest.now) }
    ensures height { IfOk result (λ x. IsMeasured (base + 1) x.height (view x.tree)) }
    ensures shorter { IfOk result (λ x. length x.rest.now < length tokens.now) }
{
    let inner = binary(alloc, text, tokens, base + 1, 7)?;
    let behind = expect(inner.rest, closing(close))?;
    Ok(ExprRead {
        tree: inner.tree,
        height: inner.height,
        rest: behind.rest,
    })
}

/// The links behind a primary. A length can't end the chain that begins a statement.
#[cycle(expr)]
#[tactic(auto, using(crate::proofs::Expressions::links_end, crate::proofs::Expressions::linked_unbracketed))]
pub fn links<'a>(
    alloc: Global,
    text: &[u8],
    start: ExprRead<'a>,
    base: u32,
    chain: bool,
) -> Result<ExprRead<'a>, Fault>
    requires base { base ≤ 64 }
    requires whole { NoCall (kind_at (seen text.now start.rest.now)) (view start.tree) }
    requires height { IsMeasured base start.height (view start.tree) }
    ensures answers { (st : Stack) → levels st ≡ base → ChainIs chain st →
        Unbracketed (kind_at (seen text.now start.entry.rest.now)) (view start.entry.tree) st →
        Reads text.now result (Got (view start.entry.tree) st) start.entry.rest.now
        (λ x. After (view x.tree) st) (λ x. x.rest.now) }
    ensures height { IfOk result (λ x. IsMeasured base x.height (view x.tree)) }
    ensures shorter { IfOk result (λ x. length x.rest.now ≤ length start.entry.rest.now) }
{
    let mut left = start;
    loop {
        match link_of(left.rest) {
            Link::Dot => left = dot_link(alloc, text, left, base, chain)?,
            Link::Bracket => left = element(alloc, text, left, base)?,
            Link::None => return Ok(left),
        }
    }
}

// A field, a length or a call.
#[cycle(expr)]
fn dot_link<'a>(
    alloc: Global,
    text: &[u8],
    left: ExprRead<'a>,
    base: u32,
    chain: bool,
) -> Result<ExprRead<'a>, Fault>
    requires base { base ≤ 64 }
    requires dot { first_kind left.rest.now ≡ token_kind.Mark sign.Dot }
    requires height { IsMeasured base left.height (view left.tree) }
    ensures answers { (st : Stack) → levels st ≡ base → ChainIs chain st →
        Reads text.now result (Got (view left.entry.tree) st) left.entry.rest.now
        (λ x. Got (view x.tree) st) (λ x. x.rest.now) }
    ensures whole { IfOk result (λ x. NoCall (kind_at (seen text.now x.rest.now)) (view x.tree)) }
    ensures linked { IfOk result (λ x. IsLinked (view x.tree)) }
    ensures height { IfOk result (λ x. IsMeasured base x.height (view x.tree)) }
    ensures shorter { IfOk result (λ x. length x.rest.now < length left.entry.rest.now) }
{
    let (dot, behind) = next(left.rest)?;
    check_level(base, left.height, dot.at)?;
    let (token, rest) = next(behind)?;
    match token.kind {
        TokenKind::Name => {
            let name = named(alloc, text, token)?;
            field(alloc, text, dot.at, left, name, rest, base)
        }
        TokenKind::Keyword(Word::Length) => length_link(
            alloc, dot.at, left, token, rest, base, chain,
        ),
        _ => Err(Fault::Unexpected(token.at)),
    }
}

// `length` behind a `.`.
fn length_link<'a>(
    alloc: Global,
    at: Place,
    left: ExprRead<'a>,
    token: Token,
    rest: &'a [Token],
    base: u32,
    chain: bool,
) -> Result<ExprRead<'a>, Fault>
    requires word { token.kind ≡ token_kind.Keyword word.Length }
    requires level { (left.height ≡ height (view left.tree)) × (left.height + base + 1 ≤ 64) }
    ensures answers { (text : List ℕ) (st : Stack) → levels st ≡ base → ChainIs chain st →
        Reads text result (Dotted at (view left.entry.tree) st) (token ∷ rest.now)
        (λ x. Got (view x.tree) st) (λ x. x.rest.now) }
    ensures whole { IfOk result (λ x. (k : Lexeme) → NoCall k (view x.tree)) }
    ensures linked { IfOk result (λ x. IsLinked (view x.tree)) }
    ensures height { IfOk result (λ x. IsMeasured base x.height (view x.tree)) }
    ensures rest { IfOk result (λ x. x.rest.now ≡ rest.now) }
{
    if chain {
        check_level(base, left.height + 1, token.at)?;
    }
    Ok(ExprRead {
        tree: ExprText::Length(at, Box::new(alloc, left.tree)?),
        height: left.height + 1,
        rest,
    })
}

// A name behind a `.`: a field, or a call where a `(` follows.
#[cycle(expr)]
fn field<'a>(
    alloc: Global,
    text: &[u8],
    at: Place,
    left: ExprRead<'a>,
    name: Named,
    tokens: &'a [Token],
    base: u32,
) -> Result<ExprRead<'a>, Fault>
    requires level { (left.height ≡ height (view left.tree)) × (left.height + base + 1 ≤ 64) }
    ensures answers { (st : Stack) → levels st ≡ base →
        Reads text.now result (Got (Field at (view left.entry.tree) name) st) tokens.now
        (λ x. Got (view x.tree) st) (λ x. x.rest.now) }
    ensures whole { IfOk result (λ x. NoCall (kind_at (seen text.now x.rest.now)) (view x.tree)) }
    ensures linked { IfOk result (λ x. IsLinked (view x.tree)) }
    ensures height { IfOk result (λ x. IsMeasured base x.height (view x.tree)) }
    ensures shorter { IfOk result (λ x. length x.rest.now ≤ length tokens.now) }
{
    match opening(tokens) {
        Some(inner) => {
            let args = arguments(alloc, text, inner, base)?;
            Ok(ExprRead {
                tree: call(alloc, at, left.tree, name, args.list)?,
                height: left.height.max(args.height) + 1,
                rest: args.rest,
            })
        }
        None => Ok(ExprRead {
            tree: ExprText::Field(at, Box::new(alloc, left.tree)?, name),
            height: left.height + 1,
            rest: tokens,
        }),
    }
}

#[cycle(expr)]
#[tactic(auto, using(bc_law_grammar::proofs::Forward::bracket_plain))]
fn element<'a>(
    alloc: Global,
    text: &[u8],
    left: ExprRead<'a>,
    base: u32,
) -> Result<ExprRead<'a>, Fault>
    requires base { base ≤ 64 }
    requires bracket { first_kind left.rest.now ≡ token_kind.Mark sign.OpenBracket }
    requires height { IsMeasured base left.height (view left.tree) }
    ensures answers { (st : Stack) → levels st ≡ base → Unbracketed (Mark sign.OpenBracket) (view left.entry.tree) st →
        Reads text.now result (Got (view left.entry.tree) st) left.entry.rest.now
        (λ x. Got (view x.tree) st) (λ x. x.rest.now) }
    ensures whole { IfOk result (λ x. NoCall (kind_at (seen text.now x.rest.now)) (view x.tree)) }
    ensures linked { IfOk result (λ x. IsLinked (view x.tree)) }
    ensures height { IfOk result (λ x. IsMeasured base x.height (view x.tree)) }
    ensures shorter { IfOk result (λ x. length x.rest.now < length left.entry.rest.now) }
{
    let (bracket, behind) = next(left.rest)?;
    check_level(base, left.height, bracket.at)?;
    let index = inside(alloc, text, behind, base, Close::Bracket)?;
    Ok(ExprRead {
        tree: ExprText::Elem(
            bracket.at,
            Box::new(alloc, left.tree)?,
            Box::new(alloc, index.tree)?,
        ),
        height: left.height.max(index.height) + 1,
        rest: index.rest,
    })
}

/// The arguments behind a `(`, and its `)`.
#[cycle(expr)]
#[tactic(auto, using(crate::proofs::Expressions::views_push, crate::proofs::Expressions::args_end))]
pub fn arguments<'a>(
    alloc: Global,
    text: &[u8],
    tokens: &'a [Token],
    base: u32,
) -> Result<ArgumentList<'a>, Fault>
    requires { base < 64 }
    ensures answers { (st : Stack) (onward : Expressions → State) → levels st ≡ base →
        Reads text.now result (args_row onward st) tokens.now
        (λ r. onward (views r.list.items NoArg)) (λ r. r.rest.now) }
    ensures height { IfOk result (λ r. (r.height ≡ tallest (views r.list.items NoArg)) × (r.height + base + 1 ≤ 64)) }
    ensures shorter { IfOk result (λ r. length r.rest.now < length tokens.now) }
{
    let mut read = ArgumentList {
        list: Vec::new(alloc),
        height: 0,
        rest: tokens,
    };
    if let Some(close) = accept(tokens, Sign::CloseParen) {
        read.rest = close.rest;
        return Ok(read);
    }
    loop {
        let last = binary(alloc, text, read.rest, base + 1, 7)?;
        read.list.push(last.tree)?;
        read.height = read.height.max(last.height);
        match accept(last.rest, Sign::CloseParen) {
            Some(close) => {
                read.rest = close.rest;
                return Ok(read);
            }
            None => {
                let comma = expect(last.rest, Sign::Comma)?;
                read.rest = comma.rest;
            }
        }
    }
}

// A `new` that is an operand.
#[cycle(expr)]
fn made<'a>(
    alloc: Global,
    text: &[u8],
    token: Token,
    tokens: &'a [Token],
    base: u32,
) -> Result<ExprRead<'a>, Fault>
    requires base { base ≤ 64 }
    requires new { token.kind ≡ token_kind.Keyword word.New }
    ensures answers { (st : Stack) → levels st ≡ base →
        Reads text.now result (Want st) (token ∷ tokens.now)
        (λ x. After (view x.tree) st) (λ x. x.rest.now) }
    ensures height { IfOk result (λ x. IsMeasured base x.height (view x.tree)) }
    ensures shorter { IfOk result (λ x. length x.rest.now < length tokens.now) }
{
    check_level(base, 0, token.at)?;
    let (kind, behind) = next(tokens)?;
    match kind.kind {
        TokenKind::Name => {
            let name = named(alloc, text, kind)?;
            match accept(behind, Sign::OpenParen) {
                Some(open) => object(alloc, text, token.at, name, open.rest, base),
                None => array(
                    alloc,
                    text,
                    token.at,
                    plain(Base::Class(name.name), name.at),
                    behind,
                    base,
                ),
            }
        }
        TokenKind::Keyword(Word::Int) => array(
            alloc,
            text,
            token.at,
            plain(Base::Int, kind.at),
            behind,
            base,
        ),
        TokenKind::Keyword(Word::Bool) => array(
            alloc,
            text,
            token.at,
            plain(Base::Bool, kind.at),
            behind,
            base,
        ),
        _ => Err(Fault::Unexpected(kind.at)),
    }
}

/// A type that is no array.
pub fn plain(base: Base, at: Place) -> TypeText
    ensures { result ≡ one_type base at }
{
    TypeText {
        base,
        many: false,
        at,
    }
}

/// The arguments and braces of a `new`, behind its `(`.
#[cycle(expr)]
pub fn object<'a>(
    alloc: Global,
    text: &[u8],
    at: Place,
    name: Named,
    tokens: &'a [Token],
    base: u32,
) -> Result<ExprRead<'a>, Fault>
    requires base { base < 64 }
    ensures answers { (st : Stack) → levels st ≡ base →
        Reads text.now result (args_row (λ args. tweaks_row at name args st) st) tokens.now
        (λ x. After (view x.tree) st) (λ x. x.rest.now) }
    ensures made { IfOk result (λ x. IsMade (view x.tree)) }
    ensures height { IfOk result (λ x. IsMeasured base x.height (view x.tree)) }
    ensures shorter { IfOk result (λ x. length x.rest.now < length tokens.now) }
{
    let args = arguments(alloc, text, tokens, base)?;
    let tweaks = braces(alloc, text, args.rest)?;
    Ok(ExprRead {
        tree: new_make(at, name, args.list, tweaks.list),
        height: args.height + 1,
        rest: tweaks.rest,
    })
}

// The length of a new array, in brackets.
#[cycle(expr)]
fn array<'a>(
    alloc: Global,
    text: &[u8],
    at: Place,
    kind: TypeText,
    tokens: &'a [Token],
    base: u32,
) -> Result<ExprRead<'a>, Fault>
    requires base { base < 64 }
    ensures answers { (st : Stack) → levels st ≡ base →
        Reads text.now result (array_row at kind st) tokens.now
        (λ x. After (view x.tree) st) (λ x. x.rest.now) }
    ensures height { IfOk result (λ x. IsMeasured base x.height (view x.tree)) }
    ensures shorter { IfOk result (λ x. length x.rest.now < length tokens.now) }
{
    let open = expect(tokens, Sign::OpenBracket)?;
    let count = inside(alloc, text, open.rest, base, Close::Bracket)?;
    Ok(ExprRead {
        tree: ExprText::Array(at, kind, Box::new(alloc, count.tree)?),
        height: count.height + 1,
        rest: count.rest,
    })
}
