// Statements that begin with a chain: declarations, assignments and calls. `base` is the number of levels that are open
// around the statement.

ghost use Rattle.std.specs.Prelude.{◌≡◌, ℕ, ◌+◌, ◌≤◌, ◌<◌, Bool, true, false, List, [], ◌∷◌, length, IfOk, IfErr, IfSome, IfNone, IsTrue};
ghost use Rattle.bc_data.specs.Seen.{Lexeme, Mark, seen};
ghost use Rattle.bc_data.specs.SourceTree.{Expression, Var, Statements, Then};
ghost use Rattle.bc_data.specs.Grammar.{IsTarget, IsCall};
ghost use Rattle.bc_data.specs.View.{view, view_stat};
ghost use Rattle.bc_data.specs.declared.tree.Named.{Named};
ghost use Rattle.bc_data.specs.declared.token.TokenKind.TheVariants as token_kind;
ghost use Rattle.bc_data.specs.declared.token.Word.TheVariants as word;
ghost use Rattle.bc_data.specs.declared.token.Sign.TheVariants as sign;
ghost use Rattle.bc_law_grammar.specs.Machine.{State, Stack, InChain, Got, After, Bracketed, Stats, levels, run, kind_at, NoCall};
ghost use Rattle.bc_parse_expr.specs.Contract.{Stops, IsMeasured, IsLinked, first_kind, Reads};
ghost use Rattle.bc_parse_stat.specs.Reading.{IsOperandKind};

use crate::row::{StatRead, declared_as, let_behind};
use bc_data::run::Place;
use bc_data::token::{Sign, Token, TokenKind, Word};
use bc_data::tree::{Base, ExprText, Named, StatText, TypeText};
use bc_parse_expr::cursor::{Behind, Close, Fault, LIMIT, check_level, named, next};
use bc_parse_expr::expression::{ExprRead, inside, leaf, links, plain};
use std::alloc::Global;

/// A statement that begins with `this`. A link has to follow, one level further down.
#[tactic(auto, using(crate::proofs::Chains::this_unbracketed))]
pub fn this_statement<'a>(
    alloc: Global,
    text: &[u8],
    token: Token,
    tokens: &'a [Token],
    base: u32,
) -> Result<StatRead<'a>, Fault>
    requires base { base ≤ 64 }
    requires this { token.kind ≡ token_kind.Keyword word.This }
    ensures answers { (st : Stack) (front : Statements) → levels st ≡ base →
        Reads text.now result (Stats front st) (token ∷ tokens.now)
        (λ r. Stats (Then front (view_stat r.tree)) st) (λ r. r.rest.now) }
    ensures shorter { IfOk result (λ r. length r.rest.now < length tokens.now) }
{
    check_level(base, 1, token.at)?;
    let chain = links(
        alloc,
        text,
        leaf(ExprText::This(token.at), tokens),
        base + 1,
        true,
    )?;
    behind_chain(alloc, text, chain, base)
}

/// A statement that begins with a name.
pub fn named_statement<'a>(
    alloc: Global,
    text: &[u8],
    token: Token,
    tokens: &'a [Token],
    base: u32,
) -> Result<StatRead<'a>, Fault>
    requires base { base ≤ 64 }
    requires name { token.kind ≡ token_kind.Name }
    ensures answers { (st : Stack) (front : Statements) → levels st ≡ base →
        Reads text.now result (Stats front st) (token ∷ tokens.now)
        (λ r. Stats (Then front (view_stat r.tree)) st) (λ r. r.rest.now) }
    ensures shorter { IfOk result (λ r. length r.rest.now < length tokens.now) }
{
    check_level(base, 0, token.at)?;
    let name = named(alloc, text, token)?;
    match bracket(tokens) {
        Some(open) => bracketed(alloc, text, name, open.at, open.rest, base),
        None => named_chain(alloc, text, name, tokens, base),
    }
}

// The tokens behind a `[`, if it comes next.
fn bracket(tokens: &[Token]) -> Option<Behind<'_>>
    ensures some { (text : List ℕ) (name : Named) (front : Statements) (st : Stack) →
        IfSome result (λ r. run 64 (Got (Var name) (InChain front st)) (seen text tokens.now)
        ≡ run 64 (Bracketed r.at name front st) (seen text r.rest.now)) }
    ensures none { IfNone result (first_kind tokens.now ≡ token_kind.Mark sign.OpenBracket → ⊥) }
    ensures shorter { IfSome result (λ r. length r.rest.now < length tokens.now) }
{
    match tokens {
        [first, rest @ ..] => match first.kind {
            TokenKind::Mark(Sign::OpenBracket) => Some(Behind { at: first.at, rest }),
            _ => None,
        },
        [] => None,
    }
}

// Behind a name that no `[` follows.
#[tactic(auto, using(crate::proofs::Chains::plain_unbracketed))]
fn named_chain<'a>(
    alloc: Global,
    text: &[u8],
    name: Named,
    tokens: &'a [Token],
    base: u32,
) -> Result<StatRead<'a>, Fault>
    requires base { base < 64 }
    requires bracket { first_kind tokens.now ≡ token_kind.Mark sign.OpenBracket → ⊥ }
    ensures answers { (st : Stack) (front : Statements) → levels st ≡ base →
        Reads text.now result (Got (Var name) (InChain front st)) tokens.now
        (λ r. Stats (Then front (view_stat r.tree)) st) (λ r. r.rest.now) }
    ensures shorter { IfOk result (λ r. length r.rest.now < length tokens.now) }
{
    let chain = links(
        alloc,
        text,
        leaf(ExprText::Name(name), tokens),
        base + 1,
        true,
    )?;
    behind_chain(alloc, text, chain, base)
}

// The type of an array, or an element.
#[tactic(auto, using(bc_parse_expr::proofs::Expressions::linked_unbracketed))]
fn bracketed<'a>(
    alloc: Global,
    text: &[u8],
    name: Named,
    at: Place,
    tokens: &'a [Token],
    base: u32,
) -> Result<StatRead<'a>, Fault>
    requires base { base < 64 }
    ensures answers { (st : Stack) (front : Statements) → levels st ≡ base →
        Reads text.now result (Bracketed at name front st) tokens.now
        (λ r. Stats (Then front (view_stat r.tree)) st) (λ r. r.rest.now) }
    ensures shorter { IfOk result (λ r. length r.rest.now < length tokens.now) }
{
    let (token, behind) = next(tokens)?;
    match token.kind {
        TokenKind::Mark(Sign::CloseBracket) => {
            let kind = TypeText {
                base: Base::Class(name.name),
                many: true,
                at: name.at,
            };
            declared_as(alloc, text, kind, behind, base)
        }
        _ => {
            let first = first_element(alloc, text, name, at, tokens, base)?;
            let chain = links(alloc, text, first, base + 1, true)?;
            behind_chain(alloc, text, chain, base)
        }
    }
}

fn is_operand(kind: TokenKind) -> bool
    ensures yes { IsTrue result → IsOperandKind kind }
    ensures no { result ≡ false → IsOperandKind kind → ⊥ }
{
    match kind {
        TokenKind::Number(_) | TokenKind::Name => true,
        TokenKind::Keyword(keyword) => matches!(
            keyword,
            Word::True | Word::False | Word::Null | Word::This | Word::New
        ),
        TokenKind::Mark(mark) => matches!(mark, Sign::OpenParen | Sign::Minus | Sign::Bang),
        _ => false,
    }
}

// An operand would be too deep here, and all else is unexpected.
#[tactic(auto, using(crate::proofs::Chains::bracket_deep, crate::proofs::Chains::bracket_other))]
fn too_deep_at(tokens: &[Token]) -> Fault
    requires { first_kind tokens.now ≡ token_kind.Mark sign.CloseBracket → ⊥ }
    ensures { (text : List ℕ) (at : Place) (name : Named) (front : Statements) (st : Stack) → 64 < levels st + 2 →
        Stops result (run 64 (Bracketed at name front st) (seen text tokens.now)) }
{
    match tokens {
        [first, ..] => {
            if is_operand(first.kind) {
                Fault::TooDeep(first.at)
            } else {
                Fault::Unexpected(first.at)
            }
        }
        [] => Fault::Cut,
    }
}

// The index and the `]`. The `[` may have stood at the limit, since a type could follow.
#[tactic(auto, using(crate::proofs::Chains::bracket_seen))]
fn first_element<'a>(
    alloc: Global,
    text: &[u8],
    name: Named,
    at: Place,
    tokens: &'a [Token],
    base: u32,
) -> Result<ExprRead<'a>, Fault>
    requires base { base < 64 }
    requires element { first_kind tokens.now ≡ token_kind.Mark sign.CloseBracket → ⊥ }
    ensures answers { (st : Stack) (front : Statements) → levels st ≡ base →
        Reads text.now result (Bracketed at name front st) tokens.now
        (λ x. Got (view x.tree) (InChain front st)) (λ x. x.rest.now) }
    ensures linked { IfOk result (λ x. IsLinked (view x.tree)) }
    ensures whole { IfOk result (λ x. NoCall (kind_at (seen text.now x.rest.now)) (view x.tree)) }
    ensures height { IfOk result (λ x. IsMeasured (base + 1) x.height (view x.tree)) }
    ensures shorter { IfOk result (λ x. length x.rest.now < length tokens.now) }
{
    if base + 2 > LIMIT {
        return Err(too_deep_at(tokens));
    }
    let index = inside(alloc, text, tokens, base + 1, Close::Bracket)?;
    Ok(ExprRead {
        tree: ExprText::Elem(
            at,
            Box::new(alloc, ExprText::Name(name))?,
            Box::new(alloc, index.tree)?,
        ),
        height: index.height + 1,
        rest: index.rest,
    })
}

// What follows the chain.
fn behind_chain<'a>(
    alloc: Global,
    text: &[u8],
    chain: ExprRead<'a>,
    base: u32,
) -> Result<StatRead<'a>, Fault>
    requires base { base < 64 }
    ensures answers { (st : Stack) (front : Statements) → levels st ≡ base →
        Reads text.now result (After (view chain.entry.tree) (InChain front st)) chain.entry.rest.now
        (λ r. Stats (Then front (view_stat r.tree)) st) (λ r. r.rest.now) }
    ensures shorter { IfOk result (λ r. length r.rest.now < length chain.entry.rest.now) }
{
    let (token, behind) = next(chain.rest)?;
    match token.kind {
        TokenKind::Mark(Sign::Equals) => assignment(alloc, text, chain.tree, token, behind, base),
        TokenKind::Mark(Sign::Semicolon) => call_statement(chain.tree, token, behind),
        TokenKind::Name => variable(alloc, text, chain.tree, token, behind, base),
        _ => Err(Fault::Unexpected(token.at)),
    }
}

fn is_target(tree: &ExprText) -> bool
    ensures yes { IsTrue result → IsTarget (view tree.now) }
    ensures no { result ≡ false → IsTarget (view tree.now) → ⊥ }
{
    match tree {
        ExprText::Name(_) | ExprText::Field(_, _, _) | ExprText::Elem(_, _, _) => true,
        _ => false,
    }
}

fn is_call(tree: &ExprText) -> bool
    ensures yes { IsTrue result → IsCall (view tree.now) }
    ensures no { result ≡ false → IsCall (view tree.now) → ⊥ }
{
    match tree {
        ExprText::Call(_, _, _, _) => true,
        _ => false,
    }
}

#[tactic(auto, using(bc_law_grammar::proofs::Steps::assign_target, bc_law_grammar::proofs::Steps::assign_other))]
fn assignment<'a>(
    alloc: Global,
    text: &[u8],
    target: ExprText,
    token: Token,
    tokens: &'a [Token],
    base: u32,
) -> Result<StatRead<'a>, Fault>
    requires base { base < 64 }
    requires equals { token.kind ≡ token_kind.Mark sign.Equals }
    ensures answers { (st : Stack) (front : Statements) → levels st ≡ base →
        Reads text.now result (After (view target) (InChain front st)) (token ∷ tokens.now)
        (λ r. Stats (Then front (view_stat r.tree)) st) (λ r. r.rest.now) }
    ensures shorter { IfOk result (λ r. length r.rest.now < length tokens.now) }
{
    if !is_target(&target) {
        return Err(Fault::Unexpected(token.at));
    }
    let value = inside(alloc, text, tokens, base, Close::Semicolon)?;
    Ok(StatRead {
        tree: StatText::Assign(target, value.tree),
        rest: value.rest,
    })
}

#[tactic(auto, using(bc_law_grammar::proofs::Steps::end_call, bc_law_grammar::proofs::Steps::end_other))]
fn call_statement(call: ExprText, token: Token, tokens: &[Token]) -> Result<StatRead<'_>, Fault>
    requires semicolon { token.kind ≡ token_kind.Mark sign.Semicolon }
    ensures answers { (text : List ℕ) (st : Stack) (front : Statements) →
        Reads text result (After (view call) (InChain front st)) (token ∷ tokens.now)
        (λ r. Stats (Then front (view_stat r.tree)) st) (λ r. r.rest.now) }
    ensures shorter { IfOk result (λ r. length r.rest.now ≤ length tokens.now) }
{
    if !is_call(&call) {
        return Err(Fault::Unexpected(token.at));
    }
    Ok(StatRead {
        tree: StatText::Call(call),
        rest: tokens,
    })
}

// A declaration whose type is a name.
fn variable<'a>(
    alloc: Global,
    text: &[u8],
    kind: ExprText,
    token: Token,
    tokens: &'a [Token],
    base: u32,
) -> Result<StatRead<'a>, Fault>
    requires base { base < 64 }
    requires name { token.kind ≡ token_kind.Name }
    ensures answers { (st : Stack) (front : Statements) → levels st ≡ base →
        Reads text.now result (After (view kind) (InChain front st)) (token ∷ tokens.now)
        (λ r. Stats (Then front (view_stat r.tree)) st) (λ r. r.rest.now) }
    ensures shorter { IfOk result (λ r. length r.rest.now < length tokens.now) }
{
    match kind {
        ExprText::Name(kind) => {
            let name = named(alloc, text, token)?;
            let_behind(
                alloc,
                text,
                plain(Base::Class(kind.name), kind.at),
                name,
                tokens,
                base,
            )
        }
        _ => Err(Fault::Unexpected(token.at)),
    }
}
