// Statements that begin with a keyword and have no statements within. `base` is the number of levels that are open
// around the statement.

ghost use Rattle.std.specs.Prelude.{◌≡◌, ℕ, ◌+◌, ◌≤◌, ◌<◌, Bool, List, [], ◌∷◌, length, IfOk, IfErr, IfSome, IfNone};
ghost use Rattle.bc_data.specs.SourceTree.{Expression, Statements, Then, Assert};
ghost use Rattle.bc_data.specs.View.{view, view_stat};
ghost use Rattle.bc_data.specs.declared.tree.TypeText.{TypeText};
ghost use Rattle.bc_data.specs.declared.token.Sign.TheVariants as sign;
ghost use Rattle.bc_law_grammar.specs.Machine.{State, Stack, Stats, Never, OnMark, levels, run, brackets, let_value, let_row, tag_row, made_row, test_row, return_row};
ghost use Rattle.bc_parse_expr.specs.Contract.{Stops, IsMeasured, Reads};

use bc_data::run::Place;
use bc_data::token::{Sign, Token, TokenKind, Word};
use bc_data::tree::{Base, ExprText, Formal, Named, StatText, TypeText};
use bc_parse_expr::cursor::{Close, Fault, accept, expect, expect_name, expect_word, next};
use bc_parse_expr::expression::{ExprRead, inside, object};
use std::alloc::Global;

/// A statement that was read, and the tokens behind it.
#[derive(Drop)]
pub struct StatRead<'a> {
    pub tree: StatText,
    pub rest: &'a [Token],
}

/// A type that was read, and the tokens behind it.
#[derive(Drop)]
pub struct TypeRead<'a> {
    pub kind: TypeText,
    pub rest: &'a [Token],
}

/// The type that begins with a word: with `[` and `]` behind it an array.
#[tactic(auto, using(bc_parse_expr::proofs::Rows::not_mark))]
pub fn type_behind(base: Base, at: Place, tokens: &[Token]) -> Result<TypeRead<'_>, Fault>
    ensures answers { (text : List ℕ) (onward : TypeText → State) →
        Reads text result (brackets base at onward) tokens.now
        (λ r. onward r.kind) (λ r. r.rest.now) }
    ensures shorter { IfOk result (λ r. length r.rest.now ≤ length tokens.now) }
{
    let (token, behind) = next(tokens)?;
    match token.kind {
        TokenKind::Mark(Sign::OpenBracket) => {
            let close = expect(behind, Sign::CloseBracket)?;
            Ok(TypeRead {
                kind: TypeText {
                    base,
                    many: true,
                    at,
                },
                rest: close.rest,
            })
        }
        _ => Ok(TypeRead {
            kind: TypeText {
                base,
                many: false,
                at,
            },
            rest: tokens,
        }),
    }
}

/// `=`, a value and `;`, behind the type and the name of a declaration.
pub fn let_behind<'a>(
    alloc: Global,
    text: &[u8],
    kind: TypeText,
    name: Named,
    tokens: &'a [Token],
    base: u32,
) -> Result<StatRead<'a>, Fault>
    requires base { base < 64 }
    ensures answers { (st : Stack) (front : Statements) → levels st ≡ base →
        Reads text.now result (let_value kind name front st) tokens.now
        (λ r. Stats (Then front (view_stat r.tree)) st) (λ r. r.rest.now) }
    ensures shorter { IfOk result (λ r. length r.rest.now < length tokens.now) }
{
    let equals = expect(tokens, Sign::Equals)?;
    let value = inside(alloc, text, equals.rest, base, Close::Semicolon)?;
    Ok(StatRead {
        tree: StatText::Let(Formal { kind, name }, value.tree),
        rest: value.rest,
    })
}

/// The name and the value behind the type of a declaration.
pub fn declared_as<'a>(
    alloc: Global,
    text: &[u8],
    kind: TypeText,
    tokens: &'a [Token],
    base: u32,
) -> Result<StatRead<'a>, Fault>
    requires base { base < 64 }
    ensures answers { (st : Stack) (front : Statements) → levels st ≡ base →
        Reads text.now result (let_row kind front st) tokens.now
        (λ r. Stats (Then front (view_stat r.tree)) st) (λ r. r.rest.now) }
    ensures shorter { IfOk result (λ r. length r.rest.now < length tokens.now) }
{
    let name = expect_name(alloc, text, tokens)?;
    let_behind(alloc, text, kind, name.name, name.rest, base)
}

/// A declaration behind `int` or `bool`.
pub fn declaration<'a>(
    alloc: Global,
    text: &[u8],
    kind: Base,
    at: Place,
    tokens: &'a [Token],
    base: u32,
) -> Result<StatRead<'a>, Fault>
    requires base { base < 64 }
    ensures answers { (st : Stack) (front : Statements) → levels st ≡ base →
        Reads text.now result (brackets kind at (λ kind. let_row kind front st)) tokens.now
        (λ r. Stats (Then front (view_stat r.tree)) st) (λ r. r.rest.now) }
    ensures shorter { IfOk result (λ r. length r.rest.now < length tokens.now) }
{
    let read = type_behind(kind, at, tokens)?;
    declared_as(alloc, text, read.kind, read.rest, base)
}

/// A new tag instance, behind `tag`.
pub fn tag_statement<'a>(
    alloc: Global,
    text: &[u8],
    at: Place,
    tokens: &'a [Token],
) -> Result<StatRead<'a>, Fault>
    ensures answers { (st : Stack) (front : Statements) →
        Reads text.now result (tag_row at front st) tokens.now
        (λ r. Stats (Then front (view_stat r.tree)) st) (λ r. r.rest.now) }
    ensures shorter { IfOk result (λ r. length r.rest.now < length tokens.now) }
{
    let variable = expect_name(alloc, text, tokens)?;
    let equals = expect(variable.rest, Sign::Equals)?;
    let new = expect_word(equals.rest, Word::New)?;
    let tag = expect_word(new.rest, Word::Tag)?;
    let open = expect(tag.rest, Sign::OpenParen)?;
    let kind = expect_name(alloc, text, open.rest)?;
    let close = expect(kind.rest, Sign::CloseParen)?;
    let semicolon = expect(close.rest, Sign::Semicolon)?;
    Ok(StatRead {
        tree: StatText::Tag(at, variable.name, kind.name),
        rest: semicolon.rest,
    })
}

/// A `new` that is a statement, behind its keyword. It is one level below the statement.
#[tactic(auto, using(crate::proofs::Statements::made_end))]
pub fn made_statement<'a>(
    alloc: Global,
    text: &[u8],
    at: Place,
    tokens: &'a [Token],
    base: u32,
) -> Result<StatRead<'a>, Fault>
    requires base { base + 2 ≤ 64 }
    ensures answers { (st : Stack) (front : Statements) → levels st ≡ base →
        Reads text.now result (made_row at front st) tokens.now
        (λ r. Stats (Then front (view_stat r.tree)) st) (λ r. r.rest.now) }
    ensures shorter { IfOk result (λ r. length r.rest.now < length tokens.now) }
{
    let name = expect_name(alloc, text, tokens)?;
    let open = expect(name.rest, Sign::OpenParen)?;
    let made = object(alloc, text, at, name.name, open.rest, base + 1)?;
    let semicolon = expect(made.rest, Sign::Semicolon)?;
    Ok(StatRead {
        tree: StatText::Make(made.tree),
        rest: semicolon.rest,
    })
}

/// An expression in parentheses, behind the keyword of a statement.
pub fn test<'a>(
    alloc: Global,
    text: &[u8],
    tokens: &'a [Token],
    base: u32,
) -> Result<ExprRead<'a>, Fault>
    requires base { base < 64 }
    ensures answers { (st : Stack) (onward : Expression → State) → levels st ≡ base →
        Reads text.now result (test_row onward st) tokens.now
        (λ x. onward (view x.tree)) (λ x. x.rest.now) }
    ensures shorter { IfOk result (λ x. length x.rest.now < length tokens.now) }
{
    let open = expect(tokens, Sign::OpenParen)?;
    inside(alloc, text, open.rest, base, Close::Paren)
}

/// An assertion, behind its keyword.
pub fn assert_statement<'a>(
    alloc: Global,
    text: &[u8],
    at: Place,
    tokens: &'a [Token],
    base: u32,
) -> Result<StatRead<'a>, Fault>
    requires base { base < 64 }
    ensures answers { (st : Stack) (front : Statements) → levels st ≡ base →
        Reads text.now result (test_row
        (λ e. OnMark sign.Semicolon (λ _. Stats (Then front (Assert at e)) st) Never) st) tokens.now
        (λ r. Stats (Then front (view_stat r.tree)) st) (λ r. r.rest.now) }
    ensures shorter { IfOk result (λ r. length r.rest.now < length tokens.now) }
{
    let claim = test(alloc, text, tokens, base)?;
    let semicolon = expect(claim.rest, Sign::Semicolon)?;
    Ok(StatRead {
        tree: StatText::Assert(at, claim.tree),
        rest: semicolon.rest,
    })
}

/// A return, behind its keyword.
pub fn return_statement<'a>(
    alloc: Global,
    text: &[u8],
    at: Place,
    tokens: &'a [Token],
    base: u32,
) -> Result<StatRead<'a>, Fault>
    requires base { base < 64 }
    ensures answers { (st : Stack) (front : Statements) → levels st ≡ base →
        Reads text.now result (return_row at front st) tokens.now
        (λ r. Stats (Then front (view_stat r.tree)) st) (λ r. r.rest.now) }
    ensures shorter { IfOk result (λ r. length r.rest.now < length tokens.now) }
{
    match accept(tokens, Sign::Semicolon) {
        Some(behind) => Ok(StatRead {
            tree: StatText::Return(at, None),
            rest: behind.rest,
        }),
        None => {
            let value = inside(alloc, text, tokens, base, Close::Semicolon)?;
            Ok(StatRead {
                tree: StatText::Return(at, Some(value.tree)),
                rest: value.rest,
            })
        }
    }
}
