// Guards, by recursive descent. `base` is the number of levels that are open around.

ghost use Rattle.std.specs.Prelude.{◌≡◌, ℕ, ◌+◌, ◌≤◌, ◌<◌, Bool, List, [], ◌∷◌, length, IfOk, IfErr, IfSome, IfNone};
ghost use Rattle.bc_data.specs.Seen.{Keyword};
ghost use Rattle.bc_data.specs.SourceTree.{Guard, FlagTwo, guard_height};
ghost use Rattle.bc_data.specs.Grammar.{guard_looseness, guard_word};
ghost use Rattle.bc_data.specs.View.{view_guard};
ghost use Rattle.bc_data.specs.declared.token.TokenKind.TheVariants as token_kind;
ghost use Rattle.bc_data.specs.declared.token.Word.TheVariants as word;
ghost use Rattle.bc_data.specs.declared.token.Sign.TheVariants as sign;
ghost use Rattle.bc_law_grammar.specs.Machine.{Stack, WantFlag, AfterFlag, levels, FlagRoom};
ghost use Rattle.bc_parse_expr.specs.Contract.{Stops, first_kind, Reads};
ghost use Rattle.bc_parse.specs.Guards.{flag_reach_of, IsGuardMeasured, join_of};
ghost use Rattle.bc_parse_expr.specs.declared.cursor.Fault.TheVariants.{Memory};

use bc_data::token::{Sign, Token, TokenKind, Word};
use bc_data::tree::FlagText;
use bc_parse_expr::cursor::{Fault, check_level, expect, named, next};
use std::alloc::Global;

/// A guard that was read, how many levels it has, and the tokens behind it.
#[derive(Drop)]
pub struct GuardRead<'a> {
    pub tree: FlagText,
    pub height: u32,
    pub rest: &'a [Token],
}

// The operator between two parts of a guard.
#[derive(Clone, Copy)]
pub enum Join {
    And,
    Or,
}

fn looseness_of(join: Join) -> u32
    ensures { result ≡ guard_looseness (join_of join) }
{
    match join {
        Join::And => 2,
        Join::Or => 3,
    }
}

// The operator that comes next.
fn joining(tokens: &[Token]) -> Option<Join>
    ensures some { IfSome result (λ join. first_kind tokens.now ≡ token_kind.Keyword (guard_word (join_of join))) }
    ensures none { IfNone result (flag_reach_of tokens.now ≡ 4) }
{
    match tokens {
        [first, ..] => match first.kind {
            TokenKind::Keyword(keyword) => match keyword {
                Word::And => Some(Join::And),
                Word::Or => Some(Join::Or),
                _ => None,
            },
            _ => None,
        },
        [] => None,
    }
}

fn joined(alloc: Global, join: Join, left: FlagText, right: FlagText) -> Result<FlagText, Fault>
    ensures ok { IfOk result (λ g. view_guard g ≡ FlagTwo (join_of join) (view_guard left) (view_guard right)) }
    ensures err { IfErr result (λ e. e ≡ Memory) }
{
    let left = Box::new(alloc, left)?;
    let right = Box::new(alloc, right)?;
    match join {
        Join::And => Ok(FlagText::And(left, right)),
        Join::Or => Ok(FlagText::Or(left, right)),
    }
}

/// A guard whose operators bind at most as loosely as `loosest`: 3 is any guard.
#[cycle(guard)]
#[tactic(auto, using(bc_law_grammar::proofs::Forward::flag_room_down))]
pub fn guard<'a>(
    alloc: Global,
    text: &[u8],
    tokens: &'a [Token],
    base: u32,
    loosest: u32,
) -> Result<GuardRead<'a>, Fault>
    requires base { base ≤ 64 }
    requires loosest { (1 ≤ loosest) × (loosest ≤ 3) }
    ensures answers { (st : Stack) → levels st ≡ base → FlagRoom loosest st →
        Reads text.now result (WantFlag st) tokens.now
        (λ x. AfterFlag (view_guard x.tree) st) (λ x. x.rest.now) }
    ensures whole { IfOk result (λ x. loosest < flag_reach_of x.rest.now) }
    ensures height { IfOk result (λ x. IsGuardMeasured base x.height (view_guard x.tree)) }
    ensures shorter { IfOk result (λ x. length x.rest.now < length tokens.now) }
{
    let mut left = single(alloc, text, tokens, base)?;
    while let Some(join) = joining(left.rest) {
        if looseness_of(join) > loosest {
            return Ok(left);
        }
        left = with_join(alloc, text, left, base, join)?;
    }
    Ok(left)
}

// The left part, the operator and its right part.
#[cycle(guard)]
fn with_join<'a>(
    alloc: Global,
    text: &[u8],
    left: GuardRead<'a>,
    base: u32,
    join: Join,
) -> Result<GuardRead<'a>, Fault>
    requires base { base ≤ 64 }
    requires join { first_kind left.rest.now ≡ token_kind.Keyword (guard_word (join_of join)) }
    requires height { IsGuardMeasured base left.height (view_guard left.tree) }
    ensures answers { (st : Stack) → levels st ≡ base → FlagRoom (guard_looseness (join_of join)) st →
        Reads text.now result (AfterFlag (view_guard left.entry.tree) st) left.entry.rest.now
        (λ x. AfterFlag (view_guard x.tree) st) (λ x. x.rest.now) }
    ensures height { IfOk result (λ x. IsGuardMeasured base x.height (view_guard x.tree)) }
    ensures shorter { IfOk result (λ x. length x.rest.now < length left.entry.rest.now) }
{
    let (token, behind) = next(left.rest)?;
    check_level(base, left.height, token.at)?;
    let right = guard(alloc, text, behind, base + 1, looseness_of(join) - 1)?;
    Ok(GuardRead {
        tree: joined(alloc, join, left.tree, right.tree)?,
        height: left.height.max(right.height) + 1,
        rest: right.rest,
    })
}

#[cycle(guard)]
fn single<'a>(
    alloc: Global,
    text: &[u8],
    tokens: &'a [Token],
    base: u32,
) -> Result<GuardRead<'a>, Fault>
    requires base { base ≤ 64 }
    ensures answers { (st : Stack) → levels st ≡ base → FlagRoom 1 st →
        Reads text.now result (WantFlag st) tokens.now
        (λ x. AfterFlag (view_guard x.tree) st) (λ x. x.rest.now) }
    ensures height { IfOk result (λ x. IsGuardMeasured base x.height (view_guard x.tree)) }
    ensures shorter { IfOk result (λ x. length x.rest.now < length tokens.now) }
{
    let (token, behind) = next(tokens)?;
    match token.kind {
        TokenKind::Name => Ok(flag_leaf(FlagText::Flag(named(alloc, text, token)?), behind)),
        TokenKind::Keyword(Word::True) => Ok(flag_leaf(FlagText::Truth(true), behind)),
        TokenKind::Keyword(Word::False) => Ok(flag_leaf(FlagText::Truth(false), behind)),
        TokenKind::Mark(Sign::Bang) => negated(alloc, text, token, behind, base),
        TokenKind::Mark(Sign::OpenParen) => group(alloc, text, token, behind, base),
        _ => Err(Fault::Unexpected(token.at)),
    }
}

fn flag_leaf(tree: FlagText, rest: &[Token]) -> GuardRead<'_>
    requires { guard_height (view_guard tree) ≡ 0 }
    ensures tree { result.tree ≡ tree }
    ensures rest { result.rest.now ≡ rest.now }
    ensures height { result.height ≡ 0 }
{
    GuardRead {
        tree,
        height: 0,
        rest,
    }
}

#[cycle(guard)]
#[tactic(auto, using(bc_law_grammar::proofs::Steps::end_flag_not))]
fn negated<'a>(
    alloc: Global,
    text: &[u8],
    token: Token,
    tokens: &'a [Token],
    base: u32,
) -> Result<GuardRead<'a>, Fault>
    requires base { base ≤ 64 }
    requires bang { token.kind ≡ token_kind.Mark sign.Bang }
    ensures answers { (st : Stack) → levels st ≡ base →
        Reads text.now result (WantFlag st) (token ∷ tokens.now)
        (λ x. AfterFlag (view_guard x.tree) st) (λ x. x.rest.now) }
    ensures height { IfOk result (λ x. IsGuardMeasured base x.height (view_guard x.tree)) }
    ensures shorter { IfOk result (λ x. length x.rest.now < length tokens.now) }
{
    check_level(base, 0, token.at)?;
    let part = single(alloc, text, tokens, base + 1)?;
    Ok(GuardRead {
        tree: FlagText::Not(Box::new(alloc, part.tree)?),
        height: part.height + 1,
        rest: part.rest,
    })
}

#[cycle(guard)]
#[tactic(auto, using(crate::proofs::Flags::group_end))]
fn group<'a>(
    alloc: Global,
    text: &[u8],
    token: Token,
    tokens: &'a [Token],
    base: u32,
) -> Result<GuardRead<'a>, Fault>
    requires base { base ≤ 64 }
    requires paren { token.kind ≡ token_kind.Mark sign.OpenParen }
    ensures answers { (st : Stack) → levels st ≡ base →
        Reads text.now result (WantFlag st) (token ∷ tokens.now)
        (λ x. AfterFlag (view_guard x.tree) st) (λ x. x.rest.now) }
    ensures height { IfOk result (λ x. IsGuardMeasured base x.height (view_guard x.tree)) }
    ensures shorter { IfOk result (λ x. length x.rest.now < length tokens.now) }
{
    check_level(base, 0, token.at)?;
    let inner = guard(alloc, text, tokens, base + 1, 3)?;
    let close = expect(inner.rest, Sign::CloseParen)?;
    Ok(GuardRead {
        tree: FlagText::Group(Box::new(alloc, inner.tree)?),
        height: inner.height + 1,
        rest: close.rest,
    })
}
