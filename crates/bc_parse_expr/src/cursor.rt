// Single tokens.

ghost use Rattle.std.specs.Prelude.{◌≡◌, ℕ, ◌+◌, ◌-◌, ◌≤◌, ◌<◌, List, [], ◌∷◌, length, take, drop, min, IfOk, IfErr, IfSome, IfNone, OnOk, OnErr};
ghost use Rattle.bc_data.specs.Seen.{seen, between};
ghost use Rattle.bc_data.specs.declared.run.Place.{Place};
ghost use Rattle.bc_data.specs.declared.tree.Named.{Named};
ghost use Rattle.bc_law_grammar.specs.Machine.{State, Never, OnMark, OnWord, OnName, run};
ghost use Rattle.bc_parse_expr.specs.Contract.{Stops, IsOpen, closing_of, Reads};
ghost use Rattle.bc_parse_expr.specs.declared.cursor.Fault.TheVariants.{Memory, Cut};

use bc_data::list::List;
use bc_data::run::Place;
use bc_data::token::{Sign, Token, TokenKind, Word};
use bc_data::tree::Named;
use std::alloc::{AllocError, AllocFailed, Global};

/// The deepest level.
pub const LIMIT: u32 = 64;

/// Why there is no tree: the place of the refused token, or that the tokens end before the end of the text.
#[derive(Drop)]
pub enum Fault {
    Unexpected(Place),
    TooDeep(Place),
    Cut,
    Memory,
}

impl From<AllocError> for Fault {
    ghost from_gives = { λ _ e. e ≡ Memory };

    fn from(_: AllocError) -> Fault {
        Fault::Memory
    }
}

impl<T: Drop> From<AllocFailed<T>> for Fault {
    ghost from_gives = { λ _ e. e ≡ Memory };

    fn from(_: AllocFailed<T>) -> Fault {
        Fault::Memory
    }
}

/// What closes the place where an expression stands.
#[derive(Clone, Copy)]
pub enum Close {
    Paren,
    Bracket,
    Semicolon,
}

/// The place of a token that was read, and the tokens behind it.
#[derive(Clone, Copy)]
pub struct Behind<'a> {
    pub at: Place,
    pub rest: &'a [Token],
}

/// A name that was read, and the tokens behind it.
#[derive(Drop)]
pub struct NameRead<'a> {
    pub name: Named,
    pub rest: &'a [Token],
}

/// The mark that closes a place.
pub fn closing(close: Close) -> Sign
    ensures { result ≡ closing_of close }
{
    match close {
        Close::Paren => Sign::CloseParen,
        Close::Bracket => Sign::CloseBracket,
        Close::Semicolon => Sign::Semicolon,
    }
}

/// Whether one node more around a tree of this height stays within 64 levels, where `base` levels are open.
pub fn check_level(base: u32, height: u32, at: Place) -> Result<(), Fault>
    requires base { base ≤ 64 }
    requires height { height ≤ 65 }
    ensures ok { OnOk result (height + base + 1 ≤ 64) }
    ensures err { IfErr result (λ e. (e ≡ Fault.TooDeep at) × (64 < height + base + 1)) }
{
    if height + base < LIMIT {
        Ok(())
    } else {
        Err(Fault::TooDeep(at))
    }
}

/// The next token and those behind it.
pub fn next(tokens: &[Token]) -> Result<(Token, &[Token]), Fault>
    ensures ok { IfOk result (λ r. tokens.now ≡ r.0 ∷ r.1.now) }
    ensures err { IfErr result (λ e. (e ≡ Cut) × (tokens.now ≡ [])) }
{
    match tokens {
        [first, behind @ ..] => Ok((*first, behind)),
        [] => Err(Fault::Cut),
    }
}

/// The tokens behind this mark, if it comes next.
#[tactic(auto, using(crate::proofs::Rows::on_mark, crate::proofs::Rows::not_mark, crate::proofs::Rows::no_mark))]
pub fn accept(tokens: &[Token], sign: Sign) -> Option<Behind<'_>>
    ensures some { (text : List ℕ) (next : Place → State) (other : State) →
        IfSome result (λ r. run 64 (OnMark sign next other) (seen text tokens.now)
        ≡ run 64 (next r.at) (seen text r.rest.now)) }
    ensures none { (text : List ℕ) (next : Place → State) (other : State) → IsOpen other →
        IfNone result (run 64 (OnMark sign next other) (seen text tokens.now) ≡ run 64 other (seen text tokens.now)) }
    ensures shorter { IfSome result (λ r. length r.rest.now < length tokens.now) }
{
    match tokens {
        [first, rest @ ..] => match first.kind {
            TokenKind::Mark(mark) if mark == sign => Some(Behind { at: first.at, rest }),
            _ => None,
        },
        [] => None,
    }
}

/// The fault of a token that nothing allows.
pub fn refuse(tokens: &[Token]) -> Fault
    ensures { (text : List ℕ) → Stops result (run 64 Never (seen text tokens.now)) }
{
    match tokens {
        [first, ..] => Fault::Unexpected(first.at),
        [] => Fault::Cut,
    }
}

/// The tokens behind this mark, which has to come next.
pub fn expect(tokens: &[Token], sign: Sign) -> Result<Behind<'_>, Fault>
    ensures answers { (text : List ℕ) (next : Place → State) →
        Reads text result (OnMark sign next Never) tokens.now
        (λ r. next r.at) (λ r. r.rest.now) }
    ensures shorter { IfOk result (λ r. length r.rest.now < length tokens.now) }
{
    match accept(tokens, sign) {
        Some(behind) => Ok(behind),
        None => Err(refuse(tokens)),
    }
}

/// The tokens behind this keyword, if it comes next.
#[tactic(auto, using(crate::proofs::Rows::on_word, crate::proofs::Rows::not_word, crate::proofs::Rows::no_word))]
pub fn accept_word(tokens: &[Token], word: Word) -> Option<Behind<'_>>
    ensures some { (text : List ℕ) (next : Place → State) (other : State) →
        IfSome result (λ r. run 64 (OnWord word next other) (seen text tokens.now)
        ≡ run 64 (next r.at) (seen text r.rest.now)) }
    ensures none { (text : List ℕ) (next : Place → State) (other : State) → IsOpen other →
        IfNone result (run 64 (OnWord word next other) (seen text tokens.now) ≡ run 64 other (seen text tokens.now)) }
    ensures shorter { IfSome result (λ r. length r.rest.now < length tokens.now) }
{
    match tokens {
        [first, rest @ ..] => match first.kind {
            TokenKind::Keyword(keyword) if keyword == word => Some(Behind { at: first.at, rest }),
            _ => None,
        },
        [] => None,
    }
}

/// The tokens behind this keyword, which has to come next.
pub fn expect_word(tokens: &[Token], word: Word) -> Result<Behind<'_>, Fault>
    ensures answers { (text : List ℕ) (next : Place → State) →
        Reads text result (OnWord word next Never) tokens.now
        (λ r. next r.at) (λ r. r.rest.now) }
    ensures shorter { IfOk result (λ r. length r.rest.now < length tokens.now) }
{
    match accept_word(tokens, word) {
        Some(behind) => Ok(behind),
        None => Err(refuse(tokens)),
    }
}

// The bytes from a place on.
#[tactic(auto, using(crate::proofs::Rows::drop_min))]
fn bytes_from(text: &[u8], start: usize) -> &[u8]
    ensures { result.now ≡ drop start text.now }
{
    let first = start.min(text.len());
    &text[first..]
}

// The first bytes, so many of them as there are.
#[tactic(auto, using(crate::proofs::Rows::take_min))]
fn first_bytes(text: &[u8], count: usize) -> &[u8]
    ensures { result.now ≡ take count text.now }
{
    let end = count.min(text.len());
    &text[..end]
}

/// What a token spells: its bytes of the text.
pub fn spelled(text: &[u8], start: usize, end: usize) -> &[u8]
    ensures { result.now ≡ between text.now start end }
{
    first_bytes(bytes_from(text, start), end.saturating_sub(start))
}

/// The name of a token.
pub fn named(alloc: Global, text: &[u8], token: Token) -> Result<Named, Fault>
    ensures ok { IfOk result (λ x. x ≡ record { name = between text.now token.start token.end; at = token.at }) }
    ensures err { IfErr result (λ e. e ≡ Memory) }
{
    let bytes = spelled(text, token.start as usize, token.end as usize);
    Ok(Named {
        name: List::from_slice(alloc, bytes)?,
        at: token.at,
    })
}

/// The name that has to come next.
pub fn expect_name<'a>(
    alloc: Global,
    text: &[u8],
    tokens: &'a [Token],
) -> Result<NameRead<'a>, Fault>
    ensures answers { (next : Named → State) →
        Reads text.now result (OnName next Never) tokens.now
        (λ r. next r.name) (λ r. r.rest.now) }
    ensures shorter { IfOk result (λ r. length r.rest.now < length tokens.now) }
{
    let (token, rest) = next(tokens)?;
    match token.kind {
        TokenKind::Name => Ok(NameRead {
            name: named(alloc, text, token)?,
            rest,
        }),
        _ => Err(Fault::Unexpected(token.at)),
    }
}
