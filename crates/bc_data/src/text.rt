// Decimal texts.

ghost use Rattle.std.specs.Prelude.{◌≡◌, ℕ, ◌<◌, ◌^◌, IfOk, IfSome, IfNone};
ghost use Rattle.std.specs.Fmt.{decimal, signed_decimal};

use crate::list::Bytes;
use std::alloc::{AllocError, Global};

/// The sign that `parse` takes.
const PLUS: u8 = b'+';

/// The digit that leads no other digits.
const ZERO: u8 = b'0';

/// The decimal text of a number.
pub fn decimal(alloc: Global, value: i64) -> Result<Bytes, AllocError>
    ensures { IfOk result (λ text. text ≡ signed_decimal value) }
{
    let text = format!(in alloc; "{value}")?;
    Ok(Bytes::from_vec(text.into_bytes()))
}

/// The decimal text of a natural number.
pub fn natural(alloc: Global, value: u64) -> Result<Bytes, AllocError>
    ensures { IfOk result (λ text. text ≡ decimal value) }
{
    let digits = format!(in alloc; "{value}")?;
    Ok(Bytes::from_vec(digits.into_bytes()))
}

/// The number whose decimal text this is: digits with no sign, and no zero before others. `None` where the
/// text is that of no number below 2 ^ 64.
pub fn read_decimal(text: &[u8]) -> Option<u64>
    ensures some { IfSome result (λ n. text.now ≡ decimal n) }
    ensures none { IfNone result ((n : ℕ) → n < 2 ^ 64 → text.now ≡ decimal n → ⊥) }
{
    // The first byte tells a sign and a leading zero, which `parse` takes.
    if text.is_empty() || text[0] == PLUS || (text[0] == ZERO && text.len() > 1) {
        return None;
    }
    let Ok(text) = std::str::from_utf8(text) else {
        return None;
    };
    match text.parse::<u64>() {
        Ok(value) => Some(value),
        Err(_) => None,
    }
}
