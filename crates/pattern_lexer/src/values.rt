ghost use Rattle.std.specs.Prelude.{◌≡◌, ◌≢◌, ◌++◌, ℕ, ℤ, List, codes, IfOk, IfSome, IfNone};
ghost use Rattle.std.specs.Prelude.{IsTrue, ◌↔◌};
ghost use Rattle.std.specs.Str.Parse.{without_leading_sign};
ghost use Rattle.flow_values.specs.Answers.{FindsExactly};
ghost use Rattle.pattern_lexer.specs.Values.{HasNoLeadingZero, IsIntegerText, IsStringText};
ghost use Rattle.pattern_lexer.specs.Values.{IsHexText, IsBinaryText, IsTimestampText};

use crate::unescape::unescaped;
use base64::DecodeAllocError;
use base64::engine::general_purpose::STANDARD;
use flow_values::{Items, NoMemory, Text};
use hex::FromHexError;
use std::alloc::Global;
use stix_times::Instant;

/// The integer of a Number. `None` if it has a leading zero, or doesn't fit 64 bits. Allocates
/// nothing.
pub fn integer_of(text: &str) -> Option<i64>
    ensures some { IfSome result (IsIntegerText text.now) }
    ensures none { IfNone result ((whole : ℤ) → ¬ IsIntegerText text.now whole) }
{
    if has_leading_zero(text) {
        return None;
    }
    text.parse::<i64>().ok()
}

/// The text of a String, without the quotes and with escapes resolved.
pub fn string_of(alloc: Global, text: &str) -> Result<Option<Text>, NoMemory>
    ensures { IfOk result (λ words. FindsExactly (IsStringText text.now) words) }
{
    match inside(text, "'") {
        Some(inside) => unescaped(alloc, inside),
        None => Ok(None),
    }
}

/// The bytes of a Hex. `None` if it isn't pairs of hexadecimal digits.
pub fn hex_of(alloc: Global, text: &str) -> Result<Option<Items<u8>>, NoMemory>
    ensures { IfOk result (λ bytes. FindsExactly (IsHexText text.now) bytes) }
{
    let Some(digits) = inside(text, "h'") else {
        return Ok(None);
    };
    match hex::decode(alloc, digits) {
        Ok(bytes) => Ok(Some(Items::from_vec(bytes))),
        Err(FromHexError::OutOfMemory) => Err(NoMemory),
        Err(_) => Ok(None),
    }
}

/// The bytes of a Binary. `None` if it isn't standard padded base64.
pub fn binary_of(alloc: Global, text: &str) -> Result<Option<Items<u8>>, NoMemory>
    ensures { IfOk result (λ bytes. FindsExactly (IsBinaryText text.now) bytes) }
{
    let Some(symbols) = inside(text, "b'") else {
        return Ok(None);
    };
    match STANDARD.decode(alloc, symbols.as_bytes()) {
        Ok(bytes) => Ok(Some(Items::from_vec(bytes))),
        Err(DecodeAllocError::OutOfMemory) => Err(NoMemory),
        Err(DecodeAllocError::DecodeError(_)) => Ok(None),
    }
}

/// The instant of a Timestamp. `None` if it isn't a valid timestamp. Allocates nothing.
pub fn timestamp_of(text: &str) -> Option<Instant>
    ensures some { IfSome result (IsTimestampText text.now) }
    ensures none { IfNone result ((instant : ℤ) → ¬ IsTimestampText text.now instant) }
{
    let time = inside(text, "t'")?;
    stix_times::read(time).ok()
}

/// The text between the opening and the closing `'`.
fn inside<'a>(text: &'a str, opening: &str) -> Option<&'a str>
    ensures some { IfSome result (λ inside. text.now ≡ opening.now ++ inside.now ++ codes "'") }
    ensures none { IfNone result ((inside : List ℕ)
        → text.now ≢ opening.now ++ inside ++ codes "'") }
{
    text.strip_prefix(opening)?.strip_suffix('\'')
}

/// Whether a digit follows a leading zero, after an optional sign.
fn has_leading_zero(text: &str) -> bool
    ensures { IsTrue result ↔ ¬ HasNoLeadingZero (without_leading_sign text.now) }
{
    let bytes = text.as_bytes();
    match bytes {
        [b'+' | b'-', b'0', _, ..] => true,
        [b'0', _, ..] => true,
        _ => false,
    }
}
