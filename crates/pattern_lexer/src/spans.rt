ghost use Rattle.std.specs.Prelude.{◌≡◌, ℕ, ℤ, List, IfOk, IfSome, IfNone};
ghost use Rattle.flow_values.specs.Answers.{FindsExactly};
ghost use Rattle.pattern_lexer.specs.Spans.{IsCut, token_text_at, At, IsItself};
ghost use Rattle.pattern_lexer.specs.Values.{IsIntegerText, IsStringText, IsHexText, IsBinaryText};
ghost use Rattle.pattern_lexer.specs.Values.{IsTimestampText};

use crate::{Token, binary_of, hex_of, integer_of, string_of, timestamp_of};
use flow_values::{Items, NoMemory, Text};
use std::alloc::Global;
use stix_times::Instant;

/// The token's text. `None` if its range isn't in the text.
pub fn text_of<'a>(text: &'a str, token: Token) -> Option<&'a str>
    ensures some { IfSome result (λ part. At IsItself text.now token part.now) }
    ensures none { IfNone result (¬ IsCut text.now token) }
{
    if token.from > token.to
        || !text.is_char_boundary(token.from)
        || !text.is_char_boundary(token.to)
    {
        return None;
    }
    Some(&text[token.from..token.to])
}

/// The integer of a token.
pub fn integer_at(text: &str, token: Token) -> Option<i64>
    ensures some { IfSome result (At IsIntegerText text.now token) }
    ensures none { IfNone result ((whole : ℤ) → ¬ At IsIntegerText text.now token whole) }
{
    integer_of(text_of(text, token)?)
}

/// The instant of a token.
pub fn timestamp_at(text: &str, token: Token) -> Option<Instant>
    ensures some { IfSome result (At IsTimestampText text.now token) }
    ensures none { IfNone result ((instant : ℤ) → ¬ At IsTimestampText text.now token instant) }
{
    timestamp_of(text_of(text, token)?)
}

/// The string of a token, with escapes resolved.
pub fn string_at(alloc: Global, text: &str, token: Token) -> Result<Option<Text>, NoMemory>
    ensures { IfOk result (λ found. FindsExactly (At IsStringText text.now token) found) }
{
    match text_of(text, token) {
        Some(part) => string_of(alloc, part),
        None => Ok(None),
    }
}

/// The bytes of a hexadecimal token.
pub fn hex_at(alloc: Global, text: &str, token: Token) -> Result<Option<Items<u8>>, NoMemory>
    ensures { IfOk result (λ found. FindsExactly (At IsHexText text.now token) found) }
{
    match text_of(text, token) {
        Some(part) => hex_of(alloc, part),
        None => Ok(None),
    }
}

/// The bytes of a base64 token.
pub fn binary_at(alloc: Global, text: &str, token: Token) -> Result<Option<Items<u8>>, NoMemory>
    ensures { IfOk result (λ found. FindsExactly (At IsBinaryText text.now token) found) }
{
    match text_of(text, token) {
        Some(part) => binary_of(alloc, part),
        None => Ok(None),
    }
}
