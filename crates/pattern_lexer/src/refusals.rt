ghost use Rattle.std.specs.Prelude.{◌≡◌, ◌↔◌, ℕ, List, IsTrue, IfOk, IfSome, IfNone, Some};
ghost use Rattle.pattern_lexer.specs.declared.refusal.LeftWord.{LeftWord};
ghost use Rattle.pattern_lexer.specs.Values.{HasValue, IsHexText, IsBinaryText};
ghost use Rattle.pattern_lexer.specs.Table.{IsToken};
ghost use Rattle.pattern_lexer.specs.Spans.{IsCut, token_text_at};
ghost use Rattle.pattern_lexer.specs.Reading.{RunsOn, IsUnsupported};
ghost use Rattle.pattern_lexer.specs.inner.Steps.{invalid_value_refusal};

use crate::{
    LeftWord, Token, TokenKind, TokenRefusal, binary_at, hex_at, integer_at, timestamp_at,
};
use flow_values::NoMemory;
use std::alloc::Global;

/// Whether a number is directly followed by a letter or `_`.
pub fn runs_on(kind: TokenKind, after: &[u8]) -> bool
    ensures { IsTrue result ↔ RunsOn kind after.now }
{
    kind == TokenKind::Number && matches!(after, [b'a'..=b'z' | b'A'..=b'Z' | b'_', ..])
}

/// The unsupported syntax that the token begins, if any.
pub fn left_word(kind: TokenKind, text: &[u8], after: &[u8]) -> Option<LeftWord>
    ensures some { IfSome result (λ word. IsUnsupported word kind text.now after.now) }
    ensures none { IfNone result ((word : LeftWord)
        → ¬ IsUnsupported word kind text.now after.now) }
{
    if text == b"MATCHES".as_slice() {
        return Some(LeftWord::Matches);
    }
    match (kind, after) {
        (TokenKind::Number, [b'.', b'0'..=b'9', ..]) => Some(LeftWord::Fraction),
        (TokenKind::Equal, [b'=', ..]) => Some(LeftWord::DoubleEqual),
        (TokenKind::Less, [b'>', ..]) => Some(LeftWord::LessGreater),
        _ => None,
    }
}

/// Whether the token has a value.
pub fn has_value(alloc: Global, text: &str, token: Token) -> Result<bool, NoMemory>
    requires cut { IsCut text.now token }
    requires token { IsToken token.kind (token_text_at text.now token) }
    ensures { IfOk result (λ has. IsTrue has ↔ HasValue token.kind (token_text_at text.now token)) }
{
    match token.kind {
        TokenKind::Number => Ok(integer_at(text, token).is_some()),
        TokenKind::Timestamp => Ok(timestamp_at(text, token).is_some()),
        TokenKind::Hex => is_hex(alloc, text, token),
        TokenKind::Binary => is_base64(alloc, text, token),
        _ => Ok(true),
    }
}

fn is_hex(alloc: Global, text: &str, token: Token) -> Result<bool, NoMemory>
    requires { IsCut text.now token }
    ensures { IfOk result (λ is. IsTrue is
        ↔ ((bytes : List ℕ) × IsHexText (token_text_at text.now token) bytes)) }
{
    let bytes = hex_at(alloc, text, token)?;
    Ok(bytes.is_some())
}

fn is_base64(alloc: Global, text: &str, token: Token) -> Result<bool, NoMemory>
    requires { IsCut text.now token }
    ensures { IfOk result (λ is. IsTrue is
        ↔ ((bytes : List ℕ) × IsBinaryText (token_text_at text.now token) bytes)) }
{
    let bytes = binary_at(alloc, text, token)?;
    Ok(bytes.is_some())
}

/// The refusal of a token without a value.
pub fn invalid_value(kind: TokenKind, at: usize) -> TokenRefusal
    ensures { result ≡ invalid_value_refusal kind at }
{
    match kind {
        TokenKind::Number => TokenRefusal::BadNumber { at },
        TokenKind::Timestamp => TokenRefusal::BadTime { at },
        _ => TokenRefusal::BadBytes { at },
    }
}
