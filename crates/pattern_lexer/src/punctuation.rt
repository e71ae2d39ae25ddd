ghost use Rattle.std.specs.Prelude.{◌≡◌, ◌≢◌, ◌∷◌, ℕ, List, Some, IsSome, IfSome, IfNone};
ghost use Rattle.pattern_lexer.specs.Reading.{HasNoToken};
ghost use Rattle.pattern_lexer.specs.inner.Steps.{BeginsToken, StartsAsPunctuation, single_kind};
ghost use Rattle.pattern_lexer.specs.inner.Steps.{double_kind};

use crate::TokenKind;
use crate::first::First;
use crate::runs::strip_byte;

/// The longest punctuation mark or operator at the start of the bytes.
pub fn first_punctuation(bytes: &[u8]) -> Option<First<'_>>
    requires { StartsAsPunctuation bytes.now }
    ensures some { IfSome result (λ found. BeginsToken bytes.now found.kind found.after.now) }
    ensures none { IfNone result (HasNoToken bytes.now) }
{
    let (first, more) = bytes.split_first()?;
    if let Some(found) = double_punctuation(*first, more) {
        return Some(found);
    }
    let kind = kind_of_punctuation(*first)?;
    Some(First { kind, after: more })
}

/// The two-byte operator whose second byte is `=`.
fn double_punctuation(first: u8, more: &[u8]) -> Option<First<'_>>
    ensures some { IfSome result (λ found. (double_kind first ≡ Some found.kind)
        × (more.now ≡ 61 ∷ found.after.now)) }
    ensures none { IfNone result ((after : List ℕ) → IsSome (double_kind first)
        → more.now ≢ 61 ∷ after) }
{
    let after = strip_byte(more, b'=')?;
    let kind = kind_before_equal(first)?;
    Some(First { kind, after })
}

/// The kind of a one-byte mark.
fn kind_of_punctuation(byte: u8) -> Option<TokenKind>
    ensures { result ≡ single_kind byte }
{
    match byte {
        b'[' => Some(TokenKind::SquareOpen),
        b']' => Some(TokenKind::SquareClose),
        b'(' => Some(TokenKind::RoundOpen),
        b')' => Some(TokenKind::RoundClose),
        b'.' => Some(TokenKind::Dot),
        b':' => Some(TokenKind::Colon),
        b',' => Some(TokenKind::Comma),
        b'*' => Some(TokenKind::Star),
        b'=' => Some(TokenKind::Equal),
        b'<' => Some(TokenKind::Less),
        b'>' => Some(TokenKind::Greater),
        _ => None,
    }
}

/// The kind of the mark of this byte and `=`.
fn kind_before_equal(byte: u8) -> Option<TokenKind>
    ensures { result ≡ double_kind byte }
{
    match byte {
        b'!' => Some(TokenKind::Differ),
        b'<' => Some(TokenKind::LessEqual),
        b'>' => Some(TokenKind::GreaterEqual),
        _ => None,
    }
}
