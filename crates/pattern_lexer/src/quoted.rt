ghost use Rattle.std.specs.Prelude.{◌≡◌, ◌≢◌, ◌∷◌, ◌++◌, ℕ, List, IfSome, IfNone, All, flat_map};
ghost use Rattle.pattern_lexer.specs.Word.{HasAt};
ghost use Rattle.pattern_lexer.specs.Values.{escaped, IsSpecial};
ghost use Rattle.pattern_lexer.specs.Reading.{HasNoToken};
ghost use Rattle.pattern_lexer.specs.inner.Steps.{BeginsToken, HasNoPrefixed, letter_kind};

use crate::TokenKind;
use crate::first::First;
use crate::runs::{CharacterClass, split_run, strip_byte};

/// The string literal at the start of bytes that begin with `'`.
pub fn first_string(bytes: &[u8]) -> Option<First<'_>>
    requires { HasAt 0 (λ c. c ≡ 39) bytes.now }
    ensures some { IfSome result (λ found. BeginsToken bytes.now found.kind found.after.now) }
    ensures none { IfNone result (HasNoToken bytes.now) }
{
    let after = after_words(strip_byte(bytes, b'\'')?)?;
    Some(First {
        kind: TokenKind::String,
        after,
    })
}

/// The bytes after the first unescaped `'`.
fn after_words(inside: &[u8]) -> Option<&[u8]>
    ensures some { IfSome result (λ after. (words : List ℕ)
        × (inside.now ≡ flat_map escaped words ++ 39 ∷ after.now)) }
    ensures none { IfNone result ((words more : List ℕ)
        → inside.now ≢ flat_map escaped words ++ 39 ∷ more) }
{
    let mut rest = inside;
    while let Some((first, more)) = rest.split_first() {
        match *first {
            b'\'' => return Some(more),
            b'\\' => rest = after_special(more)?,
            _ => rest = more,
        }
    }
    None
}

/// The bytes after a leading `'` or `\`.
fn after_special(bytes: &[u8]) -> Option<&[u8]>
    ensures some { IfSome result (λ after. (c : ℕ) × IsSpecial c × (bytes.now ≡ c ∷ after.now)) }
    ensures none { IfNone result ((c : ℕ) (after : List ℕ) → IsSpecial c → bytes.now ≢ c ∷ after) }
{
    match bytes.split_first()? {
        (b'\'' | b'\\', after) => Some(after),
        _ => None,
    }
}

/// The literal with a prefix letter at the start of the bytes: `h'..'`, `b'..'` or `t'..'`.
pub fn first_prefixed(bytes: &[u8]) -> Option<First<'_>>
    ensures some { IfSome result (λ found. BeginsToken bytes.now found.kind found.after.now) }
    ensures none { IfNone result (HasNoPrefixed bytes.now) }
{
    let (letter, more) = bytes.split_first()?;
    let kind = kind_of_letter(*letter)?;
    let after = after_unquoted(strip_byte(more, b'\'')?)?;
    Some(First { kind, after })
}

/// The bytes after the first `'`.
fn after_unquoted(quoted: &[u8]) -> Option<&[u8]>
    ensures some { IfSome result (λ after. (inside : List ℕ) × All (λ c. c ≢ 39) inside
        × (quoted.now ≡ inside ++ 39 ∷ after.now)) }
    ensures none { IfNone result ((inside after : List ℕ) → All (λ c. c ≢ 39) inside
        → quoted.now ≢ inside ++ 39 ∷ after) }
{
    let (_inside, rest) = split_run(quoted, CharacterClass::Unquoted);
    strip_byte(rest, b'\'')
}

/// The kind of a literal with this prefix letter.
fn kind_of_letter(letter: u8) -> Option<TokenKind>
    ensures { result ≡ letter_kind letter }
{
    match letter {
        b'h' => Some(TokenKind::Hex),
        b'b' => Some(TokenKind::Binary),
        b't' => Some(TokenKind::Timestamp),
        _ => None,
    }
}
