ghost use Rattle.std.specs.Prelude.{IfSome, IfNone};
ghost use Rattle.pattern_lexer.specs.Reading.{HasNoToken};
ghost use Rattle.pattern_lexer.specs.inner.Steps.{BeginsToken};

use crate::TokenKind;
use crate::names::first_name;
use crate::number_runs::first_number;
use crate::punctuation::first_punctuation;
use crate::quoted::first_string;

/// A token at the start of some bytes: its kind, and the bytes after it.
#[derive(Clone, Copy)]
pub struct First<'a> {
    pub kind: TokenKind,
    pub after: &'a [u8],
}

/// The longest token at the start of the bytes.
pub fn first_of(bytes: &[u8]) -> Option<First<'_>>
    ensures some { IfSome result (λ found. BeginsToken bytes.now found.kind found.after.now) }
    ensures none { IfNone result (HasNoToken bytes.now) }
{
    match bytes.first()? {
        b'a'..=b'z' | b'A'..=b'Z' | b'_' => Some(first_name(bytes)),
        b'0'..=b'9' | b'+' | b'-' => first_number(bytes),
        b'\'' => first_string(bytes),
        _ => first_punctuation(bytes),
    }
}
