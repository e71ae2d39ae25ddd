ghost use Rattle.std.specs.Prelude.{◌≡◌, IfSome, IfNone};
ghost use Rattle.std.specs.Str.Parse.{without_leading_sign};
ghost use Rattle.pattern_lexer.specs.Word.{HasAt};
ghost use Rattle.pattern_lexer.specs.Reading.{HasNoToken};
ghost use Rattle.pattern_lexer.specs.inner.Steps.{BeginsToken, IsNumberStart};

use crate::TokenKind;
use crate::first::First;
use crate::runs::{CharacterClass, split_run};

/// The number at the start of bytes that begin with a digit or a sign. `None` for a sign without
/// digits.
pub fn first_number(bytes: &[u8]) -> Option<First<'_>>
    requires { HasAt 0 IsNumberStart bytes.now }
    ensures some { IfSome result (λ found. BeginsToken bytes.now found.kind found.after.now) }
    ensures none { IfNone result (HasNoToken bytes.now) }
{
    let (digits, after) = split_run(without_sign(bytes), CharacterClass::Digit);
    if digits.is_empty() {
        return None;
    }
    Some(First {
        kind: TokenKind::Number,
        after,
    })
}

fn without_sign(bytes: &[u8]) -> &[u8]
    ensures { result.now ≡ without_leading_sign bytes.now }
{
    match bytes {
        [b'+' | b'-', digits @ ..] => digits,
        _ => bytes,
    }
}
