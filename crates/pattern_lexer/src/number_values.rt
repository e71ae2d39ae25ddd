ghost use Rattle.std.specs.Prelude.{ℕ, IfSome, IfNone};
ghost use Rattle.pattern_lexer.specs.Spans.{IsIndexToken, IsCount};

use crate::{Token, integer_at};

/// The list index of a token: 0 to 4294967295. Allocates nothing.
pub fn index_at(text: &str, token: Token) -> Option<u32>
    ensures some { IfSome result (IsIndexToken text.now token) }
    ensures none { IfNone result ((place : ℕ) → ¬ IsIndexToken text.now token place) }
{
    let Some(whole) = integer_at(text, token) else {
        return None;
    };
    u32::try_from(whole).ok()
}

/// The count of a token: 1 to 4294967295. Allocates nothing.
pub fn count_at(text: &str, token: Token) -> Option<u32>
    ensures some { IfSome result (IsCount text.now token) }
    ensures none { IfNone result ((count : ℕ) → ¬ IsCount text.now token count) }
{
    match index_at(text, token) {
        Some(count) if count > 0 => Some(count),
        _ => None,
    }
}
