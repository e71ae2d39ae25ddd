ghost use Rattle.std.specs.Prelude.{◌≡◌, IfSome, IfNone, Contains};
ghost use Rattle.pattern_lexer.specs.Word.{IsWordStart, HasAt, keywords};
ghost use Rattle.pattern_lexer.specs.Table.{IsToken};
ghost use Rattle.pattern_lexer.specs.inner.Steps.{BeginsToken, IsNameOrKeyword};

use crate::TokenKind;
use crate::first::First;
use crate::quoted::first_prefixed;
use crate::runs::{CharacterClass, split_run};

/// The name or keyword at the start of bytes that begin with a letter or `_`.
pub fn first_name(bytes: &[u8]) -> First<'_>
    requires { HasAt 0 IsWordStart bytes.now }
    ensures { BeginsToken bytes.now result.kind result.after.now }
{
    if let Some(first) = first_prefixed(bytes) {
        return first;
    }
    let (name, after) = split_run(bytes, CharacterClass::NamePart);
    First {
        kind: kind_of_name(name),
        after,
    }
}

/// The kind of a whole name.
fn kind_of_name(name: &[u8]) -> TokenKind
    requires { IsNameOrKeyword name.now }
    ensures { IsToken result name.now }
{
    if name.contains(&b'-') {
        return TokenKind::HyphenWord;
    }
    keyword(name).unwrap_or(TokenKind::Word)
}

/// The kind of a keyword.
fn keyword(name: &[u8]) -> Option<TokenKind>
    ensures some { IfSome result (λ kind. IsToken kind name.now) }
    ensures none { IfNone result (¬ Contains keywords name.now) }
{
    match name {
        b"AND" => Some(TokenKind::And),
        b"OR" => Some(TokenKind::Or),
        b"NOT" => Some(TokenKind::Not),
        b"FOLLOWEDBY" => Some(TokenKind::FollowedBy),
        b"WITHIN" => Some(TokenKind::Within),
        b"SECONDS" => Some(TokenKind::Seconds),
        b"REPEATS" => Some(TokenKind::Repeats),
        b"TIMES" => Some(TokenKind::Times),
        b"START" => Some(TokenKind::Start),
        b"STOP" => Some(TokenKind::Stop),
        b"IN" => Some(TokenKind::Among),
        b"LIKE" => Some(TokenKind::Like),
        b"ISSUBSET" => Some(TokenKind::Subset),
        b"ISSUPERSET" => Some(TokenKind::Superset),
        b"EXISTS" => Some(TokenKind::Exists),
        b"true" => Some(TokenKind::TrueWord),
        b"false" => Some(TokenKind::FalseWord),
        _ => None,
    }
}
