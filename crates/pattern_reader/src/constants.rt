ghost use Rattle.std.specs.Prelude.{List, IfOk};
ghost use Rattle.flow_values.specs.Answers.{FindsExactly};
ghost use Rattle.pattern_reader.specs.Meaning.{IsConstantOf};
ghost use Rattle.std.specs.List.{AllZip};
ghost use Rattle.pattern_types.specs.declared.constant.Constant.{Constant};

use flow_values::{Items, NoMemory};
use pattern_lexer::{Token, TokenKind, binary_at, hex_at, integer_at, string_at, timestamp_at};
use pattern_types::Constant;
use std::alloc::Global;

/// The constant of a token.
pub(crate) fn constant_of(
    alloc: Global,
    text: &str,
    token: Token,
) -> Result<Option<Constant>, NoMemory>
    ensures { IfOk result (λ found. FindsExactly (IsConstantOf text.now token) found) }
{
    match token.kind {
        TokenKind::Number => Ok(integer_at(text, token).map(|whole| Constant::Integer(whole))),
        TokenKind::Timestamp => match timestamp_at(text, token) {
            Some(instant) => Ok(Some(Constant::Timestamp(instant))),
            None => Ok(None),
        },
        TokenKind::TrueWord => Ok(Some(Constant::Boolean(true))),
        TokenKind::FalseWord => Ok(Some(Constant::Boolean(false))),
        TokenKind::String => match string_at(alloc, text, token)? {
            Some(words) => Ok(Some(Constant::String(words))),
            None => Ok(None),
        },
        TokenKind::Hex => match hex_at(alloc, text, token)? {
            Some(bytes) => Ok(Some(Constant::Hex(bytes))),
            None => Ok(None),
        },
        TokenKind::Binary => match binary_at(alloc, text, token)? {
            Some(bytes) => Ok(Some(Constant::Binary(bytes))),
            None => Ok(None),
        },
        _ => Ok(None),
    }
}

/// The constants of a list.
pub(crate) fn constants_of(
    alloc: Global,
    text: &str,
    tokens: &[Token],
) -> Result<Option<Items<Constant>>, NoMemory>
    ensures { IfOk result (λ found.
        FindsExactly (AllZip (IsConstantOf text.now) tokens.now) found) }
{
    let mut found = Items::new(alloc);
    for token in tokens {
        let Some(one) = constant_of(alloc, text, *token)? else {
            return Ok(None);
        };
        found.push(one)?;
    }
    Ok(Some(found))
}
