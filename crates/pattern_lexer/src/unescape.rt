ghost use Rattle.std.specs.Prelude.{◌≡◌, ℕ, List, IfOk, IfSome, IfNone, IsTrue, ◌↔◌, Contains};
ghost use Rattle.flow_values.specs.Answers.{FindsExactly};
ghost use Rattle.pattern_lexer.specs.inner.Escapes.{IsEscapedText, BeginsEscaped, BeginsNone};

use flow_values::{NoMemory, Text};
use std::alloc::Global;

/// Resolves the escapes `\'` and `\\`. `None` for a bare `'` or `\`.
pub fn unescaped(alloc: Global, text: &str) -> Result<Option<Text>, NoMemory>
    ensures { IfOk result (λ words. FindsExactly (IsEscapedText text.now) words) }
{
    let mut words = Text::new(alloc);
    let mut rest = text;
    while let Some((plain, after)) = rest.split_once('\\') {
        let Some((special, more)) = escaped_first(after) else {
            return Ok(None);
        };
        if has_quote(plain) {
            return Ok(None);
        }
        words.push(plain)?;
        words.push(special)?;
        rest = more;
    }
    if has_quote(rest) {
        return Ok(None);
    }
    words.push(rest)?;
    Ok(Some(words))
}

/// Splits off a leading `'` or `\`.
fn escaped_first<'a>(text: &'a str) -> Option<(&'a str, &'a str)>
    ensures some { IfSome result (λ found. BeginsEscaped text.now found.0.now found.1.now) }
    ensures none { IfNone result (BeginsNone text.now) }
{
    if let Some(more) = text.strip_prefix('\'') {
        return Some(("'", more));
    }
    let more = text.strip_prefix('\\')?;
    Some(("\\", more))
}

/// Whether the text has a `'`.
fn has_quote(text: &str) -> bool
    ensures { IsTrue result ↔ Contains text.now 39 }
{
    text.contains('\'')
}
