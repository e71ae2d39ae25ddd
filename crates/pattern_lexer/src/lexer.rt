//! A hand-written lexer by maximal munch (longest match). The first byte selects the
//! token, so one scan finds the longest one.

ghost use Rattle.std.specs.Prelude.{◌<◌, ◌≤◌, IfOk, length};
ghost use Rattle.pattern_lexer.specs.Reading.{ReadsTokens};
ghost use Rattle.pattern_lexer.specs.inner.Steps.{ArePassed, ReadsAt};

use crate::first::first_of;
use crate::refusals::{has_value, invalid_value, left_word, runs_on};
use crate::runs::{CharacterClass, split_run};
use crate::{Token, TokenRefusal};
use flow_values::{Items, NoMemory};
use std::alloc::Global;

/// Tokenizes a pattern by longest match, from the left. The inner error is the first refusal.
/// Linear in the length of the text.
pub fn tokens(alloc: Global, text: &str) -> Result<Result<Items<Token>, TokenRefusal>, NoMemory>
    ensures { IfOk result (ReadsTokens text.now) }
{
    let mut tokens = Items::new(alloc);
    let mut at = past_blanks(text, 0);
    while at < text.len() {
        match token_at(alloc, text, at)? {
            Ok(token) => {
                tokens.push(token)?;
                at = past_blanks(text, token.to);
            }
            Err(refusal) => return Ok(Err(refusal)),
        }
    }
    Ok(Ok(tokens))
}

/// The offset after the white space at an offset.
fn past_blanks(text: &str, at: usize) -> usize
    requires { at ≤ length text.now }
    ensures { ArePassed text.now at result }
{
    let (_blanks, rest) = split_run(&text.as_bytes()[at..], CharacterClass::Blank);
    text.len() - rest.len()
}

/// The token at an offset, or its refusal.
fn token_at(alloc: Global, text: &str, at: usize) -> Result<Result<Token, TokenRefusal>, NoMemory>
    requires { at < length text.now }
    ensures { IfOk result (ReadsAt text.now at) }
{
    let bytes = text.as_bytes();
    let Some(first) = first_of(&bytes[at..]) else {
        return Ok(Err(TokenRefusal::BadToken { at }));
    };
    let to = bytes.len() - first.after.len();
    if runs_on(first.kind, first.after) {
        return Ok(Err(TokenRefusal::BadToken { at }));
    }
    if let Some(word) = left_word(first.kind, &bytes[at..to], first.after) {
        return Ok(Err(TokenRefusal::LeftOut { at, word }));
    }
    let token = Token {
        kind: first.kind,
        from: at,
        to,
    };
    if !has_value(alloc, text, token)? {
        return Ok(Err(invalid_value(token.kind, at)));
    }
    Ok(Ok(token))
}
