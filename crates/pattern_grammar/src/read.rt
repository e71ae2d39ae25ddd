ghost use Rattle.std.specs.Prelude.{◌≡◌, ◌<◌, ℕ, length, IfOk};
ghost use Rattle.pattern_grammar.specs.Answer.{offset, IsMisread, AnswersTree};
ghost use Rattle.pattern_grammar.specs.inner.Machine.{IsFirstAt};

use crate::depth::first_too_many;
use crate::{PatternTree, Stop, SyntaxRefusal, parse};
use flow_values::NoMemory;
use pattern_lexer::Token;
use std::alloc::Global;

/// The syntax tree of the tokens of a text of length `end`. `Syntax` or `TooDeep` with a byte
/// offset, whichever comes first in the text.
pub fn read_tree(
    alloc: Global,
    tokens: &[Token],
    end: usize,
) -> Result<Result<PatternTree, SyntaxRefusal>, NoMemory>
    ensures { IfOk result (AnswersTree tokens.now end) }
{
    if let Some(before) = first_too_many(tokens) {
        let refusal = refusal_through(alloc, tokens, before)?;
        return Ok(Err(refusal));
    }
    match parse(alloc, tokens) {
        Ok(tree) => Ok(Ok(tree)),
        Err(Stop::Memory) => Err(NoMemory),
        Err(Stop::Syntax(rest)) => {
            let at = start_of(rest, end);
            Ok(Err(SyntaxRefusal::Syntax { at }))
        }
    }
}

/// The refusal of tokens of which one exceeds a limit.
fn refusal_through(
    alloc: Global,
    tokens: &[Token],
    before: usize,
) -> Result<SyntaxRefusal, NoMemory>
    requires within { before < length tokens.now }
    requires deep { IsFirstAt tokens.now before }
    ensures { IfOk result (λ refusal. (end : ℕ) → IsMisread tokens.now end refusal) }
{
    match parse(alloc, &tokens[..before + 1]) {
        Err(Stop::Memory) => return Err(NoMemory),
        Err(Stop::Syntax([first, ..])) => {
            return Ok(SyntaxRefusal::Syntax { at: first.from });
        }
        Err(Stop::Syntax([])) => {
            return Ok(SyntaxRefusal::TooDeep {
                at: tokens[before].from,
            });
        }
        // A whole pattern is a viable prefix too.
        Ok(tree) => {
            drop(tree);
            return Ok(SyntaxRefusal::TooDeep {
                at: tokens[before].from,
            });
        }
    }
}

/// The byte offset of the first of these tokens in a text of this length.
fn start_of(tokens: &[Token], end: usize) -> usize
    ensures { result ≡ offset tokens.now end }
{
    match tokens {
        [first, ..] => first.from,
        [] => end,
    }
}
