ghost use Rattle.std.specs.Prelude.{IfOk, IfErr};
ghost use Rattle.pattern_grammar.specs.Grammar.{IsPath, IsStep};
ghost use Rattle.pattern_grammar.specs.inner.Machine.{expects_path, expects_step};
ghost use Rattle.pattern_grammar.specs.inner.Machine.{Found, Refused, done};

use crate::take::eat;
use crate::{PathTree, StepTree, Stop, TokenClass};
use flow_values::Items;
use pattern_lexer::{Token, TokenKind};
use std::alloc::Global;

/// `step = "." name | "[" ( Number | "*" ) "]"`
pub(crate) fn step<'a>(tokens: &'a [Token]) -> Result<(StepTree, &'a [Token]), Stop<'a>>
    ensures ok { IfOk result (λ x. Found IsStep expects_step done tokens.now x.0 x.1.now) }
    ensures err { IfErr result (λ e. Refused IsStep expects_step tokens.now e) }
{
    if let Some((_, rest)) = eat(tokens, TokenClass::Only(TokenKind::Dot)) {
        let Some((name, rest)) = eat(rest, TokenClass::Name) else {
            return Err(Stop::Syntax(rest));
        };
        return Ok((StepTree::Name(name), rest));
    }
    let Some((_, inside)) = eat(tokens, TokenClass::Only(TokenKind::SquareOpen)) else {
        return Err(Stop::Syntax(tokens));
    };
    let Some((index, close)) = eat(inside, TokenClass::Index) else {
        return Err(Stop::Syntax(inside));
    };
    let Some((_, rest)) = eat(close, TokenClass::Only(TokenKind::SquareClose)) else {
        return Err(Stop::Syntax(close));
    };
    Ok((StepTree::Index(index), rest))
}

/// `path = (Word | HyphenWord) ":" name { step }`
pub(crate) fn path<'a>(
    alloc: Global,
    tokens: &'a [Token],
) -> Result<(PathTree, &'a [Token]), Stop<'a>>
    ensures ok { IfOk result (λ x. Found IsPath expects_path done tokens.now x.0 x.1.now) }
    ensures err { IfErr result (λ e. Refused IsPath expects_path tokens.now e) }
{
    let Some((root, colon)) = eat(tokens, TokenClass::Root) else {
        return Err(Stop::Syntax(tokens));
    };
    let Some((_, first)) = eat(colon, TokenClass::Only(TokenKind::Colon)) else {
        return Err(Stop::Syntax(colon));
    };
    let Some((name, mut rest)) = eat(first, TokenClass::Name) else {
        return Err(Stop::Syntax(first));
    };
    let mut steps = Items::new(alloc);
    steps.push(StepTree::Name(name))?;
    while let Some(_) = eat(rest, TokenClass::Stepping) {
        let (next, after) = step(rest)?;
        steps.push(next)?;
        rest = after;
    }
    Ok((PathTree { root, steps }, rest))
}
