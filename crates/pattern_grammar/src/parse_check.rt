ghost use Rattle.std.specs.Prelude.{IfOk, IfErr};
ghost use Rattle.pattern_grammar.specs.Grammar.{IsCheck, AreConstants};
ghost use Rattle.pattern_grammar.specs.inner.Machine.{expects_check, expects_constants};
ghost use Rattle.pattern_grammar.specs.inner.Machine.{LacksOperator, Found, Refused, done};

use crate::take::eat;
use crate::{CheckTree, Stop, TokenClass};
use flow_values::Items;
use pattern_lexer::{Token, TokenKind};
use std::alloc::Global;

/// `constant { "," constant }`
fn constants<'a>(
    alloc: Global,
    tokens: &'a [Token],
) -> Result<(Items<Token>, &'a [Token]), Stop<'a>>
    ensures ok { IfOk result
        (λ x. Found AreConstants expects_constants done tokens.now x.0 x.1.now) }
    ensures err { IfErr result (λ e. Refused AreConstants expects_constants tokens.now e) }
{
    let Some((first, mut rest)) = eat(tokens, TokenClass::Constant) else {
        return Err(Stop::Syntax(tokens));
    };
    let mut constants = Items::new(alloc);
    constants.push(first)?;
    while let Some((_, after)) = eat(rest, TokenClass::Only(TokenKind::Comma)) {
        let Some((constant, next)) = eat(after, TokenClass::Constant) else {
            return Err(Stop::Syntax(after));
        };
        constants.push(constant)?;
        rest = next;
    }
    Ok((constants, rest))
}

/// `IN "(" constant { "," constant } ")"`
fn among<'a>(alloc: Global, tokens: &'a [Token]) -> Result<(CheckTree, &'a [Token]), Stop<'a>>
    requires { LacksOperator tokens.now }
    ensures ok { IfOk result (λ x. Found IsCheck expects_check done tokens.now x.0 x.1.now) }
    ensures err { IfErr result (λ e. Refused IsCheck expects_check tokens.now e) }
{
    let Some((_, open)) = eat(tokens, TokenClass::Only(TokenKind::Among)) else {
        return Err(Stop::Syntax(tokens));
    };
    let Some((_, inside)) = eat(open, TokenClass::Only(TokenKind::RoundOpen)) else {
        return Err(Stop::Syntax(open));
    };
    let (constants, close) = constants(alloc, inside)?;
    let Some((_, rest)) = eat(close, TokenClass::Only(TokenKind::RoundClose)) else {
        return Err(Stop::Syntax(close));
    };
    Ok((CheckTree::Among(constants), rest))
}

/// `compare = ("=" | "!=") constant | ("<" | "<=" | ">" | ">=") ordered | IN .. | LIKE String | ..`
pub(crate) fn check<'a>(
    alloc: Global,
    tokens: &'a [Token],
) -> Result<(CheckTree, &'a [Token]), Stop<'a>>
    ensures ok { IfOk result (λ x. Found IsCheck expects_check done tokens.now x.0 x.1.now) }
    ensures err { IfErr result (λ e. Refused IsCheck expects_check tokens.now e) }
{
    if let Some((operator, rest)) = eat(tokens, TokenClass::Equality) {
        let Some((constant, rest)) = eat(rest, TokenClass::Constant) else {
            return Err(Stop::Syntax(rest));
        };
        return Ok((CheckTree::Compare { operator, constant }, rest));
    }
    if let Some((operator, rest)) = eat(tokens, TokenClass::Order) {
        let Some((constant, rest)) = eat(rest, TokenClass::Ordered) else {
            return Err(Stop::Syntax(rest));
        };
        return Ok((CheckTree::Compare { operator, constant }, rest));
    }
    if let Some((operator, rest)) = eat(tokens, TokenClass::Textual) {
        let Some((words, rest)) = eat(rest, TokenClass::Only(TokenKind::String)) else {
            return Err(Stop::Syntax(rest));
        };
        return Ok((CheckTree::Textual { operator, words }, rest));
    }
    among(alloc, tokens)
}
