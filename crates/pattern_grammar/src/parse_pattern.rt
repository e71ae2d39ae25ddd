//! A recursive-descent parser for the productions of observation expressions, one function for
//! each. The grammar is LL(1): the next token decides the alternative, so the parser never
//! backtracks, and its error is at the end of the longest viable prefix.

ghost use Rattle.std.specs.Prelude.{List, IfOk, IfErr};
ghost use Rattle.pattern_grammar.specs.Grammar.{IsPattern, IsOrs, IsAnds, IsUnit, IsStart};
ghost use Rattle.pattern_grammar.specs.Grammar.{IsQualifier};
ghost use Rattle.pattern_grammar.specs.Tree.{Tree, shape};
ghost use Rattle.pattern_grammar.specs.Answer.{SyntaxError};
ghost use Rattle.pattern_grammar.specs.Depth.{IsShallow};
ghost use Rattle.pattern_grammar.specs.inner.Machine.{expects_pattern, expects_ors, expects_ands};
ghost use Rattle.pattern_grammar.specs.inner.Machine.{expects_unit, expects_start};
ghost use Rattle.pattern_grammar.specs.inner.Machine.{expects_qualifier};
ghost use Rattle.pattern_grammar.specs.inner.Machine.{Found, Refused, LacksTokenClass, done};

use crate::make::{make_both, make_either, make_qualified, make_then};
use crate::parse_comparison::cor;
use crate::take::{add, eat};
use crate::{PatternTree, Qualifier, Stop, TokenClass};
use flow_values::Items;
use pattern_lexer::{Token, TokenKind};
use std::alloc::Global;

/// `qualifier = WITHIN Number SECONDS | REPEATS Number TIMES | START Timestamp STOP Timestamp`
fn qualifier<'a>(tokens: &'a [Token]) -> Result<(Qualifier, &'a [Token]), Stop<'a>>
    ensures ok { IfOk result
        (λ x. Found IsQualifier expects_qualifier done tokens.now x.0 x.1.now) }
    ensures err { IfErr result (λ e. Refused IsQualifier expects_qualifier tokens.now e) }
{
    if let Some((_, rest)) = eat(tokens, TokenClass::Only(TokenKind::Within)) {
        let Some((number, rest)) = eat(rest, TokenClass::Only(TokenKind::Number)) else {
            return Err(Stop::Syntax(rest));
        };
        let Some((_, rest)) = eat(rest, TokenClass::Only(TokenKind::Seconds)) else {
            return Err(Stop::Syntax(rest));
        };
        return Ok((Qualifier::Within(number), rest));
    }
    if let Some((_, rest)) = eat(tokens, TokenClass::Only(TokenKind::Repeats)) {
        let Some((number, rest)) = eat(rest, TokenClass::Only(TokenKind::Number)) else {
            return Err(Stop::Syntax(rest));
        };
        let Some((_, rest)) = eat(rest, TokenClass::Only(TokenKind::Times)) else {
            return Err(Stop::Syntax(rest));
        };
        return Ok((Qualifier::Repeats(number), rest));
    }
    let Some((start, rest)) = eat(tokens, TokenClass::Only(TokenKind::Start)) else {
        return Err(Stop::Syntax(tokens));
    };
    let Some((from, rest)) = eat(rest, TokenClass::Only(TokenKind::Timestamp)) else {
        return Err(Stop::Syntax(rest));
    };
    let Some((_, rest)) = eat(rest, TokenClass::Only(TokenKind::Stop)) else {
        return Err(Stop::Syntax(rest));
    };
    let Some((to, rest)) = eat(rest, TokenClass::Only(TokenKind::Timestamp)) else {
        return Err(Stop::Syntax(rest));
    };
    Ok((Qualifier::Between { start, from, to }, rest))
}

/// `"[" cor "]"`
fn leaf<'a>(alloc: Global, tokens: &'a [Token]) -> Result<(PatternTree, &'a [Token]), Stop<'a>>
    requires { LacksTokenClass (TokenClass.Only TokenKind.RoundOpen) tokens.now }
    ensures ok { IfOk result
        (λ x. Found IsStart expects_start done tokens.now (shape x.0) x.1.now) }
    ensures err { IfErr result (λ e. Refused IsStart expects_start tokens.now e) }
{
    let Some((_, inside)) = eat(tokens, TokenClass::Only(TokenKind::SquareOpen)) else {
        return Err(Stop::Syntax(tokens));
    };
    let (tree, close) = cor(alloc, inside)?;
    let Some((_, rest)) = eat(close, TokenClass::Only(TokenKind::SquareClose)) else {
        drop(tree);
        return Err(Stop::Syntax(close));
    };
    Ok((PatternTree::Leaf(tree), rest))
}

/// `"[" cor "]" | "(" pattern ")"`
#[cycle(pattern)]
fn start<'a>(alloc: Global, tokens: &'a [Token]) -> Result<(PatternTree, &'a [Token]), Stop<'a>>
    ensures ok { IfOk result
        (λ x. Found IsStart expects_start done tokens.now (shape x.0) x.1.now) }
    ensures err { IfErr result (λ e. Refused IsStart expects_start tokens.now e) }
{
    if let Some((_, inside)) = eat(tokens, TokenClass::Only(TokenKind::RoundOpen)) {
        let (tree, close) = whole(alloc, inside)?;
        let Some((_, rest)) = eat(close, TokenClass::Only(TokenKind::RoundClose)) else {
            drop(tree);
            return Err(Stop::Syntax(close));
        };
        return Ok((tree, rest));
    }
    leaf(alloc, tokens)
}

/// `unit = ( "[" cor "]" | "(" pattern ")" ) { qualifier }`
#[cycle(pattern)]
fn unit<'a>(alloc: Global, tokens: &'a [Token]) -> Result<(PatternTree, &'a [Token]), Stop<'a>>
    ensures ok { IfOk result (λ x. Found IsUnit expects_unit done tokens.now (shape x.0) x.1.now) }
    ensures err { IfErr result (λ e. Refused IsUnit expects_unit tokens.now e) }
{
    let (mut tree, mut rest) = start(alloc, tokens)?;
    while let Some(_) = eat(rest, TokenClass::Qualifying) {
        match qualifier(rest) {
            Ok((limit, next)) => {
                tree = make_qualified(alloc, tree, limit)?;
                rest = next;
            }
            Err(stop) => {
                drop(tree);
                return Err(stop);
            }
        }
    }
    Ok((tree, rest))
}

/// `ands = unit { AND unit }`
#[cycle(pattern)]
fn ands<'a>(alloc: Global, tokens: &'a [Token]) -> Result<(PatternTree, &'a [Token]), Stop<'a>>
    ensures ok { IfOk result (λ x. Found IsAnds expects_ands done tokens.now (shape x.0) x.1.now) }
    ensures err { IfErr result (λ e. Refused IsAnds expects_ands tokens.now e) }
{
    let (first, mut rest) = unit(alloc, tokens)?;
    let mut others = Items::new(alloc);
    while let Some((_, after)) = eat(rest, TokenClass::Only(TokenKind::And)) {
        match add(&mut others, unit(alloc, after)) {
            Ok(left) => rest = left,
            Err(stop) => {
                drop(first);
                return Err(stop);
            }
        }
    }
    let tree = make_both(alloc, first, others)?;
    Ok((tree, rest))
}

/// `ors = ands { OR ands }`
#[cycle(pattern)]
fn ors<'a>(alloc: Global, tokens: &'a [Token]) -> Result<(PatternTree, &'a [Token]), Stop<'a>>
    ensures ok { IfOk result (λ x. Found IsOrs expects_ors done tokens.now (shape x.0) x.1.now) }
    ensures err { IfErr result (λ e. Refused IsOrs expects_ors tokens.now e) }
{
    let (first, mut rest) = ands(alloc, tokens)?;
    let mut others = Items::new(alloc);
    while let Some((_, after)) = eat(rest, TokenClass::Only(TokenKind::Or)) {
        match add(&mut others, ands(alloc, after)) {
            Ok(left) => rest = left,
            Err(stop) => {
                drop(first);
                return Err(stop);
            }
        }
    }
    let tree = make_either(alloc, first, others)?;
    Ok((tree, rest))
}

/// `pattern = ors { FOLLOWEDBY ors }`
#[cycle(pattern)]
fn whole<'a>(alloc: Global, tokens: &'a [Token]) -> Result<(PatternTree, &'a [Token]), Stop<'a>>
    ensures ok { IfOk result
        (λ x. Found IsPattern expects_pattern done tokens.now (shape x.0) x.1.now) }
    ensures err { IfErr result (λ e. Refused IsPattern expects_pattern tokens.now e) }
{
    let (first, mut rest) = ors(alloc, tokens)?;
    let mut others = Items::new(alloc);
    while let Some((_, after)) = eat(rest, TokenClass::Only(TokenKind::FollowedBy)) {
        match add(&mut others, ors(alloc, after)) {
            Ok(left) => rest = left,
            Err(stop) => {
                drop(first);
                return Err(stop);
            }
        }
    }
    let tree = make_then(alloc, first, others)?;
    Ok((tree, rest))
}

/// The syntax tree of all of the tokens, or the first token that doesn't fit. Only the last token
/// may exceed a limit of `depth`, so the limits bound the recursion.
pub fn parse<'a>(alloc: Global, tokens: &'a [Token]) -> Result<PatternTree, Stop<'a>>
    // Bounds the depth of the recursion, and so the stack.
    requires { IsShallow tokens.now }
    ensures ok { IfOk result (λ p. IsPattern tokens.now (shape p)) }
    ensures err { IfErr result (λ e. SyntaxError tokens.now e) }
{
    let (tree, rest) = whole(alloc, tokens)?;
    if !rest.is_empty() {
        drop(tree);
        return Err(Stop::Syntax(rest));
    }
    Ok(tree)
}
