//! A recursive-descent parser for comparison expressions, one function for each production.

ghost use Rattle.std.specs.Prelude.{IfOk, IfErr};
ghost use Rattle.pattern_grammar.specs.Grammar.{IsTest, IsCand, IsCor};
ghost use Rattle.pattern_grammar.specs.Tree.{compared, conjunction, operand, test};
ghost use Rattle.pattern_grammar.specs.inner.Machine.{expects_test, expects_cand, expects_cor};
ghost use Rattle.pattern_grammar.specs.inner.Machine.{Found, Refused, LacksTokenClass};
ghost use Rattle.pattern_grammar.specs.inner.Machine.{LacksTestWord, done};

use crate::make::make_group;
use crate::parse_check::check;
use crate::parse_path::path;
use crate::take::{add, eat};
use crate::{CheckTree, ComparisonTree, Conjunction, Operand, Stop, TestTree, TokenClass};
use flow_values::Items;
use pattern_lexer::{Token, TokenKind};
use std::alloc::Global;

/// `path [NOT] compare`
fn compared_test<'a>(
    alloc: Global,
    tokens: &'a [Token],
) -> Result<(TestTree, &'a [Token]), Stop<'a>>
    requires { LacksTestWord tokens.now }
    ensures ok { IfOk result (λ x. Found IsTest expects_test done tokens.now (test x.0) x.1.now) }
    ensures err { IfErr result (λ e. Refused IsTest expects_test tokens.now e) }
{
    let (path, rest) = path(alloc, tokens)?;
    let (negated, rest) = match eat(rest, TokenClass::Only(TokenKind::Not)) {
        Some((_, rest)) => (true, rest),
        None => (false, rest),
    };
    let (check, rest) = check(alloc, rest)?;
    Ok((
        TestTree {
            first: path.root,
            path,
            negated,
            check,
        },
        rest,
    ))
}

/// `[NOT] EXISTS path | path [NOT] compare`
fn plain_test<'a>(alloc: Global, tokens: &'a [Token]) -> Result<(TestTree, &'a [Token]), Stop<'a>>
    requires { LacksTokenClass (TokenClass.Only TokenKind.RoundOpen) tokens.now }
    ensures ok { IfOk result (λ x. Found IsTest expects_test done tokens.now (test x.0) x.1.now) }
    ensures err { IfErr result (λ e. Refused IsTest expects_test tokens.now e) }
{
    if let Some((first, rest)) = eat(tokens, TokenClass::Only(TokenKind::Exists)) {
        let (path, rest) = path(alloc, rest)?;
        return Ok((
            TestTree {
                first,
                path,
                negated: false,
                check: CheckTree::Exists,
            },
            rest,
        ));
    }
    if let Some((first, rest)) = eat(tokens, TokenClass::Only(TokenKind::Not)) {
        let Some((_, rest)) = eat(rest, TokenClass::Only(TokenKind::Exists)) else {
            return Err(Stop::Syntax(rest));
        };
        let (path, rest) = path(alloc, rest)?;
        return Ok((
            TestTree {
                first,
                path,
                negated: true,
                check: CheckTree::Exists,
            },
            rest,
        ));
    }
    compared_test(alloc, tokens)
}

/// `test = "(" cor ")" | [NOT] EXISTS path | path [NOT] compare`
#[cycle(comparison)]
fn test<'a>(alloc: Global, tokens: &'a [Token]) -> Result<(Operand, &'a [Token]), Stop<'a>>
    ensures ok { IfOk result
        (λ x. Found IsTest expects_test done tokens.now (operand x.0) x.1.now) }
    ensures err { IfErr result (λ e. Refused IsTest expects_test tokens.now e) }
{
    if let Some((open, inside)) = eat(tokens, TokenClass::Only(TokenKind::RoundOpen)) {
        let (tree, close) = cor(alloc, inside)?;
        let Some((_, rest)) = eat(close, TokenClass::Only(TokenKind::RoundClose)) else {
            drop(tree);
            return Err(Stop::Syntax(close));
        };
        let operand = make_group(alloc, open, tree)?;
        return Ok((operand, rest));
    }
    let (test, rest) = plain_test(alloc, tokens)?;
    Ok((Operand::Test(test), rest))
}

/// `cand = test { AND test }`
#[cycle(comparison)]
fn cand<'a>(alloc: Global, tokens: &'a [Token]) -> Result<(Conjunction, &'a [Token]), Stop<'a>>
    ensures ok { IfOk result
        (λ x. Found IsCand expects_cand done tokens.now (conjunction x.0) x.1.now) }
    ensures err { IfErr result (λ e. Refused IsCand expects_cand tokens.now e) }
{
    let (first, mut rest) = test(alloc, tokens)?;
    let mut others = Items::new(alloc);
    while let Some((_, after)) = eat(rest, TokenClass::Only(TokenKind::And)) {
        match add(&mut others, test(alloc, after)) {
            Ok(left) => rest = left,
            Err(stop) => {
                drop(first);
                return Err(stop);
            }
        }
    }
    Ok((Conjunction { first, others }, rest))
}

/// `cor = cand { OR cand }`
#[cycle(comparison)]
pub(crate) fn cor<'a>(
    alloc: Global,
    tokens: &'a [Token],
) -> Result<(ComparisonTree, &'a [Token]), Stop<'a>>
    ensures ok { IfOk result (λ x. Found IsCor expects_cor done tokens.now (compared x.0) x.1.now) }
    ensures err { IfErr result (λ e. Refused IsCor expects_cor tokens.now e) }
{
    let (first, mut rest) = cand(alloc, tokens)?;
    let mut others = Items::new(alloc);
    while let Some((_, after)) = eat(rest, TokenClass::Only(TokenKind::Or)) {
        match add(&mut others, cand(alloc, after)) {
            Ok(left) => rest = left,
            Err(stop) => {
                drop(first);
                return Err(stop);
            }
        }
    }
    Ok((ComparisonTree { first, others }, rest))
}
