ghost use Rattle.std.specs.Prelude.{◌≡◌, IfOk};
ghost use Rattle.pattern_types.specs.BlockText.{IsBlockText};
ghost use Rattle.flow_values.specs.Answers.{FindsExactly};
ghost use Rattle.pattern_reader.specs.Meaning.{IsCheckOf, IsTestOf};
ghost use Rattle.pattern_types.specs.Soundness.{IsSoundTest};
ghost use Rattle.pattern_reader.specs.Refusals.{check_refusal, RefusalOfTest};
ghost use Rattle.pattern_reader.specs.inner.Analysis.{IsOutcome};

use crate::ValueRefusal;
use crate::constants::{constant_of, constants_of};
use crate::outcomes::both;
use crate::paths::path_of;
use flow_values::{NoMemory, Text};
use pattern_grammar::{CheckTree, TestTree};
use pattern_lexer::{Token, TokenKind, one_meaning, string_at};
use pattern_types::block_laws::valid_block;
use pattern_types::{AddressBlock, Check, Test, read_block};
use std::alloc::Global;

/// A comparison with a constant.
fn comparison_of(
    alloc: Global,
    text: &str,
    operator: Token,
    token: Token,
) -> Result<Option<Check>, NoMemory>
    ensures { IfOk result (FindsExactly (IsCheckOf text.now (CheckTree.Compare operator token))) }
{
    let Some(value) = constant_of(alloc, text, token)? else {
        return Ok(None);
    };
    match operator.kind {
        TokenKind::Equal => Ok(Some(Check::Equal(value))),
        TokenKind::Differ => Ok(Some(Check::Differ(value))),
        TokenKind::Less => Ok(Some(Check::Less(value))),
        TokenKind::LessEqual => Ok(Some(Check::LessEqual(value))),
        TokenKind::Greater => Ok(Some(Check::Greater(value))),
        TokenKind::GreaterEqual => Ok(Some(Check::GreaterEqual(value))),
        _ => Ok(None),
    }
}

/// The address block of a text.
fn address_of(text: Text) -> Option<AddressBlock>
    ensures { FindsExactly (λ address. (address.text ≡ text)
        × IsBlockText address.text address.block) result }
{
    let Some(block) = read_block(text.as_str()) else {
        return None;
    };
    Some(AddressBlock { text, block })
}

/// A comparison with a string, or with the address block in it.
fn textual_of(
    alloc: Global,
    text: &str,
    operator: Token,
    token: Token,
) -> Result<Option<Check>, NoMemory>
    ensures { IfOk result (FindsExactly (IsCheckOf text.now (CheckTree.Textual operator token))) }
{
    one_meaning();
    let Some(words) = string_at(alloc, text, token)? else {
        return Ok(None);
    };
    match operator.kind {
        TokenKind::Like => Ok(Some(Check::Like(words))),
        TokenKind::Subset => match address_of(words) {
            Some(address) => Ok(Some(Check::Subset(address))),
            None => Ok(None),
        },
        TokenKind::Superset => match address_of(words) {
            Some(address) => Ok(Some(Check::Superset(address))),
            None => Ok(None),
        },
        _ => Ok(None),
    }
}

/// The test of a value that a syntax tree means.
fn check_of(alloc: Global, text: &str, check: &CheckTree) -> Result<Option<Check>, NoMemory>
    ensures { IfOk result (FindsExactly (IsCheckOf text.now check.now)) }
{
    match check {
        CheckTree::Compare { operator, constant } => {
            comparison_of(alloc, text, *operator, *constant)
        }
        CheckTree::Textual { operator, words } => textual_of(alloc, text, *operator, *words),
        CheckTree::Among(tokens) => match constants_of(alloc, text, tokens.as_slice())? {
            Some(values) => Ok(Some(Check::Among(values))),
            None => Ok(None),
        },
        CheckTree::Exists => Ok(Some(Check::Exists)),
    }
}

/// The refusal of a test without a meaning.
fn refusal_of(check: &CheckTree) -> ValueRefusal
    ensures { result ≡ check_refusal check.now }
{
    match check {
        CheckTree::Compare { constant, .. } => ValueRefusal::NoValue { at: constant.from },
        CheckTree::Textual { operator, words } => match operator.kind {
            TokenKind::Subset | TokenKind::Superset => ValueRefusal::BadAddress { at: words.from },
            _ => ValueRefusal::NoValue { at: words.from },
        },
        CheckTree::Among(constants) => match constants.as_slice() {
            [first, ..] => ValueRefusal::NoValue { at: first.from },
            [] => ValueRefusal::NoValue { at: 0 },
        },
        CheckTree::Exists => ValueRefusal::NoValue { at: 0 },
    }
}

/// The test that a syntax tree means. `LongPath` if the path has too many steps.
pub(crate) fn test_of(
    alloc: Global,
    text: &str,
    tree: &TestTree,
) -> Result<Result<Test, ValueRefusal>, NoMemory>
    ensures { IfOk result (IsOutcome (λ test. IsTestOf text.now tree.now test × IsSoundTest test)
        (RefusalOfTest text.now tree.now)) }
{
    valid_block();
    let path = path_of(alloc, text, &tree.path)?;
    let check = check_of(alloc, text, &tree.check)?.ok_or(refusal_of(&tree.check));
    match both(path, check) {
        Ok((path, check)) => Ok(Ok(Test {
            path,
            negated: tree.negated,
            check,
        })),
        Err(refusal) => Ok(Err(refusal)),
    }
}
