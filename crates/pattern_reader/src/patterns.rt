ghost use Rattle.std.specs.Prelude.{ℕ, List, map, IfOk, Some, IfSome};
ghost use Rattle.pattern_grammar.specs.Tree.{Tree, compared, leaf, left_fold, shape, qualified};
ghost use Rattle.pattern_reader.specs.Answer.{AnswersMeaning};
ghost use Rattle.pattern_reader.specs.inner.NarrowPattern.{tree_by};
ghost use Rattle.pattern_reader.specs.Refusals.{IsSoundLimitOf};
ghost use Rattle.pattern_grammar.specs.declared.qualifier.Qualifier.{Qualifier};
ghost use Rattle.pattern_reader.specs.inner.NarrowPattern.{IsNarrow, IsNarrowPart};
ghost use Rattle.pattern_reader.specs.inner.NarrowPattern.{IsNarrowPatternOf};
ghost use Rattle.pattern_reader.specs.inner.NarrowPattern.{IsPartOutcome};

use crate::analysis::{Analysis, analyze};
use crate::limits::{limit_of, limit_refusal};
use crate::narrow_pattern::{NarrowPattern, Operator};
use crate::outcomes::both;
use crate::{Meaning, ValueRefusal};
use flow_values::NoMemory;
use pattern_grammar::{ComparisonTree, PatternTree, Qualifier};
use pattern_types::Limit;
use std::alloc::Global;

/// Joins a pattern and an operand. `None` if the operand or the result is too wide.
fn join_narrow(
    alloc: Global,
    operator: Operator,
    left: NarrowPattern,
    right: Option<NarrowPattern>,
) -> Result<Option<NarrowPattern>, NoMemory>
    requires left { IsNarrow left }
    requires right { IfSome right IsNarrow }
    ensures narrow { IfOk result (λ whole. IfSome whole IsNarrow) }
    ensures part { IfOk result (λ whole. (text : List ℕ) (p q : Tree)
        → IsNarrowPatternOf text p (Some left)
        → IsNarrowPatternOf text q right
        → IsNarrowPatternOf text (tree_by operator p q) whole) }
{
    match right {
        Some(right) => NarrowPattern::joined(alloc, operator, left, right),
        None => {
            drop(left);
            Ok(None)
        }
    }
}

/// Joins two operands. `None` if one of them or the result is too wide.
fn join(
    alloc: Global,
    operator: Operator,
    left: Option<NarrowPattern>,
    right: Option<NarrowPattern>,
) -> Result<Option<NarrowPattern>, NoMemory>
    requires left { IfSome left IsNarrow }
    requires right { IfSome right IsNarrow }
    ensures narrow { IfOk result (λ whole. IfSome whole IsNarrow) }
    ensures part { IfOk result (λ whole. (text : List ℕ) (p q : Tree)
        → IsNarrowPatternOf text p left
        → IsNarrowPatternOf text q right
        → IsNarrowPatternOf text (tree_by operator p q) whole) }
{
    match left {
        Some(left) => join_narrow(alloc, operator, left, right),
        None => {
            drop(right);
            Ok(None)
        }
    }
}

/// Joins two operands, or returns the first refusal.
fn join_parts(
    alloc: Global,
    operator: Operator,
    left: Result<Option<NarrowPattern>, ValueRefusal>,
    right: Result<Option<NarrowPattern>, ValueRefusal>,
) -> Result<Result<Option<NarrowPattern>, ValueRefusal>, NoMemory>
    requires left { IsNarrowPart left }
    requires right { IsNarrowPart right }
    ensures narrow { IfOk result IsNarrowPart }
    ensures part { IfOk result (λ whole. (text : List ℕ) (p q : Tree) → IsPartOutcome text p left
        → IsPartOutcome text q right
        → IsPartOutcome text (tree_by operator p q) whole) }
{
    match both(left, right) {
        Ok((left, right)) => {
            let whole = join(alloc, operator, left, right)?;
            Ok(Ok(whole))
        }
        Err(refusal) => Ok(Err(refusal)),
    }
}

/// Limits an operand by a qualifier. `None` if it or the result is too wide.
fn limit(
    alloc: Global,
    part: Option<NarrowPattern>,
    limit: Limit,
) -> Result<Option<NarrowPattern>, NoMemory>
    requires { IfSome part IsNarrow }
    ensures narrow { IfOk result (λ whole. IfSome whole IsNarrow) }
    ensures part { IfOk result (λ whole. (text : List ℕ) (p : Tree) (q : Qualifier)
        → IsNarrowPatternOf text p part → IsSoundLimitOf text q limit
        → IsNarrowPatternOf text (qualified p q) whole) }
{
    match part {
        Some(part) => NarrowPattern::limited(alloc, part, limit),
        None => Ok(None),
    }
}

/// Limits an operand by the meaning of a qualifier, or returns the first refusal.
fn limit_part(
    alloc: Global,
    text: &str,
    part: Result<Option<NarrowPattern>, ValueRefusal>,
    qualifier: Qualifier,
) -> Result<Result<Option<NarrowPattern>, ValueRefusal>, NoMemory>
    requires { IsNarrowPart part }
    ensures narrow { IfOk result IsNarrowPart }
    ensures part { IfOk result (λ whole. (p : Tree) → IsPartOutcome text.now p part
        → IsPartOutcome text.now (qualified p qualifier) whole) }
{
    let found = limit_of(text, qualifier).ok_or(limit_refusal(qualifier));
    match both(part, found) {
        Ok((part, found)) => {
            let whole = limit(alloc, part, found)?;
            Ok(Ok(whole))
        }
        Err(refusal) => Ok(Err(refusal)),
    }
}

/// The meaning of the comparison expression in a pair of brackets.
fn leaf_part(
    alloc: Global,
    text: &str,
    tree: &ComparisonTree,
) -> Result<Result<Option<NarrowPattern>, ValueRefusal>, NoMemory>
    ensures narrow { IfOk result IsNarrowPart }
    ensures part { IfOk result (IsPartOutcome text.now (leaf (compared tree.now))) }
{
    let Analysis { leaf, .. } = analyze(alloc, text, tree)?;
    match leaf {
        Ok(leaf) => Ok(Ok(Some(NarrowPattern::leaf(leaf)))),
        Err(refusal) => Ok(Err(refusal)),
    }
}

/// The meaning of a chain of one operator, given that of its first operand.
#[cycle(patterns)]
fn chain_of(
    alloc: Global,
    text: &str,
    operator: Operator,
    first: Result<Option<NarrowPattern>, ValueRefusal>,
    others: &[PatternTree],
) -> Result<Result<Option<NarrowPattern>, ValueRefusal>, NoMemory>
    requires { IsNarrowPart first }
    ensures narrow { IfOk result IsNarrowPart }
    ensures part { IfOk result (λ part. (p : Tree) → IsPartOutcome text.now p first
        → IsPartOutcome text.now (left_fold (tree_by operator) p (map shape others.now)) part) }
{
    let mut whole = first;
    for other in others {
        let Ok(next) = part_of(alloc, text, other) else {
            drop(whole);
            return Err(NoMemory);
        };
        whole = join_parts(alloc, operator, whole, next)?;
    }
    Ok(whole)
}

/// The meaning of a node of the syntax tree.
#[cycle(patterns)]
fn part_of(
    alloc: Global,
    text: &str,
    tree: &PatternTree,
) -> Result<Result<Option<NarrowPattern>, ValueRefusal>, NoMemory>
    ensures narrow { IfOk result IsNarrowPart }
    ensures part { IfOk result (IsPartOutcome text.now (shape tree.now)) }
{
    match tree {
        PatternTree::Leaf(inside) => leaf_part(alloc, text, inside),
        PatternTree::Both(first, others) => {
            let first = part_of(alloc, text, first)?;
            chain_of(alloc, text, Operator::Both, first, others.as_slice())
        }
        PatternTree::Either(first, others) => {
            let first = part_of(alloc, text, first)?;
            chain_of(alloc, text, Operator::Either, first, others.as_slice())
        }
        PatternTree::Then(first, others) => {
            let first = part_of(alloc, text, first)?;
            chain_of(alloc, text, Operator::Then, first, others.as_slice())
        }
        PatternTree::Qualified(inside, qualifier) => {
            let part = part_of(alloc, text, inside)?;
            limit_part(alloc, text, part, *qualifier)
        }
    }
}

/// The meaning of a syntax tree over its text: the pattern, or `TooWide`, or the first refused
/// value by its byte offset. Linear in the number of nodes, but for the sets of object types.
/// `NoMemory` is the only error.
pub fn meaning_of(alloc: Global, text: &str, tree: &PatternTree) -> Result<Meaning, NoMemory>
    ensures { IfOk result (AnswersMeaning text.now (shape tree.now)) }
{
    match part_of(alloc, text, tree)? {
        Ok(Some(narrow)) => Ok(Meaning::Sound(narrow.pattern)),
        Ok(None) => Ok(Meaning::TooWide),
        Err(refusal) => Ok(Meaning::Refused(refusal)),
    }
}
