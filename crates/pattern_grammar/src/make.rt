ghost use Rattle.std.specs.Prelude.{◌≡◌, map, IfOk};
ghost use Rattle.pattern_grammar.specs.Tree.{left_fold, compared, operand, group, shape, both};
ghost use Rattle.pattern_grammar.specs.Tree.{either};
ghost use Rattle.pattern_grammar.specs.Tree.{followed, qualified};

use crate::{ComparisonTree, Operand, PatternTree, Qualifier};
use flow_values::{Items, NoMemory};
use pattern_lexer::Token;
use std::alloc::Global;

/// A comparison in parentheses.
pub(crate) fn make_group(
    alloc: Global,
    round: Token,
    inside: ComparisonTree,
) -> Result<Operand, NoMemory>
    ensures { IfOk result (λ c. operand c ≡ group round (compared inside)) }
{
    Ok(Operand::Group(round, Box::new(alloc, inside)?))
}

/// Patterns joined by `AND`.
pub(crate) fn make_both(
    alloc: Global,
    first: PatternTree,
    others: Items<PatternTree>,
) -> Result<PatternTree, NoMemory>
    ensures { IfOk result (λ p. shape p ≡ left_fold both (shape first) (map shape others)) }
{
    if others.is_empty() {
        return Ok(first);
    }
    Ok(PatternTree::Both(Box::new(alloc, first)?, others))
}

/// Patterns joined by `OR`.
pub(crate) fn make_either(
    alloc: Global,
    first: PatternTree,
    others: Items<PatternTree>,
) -> Result<PatternTree, NoMemory>
    ensures { IfOk result (λ p. shape p ≡ left_fold either (shape first) (map shape others)) }
{
    if others.is_empty() {
        return Ok(first);
    }
    Ok(PatternTree::Either(Box::new(alloc, first)?, others))
}

/// Patterns joined by `FOLLOWEDBY`.
pub(crate) fn make_then(
    alloc: Global,
    first: PatternTree,
    others: Items<PatternTree>,
) -> Result<PatternTree, NoMemory>
    ensures { IfOk result (λ p. shape p ≡ left_fold followed (shape first) (map shape others)) }
{
    if others.is_empty() {
        return Ok(first);
    }
    Ok(PatternTree::Then(Box::new(alloc, first)?, others))
}

/// A pattern with a qualifier.
pub(crate) fn make_qualified(
    alloc: Global,
    pattern: PatternTree,
    qualifier: Qualifier,
) -> Result<PatternTree, NoMemory>
    ensures { IfOk result (λ p. shape p ≡ qualified (shape pattern) qualifier) }
{
    Ok(PatternTree::Qualified(Box::new(alloc, pattern)?, qualifier))
}
