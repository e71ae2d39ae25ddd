//! The width of a pattern, computed bottom-up. A part past a limit becomes `None` at once, so no
//! number overflows.

ghost use Rattle.std.specs.Prelude.{◌≡◌, IfOk};
ghost use Rattle.std.specs.Box.{box_value};
ghost use Rattle.pattern_types.specs.PlainLeaf.{plain_leaf};
ghost use Rattle.pattern_types.specs.PlainPattern.{plain_pattern, a_leaf, a_limited};
ghost use Rattle.pattern_types.specs.Width.{pattern_width as width_of, brackets as brackets_of};
ghost use Rattle.pattern_reader.specs.inner.NarrowPattern.{meant_by};
ghost use Rattle.pattern_reader.specs.inner.NarrowPattern.{IsNarrow, UnlessTooWide};

use flow_values::NoMemory;
use pattern_types::{Leaf, Limit, MAX_BRACKETS, MAX_WIDTH, Pattern};
use std::alloc::Global;

/// An observation operator.
#[derive(Clone, Copy)]
pub(crate) enum Operator {
    Both,
    Either,
    Then,
}

/// A pattern within the limits, with its width and its number of pairs of brackets.
#[derive(Drop)]
pub(crate) struct NarrowPattern {
    pub(crate) pattern: Pattern,
    pub(crate) width: u64,
    pub(crate) brackets: u64,
}

impl NarrowPattern {
    /// The pattern with this width and number of brackets, or `None` past a limit.
    fn within(pattern: Pattern, width: u64, brackets: u64) -> Option<NarrowPattern>
        requires width { width ≡ width_of (plain_pattern pattern) }
        requires brackets { brackets ≡ brackets_of (plain_pattern pattern) }
        ensures { UnlessTooWide (plain_pattern pattern) result }
    {
        if width > u64::from(MAX_WIDTH) || brackets > u64::from(MAX_BRACKETS) {
            drop(pattern);
            return None;
        }
        Some(NarrowPattern {
            pattern,
            width,
            brackets,
        })
    }

    /// A pattern of one leaf.
    pub(crate) fn leaf(leaf: Leaf) -> NarrowPattern
        ensures pattern { plain_pattern result.pattern ≡ a_leaf (plain_leaf leaf) }
        ensures narrow { IsNarrow result }
    {
        NarrowPattern {
            pattern: Pattern::Leaf(leaf),
            width: 1,
            brackets: 1,
        }
    }

    /// Two patterns, joined by an operator, or `None` past a limit.
    pub(crate) fn joined(
        alloc: Global,
        operator: Operator,
        left: NarrowPattern,
        right: NarrowPattern,
    ) -> Result<Option<NarrowPattern>, NoMemory>
        requires left { IsNarrow left }
        requires right { IsNarrow right }
        ensures { IfOk result (UnlessTooWide
            (meant_by operator (plain_pattern left.pattern) (plain_pattern right.pattern))) }
    {
        let width = match operator {
            Operator::Both | Operator::Then => left.width + right.width,
            Operator::Either => left.width.max(right.width),
        };
        let brackets = left.brackets + right.brackets;
        let pattern = join(alloc, operator, left.pattern, right.pattern)?;
        Ok(NarrowPattern::within(pattern, width, brackets))
    }

    /// A pattern with a qualifier, or `None` past a limit.
    pub(crate) fn limited(
        alloc: Global,
        part: NarrowPattern,
        limit: Limit,
    ) -> Result<Option<NarrowPattern>, NoMemory>
        requires { IsNarrow part }
        ensures { IfOk result (UnlessTooWide (a_limited (plain_pattern part.pattern) limit)) }
    {
        let width = match limit {
            Limit::Repeats(count) => u64::from(count) * part.width,
            Limit::Within(_) | Limit::Between(_, _) => part.width,
        };
        let pattern = limit_to(alloc, part.pattern, limit)?;
        Ok(NarrowPattern::within(pattern, width, part.brackets))
    }
}

/// Two patterns, joined by an operator.
fn join(
    alloc: Global,
    operator: Operator,
    left: Pattern,
    right: Pattern,
) -> Result<Pattern, NoMemory>
    ensures { IfOk result (λ p. plain_pattern p
        ≡ meant_by operator (plain_pattern left) (plain_pattern right)) }
{
    let (left, right) = boxed(alloc, left, right)?;
    match operator {
        Operator::Both => Ok(Pattern::Both(left, right)),
        Operator::Either => Ok(Pattern::Either(left, right)),
        Operator::Then => Ok(Pattern::Then(left, right)),
    }
}

/// Two patterns, boxed.
fn boxed(
    alloc: Global,
    left: Pattern,
    right: Pattern,
) -> Result<(Box<Pattern>, Box<Pattern>), NoMemory>
    ensures { IfOk result (λ both. (box_value both.0 ≡ left) × (box_value both.1 ≡ right)) }
{
    let left = match Box::new(alloc, left) {
        Ok(left) => left,
        Err(failed) => {
            drop(right);
            return Err(NoMemory::from(failed));
        }
    };
    match Box::new(alloc, right) {
        Ok(right) => Ok((left, right)),
        Err(failed) => {
            drop(left);
            Err(NoMemory::from(failed))
        }
    }
}

/// A pattern with a qualifier.
fn limit_to(alloc: Global, part: Pattern, limit: Limit) -> Result<Pattern, NoMemory>
    ensures { IfOk result (λ p. plain_pattern p ≡ a_limited (plain_pattern part) limit) }
{
    let part = Box::new(alloc, part)?;
    match limit {
        Limit::Within(seconds) => Ok(Pattern::Within(part, seconds)),
        Limit::Repeats(times) => Ok(Pattern::Repeats(part, times)),
        Limit::Between(begins, ends) => Ok(Pattern::Between(part, begins, ends)),
    }
}
