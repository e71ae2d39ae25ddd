//! Decides whether a binding is one of a pattern over a log, by recursive descent into both trees
//! at once. It returns the span of each part upwards, so that no part is visited twice.

ghost use Rattle.std.specs.Prelude.{◌≡◌, ◌↔◌, ◌+◌, ◌<◌, ◌^◌, ◌&&◌, IsTrue, map, option_and_then};
ghost use Rattle.pattern_types.specs.Leaves.{leaves};
ghost use Rattle.match_bindings.specs.NumberedPattern.{numbered_pattern, numbered_from, Both, Then};
ghost use Rattle.match_bindings.specs.BindTree.{tree_of, many_of, firsts};
ghost use Rattle.match_bindings.specs.Log.{observed_in};
ghost use Rattle.match_bindings.specs.Binding.{IsBinding};
ghost use Rattle.match_bindings.specs.Test.{is_binding, are_repeats};
ghost use Rattle.match_bindings.specs.inner.Candidates.{verified, span_if, span_of, joined_span};
ghost use Rattle.match_bindings.specs.inner.Candidates.{admits, lies_within, lies_between};
ghost use Rattle.match_bindings.specs.declared.join.Join.TheVariants as variant;

use crate::join::Join;
use crate::numbers::{all_disjoint, are_disjoint};
use crate::span::Span;
use crate::{Bind, Log};
use pattern_types::{Pattern, leaf_count};
use stix_times::Instant;

/// Whether a binding is one of a pattern over a log. Takes no memory. A leaf doesn't hold at a row
/// that has no truth for it.
pub fn check_binding(pattern: &Pattern, log: &Log, bind: &Bind) -> bool
    requires { leaves pattern.now < 2 ^ 32 }
    ensures { IsTrue result ↔ IsBinding (observed_in log.now) (numbered_pattern pattern.now)
        (tree_of bind.now) }
{
    verify(pattern, 0, log, bind).is_some()
}

/// The span of a binding, where it is one of a pattern whose leftmost leaf has the number `leaf`.
#[cycle(verify)]
fn verify(pattern: &Pattern, leaf: u32, log: &Log, bind: &Bind) -> Option<Span>
    requires { leaf + leaves pattern.now < 2 ^ 32 }
    ensures { result ≡ verified (observed_in log.now) (numbered_from leaf pattern.now)
        (tree_of bind.now) }
{
    match pattern {
        Pattern::Leaf(_) => log.span_of(leaf, bind.number()?),
        Pattern::Both(left, right) => verify_sides(Join::Both, left, right, leaf, log, bind),
        Pattern::Then(left, right) => verify_sides(Join::Then, left, right, leaf, log, bind),
        Pattern::Either(left, right) => match bind {
            Bind::First(more, part) => verify_left(left, leaf, log, *more, part),
            Bind::Second(part) => verify(right, leaf + leaf_count(left), log, part),
            Bind::One(_) | Bind::Both(_) => None,
            Bind::Many(_) => None,
        },
        Pattern::Within(part, seconds) => within(verify(part, leaf, log, bind), *seconds),
        Pattern::Between(part, start, stop) => {
            between(verify(part, leaf, log, bind), *start, *stop)
        }
        Pattern::Repeats(part, count) => verify_repeats(part, leaf, log, bind.parts()?, *count),
    }
}

/// The span of a `Both`, where it is a binding of an `AND` or a `FOLLOWEDBY` of these patterns.
#[cycle(verify)]
fn verify_sides(
    join: Join,
    left: &Pattern,
    right: &Pattern,
    leaf: u32,
    log: &Log,
    bind: &Bind,
) -> Option<Span>
    requires { leaf + (leaves left.now + leaves right.now) < 2 ^ 32 }
    ensures both { join ≡ variant.Both → result
        ≡ verified (observed_in log.now)
        (Both (numbered_from leaf left.now) (numbered_from (leaf + leaves left.now) right.now))
        (tree_of bind.now) }
    ensures ordered { join ≡ variant.Then → result
        ≡ verified (observed_in log.now)
        (Then (numbered_from leaf left.now) (numbered_from (leaf + leaves left.now) right.now))
        (tree_of bind.now) }
{
    let (first, second) = bind.sides()?;
    let first_span = verify(left, leaf, log, first)?;
    let second_span = verify(right, leaf + leaf_count(left), log, second)?;
    let apart = are_disjoint(first, second);
    joined(join, &first_span, &second_span, apart)
}

/// The span of a binding under `count` `First`s: each `OR` on the way down its left sides takes one
/// off.
#[cycle(verify)]
fn verify_left(pattern: &Pattern, leaf: u32, log: &Log, count: u32, bind: &Bind) -> Option<Span>
    requires { leaf + leaves pattern.now < 2 ^ 32 }
    ensures { result ≡ verified (observed_in log.now) (numbered_from leaf pattern.now)
        (firsts count (tree_of bind.now)) }
{
    if count == 0 {
        return verify(pattern, leaf, log, bind);
    }
    match pattern {
        Pattern::Either(left, _) => verify_left(left, leaf, log, count - 1, bind),
        Pattern::Within(part, seconds) => {
            within(verify_left(part, leaf, log, count, bind), *seconds)
        }
        Pattern::Between(part, start, stop) => {
            between(verify_left(part, leaf, log, count, bind), *start, *stop)
        }
        Pattern::Leaf(_) | Pattern::Both(_, _) | Pattern::Then(_, _) => None,
        Pattern::Repeats(_, _) => None,
    }
}

/// The span of a `Many`, where it has this many parts, each is a binding, no two share a number,
/// and their greatest numbers ascend.
#[cycle(verify)]
fn verify_repeats(
    pattern: &Pattern,
    leaf: u32,
    log: &Log,
    parts: &[Bind],
    count: u32,
) -> Option<Span>
    requires { leaf + leaves pattern.now < 2 ^ 32 }
    ensures { result ≡ span_if (are_repeats
        (is_binding (observed_in log.now) (numbered_from leaf pattern.now)) count
        (many_of (map tree_of parts.now)))
        (span_of (observed_in log.now) (many_of (map tree_of parts.now))) }
{
    if parts.len() != count as usize {
        return None;
    }
    let mut span = verify(pattern, leaf, log, parts.first()?)?;
    for at in 1..parts.len() {
        let part = &parts[at];
        let next = verify(pattern, leaf, log, part)?;
        let apart = all_disjoint(&parts[..at], part);
        span = joined(Join::Repeats, &span, &next, apart)?;
    }
    Some(span)
}

/// The span, if any, where it covers less than `seconds`.
fn within(span: Option<Span>, seconds: u32) -> Option<Span>
    ensures { result ≡ option_and_then (λ span. span_if (lies_within seconds span) span) span }
{
    let span = span?;
    span_if(span.is_within(seconds), span)
}

/// The span, if any, where it begins at `start` or later and ends before `stop`.
fn between(span: Option<Span>, start: Instant, stop: Instant) -> Option<Span>
    ensures { result ≡ option_and_then (λ span. span_if (lies_between start stop span) span) span }
{
    let span = span?;
    span_if(span.is_between(start, stop), span)
}

/// The combined span, where the two are disjoint and the operator admits them.
fn joined(join: Join, first: &Span, second: &Span, are_disjoint: bool) -> Option<Span>
    ensures { result ≡ span_if (admits join first.now second.now && are_disjoint)
        (joined_span first.now second.now) }
{
    span_if(
        join.admits(first, second) && are_disjoint,
        first.joined(second),
    )
}

/// The span, where a test passes.
fn span_if(test: bool, span: Span) -> Option<Span>
    ensures { result ≡ span_if test span }
{
    if test { Some(span) } else { None }
}
