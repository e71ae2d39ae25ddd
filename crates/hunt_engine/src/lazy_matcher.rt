//! One pattern of many, updated lazily.
//!
//! Its matcher takes only the rows at which one of its brackets holds. Before that it passes all
//! rows missed so far at once. This is right since no binding ends at a row where no bracket holds,
//! and passing many rows has the same result as passing them one by one.

ghost use Rattle.std.specs.Prelude.{◌≡◌, ◌<◌, ◌≤◌, ◌≤ℤ◌, ◌^◌, ◌++◌, ◌+◌, [], List, length, Some};
ghost use Rattle.std.specs.Prelude.{None, Err, IfOk, OnOk, map};
ghost use Rattle.std.specs.Option.{option_map};
ghost use Rattle.pattern_types.specs.declared.pattern.Pattern.{Pattern};
ghost use Rattle.pattern_types.specs.Leaves.{leaves};
ghost use Rattle.match_bindings.specs.declared.log_entry.LogEntry.{LogEntry};
ghost use Rattle.match_bindings.specs.BindTree.{tree_of};
ghost use Rattle.match_bindings.specs.NumberedPattern.{numbered_pattern};
ghost use Rattle.match_bindings.specs.Log.{IsInOrder};
ghost use Rattle.match_stream.specs.MatcherState.{MatcherRepresents};
ghost use Rattle.match_stream.specs.Answer.{AnswersRow, IsOverLimit};
ghost use Rattle.match_stream.specs.Passing.{ContinuesWithoutMatch};
ghost use Rattle.hunt_engine.specs.declared.refusal.LazyMatcherRefusal.TheVariants as refused;
ghost use Rattle.hunt_engine.specs.LazyMatcherState.{MatchesFor, Follows};
ghost use Rattle.hunt_engine.specs.inner.Following.{EndsLogAt, FollowsSome, CatchesUp};
ghost use Rattle.hunt_engine.specs.inner.Following.{FollowsLastRow};
ghost use Rattle.hunt_engine.specs.inner.Following.{log_with, ContinuesRows, IsSingleBracket};
ghost use Rattle.hunt_engine.specs.inner.Following.{single_bracket_at};

use crate::next_row::NextRow;
use crate::refusal::LazyMatcherRefusal;
use flow_values::{Items, NoMemory};
use match_bindings::Bind;
use match_bindings::laws::test_is_the_rule;
use match_stream::{Ending, MatchRefusal, Matcher};
use pattern_types::Pattern;
use std::alloc::Global;
use std::marker::Model;
use stix_times::Instant;

/// The state of one pattern. A pattern of one bracket has no matcher: its bindings at a row are the
/// row itself, where the bracket holds. Any other pattern has a matcher, and how many rows that has
/// seen.
#[derive(Drop)]
pub(crate) struct LazyMatcher<'p> {
    matcher: Option<Box<Matcher<'p>>>,
    seen: u64,
}

impl<'p> Model for LazyMatcher<'p> {
    ghost use Rattle.std.specs.Coded.{codes};
    ghost use Rattle.std.specs.Option.{option_map};
    ghost use Rattle.pattern_types.specs.contracts.pattern.Pattern as matching;
    ghost use Rattle.match_stream.specs.inner.TreeCode.{tree_code};
    ghost use Rattle.hunt_engine.specs.LazyMatcherState.{LazyMatcherState};

    ghost Value = { LazyMatcherState };

    ghost coded = { Prim.hlevel (codes, matching.the_row.coded, tree_code) };

    ghost view = { λ lazy_matcher. record {
      matcher = option_map
          (λ matching. matching.value) lazy_matcher.matcher;
      seen = lazy_matcher.seen;
    } };
}

impl<'p> LazyMatcher<'p> {
    /// A pattern that took no row yet.
    pub(crate) fn new(
        alloc: Global,
        pattern: &'p Pattern,
        retained_limit: u64,
    ) -> Result<LazyMatcher<'p>, NoMemory>
        requires { leaves pattern.now < 2 ^ 32 }
        ensures { IfOk result (Follows pattern.now retained_limit []) }
    {
        test_is_the_rule();
        let matcher = matcher_of(alloc, pattern, retained_limit)?;
        Ok(LazyMatcher { matcher, seen: 0 })
    }

    /// Whether it has a matcher.
    pub(crate) fn has_matcher(&self) -> bool {
        self.matcher.is_some()
    }

    /// Passes the rows that the matcher missed: none of its brackets holds there.
    pub(crate) fn catch_up(
        &mut self,
        rows: u64,
        last: Option<Instant>,
        retained_limit: u64,
    ) -> Result<(), NoMemory>
        requires follows { FollowsSome retained_limit rows last self.old }
        requires room { rows < 2 ^ 63 }
        // For every log that it followed: its matcher now represents the whole of it.
        ensures { (p : Pattern) (log : List LogEntry) → Follows p retained_limit log self.old
            → EndsLogAt log rows last
            → OnOk result (CatchesUp p retained_limit log self.new) }
    {
        let Some(matcher) = &mut self.matcher else {
            return Ok(());
        };
        let Some(last) = last else {
            return Ok(());
        };
        if self.seen < rows {
            pass_rows(matcher, rows - self.seen, last)?;
            self.seen = rows;
        }
        Ok(())
    }

    /// Takes the next row, with a truth for each bracket: answers the bindings that end there.
    pub(crate) fn take(
        &mut self,
        alloc: Global,
        row: &NextRow,
        retained_limit: u64,
        truths: &[bool],
    ) -> Result<Items<Bind>, LazyMatcherRefusal>
        requires follows { FollowsSome retained_limit row.now.rows row.now.before self.old }
        requires room { row.now.rows + 1 < 2 ^ 63 }
        requires continues { ContinuesRows row.now }
        ensures took { (p : Pattern) (log : List LogEntry) → Follows p retained_limit log self.old
            → EndsLogAt log row.now.rows row.now.before
            → IfOk result (λ binds. FollowsLastRow p retained_limit
            (log_with row.now truths.now log)
            self.new (map tree_of binds)) }
        ensures over_limit { (p : Pattern) (log : List LogEntry)
            → Follows p retained_limit log self.old → EndsLogAt log row.now.rows row.now.before
            → result ≡ Err refused.OverLimit
            → IsOverLimit (numbered_pattern p) (log_with row.now truths.now log) retained_limit }
    {
        self.catch_up(row.rows, row.before, retained_limit)?;
        let Some(matcher) = &mut self.matcher else {
            return take_single_bracket(alloc, row.rows + 1, retained_limit, truths);
        };
        match take_row(matcher, row, truths) {
            Ok(binds) => {
                self.seen = row.rows + 1;
                Ok(binds)
            }
            Err(refusal) => Err(refusal),
        }
    }
}

/// The matcher of a pattern, unless that is one bracket.
fn matcher_of(
    alloc: Global,
    pattern: &Pattern,
    retained_limit: u64,
) -> Result<Option<Box<Matcher<'_>>>, NoMemory>
    requires { leaves pattern.now < 2 ^ 32 }
    ensures { IfOk result (λ matcher. MatchesFor pattern.now retained_limit [] 0
        (option_map (λ matching. matching.value) matcher)) }
{
    match pattern {
        Pattern::Leaf(_) => Ok(None),
        Pattern::Both(_, _)
        | Pattern::Either(_, _)
        | Pattern::Then(_, _)
        | Pattern::Within(_, _)
        | Pattern::Between(_, _, _)
        | Pattern::Repeats(_, _) => {
            let matcher = boxed_matcher(alloc, pattern, retained_limit)?;
            Ok(Some(matcher))
        }
    }
}

/// A matcher that took no row yet.
fn boxed_matcher(
    alloc: Global,
    pattern: &Pattern,
    retained_limit: u64,
) -> Result<Box<Matcher<'_>>, NoMemory>
    requires { leaves pattern.now < 2 ^ 32 }
    ensures { IfOk result (λ matcher. MatchesFor pattern.now retained_limit [] 0
        (Some matcher.value)) }
{
    let matcher = Matcher::new(alloc, pattern, retained_limit)?;
    Ok(Box::new(alloc, matcher)?)
}

/// Passes rows at which no bracket of the pattern holds. They are in order, so only lack of memory
/// refuses them.
fn pass_rows(matcher: &mut Matcher<'_>, rows: u64, last: Instant) -> Result<(), NoMemory>
    // At least one row.
    requires some { 1 ≤ rows }
    requires room { matcher.old.ended ≡ None → matcher.old.rows + rows < 2 ^ 64 }
    ensures represents { (log nonmatching : List LogEntry) → MatcherRepresents matcher.old log
        → ContinuesWithoutMatch log nonmatching rows last
        → OnOk result (MatcherRepresents matcher.new (log ++ nonmatching)) }
    ensures kept { (matcher.new.pattern ≡ matcher.old.pattern)
        × (matcher.new.retained_limit ≡ matcher.old.retained_limit) }
{
    match matcher.pass(rows, last) {
        Ok(()) => Ok(()),
        Err(_) => Err(NoMemory),
    }
}

/// Takes the next row. It is in order, so only the limit or lack of memory refuses it.
fn take_row(
    matcher: &mut Matcher<'_>,
    row: &NextRow,
    truths: &[bool],
) -> Result<Items<Bind>, LazyMatcherRefusal>
    requires span { row.now.first ≤ℤ row.now.last }
    requires room { matcher.old.ended ≡ None → matcher.old.rows + 1 < 2 ^ 64 }
    ensures answers { (log : List LogEntry) → MatcherRepresents matcher.old log → IsInOrder log
        → IfOk result (λ binds. AnswersRow matcher.old matcher.new
        (log_with row.now truths.now log) (map tree_of binds)) }
    ensures over_limit { (log : List LogEntry) → MatcherRepresents matcher.old log → IsInOrder log
        → result ≡ Err refused.OverLimit
        → IsOverLimit (numbered_pattern matcher.old.pattern) (log_with row.now truths.now log)
        matcher.old.retained_limit }
    ensures kept { (matcher.new.pattern ≡ matcher.old.pattern)
        × (matcher.new.retained_limit ≡ matcher.old.retained_limit) }
{
    match matcher.take(row.first, row.last, truths) {
        Ok(binds) => Ok(binds),
        Err(MatchRefusal::Stopped(Ending::OverLimit { .. })) => Err(LazyMatcherRefusal::OverLimit),
        Err(MatchRefusal::Stopped(Ending::OutOfOrder { .. } | Ending::NoMemory)) => Err(
            LazyMatcherRefusal::NoMemory,
        ),
        Err(MatchRefusal::Ended(_)) => Err(LazyMatcherRefusal::NoMemory),
    }
}

/// The bindings of a pattern of one bracket that end at this row: the row alone, where the bracket
/// holds.
fn take_single_bracket(
    alloc: Global,
    number: u64,
    retained_limit: u64,
    truths: &[bool],
) -> Result<Items<Bind>, LazyMatcherRefusal>
    ensures answers { IfOk result (λ binds. IsSingleBracket retained_limit number truths.now
        (map tree_of binds)) }
    ensures over_limit { result ≡ Err refused.OverLimit
        → retained_limit < length (single_bracket_at number truths.now) }
{
    let mut binds = Items::new(alloc);
    if truths.first().copied().unwrap_or(false) {
        if retained_limit == 0 {
            return Err(LazyMatcherRefusal::OverLimit);
        }
        binds.push(Bind::One(number))?;
    }
    Ok(binds)
}
