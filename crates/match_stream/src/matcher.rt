ghost use Rattle.std.specs.Prelude.{◌≡◌, ◌<◌, ◌≤◌, ◌+◌, ◌++◌, ◌^◌, ◌↔◌, ◌≤ℤ◌, ◌<ℤ◌, ℕ, ℤ, Some};
ghost use Rattle.std.specs.Prelude.{None, Err, List, [], map, IfOk, OnOk};
ghost use Rattle.pattern_types.specs.Leaves.{leaves};
ghost use Rattle.match_bindings.specs.declared.log_entry.LogEntry.{LogEntry};
ghost use Rattle.match_bindings.specs.BindTree.{tree_of};
ghost use Rattle.match_bindings.specs.Log.{IsInOrder};
ghost use Rattle.match_stream.specs.declared.ending.Ending.{Ending};
ghost use Rattle.match_stream.specs.declared.ending.Ending.TheVariants as ending;
ghost use Rattle.match_stream.specs.declared.ending.MatchRefusal.TheVariants as refusal;
ghost use Rattle.match_stream.specs.MatcherState.{MatcherRepresents, with_log_row};
ghost use Rattle.match_stream.specs.Answer.{AnswersRow, IsOverLimitAtRow, AnswersAfter};
ghost use Rattle.match_stream.specs.Passing.{ContinuesWithoutMatch, no_answers};
ghost use Rattle.match_bindings.specs.NumberedPattern.{numbered_pattern};
ghost use Rattle.match_pruning.specs.RowNumbers.{AreKept};

use crate::node::empty_node;
use crate::row_numbers::kept_numbers;
use crate::run::Run;
use crate::{Ending, MatchRefusal};
use flow_values::{Items, NoMemory};
use match_bindings::{Bind, Bounds, laws};
use pattern_types::Pattern;
use std::alloc::Global;
use std::marker::Model;
use stix_times::Instant;

/// A streaming matcher of one pattern, which it borrows. Contracts observe its pattern, its limit,
/// how it ended, how many rows it took, the end of the last row, and the contents of its stores.
#[derive(Drop)]
pub struct Matcher<'p> {
    pattern: &'p Pattern,
    ended: Option<Ending>,
    run: Run,
}

impl<'p> Model for Matcher<'p> {
    ghost use Rattle.std.specs.Coded.{codes};
    ghost use Rattle.pattern_types.specs.contracts.pattern.Pattern as held;
    ghost use Rattle.match_stream.specs.MatcherState.{MatcherState};
    ghost use Rattle.match_stream.specs.inner.TreeCode.{tree_code};

    ghost Value = { MatcherState };

    ghost coded = { Prim.hlevel (codes, held.the_row.coded, tree_code) };

    ghost use Rattle.match_stream.specs.inner.ObservableState.{observable_state, IsMade};

    ghost view = { observable_state };

    ghost invariant = { IsMade };
}

impl<'p> Matcher<'p> {
    /// A matcher that took no row yet. `retained_limit` bounds how many partial matches it holds at
    /// once, with the bindings that end at the last row.
    pub fn new(
        alloc: Global,
        pattern: &'p Pattern,
        retained_limit: u64,
    ) -> Result<Matcher<'p>, NoMemory>
        requires { leaves pattern.now < 2 ^ 32 }
        ensures represents { IfOk result (λ matcher. MatcherRepresents matcher []) }
        ensures pattern { IfOk result (λ matcher. matcher.pattern ≡ pattern.now) }
        ensures retained_limit { IfOk result (λ matcher. matcher.retained_limit ≡ retained_limit) }
    {
        laws::test_is_the_rule();
        let boxed = empty_node(alloc, pattern, 0, &Bounds::open())?;
        let node = Box::into_inner(boxed);
        let run = Run {
            alloc,
            retained_limit,
            rows: 0,
            last: None,
            node,
        };
        Ok(Matcher {
            pattern,
            ended: None,
            run,
        })
    }

    /// Takes the next row of a log: its first and last time, and for each leaf of the pattern
    /// whether it holds. Answers every binding that ends at the row, each once, in the order of
    /// flat lists.
    ///
    /// Errors: `Stopped` where this row ends the matcher (over the limit, earlier than the row
    /// before, or out of memory), `Ended` where it had ended before.
    pub fn take(
        &mut self,
        first: Instant,
        last: Instant,
        truths: &[bool],
    ) -> Result<Items<Bind>, MatchRefusal>
        requires span { first ≤ℤ last }
        // The row numbers fit a u64.
        requires counts { self.old.ended ≡ None → self.old.rows + 1 < 2 ^ 64 }
        // For every log that the matcher represented: it represents the log with this row, and
        // answers it.
        ensures answers { (log : List LogEntry) → MatcherRepresents self.old log → IsInOrder log
            → IfOk result (λ binds. AnswersRow self.old self.new
            (with_log_row log first last truths.now) (map tree_of binds)) }
        // The limit is reported only where the retained count really exceeds it.
        ensures over_limit { (log : List LogEntry) → MatcherRepresents self.old log → IsInOrder log
            → (number retained_limit : ℕ)
            → result ≡ Err (refusal.Stopped (ending.OverLimit number retained_limit))
            → IsOverLimitAtRow self.old (with_log_row log first last truths.now) number
            retained_limit }
        ensures out_of_order { (before now : ℤ)
            → (result ≡ Err (refusal.Stopped (ending.OutOfOrder before now)))
            ↔ ((self.old.ended ≡ None) × (self.old.last ≡ Some before) × (now ≡ last)
            × (now <ℤ before)) }
        ensures stopped { (ending : Ending) → result ≡ Err (refusal.Stopped ending)
            → (self.old.ended ≡ None) × (self.new.ended ≡ Some ending) }
        ensures ended { (ending : Ending) → (result ≡ Err (refusal.Ended ending))
            ↔ (self.old.ended ≡ Some ending) }
        // A matcher that has ended stays as it is.
        ensures unchanged { (ending : Ending) → self.old.ended ≡ Some ending → self.new ≡ self.old }
        ensures kept { (self.new.pattern ≡ self.old.pattern)
            × (self.new.retained_limit ≡ self.old.retained_limit) }
    {
        laws::test_is_the_rule();
        laws::sorted_bindings_ascend();
        laws::listing_is_by_the_test();
        laws::ascending_lists_are_ordered();
        laws::listings_exist();
        if let Some(ending) = &self.ended {
            return Err(MatchRefusal::Ended(ending.copied()));
        }
        if let Err(ending) = self.run.clear(last) {
            self.ended = Some(ending.copied());
            return Err(MatchRefusal::Stopped(ending));
        }
        match self.run.take(first, last, truths) {
            Ok(binds) => Ok(binds),
            Err(ending) => {
                self.ended = Some(ending.copied());
                Err(MatchRefusal::Stopped(ending))
            }
        }
    }

    /// Takes the next `rows` rows at once, at which no bracket of the pattern holds. The last of
    /// them ends at `last`. The result is the state after as many calls of `take` without truths:
    /// no binding ends at such a row. Looks at each store once, and takes no memory.
    pub fn pass(&mut self, rows: u64, last: Instant) -> Result<(), MatchRefusal>
        requires some { 1 ≤ rows }
        requires counts { self.old.ended ≡ None → self.old.rows + rows < 2 ^ 64 }
        // The same state as after `rows` calls of `take` at which no bracket holds.
        ensures represents { (log nonmatching : List LogEntry) → MatcherRepresents self.old log
            → ContinuesWithoutMatch log nonmatching rows last
            → OnOk result (MatcherRepresents self.new (log ++ nonmatching)) }
        ensures nothing_ends { (log nonmatching : List LogEntry) → MatcherRepresents self.old log
            → ContinuesWithoutMatch log nonmatching rows last
            → OnOk result (AnswersAfter (numbered_pattern self.old.pattern) log nonmatching
            (no_answers nonmatching)) }
        ensures out_of_order { (before now : ℤ)
            → (result ≡ Err (refusal.Stopped (ending.OutOfOrder before now)))
            ↔ ((self.old.ended ≡ None) × (self.old.last ≡ Some before) × (now ≡ last)
            × (now <ℤ before)) }
        ensures stopped { (ending : Ending) → result ≡ Err (refusal.Stopped ending)
            → (self.old.ended ≡ None) × (self.new.ended ≡ Some ending) }
        ensures ended { (ending : Ending) → (result ≡ Err (refusal.Ended ending))
            ↔ (self.old.ended ≡ Some ending) }
        ensures unchanged { (ending : Ending) → self.old.ended ≡ Some ending → self.new ≡ self.old }
        ensures kept { (self.new.pattern ≡ self.old.pattern)
            × (self.new.retained_limit ≡ self.old.retained_limit) }
    {
        laws::test_is_the_rule();
        laws::sorted_bindings_ascend();
        if let Some(ending) = &self.ended {
            return Err(MatchRefusal::Ended(ending.copied()));
        }
        match self.run.pass(rows, last) {
            Ok(()) => Ok(()),
            Err(ending) => {
                self.ended = Some(ending.copied());
                Err(MatchRefusal::Stopped(ending))
            }
        }
    }

    /// The numbers of the rows that the stores hold, ascending, each once. Empty where the matcher
    /// has ended.
    pub fn kept(&self) -> Result<Items<u64>, NoMemory>
        ensures kept { IfOk result (λ numbers. self.now.ended ≡ None
            → AreKept self.now.contents numbers) }
        ensures ended { IfOk result (λ numbers. (ending : Ending) → self.now.ended ≡ Some ending
            → numbers ≡ []) }
    {
        if self.ended.is_some() {
            return Ok(Items::new(self.run.alloc));
        }
        let kept = kept_numbers(self.run.alloc, &self.run.node)?;
        Ok(Items::from_vec(kept))
    }

    /// The pattern. Takes no memory.
    pub fn pattern(&self) -> &'p Pattern
        ensures { result.now ≡ self.now.pattern }
    {
        self.pattern
    }
}
