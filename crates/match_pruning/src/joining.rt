//! One join, pair by pair: each left operand with each right operand that the skip index doesn't
//! exclude.
//!
//! It computes the unfiltered nested-loop join and then the filter, in the same order. All that it
//! leaves out early (by `EarliestStart`, or by the skip index) either doesn't join or isn't needed.

ghost use Rattle.std.proofs.Props.{props};
ghost use Rattle.std.specs.Prelude.{◌≡◌, ◌∷◌, ◌<◌, ◌≤◌, [], true, length, IfOk, OnOk, Err};
ghost use Rattle.match_pruning.specs.inner.JoinFilters.{AreAdded, AreTooMany};
ghost use Rattle.match_pruning.specs.inner.PendingLefts.{pending_lefts_of};
ghost use Rattle.match_pruning.specs.inner.PartialMatches.{partial_match_tree, partial_match_trees};
ghost use Rattle.match_pruning.specs.inner.CompletionBounds.{IsEarliestStart};
ghost use Rattle.match_pruning.specs.inner.SkipIndexes.{AreTried, IsSkipIndexOf};
ghost use Rattle.match_pruning.specs.inner.Steps.{match_join_row, match_joins};
ghost use Rattle.match_pruning.specs.inner.Needed.{is_needed};
ghost use Rattle.match_pruning.specs.declared.stop.Stop.TheVariants as stop;

use crate::earliest_start::EarliestStart;
use crate::join::Join;
use crate::join_filter::JoinFilter;
use crate::needed::is_needed;
use crate::partial_match::PartialMatch;
use crate::skip_index::SkipIndex;
use crate::stop::Stop;
use std::alloc::Global;

/// A join in progress.
#[derive(Drop)]
pub struct Joining<'a> {
    pub how: Join,
    pub join_filter: &'a JoinFilter<'a>,
    /// Results that begin earlier aren't needed.
    earliest_start: EarliestStart,
    ghost told: { IsEarliestStart earliest_start join_filter.now.time
        (pending_lefts_of join_filter.now.pending_lefts.now) } by { Prim.hlevel props },
}

impl<'a> Joining<'a> {
    /// Computes the earliest start once, for all pairs.
    pub fn new(how: Join, join_filter: &'a JoinFilter<'a>) -> Joining<'a>
        ensures how { result.how ≡ how }
        ensures join_filter { result.join_filter.now ≡ join_filter.now }
    {
        Joining {
            how,
            join_filter,
            earliest_start: EarliestStart::new(join_filter.time, join_filter.pending_lefts),
        }
    }

    /// Joins each left operand with the right operands, filtered.
    pub fn rows(
        &self,
        alloc: Global,
        firsts: &[PartialMatch],
        seconds: &[PartialMatch],
        skip_index: &SkipIndex,
        out: &mut Vec<PartialMatch>,
    ) -> Result<(), Stop>
        requires candidates { 0 < length skip_index.now.keys.items
            → IsSkipIndexOf seconds.now skip_index.now }
        ensures joined { OnOk result (AreAdded self.now.join_filter.now
            (match_joins self.now.how (partial_match_trees firsts.now)
            (partial_match_trees seconds.now))
            out.old.items out.new.items) }
        ensures over_limit { result ≡ Err stop.OverLimit
            → AreTooMany self.now.join_filter.now
            (match_joins self.now.how (partial_match_trees firsts.now)
            (partial_match_trees seconds.now))
            out.old.items }
    {
        for first in firsts {
            if self.earliest_start.covers(first.earliest) {
                self.row(alloc, first, seconds, skip_index, out)?;
            }
        }
        Ok(())
    }

    /// Joins one left operand with the right operands, filtered.
    fn row(
        &self,
        alloc: Global,
        first: &PartialMatch,
        seconds: &[PartialMatch],
        skip_index: &SkipIndex,
        out: &mut Vec<PartialMatch>,
    ) -> Result<(), Stop>
        requires candidates { 0 < length skip_index.now.keys.items
            → IsSkipIndexOf seconds.now skip_index.now }
        ensures joined { OnOk result (AreAdded self.now.join_filter.now
            (match_join_row self.now.how (partial_match_tree first.now)
            (partial_match_trees seconds.now)) out.old.items out.new.items) }
        ensures over_limit { result ≡ Err stop.OverLimit
            → AreTooMany self.now.join_filter.now
            (match_join_row self.now.how (partial_match_tree first.now)
            (partial_match_trees seconds.now)) out.old.items }
    {
        if skip_index.keys.is_empty() {
            return self.each(alloc, first, seconds, out);
        }
        let places = skip_index.places(alloc, self.how, &self.earliest_start, first)?;
        self.places(alloc, first, seconds, &places, out)
    }

    /// Joins it with each right operand, in order. For short lists without a skip index.
    fn each(
        &self,
        alloc: Global,
        first: &PartialMatch,
        seconds: &[PartialMatch],
        out: &mut Vec<PartialMatch>,
    ) -> Result<(), Stop>
        ensures joined { OnOk result (AreAdded self.now.join_filter.now
            (match_join_row self.now.how (partial_match_tree first.now)
            (partial_match_trees seconds.now)) out.old.items out.new.items) }
        ensures over_limit { result ≡ Err stop.OverLimit
            → AreTooMany self.now.join_filter.now
            (match_join_row self.now.how (partial_match_tree first.now)
            (partial_match_trees seconds.now)) out.old.items }
    {
        for second in seconds {
            self.pair(alloc, first, second, out)?;
        }
        Ok(())
    }

    /// Joins it with the right operands at these indices only. The others don't join it, or not to
    /// a needed result.
    fn places(
        &self,
        alloc: Global,
        first: &PartialMatch,
        seconds: &[PartialMatch],
        places: &[usize],
        out: &mut Vec<PartialMatch>,
    ) -> Result<(), Stop>
        requires tried { AreTried self.now.earliest_start.start self.now.how
            (partial_match_tree first.now) seconds.now places.now }
        ensures joined { OnOk result (AreAdded self.now.join_filter.now
            (match_join_row self.now.how (partial_match_tree first.now)
            (partial_match_trees seconds.now)) out.old.items out.new.items) }
        ensures over_limit { result ≡ Err stop.OverLimit
            → AreTooMany self.now.join_filter.now
            (match_join_row self.now.how (partial_match_tree first.now)
            (partial_match_trees seconds.now)) out.old.items }
    {
        let mut done = 0;
        for place in places {
            if done <= *place {
                self.pair(alloc, first, &seconds[*place], out)?;
                done = *place + 1;
            }
        }
        Ok(())
    }

    /// Joins one pair, filtered.
    fn pair(
        &self,
        alloc: Global,
        first: &PartialMatch,
        second: &PartialMatch,
        out: &mut Vec<PartialMatch>,
    ) -> Result<(), Stop>
        ensures joined { OnOk result (AreAdded self.now.join_filter.now
            (match_join_row self.now.how (partial_match_tree first.now)
            (partial_match_tree second.now
            ∷ [])) out.old.items out.new.items) }
        ensures over_limit { result ≡ Err stop.OverLimit
            → AreTooMany self.now.join_filter.now
            (match_join_row self.now.how (partial_match_tree first.now)
            (partial_match_tree second.now
            ∷ [])) out.old.items }
    {
        if self.earliest_start.covers(second.earliest) && self.how.may_join(first, second) {
            let partial_match = self.how.joined(alloc, first, second)?;
            self.push(alloc, partial_match, out)?;
        }
        Ok(())
    }

    /// Appends a result where it is needed. `Stop::OverLimit` where the budget is used up.
    fn push(
        &self,
        alloc: Global,
        partial_match: PartialMatch,
        out: &mut Vec<PartialMatch>,
    ) -> Result<(), Stop>
        ensures pushed { OnOk result (AreAdded self.now.join_filter.now
            (partial_match_tree partial_match ∷ []) out.old.items out.new.items) }
        ensures over_limit { result ≡ Err stop.OverLimit
            → AreTooMany self.now.join_filter.now (partial_match_tree partial_match
            ∷ []) out.old.items }
    {
        match self.takes(alloc, &partial_match, out) {
            Ok(true) => {
                out.push(partial_match)?;
                Ok(())
            }
            Ok(false) => {
                drop(partial_match);
                Ok(())
            }
            Err(stop) => {
                drop(partial_match);
                Err(stop)
            }
        }
    }

    /// Whether a result is needed. `Stop::OverLimit` where it is, and the budget is used up by
    /// `others`.
    fn takes(
        &self,
        alloc: Global,
        partial_match: &PartialMatch,
        others: &[PartialMatch],
    ) -> Result<bool, Stop>
        ensures taken { IfOk result (λ taken. taken
            ≡ is_needed self.now.join_filter.now.time
            (pending_lefts_of self.now.join_filter.now.pending_lefts.now)
            (partial_match_tree partial_match.now)) }
        ensures over_limit { result ≡ Err stop.OverLimit
            → (is_needed self.now.join_filter.now.time
            (pending_lefts_of self.now.join_filter.now.pending_lefts.now)
            (partial_match_tree partial_match.now) ≡ true)
            × (self.now.join_filter.now.budget ≤ length others.now) }
    {
        if !self.earliest_start.may_begin(partial_match) {
            return Ok(false);
        }
        let is = is_needed(
            alloc,
            partial_match,
            self.join_filter.time,
            self.join_filter.pending_lefts,
        )?;
        if is && others.len() as u64 >= self.join_filter.budget {
            return Err(Stop::OverLimit);
        }
        Ok(is)
    }
}
