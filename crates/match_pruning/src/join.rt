//! The join of two lists of partial matches, for each of the three binary operators.
//!
//! `Join::join` is a nested-loop join with a `SkipIndex` on the right operand, which skips runs of
//! candidates that can't join.

ghost use Rattle.std.specs.Prelude.{◌≡◌, ◌≤ℤ◌, true, false, IfOk, OnOk, Err};
ghost use Rattle.std.specs.Int.{int_min, int_max};
ghost use Rattle.match_bindings.specs.BindTree.{tree_of, disjoint};
ghost use Rattle.match_pruning.specs.PartialMatchTree.{PartialMatchTree};
ghost use Rattle.match_pruning.specs.inner.JoinFilters.{AreAdded, AreTooMany};
ghost use Rattle.match_pruning.specs.inner.PartialMatches.{partial_match_tree, partial_match_trees};
ghost use Rattle.match_pruning.specs.inner.Steps.{joined_tree, joined_matches, may_join};
ghost use Rattle.match_pruning.specs.inner.Steps.{match_joins};
ghost use Rattle.match_pruning.specs.declared.stop.Stop.TheVariants as stop;

use crate::join_filter::JoinFilter;
use crate::joining::Joining;
use crate::partial_match::PartialMatch;
use crate::skip_index::SkipIndex;
use crate::stop::Stop;
use flow_values::NoMemory;
use match_bindings::{Bind, are_disjoint, with_part, with_sides};
use std::alloc::Global;
use stix_times::Instant;

/// The operator that joins two partial matches.
#[derive(Clone, Copy)]
pub enum Join {
    /// `AND`.
    Both,
    /// `FOLLOWEDBY`.
    Then,
    /// `REPEATS`: a set of parts and one more part.
    Repeats,
}

impl Join {
    /// The binding of the joined partial match.
    fn bind(self, alloc: Global, first: &Bind, second: &Bind) -> Result<Bind, NoMemory>
        ensures { IfOk result (λ bind. tree_of bind
            ≡ joined_tree self (tree_of first.now) (tree_of second.now)) }
    {
        match self {
            Join::Both | Join::Then => with_sides(alloc, first, second),
            Join::Repeats => with_part(alloc, first, second),
        }
    }

    /// Whether two partial matches join: they share no observation, and for `FOLLOWEDBY` the first
    /// ends no later than the second begins.
    pub fn may_join(self, first: &PartialMatch, second: &PartialMatch) -> bool
        ensures { result ≡ may_join self (partial_match_tree first.now)
            (partial_match_tree second.now) }
    {
        match self {
            Join::Both | Join::Repeats => are_disjoint(&first.bind, &second.bind),
            Join::Then => {
                first.latest <= second.earliest && are_disjoint(&first.bind, &second.bind)
            }
        }
    }

    /// Joins two partial matches that share no observation.
    pub fn joined(
        self,
        alloc: Global,
        first: &PartialMatch,
        second: &PartialMatch,
    ) -> Result<PartialMatch, NoMemory>
        requires { disjoint (tree_of first.now.bind) (tree_of second.now.bind) ≡ true }
        ensures { IfOk result (λ held. partial_match_tree held
            ≡ joined_matches self (partial_match_tree first.now) (partial_match_tree second.now)) }
    {
        let bind = self.bind(alloc, &first.bind, &second.bind)?;
        Ok(PartialMatch {
            bind,
            earliest: earlier(first.earliest, second.earliest),
            latest: later(first.latest, second.latest),
        })
    }

    /// Whether a partial match that begins at `begin` or earlier can't join one that ends at `end`,
    /// whatever observations they have.
    pub fn is_late(self, end: Instant, begin: Instant) -> bool
        // One-sided: only true promises something.
        ensures { result ≡ true → (first second : PartialMatchTree) → first.latest ≡ end
            → second.earliest ≤ℤ begin
            → may_join self first second ≡ false }
    {
        match self {
            Join::Then => begin < end,
            Join::Both | Join::Repeats => false,
        }
    }

    /// Appends the join of two lists to `out`, filtered by `join_filter`: only what is needed, and
    /// no more than the budget. `Stop::OverLimit` at the first partial match beyond the budget.
    pub fn join(
        self,
        alloc: Global,
        firsts: &[PartialMatch],
        seconds: &[PartialMatch],
        join_filter: &JoinFilter<'_>,
        out: &mut Vec<PartialMatch>,
    ) -> Result<(), Stop>
        // Appends the filtered join, in the order of a nested loop.
        ensures joined { OnOk result (AreAdded join_filter.now
            (match_joins self (partial_match_trees firsts.now) (partial_match_trees seconds.now))
            out.old.items out.new.items) }
        ensures over_limit { result ≡ Err stop.OverLimit
            → AreTooMany join_filter.now (match_joins self (partial_match_trees firsts.now)
            (partial_match_trees seconds.now)) out.old.items }
    {
        if seconds.is_empty() {
            return Ok(());
        }
        if firsts.is_empty() {
            return Ok(());
        }
        let skip_index = SkipIndex::new(alloc, firsts.len(), seconds)?;
        let joining = Joining::new(self, join_filter);
        let joined = joining.rows(alloc, firsts, seconds, &skip_index, out);
        drop(skip_index);
        joined
    }
}

/// The earlier of two instants.
fn earlier(one: Instant, other: Instant) -> Instant
    ensures { result ≡ int_min one other }
{
    if other < one { other } else { one }
}

/// The later of two instants.
fn later(one: Instant, other: Instant) -> Instant
    ensures { result ≡ int_max one other }
{
    if other < one { one } else { other }
}
