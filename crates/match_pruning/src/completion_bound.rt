//! An admissible bound for branch and bound: it never rules out a partial match that is needed.
//!
//! A new partial match on the right of nested `FOLLOWEDBY`s is needed only where stored partial
//! matches complete it, one from each left side. An exhaustive search (`needed`) takes time that is
//! exponential in the nesting. This bound looks at each stored partial match once per left side.
//!
//! It relaxes the problem in two ways. It keeps the latest time at which a completion so far can
//! begin: a left side can only move it earlier. And where a completion begins exactly then, each of
//! its left sides lies at that one instant, and needs distinct observations there: a bipartite
//! `Matching`. Where no left operand fits, or Hall's condition fails, no completion begins then, so
//! the bound moves to the next earlier begin. `may_continue` answers false only where every
//! completion is ruled out. True proves nothing: the caller searches on.

ghost use Rattle.std.specs.Prelude.{◌≡◌, ◌≤ℤ◌, ◌<ℤ◌, ℕ, ℤ, true, false, Some, IfOk, OnOk};
ghost use Rattle.std.specs.List.{Contains};
ghost use Rattle.match_bindings.specs.BindTree.{BindTree, Pair, disjoint};
ghost use Rattle.match_pruning.specs.declared.join.Join.TheVariants as join;
ghost use Rattle.match_pruning.specs.declared.completion_bound.CompletionBound.{CompletionBound};
ghost use Rattle.match_pruning.specs.PartialMatchTree.{PartialMatchTree};
ghost use Rattle.match_pruning.specs.inner.PartialMatches.{partial_match_tree, partial_match_trees};
ghost use Rattle.match_pruning.specs.inner.Steps.{joined_matches, may_join};
ghost use Rattle.match_pruning.specs.inner.Picks.{HasPerfectMatching};
ghost use Rattle.match_pruning.specs.inner.Needed.{is_needed};
ghost use Rattle.match_pruning.specs.inner.PendingLefts.{pending_lefts_of};
ghost use Rattle.match_pruning.specs.inner.CompletionBounds.{may_precede, IsInCandidateSet};
ghost use Rattle.match_pruning.specs.inner.CompletionBounds.{IsReachedCompletion};

use crate::matching::Matching;
use crate::numbers::{push_numbers, sort_dedup};
use crate::partial_match::PartialMatch;
use crate::pending_left::PendingLeft;
use crate::store::{Store, is_retained};
use flow_values::NoMemory;
use match_bindings::are_disjoint;
use std::alloc::Global;
use stix_times::Instant;

/// The deepest nesting of `FOLLOWEDBY`s: a pattern has no deeper parentheses.
const MAX_PENDING_LEFTS: usize = 64;

/// A list of candidate numbers is sorted and deduplicated once it is longer than this.
const MANY: usize = 2 * MAX_PENDING_LEFTS;

/// How many positions of the stored partial matches are looked at per left side.
const MAX_PLACES: usize = 8;

/// How many vertices the bipartite matching may have: two for each left side.
const MAX_CHOICES: usize = 2 * MAX_PENDING_LEFTS;

/// The observation numbers that stand at one position of some stored partial matches. Positions are
/// counted from the left of the binding.
#[derive(Drop)]
pub enum CandidateSet {
    /// The numbers, in order and each once.
    Few(Vec<u64>),
    /// More numbers than left sides: they never constrain the matching.
    Many,
    /// Some partial match has fewer positions.
    Short,
}

/// The state of the relaxed search: what bounds all completions so far.
#[derive(Drop)]
pub struct CompletionBound {
    /// No completion begins later.
    pub earliest: Instant,
    /// A completion that begins exactly then assigns a distinct observation to each vertex.
    pub matching: Matching,
}

impl CompletionBound {
    /// The bound of a new partial match alone. Takes no memory.
    pub fn new(alloc: Global, partial_match: &PartialMatch) -> CompletionBound
        ensures { IsReachedCompletion (partial_match_tree partial_match.now) result
            (partial_match_tree partial_match.now) }
    {
        CompletionBound {
            earliest: partial_match.earliest,
            matching: Matching::new(alloc),
        }
    }

    /// Whether a completion may exist. False is a proof that there is none; true is no promise. The
    /// innermost left side is the last of `pending_lefts`.
    pub fn may_continue(
        &mut self,
        alloc: Global,
        partial_match: &PartialMatch,
        now: Instant,
        pending_lefts: &[PendingLeft],
    ) -> Result<bool, NoMemory>
        // One-sided: where a completion is needed, the answer is true. So false is a proof.
        ensures { IfOk result (λ may. (greedy_completion : PartialMatchTree)
            → IsReachedCompletion (partial_match_tree partial_match.now) self.old greedy_completion
            → is_needed now (pending_lefts_of pending_lefts.now) greedy_completion ≡ true
            → may ≡ true) }
    {
        let Some((innermost, above)) = pending_lefts.split_last() else {
            return Ok(true);
        };
        if is_retained(&innermost.window, self.earliest, now) {
            return Ok(true);
        }
        if !self.take(alloc, partial_match, &innermost.left)? {
            return Ok(false);
        }
        let may = self.may_continue(alloc, partial_match, now, above)?;
        Ok(may)
    }

    /// Extends all completions by one stored partial match from the next left side: whether one may
    /// exist. First it assumes that the left operand begins at the bound; where the matching rules
    /// this out, it moves the bound to the next earlier begin.
    fn take(
        &mut self,
        alloc: Global,
        partial_match: &PartialMatch,
        store: &Store,
    ) -> Result<bool, NoMemory>
        ensures { IfOk result (λ may. (greedy_completion left : PartialMatchTree)
            → IsReachedCompletion (partial_match_tree partial_match.now) self.old greedy_completion
            → Contains (partial_match_trees store.now.held.items) left
            → may_join join.Then left greedy_completion ≡ true
            → (may ≡ true) × IsReachedCompletion (partial_match_tree partial_match.now) self.new
            (joined_matches join.Then left greedy_completion)) }
    {
        let bound = self.earliest;
        if self.record_candidates(alloc, bound, partial_match, store)? {
            return Ok(true);
        }
        match latest_before(bound, partial_match, store) {
            Some(earliest) => {
                self.lower_to(alloc, earliest, partial_match, store)?;
                Ok(true)
            }
            None => Ok(false),
        }
    }

    /// Moves the bound to this time, the latest begin before it, and starts a new matching there.
    fn lower_to(
        &mut self,
        alloc: Global,
        earliest: Instant,
        partial_match: &PartialMatch,
        store: &Store,
    ) -> Result<(), NoMemory>
        ensures { OnOk result ((before : CompletionBound)
            (greedy_completion left : PartialMatchTree) → before.earliest ≡ self.old.earliest
            → IsReachedCompletion (partial_match_tree partial_match.now) before greedy_completion
            → Contains (partial_match_trees store.now.held.items) left
            → may_join join.Then left greedy_completion ≡ true
            → left.earliest ≤ℤ earliest → IsReachedCompletion
            (partial_match_tree partial_match.now) self.new
            (joined_matches join.Then left greedy_completion)) }
    {
        let bound = self.earliest;
        self.earliest = earliest;
        self.matching = Matching::new(alloc);
        self.record_candidates(alloc, bound, partial_match, store)?;
        Ok(())
    }

    /// Adds a vertex to the matching for each of the first positions of the left operands that
    /// begin at the bound: its neighbors are the numbers that stand there. False where Hall's
    /// condition then fails.
    fn record_candidates(
        &mut self,
        alloc: Global,
        bound: Instant,
        partial_match: &PartialMatch,
        store: &Store,
    ) -> Result<bool, NoMemory>
        ensures earliest { OnOk result (self.new.earliest ≡ self.old.earliest) }
        // Each left operand that begins at the bound extends the assignment by its own numbers.
        ensures noted { IfOk result (λ may. (left : PartialMatchTree) (x : BindTree)
            → Contains (partial_match_trees store.now.held.items) left
            → may_precede left bound (partial_match_tree partial_match.now) ≡ true
            → left.earliest ≡ self.old.earliest → disjoint left.tree x ≡ true
            → HasPerfectMatching self.old.matching.list.items x
            → (may ≡ true) × HasPerfectMatching self.new.matching.list.items (Pair left.tree x)) }
    {
        for place in 0..MAX_PLACES {
            if self.matching.list.len() >= MAX_CHOICES {
                return Ok(true);
            }
            let numbers = match candidate_set_at(
                alloc,
                place,
                self.earliest,
                bound,
                partial_match,
                store,
            )? {
                CandidateSet::Few(numbers) => numbers,
                CandidateSet::Many => continue,
                CandidateSet::Short => return Ok(true),
            };
            if !self.matching.admit(alloc, numbers)? {
                return Ok(false);
            }
        }
        Ok(true)
    }
}

/// Whether a stored partial match may precede a completion that contains the new one and begins at
/// `bound` at the latest.
fn may_precede(left: &PartialMatch, bound: Instant, partial_match: &PartialMatch) -> bool
    ensures { result ≡ may_precede (partial_match_tree left.now) bound
        (partial_match_tree partial_match.now) }
{
    left.latest <= bound && are_disjoint(&left.bind, &partial_match.bind)
}

/// The candidate numbers at one position, over the left operands that begin at this time and may
/// precede such a completion.
fn candidate_set_at(
    alloc: Global,
    place: usize,
    earliest: Instant,
    bound: Instant,
    partial_match: &PartialMatch,
    store: &Store,
) -> Result<CandidateSet, NoMemory>
    ensures { IfOk result (λ candidate_set. (left : PartialMatchTree)
        → Contains (partial_match_trees store.now.held.items) left
        → may_precede left bound (partial_match_tree partial_match.now) ≡ true
        → left.earliest ≡ earliest → IsInCandidateSet candidate_set place left.tree) }
{
    let mut found = Vec::new(alloc);
    let mut numbers = Vec::new(alloc);
    let mut end = store.held.len();
    while let Some(at) = store.last_begun(end, earliest) {
        let left = &store.held[at];
        end = at;
        if left.earliest == earliest && may_precede(left, bound, partial_match) {
            numbers.clear();
            push_numbers(&left.bind, &mut numbers)?;
            let Some(number) = numbers.get(place) else {
                return Ok(CandidateSet::Short);
            };
            found.push(*number)?;
            if are_many(&mut found) {
                return Ok(CandidateSet::Many);
            }
        }
    }
    sort_dedup(&mut found);
    Ok(CandidateSet::Few(found))
}

/// Whether there are more distinct numbers than left sides. Sorts and deduplicates the list once it
/// is long, so that a push costs amortized O(log n).
fn are_many(numbers: &mut Vec<u64>) -> bool
    ensures { (n : ℕ) → Contains numbers.old.items n → Contains numbers.new.items n }
{
    if numbers.len() <= MANY {
        return false;
    }
    sort_dedup(numbers);
    numbers.len() > MAX_PENDING_LEFTS
}

/// The latest begin before `bound` of a stored partial match that may precede a completion which
/// begins at `bound` at the latest. Looks at the newest first, and tests disjointness only where
/// the begin improves the result.
fn latest_before(bound: Instant, partial_match: &PartialMatch, store: &Store) -> Option<Instant>
    ensures { (left : PartialMatchTree) → Contains (partial_match_trees store.now.held.items) left
        → may_precede left bound (partial_match_tree partial_match.now) ≡ true
        → left.earliest <ℤ bound → (time : ℤ) × (result ≡ Some time) × (left.earliest ≤ℤ time) }
{
    let mut latest = None;
    let mut end = store.held.len();
    while let Some(at) = store.last_begun(end, bound) {
        let left = &store.held[at];
        let is_later = is_between(&latest, left.earliest, bound);
        if is_later && may_precede(left, bound, partial_match) {
            latest = Some(left.earliest);
        }
        end = at;
    }
    latest
}

/// Whether a time lies after `one`, if any, and before `other`.
fn is_between(one: &Option<Instant>, time: Instant, other: Instant) -> bool
    ensures later { result ≡ true → (start : ℤ) → one.now ≡ Some start → start ≤ℤ time }
    ensures out { result ≡ false → time <ℤ other → (start : ℤ) × (one.now ≡ Some start)
        × (time ≤ℤ start) }
{
    match one {
        Some(start) => *start < time && time < other,
        None => time < other,
    }
}
