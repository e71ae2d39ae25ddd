//! A greedy completion: a sufficient test for being needed, in time linear in what is stored.
//!
//! From the innermost `FOLLOWEDBY` outwards it takes the newest stored left operand that ends
//! before the completion begins and shares no observation with it. Where this succeeds up to a
//! store that retains the result, a completion exists, and `true` is a proof. Where it gets stuck,
//! another choice might have worked, so `false` proves nothing.

ghost use Rattle.std.specs.Prelude.{◌≡◌, ◌≤◌, ℕ, true, false, length, take, drop, IfOk, OnOk};
ghost use Rattle.std.specs.List.{Contains};
ghost use Rattle.match_bindings.specs.BindTree.{tree_of, has};
ghost use Rattle.match_pruning.specs.declared.join.Join.TheVariants as join;
ghost use Rattle.match_pruning.specs.PartialMatchTree.{PartialMatchTree};
ghost use Rattle.match_pruning.specs.inner.PartialMatches.{partial_match_tree, partial_match_trees};
ghost use Rattle.match_pruning.specs.inner.Steps.{joined_matches, may_join};
ghost use Rattle.match_pruning.specs.inner.Needed.{is_needed};
ghost use Rattle.match_pruning.specs.inner.PendingLefts.{pending_lefts_of};
ghost use Rattle.match_pruning.specs.inner.CompletionBounds.{IsGreedyCompletion};

use crate::numbers::{numbers_of, push_numbers, share_number};
use crate::partial_match::PartialMatch;
use crate::pending_left::PendingLeft;
use crate::store::{Store, is_retained};
use flow_values::NoMemory;
use match_bindings::Bind;
use std::alloc::Global;
use stix_times::Instant;

/// A new partial match with one stored left operand from each `FOLLOWEDBY` so far. Only its begin
/// and its numbers are kept.
#[derive(Drop)]
pub struct GreedyCompletion {
    /// When it begins.
    pub earliest: Instant,
    /// The observation numbers that it binds.
    pub numbers: Vec<u64>,
}

impl GreedyCompletion {
    /// The completion that has the new partial match alone.
    pub fn new(alloc: Global, partial_match: &PartialMatch) -> Result<GreedyCompletion, NoMemory>
        ensures { IfOk result (λ greedy_completion. IsGreedyCompletion greedy_completion
            (partial_match_tree partial_match.now)) }
    {
        Ok(GreedyCompletion {
            earliest: partial_match.earliest,
            numbers: numbers_of(alloc, &partial_match.bind)?,
        })
    }

    /// Whether the greedy choice reaches a completion. True is a proof that the partial match is
    /// needed; false proves nothing. The innermost left side is the last of `pending_lefts`.
    pub fn continues(
        &mut self,
        now: Instant,
        pending_lefts: &[PendingLeft],
    ) -> Result<bool, NoMemory>
        // One-sided: true proves that each partial match with this summary is needed.
        ensures { IfOk result (λ on. on ≡ true → (partial_match : PartialMatchTree)
            → IsGreedyCompletion self.old partial_match
            → is_needed now (pending_lefts_of pending_lefts.now) partial_match ≡ true) }
    {
        let Some((innermost, above)) = pending_lefts.split_last() else {
            return Ok(true);
        };
        if is_retained(&innermost.window, self.earliest, now) {
            return Ok(true);
        }
        if !self.take_last(&innermost.left)? {
            return Ok(false);
        }
        let on = self.continues(now, above)?;
        Ok(on)
    }

    /// Adds the newest stored partial match that ends no later than the completion begins and
    /// shares no number with it. False if there is none.
    fn take_last(&mut self, store: &Store) -> Result<bool, NoMemory>
        ensures { IfOk result (λ took. took ≡ true → (partial_match : PartialMatchTree)
            → IsGreedyCompletion self.old partial_match
            → (left : PartialMatchTree)
            × Contains (partial_match_trees store.now.held.items) left
            × (may_join join.Then left partial_match ≡ true)
            × IsGreedyCompletion self.new (joined_matches join.Then left partial_match)) }
    {
        let mut end = store.held.len();
        while let Some(at) = store.last_begun(end, self.earliest) {
            let left = &store.held[at];
            if left.latest <= self.earliest && self.add(&left.bind)? {
                self.earliest = left.earliest;
                return Ok(true);
            }
            end = at;
        }
        Ok(false)
    }

    /// Adds the numbers of a binding, unless one is there already: whether it added them.
    fn add(&mut self, bind: &Bind) -> Result<bool, NoMemory>
        ensures earliest { OnOk result (self.new.earliest ≡ self.old.earliest) }
        ensures added { IfOk result (λ added. added ≡ true → (n : ℕ)
            → has n (tree_of bind.now) ≡ true
            → (¬ (Contains self.old.numbers.items n)) × Contains self.new.numbers.items n) }
        ensures kept { OnOk result ((n : ℕ) → Contains self.old.numbers.items n
            → Contains self.new.numbers.items n) }
        ensures same { IfOk result (λ added. added ≡ false
            → self.new.numbers.items ≡ self.old.numbers.items) }
    {
        let before = self.numbers.len();
        push_numbers(bind, &mut self.numbers)?;
        if has_again(&self.numbers, before) {
            self.numbers.truncate(before);
            return Ok(false);
        }
        Ok(true)
    }
}

/// Whether a number from `place` on occurs before it too.
fn has_again(numbers: &[u64], place: usize) -> bool
    requires { place ≤ length numbers.now }
    ensures { result ≡ false → (n : ℕ) → Contains (drop place numbers.now) n
        → ¬ (Contains (take place numbers.now) n) }
{
    let (before, after) = numbers.split_at(place);
    share_number(before, after)
}
