//! A lower bound on the begin of needed partial matches, so that the join never builds one that
//! begins too early.
//!
//! It takes one pass over the stored left operands, from the outermost `FOLLOWEDBY` inwards. A
//! partial match on the right is needed where its own store retains it, so where it begins now.
//! Otherwise some left operand precedes it, and it begins no earlier than the first of them ends.
//! Each step takes the minimum of both over all candidates, so nothing needed begins before it.

ghost use Rattle.std.specs.Prelude.{◌≡◌, ◌≤ℤ◌, ℕ, ℤ, true, false, Some, None, IfSome};
ghost use Rattle.std.specs.List.{Contains};
ghost use Rattle.match_bindings.specs.BindTree.{tree_of, has};
ghost use Rattle.match_pruning.specs.PartialMatchTree.{PartialMatchTree};
ghost use Rattle.match_pruning.specs.inner.PartialMatches.{partial_match_tree, partial_match_trees};
ghost use Rattle.match_pruning.specs.inner.CompletionBounds.{covers, MayBegin, MayEndOperand};
ghost use Rattle.match_pruning.specs.inner.Needed.{is_needed};
ghost use Rattle.match_pruning.specs.inner.PendingLefts.{pending_lefts_of};

use crate::partial_match::PartialMatch;
use crate::pending_left::PendingLeft;
use crate::store::Store;
use match_bindings::{Bind, are_disjoint, greatest_number};
use stix_times::Instant;

/// The earliest time at which a needed partial match can begin.
#[derive(Clone, Copy)]
pub struct EarliestStart {
    /// `None` where it may begin at any time.
    pub start: Option<Instant>,
    /// An observation number that no needed partial match has which begins exactly at `start`: each
    /// left operand that ends then has it.
    pub taken: Option<u64>,
}

impl EarliestStart {
    /// The bound under all enclosing `FOLLOWEDBY`s. The innermost is the last of `pending_lefts`.
    pub fn new(now: Instant, pending_lefts: &[PendingLeft]) -> EarliestStart
        // Nothing that is needed begins before the bound.
        ensures { (partial_match : PartialMatchTree)
            → is_needed now (pending_lefts_of pending_lefts.now) partial_match ≡ true
            → MayBegin result partial_match }
    {
        let mut earliest_start = EarliestStart {
            start: None,
            taken: None,
        };
        for pending_left in pending_lefts {
            earliest_start = earliest_start.under(now, pending_left);
        }
        earliest_start
    }

    /// The bound one `FOLLOWEDBY` further in: the earlier of now and the first end of a left
    /// operand which itself may begin so.
    fn under(&self, now: Instant, pending_left: &PendingLeft) -> EarliestStart
        ensures held { pending_left.now.window.after_left ≡ true → (left : PartialMatchTree)
            → Contains (partial_match_trees pending_left.now.left.held.items) left
            → MayBegin self.now left → MayEndOperand result left }
        ensures now { pending_left.now.window.after_left ≡ true → covers result.start now ≡ true }
        ensures free { pending_left.now.window.after_left ≡ true → result.start ≡ Some now
            → result.taken ≡ None }
        ensures any { pending_left.now.window.after_left ≡ false → result.start ≡ None }
    {
        if !pending_left.window.after_left {
            return EarliestStart {
                start: None,
                taken: None,
            };
        }
        let end = self.first_end(now, &pending_left.left);
        EarliestStart {
            start: Some(end.time),
            taken: end.number,
        }
    }

    /// The first end, up to now, of a left operand that may begin so. What begins after the first
    /// end so far also ends after it, and is skipped.
    fn first_end(&self, now: Instant, store: &Store) -> End
        ensures now { result.time ≤ℤ now }
        ensures free { result.time ≡ now → result.number ≡ None }
        ensures held { (left : PartialMatchTree)
            → Contains (partial_match_trees store.now.held.items) left
            → MayBegin self.now left → result.time ≤ℤ left.latest }
        ensures number { (left : PartialMatchTree)
            → Contains (partial_match_trees store.now.held.items) left → MayBegin self.now left
            → (n : ℕ) → result.number ≡ Some n → result.time ≡ left.latest
            → has n left.tree ≡ true }
    {
        let mut end = End {
            time: now,
            number: None,
        };
        if self.is_now(now) {
            return end;
        }
        let mut start = 0;
        while let Some(at) = store.next_begun(start, end.time) {
            let left = &store.held[at];
            if self.may_begin(left) {
                end = end.with(left);
            }
            start = at + 1;
        }
        end
    }

    /// Whether a partial match may be needed, by its begin and, at the bound itself, by the
    /// excluded number.
    pub fn may_begin(&self, partial_match: &PartialMatch) -> bool
        ensures { MayBegin self.now (partial_match_tree partial_match.now) → result ≡ true }
    {
        let Some(taken) = self.taken else {
            return self.covers(partial_match.earliest);
        };
        match self.start {
            Some(start) if partial_match.earliest == start => !binds(&partial_match.bind, taken),
            _ => self.covers(partial_match.earliest),
        }
    }

    /// Whether the bound is now or later. Nothing that begins then ends sooner, so the left
    /// operands needn't be searched.
    fn is_now(&self, now: Instant) -> bool
        ensures { result ≡ true → (time : ℤ) → covers self.now.start time ≡ true → now ≤ℤ time }
    {
        match self.start {
            Some(start) => now <= start,
            None => false,
        }
    }

    /// Whether a time isn't before the bound.
    pub fn covers(&self, time: Instant) -> bool
        ensures { result ≡ covers self.now.start time }
    {
        match self.start {
            Some(start) => start <= time,
            None => true,
        }
    }
}

/// The minimum of the ends seen so far, and a number that all partial matches with this end have,
/// if one was found.
#[derive(Clone, Copy)]
struct End {
    time: Instant,
    number: Option<u64>,
}

impl End {
    /// Includes one more partial match.
    fn with(&self, partial_match: &PartialMatch) -> End
        ensures before { result.time ≤ℤ self.now.time }
        ensures first { result.time ≤ℤ partial_match.now.latest }
        ensures kept { (n : ℕ) → result.number ≡ Some n → result.time ≡ self.now.time
            → self.now.number ≡ Some n }
        ensures bound { (n : ℕ) → result.number ≡ Some n → result.time ≡ partial_match.now.latest
            → has n (tree_of partial_match.now.bind) ≡ true }
    {
        if partial_match.latest < self.time {
            return End {
                time: partial_match.latest,
                number: a_number(&partial_match.bind),
            };
        }
        if self.time < partial_match.latest {
            return End {
                time: self.time,
                number: self.number,
            };
        }
        End {
            time: self.time,
            number: self.common(&partial_match.bind),
        }
    }

    /// Its number, where the binding has it too.
    fn common(&self, bind: &Bind) -> Option<u64>
        ensures { (n : ℕ) → result ≡ Some n → (self.now.number ≡ Some n)
            × (has n (tree_of bind.now) ≡ true) }
    {
        match self.number {
            Some(number) if binds(bind, number) => Some(number),
            _ => None,
        }
    }
}

/// Whether a binding has an observation number.
fn binds(bind: &Bind, number: u64) -> bool
    ensures { result ≡ has number (tree_of bind.now) }
{
    !are_disjoint(&Bind::One(number), bind)
}

/// One of the numbers of a binding: the greatest, so that what can't begin when the binding ends is
/// recognized. It is checked, since no contract says that a binding has any number.
fn a_number(bind: &Bind) -> Option<u64>
    ensures { IfSome result (λ number. has number (tree_of bind.now) ≡ true) }
{
    let number = greatest_number(bind);
    if binds(bind, number) {
        Some(number)
    } else {
        None
    }
}
