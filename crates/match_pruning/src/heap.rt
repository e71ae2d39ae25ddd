//! A 4-ary min-heap by earliest time: the partial match that expires first is at the root.
//!
//! The children of index p are 4 p + 1 to 4 p + 4. Four children halve the depth of a binary heap,
//! and the four lie side by side in memory. `sift_up` and `sift_down` are the textbook operations:
//! each swap restores the order at one index and may break it at the next, O(log n) in all.
//!
//! `last_begun` and `next_begun` are range queries by pruned traversal. No descendant of an element
//! begins before it, so they skip the descendants of one that begins after the time asked. On each
//! level these are a run of indices.

ghost use Rattle.std.specs.Prelude.{◌≡◌, ◌≤ℤ◌, ◌<◌, ◌≤◌, ◌+◌, ◌*◌, int_lt, length};
ghost use Rattle.std.specs.Prelude.{IfSome, IfNone};
ghost use Rattle.match_pruning.specs.declared.partial_match.PartialMatch.{PartialMatch};
ghost use Rattle.match_pruning.specs.inner.PartialMatches.{partial_match_trees};
ghost use Rattle.match_pruning.specs.inner.UpToOrder.{AreSameMultiset};
ghost use Rattle.match_pruning.specs.inner.Heaps.{IsHeap, IsHeapBelow, IsEarliestChild, time_at};
ghost use Rattle.match_pruning.specs.inner.Heaps.{AreLater, IsLastBegun, IsNextBegun};

use crate::partial_match::PartialMatch;
use stix_times::Instant;

/// How many children an index has.
const WIDTH: usize = 4;

/// Moves the element at `place` up until its parent isn't later. The elements before it are a heap.
pub fn sift_up(held: &mut [PartialMatch], place: usize)
    requires inside { place < length held.old }
    requires heap { IsHeap held.old place }
    ensures heap { IsHeap held.new (place + 1) }
    // A permutation: nothing is lost or added.
    ensures same { AreSameMultiset (partial_match_trees held.old) (partial_match_trees held.new) }
    ensures length { length held.new ≡ length held.old }
{
    let mut at = place;
    while at > 0 {
        let parent = (at - 1) / WIDTH;
        if !is_earlier(held, at, parent) {
            return;
        }
        held.swap(parent, at);
        at = parent;
    }
}

/// Moves the root down until no child is earlier. Everything but the root is in heap order.
pub fn sift_down(held: &mut [PartialMatch])
    requires { IsHeapBelow held.old (length held.old) }
    ensures heap { IsHeap held.new (length held.new) }
    // A permutation: nothing is lost or added.
    ensures same { AreSameMultiset (partial_match_trees held.old) (partial_match_trees held.new) }
    ensures length { length held.new ≡ length held.old }
{
    let mut at = 0;
    while let Some(child) = earliest_child(held, at) {
        if !is_earlier(held, child, at) {
            return;
        }
        held.swap(at, child);
        at = child;
    }
}

/// The index of the earliest child, if there is a child.
fn earliest_child(held: &[PartialMatch], at: usize) -> Option<usize>
    ensures some { IfSome result (λ child. IsEarliestChild held.now at child (length held.now)) }
    ensures none { IfNone result (length held.now ≤ 4 * at + 1) }
{
    if at > held.len() / WIDTH {
        return None;
    }
    let first = WIDTH * at + 1;
    if first >= held.len() {
        return None;
    }
    let end = held.len().min(first + WIDTH);
    let mut earliest = first;
    for child in first + 1..end {
        if held[child].earliest < held[earliest].earliest {
            earliest = child;
        }
    }
    Some(earliest)
}

/// The index of the last element before `end` that begins at `time` or earlier, if there is one.
/// The first `heaped` elements are a heap. O(log n) for each run of later ones.
pub fn last_begun(held: &[PartialMatch], heaped: usize, end: usize, time: Instant) -> Option<usize>
    requires inside { end ≤ length held.now }
    requires heap { IsHeap held.now heaped }
    ensures some { IfSome result (λ at. IsLastBegun held.now time at end) }
    ensures none { IfNone result (AreLater held.now time 0 end) }
{
    let mut from = end;
    while from > 0 {
        if held[from - 1].earliest <= time {
            return Some(from - 1);
        }
        from = later_run(held, heaped, from - 1, time);
    }
    None
}

/// The start of a run of elements up to `place` that all begin after `time`; `place + 1` where the
/// one at `place` doesn't. Children of a run of parents that begin later are such a run.
#[cycle(later_run)]
fn later_run(held: &[PartialMatch], heaped: usize, place: usize, time: Instant) -> usize
    requires inside { place < length held.now }
    requires heap { IsHeap held.now heaped }
    ensures later { AreLater held.now time result (place + 1) }
    ensures bound { result ≤ place + 1 }
    ensures begun { (d : PartialMatch) → result ≡ place + 1 → time_at held.now d place ≤ℤ time }
{
    if held[place].earliest <= time {
        return place + 1;
    }
    if place == 0 || place >= heaped {
        return place;
    }
    let parent = (place - 1) / WIDTH;
    let first = later_run(held, heaped, parent, time);
    if first > parent {
        return place;
    }
    WIDTH * first + 1
}

/// The index of the first element from `start` on that begins at `time` or earlier, if there is
/// one. The first `heaped` elements are a heap. O(log n) for each run of later ones.
pub fn next_begun(
    held: &[PartialMatch],
    heaped: usize,
    start: usize,
    time: Instant,
) -> Option<usize>
    requires within { heaped ≤ length held.now }
    requires heap { IsHeap held.now heaped }
    ensures some { IfSome result (λ at. IsNextBegun held.now time at start) }
    ensures none { IfNone result (AreLater held.now time start (length held.now)) }
{
    let mut at = start;
    while at < held.len() {
        if held[at].earliest <= time {
            return Some(at);
        }
        at = later_run_end(held, heaped, at, time);
    }
    None
}

/// The end of a run of elements from `place` on that all begin after `time`; `place` where the one
/// there doesn't. Children of a run of parents that begin later are such a run.
#[cycle(later_run_end)]
fn later_run_end(held: &[PartialMatch], heaped: usize, place: usize, time: Instant) -> usize
    requires inside { place < length held.now }
    requires within { heaped ≤ length held.now }
    requires heap { IsHeap held.now heaped }
    ensures later { AreLater held.now time place result }
    ensures bound { (place ≤ result) × (result ≤ length held.now) }
    ensures begun { (d : PartialMatch) → result ≡ place → time_at held.now d place ≤ℤ time }
{
    if held[place].earliest <= time {
        return place;
    }
    if place == 0 || place >= heaped {
        return place + 1;
    }
    let parent = (place - 1) / WIDTH;
    let end = later_run_end(held, heaped, parent, time);
    if end == parent {
        return place + 1;
    }
    if end > (heaped - 1) / WIDTH {
        return heaped;
    }
    WIDTH * end + 1
}

/// Whether the element at `place` begins earlier than the one at `other`.
fn is_earlier(held: &[PartialMatch], place: usize, other: usize) -> bool
    requires place { place < length held.now }
    requires other { other < length held.now }
    ensures { (d : PartialMatch) → result
        ≡ int_lt (time_at held.now d place) (time_at held.now d other) }
{
    held[place].earliest < held[other].earliest
}
