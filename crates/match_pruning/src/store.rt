ghost use Rattle.std.specs.Prelude.{◌≡◌, ◌++◌, ◌∷◌, ◌≤◌, ◌<◌, [], true, length, not};
ghost use Rattle.std.specs.Prelude.{slice_index_or, OnOk, IfSome, IfNone};
ghost use Rattle.std.proofs.Props.{props};
ghost use Rattle.match_pruning.specs.Stores.{window_of};
ghost use Rattle.match_pruning.specs.inner.Retains.{retains};
ghost use Rattle.match_pruning.specs.inner.PartialMatches.{partial_match_tree, partial_match_trees};
ghost use Rattle.match_pruning.specs.declared.partial_match.PartialMatch.{PartialMatch};
ghost use Rattle.match_pruning.specs.inner.Heaps.{IsHeap, AreLater};
ghost use Rattle.match_pruning.specs.inner.Heaps.{IsLastBegun, IsNextBegun};
ghost use Rattle.match_pruning.specs.inner.Steps.{kept};
ghost use Rattle.match_pruning.specs.inner.UpToOrder.{AreSameMultiset};

use crate::heap::{last_begun, next_begun, sift_down, sift_up};
use crate::partial_match::PartialMatch;
use crate::{Window, expired};
use flow_values::NoMemory;
use match_bindings::Bounds;
use std::alloc::Global;
use stix_times::Instant;

/// The partial matches stored for one side of a node, or for one level of a `REPEATS`.
#[derive(Drop)]
pub struct Store {
    pub held: Vec<PartialMatch>,
    /// The first `heaped` are a 4-ary heap by earliest time, so that what expires first is at the
    /// root. The others were added since the last expiry, and are sifted in at the next one.
    pub heaped: usize,
    ghost heap: { IsHeap held.items heaped } by { Prim.hlevel props },
    ghost within: { heaped ≤ length held.items },
}

impl Store {
    /// An empty store. Takes no memory.
    pub fn new(alloc: Global) -> Store
        ensures { partial_match_trees result.held.items ≡ [] }
    {
        Store {
            held: Vec::new(alloc),
            heaped: 0,
        }
    }

    /// Removes what has expired, and leaves the rest in any order. O(log n) for each removed and
    /// each recently added element; what stays costs nothing. Takes no memory.
    pub fn clear(&mut self, window: &Window, now: Instant)
        // Equal as multisets: the order of what stays is free.
        ensures { AreSameMultiset (kept window.now now (partial_match_trees self.old.held.items))
            (partial_match_trees self.new.held.items) }
    {
        self.heapify();
        while let Some(first) = self.held.first() {
            if is_retained(window, first.earliest, now) {
                return;
            }
            self.drop_first();
        }
    }

    /// Sifts the elements added since the last expiry into the heap.
    fn heapify(&mut self)
        ensures same { AreSameMultiset (partial_match_trees self.old.held.items)
            (partial_match_trees self.new.held.items) }
        ensures heaped { self.new.heaped ≡ length self.new.held.items }
    {
        while self.heaped < self.held.len() {
            sift_up(&mut self.held, self.heaped);
            self.heaped += 1;
        }
    }

    /// Removes the root, where all elements are in the heap.
    fn drop_first(&mut self)
        requires some { 0 < length self.old.held.items }
        requires heaped { self.old.heaped ≡ length self.old.held.items }
        ensures others { (d : PartialMatch)
            → AreSameMultiset (partial_match_trees self.old.held.items)
            (partial_match_tree (slice_index_or self.old.held.items 0 d)
            ∷ partial_match_trees self.new.held.items) }
        ensures heaped { self.new.heaped ≡ length self.new.held.items }
        ensures fewer { length self.new.held.items < length self.old.held.items }
    {
        drop(self.held.swap_remove(0));
        sift_down(&mut self.held);
        self.heaped = self.held.len();
    }

    /// Removes what has expired, and keeps the order of the rest.
    pub fn expire(&mut self, window: &Window, now: Instant)
        ensures { partial_match_trees self.new.held.items
            ≡ kept window.now now (partial_match_trees self.old.held.items) }
    {
        if self.is_cleared(window, now) {
            return;
        }
        self.heaped = 0;
        keep_retained(&mut self.held, window, now);
    }

    /// Whether nothing has expired, as far as a look at the root can tell. Only true carries a
    /// promise.
    fn is_cleared(&self, window: &Window, now: Instant) -> bool
        ensures { result ≡ true → partial_match_trees self.now.held.items
            ≡ kept window.now now (partial_match_trees self.now.held.items) }
    {
        if self.heaped < self.held.len() {
            return false;
        }
        match self.held.first() {
            Some(first) => is_retained(window, first.earliest, now),
            None => true,
        }
    }

    /// The index of the last partial match before `end` that begins at `time` or earlier, if there
    /// is one. Repeated calls find all that end by `time`, since each begins before it ends.
    pub fn last_begun(&self, end: usize, time: Instant) -> Option<usize>
        requires { end ≤ length self.now.held.items }
        ensures some { IfSome result (λ at. IsLastBegun self.now.held.items time at end) }
        ensures none { IfNone result (AreLater self.now.held.items time 0 end) }
    {
        last_begun(&self.held, self.heaped, end, time)
    }

    /// The index of the first partial match from `start` on that begins at `time` or earlier, if
    /// there is one.
    pub fn next_begun(&self, start: usize, time: Instant) -> Option<usize>
        ensures some { IfSome result (λ at. IsNextBegun self.now.held.items time at start) }
        ensures none { IfNone result (AreLater self.now.held.items time start
            (length self.now.held.items)) }
    {
        next_begun(&self.held, self.heaped, start, time)
    }

    /// Appends the new partial matches that haven't expired.
    pub fn admit(
        &mut self,
        new: Vec<PartialMatch>,
        window: &Window,
        now: Instant,
    ) -> Result<(), NoMemory>
        ensures { OnOk result (partial_match_trees self.new.held.items
            ≡ partial_match_trees self.old.held.items
            ++ kept window.now now (partial_match_trees new.items)) }
    {
        let mut retained = new;
        keep_retained(&mut retained, window, now);
        self.held.append(&mut retained)?;
        Ok(())
    }
}

/// Removes the expired ones from a list, and keeps the order of the rest.
fn keep_retained(held: &mut Vec<PartialMatch>, window: &Window, now: Instant)
    ensures { partial_match_trees held.new.items
        ≡ kept window.now now (partial_match_trees held.old.items) }
{
    held.retain(|partial_match| is_retained(window, partial_match.earliest, now));
}

/// The window of a store under these qualifiers.
pub fn store_window(above: &Bounds, after_left: bool) -> Window
    ensures { result ≡ window_of above.now after_left }
{
    Window {
        seconds: above.seconds,
        start: above.start,
        stop: above.stop,
        after_left,
    }
}

/// Whether a partial match that begins at `earliest` hasn't expired.
pub fn is_retained(window: &Window, earliest: Instant, now: Instant) -> bool
    ensures { result ≡ retains window.now earliest now }
{
    !expired(window, earliest, now)
}
