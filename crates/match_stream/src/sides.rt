ghost use Rattle.std.specs.Prelude.{◌≡◌, ◌+◌, ◌<◌, false, length, IfOk, OnOk, Err};
ghost use Rattle.match_pruning.specs.Stores.{window_of};
ghost use Rattle.match_pruning.specs.inner.PartialMatches.{partial_match_trees};
ghost use Rattle.match_pruning.specs.inner.Steps.{joins_both, sides_kept, sides_stored};
ghost use Rattle.match_pruning.specs.inner.Steps.{sides_count, empty_sides};
ghost use Rattle.match_pruning.specs.inner.JoinFilters.{join_filtered};
ghost use Rattle.match_pruning.specs.declared.stop.Stop.TheVariants as stop;
ghost use Rattle.match_stream.specs.inner.Nodes.{side_stores};
ghost use Rattle.match_pruning.specs.inner.UpToOrder.{AreSameSides};

use crate::budget::Budget;
use flow_values::NoMemory;
use match_bindings::Bounds;
use match_pruning::Window;
use match_pruning::join::Join;
use match_pruning::join_filter::JoinFilter;
use match_pruning::partial_match::PartialMatch;
use match_pruning::stop::Stop;
use match_pruning::store::{Store, store_window};
use std::alloc::Global;
use stix_times::Instant;

/// The stores of an `AND` or `FOLLOWEDBY`: what each side matched so far.
#[derive(Drop)]
pub(crate) struct Sides {
    pub left: Store,
    pub right: Store,
    pub left_window: Window,
    pub right_window: Window,
}

impl Sides {
    /// Empty stores under these qualifiers. `after_left` says that the right operand has to follow
    /// the left. Takes no memory.
    pub fn new(alloc: Global, above: &Bounds, after_left: bool) -> Sides
        ensures { side_stores result ≡ empty_sides (window_of above.now false)
            (window_of above.now after_left) }
    {
        Sides {
            left: Store::new(alloc),
            right: Store::new(alloc),
            left_window: store_window(above, false),
            right_window: store_window(above, after_left),
        }
    }

    /// Removes what has expired, and leaves the rest in any order. Takes no memory.
    #[inline(never)]
    pub fn clear(&mut self, now: Instant)
        ensures { AreSameSides (sides_kept now (side_stores self.old)) (side_stores self.new) }
    {
        self.left.clear(&self.left_window, now);
        self.right.clear(&self.right_window, now);
    }

    /// Removes what has expired, keeps the order, and charges the rest to the budget.
    #[inline(never)]
    pub fn expire(&mut self, now: Instant, budget: &mut Budget) -> Result<(), Stop>
        ensures kept { OnOk result (side_stores self.new ≡ sides_kept now (side_stores self.old)) }
        ensures counted { OnOk result (budget.new.left
            + sides_count (sides_kept now (side_stores self.old)) ≡ budget.old.left) }
        ensures over_limit { result ≡ Err stop.OverLimit
            → budget.old.left < sides_count (sides_kept now (side_stores self.old)) }
    {
        self.left.expire(&self.left_window, now);
        self.right.expire(&self.right_window, now);
        budget.take(self.left.held.len())?;
        budget.take(self.right.held.len())?;
        Ok(())
    }

    /// Joins what is new on each side with what is stored on the other, filtered; then stores what
    /// is new.
    pub fn join(
        &mut self,
        alloc: Global,
        join: Join,
        new_left: Vec<PartialMatch>,
        new_right: Vec<PartialMatch>,
        join_filter: &JoinFilter<'_>,
    ) -> Result<Vec<PartialMatch>, Stop>
        ensures new { IfOk result (λ new. partial_match_trees new.items
            ≡ join_filtered join_filter.now
            (joins_both join (side_stores self.old) (partial_match_trees new_left.items)
            (partial_match_trees new_right.items))) }
        ensures kept { OnOk result (side_stores self.new
            ≡ sides_stored join_filter.now.time (side_stores self.old)
            (partial_match_trees new_left.items) (partial_match_trees new_right.items)) }
        ensures over_limit { result ≡ Err stop.OverLimit → join_filter.now.budget
            < length (join_filtered join_filter.now
            (joins_both join (side_stores self.old) (partial_match_trees new_left.items)
            (partial_match_trees new_right.items))) }
    {
        let mut new = Vec::new(alloc);
        join.join(alloc, &new_left, &self.right.held, join_filter, &mut new)?;
        join.join(alloc, &self.left.held, &new_right, join_filter, &mut new)?;
        self.left
            .admit(new_left, &self.left_window, join_filter.time)?;
        self.right
            .admit(new_right, &self.right_window, join_filter.time)?;
        Ok(new)
    }
}
