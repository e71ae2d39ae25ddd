//! One row at a `REPEATS n`: an incremental self-join.
//!
//! Level j holds the sets of j parts that can still grow, for j from 1 to n - 1. At a row each set
//! of level j joins each new part to a set of j + 1 parts, which is new one level up. Two new parts
//! both contain this row, so they never stand in one set: joining old sets with new parts alone
//! misses nothing.

ghost use Rattle.std.specs.Prelude.{◌≡◌, ◌∷◌, ◌++◌, ◌+◌, ◌-◌, ◌<◌, ◌≤◌, [], map, length, IfOk};
ghost use Rattle.std.specs.Prelude.{OnOk, Err, IfSome, IfNone};
ghost use Rattle.match_bindings.specs.BindTree.{Single};
ghost use Rattle.match_pruning.specs.declared.join.Join.TheVariants as join;
ghost use Rattle.match_pruning.specs.declared.stop.Stop.TheVariants as stop;
ghost use Rattle.match_stream.specs.RetainedPart.{held_count};
ghost use Rattle.match_pruning.specs.inner.PartialMatches.{partial_match_tree, partial_match_trees};
ghost use Rattle.match_pruning.specs.inner.Steps.{held_with, kept, stored, match_joins, levels_new};
ghost use Rattle.match_pruning.specs.inner.Steps.{levels_after, levels_above, all_levels, risen};
ghost use Rattle.match_pruning.specs.inner.Steps.{raised, repeated_sets};
ghost use Rattle.match_pruning.specs.inner.Needed.{needed, needed_trees};
ghost use Rattle.match_pruning.specs.inner.PendingLefts.{pending_lefts_of};
ghost use Rattle.match_stream.specs.inner.Totals.{AdmitLevels};
ghost use Rattle.match_stream.specs.inner.Nodes.{store_list, store_lists};

use crate::budget::Budget;
use crate::levels::Levels;
use flow_values::NoMemory;
use match_bindings::singleton;
use match_pruning::Window;
use match_pruning::join::Join;
use match_pruning::join_filter::JoinFilter;
use match_pruning::partial_match::PartialMatch;
use match_pruning::pending_left::PendingLeft;
use match_pruning::stop::Stop;
use match_pruning::store::Store;
use std::alloc::Global;
use std::mem;
use stix_times::Instant;

impl Levels {
    /// One row: given the new parts, the needed new sets of n parts. Stores the new smaller sets at
    /// their levels.
    pub fn step(
        &mut self,
        alloc: Global,
        now: Instant,
        new: &[PartialMatch],
        pending_lefts: &[PendingLeft],
        budget: &mut Budget,
    ) -> Result<Vec<PartialMatch>, Stop>
        ensures new { IfOk result (λ sets. partial_match_trees sets.items
            ≡ needed_trees self.old.count now (pending_lefts_of pending_lefts.now)
            (levels_new self.old.window now (map (held_with Single) (partial_match_trees new.now))
            (partial_match_trees new.now)
            (all_levels self.old.count (store_lists self.old.stores.items)))) }
        ensures kept { OnOk result (all_levels self.new.count (store_lists self.new.stores.items)
            ≡ levels_after self.old.window now
            (map (held_with Single) (partial_match_trees new.now)) (partial_match_trees new.now)
            (all_levels self.old.count (store_lists self.old.stores.items))) }
        ensures count { OnOk result (self.new.count ≡ self.old.count) }
        ensures window { OnOk result (self.new.window ≡ self.old.window) }
        // The charge is exactly what the levels hold after the row.
        ensures counted { OnOk result (budget.new.left
            + held_count (levels_after self.old.window now
            (map (held_with Single) (partial_match_trees new.now)) (partial_match_trees new.now)
            (all_levels self.old.count (store_lists self.old.stores.items))) ≡ budget.old.left) }
        ensures over_limit { result ≡ Err stop.OverLimit
            → AdmitLevels self.old.window now
            (map (held_with Single) (partial_match_trees new.now)) (partial_match_trees new.now)
            (all_levels self.old.count (store_lists self.old.stores.items))
            → budget.old.left < held_count
            (levels_after self.old.window now
            (map (held_with Single) (partial_match_trees new.now)) (partial_match_trees new.now)
            (all_levels self.old.count (store_lists self.old.stores.items)))
            + length (needed_trees self.old.count now (pending_lefts_of pending_lefts.now)
            (levels_new self.old.window now (map (held_with Single) (partial_match_trees new.now))
            (partial_match_trees new.now)
            (all_levels self.old.count (store_lists self.old.stores.items)))) }
    {
        let first = singles(alloc, new)?;
        let mut stores = mem::replace(&mut self.stores, Vec::new(alloc));
        let last = last_made(&mut stores, self.count);
        let (made, sets) = step_made(alloc, stores, &self.window, now, first, new, budget)?;
        self.stores = made;
        match last {
            Some(store) => {
                let answer = self.step_last(alloc, store, now, sets, new, pending_lefts, budget)?;
                Ok(answer)
            }
            None => {
                let answer = self.raise(alloc, sets, now, budget)?;
                Ok(answer)
            }
        }
    }

    /// One row at the last level: stores its new sets, and answers the needed sets of n parts.
    fn step_last(
        &mut self,
        alloc: Global,
        level: Store,
        now: Instant,
        sets: Vec<PartialMatch>,
        new: &[PartialMatch],
        pending_lefts: &[PendingLeft],
        budget: &mut Budget,
    ) -> Result<Vec<PartialMatch>, Stop>
        requires { length self.old.stores.items + 1 ≤ self.old.count - 1 }
        ensures new { IfOk result (λ answer. partial_match_trees answer.items
            ≡ needed now (pending_lefts_of pending_lefts.now)
            (match_joins join.Repeats (kept self.old.window now (store_list level))
            (partial_match_trees new.now))) }
        ensures kept { OnOk result (store_lists self.new.stores.items
            ≡ store_lists self.old.stores.items
            ++ stored self.old.window now (store_list level) (partial_match_trees sets.items)
            ∷ []) }
        ensures count { OnOk result (self.new.count ≡ self.old.count) }
        ensures window { OnOk result (self.new.window ≡ self.old.window) }
        ensures counted { OnOk result (budget.new.left
            + length (stored self.old.window now (store_list level)
            (partial_match_trees sets.items)) ≡ budget.old.left) }
        ensures over_limit { result ≡ Err stop.OverLimit
            → budget.old.left < length (stored self.old.window now (store_list level)
            (partial_match_trees sets.items))
            + length (needed now (pending_lefts_of pending_lefts.now)
            (match_joins join.Repeats (kept self.old.window now (store_list level))
            (partial_match_trees new.now))) }
    {
        let mut store = level;
        let answer = step_level(
            alloc,
            &mut store,
            &self.window,
            now,
            sets,
            new,
            pending_lefts,
            budget,
        )?;
        self.stores.push(store)?;
        Ok(answer)
    }

    /// Passes new sets to the level above those that exist: they are the answer at the top, and
    /// start the next level elsewhere.
    fn raise(
        &mut self,
        alloc: Global,
        sets: Vec<PartialMatch>,
        now: Instant,
        budget: &mut Budget,
    ) -> Result<Vec<PartialMatch>, Stop>
        ensures new { IfOk result (λ answer. partial_match_trees answer.items
            ≡ repeated_sets self.old.count (risen
            (levels_above self.old.count (store_lists self.old.stores.items))
            (partial_match_trees sets.items))) }
        ensures kept { OnOk result (all_levels self.new.count (store_lists self.new.stores.items)
            ≡ store_lists self.old.stores.items
            ++ raised self.old.window now (levels_above self.old.count
            (store_lists self.old.stores.items)) (partial_match_trees sets.items)) }
        ensures count { OnOk result (self.new.count ≡ self.old.count) }
        ensures window { OnOk result (self.new.window ≡ self.old.window) }
        ensures counted { OnOk result (budget.new.left
            + held_count (raised self.old.window now
            (levels_above self.old.count (store_lists self.old.stores.items))
            (partial_match_trees sets.items)) ≡ budget.old.left) }
        ensures over_limit { result ≡ Err stop.OverLimit → budget.old.left
            < held_count (raised self.old.window now
            (levels_above self.old.count (store_lists self.old.stores.items))
            (partial_match_trees sets.items)) }
    {
        if self.count == 0 {
            return Ok(Vec::new(alloc));
        }
        if self.stores.len() >= (self.count - 1) as usize {
            return Ok(sets);
        }
        if sets.is_empty() {
            return Ok(sets);
        }
        budget.take_admitted(&sets, &self.window, now)?;
        let mut store = Store::new(alloc);
        store.admit(sets, &self.window, now)?;
        self.stores.push(store)?;
        Ok(Vec::new(alloc))
    }
}

/// Takes out the last level, where all levels exist.
fn last_made(stores: &mut Vec<Store>, count: u32) -> Option<Store>
    requires { length stores.old.items ≤ count - 1 }
    ensures last { IfSome result (λ last. (stores.old.items ≡ stores.new.items ++ last ∷ [])
        × (length stores.new.items + 2 ≡ count)) }
    ensures none { IfNone result ((stores.new.items ≡ stores.old.items)
        × (2 ≤ count → length stores.old.items + 1 < count)) }
{
    if count >= 2 && stores.len() >= (count - 1) as usize {
        stores.pop()
    } else {
        None
    }
}

/// One row at the levels that exist: their stores after it, and the new sets above them.
fn step_made(
    alloc: Global,
    stores: Vec<Store>,
    window: &Window,
    now: Instant,
    first: Vec<PartialMatch>,
    new: &[PartialMatch],
    budget: &mut Budget,
) -> Result<(Vec<Store>, Vec<PartialMatch>), Stop>
    ensures kept { IfOk result (λ after. store_lists after.0.items
        ≡ levels_after window.now now (partial_match_trees first.items)
        (partial_match_trees new.now) (store_lists stores.items)) }
    ensures new { IfOk result (λ after. partial_match_trees after.1.items
        ≡ levels_new window.now now (partial_match_trees first.items) (partial_match_trees new.now)
        (store_lists stores.items)) }
    ensures counted { OnOk result (budget.new.left
        + held_count (levels_after window.now now (partial_match_trees first.items)
        (partial_match_trees new.now) (store_lists stores.items)) ≡ budget.old.left) }
    ensures over_limit { result ≡ Err stop.OverLimit
        → AdmitLevels window.now now (partial_match_trees first.items)
        (partial_match_trees new.now) (store_lists stores.items)
        → budget.old.left < held_count
        (levels_after window.now now (partial_match_trees first.items)
        (partial_match_trees new.now) (store_lists stores.items))
        + length (levels_new window.now now (partial_match_trees first.items)
        (partial_match_trees new.now) (store_lists stores.items)) }
    ensures some { result ≡ Err stop.OverLimit → 0 < length stores.items }
{
    let mut made = Vec::new(alloc);
    let mut sets = first;
    for store in stores {
        let mut level = store;
        let above = step_level(alloc, &mut level, window, now, sets, new, &[], budget)?;
        made.push(level)?;
        sets = above;
    }
    Ok((made, sets))
}

/// One row at one level: stores its new sets, and answers the needed new sets one level up.
fn step_level(
    alloc: Global,
    level: &mut Store,
    window: &Window,
    now: Instant,
    sets: Vec<PartialMatch>,
    new: &[PartialMatch],
    pending_lefts: &[PendingLeft],
    budget: &mut Budget,
) -> Result<Vec<PartialMatch>, Stop>
    ensures new { IfOk result (λ above. partial_match_trees above.items
        ≡ needed now (pending_lefts_of pending_lefts.now)
        (match_joins join.Repeats (kept window.now now (store_list level.old))
        (partial_match_trees new.now))) }
    ensures kept { OnOk result (store_list level.new
        ≡ stored window.now now (store_list level.old) (partial_match_trees sets.items)) }
    ensures counted { OnOk result (budget.new.left
        + length (stored window.now now (store_list level.old) (partial_match_trees sets.items))
        ≡ budget.old.left) }
    ensures over_limit { result ≡ Err stop.OverLimit
        → budget.old.left < length (stored window.now now (store_list level.old)
        (partial_match_trees sets.items))
        + length (needed now (pending_lefts_of pending_lefts.now)
        (match_joins join.Repeats (kept window.now now (store_list level.old))
        (partial_match_trees new.now))) }
{
    level.expire(window, now);
    budget.take(level.held.len())?;
    budget.take_admitted(&sets, window, now)?;
    let mut above = Vec::new(alloc);
    let join_filter = JoinFilter {
        time: now,
        pending_lefts,
        budget: budget.left,
    };
    Join::Repeats.join(alloc, &level.held, new, &join_filter, &mut above)?;
    level.admit(sets, window, now)?;
    Ok(above)
}

/// Each part as a set of one.
fn singles(alloc: Global, new: &[PartialMatch]) -> Result<Vec<PartialMatch>, NoMemory>
    ensures { IfOk result (λ sets. partial_match_trees sets.items
        ≡ map (held_with Single) (partial_match_trees new.now)) }
{
    let mut sets = Vec::new(alloc);
    for part in new {
        let held = single(alloc, part)?;
        sets.push(held)?;
    }
    Ok(sets)
}

/// A part as a set of one.
fn single(alloc: Global, part: &PartialMatch) -> Result<PartialMatch, NoMemory>
    ensures { IfOk result (λ set. partial_match_tree set
        ≡ held_with Single (partial_match_tree part.now)) }
{
    let bind = singleton(alloc, &part.bind)?;
    Ok(PartialMatch {
        bind,
        earliest: part.earliest,
        latest: part.latest,
    })
}
