ghost use Rattle.std.specs.Prelude.{◌≡◌, ◌↔◌, ◌⊎◌, ℕ, Some, true, false, OnOk};
ghost use Rattle.match_comparisons.specs.inner.VisitSet.{HasVisit};

use crate::visit_set::VisitSet;
use flow_values::NoMemory;
use std::alloc::Global;

/// The memo of a search: at which referenced objects it finds a value, and at which it doesn't.
#[derive(Drop)]
pub(crate) struct SearchMemo {
    positive: VisitSet,
    negative: VisitSet,
}

impl SearchMemo {
    /// An empty memo.
    pub(crate) fn new(alloc: Global) -> SearchMemo
        ensures { (left at : ℕ) → (¬ HasVisit result.positive left at)
            × (¬ HasVisit result.negative left at) }
    {
        SearchMemo {
            positive: VisitSet::new(alloc),
            negative: VisitSet::new(alloc),
        }
    }

    /// Whether the search finds a value from the object at this position with `left` steps left.
    /// None where that isn't known yet.
    pub(crate) fn known(&self, left: usize, at: u32) -> Option<bool>
        ensures positive { result ≡ Some true → HasVisit self.now.positive left at }
        ensures negative { result ≡ Some false → HasVisit self.now.negative left at }
    {
        if self.positive.has(left, at) {
            Some(true)
        } else if self.negative.has(left, at) {
            Some(false)
        } else {
            None
        }
    }

    /// Adds a finding.
    pub(crate) fn add(&mut self, left: usize, at: u32, found: bool) -> Result<(), NoMemory>
        ensures positive { OnOk result ((count place : ℕ) → HasVisit self.new.positive count place
            → (HasVisit self.old.positive count place
            ⊎ ((found ≡ true) × (count ≡ left) × (place ≡ at)))) }
        ensures negative { OnOk result ((count place : ℕ) → HasVisit self.new.negative count place
            → (HasVisit self.old.negative count place
            ⊎ ((found ≡ false) × (count ≡ left) × (place ≡ at)))) }
    {
        if found {
            self.positive.add(left, at)
        } else {
            self.negative.add(left, at)
        }
    }
}
