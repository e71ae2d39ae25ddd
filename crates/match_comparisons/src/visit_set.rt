ghost use Rattle.std.specs.Prelude.{◌≡◌, ◌↔◌, ◌⊎◌, ℕ, IsTrue, OnOk};
ghost use Rattle.match_comparisons.specs.inner.VisitSet.{HasVisit};

use flow_values::NoMemory;
use std::alloc::Global;
use std::collections::BTreeSet;

/// A set of visits to referenced objects: pairs of a position and of how many steps were left
/// there.
#[derive(Drop)]
pub(crate) struct VisitSet {
    pairs: BTreeSet<(usize, u32)>,
}

impl VisitSet {
    /// The empty set.
    pub(crate) fn new(alloc: Global) -> VisitSet
        ensures { (left at : ℕ) → ¬ HasVisit result left at }
    {
        VisitSet {
            pairs: BTreeSet::new(alloc),
        }
    }

    /// Whether the object at this position was visited with `left` steps left.
    pub(crate) fn has(&self, left: usize, at: u32) -> bool
        ensures { IsTrue result ↔ HasVisit self.now left at }
    {
        self.pairs.contains(&(left, at))
    }

    /// Adds a visit.
    pub(crate) fn add(&mut self, left: usize, at: u32) -> Result<(), NoMemory>
        ensures { OnOk result ((count place : ℕ) → HasVisit self.new count place
            ↔ (HasVisit self.old count place ⊎ ((count ≡ left) × (place ≡ at)))) }
    {
        self.pairs.insert((left, at))?;
        Ok(())
    }
}
