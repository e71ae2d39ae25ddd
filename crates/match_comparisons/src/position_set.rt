ghost use Rattle.std.specs.Prelude.{◌≡◌, ◌↔◌, ◌⊎◌, ℕ, IsTrue, IfOk, OnOk};
ghost use Rattle.match_comparisons.specs.inner.PositionSet.{IsInPositions};

use flow_values::NoMemory;
use std::alloc::Global;
use std::collections::BTreeSet;

/// A set of positions in a bundle.
#[derive(Drop)]
pub(crate) struct PositionSet {
    set: BTreeSet<u32>,
}

impl PositionSet {
    /// The empty set.
    pub(crate) fn new(alloc: Global) -> PositionSet
        ensures { (at : ℕ) → ¬ IsInPositions result at }
    {
        PositionSet {
            set: BTreeSet::new(alloc),
        }
    }

    /// Whether a position is in the set.
    pub(crate) fn has(&self, at: u32) -> bool
        ensures { IsTrue result ↔ IsInPositions self.now at }
    {
        self.set.contains(&at)
    }

    /// Adds a position: whether it is new.
    pub(crate) fn add(&mut self, at: u32) -> Result<bool, NoMemory>
        ensures new { IfOk result (λ new. IsTrue new ↔ (¬ IsInPositions self.old at)) }
        ensures added { OnOk result ((place : ℕ) → IsInPositions self.new place
            ↔ (IsInPositions self.old place ⊎ (place ≡ at))) }
    {
        let new = self.set.insert(at)?;
        Ok(new)
    }
}
