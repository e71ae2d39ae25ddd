ghost use Rattle.std.specs.Prelude.{◌≡◌, true, IfOk};
ghost use Rattle.match_pruning.specs.PartialMatchTree.{PartialMatchTree};
ghost use Rattle.match_pruning.specs.inner.PartialMatches.{partial_match_tree};
ghost use Rattle.match_pruning.specs.inner.SkipIndexes.{HasCommon, IsLeftOperandQuery, CannotJoin};

use crate::earliest_start::EarliestStart;
use crate::join::Join;
use crate::numbers::{numbers_of, share_number};
use crate::partial_match::PartialMatch;
use flow_values::NoMemory;
use std::alloc::Global;
use stix_times::Instant;

/// A left operand as a query to a `SkipIndex`: which right operands join it to a result that isn't
/// too early?
#[derive(Drop)]
pub struct Query {
    pub join: Join,
    pub earliest_start: EarliestStart,
    /// The observation numbers that it binds.
    pub numbers: Vec<u64>,
    /// When it ends.
    pub end: Instant,
}

impl Query {
    /// The query of a partial match.
    pub fn new(
        alloc: Global,
        join: Join,
        earliest_start: &EarliestStart,
        first: &PartialMatch,
    ) -> Result<Query, NoMemory>
        ensures { IfOk result (λ query. IsLeftOperandQuery join earliest_start.now.start
            (partial_match_tree first.now) query) }
    {
        Ok(Query {
            join,
            earliest_start: *earliest_start,
            numbers: numbers_of(alloc, &first.bind)?,
            end: first.latest,
        })
    }

    /// Whether it joins no right operand that has these numbers and begins at `begin` or earlier,
    /// or none to a needed result. Only true carries a promise.
    pub fn excludes(&self, common: &[u64], begin: Instant) -> bool
        // One-sided: false promises nothing.
        ensures { result ≡ true → (second : PartialMatchTree) → HasCommon common.now begin second
            → CannotJoin self.now second }
    {
        !self.earliest_start.covers(begin)
            || self.join.is_late(self.end, begin)
            || share_number(&self.numbers, common)
    }
}
