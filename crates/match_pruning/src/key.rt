ghost use Rattle.std.specs.Prelude.{◌≡◌, IfOk};
ghost use Rattle.match_pruning.specs.inner.PartialMatches.{partial_match_tree};
ghost use Rattle.match_pruning.specs.inner.SkipIndexes.{HasCommon};

use crate::numbers::numbers_of;
use crate::partial_match::PartialMatch;
use flow_values::NoMemory;
use std::alloc::Global;
use stix_times::Instant;

/// The sort key of a right operand in a `SkipIndex`.
#[derive(Drop)]
pub struct SortKey {
    /// The observation numbers that it binds, ascending.
    pub numbers: Vec<u64>,
    /// When it begins.
    pub begin: Instant,
    /// Its index in the list of operands.
    pub place: usize,
}

impl SortKey {
    /// The key of the partial match at this index.
    pub fn new(
        alloc: Global,
        partial_match: &PartialMatch,
        place: usize,
    ) -> Result<SortKey, NoMemory>
        ensures place { IfOk result (λ key. key.place ≡ place) }
        ensures candidate { IfOk result
            (λ key. HasCommon key.numbers.items key.begin (partial_match_tree partial_match.now)) }
    {
        let mut numbers = numbers_of(alloc, &partial_match.bind)?;
        numbers.sort_unstable();
        Ok(SortKey {
            numbers,
            begin: partial_match.earliest,
            place,
        })
    }
}
