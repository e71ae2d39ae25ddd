//! A skip index: the right operands sorted by their observation numbers, with block summaries at
//! several sizes, so that a query skips whole blocks that can't join.
//!
//! Operands with common observations are neighbors in this order, so a block often shares an
//! observation with the query as a whole. Blocks have 4, 16, 64 .. keys. At each key the query
//! tries the largest block that starts there first. A block is skipped only where its summary
//! excludes each of its keys (see `block`), so no operand that joins is missed. Where many operands
//! overlap with each left one, this avoids the full product of a nested-loop join.

ghost use Rattle.std.specs.Prelude.{◌≡◌, ◌⊎◌, ◌≤◌, ◌<◌, ℕ, List, length, IfOk};
ghost use Rattle.std.specs.List.{AllWithin, Contains};
ghost use Rattle.match_pruning.specs.declared.key.SortKey.{SortKey};
ghost use Rattle.match_pruning.specs.declared.partial_match.PartialMatch.{PartialMatch};
ghost use Rattle.match_pruning.specs.inner.PartialMatches.{partial_match_tree};
ghost use Rattle.match_pruning.specs.inner.SkipIndexes.{AreOperandKeys, AreLevelsOf, AreTried};
ghost use Rattle.match_pruning.specs.inner.SkipIndexes.{IsExcluded, IsSkipIndexOf};

use crate::block::Blocks;
use crate::earliest_start::EarliestStart;
use crate::join::Join;
use crate::key::SortKey;
use crate::partial_match::PartialMatch;
use crate::query::Query;
use flow_values::NoMemory;
use std::alloc::Global;

/// A block has this many blocks of the next smaller size, and the smallest this many keys.
const STEP: usize = 4;

/// Lists shorter than this are joined pair by pair, without an index.
const FEW: usize = 64;

/// The index of a list of right operands.
#[derive(Drop)]
pub struct SkipIndex {
    /// Sorted by their numbers. Empty where the operands are tried one by one.
    pub keys: Vec<SortKey>,
    /// The blocks of each size, the smallest first.
    pub levels: Vec<Blocks>,
}

impl SkipIndex {
    /// The index of the right operands, for a join with `firsts` left ones. O(n log n).
    pub fn new(
        alloc: Global,
        firsts: usize,
        candidates: &[PartialMatch],
    ) -> Result<SkipIndex, NoMemory>
        // Without keys there is no index, and each pair is tried.
        ensures { IfOk result (λ skip_index. 0 < length skip_index.keys.items
            → IsSkipIndexOf candidates.now skip_index) }
    {
        if firsts < FEW || candidates.len() < FEW {
            return Ok(SkipIndex {
                keys: Vec::new(alloc),
                levels: Vec::new(alloc),
            });
        }
        let keys = sorted_keys(alloc, candidates)?;
        let levels = levels(alloc, &keys)?;
        Ok(SkipIndex { keys, levels })
    }

    /// The indices, ascending, of the right operands that may join a left one to a result which
    /// begins in time. All that do are among them.
    pub fn places(
        &self,
        alloc: Global,
        join: Join,
        earliest_start: &EarliestStart,
        first: &PartialMatch,
    ) -> Result<Vec<usize>, NoMemory>
        requires levels { AreLevelsOf self.now.keys.items self.now.levels.items }
        ensures { IfOk result (λ places. (candidates : List PartialMatch)
            → AreOperandKeys candidates self.now.keys.items
            → AreTried earliest_start.now.start join (partial_match_tree first.now) candidates
            places.items) }
    {
        let query = Query::new(alloc, join, earliest_start, first)?;
        let mut places = self.found(alloc, &query)?;
        places.sort_unstable();
        Ok(places)
    }

    /// The indices of the operands that the query doesn't exclude, in key order.
    fn found(&self, alloc: Global, query: &Query) -> Result<Vec<usize>, NoMemory>
        requires levels { AreLevelsOf self.now.keys.items self.now.levels.items }
        // A key that isn't found is excluded, so its operand can't join.
        ensures others { IfOk result (λ places. (key : SortKey) → Contains self.now.keys.items key
            → Contains places.items key.place ⊎ IsExcluded query.now key) }
        ensures from { IfOk result (λ places. (place : ℕ) → Contains places.items place
            → (key : SortKey) × Contains self.now.keys.items key × (key.place ≡ place)) }
    {
        let mut places = Vec::new(alloc);
        let mut at = 0;
        'keys: while let Some(key) = self.keys.get(at) {
            let passed = self.passed(query, at);
            if at < passed {
                at = passed;
            } else {
                if !query.excludes(&key.numbers, key.begin) {
                    places.push(key.place)?;
                }
                at += 1;
            }
        }
        Ok(places)
    }

    /// The end of the largest block that starts at `at` and that the query excludes; `at` itself if
    /// there is none.
    fn passed(&self, query: &Query, at: usize) -> usize
        requires levels { AreLevelsOf self.now.keys.items self.now.levels.items }
        ensures { at < result → (result ≤ length self.now.keys.items)
            × AllWithin (IsExcluded query.now) self.now.keys.items at result }
    {
        let mut levels = self.levels.as_slice();
        'levels: while let Some((largest, smaller)) = levels.split_last() {
            if let Some(block) = largest.at(at) {
                if query.excludes(&block.common, block.begin) {
                    return block.end;
                }
            }
            levels = smaller;
        }
        at
    }
}

/// The keys of the operands, sorted by their numbers.
fn sorted_keys(alloc: Global, candidates: &[PartialMatch]) -> Result<Vec<SortKey>, NoMemory>
    ensures { IfOk result (λ keys. AreOperandKeys candidates.now keys.items) }
{
    let mut keys = Vec::with_capacity(alloc, candidates.len())?;
    'places: for place in 0..candidates.len() {
        let key = SortKey::new(alloc, &candidates[place], place)?;
        keys.push(key)?;
    }
    keys.sort_unstable_by(|one, other| one.numbers.as_slice().cmp(other.numbers.as_slice()));
    Ok(keys)
}

/// The blocks of each size below the number of keys.
fn levels(alloc: Global, keys: &[SortKey]) -> Result<Vec<Blocks>, NoMemory>
    ensures { IfOk result (λ levels. AreLevelsOf keys.now levels.items) }
{
    let mut levels = Vec::new(alloc);
    let mut size = STEP;
    'sizes: while size < keys.len() {
        let blocks = Blocks::new(alloc, keys, size)?;
        levels.push(blocks)?;
        size = size.saturating_mul(STEP);
    }
    Ok(levels)
}
