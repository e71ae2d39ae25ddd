//! Blocks of a sorted list of keys, as in a block-range index (zone map): each block keeps a
//! summary that holds for all its keys.
//!
//! The summary is conservative. `common` has only observation numbers that every key of the block
//! has, and `begin` isn't before the begin of any of them. So a test that excludes a key by its
//! numbers and its begin, and excludes the summary, excludes the whole block.

ghost use Rattle.std.specs.Prelude.{◌≡◌, ◌≤◌, ◌<◌, length, IfOk, IfSome};
ghost use Rattle.std.specs.List.{Contains};
ghost use Rattle.match_pruning.specs.declared.key.SortKey.{SortKey};
ghost use Rattle.match_pruning.specs.inner.SkipIndexes.{IsCommonTo, IsBlockOfKeys, AreBlocksOf};

use crate::key::SortKey;
use flow_values::NoMemory;
use std::alloc::Global;
use stix_times::Instant;

/// A run of keys of the sorted list, from `start` up to but not including `end`, with what all of
/// them have in common.
#[derive(Drop)]
pub struct Block {
    pub start: usize,
    pub end: usize,
    /// Observation numbers that every key of the block has.
    pub common: Vec<u64>,
    /// The latest begin of its keys: none begins later.
    pub begin: Instant,
}

impl Block {
    /// The block of the keys from `start` up to `end`.
    fn new(alloc: Global, keys: &[SortKey], start: usize, end: usize) -> Result<Block, NoMemory>
        requires { (start < end) × (end ≤ length keys.now) }
        ensures start { IfOk result (λ block. block.start ≡ start) }
        ensures keys { IfOk result (λ block. IsBlockOfKeys keys.now block) }
    {
        let first = &keys[start];
        let mut common = Vec::new(alloc);
        common.extend_from_slice(&first.numbers)?;
        let mut block = Block {
            start,
            end,
            common,
            begin: first.begin,
        };
        'places: for place in start..end {
            block.add(&keys[place]);
        }
        Ok(block)
    }

    /// Extends the summary to one more key: keeps the numbers that the key has too, and the later
    /// begin.
    fn add(&mut self, key: &SortKey)
        ensures kept { (other : SortKey) → IsCommonTo self.old other → IsCommonTo self.new other }
        ensures added { IsCommonTo self.new key.now }
        ensures places { (self.new.start ≡ self.old.start) × (self.new.end ≡ self.old.end) }
    {
        self.common.retain(|number| key.numbers.contains(number));
        if self.begin < key.begin {
            self.begin = key.begin;
        }
    }
}

/// The blocks of one size, in the order of the keys.
#[derive(Drop)]
pub struct Blocks {
    pub size: usize,
    pub blocks: Vec<Block>,
}

impl Blocks {
    /// Cuts the keys into blocks of `size` keys. The last block may be shorter.
    pub fn new(alloc: Global, keys: &[SortKey], size: usize) -> Result<Blocks, NoMemory>
        requires { 0 < size }
        ensures { IfOk result (λ blocks. AreBlocksOf keys.now blocks) }
    {
        let mut blocks = Vec::new(alloc);
        let mut start = 0;
        'cuts: while start < keys.len() {
            let end = start.saturating_add(size).min(keys.len());
            let block = Block::new(alloc, keys, start, end)?;
            blocks.push(block)?;
            start = end;
        }
        Ok(Blocks { size, blocks })
    }

    /// The block that starts at this index, if there is one. O(1).
    pub fn at(&self, place: usize) -> Option<&Block>
        ensures { IfSome result (λ block. Contains self.now.blocks.items block.now
            × (block.now.start ≡ place) × (place < block.now.end)) }
    {
        if place.checked_rem(self.size)? != 0 {
            return None;
        }
        let block = self.blocks.get(place.checked_div(self.size)?)?;
        if block.start == place && place < block.end {
            Some(block)
        } else {
            None
        }
    }
}
