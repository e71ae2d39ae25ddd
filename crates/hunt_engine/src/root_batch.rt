//! A batch of roots at which each bracket is evaluated together.

ghost use Rattle.std.specs.Prelude.{◌≡◌, ◌∷◌, ◌++◌, [], Contains, map, IfOk, OnOk};
ghost use Rattle.stix_bundles.specs.Objects.{data_in};
ghost use Rattle.pattern_types.specs.PlainLeaf.{plain_leaf};
ghost use Rattle.hunt_engine.specs.inner.RootBatches.{IsRootBatch};

use crate::Memo;
use crate::memo::MAX_POSITIONS;
use flow_values::NoMemory;
use hunt_index::Index;
use std::alloc::Global;
use std::collections::BTreeSet;
use stix_bundles::Bundle;

/// Some roots, and which brackets may hold there.
#[derive(Drop)]
pub(crate) struct RootBatch {
    pub(crate) roots: Vec<u32>,
    /// Pairs of a bracket's index and a root at which it may hold.
    pub(crate) pairs: Vec<(u32, u32)>,
}

impl RootBatch {
    /// A batch of `root` and the roots that follow without an entry in the memo, until it has more
    /// than `MAX_POSITIONS` pairs. Pairs of one bracket are adjacent.
    pub(crate) fn of(
        alloc: Global,
        index: &Index<'_>,
        root: u32,
        bundle: &Bundle,
        memo: &Memo,
    ) -> Result<RootBatch, NoMemory>
        ensures is { IfOk result (λ root_batch. IsRootBatch (data_in bundle.now)
            (map plain_leaf index.now) root_batch.roots.items root_batch.pairs.items) }
        ensures there { IfOk result (λ root_batch. Contains root_batch.roots.items root) }
    {
        let mut root_batch = RootBatch {
            roots: Vec::new(alloc),
            pairs: Vec::new(alloc),
        };
        root_batch.add(index, root, bundle)?;
        root_batch.add_upcoming(alloc, index, root, bundle, memo)?;
        root_batch.pairs.sort_unstable();
        Ok(root_batch)
    }

    /// Adds the roots that follow, except those with an entry and `root` itself.
    fn add_upcoming(
        &mut self,
        alloc: Global,
        index: &Index<'_>,
        root: u32,
        bundle: &Bundle,
        memo: &Memo,
    ) -> Result<(), NoMemory>
        requires { IsRootBatch (data_in bundle.now) (map plain_leaf index.now) self.old.roots.items
            self.old.pairs.items }
        ensures is { OnOk result (IsRootBatch (data_in bundle.now) (map plain_leaf index.now)
            self.new.roots.items self.new.pairs.items) }
        ensures there { OnOk result (Contains self.old.roots.items root
            → Contains self.new.roots.items root) }
    {
        let mut taken = BTreeSet::new(alloc);
        taken.insert(root)?;
        for next in memo.upcoming() {
            if self.pairs.len() > MAX_POSITIONS {
                return Ok(());
            }
            if is_new_root(*next, memo, &mut taken)? {
                self.add(index, *next, bundle)?;
            }
        }
        Ok(())
    }

    /// Adds a root with its candidates.
    fn add(&mut self, index: &Index<'_>, root: u32, bundle: &Bundle) -> Result<(), NoMemory>
        requires { IsRootBatch (data_in bundle.now) (map plain_leaf index.now) self.old.roots.items
            self.old.pairs.items }
        ensures is { OnOk result (IsRootBatch (data_in bundle.now) (map plain_leaf index.now)
            self.new.roots.items self.new.pairs.items) }
        ensures roots { OnOk result (self.new.roots.items ≡ self.old.roots.items ++ root ∷ []) }
    {
        let positions = index.candidates(&[root], bundle)?;
        add_pairs(positions.as_slice(), root, &mut self.pairs)?;
        self.roots.push(root)?;
        Ok(())
    }
}

/// Whether a root has no entry and isn't in the batch yet. Notes it as taken. No contract: a root
/// left out or taken twice only costs time.
fn is_new_root(root: u32, memo: &Memo, taken: &mut BTreeSet<u32>) -> Result<bool, NoMemory> {
    if memo.has(root) {
        return Ok(false);
    }
    let new = taken.insert(root)?;
    Ok(new)
}

/// Appends a pair for each of these brackets.
fn add_pairs(positions: &[u32], root: u32, pairs: &mut Vec<(u32, u32)>) -> Result<(), NoMemory>
    ensures { OnOk result (pairs.new.items ≡ pairs.old.items
        ++ map (λ position. (position, root)) positions.now) }
{
    for position in positions {
        pairs.push((*position, root))?;
    }
    Ok(())
}
