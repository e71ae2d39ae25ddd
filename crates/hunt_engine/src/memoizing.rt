//! Evaluates roots that have no entry in the memo.

ghost use Rattle.std.specs.Prelude.{◌≡◌, ◌↔◌, ◌∷◌, [], IsTrue, All, IfOk, OnOk};
ghost use Rattle.stix_bundles.specs.Objects.{data_in};
ghost use Rattle.pattern_types.specs.PlainLeaf.{plain_leaf};
ghost use Rattle.pattern_types.specs.Soundness.{IsSoundLeaf};
ghost use Rattle.match_comparisons.specs.Tests.{LeafHolds, HoldsAt};
ghost use Rattle.hunt_index.specs.Definite.{IsDefinite};
ghost use Rattle.hunt_engine.specs.Memo.{AreHeld, IsSoundMemo};
ghost use Rattle.hunt_engine.specs.inner.Memos.{IsMemoized, InsertsEmpty};
ghost use Rattle.hunt_engine.specs.inner.Brackets.{bracket_leaves, held_leaves};

use crate::Memo;
use crate::bracket_tests::test_brackets;
use crate::brackets::Brackets;
use crate::holding::holds_at;
use crate::root_batch::RootBatch;
use flow_values::{Items, NoMemory};
use hunt_index::{Index, is_definite};
use pattern_types::Leaf;
use std::alloc::Global;
use stix_bundles::Bundle;

/// With fewer roots to follow than this, a root is evaluated alone, which costs less than a batch.
const FEW: usize = 8;

/// Adds a root to the memo, and with it the roots that follow without an entry.
pub(crate) fn memoize(
    alloc: Global,
    brackets: &Brackets<'_>,
    index: &Index<'_>,
    root: u32,
    bundle: &Bundle,
    memo: &mut Memo,
) -> Result<(), NoMemory>
    requires sound { All IsSoundLeaf (bracket_leaves brackets.now) }
    requires index { index.now ≡ held_leaves brackets.now }
    requires right { IsSoundMemo (data_in bundle.now) (bracket_leaves brackets.now) memo.old }
    ensures memo { OnOk result (IsMemoized memo.new root) }
    // Every entry is correct, of this root and of those evaluated with it.
    ensures right { OnOk result (IsSoundMemo (data_in bundle.now)
        (bracket_leaves brackets.now) memo.new) }
{
    if memo.has(root) {
        return Ok(());
    }
    memo.evict_if_full();
    if memo.upcoming().len() < FEW {
        let positions = matching_at(alloc, brackets, index, root, bundle)?;
        return memo.add(root, positions);
    }
    memoize_batch(alloc, brackets, index, root, bundle, memo)
}

/// Evaluates a batch: each bracket at all of its roots together.
fn memoize_batch(
    alloc: Global,
    brackets: &Brackets<'_>,
    index: &Index<'_>,
    root: u32,
    bundle: &Bundle,
    memo: &mut Memo,
) -> Result<(), NoMemory>
    requires sound { All IsSoundLeaf (bracket_leaves brackets.now) }
    requires index { index.now ≡ held_leaves brackets.now }
    requires right { IsSoundMemo (data_in bundle.now) (bracket_leaves brackets.now) memo.old }
    ensures memo { OnOk result (IsMemoized memo.new root) }
    ensures right { OnOk result (IsSoundMemo (data_in bundle.now)
        (bracket_leaves brackets.now) memo.new) }
{
    let root_batch = RootBatch::of(alloc, index, root, bundle, memo)?;
    insert_empty(alloc, root_batch.roots.as_slice(), memo)?;
    test_brackets(alloc, brackets, root_batch.pairs.as_slice(), bundle, memo)?;
    Ok(())
}

/// Adds empty entries for some roots.
fn insert_empty(alloc: Global, roots: &[u32], memo: &mut Memo) -> Result<(), NoMemory>
    ensures { OnOk result (InsertsEmpty roots.now memo.old memo.new) }
{
    for root in roots {
        memo.add(*root, Items::new(alloc))?;
    }
    Ok(())
}

/// The brackets that hold at a root. Evaluates the candidates of the index: all that hold are among
/// them, and definite ones hold without evaluation.
fn matching_at(
    alloc: Global,
    brackets: &Brackets<'_>,
    index: &Index<'_>,
    root: u32,
    bundle: &Bundle,
) -> Result<Items<u32>, NoMemory>
    requires sound { All IsSoundLeaf (bracket_leaves brackets.now) }
    requires index { index.now ≡ held_leaves brackets.now }
    ensures { IfOk result (AreHeld (data_in bundle.now) (bracket_leaves brackets.now) root) }
{
    let candidates = index.candidates(&[root], bundle)?;
    let mut matching = Vec::new(alloc);
    for position in candidates.as_slice() {
        if candidate_holds(alloc, brackets.leaves[*position as usize], bundle, root)? {
            matching.push(*position)?;
        }
    }
    Ok(Items::from_vec(matching))
}

/// Whether a candidate holds at a root. A definite bracket isn't evaluated: the index has already
/// compared its value.
fn candidate_holds(alloc: Global, leaf: &Leaf, bundle: &Bundle, root: u32) -> Result<bool, NoMemory>
    requires sound { IsSoundLeaf (plain_leaf leaf.now) }
    requires certain { IsDefinite (plain_leaf leaf.now)
        → LeafHolds (data_in bundle.now) (root ∷ []) (plain_leaf leaf.now) }
    ensures { IfOk result (λ met. IsTrue met
        ↔ HoldsAt (data_in bundle.now) root (plain_leaf leaf.now)) }
{
    if is_definite(leaf) {
        return Ok(true);
    }
    holds_at(alloc, leaf, bundle, root)
}
