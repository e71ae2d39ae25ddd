//! Evaluates each bracket at all roots of a batch together.

ghost use Rattle.std.specs.Prelude.{◌≡◌, All, Contains, OnOk};
ghost use Rattle.stix_bundles.specs.Objects.{data_in};
ghost use Rattle.pattern_types.specs.Soundness.{IsSoundLeaf};
ghost use Rattle.hunt_engine.specs.inner.Memos.{AddsPositions};
ghost use Rattle.hunt_engine.specs.inner.RootBatches.{IsMetBracket, IsCertain, AreCertain};
ghost use Rattle.hunt_engine.specs.inner.RootBatches.{AddsMatching};
ghost use Rattle.hunt_engine.specs.inner.Brackets.{bracket_leaves};

use crate::Memo;
use crate::brackets::Brackets;
use flow_values::NoMemory;
use hunt_index::is_definite;
use match_comparisons::leaf_roots;
use std::alloc::Global;
use stix_bundles::Bundle;

/// For each pair of a bracket and a root, adds the bracket to the memo of the root where it holds
/// there. Pairs of one bracket must be adjacent: the bracket is evaluated once for all its roots,
/// at most the size of the bundle for each step of its paths.
pub(crate) fn test_brackets(
    alloc: Global,
    brackets: &Brackets<'_>,
    pairs: &[(u32, u32)],
    bundle: &Bundle,
    memo: &mut Memo,
) -> Result<(), NoMemory>
    requires sound { All IsSoundLeaf (bracket_leaves brackets.now) }
    requires certain { AreCertain (data_in bundle.now) (bracket_leaves brackets.now) pairs.now }
    ensures { OnOk result (AddsMatching (data_in bundle.now)
        (bracket_leaves brackets.now) pairs.now memo.old
        memo.new) }
{
    let mut own = 0;
    let mut roots = Vec::new(alloc);
    for (position, root) in pairs {
        if *position != own {
            test_bracket(alloc, brackets, own, roots.as_slice(), bundle, memo)?;
            roots.clear();
            own = *position;
        }
        roots.push(*root)?;
    }
    test_bracket(alloc, brackets, own, roots.as_slice(), bundle, memo)
}

/// Evaluates one bracket at some roots. A definite bracket isn't evaluated: the index has already
/// compared its value.
fn test_bracket(
    alloc: Global,
    brackets: &Brackets<'_>,
    position: u32,
    roots: &[u32],
    bundle: &Bundle,
    memo: &mut Memo,
) -> Result<(), NoMemory>
    requires sound { All IsSoundLeaf (bracket_leaves brackets.now) }
    requires certain { IsCertain (data_in bundle.now)
        (bracket_leaves brackets.now) position roots.now }
    ensures { OnOk result (AddsPositions (λ root added. (added ≡ position) × Contains roots.now root
        × IsMetBracket (data_in bundle.now) (bracket_leaves brackets.now) root position)
        memo.old memo.new) }
{
    let Some(leaf) = brackets.leaves.get(position as usize) else {
        return Ok(());
    };
    if is_definite(leaf) {
        return add_to(position, roots, memo);
    }
    let matching = leaf_roots(alloc, leaf, roots, bundle)?;
    add_to(position, matching.as_slice(), memo)
}

/// Adds a bracket to the memo of each of some roots.
fn add_to(position: u32, roots: &[u32], memo: &mut Memo) -> Result<(), NoMemory>
    ensures { OnOk result (AddsPositions (λ root added. (added ≡ position)
        × Contains roots.now root) memo.old memo.new) }
{
    for root in roots {
        memo.add_position(*root, position)?;
    }
    Ok(())
}
