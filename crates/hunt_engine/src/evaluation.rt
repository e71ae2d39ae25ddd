//! Which brackets hold at a row: those that hold at one of its roots.

ghost use Rattle.std.specs.Prelude.{◌≡◌, ◌↔◌, ◌≤◌, ◌<◌, ℕ, true, All, Contains, Some, length};
ghost use Rattle.std.specs.Prelude.{slice_get, IfOk, OnOk};
ghost use Rattle.stix_bundles.specs.Objects.{data_in};
ghost use Rattle.pattern_types.specs.Soundness.{IsSoundLeaf};
ghost use Rattle.hunt_engine.specs.EngineAnswer.{NeverFalls};
ghost use Rattle.hunt_engine.specs.Memo.{IsSoundMemo};
ghost use Rattle.hunt_engine.specs.inner.Evaluation.{AreClear, IsEvaluated, MarksMatching};
ghost use Rattle.hunt_engine.specs.inner.Evaluation.{MarksMore, AreOwners, AddsPosition};
ghost use Rattle.hunt_feed.specs.Indicators.{IsAscending};
ghost use Rattle.hunt_engine.specs.inner.Brackets.{bracket_leaves, held_leaves};

use crate::Memo;
use crate::brackets::Brackets;
use crate::memoizing::memoize;
use flow_values::NoMemory;
use hunt_index::Index;
use std::alloc::Global;
use stix_bundles::Bundle;

/// The brackets that hold at a row.
#[derive(Drop)]
pub(crate) struct RowBrackets {
    /// Their indices.
    pub(crate) matching: Vec<u32>,
    /// The indices of their patterns, ascending, each once.
    pub(crate) affected: Vec<u32>,
}

/// Marks the brackets that hold at a row with these roots. Adds roots that aren't in the memo to
/// it.
pub(crate) fn evaluate(
    alloc: Global,
    brackets: &Brackets<'_>,
    index: &Index<'_>,
    roots: &[u32],
    bundle: &Bundle,
    memo: &mut Memo,
    marks: &mut [bool],
) -> Result<RowBrackets, NoMemory>
    requires sound { All IsSoundLeaf (bracket_leaves brackets.now) }
    requires index { index.now ≡ held_leaves brackets.now }
    requires owned { length brackets.now.owners.items ≡ length brackets.now.leaves.items }
    requires ascend { NeverFalls brackets.now.owners.items }
    requires right { IsSoundMemo (data_in bundle.now) (bracket_leaves brackets.now) memo.old }
    requires count { length marks.old ≡ length brackets.now.leaves.items }
    requires clear { AreClear marks.old }
    ensures evaluated { IfOk result
        (λ row_brackets. IsEvaluated (data_in bundle.now) roots.now (bracket_leaves brackets.now)
        brackets.now.owners.items marks.new row_brackets.affected.items) }
    // The list has exactly the marked brackets, so that `clear` can unmark them.
    ensures matching { IfOk result (λ row_brackets. (at : ℕ) → slice_get marks.new at ≡ Some true
        ↔ Contains row_brackets.matching.items at) }
    ensures right { OnOk result (IsSoundMemo (data_in bundle.now)
        (bracket_leaves brackets.now) memo.new) }
{
    let matching = mark_matching(alloc, brackets, index, roots, bundle, memo, marks)?;
    let affected = owners_of(alloc, brackets.owners.as_slice(), matching.as_slice())?;
    Ok(RowBrackets { matching, affected })
}

/// Marks them, and answers their indices, ascending.
fn mark_matching(
    alloc: Global,
    brackets: &Brackets<'_>,
    index: &Index<'_>,
    roots: &[u32],
    bundle: &Bundle,
    memo: &mut Memo,
    marks: &mut [bool],
) -> Result<Vec<u32>, NoMemory>
    requires sound { All IsSoundLeaf (bracket_leaves brackets.now) }
    requires index { index.now ≡ held_leaves brackets.now }
    requires right { IsSoundMemo (data_in bundle.now) (bracket_leaves brackets.now) memo.old }
    requires count { length marks.old ≡ length brackets.now.leaves.items }
    requires clear { AreClear marks.old }
    ensures marks { IfOk result (λ positions. MarksMatching (data_in bundle.now) roots.now
        (bracket_leaves brackets.now)
        marks.new positions.items) }
    ensures right { OnOk result (IsSoundMemo (data_in bundle.now)
        (bracket_leaves brackets.now) memo.new) }
{
    let mut positions = Vec::new(alloc);
    for root in roots {
        memoize(alloc, brackets, index, *root, bundle, memo)?;
        mark_more(memo.positions_at(*root), marks, &mut positions)?;
        memo.pass();
    }
    positions.sort_unstable();
    Ok(positions)
}

/// Marks brackets, and appends the indices of those that weren't marked.
fn mark_more(own: &[u32], marks: &mut [bool], positions: &mut Vec<u32>) -> Result<(), NoMemory>
    requires { All (λ at. at < length marks.old) own.now }
    ensures { OnOk result (MarksMore own.now (length own.now) marks.old positions.old.items
        marks.new positions.new.items) }
{
    for position in own {
        let at = *position as usize;
        if !marks[at] {
            marks[at] = true;
            positions.push(*position)?;
        }
    }
    Ok(())
}

/// The owners of some brackets, ascending, each once. The owners are sorted, so equal ones are
/// adjacent.
fn owners_of(alloc: Global, owners: &[u32], positions: &[u32]) -> Result<Vec<u32>, NoMemory>
    requires inside { All (λ at. at < length owners.now) positions.now }
    requires ascend { NeverFalls owners.now }
    requires in_order { NeverFalls positions.now }
    ensures { IfOk result (λ affected. AreOwners owners.now positions.now
        (length positions.now) affected.items) }
{
    let mut affected = Vec::new(alloc);
    for position in positions {
        add_position(&mut affected, owners[*position as usize])?;
    }
    Ok(affected)
}

/// Appends an index, unless it equals the last one.
fn add_position(affected: &mut Vec<u32>, position: u32) -> Result<(), NoMemory>
    requires ascend { IsAscending affected.old.items }
    requires least { (k other : ℕ) → slice_get affected.old.items k ≡ Some other
        → other ≤ position }
    ensures { OnOk result (AddsPosition affected.old.items position affected.new.items) }
{
    if let Some(last) = affected.last()
        && *last == position
    {
        return Ok(());
    }
    affected.push(position)?;
    Ok(())
}

/// Clears the marks.
pub(crate) fn clear(positions: &[u32], marks: &mut [bool])
    requires marked { (at : ℕ) → slice_get marks.old at ≡ Some true ↔ Contains positions.now at }
    ensures clear { AreClear marks.new }
    ensures count { length marks.new ≡ length marks.old }
{
    for position in positions {
        marks[*position as usize] = false;
    }
}
