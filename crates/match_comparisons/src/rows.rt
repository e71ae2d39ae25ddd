ghost use Rattle.std.specs.Prelude.{◌≡◌, ◌↔◌, ℕ, length, Contains, IsTrue, IfOk, OnOk};
ghost use Rattle.stix_bundles.specs.Objects.{data_in};
ghost use Rattle.pattern_types.specs.PlainLeaf.{plain_leaf};
ghost use Rattle.pattern_types.specs.PlainPattern.{plain_pattern, a_leaf};
ghost use Rattle.pattern_types.specs.Soundness.{IsSoundLeaf, IsSoundPattern};
ghost use Rattle.match_comparisons.specs.inner.PositionSet.{IsInPositions, AreOf};
ghost use Rattle.match_comparisons.specs.inner.Roots.{IsSomeRoot};
ghost use Rattle.match_comparisons.specs.inner.Rows.{AddsTruths};

use crate::position_set::PositionSet;
use crate::split::split_by;
use flow_values::{Items, NoMemory};
use pattern_types::{Leaf, Pattern};
use std::alloc::Global;
use stix_bundles::{Bundle, Observation};

/// A bundle, with its observations and all their roots, each once.
#[derive(Clone, Copy)]
pub(crate) struct BundleView<'a> {
    pub(crate) bundle: &'a Bundle,
    pub(crate) observations: &'a [Observation],
    pub(crate) roots: &'a [u32],
}

/// Appends the truths of a pattern's brackets, from left to right, to the row of each observation.
pub(crate) fn add_truths(
    alloc: Global,
    pattern: &Pattern,
    seen: &BundleView<'_>,
    rows: &mut [Items<bool>],
) -> Result<(), NoMemory>
    requires sound { IsSoundPattern (plain_pattern pattern.now) }
    requires roots { (at : ℕ) → Contains seen.now.roots.now at
        ↔ IsSomeRoot seen.now.observations.now at }
    requires rows { length rows.old ≡ length seen.now.observations.now }
    ensures { OnOk result (AddsTruths (data_in seen.now.bundle.now) (plain_pattern pattern.now)
        seen.now.observations.now rows.old rows.new) }
{
    match pattern {
        Pattern::Leaf(leaf) => add_leaf(alloc, leaf, seen, rows),
        Pattern::Both(left, right) | Pattern::Either(left, right) | Pattern::Then(left, right) => {
            add_truths(alloc, left, seen, rows)?;
            add_truths(alloc, right, seen, rows)
        }
        Pattern::Within(part, _) | Pattern::Between(part, _, _) | Pattern::Repeats(part, _) => {
            add_truths(alloc, part, seen, rows)
        }
    }
}

/// Appends the truth of one bracket to each row.
fn add_leaf(
    alloc: Global,
    leaf: &Leaf,
    seen: &BundleView<'_>,
    rows: &mut [Items<bool>],
) -> Result<(), NoMemory>
    requires sound { IsSoundLeaf (plain_leaf leaf.now) }
    requires roots { (at : ℕ) → Contains seen.now.roots.now at
        ↔ IsSomeRoot seen.now.observations.now at }
    requires rows { length rows.old ≡ length seen.now.observations.now }
    ensures { OnOk result (AddsTruths (data_in seen.now.bundle.now) (a_leaf (plain_leaf leaf.now))
        seen.now.observations.now rows.old rows.new) }
{
    let split = split_by(alloc, seen.bundle, leaf, seen.roots)?;
    let held = positions_of(alloc, split.held.as_slice())?;
    for (at, row) in rows.iter_mut().enumerate() {
        row.push(has_some(&held, seen.observations[at].roots.as_slice()))?;
    }
    Ok(())
}

/// The set of the positions in a list.
fn positions_of(alloc: Global, list: &[u32]) -> Result<PositionSet, NoMemory>
    ensures { IfOk result (AreOf list.now) }
{
    let mut position_set = PositionSet::new(alloc);
    for at in list {
        position_set.add(*at)?;
    }
    Ok(position_set)
}

/// Whether one of the roots is in the set.
fn has_some(position_set: &PositionSet, roots: &[u32]) -> bool
    ensures { IsTrue result ↔ ((root : ℕ) × Contains roots.now root
        × IsInPositions position_set.now root) }
{
    for root in roots {
        if position_set.has(*root) {
            return true;
        }
    }
    false
}
