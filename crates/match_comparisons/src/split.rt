//! Evaluates an expression at many positions together, as a partition. Each part of an `AND` sees
//! only the positions that the parts before it left, and each part of an `OR` only those that
//! failed so far.

ghost use Rattle.std.specs.Prelude.{◌≡◌, ℕ, [], IfOk, OnOk};
ghost use Rattle.stix_bundles.specs.Objects.{data_in};
ghost use Rattle.pattern_types.specs.PlainLeaf.{plain_leaf, leaves_of_list};
ghost use Rattle.pattern_types.specs.Soundness.{IsSoundLeaf, IsSoundTest, AreSoundLeaves};
ghost use Rattle.match_comparisons.specs.Tests.{TestHolds, HoldsAt, AllHold, SomeHold};
ghost use Rattle.match_comparisons.specs.inner.Splits.{SplitsPositions, AddsToSplit};

use crate::memo::SearchMemo;
use crate::met::meets_test;
use crate::search::Search;
use flow_values::NoMemory;
use pattern_types::{Leaf, Test};
use std::alloc::Global;
use stix_bundles::Bundle;

/// A partition of positions: where an expression holds, and where it fails.
#[derive(Drop)]
pub(crate) struct Split {
    pub(crate) held: Vec<u32>,
    pub(crate) failed: Vec<u32>,
}

impl Split {
    /// No positions.
    fn new(alloc: Global) -> Split
        ensures held { result.held.items ≡ [] }
        ensures failed { result.failed.items ≡ [] }
    {
        Split {
            held: Vec::new(alloc),
            failed: Vec::new(alloc),
        }
    }

    /// Adds a position, by whether the expression holds there.
    fn add(&mut self, at: u32, holds: bool) -> Result<(), NoMemory>
        ensures { OnOk result (AddsToSplit self.old self.new at holds) }
    {
        if holds {
            self.held.push(at)?;
        } else {
            self.failed.push(at)?;
        }
        Ok(())
    }
}

/// Partitions these positions by whether an expression holds there. Costs at most the size of the
/// bundle for each step of each test, however many positions there are.
#[cycle(leaves)]
pub(crate) fn split_by(
    alloc: Global,
    bundle: &Bundle,
    leaf: &Leaf,
    asked: &[u32],
) -> Result<Split, NoMemory>
    requires { IsSoundLeaf (plain_leaf leaf.now) }
    ensures { IfOk result (SplitsPositions (λ (at : ℕ). HoldsAt (data_in bundle.now) at
        (plain_leaf leaf.now)) asked.now) }
{
    match leaf {
        Leaf::Test(test) => split_by_test(alloc, bundle, test, asked),
        Leaf::All(parts) => split_by_all(alloc, bundle, parts.as_slice(), asked),
        Leaf::Any(parts) => split_by_some(alloc, bundle, parts.as_slice(), asked),
    }
}

/// Partitions by one comparison.
fn split_by_test(
    alloc: Global,
    bundle: &Bundle,
    test: &Test,
    asked: &[u32],
) -> Result<Split, NoMemory>
    requires { IsSoundTest test.now }
    ensures { IfOk result (SplitsPositions (λ (at : ℕ). TestHolds (data_in bundle.now) at test.now)
        asked.now) }
{
    let search = Search::new(alloc, bundle, test, asked.len());
    let mut memo = SearchMemo::new(alloc);
    let mut split = Split::new(alloc);
    for at in asked {
        let holds = meets_test(&search, &mut memo, test, *at)?;
        split.add(*at, holds)?;
    }
    Ok(split)
}

/// Partitions by whether all parts hold.
#[cycle(leaves)]
fn split_by_all(
    alloc: Global,
    bundle: &Bundle,
    parts: &[Leaf],
    asked: &[u32],
) -> Result<Split, NoMemory>
    requires { AreSoundLeaves (leaves_of_list parts.now) }
    ensures { IfOk result (SplitsPositions (λ (at : ℕ). AllHold (data_in bundle.now) at
        (leaves_of_list parts.now))
        asked.now) }
{
    let mut held = Vec::from_slice(alloc, asked)?;
    let mut failed = Vec::new(alloc);
    for part in parts {
        let one = split_by(alloc, bundle, part, held.as_slice())?;
        held = one.held;
        failed.extend_from_slice(one.failed.as_slice())?;
    }
    Ok(Split { held, failed })
}

/// Partitions by whether some part holds.
#[cycle(leaves)]
fn split_by_some(
    alloc: Global,
    bundle: &Bundle,
    parts: &[Leaf],
    asked: &[u32],
) -> Result<Split, NoMemory>
    requires { AreSoundLeaves (leaves_of_list parts.now) }
    ensures { IfOk result (SplitsPositions (λ (at : ℕ). SomeHold (data_in bundle.now) at
        (leaves_of_list parts.now))
        asked.now) }
{
    let mut held = Vec::new(alloc);
    let mut failed = Vec::from_slice(alloc, asked)?;
    for part in parts {
        let one = split_by(alloc, bundle, part, failed.as_slice())?;
        failed = one.failed;
        held.extend_from_slice(one.held.as_slice())?;
    }
    Ok(Split { held, failed })
}
