//! Chooses the index keys of each bracket: conditions one of which is met wherever the bracket
//! holds.
//!
//! Of an `AND` one part is enough, and the most selective is taken. An `OR` needs the keys of all
//! parts. `selectivity` carries no contract: it only ranks, and either choice is correct.

ghost use Rattle.std.specs.Prelude.{◌≡◌, ◌⊎◌, ◌++◌, List, IfOk, Contains};
ghost use Rattle.pattern_types.specs.declared.constant.Constant.{Constant};
ghost use Rattle.pattern_types.specs.PlainLeaf.{plain_leaf, leaves_of_list};
ghost use Rattle.pattern_types.specs.declared.path.Step.{Step};
ghost use Rattle.match_comparisons.specs.Tests.{TestHolds, HoldsAt, AllHold, SomeHold};
ghost use Rattle.hunt_index.specs.Definite.{IsDefinite, AreDefinite, IsDefiniteTest, ArePlain};
ghost use Rattle.hunt_index.specs.inner.IndexKeys.{AreIndexKeys, IndexKeys, AreSufficient};
ghost use Rattle.hunt_index.specs.inner.IndexKeys.{Sufficient, HasIndexKey, AreBy, KeyRepresents};
ghost use Rattle.hunt_index.specs.inner.IndexKeys.{AnswersSome};

use crate::index_key::IndexKey;
use crate::key::{Key, key_of};
use flow_values::{Items, NoMemory};
use pattern_types::{Check, Constant, Leaf, Step, Test};
use std::alloc::Global;

/// The index keys of a bracket. None where it can hold at any root.
#[cycle(leaves)]
pub(crate) fn index_keys_of<'p>(
    alloc: Global,
    leaf: &'p Leaf,
) -> Result<Option<Items<IndexKey<'p>>>, NoMemory>
    // Necessary: where the bracket holds, one of its index keys is met. So it is never missed.
    ensures needed { IfOk result (IndexKeys
        (λ objects root. HoldsAt objects root (plain_leaf leaf.now))) }
    // Sufficient, if the bracket is definite: where an index key is shown, it holds.
    ensures sufficient { IfOk result (λ found. IsDefinite (plain_leaf leaf.now)
        → Sufficient (λ objects root. HoldsAt objects root (plain_leaf leaf.now)) found) }
{
    match leaf {
        Leaf::Test(test) => {
            let index_keys = index_keys_of_test(alloc, test)?;
            Ok(Some(index_keys))
        }
        Leaf::All(parts) => index_keys_of_all(alloc, parts.as_slice()),
        Leaf::Any(parts) => index_keys_of_some(alloc, parts.as_slice()),
    }
}

/// The index keys of an `AND`: those of its most selective part.
#[cycle(leaves)]
fn index_keys_of_all<'p>(
    alloc: Global,
    parts: &'p [Leaf],
) -> Result<Option<Items<IndexKey<'p>>>, NoMemory>
    ensures { IfOk result (IndexKeys (λ objects root. AllHold objects root
        (leaves_of_list parts.now))) }
{
    let mut fewest = None;
    for part in parts {
        let own = index_keys_of(alloc, part)?;
        fewest = more_selective(fewest, own);
    }
    Ok(fewest)
}

/// The index keys of an `OR`: those of all its parts.
#[cycle(leaves)]
fn index_keys_of_some<'p>(
    alloc: Global,
    parts: &'p [Leaf],
) -> Result<Option<Items<IndexKey<'p>>>, NoMemory>
    ensures needed { IfOk result (IndexKeys
        (λ objects root. SomeHold objects root (leaves_of_list parts.now))) }
    ensures sufficient { IfOk result (λ found. AreDefinite (leaves_of_list parts.now)
        → Sufficient (λ objects root. SomeHold objects root (leaves_of_list parts.now)) found) }
{
    let mut index_keys = Vec::new(alloc);
    for part in parts {
        match index_keys_of(alloc, part) {
            Ok(Some(own)) => index_keys.extend_from_slice(own.as_slice())?,
            Ok(None) => return Ok(None),
            Err(error) => return Err(error),
        }
    }
    Ok(Some(Items::from_vec(index_keys)))
}

/// The more selective of two lists: with fewer keys `Any`, then with fewer keys.
fn more_selective<'p>(
    one: Option<Items<IndexKey<'p>>>,
    other: Option<Items<IndexKey<'p>>>,
) -> Option<Items<IndexKey<'p>>>
    // Either choice is correct.
    ensures { (result ≡ one.entry) ⊎ (result ≡ other.entry) }
{
    match (&one, &other) {
        (None, _) => other,
        (Some(_), None) => one,
        (Some(index_keys), Some(others)) => {
            if selectivity(index_keys.as_slice()) <= selectivity(others.as_slice()) {
                one
            } else {
                other
            }
        }
    }
}

/// The rank of a list, lower is better: how many keys are `Any`, and how many keys there are. No
/// contract: see the head of this file.
fn selectivity(index_keys: &[IndexKey<'_>]) -> (usize, usize) {
    let open = index_keys
        .iter()
        .filter(|index_key| matches!(index_key.key, Key::Any))
        .count();
    (open, index_keys.len())
}

/// The index keys of a comparison. A negated one has only the type of the root. A path with `[*]`
/// has its steps before that, since the values after it are many.
fn index_keys_of_test<'p>(alloc: Global, test: &'p Test) -> Result<Items<IndexKey<'p>>, NoMemory>
    ensures needed { IfOk result (AreIndexKeys (λ objects root. TestHolds objects root test.now)) }
    ensures sufficient { IfOk result (λ index_keys. IsDefiniteTest test.now
        → AreSufficient (λ objects root. TestHolds objects root test.now) index_keys) }
{
    let kind = test.path.kind.as_str();
    let steps = test.path.steps.as_slice();
    if test.negated {
        return one_index_key(alloc, kind, &[], Key::Any);
    }
    let front = plain_prefix(steps);
    if front.len() < steps.len() {
        return one_index_key(alloc, kind, front, Key::Any);
    }
    match &test.check {
        Check::Equal(constant) => one_index_key(alloc, kind, front, key_of(constant)),
        Check::Among(constants) => index_keys_by_value(alloc, kind, front, constants.as_slice()),
        Check::Differ(_)
        | Check::Less(_)
        | Check::LessEqual(_)
        | Check::Greater(_)
        | Check::GreaterEqual(_)
        | Check::Like(_)
        | Check::Subset(_)
        | Check::Superset(_)
        | Check::Exists => one_index_key(alloc, kind, front, Key::Any),
    }
}

/// A list of one index key.
fn one_index_key<'p>(
    alloc: Global,
    kind: &'p str,
    steps: &'p [Step],
    key: Key<'p>,
) -> Result<Items<IndexKey<'p>>, NoMemory>
    ensures has { IfOk result (HasIndexKey kind.now steps.now (λ own. own ≡ key.entry)) }
    ensures by { IfOk result (AreBy kind.now steps.now (λ own. own ≡ key.entry)) }
{
    let mut index_keys = Items::new(alloc);
    index_keys.push(IndexKey { kind, steps, key })?;
    Ok(index_keys)
}

/// An index key for each constant of an `IN`.
fn index_keys_by_value<'p>(
    alloc: Global,
    kind: &'p str,
    steps: &'p [Step],
    constants: &'p [Constant],
) -> Result<Items<IndexKey<'p>>, NoMemory>
    ensures has { IfOk result (λ index_keys. (constant : Constant)
        → Contains constants.now constant
        → HasIndexKey kind.now steps.now (KeyRepresents constant) index_keys) }
    ensures by { IfOk result (AreBy kind.now steps.now (AnswersSome constants.now)) }
{
    let mut index_keys = Items::with_capacity(alloc, constants.len())?;
    for constant in constants {
        index_keys.push(IndexKey {
            kind,
            steps,
            key: key_of(constant),
        })?;
    }
    Ok(index_keys)
}

/// The steps before the first `[*]`.
fn plain_prefix(steps: &[Step]) -> &[Step]
    ensures plain { ArePlain result.now }
    ensures front { (rest : List Step) × (steps.now ≡ result.now ++ rest) }
    ensures whole { ArePlain steps.now → result.now ≡ steps.now }
{
    for (at, step) in steps.iter().enumerate() {
        if matches!(step, Step::Each) {
            return &steps[..at];
        }
    }
    steps
}
