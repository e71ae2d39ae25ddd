//! Whole brackets, at one observation or at many objects.

ghost use Rattle.std.specs.Prelude.{◌↔◌, ℕ, Contains, IfOk, IsTrue};
ghost use Rattle.stix_bundles.specs.Objects.{data_in};
ghost use Rattle.pattern_types.specs.PlainLeaf.{plain_leaf};
ghost use Rattle.pattern_types.specs.Soundness.{IsSoundLeaf};
ghost use Rattle.match_comparisons.specs.Tests.{HoldsAt, LeafHolds};

use crate::roots::own_roots;
use crate::split::split_by;
use flow_values::{Items, NoMemory};
use pattern_types::Leaf;
use std::alloc::Global;
use stix_bundles::{Bundle, Observation};

/// Whether a bracket holds for an observation: one of its roots meets the whole bracket.
pub fn leaf_holds(
    alloc: Global,
    leaf: &Leaf,
    observation: &Observation,
    bundle: &Bundle,
) -> Result<bool, NoMemory>
    requires { IsSoundLeaf (plain_leaf leaf.now) }
    ensures { IfOk result (λ holds. IsTrue holds
        ↔ LeafHolds (data_in bundle.now) observation.now.roots (plain_leaf leaf.now)) }
{
    let roots = own_roots(alloc, observation)?;
    let split = split_by(alloc, bundle, leaf, roots.as_slice())?;
    Ok(!split.held.as_slice().is_empty())
}

/// Filters objects, given by their positions in the bundle, by whether they meet the whole bracket.
/// Answers them in any order, each as often as it is given.
///
/// The findings at a referenced object serve all of them. So a test costs at most the size of the
/// bundle for each of its steps, however many objects there are.
pub fn leaf_roots(
    alloc: Global,
    leaf: &Leaf,
    roots: &[u32],
    bundle: &Bundle,
) -> Result<Items<u32>, NoMemory>
    requires { IsSoundLeaf (plain_leaf leaf.now) }
    ensures { IfOk result (λ held. (root : ℕ) → Contains held root
        ↔ (Contains roots.now root × HoldsAt (data_in bundle.now) root (plain_leaf leaf.now))) }
{
    let split = split_by(alloc, bundle, leaf, roots)?;
    Ok(Items::from_vec(split.held))
}
