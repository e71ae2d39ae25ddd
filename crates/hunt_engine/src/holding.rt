//! Whether a bracket holds at one object, by recursion over its `AND`s and `OR`s.

ghost use Rattle.std.specs.Prelude.{◌↔◌, IsTrue, IfOk};
ghost use Rattle.stix_bundles.specs.Objects.{data_in};
ghost use Rattle.pattern_types.specs.PlainLeaf.{plain_leaf, leaves_of_list};
ghost use Rattle.pattern_types.specs.Soundness.{IsSoundLeaf, AreSoundLeaves};
ghost use Rattle.match_comparisons.specs.Tests.{HoldsAt, AllHold, SomeHold};

use flow_values::NoMemory;
use match_comparisons::holds;
use pattern_types::Leaf;
use std::alloc::Global;
use stix_bundles::Bundle;

/// Whether the object at index `root` of the bundle meets the whole bracket.
#[cycle(leaves)]
pub(crate) fn holds_at(
    alloc: Global,
    leaf: &Leaf,
    bundle: &Bundle,
    root: u32,
) -> Result<bool, NoMemory>
    requires { IsSoundLeaf (plain_leaf leaf.now) }
    ensures { IfOk result (λ met. IsTrue met
        ↔ HoldsAt (data_in bundle.now) root (plain_leaf leaf.now)) }
{
    match leaf {
        Leaf::Test(test) => holds(alloc, test, bundle, root),
        Leaf::All(parts) => all_hold_at(alloc, parts.as_slice(), bundle, root),
        Leaf::Any(parts) => some_hold_at(alloc, parts.as_slice(), bundle, root),
    }
}

/// Whether it meets all of these parts.
#[cycle(leaves)]
fn all_hold_at(alloc: Global, parts: &[Leaf], bundle: &Bundle, root: u32) -> Result<bool, NoMemory>
    requires { AreSoundLeaves (leaves_of_list parts.now) }
    ensures { IfOk result (λ met. IsTrue met
        ↔ AllHold (data_in bundle.now) root (leaves_of_list parts.now)) }
{
    for part in parts {
        if !holds_at(alloc, part, bundle, root)? {
            return Ok(false);
        }
    }
    Ok(true)
}

/// Whether it meets one of these parts.
#[cycle(leaves)]
fn some_hold_at(alloc: Global, parts: &[Leaf], bundle: &Bundle, root: u32) -> Result<bool, NoMemory>
    requires { AreSoundLeaves (leaves_of_list parts.now) }
    ensures { IfOk result (λ met. IsTrue met
        ↔ SomeHold (data_in bundle.now) root (leaves_of_list parts.now)) }
{
    for part in parts {
        if holds_at(alloc, part, bundle, root)? {
            return Ok(true);
        }
    }
    Ok(false)
}
