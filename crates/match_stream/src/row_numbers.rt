//! The numbers of the rows that a matcher keeps.

ghost use Rattle.std.specs.Prelude.{◌≡◌, ◌++◌, IfOk, OnOk};
ghost use Rattle.match_pruning.specs.RowNumbers.{AreKept};
ghost use Rattle.match_pruning.specs.inner.Steps.{all_levels, contents_of};
ghost use Rattle.match_stream.specs.inner.Nodes.{store_list, store_lists, node_state};
ghost use Rattle.match_pruning.specs.inner.Numbers.{store_numbers, all_numbers};

use crate::levels::Levels;
use crate::node::Node;
use flow_values::NoMemory;
use match_pruning::numbers::push_numbers;
use match_pruning::store::Store;
use std::alloc::Global;

/// The numbers in the stores of a node, ascending, each once.
pub(crate) fn kept_numbers(alloc: Global, node: &Node) -> Result<Vec<u64>, NoMemory>
    ensures { IfOk result (λ kept. AreKept (contents_of (node_state node.now)) kept.items) }
{
    let mut kept = Vec::new(alloc);
    push_node(node, &mut kept)?;
    kept.sort_unstable();
    kept.dedup();
    Ok(kept)
}

/// Appends the numbers in the stores of a node.
#[tactic(auto, using(match_pruning::proofs::RowNumbersLemmas::numbers_append))]
fn push_node(node: &Node, out: &mut Vec<u64>) -> Result<(), NoMemory>
    ensures { OnOk result (out.new.items ≡ out.old.items
        ++ all_numbers (contents_of (node_state node.now))) }
{
    match node {
        Node::Leaves(_) => {}
        Node::Sides(_, left, right, sides) => {
            push_store(&sides.left, out)?;
            push_store(&sides.right, out)?;
            push_node(left, out)?;
            push_node(right, out)?;
        }
        Node::Either(left, right) => {
            push_node(left, out)?;
            push_node(right, out)?;
        }
        Node::Under(part) => push_node(part, out)?,
        Node::Repeats(part, levels) => {
            push_levels(levels, out)?;
            push_node(part, out)?;
        }
    }
    Ok(())
}

/// Appends the numbers in the stores of a `REPEATS`.
#[tactic(auto, using(match_pruning::proofs::RowNumbersLemmas::numbers_levels))]
fn push_levels(levels: &Levels, out: &mut Vec<u64>) -> Result<(), NoMemory>
    ensures { OnOk result (out.new.items ≡ out.old.items
        ++ all_numbers (all_levels levels.now.count (store_lists levels.now.stores.items))) }
{
    push_stores(&levels.stores, out)?;
    Ok(())
}

/// Appends the numbers in these stores.
fn push_stores(stores: &[Store], out: &mut Vec<u64>) -> Result<(), NoMemory>
    ensures { OnOk result (out.new.items ≡ out.old.items ++ all_numbers (store_lists stores.now)) }
{
    for store in stores {
        push_store(store, out)?;
    }
    Ok(())
}

/// Appends the numbers in one store.
fn push_store(store: &Store, out: &mut Vec<u64>) -> Result<(), NoMemory>
    ensures { OnOk result (out.new.items ≡ out.old.items ++ store_numbers (store_list store.now)) }
{
    for held in &store.held {
        push_numbers(&held.bind, out)?;
    }
    Ok(())
}
