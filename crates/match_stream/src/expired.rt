//! Removes expired partial matches from the stores of an operator tree.

ghost use Rattle.std.specs.Prelude.{◌≡◌, map, length};
ghost use Rattle.match_pruning.specs.inner.Steps.{kept, all_levels, expired};
ghost use Rattle.match_stream.specs.inner.Nodes.{store_lists, node_state};
ghost use Rattle.match_pruning.specs.inner.UpToOrder.{AreSameLevels, IsSameUpToOrder};

use crate::levels::Levels;
use crate::node::Node;
use match_pruning::Window;
use match_pruning::store::Store;
use stix_times::Instant;

/// Removes what has expired from all stores of a node, and leaves the rest of each store in any
/// order. Takes no memory. Each kind of node is handled in a function that isn't inlined, so that a
/// frame of the recursion stays small: a pattern nests up to 1,024 brackets.
pub(crate) fn clear(node: &mut Node, now: Instant)
    ensures { IsSameUpToOrder (expired now (node_state node.old)) (node_state node.new) }
{
    match node {
        Node::Leaves(_) => {}
        Node::Sides(_, left, right, sides) => {
            sides.clear(now);
            clear(left, now);
            clear(right, now);
        }
        Node::Either(left, right) => {
            clear(left, now);
            clear(right, now);
        }
        Node::Under(part) => clear(part, now),
        Node::Repeats(part, levels) => {
            clear_levels(levels, now);
            clear(part, now);
        }
    }
}

/// Clears the stores of all levels of a `REPEATS`.
#[inline(never)]
fn clear_levels(levels: &mut Levels, now: Instant)
    ensures same { AreSameLevels (map (kept levels.old.window now)
        (all_levels levels.old.count (store_lists levels.old.stores.items)))
        (all_levels levels.new.count (store_lists levels.new.stores.items)) }
    ensures count { levels.new.count ≡ levels.old.count }
    ensures window { levels.new.window ≡ levels.old.window }
{
    let window = levels.window;
    clear_stores(&mut levels.stores, &window, now);
}

/// Clears each of these stores.
fn clear_stores(stores: &mut Vec<Store>, window: &Window, now: Instant)
    ensures same { AreSameLevels (map (kept window.now now) (store_lists stores.old.items))
        (store_lists stores.new.items) }
    ensures length { length stores.new.items ≡ length stores.old.items }
{
    for store in stores.iter_mut() {
        store.clear(window, now);
    }
}
