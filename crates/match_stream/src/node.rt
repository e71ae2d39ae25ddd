//! The operator tree of a matcher, and one row of it.
//!
//! Each node evaluates its operator incrementally (semi-naive evaluation, or delta join). At a row,
//! an `AND` or `FOLLOWEDBY` joins the new left operands with the stored right ones, and the stored
//! left ones with the new right ones. New with new is left out: both contain this row, and two
//! operands share no observation. The contracts state that `step` computes `step_new` and
//! `step_state`, the plain definitions in `specs/inner/Steps`, with its early filters and its count
//! of memory.

ghost use Rattle.std.specs.Prelude.{◌≡◌, ◌+◌, ◌<◌, ◌≤ℤ◌, ◌^◌, ◌++◌, [], false, IsTrue, IfOk};
ghost use Rattle.std.specs.Prelude.{IfSome, OnOk, Err, map, length};
ghost use Rattle.std.specs.Box.{box_value};
ghost use Rattle.pattern_types.specs.Leaves.{leaves};
ghost use Rattle.match_bindings.specs.NumberedPattern.{numbered_from};
ghost use Rattle.match_bindings.specs.BindTree.{One, Second, firsts};
ghost use Rattle.match_pruning.specs.inner.PartialMatches.{partial_match_tree, partial_match_trees};
ghost use Rattle.match_pruning.specs.Stores.{window_of};
ghost use Rattle.match_pruning.specs.inner.Steps.{held_with, a_leaf, a_join, a_choice, a_limit};
ghost use Rattle.match_pruning.specs.inner.Steps.{a_chain, all_levels, empty_sides, step_new};
ghost use Rattle.match_pruning.specs.inner.Steps.{step_state, empty_state, IsNonmatchingChain};
ghost use Rattle.match_pruning.specs.inner.Needed.{needed, closed, pending_lefts_right};
ghost use Rattle.match_pruning.specs.inner.Needed.{pending_lefts_part};
ghost use Rattle.match_pruning.specs.inner.PendingLefts.{pending_left_trees, pending_lefts_of};
ghost use Rattle.match_stream.specs.inner.Totals.{held_after, retained_at, Admits, IsOverAt};
ghost use Rattle.match_stream.specs.inner.Nodes.{side_stores, leaves_of, levels_state, node_state};
ghost use Rattle.match_pruning.specs.declared.stop.Stop.TheVariants as stop;

use crate::budget::Budget;
use crate::leaves::Leaves;
use crate::levels::Levels;
use crate::sides::Sides;
use flow_values::NoMemory;
use match_bindings::{Bind, Bounds};
use match_pruning::Window;
use match_pruning::join::Join;
use match_pruning::join_filter::JoinFilter;
use match_pruning::partial_match::PartialMatch;
use match_pruning::pending_left::PendingLeft;
use match_pruning::row::Row;
use match_pruning::stop::Stop;
use match_pruning::store::{Store, store_window};
use pattern_types::{Pattern, leaf_count};
use std::alloc::Global;
use std::mem;
use stix_times::Instant;

/// The state of a matcher for a part of its pattern. Stores are boxed: a node is dropped by
/// recursion, and its own size adds to each frame.
#[derive(Drop)]
pub(crate) enum Node {
    /// A bracket, or a chain of `OR`s of brackets.
    Leaves(Leaves),
    /// An `AND` or a `FOLLOWEDBY`, with its two operands and their stores.
    Sides(Join, Box<Node>, Box<Node>, Box<Sides>),
    /// Any other `OR`.
    Either(Box<Node>, Box<Node>),
    /// A `WITHIN`, or a `START` and `STOP`. The windows below it already include the qualifier.
    Under(Box<Node>),
    /// A `REPEATS`.
    Repeats(Box<Node>, Box<Levels>),
}

/// The state before any row of a pattern under these qualifiers, where the leftmost leaf has the
/// number `leaf`. A pattern nests up to 1,024 leaves: so nodes are built in boxes, and each kind in
/// a separate function, to keep a frame of the recursion small.
#[cycle(empty_node)]
pub(crate) fn empty_node(
    alloc: Global,
    pattern: &Pattern,
    leaf: u32,
    above: &Bounds,
) -> Result<Box<Node>, NoMemory>
    requires { leaf + leaves pattern.now < 2 ^ 32 }
    ensures { IfOk result (λ node. node_state (box_value node)
        ≡ empty_state above.now (numbered_from leaf pattern.now)) }
{
    match pattern {
        Pattern::Leaf(_) => leaf_node(alloc, leaf, above),
        Pattern::Both(left, right) => {
            empty_sides(alloc, Join::Both, left, right, leaf, above, false)
        }
        Pattern::Then(left, right) => {
            empty_sides(alloc, Join::Then, left, right, leaf, above, true)
        }
        Pattern::Either(left, right) => empty_either(alloc, left, right, leaf, above),
        Pattern::Within(part, seconds) => {
            let node = empty_node(alloc, part, leaf, &above.within(*seconds))?;
            under_node(alloc, node)
        }
        Pattern::Between(part, start, stop) => {
            let node = empty_node(alloc, part, leaf, &above.between(*start, *stop))?;
            under_node(alloc, node)
        }
        Pattern::Repeats(part, count) => {
            let node = empty_node(alloc, part, leaf, above)?;
            repeats_node(alloc, node, *count, above)
        }
    }
}

/// The state of an `AND` or `FOLLOWEDBY`. `after_left` says that the right operand has to follow
/// the left.
#[cycle(empty_node)]
fn empty_sides(
    alloc: Global,
    join: Join,
    left: &Pattern,
    right: &Pattern,
    leaf: u32,
    above: &Bounds,
    after_left: bool,
) -> Result<Box<Node>, NoMemory>
    requires { leaf + (leaves left.now + leaves right.now) < 2 ^ 32 }
    ensures { IfOk result (λ node. node_state (box_value node)
        ≡ a_join join (empty_state above.now (numbered_from leaf left.now))
        (empty_state above.now (numbered_from (leaf + leaves left.now) right.now))
        (empty_sides (window_of above.now false) (window_of above.now after_left))) }
{
    let left_node = empty_node(alloc, left, leaf, above)?;
    let right_node = empty_node(alloc, right, leaf + leaf_count(left), above)?;
    sides_node(alloc, join, left_node, right_node, above, after_left)
}

/// The state of an `OR`.
#[cycle(empty_node)]
fn empty_either(
    alloc: Global,
    left: &Pattern,
    right: &Pattern,
    leaf: u32,
    above: &Bounds,
) -> Result<Box<Node>, NoMemory>
    requires { leaf + (leaves left.now + leaves right.now) < 2 ^ 32 }
    ensures { IfOk result (λ node. node_state (box_value node)
        ≡ a_choice (empty_state above.now (numbered_from leaf left.now))
        (empty_state above.now (numbered_from (leaf + leaves left.now) right.now))) }
{
    let left_node = empty_node(alloc, left, leaf, above)?;
    let right_node = empty_node(alloc, right, leaf + leaf_count(left), above)?;
    either_node(alloc, left_node, right_node)
}

/// The node of a leaf.
#[inline(never)]
fn leaf_node(alloc: Global, leaf: u32, above: &Bounds) -> Result<Box<Node>, NoMemory>
    ensures { IfOk result (λ node. node_state (box_value node)
        ≡ a_leaf leaf (window_of above.now false)) }
{
    let leaves = Leaves::one(leaf, store_window(above, false));
    Ok(Box::new(alloc, Node::Leaves(leaves))?)
}

/// The node of an `AND` or `FOLLOWEDBY` with these operands.
#[inline(never)]
fn sides_node(
    alloc: Global,
    join: Join,
    left: Box<Node>,
    right: Box<Node>,
    above: &Bounds,
    after_left: bool,
) -> Result<Box<Node>, NoMemory>
    ensures { IfOk result (λ node. node_state (box_value node)
        ≡ a_join join (node_state (box_value left)) (node_state (box_value right))
        (empty_sides (window_of above.now false) (window_of above.now after_left))) }
{
    let sides = Box::new(alloc, Sides::new(alloc, above, after_left))?;
    Ok(Box::new(alloc, Node::Sides(join, left, right, sides))?)
}

/// The node of an `OR`. Where the right operand is the next leaf of a chain, extends the chain.
#[inline(never)]
fn either_node(alloc: Global, left: Box<Node>, right: Box<Node>) -> Result<Box<Node>, NoMemory>
    ensures { IfOk result (λ node. node_state (box_value node)
        ≡ a_choice (node_state (box_value left)) (node_state (box_value right))) }
{
    match with_leaf(&left, &right) {
        Some(leaves) => Ok(Box::new(alloc, Node::Leaves(leaves))?),
        None => Ok(Box::new(alloc, Node::Either(left, right))?),
    }
}

/// The chain of leaves extended by the leaf on its right, where it is the next one.
fn with_leaf(left: &Node, right: &Node) -> Option<Leaves>
    ensures { IfSome result (λ leaves. leaves_of leaves
        ≡ a_choice (node_state left.now) (node_state right.now)) }
{
    match (left, right) {
        (Node::Leaves(leaves), Node::Leaves(next)) => leaves.with(next),
        _ => None,
    }
}

/// The node of a `WITHIN`, or of a `START` and `STOP`.
#[inline(never)]
fn under_node(alloc: Global, part: Box<Node>) -> Result<Box<Node>, NoMemory>
    ensures { IfOk result (λ node. node_state (box_value node)
        ≡ a_limit (node_state (box_value part))) }
{
    Ok(Box::new(alloc, Node::Under(part))?)
}

/// The node of a `REPEATS count`.
#[inline(never)]
fn repeats_node(
    alloc: Global,
    part: Box<Node>,
    count: u32,
    above: &Bounds,
) -> Result<Box<Node>, NoMemory>
    ensures { IfOk result (λ node. node_state (box_value node)
        ≡ a_chain (node_state (box_value part)) count (window_of above.now false)
        (all_levels count [])) }
{
    let levels = Box::new(alloc, Levels::new(alloc, count, store_window(above, false)))?;
    Ok(Box::new(alloc, Node::Repeats(part, levels))?)
}

/// One row at a node: answers the needed partial matches that end there, and updates the stores.
/// Charges the budget for what the stores then hold. `Stop::OverLimit` at the first partial match
/// beyond it.
#[cycle(step)]
fn step(
    alloc: Global,
    node: &mut Node,
    row: &Row,
    truths: &[bool],
    pending_lefts: &mut Vec<PendingLeft>,
    budget: &mut Budget,
) -> Result<Vec<PartialMatch>, Stop>
    requires span { row.now.first ≤ℤ row.now.last }
    // The reference implementation, followed by the filter.
    ensures new { IfOk result (λ new. partial_match_trees new.items
        ≡ needed row.now.last (pending_lefts_of pending_lefts.old.items)
        (step_new row.now truths.now (node_state node.old))) }
    ensures kept { OnOk result (node_state node.new
        ≡ step_state row.now truths.now (node_state node.old)) }
    // What is pushed for an inner `FOLLOWEDBY` is popped again.
    ensures pending_lefts { OnOk result (pending_lefts.new.items ≡ pending_lefts.old.items) }
    // The charge is exactly what the stores hold after the row.
    ensures counted { OnOk result (budget.new.left
        + held_after row.now truths.now (node_state node.old) ≡ budget.old.left) }
    // It never stops early: the retained count exceeds the budget.
    ensures over_limit { result ≡ Err stop.OverLimit
        → IsOverAt row.now truths.now (pending_lefts_of pending_lefts.old.items)
        (node_state node.old) budget.old.left }
{
    match node {
        Node::Leaves(leaves) => {
            let new = leaves.needed(alloc, row, truths, pending_lefts)?;
            Ok(new)
        }
        Node::Sides(join, left, right, sides) => {
            step_sides(
                alloc,
                *join,
                left,
                right,
                sides,
                row,
                truths,
                pending_lefts,
                budget,
            )
        }
        Node::Either(left, right) => step_either(
            alloc,
            left,
            right,
            row,
            truths,
            pending_lefts,
            budget,
        ),
        Node::Under(part) => step(alloc, part, row, truths, pending_lefts, budget),
        Node::Repeats(part, levels) => {
            step_repeats(alloc, part, levels, row, truths, pending_lefts, budget)
        }
    }
}

/// One row at a node outside of all `FOLLOWEDBY`s, where everything is needed.
#[cycle(step)]
pub(crate) fn step_alone(
    alloc: Global,
    node: &mut Node,
    row: &Row,
    truths: &[bool],
    budget: &mut Budget,
) -> Result<Vec<PartialMatch>, Stop>
    requires span { row.now.first ≤ℤ row.now.last }
    ensures new { IfOk result (λ new. partial_match_trees new.items
        ≡ needed row.now.last [] (step_new row.now truths.now (node_state node.old))) }
    ensures kept { OnOk result (node_state node.new
        ≡ step_state row.now truths.now (node_state node.old)) }
    ensures counted { OnOk result (budget.new.left
        + held_after row.now truths.now (node_state node.old) ≡ budget.old.left) }
    ensures over_limit { result ≡ Err stop.OverLimit
        → IsOverAt row.now truths.now [] (node_state node.old) budget.old.left }
{
    let mut none = Vec::new(alloc);
    let new = step(alloc, node, row, truths, &mut none, budget)?;
    Ok(new)
}

/// One row at an `AND` or a `FOLLOWEDBY`.
#[cycle(step)]
fn step_sides(
    alloc: Global,
    join: Join,
    left: &mut Node,
    right: &mut Node,
    sides: &mut Sides,
    row: &Row,
    truths: &[bool],
    pending_lefts: &mut Vec<PendingLeft>,
    budget: &mut Budget,
) -> Result<Vec<PartialMatch>, Stop>
    requires span { row.now.first ≤ℤ row.now.last }
    ensures new { IfOk result (λ new. partial_match_trees new.items
        ≡ needed row.now.last (pending_lefts_of pending_lefts.old.items)
        (step_new row.now truths.now (a_join join (node_state left.old) (node_state right.old)
        (side_stores sides.old)))) }
    ensures kept { OnOk result (a_join join (node_state left.new) (node_state right.new)
        (side_stores sides.new)
        ≡ step_state row.now truths.now
        (a_join join (node_state left.old) (node_state right.old) (side_stores sides.old))) }
    ensures pending_lefts { OnOk result (pending_lefts.new.items ≡ pending_lefts.old.items) }
    ensures counted { OnOk result (budget.new.left
        + held_after row.now truths.now
        (a_join join (node_state left.old) (node_state right.old) (side_stores sides.old))
        ≡ budget.old.left) }
    ensures over_limit { result ≡ Err stop.OverLimit
        → IsOverAt row.now truths.now (pending_lefts_of pending_lefts.old.items)
        (a_join join (node_state left.old) (node_state right.old) (side_stores sides.old))
        budget.old.left }
{
    sides.expire(row.last, budget)?;
    let new_left = step_alone(alloc, left, row, truths, budget)?;
    budget.take_admitted(&new_left, &sides.left_window, row.last)?;
    let new_right = step_right(
        alloc,
        join,
        right,
        sides,
        row,
        truths,
        pending_lefts,
        budget,
    )?;
    budget.take_admitted(&new_right, &sides.right_window, row.last)?;
    let join_filter = JoinFilter {
        time: row.last,
        pending_lefts,
        budget: budget.left,
    };
    let new = sides.join(alloc, join, new_left, new_right, &join_filter)?;
    Ok(new)
}

/// One row at an `OR`.
#[cycle(step)]
fn step_either(
    alloc: Global,
    left: &mut Node,
    right: &mut Node,
    row: &Row,
    truths: &[bool],
    pending_lefts: &mut Vec<PendingLeft>,
    budget: &mut Budget,
) -> Result<Vec<PartialMatch>, Stop>
    requires span { row.now.first ≤ℤ row.now.last }
    ensures new { IfOk result (λ new. partial_match_trees new.items
        ≡ needed row.now.last (pending_lefts_of pending_lefts.old.items)
        (step_new row.now truths.now (a_choice (node_state left.old) (node_state right.old)))) }
    ensures kept { OnOk result (a_choice (node_state left.new) (node_state right.new)
        ≡ step_state row.now truths.now (a_choice (node_state left.old) (node_state right.old))) }
    ensures pending_lefts { OnOk result (pending_lefts.new.items ≡ pending_lefts.old.items) }
    ensures counted { OnOk result (budget.new.left
        + held_after row.now truths.now (a_choice (node_state left.old) (node_state right.old))
        ≡ budget.old.left) }
    ensures over_limit { result ≡ Err stop.OverLimit
        → IsOverAt row.now truths.now (pending_lefts_of pending_lefts.old.items)
        (a_choice (node_state left.old) (node_state right.old)) budget.old.left }
{
    let mut new = Vec::new(alloc);
    step_first(alloc, 1, left, row, truths, pending_lefts, budget, &mut new)?;
    step_second(
        alloc,
        0,
        right,
        row,
        truths,
        pending_lefts,
        budget,
        &mut new,
    )?;
    Ok(new)
}

/// One row at a `REPEATS`.
#[cycle(step)]
fn step_repeats(
    alloc: Global,
    part: &mut Node,
    levels: &mut Levels,
    row: &Row,
    truths: &[bool],
    pending_lefts: &mut Vec<PendingLeft>,
    budget: &mut Budget,
) -> Result<Vec<PartialMatch>, Stop>
    requires span { row.now.first ≤ℤ row.now.last }
    ensures new { IfOk result (λ new. partial_match_trees new.items
        ≡ needed row.now.last (pending_lefts_of pending_lefts.old.items)
        (step_new row.now truths.now (levels_state (node_state part.old) levels.old))) }
    ensures kept { OnOk result (levels_state (node_state part.new) levels.new
        ≡ step_state row.now truths.now (levels_state (node_state part.old) levels.old)) }
    ensures pending_lefts { OnOk result (pending_lefts.new.items ≡ pending_lefts.old.items) }
    ensures counted { OnOk result (budget.new.left
        + held_after row.now truths.now (levels_state (node_state part.old) levels.old)
        ≡ budget.old.left) }
    ensures over_limit { result ≡ Err stop.OverLimit
        → IsOverAt row.now truths.now (pending_lefts_of pending_lefts.old.items)
        (levels_state (node_state part.old) levels.old) budget.old.left }
{
    let new = step_part(alloc, part, levels, row, truths, pending_lefts, budget)?;
    let answer = levels.step(alloc, row.last, &new, pending_lefts, budget)?;
    Ok(answer)
}

/// One row at the left operand of an `OR`, the innermost of `count` nested on their left: appends
/// what ends there, under `count` `First`s at once.
#[cycle(step)]
fn step_first(
    alloc: Global,
    count: u32,
    node: &mut Node,
    row: &Row,
    truths: &[bool],
    pending_lefts: &mut Vec<PendingLeft>,
    budget: &mut Budget,
    out: &mut Vec<PartialMatch>,
) -> Result<(), Stop>
    requires span { row.now.first ≤ℤ row.now.last }
    ensures new { OnOk result (partial_match_trees out.new.items
        ≡ partial_match_trees out.old.items ++ map (held_with (firsts count))
        (needed row.now.last (pending_lefts_of pending_lefts.old.items)
        (step_new row.now truths.now (node_state node.old)))) }
    ensures kept { OnOk result (node_state node.new
        ≡ step_state row.now truths.now (node_state node.old)) }
    ensures pending_lefts { OnOk result (pending_lefts.new.items ≡ pending_lefts.old.items) }
    ensures counted { OnOk result (budget.new.left
        + held_after row.now truths.now (node_state node.old) ≡ budget.old.left) }
    ensures over_limit { result ≡ Err stop.OverLimit
        → Admits row.now truths.now (node_state node.old)
        → budget.old.left < length out.old.items
        + retained_at row.now truths.now (pending_lefts_of pending_lefts.old.items)
        (node_state node.old) }
{
    if count < u32::MAX {
        if let Node::Either(left, right) = node {
            step_first(
                alloc,
                count + 1,
                left,
                row,
                truths,
                pending_lefts,
                budget,
                out,
            )?;
            step_second(alloc, count, right, row, truths, pending_lefts, budget, out)?;
            return Ok(());
        }
    }
    let mut new = step(alloc, node, row, truths, pending_lefts, budget)?;
    wrap_firsts(alloc, count, &mut new)?;
    out.append(&mut new)?;
    Ok(())
}

/// One row at the right operand of an `OR` which is nested `count` times on the left: appends what
/// ends there.
#[cycle(step)]
fn step_second(
    alloc: Global,
    count: u32,
    node: &mut Node,
    row: &Row,
    truths: &[bool],
    pending_lefts: &mut Vec<PendingLeft>,
    budget: &mut Budget,
    out: &mut Vec<PartialMatch>,
) -> Result<(), Stop>
    requires span { row.now.first ≤ℤ row.now.last }
    ensures new { OnOk result (partial_match_trees out.new.items
        ≡ partial_match_trees out.old.items ++ map (held_with (firsts count))
        (map (held_with Second) (needed row.now.last (pending_lefts_of pending_lefts.old.items)
        (step_new row.now truths.now (node_state node.old))))) }
    ensures kept { OnOk result (node_state node.new
        ≡ step_state row.now truths.now (node_state node.old)) }
    ensures pending_lefts { OnOk result (pending_lefts.new.items ≡ pending_lefts.old.items) }
    ensures counted { OnOk result (budget.new.left
        + held_after row.now truths.now (node_state node.old) ≡ budget.old.left) }
    ensures over_limit { result ≡ Err stop.OverLimit
        → Admits row.now truths.now (node_state node.old)
        → budget.old.left < length out.old.items
        + retained_at row.now truths.now (pending_lefts_of pending_lefts.old.items)
        (node_state node.old) }
{
    if is_nonmatching(node, truths) {
        return Ok(());
    }
    // Reading it tells the prover that it fits a u64.
    let _left = budget.left;
    budget.take(out.len())?;
    let new = step(alloc, node, row, truths, pending_lefts, budget)?;
    budget.give_back(out.len());
    add_seconds(alloc, count, new, out)?;
    Ok(())
}

/// One row at the right operand. In a `FOLLOWEDBY` the stored left operands become a pending left
/// for the time of the call.
#[cycle(step)]
fn step_right(
    alloc: Global,
    join: Join,
    right: &mut Node,
    sides: &mut Sides,
    row: &Row,
    truths: &[bool],
    pending_lefts: &mut Vec<PendingLeft>,
    budget: &mut Budget,
) -> Result<Vec<PartialMatch>, Stop>
    requires span { row.now.first ≤ℤ row.now.last }
    ensures new { IfOk result (λ new. partial_match_trees new.items
        ≡ needed row.now.last (pending_lefts_right join (side_stores sides.old)
        (pending_lefts_of pending_lefts.old.items))
        (step_new row.now truths.now (node_state right.old))) }
    ensures kept { OnOk result (node_state right.new
        ≡ step_state row.now truths.now (node_state right.old)) }
    // The left store is lent to the pending left, and returned.
    ensures sides { OnOk result (side_stores sides.new ≡ side_stores sides.old) }
    ensures pending_lefts { OnOk result (pending_lefts.new.items ≡ pending_lefts.old.items) }
    ensures counted { OnOk result (budget.new.left
        + held_after row.now truths.now (node_state right.old) ≡ budget.old.left) }
    ensures over_limit { result ≡ Err stop.OverLimit
        → IsOverAt row.now truths.now (pending_lefts_right join (side_stores sides.old)
        (pending_lefts_of pending_lefts.old.items)) (node_state right.old) budget.old.left }
{
    match join {
        Join::Then => {
            let left = mem::replace(&mut sides.left, Store::new(alloc));
            pending_lefts.push(PendingLeft {
                left,
                window: sides.right_window,
            })?;
            let new = step(alloc, right, row, truths, pending_lefts, budget)?;
            if let Some(pending_left) = pending_lefts.pop() {
                sides.left = pending_left.left;
            }
            Ok(new)
        }
        Join::Both | Join::Repeats => step_alone(alloc, right, row, truths, budget),
    }
}

/// One row at the part of a `REPEATS`.
#[cycle(step)]
fn step_part(
    alloc: Global,
    part: &mut Node,
    levels: &Levels,
    row: &Row,
    truths: &[bool],
    pending_lefts: &mut Vec<PendingLeft>,
    budget: &mut Budget,
) -> Result<Vec<PartialMatch>, Stop>
    requires span { row.now.first ≤ℤ row.now.last }
    ensures new { IfOk result (λ new. partial_match_trees new.items
        ≡ needed row.now.last (pending_lefts_part levels.now.count levels.now.window row.now.last
        (pending_lefts_of pending_lefts.old.items))
        (step_new row.now truths.now (node_state part.old))) }
    ensures kept { OnOk result (node_state part.new
        ≡ step_state row.now truths.now (node_state part.old)) }
    ensures pending_lefts { OnOk result (pending_lefts.new.items ≡ pending_lefts.old.items) }
    ensures counted { OnOk result (budget.new.left
        + held_after row.now truths.now (node_state part.old) ≡ budget.old.left) }
    ensures over_limit { result ≡ Err stop.OverLimit
        → IsOverAt row.now truths.now (pending_lefts_part levels.now.count levels.now.window
        row.now.last (pending_lefts_of pending_lefts.old.items))
        (node_state part.old) budget.old.left }
{
    match levels.count {
        0 => {
            pending_lefts.push(no_pending_left(alloc, &levels.window, row.last))?;
            let new = step(alloc, part, row, truths, pending_lefts, budget)?;
            pending_lefts.pop();
            Ok(new)
        }
        1 => step(alloc, part, row, truths, pending_lefts, budget),
        _ => step_alone(alloc, part, row, truths, budget),
    }
}

/// A pending left with a closed window and an empty store: nothing is needed under it.
fn no_pending_left(alloc: Global, window: &Window, now: Instant) -> PendingLeft
    ensures { pending_left_trees result ≡ record { left = []; window = closed window.now now } }
{
    let window = Window {
        seconds: window.seconds,
        start: window.start,
        stop: Some(now),
        after_left: window.after_left,
    };
    PendingLeft {
        left: Store::new(alloc),
        window,
    }
}

/// Whether a node is a chain of leaves of which none holds at the row.
fn is_nonmatching(node: &Node, truths: &[bool]) -> bool
    ensures { IsTrue result → IsNonmatchingChain truths.now (node_state node.now) }
{
    match node {
        Node::Leaves(leaves) => !leaves.any_holds(truths),
        Node::Sides(_, _, _, _) | Node::Either(_, _) => false,
        Node::Under(_) | Node::Repeats(_, _) => false,
    }
}

/// Appends the results of the right operand of an `OR`, under one `Second` and `count` `First`s.
/// Reuses their memory where `out` is empty.
#[inline(never)]
fn add_seconds(
    alloc: Global,
    count: u32,
    new: Vec<PartialMatch>,
    out: &mut Vec<PartialMatch>,
) -> Result<(), NoMemory>
    ensures { OnOk result (partial_match_trees out.new.items
        ≡ partial_match_trees out.old.items
        ++ map (held_with (firsts count))
        (map (held_with Second) (partial_match_trees new.items))) }
{
    let mut seconds = new;
    wrap_seconds(alloc, &mut seconds)?;
    wrap_firsts(alloc, count, &mut seconds)?;
    if out.is_empty() {
        *out = seconds;
        return Ok(());
    }
    out.append(&mut seconds)?;
    Ok(())
}

/// Wraps each binding in `count` `First`s.
#[tactic(auto, using(crate::proofs::InPlaceLemmas::once_only, match_pruning::proofs::PicksLemmas::once_firsts))]
fn wrap_firsts(alloc: Global, count: u32, held: &mut Vec<PartialMatch>) -> Result<(), NoMemory>
    ensures { OnOk result (partial_match_trees held.new.items
        ≡ map (held_with (firsts count)) (partial_match_trees held.old.items)) }
{
    for partial_match in held.iter_mut() {
        let bind = mem::replace(&mut partial_match.bind, Bind::One(0));
        let above = Bind::under_firsts(alloc, count, bind)?;
        partial_match.bind = above;
    }
    Ok(())
}

/// Wraps each binding in a `Second`.
#[tactic(auto, using(crate::proofs::InPlaceLemmas::once_only, match_pruning::proofs::PicksLemmas::once_second))]
fn wrap_seconds(alloc: Global, held: &mut Vec<PartialMatch>) -> Result<(), NoMemory>
    ensures { OnOk result (partial_match_trees held.new.items
        ≡ map (held_with Second) (partial_match_trees held.old.items)) }
{
    for partial_match in held.iter_mut() {
        let bind = mem::replace(&mut partial_match.bind, Bind::One(0));
        let above = Bind::under_second(alloc, bind)?;
        partial_match.bind = above;
    }
    Ok(())
}
