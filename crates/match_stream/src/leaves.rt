//! Brackets in a left-nested chain of `OR`s, collapsed into one node.
//!
//! All of them match the row alone, at one time and with one set of observations, so a single test
//! decides whether their partial matches are needed. That makes a wide `OR` cost one look per
//! bracket instead of a node per bracket.

ghost use Rattle.std.specs.Prelude.{◌≡◌, ◌+◌, ◌<◌, ◌≤ℤ◌, ◌≤◌, ◌^◌, ◌++◌, ◌∷◌, [], ℕ, true, false};
ghost use Rattle.std.specs.Prelude.{IsTrue, IfOk, IfSome, OnOk, nat_eq};
ghost use Rattle.std.specs.List.{IsDistinct};
ghost use Rattle.match_bindings.specs.BindTree.{Second, firsts, tree_of};
ghost use Rattle.match_pruning.specs.inner.PartialMatches.{partial_match_tree, partial_match_trees};
ghost use Rattle.match_pruning.specs.inner.Retains.{retains};
ghost use Rattle.match_pruning.specs.inner.Steps.{held_with, a_leaf, a_choice, row_alone, truth_at};
ghost use Rattle.match_pruning.specs.inner.Steps.{IsNonmatchingChain, step_new};
ghost use Rattle.match_pruning.specs.inner.Needed.{is_needed, needed};
ghost use Rattle.match_pruning.specs.inner.PendingLefts.{pending_lefts_of};
ghost use Rattle.match_pruning.specs.inner.Numbers.{numbers};

use flow_values::NoMemory;
use match_bindings::Bind;
use match_pruning::Window;
use match_pruning::needed::is_needed;
use match_pruning::partial_match::PartialMatch;
use match_pruning::pending_left::PendingLeft;
use match_pruning::row::Row;
use match_pruning::store::is_retained;
use std::alloc::Global;

/// A leaf (bracket) of a pattern and the leaves after it, each on the right of an `OR` of all
/// before it.
#[derive(Clone, Copy)]
pub(crate) struct Leaves {
    /// The number of the first leaf.
    pub first: u32,
    /// How many leaves come after it.
    pub more: u32,
    /// How long a match of one of them is retained.
    pub window: Window,
    ghost few: { first + more < 2 ^ 32 },
}

impl Leaves {
    ghost use Rattle.match_stream.specs.inner.Nodes.{leaves_of};

    /// A single leaf.
    pub fn one(leaf: u32, window: Window) -> Leaves
        ensures { leaves_of result ≡ a_leaf leaf window }
    {
        Leaves {
            first: leaf,
            more: 0,
            window,
        }
    }

    /// Extends the chain by the next leaf, where its number follows and it has the same window.
    pub fn with(&self, next: &Leaves) -> Option<Leaves>
        ensures { IfSome result (λ longer. leaves_of longer
            ≡ a_choice (leaves_of self.now) (leaves_of next.now)) }
    {
        let last = self.first + self.more;
        if next.more == 0
            && last < next.first
            && next.first - last == 1
            && self.window == next.window
        {
            return Some(Leaves {
                first: self.first,
                more: self.more + 1,
                window: self.window,
            });
        }
        None
    }

    /// Whether some leaf holds at the row.
    pub fn any_holds(&self, truths: &[bool]) -> bool
        ensures { result ≡ false → IsNonmatchingChain truths.now (leaves_of self.now) }
    {
        if holds(truths, self.first) {
            return true;
        }
        for at in 0..self.more {
            if holds(truths, self.first + at + 1) {
                return true;
            }
        }
        false
    }

    /// One row: the needed partial matches that end there, one for each leaf that holds.
    #[inline(never)]
    pub fn needed(
        &self,
        alloc: Global,
        row: &Row,
        truths: &[bool],
        pending_lefts: &[PendingLeft],
    ) -> Result<Vec<PartialMatch>, NoMemory>
        requires span { row.now.first ≤ℤ row.now.last }
        ensures { IfOk result (λ new. partial_match_trees new.items
            ≡ needed row.now.last (pending_lefts_of pending_lefts.now)
            (step_new row.now truths.now (leaves_of self.now))) }
    {
        if self.any_is_needed(alloc, row, truths, pending_lefts)? {
            let new = self.all_new(alloc, row, truths)?;
            return Ok(new);
        }
        Ok(Vec::new(alloc))
    }

    /// Whether those partial matches are needed: all of them or none, since each is the row alone.
    fn any_is_needed(
        &self,
        alloc: Global,
        row: &Row,
        truths: &[bool],
        pending_lefts: &[PendingLeft],
    ) -> Result<bool, NoMemory>
        requires span { row.now.first ≤ℤ row.now.last }
        // All or nothing: each partial match is the row alone.
        ensures all { IfOk result (λ is. is ≡ true
            → needed row.now.last (pending_lefts_of pending_lefts.now)
            (step_new row.now truths.now (leaves_of self.now))
            ≡ step_new row.now truths.now (leaves_of self.now)) }
        ensures none { IfOk result (λ is. is ≡ false
            → needed row.now.last (pending_lefts_of pending_lefts.now)
            (step_new row.now truths.now (leaves_of self.now)) ≡ []) }
        ensures retained { IfOk result (λ is. is ≡ true
            → retains self.now.window row.now.first row.now.last ≡ true) }
    {
        if !self.any_holds(truths) || !is_retained(&self.window, row.first, row.last) {
            return Ok(false);
        }
        let is = alone_is_needed(alloc, row, pending_lefts)?;
        Ok(is)
    }

    /// The partial matches that end at the row, whether or not they are needed.
    #[tactic(auto, using(match_pruning::proofs::PicksLemmas::once_one))]
    fn all_new(
        &self,
        alloc: Global,
        row: &Row,
        truths: &[bool],
    ) -> Result<Vec<PartialMatch>, NoMemory>
        requires span { row.now.first ≤ℤ row.now.last }
        requires retained { retains self.now.window row.now.first row.now.last ≡ true }
        ensures { IfOk result (λ new. partial_match_trees new.items
            ≡ step_new row.now truths.now (leaves_of self.now)) }
    {
        let mut new = Vec::new(alloc);
        if holds(truths, self.first) {
            push_under(alloc, self.more, Bind::One(row.number), row, &mut new)?;
        }
        for at in 0..self.more {
            if holds(truths, self.first + at + 1) {
                push_second(alloc, self.more - at - 1, row, &mut new)?;
            }
        }
        Ok(new)
    }
}

/// Whether a leaf holds.
fn holds(truths: &[bool], leaf: u32) -> bool
    ensures { result ≡ truth_at truths.now leaf }
{
    truths.get(leaf as usize).copied().unwrap_or(false)
}

/// The partial match that binds the row alone.
#[tactic(auto, using(match_pruning::proofs::PicksLemmas::once_one))]
fn singleton(row: &Row) -> PartialMatch
    requires span { row.now.first ≤ℤ row.now.last }
    ensures { partial_match_tree result ≡ row_alone row.now }
{
    partial_match(Bind::One(row.number), row)
}

/// Whether it is needed.
fn alone_is_needed(
    alloc: Global,
    row: &Row,
    pending_lefts: &[PendingLeft],
) -> Result<bool, NoMemory>
    requires span { row.now.first ≤ℤ row.now.last }
    ensures { IfOk result (λ is. is ≡ is_needed row.now.last (pending_lefts_of pending_lefts.now)
        (row_alone row.now)) }
{
    let partial_match = singleton(row);
    let is = is_needed(alloc, &partial_match, row.last, pending_lefts);
    drop(partial_match);
    is
}

/// A partial match of one row, with this binding.
fn partial_match(bind: Bind, row: &Row) -> PartialMatch
    requires span { row.now.first ≤ℤ row.now.last }
    requires once { IsDistinct nat_eq (numbers (tree_of bind)) }
    ensures { partial_match_tree result
        ≡ record { tree = tree_of bind; earliest = row.now.first; latest = row.now.last } }
{
    PartialMatch {
        bind,
        earliest: row.first,
        latest: row.last,
    }
}

/// Appends the row alone, under one `Second` and `above` `First`s.
#[tactic(auto, using(match_pruning::proofs::PicksLemmas::once_second, match_pruning::proofs::PicksLemmas::once_one))]
fn push_second(
    alloc: Global,
    above: u32,
    row: &Row,
    new: &mut Vec<PartialMatch>,
) -> Result<(), NoMemory>
    requires span { row.now.first ≤ℤ row.now.last }
    ensures { OnOk result (partial_match_trees new.new.items ≡ partial_match_trees new.old.items
        ++ held_with (firsts above) (held_with Second (row_alone row.now)) ∷ []) }
{
    let second = Bind::under_second(alloc, Bind::One(row.number))?;
    push_under(alloc, above, second, row, new)
}

/// Appends a binding of the row alone, under `above` `First`s.
#[tactic(auto, using(match_pruning::proofs::PicksLemmas::once_firsts))]
fn push_under(
    alloc: Global,
    above: u32,
    bind: Bind,
    row: &Row,
    new: &mut Vec<PartialMatch>,
) -> Result<(), NoMemory>
    requires span { row.now.first ≤ℤ row.now.last }
    requires once { IsDistinct nat_eq (numbers (tree_of bind)) }
    ensures { OnOk result (partial_match_trees new.new.items ≡ partial_match_trees new.old.items
        ++ held_with (firsts above) (record
        { tree = tree_of bind; earliest = row.now.first; latest = row.now.last }) ∷ []) }
{
    let longer = Bind::under_firsts(alloc, above, bind)?;
    new.push(partial_match(longer, row))?;
    Ok(())
}
