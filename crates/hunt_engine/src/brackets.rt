//! The brackets of all patterns in one list.

ghost use Rattle.std.specs.Prelude.{◌≡◌, ◌≤◌, ◌<◌, ◌+◌, ◌^◌, ◌++◌, List, [], ◌∷◌, Some, length};
ghost use Rattle.std.specs.Prelude.{map, slice_get, OnOk};
ghost use Rattle.pattern_types.specs.PlainLeaf.{plain_leaf};
ghost use Rattle.pattern_types.specs.PlainPattern.{PlainPattern, plain_pattern};
ghost use Rattle.hunt_engine.specs.declared.brackets.BracketRange.{BracketRange};
ghost use Rattle.hunt_engine.specs.Memo.{leaf_list};
ghost use Rattle.hunt_engine.specs.inner.Table.{part_of, repeated, IsTable};

use flow_values::NoMemory;
use pattern_types::{Leaf, Pattern};
use std::alloc::Global;

/// How many brackets there may be: their indices are u32.
const MAX_BRACKETS: usize = 4_294_967_295;

/// The range of one pattern's brackets in the list of all.
#[derive(Clone, Copy, Debug)]
pub(crate) struct BracketRange {
    /// The index of the first.
    pub(crate) first: u32,
    /// How many there are.
    pub(crate) count: u32,
}

/// The brackets of all patterns, pattern after pattern.
#[derive(Drop)]
pub(crate) struct Brackets<'p> {
    /// The brackets.
    pub(crate) leaves: Vec<&'p Leaf>,
    /// For each bracket the index of its pattern.
    pub(crate) owners: Vec<u32>,
    /// For each pattern the range of its brackets.
    pub(crate) bracket_ranges: Vec<BracketRange>,
}

impl<'p> Brackets<'p> {
    /// An empty list. Takes no memory.
    pub(crate) fn new(alloc: Global) -> Brackets<'p>
        ensures table { IsTable [] (map plain_leaf (map (λ leaf. leaf.now) result.leaves.items))
            result.owners.items result.bracket_ranges.items }
        ensures none { result.leaves.items ≡ [] }
    {
        Brackets {
            leaves: Vec::new(alloc),
            owners: Vec::new(alloc),
            bracket_ranges: Vec::new(alloc),
        }
    }

    /// Adds the brackets of the next pattern. Out of memory also where there would be more than a
    /// u32 can count.
    pub(crate) fn add(&mut self, pattern: &'p Pattern) -> Result<(), NoMemory>
        requires room { length self.old.bracket_ranges.items < 2 ^ 32 }
        ensures table { (patterns : List PlainPattern)
            → IsTable patterns (map plain_leaf (map (λ leaf. leaf.now) self.old.leaves.items))
            self.old.owners.items self.old.bracket_ranges.items
            → OnOk result (IsTable (patterns ++ plain_pattern pattern.now ∷ [])
            (map plain_leaf (map (λ leaf. leaf.now) self.new.leaves.items)) self.new.owners.items
            self.new.bracket_ranges.items) }
        ensures leaves { OnOk result (map plain_leaf (map (λ leaf. leaf.now) self.new.leaves.items)
            ≡ map plain_leaf (map (λ leaf. leaf.now) self.old.leaves.items)
            ++ leaf_list (plain_pattern pattern.now)) }
        ensures few { OnOk result (length self.new.leaves.items < 2 ^ 32) }
    {
        let position = self.bracket_ranges.len() as u32;
        let first = self.leaves.len();
        add_leaves(&mut self.leaves, pattern)?;
        let end = self.leaves.len();
        if end > MAX_BRACKETS {
            return Err(NoMemory);
        }
        let count = end - first;
        add_owner(&mut self.owners, position, count)?;
        self.bracket_ranges.push(BracketRange {
            first: first as u32,
            count: count as u32,
        })?;
        Ok(())
    }

    /// The truths of one pattern's brackets, out of the marks of all.
    pub(crate) fn truths<'m>(&self, position: usize, marks: &'m [bool]) -> &'m [bool]
        requires there { position < length self.now.bracket_ranges.items }
        requires inside { (bracket_range : BracketRange)
            → slice_get self.now.bracket_ranges.items position ≡ Some bracket_range
            → bracket_range.first + bracket_range.count ≤ length marks.now }
        ensures { (bracket_range : BracketRange)
            → slice_get self.now.bracket_ranges.items position ≡ Some bracket_range
            → result.now ≡ part_of bracket_range marks.now }
    {
        let bracket_range = &self.bracket_ranges[position];
        let first = bracket_range.first as usize;
        let count = bracket_range.count as usize;
        &marks[first..first + count]
    }
}

/// Appends the brackets of a pattern, from left to right.
fn add_leaves<'p>(leaves: &mut Vec<&'p Leaf>, pattern: &'p Pattern) -> Result<(), NoMemory>
    ensures { OnOk result (map plain_leaf (map (λ leaf. leaf.now) leaves.new.items)
        ≡ map plain_leaf (map (λ leaf. leaf.now) leaves.old.items)
        ++ leaf_list (plain_pattern pattern.now)) }
{
    match pattern {
        Pattern::Leaf(leaf) => {
            leaves.push(leaf)?;
            Ok(())
        }
        Pattern::Both(left, right) | Pattern::Either(left, right) | Pattern::Then(left, right) => {
            add_leaves(leaves, left)?;
            add_leaves(leaves, right)
        }
        Pattern::Within(part, _) | Pattern::Between(part, _, _) | Pattern::Repeats(part, _) => {
            add_leaves(leaves, part)
        }
    }
}

/// Appends `position` as the owner of `count` more brackets.
fn add_owner(owners: &mut Vec<u32>, position: u32, count: usize) -> Result<(), NoMemory>
    ensures { OnOk result (owners.new.items ≡ owners.old.items ++ repeated position count) }
{
    for _ in 0..count {
        owners.push(position)?;
    }
    Ok(())
}
