//! A maximum bipartite matching that grows by one vertex at a time, with Kuhn's augmenting paths.
//!
//! A vertex on the left is a position that needs a distinct observation; its neighbors are the
//! observation numbers that may stand there. `has_hall_violator` is a one-sided test of Hall's
//! condition. It looks for an augmenting path from the newest vertex. Where none exists, the
//! vertices that the search tried have fewer neighbors together than there are of them (a Hall
//! violator), so no assignment of distinct numbers exists.
//!
//! Only `is_hall_violator`, which counts those vertices and their neighbors anew, carries a
//! contract. `augment`, `is_tried` and `put` carry none and need none: they choose which vertices
//! to count. A mistake there could only make the test miss a violator, and the caller would search
//! longer.

ghost use Rattle.std.specs.Prelude.{◌≡◌, ◌≤◌, ◌∷◌, [], ℕ, List, nat_eq, true, false, length, IfOk};
ghost use Rattle.std.specs.Prelude.{OnOk};
ghost use Rattle.std.specs.List.{AllZip, Contains, IsDistinct};
ghost use Rattle.match_bindings.specs.BindTree.{BindTree, has};
ghost use Rattle.match_pruning.specs.inner.Picks.{HasPerfectMatching, MayPick, IsAmong};

use crate::numbers::sort_dedup;
use flow_values::NoMemory;
use std::alloc::Global;

/// The neighbors of one vertex: the observation numbers that may be assigned to it.
#[derive(Drop)]
pub struct Neighbors {
    pub numbers: Vec<u64>,
}

/// The left vertices, the newest first, with a partial assignment.
#[derive(Drop)]
pub struct Matching {
    pub list: Vec<Neighbors>,
    /// For each vertex the number assigned to it, if any.
    pub picks: Vec<Option<u64>>,
}

impl Matching {
    /// A matching without vertices. Takes no memory.
    pub fn new(alloc: Global) -> Matching
        ensures { result.list.items ≡ [] }
    {
        Matching {
            list: Vec::new(alloc),
            picks: Vec::new(alloc),
        }
    }

    /// Adds a vertex. False is a proof that no assignment gives each vertex a distinct number.
    pub fn admit(&mut self, alloc: Global, numbers: Vec<u64>) -> Result<bool, NoMemory>
        ensures added { OnOk result (self.new.list.items ≡ record { numbers = numbers }
            ∷ self.old.list.items) }
        // One-sided: false proves that no binding has distinct numbers for all vertices.
        ensures short { IfOk result (λ may. may ≡ false → (x : BindTree)
            → ¬ (HasPerfectMatching self.new.list.items x)) }
    {
        self.add(numbers)?;
        let short = self.has_hall_violator(alloc)?;
        Ok(!short)
    }

    /// Adds a vertex without an assignment.
    fn add(&mut self, numbers: Vec<u64>) -> Result<(), NoMemory>
        ensures { OnOk result (self.new.list.items ≡ record { numbers = numbers }
            ∷ self.old.list.items) }
    {
        self.list.insert(0, Neighbors { numbers })?;
        self.picks.insert(0, None)?;
        Ok(())
    }

    /// Whether the vertices have a Hall violator. True is a proof; false is no promise. Tries one
    /// augmenting path from the newest vertex, O(vertices times edges).
    fn has_hall_violator(&mut self, alloc: Global) -> Result<bool, NoMemory>
        ensures same { self.new.list ≡ self.old.list }
        // One-sided: true proves that no binding has distinct numbers for all vertices.
        ensures short { IfOk result (λ short. short ≡ true → (x : BindTree)
            → ¬ (HasPerfectMatching self.old.list.items x)) }
    {
        let mut tried = Vec::new(alloc);
        for _ in 0..self.list.len() {
            tried.push(false)?;
        }
        if augment(&self.list, &mut self.picks, &mut tried, 0, self.list.len()) {
            return Ok(false);
        }
        let short = is_hall_violator(alloc, &self.list, &tried)?;
        Ok(short)
    }
}

/// Looks for an augmenting path from the vertex at `place`, of at most `depth` vertices: takes a
/// free neighbor, or one whose owner finds another. Marks each vertex that it tries. Has no
/// contract: see the head of this file.
#[cycle(augment)]
fn augment(
    matching: &[Neighbors],
    picks: &mut Vec<Option<u64>>,
    tried: &mut Vec<bool>,
    place: usize,
    depth: usize,
) -> bool {
    if depth == 0 {
        return false;
    }
    let Some(neighbors) = matching.get(place) else {
        return false;
    };
    put(tried, place, true);
    for number in &neighbors.numbers {
        let is_free = match picks.iter().position(|pick| *pick == Some(*number)) {
            Some(other) => {
                !is_tried(tried, other) && augment(matching, picks, tried, other, depth - 1)
            }
            None => true,
        };
        if is_free {
            put(picks, place, Some(*number));
            return true;
        }
    }
    false
}

/// Whether a vertex was tried.
fn is_tried(tried: &[bool], place: usize) -> bool {
    match tried.get(place) {
        Some(is) => *is,
        None => false,
    }
}

/// Replaces the item at `place`, if there is one.
fn put<T: Drop>(items: &mut [T], place: usize, item: T) {
    if let Some(old) = items.get_mut(place) {
        *old = item;
    }
}

/// Whether the vertices that were tried are more than their distinct neighbors. True is a proof
/// that no assignment exists.
fn is_hall_violator(alloc: Global, matching: &[Neighbors], tried: &[bool]) -> Result<bool, NoMemory>
    ensures { IfOk result (λ are. are ≡ true → (x : BindTree)
        → ¬ (HasPerfectMatching matching.now x)) }
{
    let mut numbers = Vec::new(alloc);
    let count = push_tried(matching, tried, &mut numbers)?;
    sort_dedup(&mut numbers);
    Ok(numbers.len() < count)
}

/// Appends the neighbors of the vertices that were tried: how many vertices these are.
#[cycle(push_tried)]
fn push_tried(
    matching: &[Neighbors],
    tried: &[bool],
    numbers: &mut Vec<u64>,
) -> Result<usize, NoMemory>
    ensures count { IfOk result (λ count. count ≤ length matching.now) }
    ensures kept { OnOk result ((n : ℕ) → Contains numbers.old.items n
        → Contains numbers.new.items n) }
    ensures picked { IfOk result (λ count. (x : BindTree) (picks : List ℕ)
        → IsDistinct nat_eq picks → AllZip (MayPick x) matching.now picks
        → IsAmong count numbers.new.items picks) }
{
    let Some((neighbors, others)) = matching.split_first() else {
        return Ok(0);
    };
    let Some((is, more)) = tried.split_first() else {
        return Ok(0);
    };
    let count = push_tried(others, more, numbers)?;
    if !*is {
        return Ok(count);
    }
    numbers.extend_from_slice(&neighbors.numbers)?;
    Ok(count + 1)
}
