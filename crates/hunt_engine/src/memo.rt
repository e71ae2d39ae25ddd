//! A memo: which brackets hold at each root of a bundle, so that a root which several observations
//! share is evaluated once.
//!
//! The memo is a cache with a bound: where it holds more than `MAX_POSITIONS` indices, it is
//! emptied before more is added. Contracts promise that each entry is correct, so an eviction only
//! costs time. `upcoming` and `pass` are a hint which roots follow, so that they can be evaluated
//! as a batch. `upcoming` carries no contract, since any answer of it would be correct.

ghost use Rattle.std.specs.Prelude.{◌≡◌, ◌↔◌, ◌⊎◌, ◌<◌, ◌^◌, ℕ, List, [], IsTrue, Some, length};
ghost use Rattle.std.specs.Prelude.{slice_get, IfOk, OnOk};
ghost use Rattle.hunt_engine.specs.inner.Memos.{IsMemoized, AddsRoot, AddsPositions};

use flow_values::{Items, NoMemory};
use std::alloc::Global;
use std::marker::Model;
use stix_bundles::Observation;

/// How many bracket indices the memo holds before it is emptied, at 4 bytes each. One batch of
/// roots may come on top.
pub(crate) const MAX_POSITIONS: usize = 1_048_576;

/// The memo of one bundle: for each root evaluated so far, the indices of the brackets that hold
/// there. Contracts observe it as a list with an entry for each root, `None` where it wasn't
/// evaluated.
///
/// Where many brackets hold at each of many roots, a full memo would take their product. So it is
/// emptied past `MAX_POSITIONS` indices, and a root that occurs again is evaluated again.
#[derive(Drop)]
pub struct Memo {
    roots: Vec<Option<Items<u32>>>,
    positions: usize,
    /// The roots of the bundle's observations, in order.
    order: Vec<u32>,
    /// How many of them were passed.
    passed: usize,
}

impl Model for Memo {
    ghost use Rattle.std.specs.Prelude.{List, Option, ℕ};
    ghost use Rattle.std.specs.Coded.{codes};

    ghost Value = { List (Option (List ℕ)) };

    ghost coded = { Prim.hlevel (codes) };

    ghost view = { λ memo. memo.roots.items };
}

impl Memo {
    /// An empty memo for a bundle with these observations, to be taken in order. Takes 4 bytes for
    /// each of their roots.
    pub fn of(alloc: Global, observations: &[Observation]) -> Result<Memo, NoMemory>
        ensures { IfOk result (λ memo. memo ≡ []) }
    {
        let mut order = Vec::new(alloc);
        for observation in observations {
            order.extend_from_slice(observation.roots.as_slice())?;
        }
        Ok(Memo {
            roots: Vec::new(alloc),
            positions: 0,
            order,
            passed: 0,
        })
    }

    /// The roots that follow, the current one first.
    pub(crate) fn upcoming(&self) -> &[u32] {
        let from = self.passed.min(self.order.len());
        &self.order[from..]
    }

    /// Advances to the next root.
    pub(crate) fn pass(&mut self)
        // Only the hint changes, which contracts don't observe.
        ensures { self.new ≡ self.old }
    {
        self.passed = self.passed.saturating_add(1);
    }

    /// Whether a root has an entry.
    pub(crate) fn has(&self, root: u32) -> bool
        ensures { IsTrue result ↔ IsMemoized self.now root }
    {
        matches!(self.roots.get(root as usize), Some(Some(_)))
    }

    /// The brackets that hold at a root which has an entry; empty for any other.
    pub(crate) fn positions_at(&self, root: u32) -> &[u32]
        ensures { (positions : List ℕ) → slice_get self.now root ≡ Some (Some positions)
            → result.now ≡ positions }
    {
        match self.roots.get(root as usize) {
            Some(Some(positions)) => positions.as_slice(),
            Some(None) | None => &[],
        }
    }

    /// Empties the memo, where it holds more than `MAX_POSITIONS` indices.
    pub(crate) fn evict_if_full(&mut self)
        // Either nothing changes, or the memo is empty.
        ensures { (self.new ≡ self.old) ⊎ (self.new ≡ []) }
    {
        if self.positions > MAX_POSITIONS {
            self.roots.clear();
            self.positions = 0;
        }
    }

    /// Adds the entry of a root.
    pub(crate) fn add(&mut self, root: u32, positions: Items<u32>) -> Result<(), NoMemory>
        ensures { OnOk result (AddsRoot root positions self.old self.new) }
    {
        let at = root as usize;
        ensure_length(&mut self.roots, at)?;
        self.positions = self.positions.saturating_add(positions.len());
        self.roots[at] = Some(positions);
        Ok(())
    }

    /// Adds a bracket to the entry of a root, where it has one.
    pub(crate) fn add_position(&mut self, root: u32, position: u32) -> Result<(), NoMemory>
        ensures { OnOk result (AddsPositions (λ own added. (own ≡ root)
            × (added ≡ position)) self.old self.new) }
    {
        let at = root as usize;
        if at >= self.roots.len() {
            return Ok(());
        }
        if let Some(mut positions) = self.roots[at].take() {
            positions.push(position)?;
            self.positions = self.positions.saturating_add(1);
            self.roots[at] = Some(positions);
        }
        Ok(())
    }
}

/// Extends the list so that it has this root; the new entries are empty.
fn ensure_length(roots: &mut Vec<Option<Items<u32>>>, at: usize) -> Result<(), NoMemory>
    requires { at < 2 ^ 32 }
    ensures room { OnOk result (at < length roots.new.items) }
    ensures same { OnOk result ((root : ℕ) (positions : List ℕ)
        → slice_get roots.new.items root ≡ Some (Some positions)
        ↔ slice_get roots.old.items root ≡ Some (Some positions)) }
{
    for _ in roots.len()..at + 1 {
        roots.push(None)?;
    }
    Ok(())
}
