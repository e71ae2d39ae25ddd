//! The n greatest of the rows added so far, in order. A row beyond n evicts the least.

ghost use Rattle.std.specs.Prelude.{◌≡◌, ◌≤◌, [], List, length, IfOk, OnOk, OnErr};
ghost use Rattle.alert_window.specs.MatchingRows.{row_cmp};
ghost use Rattle.alert_window.specs.inner.Kept.{keep, earliest_if_full};
ghost use Rattle.std.specs.BTreeSet.{insert_key, IsOrdered};

use crate::MatchingRow;
use flow_values::NoMemory;
use std::alloc::Global;
use std::collections::BTreeSet;
use stix_times::Instant;

/// The last rows by first time and then number, at most `most`.
#[derive(Drop)]
pub(crate) struct KeptRows {
    most: u32,
    rows: BTreeSet<MatchingRow, Global>,
    ghost few: { length rows.keys ≤ most },
}

impl KeptRows {
    /// No rows. Takes no memory.
    pub(crate) fn new(alloc: Global, most: u32) -> KeptRows
        ensures most { result.most ≡ most }
        ensures none { result.rows.keys ≡ [] }
    {
        KeptRows {
            most,
            rows: BTreeSet::new(alloc),
        }
    }

    /// Adds a row, and evicts the first where there are too many. Out of memory leaves all
    /// unchanged.
    pub(crate) fn add(&mut self, row: MatchingRow) -> Result<(), NoMemory>
        ensures ok { OnOk result (self.new.rows.keys
            ≡ keep self.old.most (insert_key row_cmp self.old.rows.keys row)) }
        ensures err { OnErr result (self.new ≡ self.old) }
        ensures most { self.new.most ≡ self.old.most }
    {
        self.rows.insert(row)?;
        if self.rows.len() > self.most as usize {
            self.rows.pop_first();
        }
        Ok(())
    }

    /// How many rows there are.
    pub(crate) fn len(&self) -> usize
        ensures { result ≡ length self.now.rows.keys }
    {
        self.rows.len()
    }

    /// The first time of the first row, where there are `most` rows.
    pub(crate) fn earliest_if_full(&self) -> Option<Instant>
        ensures { result ≡ earliest_if_full self.now.most self.now.rows.keys }
    {
        if self.rows.len() < self.most as usize {
            return None;
        }
        let row = self.rows.first()?;
        Some(row.first)
    }
}
