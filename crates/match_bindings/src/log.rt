ghost use Rattle.std.specs.Prelude.{◌≡◌, [], ◌∷◌, ◌++◌, ◌≤ℤ◌, OnOk, OnErr, length};
ghost use Rattle.match_bindings.specs.Log.{LastIsBy, observed_in};
ghost use Rattle.match_bindings.specs.BindTree.{One};
ghost use Rattle.match_bindings.specs.inner.Candidates.{span_if, span_of};

use crate::log_entry::LogEntry;
use crate::span::Span;
use flow_values::{Items, NoMemory};
use std::alloc::Global;
use std::marker::Model;
use stix_times::Instant;

/// A log: observations in the order of their last times. Contracts observe the list of its rows.
#[derive(Drop)]
pub struct Log {
    rows: Vec<LogEntry>,
}

impl Model for Log {
    ghost use Rattle.std.specs.Prelude.{List};
    ghost use Rattle.match_bindings.specs.declared.log_entry.LogEntry.{LogEntry};
    ghost use Rattle.match_bindings.specs.Log.{IsInOrder};

    ghost Value = { List LogEntry };

    ghost view = { λ log. log.rows.items };

    ghost invariant = { λ log. IsInOrder log.rows.items };
}

impl Log {
    /// A log without observations. Takes no memory.
    pub fn new(alloc: Global) -> Log
        ensures { result ≡ [] }
    {
        Log {
            rows: Vec::new(alloc),
        }
    }

    /// Appends an observation. Out of memory leaves the log unchanged.
    pub fn push(
        &mut self,
        first: Instant,
        last: Instant,
        truths: Items<bool>,
    ) -> Result<(), NoMemory>
        requires span { first ≤ℤ last }
        requires order { LastIsBy self.old last }
        ensures ok { OnOk result (self.new ≡ self.old
            ++ record { first = first; last = last; truths = truths } ∷ []) }
        ensures err { OnErr result (self.new ≡ self.old) }
    {
        self.rows.push(LogEntry {
            first,
            last,
            truths,
        })?;
        Ok(())
    }

    /// How many observations there are.
    pub(crate) fn len(&self) -> u64
        ensures { result ≡ length self.now }
    {
        self.rows.len() as u64
    }

    /// The span of an observation, where the leaf holds for it.
    pub(crate) fn span_of(&self, leaf: u32, number: u64) -> Option<Span>
        ensures { result ≡ span_if ((observed_in self.now).holds leaf number)
            (span_of (observed_in self.now) (One number)) }
    {
        if number == 0 {
            return None;
        }
        let row = self.rows.get((number - 1) as usize)?;
        if row.holds(leaf) {
            Some(Span {
                earliest: row.first,
                latest: row.last,
                greatest: number,
            })
        } else {
            None
        }
    }
}
