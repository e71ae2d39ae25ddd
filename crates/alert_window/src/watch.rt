ghost use Rattle.std.specs.Prelude.{◌≡◌, ◌↔◌, ◌≤◌, ◌+◌, ◌<◌, ◌^◌, ◌≤ℤ◌, ◌<ℤ◌, ℤ, [], List, Some};
ghost use Rattle.std.specs.Prelude.{Err, length, IsTrue, IsOk, IfOk, OnOk, OnErr};
ghost use Rattle.match_bindings.specs.declared.log_entry.LogEntry.{LogEntry};
ghost use Rattle.match_bindings.specs.Log.{IsInOrder};
ghost use Rattle.match_bindings.specs.Span.{later_by};
ghost use Rattle.alert_window.specs.declared.refusal.WatchRefusal.TheVariants as refused;
ghost use Rattle.std.specs.BTreeSet.{insert_key};
ghost use Rattle.alert_window.specs.MatchingRows.{row_cmp};
ghost use Rattle.alert_window.specs.WatchState.{WatchRepresents, AnswersAlertRow, with_window_row};
ghost use Rattle.alert_window.specs.inner.Kept.{keep, IsCountReached};

use crate::kept_rows::KeptRows;
use crate::{MatchingRow, WatchRefusal};
use flow_values::NoMemory;
use std::alloc::Global;
use std::marker::Model;
use stix_times::{Instant, nanos};

const NANOS_PER_SECOND: i128 = 1_000_000_000;

/// A watch for n matches of one bracket within x seconds. Contracts observe n and x, how many rows
/// it took, the end of the last row, and the rows that it keeps.
#[derive(Drop)]
pub struct Watch {
    seconds: u32,
    rows: u64,
    last: Option<Instant>,
    kept: KeptRows,
}

impl Model for Watch {
    ghost use Rattle.std.specs.Prelude.{◌≤◌};
    ghost use Rattle.alert_window.specs.WatchState.{WatchState};

    ghost Value = { WatchState };

    ghost view = { λ watch. record {
      n = watch.kept.most;
      x = watch.seconds;
      rows = watch.rows;
      last = watch.last;
      kept = watch.kept.rows.keys;
    } };

    ghost invariant = { λ watch. 1 ≤ watch.kept.most };
}

impl Watch {
    /// A watch that took no row yet. Takes no memory.
    pub fn new(alloc: Global, n: u32, x: u32) -> Result<Watch, NoMemory>
        requires some { 1 ≤ n }
        requires most { n ≤ 10_000 }
        requires seconds { 1 ≤ x }
        // It can't fail: it takes no memory.
        ensures made { IsOk result }
        ensures represents { IfOk result (λ watch. WatchRepresents watch []) }
        ensures n { IfOk result (λ watch. watch.n ≡ n) }
        ensures x { IfOk result (λ watch. watch.x ≡ x) }
    {
        Ok(Watch {
            seconds: x,
            rows: 0,
            last: None,
            kept: KeptRows::new(alloc, n),
        })
    }

    /// Takes the next row of a log: its first and last time, and whether the bracket holds. Answers
    /// whether the row is an alert. After an error the watch is unchanged.
    pub fn take(&mut self, first: Instant, last: Instant, holds: bool) -> Result<bool, WatchRefusal>
        requires span { first ≤ℤ last }
        requires room { self.old.rows + 1 < 2 ^ 64 }
        ensures answers { (log : List LogEntry) → WatchRepresents self.old log → IsInOrder log
            → IfOk result (AnswersAlertRow self.old self.new
            (with_window_row log first last holds)) }
        ensures out_of_order { (before now : ℤ) → (result ≡ Err (refused.OutOfOrder before now))
            ↔ ((self.old.last ≡ Some before) × (now ≡ last) × (now <ℤ before)) }
        // After an error the watch is unchanged.
        ensures refused { OnErr result (self.new ≡ self.old) }
        ensures kept { (self.new.n ≡ self.old.n) × (self.new.x ≡ self.old.x) }
    {
        if let Some(before) = self.last
            && last < before
        {
            return Err(WatchRefusal::OutOfOrder {
                last: before,
                now: last,
            });
        }
        let number = self.rows + 1;
        let alert = holds && self.keep(number, first, last)?;
        self.rows = number;
        self.last = Some(last);
        Ok(alert)
    }

    /// Keeps a matching row, and answers whether it is an alert.
    fn keep(&mut self, number: u64, first: Instant, last: Instant) -> Result<bool, NoMemory>
        ensures kept { OnOk result (self.new ≡ record self.old {
          kept = keep self.old.n (insert_key row_cmp self.old.kept
              (record { first = first; number = number }));
        }) }
        ensures reached { IfOk result (λ alert. IsTrue alert
            ↔ IsCountReached self.old.n self.old.x self.new.kept first last) }
        ensures err { OnErr result (self.new ≡ self.old) }
    {
        self.kept.add(MatchingRow { first, number })?;
        Ok(self.is_reached(first, last))
    }

    /// Whether n rows are kept, and all of them and this row lie within the seconds.
    fn is_reached(&self, first: Instant, last: Instant) -> bool
        ensures { IsTrue result ↔ IsCountReached self.now.n self.now.x self.now.kept first last }
    {
        match self.kept.earliest_if_full() {
            Some(earliest) => {
                is_within(self.seconds, earliest, last) && is_within(self.seconds, first, last)
            }
            None => false,
        }
    }

    /// How many rows are kept. Takes no memory.
    pub fn kept(&self) -> usize
        ensures count { result ≡ length self.now.kept }
        ensures at_most { result ≤ self.now.n }
    {
        self.kept.len()
    }
}

/// Whether two times are less than this many seconds apart.
fn is_within(seconds: u32, first: Instant, last: Instant) -> bool
    ensures { IsTrue result ↔ (last <ℤ later_by seconds first) }
{
    nanos(last) < nanos(first) + NANOS_PER_SECOND * i128::from(seconds)
}
