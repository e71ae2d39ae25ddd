ghost use Rattle.std.specs.Prelude.{◌≡◌, ◌<◌, ◌+◌, ◌^◌, ◌↔◌, ℕ, ℤ, ◌≤ℤ◌, ◌<ℤ◌, Err, Some, map};
ghost use Rattle.std.specs.Prelude.{IfOk, OnOk};
ghost use Rattle.match_bindings.specs.BindTree.{tree_of};
ghost use Rattle.match_stream.specs.declared.ending.Ending.TheVariants as ending;
ghost use Rattle.match_pruning.specs.PartialMatchTree.{trees_in};
ghost use Rattle.match_pruning.specs.inner.PartialMatches.{partial_match_trees};
ghost use Rattle.match_pruning.specs.declared.stop.Stop.TheVariants as stop;

use crate::Ending;
use crate::budget::Budget;
use crate::expired::clear;
use crate::node::{Node, step_alone};
use flow_values::{Items, NoMemory};
use match_bindings::{Bind, in_order};
use match_pruning::partial_match::PartialMatch;
use match_pruning::row::Row;
use match_pruning::stop::Stop;
use std::alloc::Global;
use stix_times::Instant;

/// The running part of a matcher: all but its pattern and its ending.
#[derive(Drop)]
pub(crate) struct Run {
    pub alloc: Global,
    pub retained_limit: u64,
    pub rows: u64,
    pub last: Option<Instant>,
    pub node: Node,
}

impl Run {
    ghost use Rattle.match_stream.specs.inner.Runs.{IsCleared, next_row, AreSteps, TookRow, IsOver};
    ghost use Rattle.match_stream.specs.inner.Runs.{Passed};

    /// Removes what has expired at `now`. `Ending::OutOfOrder` where `now` is before the last row.
    /// Takes no memory.
    pub fn clear(&mut self, now: Instant) -> Result<(), Ending>
        ensures out_of_order { (before time : ℤ) → (result ≡ Err (ending.OutOfOrder before time))
            ↔ ((self.old.last ≡ Some before) × (time ≡ now) × (time <ℤ before)) }
        ensures not_over_limit { (number retained_limit : ℕ)
            → ¬ (result ≡ Err (ending.OverLimit number retained_limit)) }
        ensures cleared { OnOk result (IsCleared self.old self.new now) }
        ensures retained_limit { self.new.retained_limit ≡ self.old.retained_limit }
    {
        if let Some(before) = self.last {
            if now < before {
                return Err(Ending::OutOfOrder { last: before, now });
            }
        }
        clear(&mut self.node, now);
        Ok(())
    }

    /// Takes a row, and answers the bindings that end there.
    pub fn take(
        &mut self,
        first: Instant,
        last: Instant,
        truths: &[bool],
    ) -> Result<Items<Bind>, Ending>
        requires span { first ≤ℤ last }
        requires counts { self.old.rows + 1 < 2 ^ 64 }
        ensures in_order { (before now : ℤ) → ¬ (result ≡ Err (ending.OutOfOrder before now)) }
        ensures over_limit { (number retained_limit : ℕ)
            → result ≡ Err (ending.OverLimit number retained_limit)
            → (number ≡ self.old.rows + 1) × (retained_limit ≡ self.old.retained_limit)
            × IsOver self.old (next_row self.old.rows first last) truths.now }
        ensures took { OnOk result (TookRow self.old self.new (next_row self.old.rows first last)
            truths.now) }
        ensures binds { IfOk result (λ binds. AreSteps self.old (next_row self.old.rows first last)
            truths.now (map tree_of binds)) }
        ensures retained_limit { self.new.retained_limit ≡ self.old.retained_limit }
    {
        let number = self.rows + 1;
        let row = Row {
            number,
            first,
            last,
        };
        match self.answer(&row, truths) {
            Ok(binds) => Ok(binds),
            Err(Stop::OverLimit) => Err(Ending::OverLimit {
                number,
                retained_limit: self.retained_limit,
            }),
            Err(Stop::OutOfMemory) => Err(Ending::NoMemory),
        }
    }

    /// Takes `rows` rows at which no bracket holds. The last of them ends at `last`. Takes no
    /// memory.
    pub fn pass(&mut self, rows: u64, last: Instant) -> Result<(), Ending>
        requires { self.old.rows + rows < 2 ^ 64 }
        ensures out_of_order { (before now : ℤ) → (result ≡ Err (ending.OutOfOrder before now))
            ↔ ((self.old.last ≡ Some before) × (now ≡ last) × (now <ℤ before)) }
        ensures passed { OnOk result (Passed self.old self.new rows last) }
        ensures retained_limit { self.new.retained_limit ≡ self.old.retained_limit }
    {
        match self.clear(last) {
            Ok(()) => {
                self.rows += rows;
                self.last = Some(last);
                Ok(())
            }
            Err(ending) => Err(ending),
        }
    }

    /// The bindings that end at a row. `Stop::OverLimit` where the limit is exceeded after it.
    fn answer(&mut self, row: &Row, truths: &[bool]) -> Result<Items<Bind>, Stop>
        requires span { row.now.first ≤ℤ row.now.last }
        ensures took { OnOk result (TookRow self.old self.new row.now truths.now) }
        ensures binds { IfOk result (λ binds. AreSteps self.old row.now truths.now
            (map tree_of binds)) }
        ensures over_limit { result ≡ Err stop.OverLimit → IsOver self.old row.now truths.now }
        ensures retained_limit { self.new.retained_limit ≡ self.old.retained_limit }
    {
        let mut budget = Budget {
            left: self.retained_limit,
        };
        let new = step_alone(self.alloc, &mut self.node, row, truths, &mut budget)?;
        budget.take(new.len())?;
        let binds = binds_of(self.alloc, new)?;
        let sorted = in_order(self.alloc, binds)?;
        self.rows = row.number;
        self.last = Some(row.last);
        Ok(Items::from_vec(sorted))
    }
}

/// The bindings of some partial matches.
fn binds_of(alloc: Global, held: Vec<PartialMatch>) -> Result<Vec<Bind>, NoMemory>
    ensures { IfOk result (λ binds. map tree_of binds.items
        ≡ trees_in (partial_match_trees held.items)) }
{
    let mut binds = Vec::with_capacity(alloc, held.len())?;
    for one in held {
        binds.push(one.bind)?;
    }
    Ok(binds)
}
