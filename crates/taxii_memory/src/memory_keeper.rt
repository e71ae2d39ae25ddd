ghost use Rattle.std.specs.Prelude.{◌≡◌, ◌≢◌, None, Some, Err, IfOk, OnOk, OnErr, is_some};
ghost use Rattle.taxii_rows.specs.declared.keeper_refusal.KeeperRefusal.TheVariants.{NoMemory as OutOfMemory};
ghost use Rattle.taxii_rows.specs.declared.fault_cause.FaultCause.TheVariants.{NotKnown};
ghost use Rattle.taxii_rows.specs.StoreState.{dates_of, AscendFrom};
ghost use Rattle.taxii_rows.specs.Keeper.{row_after as first_later, with_rows, without, CanAppend};
ghost use Rattle.flow_edges.specs.Faults.{Counted};
ghost use Rattle.taxii_memory.specs.MemoryKeeper.{IsMemoryCall};

use crate::calls::Calls;
use crate::held::{append_copies, is_among};
use flow_values::{Items, Text};
use std::alloc::Global;
use std::marker::Model;
use taxii_rows::{FaultCause, Keeper, KeeperRefusal, StoredRow, row_after};

/// Rows in memory, with injected faults.
#[derive(Drop)]
pub struct MemoryKeeper {
    alloc: Global,
    rows: Vec<StoredRow>,
    watermark: u64,
    name: Option<Text>,
    calls: Calls,
}

impl Model for MemoryKeeper {
    ghost use Rattle.taxii_rows.specs.StoreState.{dates_of, AscendFrom};
    ghost use Rattle.taxii_memory.specs.MemoryKeeper.{MemoryState};

    ghost Value = { MemoryState };

    ghost view = { λ keeper. record {
      state = record { rows = keeper.rows.items; watermark = keeper.watermark };
      name = keeper.name;
      failing = keeper.calls.failing;
      calls = keeper.calls.count;
      faults = keeper.calls.faults;
    } };

    ghost invariant = { λ keeper. AscendFrom 1 (dates_of keeper.rows.items) };
}

impl MemoryKeeper {
    /// A keeper with these rows, whose dates ascend. The calls with the numbers in `failing`,
    /// starting at 1, fail. Allocates nothing.
    pub fn new(
        alloc: Global,
        rows: Items<StoredRow>,
        watermark: u64,
        failing: Items<u64>,
    ) -> MemoryKeeper
        requires { AscendFrom 1 (dates_of rows) }
        ensures { result ≡ record {
          state = record { rows = rows; watermark = watermark };
          name = None;
          failing = failing;
          calls = 0;
          faults = 0;
        } }
    {
        MemoryKeeper {
            alloc,
            rows: rows.into_vec(),
            watermark,
            name: None,
            calls: Calls {
                failing,
                count: 0,
                faults: 0,
            },
        }
    }

    /// The rows, by date.
    pub fn rows(&self) -> &[StoredRow]
        ensures rows { result.now ≡ self.now.state.rows }
        ensures ascend { AscendFrom 1 (dates_of result.now) }
    {
        self.rows.as_slice()
    }

    /// The watermark: the last date ever given.
    pub fn last_date(&self) -> u64
        ensures { result ≡ self.now.state.watermark }
    {
        self.watermark
    }
}

impl Keeper for MemoryKeeper {
    ghost kept = { λ keeper. record {
      observable = Some keeper.state;
      name = keeper.name;
      attached = is_some keeper.name;
    } };

    ghost faults = { λ keeper. keeper.faults };

    ghost last_cause = { λ _. NotKnown };

    /// Returns 0: whoever creates such a keeper also sends its objects.
    fn secret(&self) -> u128 {
        0
    }

    fn cause(&self) -> FaultCause
        ensures { result ≡ NotKnown }
    {
        FaultCause::NotKnown
    }

    fn attach(&mut self, text: &str) -> Result<(), KeeperRefusal>
        ensures ok { OnOk result (self.new.name ≡ Some text.now) }
        ensures err { OnErr result (self.new.name ≡ self.old.name) }
        ensures state { self.new.state ≡ self.old.state }
        ensures ascend { AscendFrom 1 (dates_of self.new.state.rows) }
        ensures causes { Counted
            (result ≡ Err KeeperRefusal.Fault) self.old.faults self.new.faults }

        ensures call { IsMemoryCall self.old self.new result }
    {
        self.calls.begin()?;
        let name = Text::from_text(self.alloc, text)?;
        self.name = Some(name);
        Ok(())
    }

    fn next_after(&mut self, date: u64) -> Result<Option<StoredRow>, KeeperRefusal>
        ensures row { IfOk result (λ found. found ≡ first_later date self.old.state.rows) }
        ensures state { self.new.state ≡ self.old.state }
        ensures name { self.new.name ≡ self.old.name }
        ensures causes { Counted
            (result ≡ Err KeeperRefusal.Fault) self.old.faults self.new.faults }

        ensures call { IsMemoryCall self.old self.new result }
    {
        self.calls.begin()?;
        match row_after(&self.rows, date) {
            Some(row) => Ok(Some(row.copy(self.alloc)?)),
            None => Ok(None),
        }
    }

    fn watermark(&mut self) -> Result<u64, KeeperRefusal>
        ensures watermark { IfOk result (λ date. date ≡ self.old.state.watermark) }
        ensures memory { result ≢ Err OutOfMemory }
        ensures state { self.new.state ≡ self.old.state }
        ensures name { self.new.name ≡ self.old.name }
        ensures causes { Counted
            (result ≡ Err KeeperRefusal.Fault) self.old.faults self.new.faults }

        ensures call { IsMemoryCall self.old self.new result }
    {
        self.calls.begin()?;
        Ok(self.watermark)
    }

    fn append(&mut self, rows: &[StoredRow], watermark: u64) -> Result<(), KeeperRefusal>
        requires later { CanAppend rows.now watermark self.old.state }
        ensures ok { OnOk result (self.new.state ≡ with_rows rows.now watermark self.old.state) }
        ensures err { OnErr result (self.new.state ≡ self.old.state) }
        ensures name { self.new.name ≡ self.old.name }
        ensures causes { Counted
            (result ≡ Err KeeperRefusal.Fault) self.old.faults self.new.faults }

        ensures call { IsMemoryCall self.old self.new result }
    {
        self.calls.begin()?;
        append_copies(self.alloc, &mut self.rows, rows)?;
        self.watermark = watermark;
        Ok(())
    }

    fn remove(&mut self, dates: &[u64]) -> Result<(), KeeperRefusal>
        requires ascend { AscendFrom 0 dates.now }
        ensures ok { OnOk result (self.new.state ≡ without dates.now self.old.state) }
        ensures memory { result ≢ Err OutOfMemory }
        ensures err { OnErr result (self.new.state ≡ self.old.state) }
        ensures name { self.new.name ≡ self.old.name }
        ensures causes { Counted
            (result ≡ Err KeeperRefusal.Fault) self.old.faults self.new.faults }

        ensures call { IsMemoryCall self.old self.new result }
    {
        self.calls.begin()?;
        self.rows.retain(|row| !is_among(dates, row.date));
        Ok(())
    }
}
