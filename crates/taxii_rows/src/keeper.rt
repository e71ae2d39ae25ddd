ghost use Rattle.std.specs.Prelude.{◌≡◌, ℕ, true, IfOk, IfSome, OnOk, OnErr, Err};
ghost use Rattle.taxii_rows.specs.declared.fault_cause.FaultCause.{FaultCause as Cause};
ghost use Rattle.taxii_rows.specs.StoreState.{AscendFrom};
ghost use Rattle.taxii_rows.specs.Keeper.{Kept, row_after, with_rows, without, updated, CanAppend};
ghost use Rattle.taxii_rows.specs.Keeper.{IsAttached};
ghost use Rattle.flow_edges.specs.Faults.{Counted};

use crate::{FaultCause, KeeperRefusal, StoredRow};

/// Persistent storage of rows: a file, or memory. It is attached under a name first; then its rows
/// are read, added and removed.
///
/// Calls are atomic. After `Ok` the whole effect is stored. After an error the rows, the watermark
/// and the name are unchanged, as far as they are observable. Storage in a file may become closed
/// by a failure, and then every later call is a `Fault`. Exactly the faults are counted.
pub trait Keeper {
    /// The rows, the watermark and the name, as far as they are observable, and whether it is
    /// attached.
    ghost kept: { Self → Kept };

    /// The number of calls that failed.
    ghost faults: { Self → ℕ };

    /// The cause of the last fault.
    ghost last_cause: { Self → Cause };

    /// A secret number that clients who send objects do not know. The library uses it as the key of
    /// its hashes. No clause depends on it: if it leaks, lookups may become slow, and nothing else
    /// changes.
    fn secret(&self) -> u128;

    /// The cause of the last fault.
    fn cause(&self) -> FaultCause
        ensures { result ≡ last_cause self.now };

    /// Opens the rows stored under a name.
    fn attach(&mut self, text: &str) -> Result<(), KeeperRefusal>
        ensures ok { OnOk result (IsAttached text.now (kept self.new)) }
        ensures err { OnErr result (kept self.new ≡ kept self.old) }
        ensures observable { (kept self.new).observable ≡ (kept self.old).observable }
        ensures causes { Counted (result ≡ Err KeeperRefusal.Fault) (faults self.old)
            (faults self.new) };

    /// The first row added later than this date, if any.
    fn next_after(&mut self, date: u64) -> Result<Option<StoredRow>, KeeperRefusal>
        requires attached { (kept self.old).attached ≡ true }
        ensures row { IfOk result
            (λ found. IfSome (kept self.old).observable
            (λ state. found ≡ row_after date state.rows)) }
        ensures stays { kept self.new ≡ kept self.old }
        ensures causes { Counted (result ≡ Err KeeperRefusal.Fault) (faults self.old)
            (faults self.new) };

    /// The watermark: the last date ever given, in microseconds since 1970.
    fn watermark(&mut self) -> Result<u64, KeeperRefusal>
        requires attached { (kept self.old).attached ≡ true }
        ensures watermark { IfOk result
            (λ date. IfSome (kept self.old).observable (λ state. date ≡ state.watermark)) }
        ensures stays { kept self.new ≡ kept self.old }
        ensures causes { Counted (result ≡ Err KeeperRefusal.Fault) (faults self.old)
            (faults self.new) };

    /// Appends rows, and sets the watermark.
    fn append(&mut self, rows: &[StoredRow], watermark: u64) -> Result<(), KeeperRefusal>
        requires attached { (kept self.old).attached ≡ true }
        // the new rows' dates follow all others, and none is after the new watermark
        requires later { IfSome (kept self.old).observable (CanAppend rows.now watermark) }
        ensures ok { OnOk result
            (kept self.new ≡ updated (with_rows rows.now watermark) (kept self.old)) }
        ensures err { OnErr result (kept self.new ≡ kept self.old) }
        ensures causes { Counted (result ≡ Err KeeperRefusal.Fault) (faults self.old)
            (faults self.new) };

    /// Removes the rows of these dates, which ascend. The watermark stays, so no date is given
    /// twice.
    fn remove(&mut self, dates: &[u64]) -> Result<(), KeeperRefusal>
        requires attached { (kept self.old).attached ≡ true }
        // the dates are distinct, and sorted for binary search
        requires ascend { AscendFrom 0 dates.now }
        ensures ok { OnOk result (kept self.new ≡ updated (without dates.now) (kept self.old)) }
        ensures err { OnErr result (kept self.new ≡ kept self.old) }
        ensures causes { Counted (result ≡ Err KeeperRefusal.Fault) (faults self.old)
            (faults self.new) };
}
