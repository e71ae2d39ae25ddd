ghost use Rattle.std.specs.Prelude.{◌≡◌, ◌≢◌, [], None, true, IfOk, OnOk, OnErr, Err};
ghost use Rattle.flow_edges.specs.Faults.{Counted};
ghost use Rattle.sqlite_wal.specs.Files.{image_at};
ghost use Rattle.taxii_rows.specs.StoreState.{AscendFrom};
ghost use Rattle.taxii_sqlite.specs.Databases.{is_open, FindsNext, FindsWatermark, Appends};
ghost use Rattle.taxii_sqlite.specs.Databases.{Removes, HasFile, CanFail, StaysAs, IsOpenAt};
ghost use Rattle.taxii_sqlite.specs.Databases.{LeavesFiles};
ghost use Rattle.taxii_sqlite.specs.declared.connection.Database.TheVariants.{Closed};

use crate::connection::{self, Database};
use crate::failure::{Failure, Faults};
use sqlite::{FileFrom, Files, Start};
use sqlite_disk::Disk;
use std::random::RandomSource;
use std::rt::HostRuntime;
use taxii_rows::{FaultCause, Keeper, KeeperRefusal, StoredRow};

/// Rows in an SQLite database, or nowhere. Its rows are not observable; contracts state the calls
/// of its database (`specs/Databases.antt`) and its faults. `S` represents the contents of the file
/// before it is opened.
#[derive(Drop)]
pub struct SqliteKeeper<D: Disk + Drop, S: Start> {
    rt: HostRuntime,
    start: Option<S>,
    database: Database<D>,
    faults: Faults,
}

impl<S: Start> SqliteKeeper<FileFrom<S>, S> {
    /// A keeper that is not attached. Opens nothing and allocates nothing.
    pub fn new(rt: HostRuntime, start: S) -> SqliteKeeper<FileFrom<S>, S>
        ensures closed { result.database ≡ Closed }
        ensures faults { result.faults ≡ record { count = 0; cause = FaultCause.NotKnown } }
    {
        SqliteKeeper {
            rt,
            start: Some(start),
            database: Database::Closed,
            faults: Faults {
                count: 0,
                cause: FaultCause::NotKnown,
            },
        }
    }

    /// Closes the keeper. If its rows are in a file, the log is copied into it, so that the file
    /// alone is the whole store, and both are returned. A failure loses nothing, since file and log
    /// together are the store. Without a file this cannot fail.
    pub fn close(self) -> Result<Option<Files<FileFrom<S>>>, KeeperRefusal>
        ensures leaves { IfOk result (LeavesFiles self.database) }
        ensures fails { OnErr result (HasFile self.database) }
    {
        let mut faults = self.faults;
        faults.counted(self.database.close())
    }

    /// Opens the database at this path. It succeeds once in a keeper's life, since `S` describes
    /// one file.
    fn open(&mut self, path: &str) -> Result<Database<FileFrom<S>>, Failure>
        ensures open { IfOk result (λ database. is_open database ≡ true) }
        ensures ready { IfOk result (IsOpenAt (image_at S.Start) path.now) }
        ensures fails { OnErr result (path.now ≢ []) }
        ensures database { self.new.database ≡ self.old.database }
        ensures faults { self.new.faults ≡ self.old.faults }
    {
        if path.is_empty() {
            return Ok(Database::InMemory);
        }
        match self.start.take() {
            Some(start) => connection::open(&self.rt, path, start),
            None => Err(Failure::Fault(FaultCause::Closed)),
        }
    }
}

impl<S: Start> Keeper for SqliteKeeper<FileFrom<S>, S> {
    ghost kept = { λ keeper. record {
      observable = None;
      name = None;
      attached = is_open keeper.database;
    } };

    ghost faults = { λ keeper. keeper.faults.count };

    ghost last_cause = { λ keeper. keeper.faults.cause };

    /// A random number of the system, different at each call, or 0 if the system has none.
    fn secret(&self) -> u128 {
        let mut bytes = [0; 16];
        match self.rt.fill_bytes(&mut bytes) {
            Ok(()) => u128::from_le_bytes(bytes),
            Err(_) => 0,
        }
    }

    fn cause(&self) -> FaultCause
        ensures { result ≡ self.now.faults.cause }
    {
        self.faults.cause
    }

    /// Opens the file at this path, once in a keeper's life, and creates missing tables. An empty
    /// path means no file: then nothing is stored and nothing fails. A file that is no store, or a
    /// later version's, is a fault, and is not written to.
    fn attach(&mut self, text: &str) -> Result<(), KeeperRefusal>
        ensures ok { OnOk result (is_open self.new.database ≡ true) }
        ensures ready { OnOk result (IsOpenAt (image_at S.Start) text.now self.new.database) }
        ensures kept { OnErr result (self.new.database ≡ self.old.database) }
        ensures fails { OnErr result (text.now ≢ []) }
        ensures causes { Counted
            (result ≡ Err KeeperRefusal.Fault) self.old.faults.count self.new.faults.count }
    {
        let opened = self.open(text);
        self.database = self.faults.counted(opened)?;
        Ok(())
    }

    fn next_after(&mut self, date: u64) -> Result<Option<StoredRow>, KeeperRefusal>
        ensures finds { IfOk result (FindsNext date self.old.database self.new.database) }
        // without a file nothing can fail
        ensures fails { OnErr result (CanFail self.old.database) }
        ensures attached { is_open self.new.database ≡ is_open self.old.database }
        ensures causes { Counted
            (result ≡ Err KeeperRefusal.Fault) self.old.faults.count self.new.faults.count }
    {
        let found = self.database.next_after(self.rt.alloc(), date);
        self.faults.counted(found)
    }

    fn watermark(&mut self) -> Result<u64, KeeperRefusal>
        ensures finds { IfOk result (FindsWatermark self.old.database self.new.database) }
        ensures fails { OnErr result (CanFail self.old.database) }
        ensures attached { is_open self.new.database ≡ is_open self.old.database }
        ensures causes { Counted
            (result ≡ Err KeeperRefusal.Fault) self.old.faults.count self.new.faults.count }
    {
        let watermark = self.database.read_watermark();
        self.faults.counted(watermark)
    }

    fn append(&mut self, rows: &[StoredRow], watermark: u64) -> Result<(), KeeperRefusal>
        ensures appends { OnOk result
            (Appends rows.now watermark self.old.database self.new.database) }
        ensures untouched { OnErr result (StaysAs self.old.database self.new.database) }
        ensures attached { is_open self.new.database ≡ is_open self.old.database }
        ensures causes { Counted
            (result ≡ Err KeeperRefusal.Fault) self.old.faults.count self.new.faults.count }
    {
        let done = self.database.append(rows, watermark);
        self.faults.counted(done)
    }

    fn remove(&mut self, dates: &[u64]) -> Result<(), KeeperRefusal>
        requires ascend { AscendFrom 0 dates.now }
        ensures removes { OnOk result (Removes dates.now self.old.database self.new.database) }
        ensures untouched { OnErr result (StaysAs self.old.database self.new.database) }
        ensures attached { is_open self.new.database ≡ is_open self.old.database }
        ensures causes { Counted
            (result ≡ Err KeeperRefusal.Fault) self.old.faults.count self.new.faults.count }
    {
        let done = self.database.remove(dates);
        self.faults.counted(done)
    }
}
