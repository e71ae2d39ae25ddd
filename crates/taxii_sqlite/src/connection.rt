ghost use Rattle.std.specs.Prelude.{◌≡◌, ◌≢◌, true, [], IfOk, OnOk, OnErr};
ghost use Rattle.sqlite_wal.specs.Files.{image_at};
ghost use Rattle.sqlite_wal.specs.Reads.{AreClean};
ghost use Rattle.sqlite.specs.Closing.{IsCopied};
ghost use Rattle.taxii_rows.specs.StoreState.{AscendFrom};
ghost use Rattle.taxii_sqlite.specs.Databases.{is_open, FindsNext, FindsWatermark, Appends};
ghost use Rattle.taxii_sqlite.specs.Databases.{Removes, HasFile, CanFail, StaysAs, IsOpenAt};
ghost use Rattle.taxii_sqlite.specs.Databases.{LeavesFiles};

use crate::change::Change;
use crate::failure::Failure;
use crate::{file, statements};
use sqlite::{Connection, Error, ErrorCode, FileFrom, FileStore, Files, Start};
use sqlite_disk::Disk;
use std::alloc::Global;
use std::rt::HostRuntime;
use taxii_rows::{FaultCause, StoredRow};

/// The database of a keeper.
#[derive(Drop)]
pub(crate) enum Database<D: Disk + Drop> {
    /// Not open: each call fails.
    Closed,
    /// A store without a file: the library alone holds the rows.
    InMemory,
    Disk(Box<Connection<FileStore<D>>>),
}

const CLOSED: Failure = Failure::Fault(FaultCause::Closed);

impl<D: Disk + Drop> Database<D> {
    /// Closes the database. If it is a file, the log is copied into it, so that the file alone is
    /// the whole store, and both are returned. If that fails, file and log together are still the
    /// store. Without a file this cannot fail.
    pub(crate) fn close(self) -> Result<Option<Files<D>>, Failure>
        ensures leaves { IfOk result (LeavesFiles self) }
        ensures fails { OnErr result (HasFile self) }
    {
        match self {
            Database::Disk(connection) => Ok(Some(copy_log(Box::into_inner(connection))?)),
            Database::Closed | Database::InMemory => Ok(None),
        }
    }

    /// The first row later than the date, if any.
    pub(crate) fn next_after(
        &mut self,
        alloc: Global,
        date: u64,
    ) -> Result<Option<StoredRow>, Failure>
        ensures open { is_open self.new ≡ is_open self.old }
        ensures finds { IfOk result (FindsNext date self.old self.new) }
        ensures fails { OnErr result (CanFail self.old) }
    {
        match self {
            Database::Closed => Err(CLOSED),
            Database::InMemory => Ok(None),
            Database::Disk(connection) => statements::next_after(alloc, connection, date),
        }
    }

    /// The watermark: the last date ever given.
    pub(crate) fn read_watermark(&mut self) -> Result<u64, Failure>
        ensures open { is_open self.new ≡ is_open self.old }
        ensures finds { IfOk result (FindsWatermark self.old self.new) }
        ensures fails { OnErr result (CanFail self.old) }
    {
        match self {
            Database::Closed => Err(CLOSED),
            Database::InMemory => Ok(0),
            Database::Disk(connection) => statements::read_watermark(connection),
        }
    }

    /// Appends the rows and sets the watermark, or changes nothing.
    pub(crate) fn append(&mut self, rows: &[StoredRow], watermark: u64) -> Result<(), Failure>
        ensures open { is_open self.new ≡ is_open self.old }
        ensures appends { OnOk result (Appends rows.now watermark self.old self.new) }
        ensures untouched { OnErr result (StaysAs self.old self.new) }
    {
        match self {
            Database::Closed => Err(CLOSED),
            Database::InMemory => Ok(()),
            Database::Disk(connection) => Change::Append { rows, watermark }.commit(connection),
        }
    }

    /// Removes the rows of these dates, which ascend, or changes nothing.
    pub(crate) fn remove(&mut self, dates: &[u64]) -> Result<(), Failure>
        requires { AscendFrom 0 dates.now }
        ensures open { is_open self.new ≡ is_open self.old }
        ensures removes { OnOk result (Removes dates.now self.old self.new) }
        ensures untouched { OnErr result (StaysAs self.old self.new) }
    {
        match self {
            Database::Closed => Err(CLOSED),
            Database::InMemory => Ok(()),
            Database::Disk(connection) => Change::Remove { dates }.commit(connection),
        }
    }
}

/// Copies the log into the database file, and returns both.
fn copy_log<D: Disk + Drop>(connection: Connection<FileStore<D>>) -> Result<Files<D>, Failure>
    ensures copied { IfOk result (λ files. AreClean D.Disk files.log files.db
        → IsCopied connection files) }
{
    match connection.close_files() {
        Ok(files) => Ok(files),
        Err((error, store)) => {
            drop(store.close());
            Err(Failure::from(error))
        }
    }
}

/// Opens the database at this path, which is not empty, and makes it ready. A missing file is
/// created with permissions for its owner alone; its pages get checksums. `S` represents the
/// earlier contents of the file.
pub(crate) fn open<S: Start>(
    rt: &HostRuntime,
    path: &str,
    start: S,
) -> Result<Database<FileFrom<S>>, Failure>
    requires { path.now ≢ [] }
    ensures open { IfOk result (λ database. is_open database ≡ true) }
    ensures ready { IfOk result (IsOpenAt (image_at S.Start) path.now) }
{
    file::make_private(rt, path)?;
    let mut connection = match Connection::open_from(rt, path, true, start) {
        Ok(connection) => connection,
        Err((error, _)) => return Err(failure_to_open(rt, path, error)),
    };
    statements::make_ready(&mut connection)?;
    match Box::new(rt.alloc(), connection) {
        Ok(connection) => Ok(Database::Disk(connection)),
        Err(_) => Err(Failure::NoMemory),
    }
}

/// Why a file that the system can open is no usable database.
fn failure_to_open(rt: &HostRuntime, path: &str, error: Error) -> Failure {
    match error {
        Error::SqliteFailure(ErrorCode::CannotOpen) if file::has_journal(rt, path) => {
            Failure::Fault(FaultCause::Journal)
        }
        error => Failure::from(error),
    }
}
