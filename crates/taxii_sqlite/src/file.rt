//! The database file before it is opened as a database.

ghost use Rattle.std.specs.Prelude.{◌≡◌, Err, codes};

use crate::failure::Failure;
use std::fs::{self, OpenOptions};
use std::io::{self, ErrorKind};
use std::os::unix::fs::OpenOptionsExt;
use std::rt::HostRuntime;
use taxii_rows::FaultCause;

/// Creates the file if it is missing, readable and writable for its owner alone, which the log
/// inherits. If it cannot, it reports the cause more precisely than SQLite would. Names that SQLite
/// reserves are refused, without creating anything.
pub(crate) fn make_private(rt: &HostRuntime, path: &str) -> Result<(), Failure>
    ensures reserved { path.now ≡ codes ":memory:"
        → result ≡ Err (Failure.Fault FaultCause.NoFile) }
{
    if path == ":memory:" || path.starts_with("file:") {
        return Err(Failure::Fault(FaultCause::NoFile));
    }
    match OpenOptions::new()
        .read(true)
        .write(true)
        .create_new(true)
        .mode(0o600)
        .open(rt, path)
    {
        Ok(_) => Ok(()),
        Err(error) if error.kind() == ErrorKind::AlreadyExists => check_access(rt, path),
        Err(error) => Err(failure_of(error)),
    }
}

/// Checks that the file can be opened for reading and writing.
fn check_access(rt: &HostRuntime, path: &str) -> Result<(), Failure> {
    match OpenOptions::new().read(true).write(true).open(rt, path) {
        Ok(_) => Ok(()),
        Err(error) => Err(failure_of(error)),
    }
}

/// Why a file cannot be opened.
fn failure_of(error: io::Error) -> Failure {
    match error.kind() {
        ErrorKind::OutOfMemory => Failure::NoMemory,
        ErrorKind::NotFound | ErrorKind::NotADirectory => Failure::Fault(FaultCause::NoFolder),
        ErrorKind::IsADirectory => Failure::Fault(FaultCause::NoFile),
        ErrorKind::PermissionDenied => Failure::Fault(FaultCause::Denied),
        ErrorKind::ReadOnlyFilesystem => Failure::Fault(FaultCause::ReadOnly),
        ErrorKind::StorageFull | ErrorKind::QuotaExceeded => Failure::Fault(FaultCause::Full),
        _ => Failure::Fault(FaultCause::NotOpened),
    }
}

/// Whether another program left a rollback journal next to the file, which only that program can
/// replay.
pub(crate) fn has_journal(rt: &HostRuntime, path: &str) -> bool {
    match format!(in rt.alloc(); "{path}-journal") {
        Ok(journal) => fs::symlink_metadata(rt, journal.as_str()).is_ok(),
        Err(_) => false,
    }
}
