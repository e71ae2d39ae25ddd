ghost use Rattle.std.specs.Prelude.{◌≡◌, IfOk, IfErr, OnOk, Ok, Err};
ghost use Rattle.flow_edges.specs.Faults.{Counted};
ghost use Rattle.taxii_sqlite.specs.Failing.{is_out_of_memory as is_memory_error};
ghost use Rattle.taxii_sqlite.specs.Failing.{cause_of as cause_in, refused, last_cause_after};

use sqlite::{Error, ErrorCode};
use sqlite_resolve::CompileError;
use sqlite_syntax::error::ParseError;
use std::alloc::AllocError;
use taxii_rows::{FaultCause, KeeperRefusal};

/// Why a call of the database failed; not yet counted.
#[derive(Clone, Copy)]
pub(crate) enum Failure {
    /// The storage failed, or holds what no store writes.
    Fault(FaultCause),
    /// Memory ran out.
    NoMemory,
}

impl From<Error> for Failure {
    ghost use Rattle.std.specs.Prelude.{◌≡◌};
    ghost use Rattle.taxii_sqlite.specs.Failing.{failure_of};

    ghost from_gives = { λ error failure. failure ≡ failure_of error };

    fn from(error: Error) -> Failure {
        if is_out_of_memory(error) {
            Failure::NoMemory
        } else {
            Failure::Fault(cause_of(error))
        }
    }
}

impl From<AllocError> for Failure {
    ghost use Rattle.std.specs.Prelude.{◌≡◌};
    ghost use Rattle.taxii_sqlite.specs.declared.failure.Failure.TheVariants.{NoMemory};

    ghost from_gives = { λ _ failure. failure ≡ NoMemory };

    fn from(_error: AllocError) -> Failure {
        Failure::NoMemory
    }
}

/// Whether an error means out of memory, in the storage, the SQL compiler or its parser.
fn is_out_of_memory(error: Error) -> bool
    ensures { result ≡ is_memory_error error }
{
    matches!(
        error,
        Error::SqliteFailure(ErrorCode::OutOfMemory)
            | Error::SqlInputError(CompileError::OutOfMemory)
            | Error::SqlInputError(CompileError::Parse(ParseError::OutOfMemory))
    )
}

/// The cause of an error other than out of memory.
fn cause_of(error: Error) -> FaultCause
    ensures { result ≡ cause_in error }
{
    match error {
        Error::SqliteFailure(ErrorCode::DatabaseBusy) => FaultCause::Locked,
        Error::SqliteFailure(ErrorCode::CannotOpen) => FaultCause::NotOpened,
        Error::SqliteFailure(ErrorCode::NotADatabase) => FaultCause::NoDatabase,
        Error::SqliteFailure(ErrorCode::DatabaseCorrupt) => FaultCause::Damaged,
        Error::SqliteFailure(ErrorCode::DiskFull) => FaultCause::Full,
        Error::SqliteFailure(ErrorCode::SystemIoFailure) => FaultCause::Disk,
        Error::SqliteFailure(ErrorCode::Closed) => FaultCause::Closed,
        _ => FaultCause::Unsound,
    }
}

/// The number of failed calls of a keeper, and the cause of the last.
#[derive(Clone, Copy)]
pub(crate) struct Faults {
    pub(crate) count: u64,
    pub(crate) cause: FaultCause,
}

impl Faults {
    /// Converts a result, counting a fault.
    pub(crate) fn counted<T: Drop>(
        &mut self,
        answer: Result<T, Failure>,
    ) -> Result<T, KeeperRefusal>
        ensures ok { IfOk answer (λ value. result ≡ Ok value) }
        ensures err { IfErr answer (λ failure. result ≡ Err (refused failure)) }
        ensures causes { Counted (result ≡ Err KeeperRefusal.Fault) self.old.count self.new.count }
        ensures sets_cause { IfErr answer
            (λ failure. self.new.cause ≡ last_cause_after self.old.cause failure) }
        ensures stays { OnOk answer (self.new.cause ≡ self.old.cause) }
    {
        match answer {
            Ok(value) => Ok(value),
            Err(Failure::NoMemory) => Err(KeeperRefusal::NoMemory),
            Err(Failure::Fault(cause)) => {
                self.count = self.count.saturating_add(1);
                self.cause = cause;
                Err(KeeperRefusal::Fault)
            }
        }
    }
}
