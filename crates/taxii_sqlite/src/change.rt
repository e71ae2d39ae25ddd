//! The changes of an open database, each in one transaction.

ghost use Rattle.std.specs.Prelude.{◌≡◌, OnOk, OnErr};
ghost use Rattle.sqlite.specs.Held.{state};
ghost use Rattle.sqlite.specs.State.{HasCleanDisk};
ghost use Rattle.taxii_sqlite.specs.Changes.{DoesChange};
ghost use Rattle.taxii_sqlite.specs.Statements.{Transacts};
ghost use Rattle.taxii_sqlite.specs.Transactions.{IsUntouched, IsSettled, IsStep};

use crate::failure::Failure;
use crate::{layout, statements};
use sqlite::{Alter, Connection, Transaction};
use taxii_rows::{FaultCause, StoredRow};

/// A change of a database.
#[derive(Clone, Copy)]
pub(crate) enum Change<'a> {
    /// Create all tables, in an empty database.
    MakeTables,
    /// Record the layout's version, in a store created before layouts had versions.
    NameLayout,
    /// Migrate a store of the previous version to this one.
    Migrate,
    /// Append these rows, and set the watermark.
    Append {
        rows: &'a [StoredRow],
        watermark: u64,
    },
    /// Remove the rows of these dates.
    Remove {
        dates: &'a [u64],
    },
}

impl Change<'_> {
    /// Performs the change and commits, or changes nothing.
    pub(crate) fn commit<S: Alter>(self, connection: &mut Connection<S>) -> Result<(), Failure>
        // `HasCleanDisk`: the disk has returned what was written; without that, nothing is promised
        ensures ok { HasCleanDisk (state S.Store connection.new)
            → OnOk result (IsSettled (state S.Store connection.new)) }
        ensures err { HasCleanDisk (state S.Store connection.new)
            → OnErr result (IsUntouched (state S.Store connection.old)
            (state S.Store connection.new)) }
        // exactly this change, alone in a committed transaction
        ensures does { HasCleanDisk (state S.Store connection.new)
            → OnOk result (Transacts (state S.Store)
            (DoesChange (state S.Store) self.entry) connection.old connection.new) }
        ensures clean { HasCleanDisk (state S.Store connection.new)
            → HasCleanDisk (state S.Store connection.old) }
    {
        if !connection.is_autocommit() {
            return Err(Failure::Fault(FaultCause::Closed));
        }
        let mut transaction = connection.transaction();
        self.perform(&mut transaction)?;
        transaction.commit()?;
        Ok(())
    }

    /// Performs the change inside a transaction, without ending it.
    fn perform<S: Alter>(self, transaction: &mut Transaction<'_, S>) -> Result<(), Failure>
        ensures { IsStep (state S.Store)
            (DoesChange (state S.Store) self.entry) transaction.old.conn transaction.new.conn
            result }
    {
        match self {
            Change::MakeTables => layout::make_tables(transaction),
            Change::NameLayout => layout::name(transaction),
            Change::Migrate => layout::write_version(transaction),
            Change::Append { rows, watermark } => statements::append(transaction, rows, watermark),
            Change::Remove { dates } => statements::remove(transaction, dates),
        }
    }
}
