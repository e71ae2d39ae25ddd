//! The layout of a database: which tables it has, and which version of a store they are.

ghost use Rattle.std.specs.Prelude.{◌≡◌, ◌<ℤ◌, Err, IfOk, OnOk};
ghost use Rattle.sqlite.specs.Held.{state};
ghost use Rattle.sqlite.specs.State.{HasCleanDisk};
ghost use Rattle.taxii_sqlite.specs.Forms.{IsLayoutOf, AnswersLayout, AnswersVersion, MakesRows};
ghost use Rattle.taxii_sqlite.specs.Forms.{NamesLayout, MakesTables, WritesVersion};
ghost use Rattle.taxii_sqlite.specs.Forms.{CompletesLayout};
ghost use Rattle.taxii_sqlite.specs.Forms.{Migrates, IsAcceptedStore};
ghost use Rattle.taxii_sqlite.specs.Transactions.{IsStep};

use crate::change::Change;
use crate::failure::Failure;
use crate::schema::{
    COUNT_TABLES, FIRST_WATERMARK, LAYOUT_TABLE, NAME_LAYOUT, READ_VERSION, ROW_TABLE, VERSION,
    VERSION_BEFORE, WATERMARK_TABLE,
};
use crate::statements::execute;
use sqlite::{Alter, Connection, Transaction, params};
use taxii_rows::FaultCause;

/// Which tables a database has.
#[derive(Clone, Copy)]
pub(crate) enum Layout {
    /// No tables: a new database.
    Blank,
    /// The tables of a store without a layout version, from before layouts had versions.
    Unnamed,
    /// The tables of a store with a layout version.
    Named,
    /// Any others.
    Other,
}

/// Makes sure that the database is a store of this version. Creates the tables of an empty
/// database, records a missing layout version, and migrates the previous version. Nothing is
/// written to any other database.
pub(crate) fn take<S: Alter>(connection: &mut Connection<S>) -> Result<(), Failure>
    ensures taken { HasCleanDisk (state S.Store connection.new)
        → OnOk result (IsAcceptedStore (state S.Store) connection.old connection.new) }
    ensures clean { HasCleanDisk (state S.Store connection.new)
        → HasCleanDisk (state S.Store connection.old) }
{
    let layout = read_layout(connection)?;
    complete(connection, layout)?;
    let version = read_version(connection)?;
    migrate(connection, version)?;
    Ok(())
}

/// Reads which tables the database has.
fn read_layout<S: Alter>(connection: &mut Connection<S>) -> Result<Layout, Failure>
    ensures asks { HasCleanDisk (state S.Store connection.new)
        → IfOk result (AnswersLayout (state S.Store connection.old)
        (state S.Store connection.new)) }
    ensures clean { HasCleanDisk (state S.Store connection.new)
        → HasCleanDisk (state S.Store connection.old) }
{
    let columns = connection.query_row(
        COUNT_TABLES,
        params![ROW_TABLE, WATERMARK_TABLE, LAYOUT_TABLE],
    )?;
    let all = columns.get(0)?;
    let rows = columns.get(1)?;
    let names = columns.get(2)?;
    Ok(Layout::of(all, rows, names))
}

impl Layout {
    /// The layout of a database with `all` tables, of which `rows` are those of rows and watermark,
    /// and `names` that of the layout version.
    fn of(all: i64, rows: i64, names: i64) -> Layout
        ensures { IsLayoutOf all rows names result }
    {
        match (all, rows, names) {
            (0, 0, 0) => Layout::Blank,
            (2, 2, 0) => Layout::Unnamed,
            (3, 2, 1) => Layout::Named,
            _ => Layout::Other,
        }
    }
}

/// Creates the tables that a store of this layout lacks.
fn complete<S: Alter>(connection: &mut Connection<S>, layout: Layout) -> Result<(), Failure>
    ensures completes { HasCleanDisk (state S.Store connection.new)
        → OnOk result (CompletesLayout (state S.Store) layout connection.old connection.new) }
    ensures other { layout ≡ Layout.Other
        → (result ≡ Err (Failure.Fault FaultCause.OtherLayout))
        × (connection.new ≡ connection.old) }
    ensures clean { HasCleanDisk (state S.Store connection.new)
        → HasCleanDisk (state S.Store connection.old) }
{
    match layout {
        Layout::Blank => Change::MakeTables.commit(connection),
        Layout::Unnamed => Change::NameLayout.commit(connection),
        Layout::Named => Ok(()),
        Layout::Other => Err(Failure::Fault(FaultCause::OtherLayout)),
    }
}

/// Creates all tables, and records the layout version.
pub(crate) fn make_tables<S: Alter>(transaction: &mut Transaction<'_, S>) -> Result<(), Failure>
    ensures { IsStep (state S.Store)
        (MakesTables (state S.Store)) transaction.old.conn transaction.new.conn result }
{
    make_rows(transaction)?;
    name(transaction)?;
    Ok(())
}

fn make_rows<S: Alter>(transaction: &mut Transaction<'_, S>) -> Result<(), Failure>
    ensures { IsStep (state S.Store)
        (MakesRows (state S.Store)) transaction.old.conn transaction.new.conn result }
{
    execute(transaction, ROW_TABLE, &[])?;
    execute(transaction, WATERMARK_TABLE, &[])?;
    execute(transaction, FIRST_WATERMARK, &[])?;
    Ok(())
}

/// Records the layout version.
pub(crate) fn name<S: Alter>(transaction: &mut Transaction<'_, S>) -> Result<(), Failure>
    ensures { IsStep (state S.Store)
        (NamesLayout (state S.Store)) transaction.old.conn transaction.new.conn result }
{
    execute(transaction, LAYOUT_TABLE, &[])?;
    execute(transaction, NAME_LAYOUT, &[])?;
    Ok(())
}

/// Reads the layout version.
fn read_version<S: Alter>(connection: &mut Connection<S>) -> Result<i64, Failure>
    ensures asks { HasCleanDisk (state S.Store connection.new)
        → IfOk result (AnswersVersion (state S.Store connection.old)
        (state S.Store connection.new)) }
    ensures clean { HasCleanDisk (state S.Store connection.new)
        → HasCleanDisk (state S.Store connection.old) }
{
    let columns = connection.query_row(READ_VERSION, &[])?;
    Ok(columns.get(0)?)
}

/// Migrates the previous version to this one. Nothing is written to any other.
fn migrate<S: Alter>(connection: &mut Connection<S>, version: i64) -> Result<(), Failure>
    ensures migrates { HasCleanDisk (state S.Store connection.new)
        → OnOk result (Migrates (state S.Store) version connection.old connection.new) }
    ensures later { VERSION <ℤ version
        → (result ≡ Err (Failure.Fault FaultCause.LaterLayout))
        × (connection.new ≡ connection.old) }
    ensures earlier { version <ℤ VERSION_BEFORE
        → (result ≡ Err (Failure.Fault FaultCause.OtherLayout))
        × (connection.new ≡ connection.old) }
    ensures clean { HasCleanDisk (state S.Store connection.new)
        → HasCleanDisk (state S.Store connection.old) }
{
    if version == VERSION_BEFORE {
        Change::Migrate.commit(connection)
    } else {
        check_version(version)
    }
}

/// Overwrites the layout version with this one.
pub(crate) fn write_version<S: Alter>(transaction: &mut Transaction<'_, S>) -> Result<(), Failure>
    ensures { IsStep (state S.Store)
        (WritesVersion (state S.Store)) transaction.old.conn transaction.new.conn result }
{
    execute(transaction, NAME_LAYOUT, &[])
}

/// Checks the layout version. A later one has a separate cause.
fn check_version(version: i64) -> Result<(), Failure>
    ensures this { OnOk result (version ≡ VERSION) }
    ensures later { VERSION <ℤ version → result ≡ Err (Failure.Fault FaultCause.LaterLayout) }
    ensures earlier { version <ℤ VERSION → result ≡ Err (Failure.Fault FaultCause.OtherLayout) }
{
    if version == VERSION {
        Ok(())
    } else if version > VERSION {
        Err(Failure::Fault(FaultCause::LaterLayout))
    } else {
        Err(Failure::Fault(FaultCause::OtherLayout))
    }
}
