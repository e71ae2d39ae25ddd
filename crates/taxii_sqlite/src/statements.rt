//! The statements on an open database.

ghost use Rattle.std.specs.Prelude.{◌≡◌, IfOk, OnOk};
ghost use Rattle.sqlite.specs.Held.{state};
ghost use Rattle.sqlite.specs.State.{HasCleanDisk};
ghost use Rattle.sqlite.specs.Values.{bound};
ghost use Rattle.taxii_sqlite.specs.Forms.{IsReadyStore};
ghost use Rattle.taxii_sqlite.specs.Statements.{AnswersNextRow, AnswersWatermark, AnswersCount};
ghost use Rattle.taxii_sqlite.specs.Statements.{RunsStatement};
ghost use Rattle.taxii_sqlite.specs.Statements.{Inserts, DeletesRow, WritesWatermark, ends_at};
ghost use Rattle.taxii_sqlite.specs.Statements.{SetsWatermark, InTurn, InsertsRows, DeletesAll};
ghost use Rattle.taxii_sqlite.specs.Transactions.{IsStep};

use crate::failure::Failure;
use crate::layout;
use crate::row::{bytes_of, columns_of, date_at, integer_of, read_row};
use crate::schema::{
    COUNT_EARLY_ROWS, DELETE_ROW, INSERT_ROW, KEEP_WATERMARK, NEXT_ROW, READ_WATERMARK,
    WRITE_WATERMARK,
};
use sqlite::types::ValueRef;
use sqlite::{Alter, Connection, Error, Transaction, params};
use std::alloc::Global;
use taxii_rows::{FaultCause, StoredRow};

/// Makes sure that the database is a store (`layout::take`), with a watermark and without a row
/// that `next_after` would never return.
pub(crate) fn make_ready<S: Alter>(connection: &mut Connection<S>) -> Result<(), Failure>
    ensures ready { HasCleanDisk (state S.Store connection.new)
        → OnOk result (IsReadyStore (state S.Store) connection.old connection.new) }
    ensures clean { HasCleanDisk (state S.Store connection.new)
        → HasCleanDisk (state S.Store connection.old) }
{
    layout::take(connection)?;
    let _watermark = read_watermark(connection)?;
    if count_early_rows(connection)? == 0 {
        Ok(())
    } else {
        Err(Failure::Fault(FaultCause::Unsound))
    }
}

/// The first row later than the date, if any.
pub(crate) fn next_after<S: Alter>(
    alloc: Global,
    connection: &mut Connection<S>,
    date: u64,
) -> Result<Option<StoredRow>, Failure>
    ensures asks { HasCleanDisk (state S.Store connection.new)
        → IfOk result (AnswersNextRow date (state S.Store connection.old)
        (state S.Store connection.new)) }
{
    let date = integer_of(date)?;
    match connection.query_row(NEXT_ROW, params![date]) {
        Ok(columns) => Ok(Some(read_row(alloc, &columns)?)),
        Err(Error::QueryReturnedNoRows) => Ok(None),
        Err(error) => Err(Failure::from(error)),
    }
}

/// The watermark: the last date ever given.
pub(crate) fn read_watermark<S: Alter>(connection: &mut Connection<S>) -> Result<u64, Failure>
    ensures asks { HasCleanDisk (state S.Store connection.new)
        → IfOk result (AnswersWatermark (state S.Store connection.old)
        (state S.Store connection.new)) }
    ensures clean { HasCleanDisk (state S.Store connection.new)
        → HasCleanDisk (state S.Store connection.old) }
{
    let columns = connection.query_row(READ_WATERMARK, &[])?;
    date_at(&columns, 0)
}

/// The number of rows with dates up to 0.
fn count_early_rows<S: Alter>(connection: &mut Connection<S>) -> Result<i64, Failure>
    ensures asks { HasCleanDisk (state S.Store connection.new)
        → IfOk result (AnswersCount (state S.Store connection.old) (state S.Store connection.new)) }
    ensures clean { HasCleanDisk (state S.Store connection.new)
        → HasCleanDisk (state S.Store connection.old) }
{
    let columns = connection.query_row(COUNT_EARLY_ROWS, &[])?;
    Ok(columns.get(0)?)
}

/// Inserts the rows and sets the watermark.
pub(crate) fn append<S: Alter>(
    transaction: &mut Transaction<'_, S>,
    rows: &[StoredRow],
    watermark: u64,
) -> Result<(), Failure>
    ensures { IsStep (state S.Store)
        (InsertsRows (state S.Store) rows.now watermark) transaction.old.conn transaction.new.conn
        result }
{
    insert_rows(transaction, rows)?;
    set_watermark(transaction, rows, watermark)?;
    Ok(())
}

/// Removes the rows of these dates. The watermark is stored first, since the last row may be among
/// them.
pub(crate) fn remove<S: Alter>(
    transaction: &mut Transaction<'_, S>,
    dates: &[u64],
) -> Result<(), Failure>
    ensures { IsStep (state S.Store)
        (DeletesAll (state S.Store) dates.now) transaction.old.conn transaction.new.conn result }
{
    execute(transaction, KEEP_WATERMARK, &[])?;
    delete_rows(transaction, dates)?;
    Ok(())
}

fn insert_rows<S: Alter>(
    transaction: &mut Transaction<'_, S>,
    rows: &[StoredRow],
) -> Result<(), Failure>
    ensures { IsStep (state S.Store)
        (InTurn (Inserts (state S.Store)) rows.now) transaction.old.conn transaction.new.conn
        result }
{
    for row in rows {
        insert_row(transaction, row)?;
    }
    Ok(())
}

fn insert_row<S: Alter>(
    transaction: &mut Transaction<'_, S>,
    row: &StoredRow,
) -> Result<(), Failure>
    ensures { IsStep (state S.Store)
        (Inserts (state S.Store) row.now) transaction.old.conn transaction.new.conn result }
{
    let date = integer_of(row.date)?;
    let collection = bytes_of(row.collection);
    let number = bytes_of(row.id.number);
    let columns = columns_of(row, date, &collection, &number);
    execute(transaction, INSERT_ROW, columns.as_slice())
}

fn delete_rows<S: Alter>(transaction: &mut Transaction<'_, S>, dates: &[u64]) -> Result<(), Failure>
    ensures { IsStep (state S.Store)
        (InTurn (DeletesRow (state S.Store)) dates.now) transaction.old.conn transaction.new.conn
        result }
{
    for date in dates {
        delete_row(transaction, *date)?;
    }
    Ok(())
}

fn delete_row<S: Alter>(transaction: &mut Transaction<'_, S>, date: u64) -> Result<(), Failure>
    ensures { IsStep (state S.Store)
        (DeletesRow (state S.Store) date) transaction.old.conn transaction.new.conn result }
{
    let date = integer_of(date)?;
    execute(transaction, DELETE_ROW, params![date])
}

/// Sets the watermark. Nothing is written if it is the date of the last row.
fn set_watermark<S: Alter>(
    transaction: &mut Transaction<'_, S>,
    rows: &[StoredRow],
    watermark: u64,
) -> Result<(), Failure>
    ensures { IsStep (state S.Store)
        (SetsWatermark (state S.Store) rows.now watermark) transaction.old.conn
        transaction.new.conn result }
{
    if end_at(rows, watermark) {
        Ok(())
    } else {
        write_watermark(transaction, watermark)
    }
}

/// Whether the last row has this date.
fn end_at(rows: &[StoredRow], date: u64) -> bool
    ensures { result ≡ ends_at rows.now date }
{
    match rows.last() {
        Some(row) => row.date == date,
        None => false,
    }
}

fn write_watermark<S: Alter>(
    transaction: &mut Transaction<'_, S>,
    watermark: u64,
) -> Result<(), Failure>
    ensures { IsStep (state S.Store)
        (WritesWatermark (state S.Store) watermark) transaction.old.conn transaction.new.conn
        result }
{
    let watermark = integer_of(watermark)?;
    execute(transaction, WRITE_WATERMARK, params![watermark])
}

/// Executes a statement inside a transaction, without ending it.
pub(crate) fn execute<S: Alter>(
    transaction: &mut Transaction<'_, S>,
    statement: &str,
    columns: &[ValueRef<'_>],
) -> Result<(), Failure>
    ensures { IsStep (state S.Store)
        (RunsStatement (state S.Store) statement.now
        (bound columns.now)) transaction.old.conn transaction.new.conn result }
{
    transaction.execute(statement, columns)?;
    Ok(())
}
