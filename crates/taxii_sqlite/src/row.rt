ghost use Rattle.std.specs.Prelude.{◌≡◌, ◌≢◌, ◌^◌, ◌≤◌, ℕ, pos, Bool, List, map, Err, IfOk, OnErr};
ghost use Rattle.std.specs.Int.{w128, from_be_bytes};
ghost use Rattle.sqlite_value.specs.Order.{column};
ghost use Rattle.sqlite_value.specs.Value.{owned};
ghost use Rattle.sqlite.specs.Values.{bound};
ghost use Rattle.taxii_rows.specs.declared.stored_row.StoredRow.{StoredRow as WholeRow};
ghost use Rattle.taxii_sqlite.specs.Columns.{HoldsRow, HoldsNumber, HoldsText, date_value};
ghost use Rattle.taxii_sqlite.specs.Columns.{truth_value};
ghost use Rattle.taxii_rows.specs.declared.fault_cause.FaultCause.{FaultCause as Cause};
ghost use Rattle.taxii_sqlite.specs.declared.failure.Failure.TheVariants.{Fault as IsFault};

use crate::failure::Failure;
use flow_values::{Name, Text};
use sqlite::Row;
use sqlite::types::ValueRef;
use std::alloc::Global;
use stix_ids::Id;
use taxii_rows::{FaultCause, StoredRow};

/// The failure for contents that no store writes.
const UNSOUND: Failure = Failure::Fault(FaultCause::Unsound);

/// A date as an SQLite integer. Past the largest integer it is a fault.
pub(crate) fn integer_of(date: u64) -> Result<i64, Failure>
    ensures ok { IfOk result (λ integer. integer ≡ pos date) }
    ensures err { OnErr result (2 ^ 63 ≤ date) }
{
    i64::try_from(date).map_err(|_| UNSOUND)
}

/// The bytes of a number in big-endian order.
pub(crate) fn bytes_of(number: u128) -> [u8; 16]
    ensures { number ≡ from_be_bytes w128 result }
{
    number.to_be_bytes()
}

/// The columns of a row, from its date as an integer and the bytes of its two UUIDs.
pub(crate) fn columns_of<'a>(
    row: &'a StoredRow,
    date: i64,
    collection: &'a [u8; 16],
    number: &'a [u8; 16],
) -> [ValueRef<'a>; 7]
    requires date { date ≡ pos row.now.date }
    requires collection { row.now.collection ≡ from_be_bytes w128 collection.now }
    requires number { row.now.id.number ≡ from_be_bytes w128 number.now }
    ensures holds { HoldsRow (map owned result) row.now }
    ensures given { HoldsRow (bound result) row.now }
{
    [
        ValueRef::Int(date),
        ValueRef::Blob(collection.as_slice()),
        ValueRef::Text(row.id.kind.as_str().as_bytes()),
        ValueRef::Blob(number.as_slice()),
        ValueRef::Int(row.version),
        ValueRef::Int(i64::from(row.dated)),
        ValueRef::Text(row.body.as_str().as_bytes()),
    ]
}

/// The row in these columns. Columns that hold none are a fault.
pub(crate) fn read_row(alloc: Global, columns: &Row) -> Result<StoredRow, Failure>
    ensures ok { IfOk result (HoldsRow columns.now) }
    ensures fault { (cause : Cause) → result ≡ Err (IsFault cause) → (row : WholeRow)
        → ¬ HoldsRow columns.now row }
{
    let date = date_at(columns, 0)?;
    let collection = number_at(columns, 1)?;
    let kind = name_at(alloc, columns, 2)?;
    let number = number_at(columns, 3)?;
    let version = columns.get(4)?;
    let dated = truth_at(columns, 5)?;
    let body = text_at(columns, 6)?;
    Ok(StoredRow {
        date,
        collection,
        id: Id { kind, number },
        version,
        dated,
        body,
    })
}

/// The date in a column.
pub(crate) fn date_at(columns: &Row, at: usize) -> Result<u64, Failure>
    ensures ok { IfOk result (λ date. column columns.now at ≡ date_value date) }
    ensures fault { (cause : Cause) → result ≡ Err (IsFault cause) → (date : ℕ)
        → column columns.now at ≢ date_value date }
{
    let date = columns.get(at)?;
    Ok(date)
}

/// The 128-bit number in a column.
fn number_at(columns: &Row, at: usize) -> Result<u128, Failure>
    ensures ok { IfOk result (HoldsNumber (column columns.now at)) }
    ensures fault { (cause : Cause) → result ≡ Err (IsFault cause) → (number : ℕ)
        → ¬ HoldsNumber (column columns.now at) number }
{
    let ValueRef::Blob(bytes) = columns.get_ref(at)? else {
        return Err(UNSOUND);
    };
    match <[u8; 16]>::try_from(bytes) {
        Ok(bytes) => Ok(u128::from_be_bytes(bytes)),
        Err(_) => Err(UNSOUND),
    }
}

/// The Boolean in a column.
fn truth_at(columns: &Row, at: usize) -> Result<bool, Failure>
    ensures ok { IfOk result (λ truth. column columns.now at ≡ truth_value truth) }
    ensures fault { (cause : Cause) → result ≡ Err (IsFault cause) → (truth : Bool)
        → column columns.now at ≢ truth_value truth }
{
    match columns.get_ref(at)? {
        ValueRef::Int(0) => Ok(false),
        ValueRef::Int(1) => Ok(true),
        _ => Err(UNSOUND),
    }
}

/// The object type in a column.
fn name_at(alloc: Global, columns: &Row, at: usize) -> Result<Name, Failure>
    ensures ok { IfOk result (HoldsText (column columns.now at)) }
    ensures fault { (cause : Cause) → result ≡ Err (IsFault cause) → (text : List ℕ)
        → ¬ HoldsText (column columns.now at) text }
{
    let text = text_at(columns, at)?;
    match Name::from_text(alloc, text.as_str()) {
        Ok(name) => Ok(name),
        Err(_) => Err(Failure::NoMemory),
    }
}

/// The text in a column.
fn text_at(columns: &Row, at: usize) -> Result<Text, Failure>
    ensures ok { IfOk result (HoldsText (column columns.now at)) }
    ensures fault { (cause : Cause) → result ≡ Err (IsFault cause) → (text : List ℕ)
        → ¬ HoldsText (column columns.now at) text }
{
    let text = columns.get(at)?;
    Ok(Text::from_string(text))
}
