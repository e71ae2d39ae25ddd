//! Shifting the dates of a draft: its rows have consecutive dates, so adding one number to each
//! keeps them unique and ascending.

ghost use Rattle.std.specs.Prelude.{◌≡◌, ◌+◌, ◌≤◌, All, map};
ghost use Rattle.taxii_rows.specs.declared.stored_row.TheConstants.{LAST_DATE as last_date};
ghost use Rattle.taxii_store.specs.Addition.{date_in, first_date as first_given, watermark_after};
ghost use Rattle.taxii_store.specs.inner.Moving.{shifted, shifted_date, shifted_outcome};

use crate::AddOutcome;
use taxii_rows::{LAST_DATE, StoredRow};

/// The date of the first of `count` new rows.
pub(crate) fn first_date(watermark: u64, moment: u64, count: u64) -> u64
    requires { watermark + count ≤ last_date }
    ensures { result ≡ first_given watermark moment count }
{
    moment.min(LAST_DATE + 1 - count).max(watermark + 1)
}

/// Adds `shift` to the dates of the rows.
pub(crate) fn shift_rows(rows: &mut Vec<StoredRow>, shift: u64)
    requires { All (λ row. row.date + shift ≤ last_date) rows.old.items }
    ensures { rows.new.items ≡ map (shifted shift) rows.old.items }
{
    for row in rows.iter_mut() {
        shift_row(row, shift);
    }
}

/// Adds `shift` to a row's date, and to its version if it is undated.
fn shift_row(row: &mut StoredRow, shift: u64)
    requires { row.old.date + shift ≤ last_date }
    ensures { row.new ≡ shifted shift row.old }
{
    row.date += shift;
    if !row.dated {
        row.version = row.date as i64;
    }
}

/// Adds `shift` to the dates of new rows in some outcomes.
pub(crate) fn shift_outcomes(outcomes: &mut Vec<AddOutcome>, watermark: u64, shift: u64)
    requires known { All (λ outcome. date_in outcome ≤ last_date) outcomes.old.items }
    requires shift { shift ≤ last_date }
    ensures { outcomes.new.items ≡ map (shifted_outcome watermark shift) outcomes.old.items }
{
    for outcome in outcomes.iter_mut() {
        shift_outcome(outcome, watermark, shift);
    }
}

fn shift_outcome(outcome: &mut AddOutcome, watermark: u64, shift: u64)
    requires known { date_in outcome.old ≤ last_date }
    requires shift { shift ≤ last_date }
    ensures { outcome.new ≡ shifted_outcome watermark shift outcome.old }
{
    match outcome {
        AddOutcome::Added { date } => *date = shift_date(*date, watermark, shift),
        AddOutcome::Present { date } => *date = shift_date(*date, watermark, shift),
    }
}

/// The date, shifted if it is after the watermark, that is of a new row.
fn shift_date(date: u64, watermark: u64, shift: u64) -> u64
    requires known { date ≤ last_date }
    requires shift { shift ≤ last_date }
    ensures { result ≡ shifted_date watermark shift date }
{
    if watermark < date { date + shift } else { date }
}

/// The date of the last row, or the watermark if there are no rows.
pub(crate) fn last_of(rows: &[StoredRow], watermark: u64) -> u64
    ensures { result ≡ watermark_after watermark rows.now }
{
    match rows.last() {
        Some(row) => row.date,
        None => watermark,
    }
}
