//! Binary search in rows sorted by date.

ghost use Rattle.std.specs.Prelude.{◌≡◌, ◌≢◌, Some, None, option_map};
ghost use Rattle.taxii_rows.specs.StoreState.{dates_of, AscendFrom};
ghost use Rattle.taxii_rows.specs.Keeper.{row_after as first_later, row_at as first_then};

use crate::StoredRow;

/// The first row added later than the date. Binary search; allocates nothing.
pub fn row_after(rows: &[StoredRow], date: u64) -> Option<&StoredRow>
    requires { AscendFrom 1 (dates_of rows.now) }
    ensures { option_map (λ row. row.now) result ≡ first_later date rows.now }
{
    let at = rows.partition_point(|row| row.date <= date);
    rows.get(at)
}

/// The row of this date, if any. Binary search; allocates nothing.
pub fn row_at(rows: &[StoredRow], date: u64) -> Option<&StoredRow>
    requires { AscendFrom 1 (dates_of rows.now) }
    ensures { option_map (λ row. row.now) result ≡ first_then date rows.now }
{
    let at = rows.partition_point(|row| row.date < date);
    match rows.get(at) {
        Some(row) => own_date(row, date),
        None => None,
    }
}

/// The row, if it has this date.
fn own_date(row: &StoredRow, date: u64) -> Option<&StoredRow>
    ensures own { row.now.date ≡ date → option_map (λ row. row.now) result ≡ Some row.now }
    ensures other { row.now.date ≢ date → result ≡ None }
{
    if row.date == date { Some(row) } else { None }
}
