ghost use Rattle.std.specs.Prelude.{◌≡◌, ◌↔◌, IsTrue, true};
ghost use Rattle.taxii_rows.specs.Identity.{is_row_of};
ghost use Rattle.taxii_index.specs.Index.{IsBefore};

use taxii_rows::StoredRow;

/// Whether the second row is a later version of the first one's object.
pub(crate) fn is_later(row: &StoredRow, other: &StoredRow) -> bool
    ensures { IsTrue result
        ↔ ((is_row_of row.now.collection row.now.id other.now ≡ true)
        × IsBefore row.now other.now) }
{
    other.is_of(row.collection, &row.id) && is_before(row, other)
}

/// Whether the first row is before the second: by version, and for equal versions by date.
fn is_before(row: &StoredRow, other: &StoredRow) -> bool
    ensures { IsTrue result ↔ IsBefore row.now other.now }
{
    row.version < other.version || row.version == other.version && row.date < other.date
}
