ghost use Rattle.std.specs.Prelude.{◌≡◌, ◌++◌, IfOk, OnOk, OnErr};
ghost use Rattle.taxii_rows.specs.StoreState.{AscendFrom};
ghost use Rattle.taxii_rows.specs.Keeper.{is_date_in};

use flow_values::NoMemory;
use std::alloc::Global;
use taxii_rows::StoredRow;

/// Whether the date is listed. Binary search.
pub(crate) fn is_among(dates: &[u64], date: u64) -> bool
    requires { AscendFrom 0 dates.now }
    ensures { result ≡ is_date_in dates.now date }
{
    dates.binary_search(&date).is_ok()
}

/// Appends copies of more rows. When out of memory, the rows are unchanged.
pub(crate) fn append_copies(
    alloc: Global,
    rows: &mut Vec<StoredRow>,
    more: &[StoredRow],
) -> Result<(), NoMemory>
    ensures ok { OnOk result (rows.new.items ≡ rows.old.items ++ more.now) }
    ensures err { OnErr result (rows.new.items ≡ rows.old.items) }
{
    let mut copies = copy_rows(alloc, more)?;
    rows.append(&mut copies)?;
    Ok(())
}

fn copy_rows(alloc: Global, rows: &[StoredRow]) -> Result<Vec<StoredRow>, NoMemory>
    ensures { IfOk result (λ copies. copies.items ≡ rows.now) }
{
    let mut copies = Vec::with_capacity(alloc, rows.len())?;
    for row in rows {
        copies.push(row.copy(alloc)?)?;
    }
    Ok(copies)
}
