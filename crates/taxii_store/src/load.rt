ghost use Rattle.std.specs.Prelude.{◌≡◌, ◌≤◌, ◌<◌, ◌↔◌, ℕ, true, IsTrue, Ok, Err, None, All};
ghost use Rattle.std.specs.Prelude.{MatchOption, IfOk, IfErr, IfSome};
ghost use Rattle.flow_edges.specs.Faults.{Counted};
ghost use Rattle.taxii_rows.specs.declared.stored_row.TheConstants.{LAST_DATE as last_date};
ghost use Rattle.taxii_rows.specs.Keeper.{row_after};
ghost use Rattle.taxii_rows.specs.StoreState.{dates_of, AscendFrom};
ghost use Rattle.taxii_store.specs.Loading.{IsFitRow, IsBadAfter, IsLoaded};
ghost use Rattle.taxii_store.specs.inner.Reading.{AreFit, IsBadNext};
ghost use Rattle.taxii_store.specs.declared.load_refusal.LoadRefusal.TheVariants as Refused;

use crate::{Library, LoadRefusal};
use flow_values::{Items, NoMemory};
use std::alloc::Global;
use stix_json::JsonReader;
use taxii_index::HintedRows;
use taxii_rows::{Keeper, LAST_DATE, StoredRow, is_sound_row};

impl Library {
    /// Loads the rows and the watermark of a keeper under a name, and checks each row. The keeper's
    /// rows stay. `KeeperFault` if the keeper failed (and counted it); `BadRow` if a row does not
    /// agree with its body or its date is out of order.
    pub fn load<K: Keeper>(
        alloc: Global,
        keeper: &mut K,
        name: &str,
    ) -> Result<Library, LoadRefusal>
        ensures ok { IfOk result (IsLoaded name.now (K.kept keeper.new)) }
        // `BadRow` is returned only for a row that is bad
        ensures bad { IfErr result (λ refusal. (after : ℕ) → refusal ≡ Refused.BadRow after
            → IfSome (K.kept keeper.old).observable (λ state. IsBadAfter state after)) }
        ensures observable { (K.kept keeper.new).observable ≡ (K.kept keeper.old).observable }
        ensures causes { Counted (result ≡ Err Refused.KeeperFault) (K.faults keeper.old)
            (K.faults keeper.new) }
    {
        keeper.attach(name)?;
        let watermark = keeper.watermark()?;
        let found = read_rows(alloc, keeper, watermark)?;
        let secret = keeper.secret();
        let mut rows = HintedRows::new(alloc, secret);
        rows.append(found.into_vec())?;
        Ok(Library {
            alloc,
            secret,
            rows,
            watermark,
        })
    }
}

/// Reads all rows, by date.
fn read_rows<K: Keeper>(
    alloc: Global,
    keeper: &mut K,
    watermark: u64,
) -> Result<Items<StoredRow>, LoadRefusal>
    requires attached { (K.kept keeper.old).attached ≡ true }
    requires observable { IfSome (K.kept keeper.old).observable
        (λ state. (state.watermark ≡ watermark) × AscendFrom 1 (dates_of state.rows)) }
    ensures rows { IfOk result
        (λ rows. IfSome (K.kept keeper.old).observable (λ state. rows ≡ state.rows)) }
    ensures fit { IfOk result (λ rows. AreFit watermark rows) }
    ensures bad { IfErr result (λ refusal. (after : ℕ) → refusal ≡ Refused.BadRow after
        → IfSome (K.kept keeper.old).observable (λ state. IsBadAfter state after)) }
    ensures stays { K.kept keeper.new ≡ K.kept keeper.old }
    ensures causes { Counted (result ≡ Err Refused.KeeperFault) (K.faults keeper.old)
        (K.faults keeper.new) }
{
    let mut reader = JsonReader::new(alloc)?;
    let mut rows = Items::new(alloc);
    let mut after = 0;
    loop {
        let Some(row) = next_fit(alloc, &mut reader, keeper, after, watermark)? else {
            return Ok(rows);
        };
        after = row.date;
        rows.push(row)?;
    }
}

/// Reads and checks the row after a date. At the end, the watermark must be a valid date.
fn next_fit<K: Keeper>(
    alloc: Global,
    reader: &mut JsonReader,
    keeper: &mut K,
    after: u64,
    watermark: u64,
) -> Result<Option<StoredRow>, LoadRefusal>
    requires attached { (K.kept keeper.old).attached ≡ true }
    requires watermark { IfSome (K.kept keeper.old).observable
        (λ state. state.watermark ≡ watermark) }
    ensures next { IfOk result
        (λ found. IfSome (K.kept keeper.old).observable
        (λ state. found ≡ row_after after state.rows)) }
    ensures fit { IfOk result
        (λ found. IfSome found (λ row. (after < row.date) × IsFitRow watermark row)) }
    ensures last { result ≡ Ok None → watermark ≤ last_date }
    ensures bad { IfErr result (λ refusal. (at : ℕ) → refusal ≡ Refused.BadRow at
        → (at ≡ after) × IfSome (K.kept keeper.old).observable (λ state. IsBadNext state after)) }
    ensures stays { K.kept keeper.new ≡ K.kept keeper.old }
    ensures causes { Counted (result ≡ Err Refused.KeeperFault) (K.faults keeper.old)
        (K.faults keeper.new) }
{
    let found = keeper.next_after(after)?;
    if may_follow(alloc, reader, &found, after, watermark)? {
        Ok(found)
    } else {
        Err(LoadRefusal::BadRow { after })
    }
}

/// Whether the row, or the end, may follow the date.
fn may_follow(
    alloc: Global,
    reader: &mut JsonReader,
    found: &Option<StoredRow>,
    after: u64,
    watermark: u64,
) -> Result<bool, NoMemory>
    ensures { IfOk result (λ follows. IsTrue follows
        ↔ MatchOption found.now (watermark ≤ last_date) (λ row. (after < row.date)
        × IsFitRow watermark row)) }
{
    match found {
        Some(row) => Ok(is_dated(row, after, watermark) && is_sound_row(alloc, reader, row)?),
        None => Ok(watermark <= LAST_DATE),
    }
}

/// Whether the row's date is after `after`, and not after the watermark or the last valid date.
fn is_dated(row: &StoredRow, after: u64, watermark: u64) -> bool
    ensures { IsTrue result
        ↔ ((after < row.now.date) × (row.now.date ≤ watermark) × (row.now.date ≤ last_date)) }
{
    after < row.date && row.date <= watermark && row.date <= LAST_DATE
}
