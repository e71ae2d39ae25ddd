//! A vector of rows sorted by date, with two ordered sets of keys: (object hash, version, date) and
//! (text hash, 0, date). A key range gives candidates, and each candidate's row decides.

ghost use Rattle.std.specs.Prelude.{◌≡◌, ◌↔◌, ◌-◌, IsTrue, true, [], ◌∷◌, ◌++◌, not, length, take};
ghost use Rattle.std.specs.Prelude.{map, filter, find, option_map, filter_map, IfOk, OnOk, OnErr};
ghost use Rattle.std.specs.Prelude.{IfSome};
ghost use Rattle.std.specs.List.{Contains, list_any};
ghost use Rattle.taxii_rows.specs.declared.stored_row.StoredRow.{StoredRow as Stored};
ghost use Rattle.stix_ids.specs.declared.pick.Pick.TheVariants.{Last as LastOne, First as FirstOne};
ghost use Rattle.taxii_rows.specs.StoreState.{dates_of, AscendFrom};
ghost use Rattle.taxii_rows.specs.Keeper.{is_date_in};
ghost use Rattle.taxii_rows.specs.Identity.{is_row_of as is_of};
ghost use Rattle.taxii_rows.specs.Picking.{IsPicked, IsPickedBy};
ghost use Rattle.taxii_index.specs.Presence.{is_duplicate as is_present};
ghost use Rattle.taxii_index.specs.Presence.{duplicate_of as first_duplicate};
ghost use Rattle.taxii_index.specs.Index.{has_row, key_dates, HasRowOf, AreRowsOf, row_where};
ghost use Rattle.taxii_index.specs.Names.{id_of_number};
ghost use Rattle.taxii_index.specs.Hints.{ComesBefore};

use crate::dates::is_among;
use crate::keys::Key;
use crate::order::is_later;
use crate::presence::is_duplicate;
use crate::row_index::RowIndex;
use flow_values::NoMemory;
use std::alloc::Global;
use std::collections::btree_set::{Iter, Range};
use std::marker::Model;
use stix_ids::{Id, Pick};
use taxii_rows::{Described, StoredRow, row_at};

/// The rows of a store, with dates ascending, and an index by object.
#[derive(Drop)]
pub struct IndexedRows {
    alloc: Global,
    secret: u128,
    rows: Vec<StoredRow>,
    index: RowIndex,
}

impl Model for IndexedRows {
    ghost use Rattle.std.specs.Prelude.{List};
    ghost use Rattle.taxii_rows.specs.declared.stored_row.StoredRow.{StoredRow as Row};
    ghost use Rattle.taxii_rows.specs.StoreState.{dates_of, AscendFrom};
    ghost use Rattle.taxii_index.specs.Index.{IsIndexOf};

    ghost Value = { List Row };

    ghost view = { λ store. store.rows.items };

    ghost invariant = { λ store. AscendFrom 1 (dates_of store.rows.items)
        × IsIndexOf store.rows.items store.index };
}

impl IndexedRows {
    /// No rows. `secret` is the key of the hashes. Clients that send objects must not know it:
    /// otherwise they could choose objects whose lookups are slow. Allocates nothing.
    pub fn new(alloc: Global, secret: u128) -> IndexedRows
        ensures { result ≡ [] }
    {
        IndexedRows {
            alloc,
            secret,
            rows: Vec::new(alloc),
            index: RowIndex::new(alloc, secret),
        }
    }

    /// The rows, by date.
    pub fn as_slice(&self) -> &[StoredRow]
        ensures rows { result.now ≡ self.now }
        ensures ascend { AscendFrom 1 (dates_of self.now) }
    {
        self.rows.as_slice()
    }

    /// The rows without the index, in their own memory.
    pub fn into_rows(self) -> Vec<StoredRow>
        ensures rows { result.items ≡ self }
        ensures ascend { AscendFrom 1 (dates_of self) }
    {
        let IndexedRows { rows, .. } = self;
        rows
    }

    /// Appends a row of a later date. When out of memory, the rows are unchanged.
    pub fn push(&mut self, row: StoredRow) -> Result<(), NoMemory>
        requires later { AscendFrom 1 (dates_of (self.old ++ row ∷ [])) }
        ensures ok { OnOk result (self.new ≡ self.old ++ row ∷ []) }
        ensures err { OnErr result (self.new ≡ self.old) }
    {
        self.index.insert(&row)?;
        match self.rows.push(row) {
            Ok(()) => Ok(()),
            Err(refused) => {
                self.index.remove(&refused.value);
                Err(NoMemory)
            }
        }
    }

    /// Appends rows of later dates. When out of memory, the rows are unchanged.
    pub fn append(&mut self, rows: Vec<StoredRow>) -> Result<(), NoMemory>
        requires later { AscendFrom 1 (dates_of (self.old ++ rows.items)) }
        ensures ok { OnOk result (self.new ≡ self.old ++ rows.items) }
        ensures err { OnErr result (self.new ≡ self.old) }
    {
        let length = self.rows.len();
        if length == 0 {
            return self.fill(rows);
        }
        let added = self.push_all(rows);
        if added.is_err() {
            self.truncate(length);
        }
        added
    }

    /// Takes over a vector of rows if there were none, and builds the index in one pass. When out
    /// of memory, nothing changes.
    fn fill(&mut self, rows: Vec<StoredRow>) -> Result<(), NoMemory>
        requires ascend { AscendFrom 1 (dates_of rows.items) }
        ensures ok { OnOk result (self.new ≡ rows.items) }
        ensures err { OnErr result (self.new ≡ self.old) }
    {
        let index = RowIndex::of(self.alloc, self.secret, &rows)?;
        self.index = index;
        self.rows = rows;
        Ok(())
    }

    /// Appends rows of later dates. When out of memory, a prefix of them may have been added.
    fn push_all(&mut self, rows: Vec<StoredRow>) -> Result<(), NoMemory>
        requires later { AscendFrom 1 (dates_of (self.old ++ rows.items)) }
        ensures ok { OnOk result (self.new ≡ self.old ++ rows.items) }
        ensures err { OnErr result (take (length self.old) self.new ≡ self.old) }
    {
        for row in rows {
            self.push(row)?;
        }
        Ok(())
    }

    /// Drops the rows after the first `length`. Allocates nothing; nor do the calls below.
    pub fn truncate(&mut self, length: usize)
        ensures { self.new ≡ take length self.old }
    {
        while self.rows.len() > length {
            self.pop();
        }
    }

    /// Removes the last row.
    fn pop(&mut self)
        ensures { self.new ≡ take (length self.old - 1) self.old }
    {
        if let Some(row) = self.rows.pop() {
            self.index.remove(&row);
        }
    }

    /// Removes the rows of these dates.
    pub fn remove(&mut self, dates: &[u64])
        requires ascend { AscendFrom 0 dates.now }
        ensures { self.new ≡ filter (λ row. not (is_date_in dates.now row.date)) self.old }
    {
        self.index.remove_dates(&self.rows, dates);
        self.rows.retain(|row| !is_among(dates, row.date));
    }

    /// The first row, by date, that makes the object present in the collection (TAXII 2.1, section
    /// 5.5): one with the object's version, or with its text if it is undated.
    pub fn duplicate_of(&self, collection: u128, object: &Described) -> Option<&StoredRow>
        ensures { option_map (λ row. row.now) result
            ≡ first_duplicate collection object.now self.now }
    {
        let date = self.date_of_duplicate(self.index.same(collection, object), collection, object)?;
        row_at(&self.rows, date)
    }

    /// The date of the first of these keys whose row makes the object present.
    fn date_of_duplicate(
        &self,
        keys: Range<'_, Key>,
        collection: u128,
        object: &Described,
    ) -> Option<u64>
        ensures { result ≡ find (has_row (is_present collection object.now) self.now)
            (key_dates keys.entry) }
    {
        keys.map(|key| key.2)
            .find(|date| self.is_duplicate_at(*date, collection, object))
    }

    /// Whether the row of this date makes the object present in the collection.
    fn is_duplicate_at(&self, date: u64, collection: u128, object: &Described) -> bool
        ensures { result ≡ has_row (is_present collection object.now) self.now date }
    {
        match row_at(&self.rows, date) {
            Some(row) => is_duplicate(collection, object, row),
            None => false,
        }
    }

    /// Whether the collection has a row of the object with this UUID and type.
    pub fn has_object(&self, collection: u128, number: u128, kind: &str) -> bool
        ensures { IsTrue result ↔ HasRowOf self.now collection (id_of_number number kind.now) }
    {
        let keys = self.index.of_object(collection, number, kind);
        self.has_object_among(keys, collection, number, kind)
    }

    /// Whether one of these keys leads to a row of the object in the collection.
    fn has_object_among(
        &self,
        keys: Range<'_, Key>,
        collection: u128,
        number: u128,
        kind: &str,
    ) -> bool
        ensures { result ≡ list_any (has_row (is_of collection
            (id_of_number number kind.now)) self.now)
            (key_dates keys.entry) }
    {
        keys.map(|key| key.2)
            .any(|date| self.is_object_at(date, collection, number, kind))
    }

    /// Whether the row of this date is one of the object in the collection.
    fn is_object_at(&self, date: u64, collection: u128, number: u128, kind: &str) -> bool
        ensures { result ≡ has_row (is_of collection (id_of_number number kind.now)) self.now date }
    {
        match row_at(&self.rows, date) {
            Some(row) => is_of_parts(row, collection, number, kind),
            None => false,
        }
    }

    /// The rows of the object in the collection, by date. O(k log n) for k keys of its hash.
    pub fn rows_of(&self, collection: u128, id: &Id) -> Result<Vec<&StoredRow>, NoMemory>
        ensures { IfOk result
            (λ found. AreRowsOf collection id.now self.now (map (λ row. row.now) found.items)) }
    {
        self.as_slice();
        let dates = self.dates_of(collection, id)?;
        self.rows_at(&dates, collection, id)
    }

    /// The dates of the object's rows in the collection, ascending, and perhaps of rows with an
    /// equal hash.
    fn dates_of(&self, collection: u128, id: &Id) -> Result<Vec<u64>, NoMemory>
        ensures ascend { IfOk result (λ dates. AscendFrom 0 dates.items) }
        ensures every { IfOk result (λ dates. (row : Stored) → Contains self.now row
            → is_of collection id.now row ≡ true → Contains dates.items row.date) }
    {
        let keys = self
            .index
            .of_object(collection, id.number, id.kind.as_str());
        let mut dates = gather_dates(self.alloc, keys)?;
        dates.sort()?;
        dates.dedup();
        Ok(dates)
    }

    /// The rows of these dates, filtered by the object and the collection.
    fn rows_at(&self, dates: &[u64], collection: u128, id: &Id) -> Result<Vec<&StoredRow>, NoMemory>
        ensures { IfOk result
            (λ found. map (λ row. row.now) found.items
            ≡ filter_map (row_where (is_of collection id.now) self.now) dates.now) }
    {
        let mut found = Vec::new(self.alloc);
        for date in dates {
            if let Some(row) = self.row_of(*date, collection, id) {
                found.push(row)?;
            }
        }
        Ok(found)
    }

    /// The row of this date, if it is one of the object in the collection.
    fn row_of(&self, date: u64, collection: u128, id: &Id) -> Option<&StoredRow>
        ensures { option_map (λ row. row.now) result
            ≡ row_where (is_of collection id.now) self.now date }
    {
        let row = row_at(&self.rows, date)?;
        if row.is_of(collection, id) {
            Some(row)
        } else {
            None
        }
    }

    /// Whether one of the version filters selects the row among the rows of its object.
    pub fn is_picked(&self, row: &StoredRow, picks: &[Pick]) -> bool
        ensures { IsTrue result ↔ IsPicked picks.now self.now row.now }
    {
        picks.iter().any(|pick| self.is_picked_by(*pick, row))
    }

    fn is_picked_by(&self, pick: Pick, row: &StoredRow) -> bool
        ensures { IsTrue result ↔ IsPickedBy pick self.now row.now }
    {
        match pick {
            Pick::Last => self.is_last(row),
            Pick::First => self.is_first(row),
            Pick::All => true,
            Pick::At(version) => row.version == version,
        }
    }

    /// All version keys: those of one object are adjacent, ordered by version. They are hints:
    /// `versions_at` decides.
    pub(crate) fn versions(&self) -> Iter<'_, Key> {
        self.index.versions()
    }

    /// The dates of the rows that may be the previous and the next version of the row, or 0 if
    /// there is none. They are hints: `versions_at` decides.
    pub(crate) fn neighbours(&self, row: &StoredRow) -> (u64, u64) {
        self.index.neighbours(row)
    }

    /// The position of the row of a date, if there is one. Binary search.
    pub(crate) fn position_of(&self, date: u64) -> usize {
        self.rows.partition_point(|row| row.date < date)
    }

    /// The dates of the rows at two positions, if the second is a later version of the first one's
    /// object.
    pub(crate) fn versions_at(&self, first: usize, second: usize) -> Option<(u64, u64)>
        ensures { IfSome result (λ dates. ComesBefore self.now dates.0 dates.1) }
    {
        let row = self.rows.get(first)?;
        let other = self.rows.get(second)?;
        if is_later(row, other) {
            Some((row.date, other.date))
        } else {
            None
        }
    }

    /// Whether the row is the last version of its object.
    fn is_last(&self, row: &StoredRow) -> bool
        ensures { IsTrue result ↔ IsPickedBy LastOne self.now row.now }
    {
        !self.has_row_among(self.index.later(row), row.collection, &row.id)
    }

    /// Whether the row is the first version of its object.
    fn is_first(&self, row: &StoredRow) -> bool
        ensures { IsTrue result ↔ IsPickedBy FirstOne self.now row.now }
    {
        !self.has_row_among(self.index.earlier(row), row.collection, &row.id)
    }

    /// Whether one of these keys leads to a row of the object in the collection.
    fn has_row_among(&self, keys: Range<'_, Key>, collection: u128, id: &Id) -> bool
        ensures { result ≡ list_any (has_row (is_of collection id.now) self.now)
            (key_dates keys.entry) }
    {
        keys.map(|key| key.2)
            .any(|date| self.is_row_at(date, collection, id))
    }

    /// Whether the row of this date is one of the object in the collection.
    fn is_row_at(&self, date: u64, collection: u128, id: &Id) -> bool
        ensures { result ≡ has_row (is_of collection id.now) self.now date }
    {
        match row_at(&self.rows, date) {
            Some(row) => row.is_of(collection, id),
            None => false,
        }
    }
}

/// The dates of some keys.
fn gather_dates(alloc: Global, keys: Range<'_, Key>) -> Result<Vec<u64>, NoMemory>
    ensures { IfOk result (λ dates. dates.items ≡ key_dates keys.entry) }
{
    Ok(keys.map(|key| key.2).collect(alloc)?)
}

/// Whether the row is one of the object with this UUID and type in the collection.
fn is_of_parts(row: &StoredRow, collection: u128, number: u128, kind: &str) -> bool
    ensures { result ≡ is_of collection (id_of_number number kind.now) row.now }
{
    row.collection == collection && row.id.number == number && row.id.kind.as_str() == kind
}
