//! Rows with a hint each: the date of a later and of an earlier version of the same object, as far
//! as known. A hint that is set is true, so it can rule out `last` and `first` without a lookup. A
//! missing hint rules out nothing, so hints never change a result.

ghost use Rattle.std.specs.Prelude.{◌≡◌, ◌↔◌, IsTrue, [], ◌++◌, not, length, take, filter};
ghost use Rattle.std.specs.Prelude.{option_map, map, true, IfOk, OnOk, OnErr};
ghost use Rattle.std.specs.List.{Contains};
ghost use Rattle.stix_ids.specs.declared.pick.Pick.TheVariants.{Last as LastOne, First as FirstOne};
ghost use Rattle.taxii_rows.specs.StoreState.{dates_of, AscendFrom};
ghost use Rattle.taxii_rows.specs.Keeper.{is_date_in};
ghost use Rattle.taxii_rows.specs.Picking.{IsPicked, IsPickedBy};
ghost use Rattle.taxii_index.specs.Names.{id_of_number};
ghost use Rattle.taxii_index.specs.Index.{HasRowOf, AreRowsOf};
ghost use Rattle.taxii_index.specs.Presence.{duplicate_of as first_duplicate};
ghost use Rattle.taxii_index.specs.Hints.{AreTrueOf};

use crate::IndexedRows;
use crate::hints::Hints;
use flow_values::NoMemory;
use std::alloc::Global;
use std::marker::Model;
use stix_ids::{Id, Pick};
use taxii_rows::{Described, StoredRow};

/// Indexed rows with hints. Most old versions are recognized as such without a lookup, and so are
/// most later versions that are not the first.
#[derive(Drop)]
pub struct HintedRows {
    rows: IndexedRows,
    hints: Hints,
}

impl Model for HintedRows {
    ghost use Rattle.std.specs.Prelude.{List};
    ghost use Rattle.taxii_rows.specs.declared.stored_row.StoredRow.{StoredRow as Row};
    ghost use Rattle.taxii_index.specs.Hints.{AreTrueOf};

    ghost Value = { List Row };

    ghost view = { λ store. store.rows };

    ghost invariant = { λ store. AreTrueOf store.rows store.hints.hints.items };
}

impl HintedRows {
    /// No rows. `secret` is the key of the hashes, as for `IndexedRows`. Allocates nothing.
    pub fn new(alloc: Global, secret: u128) -> HintedRows
        ensures { result ≡ [] }
    {
        HintedRows {
            rows: IndexedRows::new(alloc, secret),
            hints: Hints::new(alloc),
        }
    }

    /// The rows, by date.
    pub fn as_slice(&self) -> &[StoredRow]
        ensures rows { result.now ≡ self.now }
        ensures ascend { AscendFrom 1 (dates_of self.now) }
    {
        self.rows.as_slice()
    }

    /// Appends rows of later dates. When out of memory, the rows are unchanged.
    pub fn append(&mut self, rows: Vec<StoredRow>) -> Result<(), NoMemory>
        requires later { AscendFrom 1 (dates_of (self.old ++ rows.items)) }
        ensures ok { OnOk result (self.new ≡ self.old ++ rows.items) }
        ensures err { OnErr result (self.new ≡ self.old) }
    {
        let length = self.rows.as_slice().len();
        self.rows.append(rows)?;
        let hinted = self.hint_after(length);
        if hinted.is_err() {
            self.truncate(length);
        }
        hinted
    }

    /// Sets the hints of the rows after the first `length`.
    fn hint_after(&mut self, length: usize) -> Result<(), NoMemory>
        ensures { self.new ≡ self.old }
    {
        if length == 0 {
            self.hint_all()
        } else {
            self.hint_from(length)
        }
    }

    /// Sets the hints of all rows, if none is set yet. One scan of the index, and no lookup for a
    /// row that is the only version of its object.
    fn hint_all(&mut self) -> Result<(), NoMemory>
        ensures { self.new ≡ self.old }
    {
        self.hints.push_all(self.rows.as_slice())?;
        note_all_versions(&self.rows, &mut self.hints);
        Ok(())
    }

    /// Sets the hints of the rows from a position on.
    fn hint_from(&mut self, first: usize) -> Result<(), NoMemory>
        ensures { self.new ≡ self.old }
    {
        for position in first..self.rows.as_slice().len() {
            self.hint(position)?;
        }
        Ok(())
    }

    /// Sets the hint of the row at a position, and updates those of its neighbours among the
    /// versions of its object.
    fn hint(&mut self, position: usize) -> Result<(), NoMemory>
        ensures { self.new ≡ self.old }
    {
        let Some(row) = self.rows.as_slice().get(position) else {
            return Ok(());
        };
        let date = row.date;
        let (earlier, later) = self.rows.neighbours(row);
        self.hints.push(date)?;
        let before = self.rows.position_of(earlier);
        let following = self.rows.position_of(later);
        self.note(before, position);
        self.note(position, following);
        Ok(())
    }

    /// Records that the second row is a later version than the first, if it is.
    fn note(&mut self, first: usize, second: usize)
        ensures { self.new ≡ self.old }
    {
        note_versions(&self.rows, &mut self.hints, first, second);
    }

    /// Drops the rows after the first `length`. Allocates nothing; nor do the calls below.
    pub fn truncate(&mut self, length: usize)
        ensures { self.new ≡ take length self.old }
    {
        let gone = match self.rows.as_slice().get(length) {
            Some(row) => row.date,
            None => return,
        };
        self.hints.forget_from(gone);
        self.rows.truncate(length);
    }

    /// Removes the rows of these dates.
    pub fn remove(&mut self, dates: &[u64])
        requires ascend { AscendFrom 0 dates.now }
        ensures { self.new ≡ filter (λ row. not (is_date_in dates.now row.date)) self.old }
    {
        for date in dates {
            self.unlink(*date);
        }
        self.hints.forget(dates);
        self.rows.remove(dates);
    }

    /// Links the two neighbours of the row of this date with each other.
    fn unlink(&mut self, date: u64)
        ensures { self.new ≡ self.old }
    {
        if let Some(hint) = self.hints.of(date) {
            let before = self.rows.position_of(hint.earlier);
            let following = self.rows.position_of(hint.later);
            self.note(before, following);
        }
    }

    /// The first row, by date, that makes the object present in the collection (TAXII 2.1, section
    /// 5.5): one with the object's version, or with its text if it is undated.
    pub fn duplicate_of(&self, collection: u128, object: &Described) -> Option<&StoredRow>
        ensures { option_map (λ row. row.now) result
            ≡ first_duplicate collection object.now self.now }
    {
        self.rows.duplicate_of(collection, object)
    }

    /// Whether the collection has a row of the object with this UUID and type.
    pub fn has_object(&self, collection: u128, number: u128, kind: &str) -> bool
        ensures { IsTrue result ↔ HasRowOf self.now collection (id_of_number number kind.now) }
    {
        self.rows.has_object(collection, number, kind)
    }

    /// The rows of the object in the collection, by date. O(k log n) for k rows, without a scan.
    pub fn rows_of(&self, collection: u128, id: &Id) -> Result<Vec<&StoredRow>, NoMemory>
        ensures { IfOk result
            (λ found. AreRowsOf collection id.now self.now (map (λ row. row.now) found.items)) }
    {
        self.rows.rows_of(collection, id)
    }

    /// The position of the row of a date, if there is one. It is a hint: no clause states it.
    pub fn position_of(&self, date: u64) -> usize {
        self.rows.position_of(date)
    }

    /// Whether one of the version filters selects the row among the rows of its object.
    pub fn is_picked(&self, row: &StoredRow, picks: &[Pick]) -> bool
        ensures { IsTrue result ↔ IsPicked picks.now self.now row.now }
    {
        self.rows.is_picked(row, picks)
    }

    /// Whether the row at a position may be the last version of its object. O(1), without a lookup.
    /// No last version is missed.
    pub fn may_be_last(&self, position: usize, row: &StoredRow) -> bool
        requires { Contains self.now row.now }
        ensures { IsPickedBy LastOne self.now row.now → result ≡ true }
    {
        self.rows.as_slice();
        !self.hints.knows_later(position, row.date)
    }

    /// Whether the row at a position may be the first version of its object, likewise.
    pub fn may_be_first(&self, position: usize, row: &StoredRow) -> bool
        requires { Contains self.now row.now }
        ensures { IsPickedBy FirstOne self.now row.now → result ≡ true }
    {
        self.rows.as_slice();
        !self.hints.knows_earlier(position, row.date)
    }
}

/// Links each version with the version before it.
fn note_all_versions(rows: &IndexedRows, hints: &mut Hints)
    ensures { AreTrueOf rows.now hints.old.hints.items → AreTrueOf rows.now hints.new.hints.items }
{
    let mut name = 0;
    let mut date = 0;
    let mut position = None;
    for key in rows.versions() {
        position = if key.0 == name {
            let before = match position {
                Some(position) => position,
                None => rows.position_of(date),
            };
            let here = rows.position_of(key.2);
            note_versions(rows, hints, before, here);
            Some(here)
        } else {
            None
        };
        name = key.0;
        date = key.2;
    }
}

/// Records that the second row is a later version than the first, if it is.
fn note_versions(rows: &IndexedRows, hints: &mut Hints, first: usize, second: usize)
    ensures { AreTrueOf rows.now hints.old.hints.items → AreTrueOf rows.now hints.new.hints.items }
{
    if let Some((date, later)) = rows.versions_at(first, second) {
        hints.note(first, date, second, later);
    }
}
