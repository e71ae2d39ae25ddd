//! An inverted index of rows. `by_version` finds the versions of an object, `by_text` the rows with
//! one text of an object, both by keyed hash in ordered sets.

ghost use Rattle.std.specs.Prelude.{◌≡◌, ℕ, [], ◌∷◌, ◌++◌, List, All, map, not, filter, IfOk, OnOk};
ghost use Rattle.std.specs.Prelude.{OnErr};
ghost use Rattle.std.specs.List.{Contains};
ghost use Rattle.taxii_rows.specs.declared.stored_row.StoredRow.{StoredRow as Row};
ghost use Rattle.taxii_rows.specs.StoreState.{dates_of, AscendFrom};
ghost use Rattle.taxii_rows.specs.Keeper.{is_date_in};
ghost use Rattle.taxii_index.specs.Index.{version_key as version_key_of, text_key as text_key_of};
ghost use Rattle.taxii_index.specs.Index.{IsIndexOf, IsIndexBut, IsAbsent, IsBefore, LeadsToSame};
ghost use Rattle.taxii_index.specs.Index.{LeadsToThose, LeadsToObject};
ghost use Rattle.taxii_index.specs.Names.{id_of_number};
ghost use Rattle.taxii_index.specs.Keys.{IsIn64Bits, HasKeys};

use crate::keys::{Key, Keys};
use crate::names::{object_name, parts_name, text_name};
use flow_values::NoMemory;
use std::alloc::Global;
use std::collections::BTreeSet;
use std::collections::btree_set::{Iter, Range};
use taxii_rows::{Described, StoredRow, row_at};

/// Computing and finding the keys of one row costs about as much as scanning the keys of this many
/// rows.
const ROWS_PER_LOOKUP: usize = 16;

/// The keys of some rows: by object and version, and by object and text.
#[derive(Drop)]
pub(crate) struct RowIndex {
    secret: u128,
    by_version: Keys,
    by_text: Keys,
}

impl RowIndex {
    /// The index of no rows, with this key of its hashes. Allocates nothing.
    pub(crate) fn new(alloc: Global, secret: u128) -> RowIndex
        ensures { IsIndexOf [] result }
    {
        RowIndex {
            secret,
            by_version: Keys::new(alloc),
            by_text: Keys::new(alloc),
        }
    }

    /// The index of these rows, built in one pass.
    pub(crate) fn of(alloc: Global, secret: u128, rows: &[StoredRow]) -> Result<RowIndex, NoMemory>
        ensures { IfOk result (IsIndexOf rows.now) }
    {
        let by_version = by_version(alloc, secret, rows)?;
        let by_text = by_text(alloc, secret, rows)?;
        Ok(RowIndex {
            secret,
            by_version,
            by_text,
        })
    }

    /// Adds a row. When out of memory, the index is unchanged.
    pub(crate) fn insert(&mut self, row: &StoredRow) -> Result<(), NoMemory>
        ensures ok { (rows : List Row) → IsIndexOf rows self.old
            → OnOk result (IsIndexOf (rows ++ row.now ∷ []) self.new) }
        ensures err { (rows : List Row) → IsAbsent row.now.date rows → IsIndexOf rows self.old
            → OnErr result (IsIndexOf rows self.new) }
    {
        let key = version_key(self.secret, row);
        self.by_version.insert(key)?;
        let added = self.by_text.insert(text_key(self.secret, row));
        if added.is_err() {
            self.by_version.remove(key);
        }
        added
    }

    /// Removes the last row, if no other row has its date. Allocates nothing; nor do the calls
    /// below.
    pub(crate) fn remove(&mut self, row: &StoredRow)
        ensures { (rows : List Row) → IsAbsent row.now.date rows
            → IsIndexOf (rows ++ row.now ∷ []) self.old → IsIndexOf rows self.new }
    {
        self.by_version.remove(version_key(self.secret, row));
        self.by_text.remove(text_key(self.secret, row));
    }

    /// Removes the rows of these dates: key by key if they are few, by one scan of all keys if they
    /// are many.
    pub(crate) fn remove_dates(&mut self, rows: &[StoredRow], dates: &[u64])
        requires rows { AscendFrom 1 (dates_of rows.now) }
        requires dates { AscendFrom 0 dates.now }
        ensures { IsIndexOf rows.now self.old
            → IsIndexOf (filter (λ row. not (is_date_in dates.now row.date)) rows.now) self.new }
    {
        if dates.len() < rows.len() / ROWS_PER_LOOKUP {
            self.remove_few(rows, dates);
        } else {
            self.remove_many(dates);
        }
    }

    /// Removes the rows of these dates by one scan of all keys. O(n log d) for d dates.
    fn remove_many(&mut self, dates: &[u64])
        requires { AscendFrom 0 dates.now }
        ensures { (rows : List Row) → IsIndexOf rows self.old
            → IsIndexOf (filter (λ row. not (is_date_in dates.now row.date)) rows) self.new }
    {
        self.by_version.remove_dates(dates);
        self.by_text.remove_dates(dates);
    }

    /// Removes the rows of these dates key by key. O(d log n) for d dates.
    fn remove_few(&mut self, rows: &[StoredRow], dates: &[u64])
        requires { AscendFrom 1 (dates_of rows.now) }
        ensures { IsIndexOf rows.now self.old
            → IsIndexOf (filter (λ row. not (is_date_in dates.now row.date)) rows.now) self.new }
    {
        for date in dates {
            self.remove_date(rows, *date);
        }
    }

    fn remove_date(&mut self, rows: &[StoredRow], date: u64)
        requires { AscendFrom 1 (dates_of rows.now) }
        ensures { (gone : List ℕ) → IsIndexBut gone rows.now self.old
            → IsIndexBut (gone ++ date ∷ []) rows.now self.new }
    {
        match row_at(rows, date) {
            Some(row) => self.remove_row(row),
            None => {}
        }
    }

    fn remove_row(&mut self, row: &StoredRow)
        ensures { (gone : List ℕ) (rows : List Row) → AscendFrom 1 (dates_of rows)
            → Contains rows row.now → IsIndexBut gone rows self.old
            → IsIndexBut (gone ++ row.now.date ∷ []) rows self.new }
    {
        self.by_version.remove_one(version_key(self.secret, row));
        self.by_text.remove_one(text_key(self.secret, row));
    }

    /// The keys of all rows that may make the object present in the collection, by date. None is
    /// missed; collisions may add some.
    pub(crate) fn same(&self, collection: u128, object: &Described) -> Range<'_, Key>
        ensures { (rows : List Row) → IsIndexOf rows self.now
            → LeadsToSame collection object.now rows result }
    {
        match object.version {
            Some(version) => {
                let name = object_name(self.secret, collection, &object.id);
                self.by_version.of_number(name, version)
            }
            None => {
                let text = object.body.as_str();
                let name = text_name(self.secret, collection, &object.id, text);
                self.by_text.of_number(name, 0)
            }
        }
    }

    /// The keys of the later versions of the row's object.
    pub(crate) fn later(&self, row: &StoredRow) -> Range<'_, Key>
        ensures { (rows : List Row) → IsIndexOf rows self.now
            → LeadsToThose self.now.secret (IsBefore row.now) row.now rows result }
    {
        self.by_version.after(version_key(self.secret, row))
    }

    /// The keys of the earlier versions of the row's object.
    pub(crate) fn earlier(&self, row: &StoredRow) -> Range<'_, Key>
        ensures { (rows : List Row) → IsIndexOf rows self.now
            → LeadsToThose self.now.secret (λ other. IsBefore other row.now) row.now rows result }
    {
        self.by_version.before(version_key(self.secret, row))
    }

    /// The keys of the rows of the object with this UUID and type.
    pub(crate) fn of_object(&self, collection: u128, number: u128, kind: &str) -> Range<'_, Key>
        ensures { (rows : List Row) → IsIndexOf rows self.now
            → LeadsToObject self.now.secret collection (id_of_number number kind.now) rows result }
    {
        let name = parts_name(self.secret, collection, number, kind);
        self.by_version.after((name, i64::MIN, 0))
    }

    /// All version keys: those of one hash are adjacent, ordered by version.
    pub(crate) fn versions(&self) -> Iter<'_, Key> {
        self.by_version.iter()
    }

    /// The dates of the previous and of the next key of the same hash, or 0 if there is none. The
    /// rows decide whether they belong to the same object.
    pub(crate) fn neighbours(&self, row: &StoredRow) -> (u64, u64) {
        let key = version_key(self.secret, row);
        let mut before = self.by_version.before(key);
        let mut after = self.by_version.after(key);
        (key_date(before.next_back()), key_date(after.next()))
    }
}

/// The date of a key, or 0 if there is none.
fn key_date(key: Option<&Key>) -> u64 {
    match key {
        Some(key) => key.2,
        None => 0,
    }
}

/// The version keys of some rows, in one pass. They are collected straight into the set: a
/// temporary list would leave memory that the process does not return.
fn by_version(alloc: Global, secret: u128, rows: &[StoredRow]) -> Result<Keys, NoMemory>
    ensures keys { IfOk result (λ set. HasKeys (map (version_key_of secret) rows.now) set.keys) }
    ensures bits { IfOk result (λ _. All (λ row. IsIn64Bits (version_key_of secret row)) rows.now) }
{
    let keys: BTreeSet<Key, Global> = rows
        .iter()
        .map(|row| version_key(secret, row))
        .collect(alloc)?;
    Ok(Keys::of(keys))
}

/// The text keys of some rows, likewise.
fn by_text(alloc: Global, secret: u128, rows: &[StoredRow]) -> Result<Keys, NoMemory>
    ensures { IfOk result (λ set. HasKeys (map (text_key_of secret) rows.now) set.keys) }
{
    let keys: BTreeSet<Key, Global> = rows.iter().map(|row| text_key(secret, row)).collect(alloc)?;
    Ok(Keys::of(keys))
}

/// The version key of a row.
fn version_key(secret: u128, row: &StoredRow) -> Key
    ensures key { result ≡ version_key_of secret row.now }
    ensures bits { IsIn64Bits result }
{
    let name = object_name(secret, row.collection, &row.id);
    key_of(name, row.version, row.date)
}

fn key_of(name: u64, number: i64, date: u64) -> Key
    ensures key { result ≡ (name, number, date) }
    ensures bits { IsIn64Bits result }
{
    (name, number, date)
}

/// The text key of a row.
fn text_key(secret: u128, row: &StoredRow) -> Key
    ensures { result ≡ text_key_of secret row.now }
{
    let name = text_name(secret, row.collection, &row.id, row.body.as_str());
    (name, 0, row.date)
}
