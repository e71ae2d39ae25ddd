ghost use Rattle.std.specs.Prelude.{◌≡◌, IfOk};
ghost use Rattle.taxii_rows.specs.Identity.{is_row_of};

use flow_values::{Name, NoMemory, Text};
use std::alloc::Global;
use stix_ids::Id;

/// The latest date of a row, in microseconds since 1970: the last microsecond of the year 9999.
pub const LAST_DATE: u64 = 253_402_300_799_999_999;

/// A row of a store: an object in a collection, and when it was added. The fields are ordered so
/// that the struct has no padding.
#[derive(Drop)]
pub struct StoredRow {
    /// When the object was added, in microseconds since 1970. It is unique in the store.
    pub date: u64,
    /// The object's version in microseconds since 1970, or `date` if the object is undated.
    pub version: i64,
    /// The number of the collection's UUID.
    pub collection: u128,
    /// The object's identifier.
    pub id: Id,
    /// The object as compact JSON.
    pub body: Text,
    /// Whether the object has a version.
    pub dated: bool,
}

impl StoredRow {
    /// Whether this is a row of the object in the collection.
    pub fn is_of(&self, collection: u128, id: &Id) -> bool
        ensures { result ≡ is_row_of collection id.now self.now }
    {
        self.collection == collection
            && self.id.number == id.number
            && self.id.kind.as_str() == id.kind.as_str()
    }

    /// A copy of the row.
    pub fn copy(&self, alloc: Global) -> Result<StoredRow, NoMemory>
        ensures { IfOk result (λ copy. copy ≡ self.now) }
    {
        let kind = Name::from_text(alloc, self.id.kind.as_str())?;
        let body = Text::from_text(alloc, self.body.as_str())?;
        Ok(StoredRow {
            date: self.date,
            collection: self.collection,
            id: Id {
                kind,
                number: self.id.number,
            },
            version: self.version,
            dated: self.dated,
            body,
        })
    }
}
