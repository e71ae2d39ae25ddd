ghost use Rattle.std.specs.Prelude.{◌≡◌, ◌≤◌, ℕ, None, Ok, IfOk, IfSome};
ghost use Rattle.stix_ids.specs.declared.id.Id.{Id as Identifier};
ghost use Rattle.stix_json.specs.DataOf.{data_of};
ghost use Rattle.stix_json.specs.Ordered.{IsOrdered};
ghost use Rattle.stix_json.specs.Refusal.{data_refusal};
ghost use Rattle.stix_objects.specs.Properties.{HasId};
ghost use Rattle.taxii_rows.specs.Described.{Describes, stored_row_of};
ghost use Rattle.taxii_rows.specs.SoundRow.{IsSoundRow};

use crate::{LAST_DATE, StoredRow, TypeSet, version_of};
use flow_values::{Name, NoMemory, Text};
use std::alloc::Global;
use stix_ids::Id;
use stix_json::{Json, write_json};
use stix_objects::object_id;

/// The parts of an object that a store keeps.
#[derive(Drop)]
pub struct Described {
    /// The object's identifier.
    pub id: Id,
    /// The object's version in microseconds since 1970; `None` if the object is undated.
    pub version: Option<i64>,
    /// The object as compact JSON.
    pub body: Text,
}

/// Extracts the parts that a store keeps. `None`, without allocating, if the object has no
/// identifier. The row made of them is sound if the object is within the limits of JSON.
pub fn describe(alloc: Global, object: &Json) -> Result<Option<Described>, NoMemory>
    requires ordered { IsOrdered (data_of object.now) }
    ensures described { IfOk result (Describes (data_of object.now)) }
    ensures unnamed { ((id : Identifier) → ¬ HasId (data_of object.now) id) → result ≡ Ok None }
    // `refusal_of .. ≡ None` means that the reader accepts the object
    ensures sound { IfOk result
        (λ found. IfSome found (λ described. data_refusal (data_of object.now) ≡ None
        → (date collection : ℕ) → IsSoundRow (stored_row_of described date collection))) }
{
    let Some(parts) = object_id(object) else {
        return Ok(None);
    };
    let kind = Name::from_text(alloc, parts.kind)?;
    let body = write_json(alloc, object)?;
    Ok(Some(Described {
        id: Id {
            kind,
            number: parts.number,
        },
        version: version_of(object, TypeSet::Second),
        body,
    }))
}

impl Described {
    /// The row of the object, added to a collection at `date`. The version of an undated object is
    /// that date.
    pub fn into_row(self, date: u64, collection: u128) -> StoredRow
        requires { date ≤ LAST_DATE }
        ensures { result ≡ stored_row_of self date collection }
    {
        let dated = self.version.is_some();
        let version = self.version.unwrap_or(date as i64);
        StoredRow {
            date,
            collection,
            id: self.id,
            version,
            dated,
            body: self.body,
        }
    }
}
