ghost use Rattle.std.specs.Prelude.{◌≡◌, ◌↔◌, IsTrue, IfOk};
ghost use Rattle.flow_values.specs.Answers.{FindsExactly};
ghost use Rattle.stix_json.specs.DataOf.{data_of};
ghost use Rattle.stix_json.specs.Ordered.{IsOrdered};
ghost use Rattle.stix_json.specs.Reading.{IsJsonOf};
ghost use Rattle.stix_objects.specs.Properties.{HasId};
ghost use Rattle.taxii_rows.specs.SoundRow.{FitsUnder, Fits, IsRowOf, IsSoundRow};

use crate::laws::one_version;
use crate::{StoredRow, TypeSet, version_of};
use flow_values::NoMemory;
use std::alloc::Global;
use stix_ids::{Id, is_text_of};
use stix_json::{Json, JsonReader, JsonRefusal, text_at, write_json_with_capacity};

/// Whether the row agrees with its body. The body must be the compact text of an ordered JSON
/// object with the row's identifier, and with its version under one of the two sets of observable
/// types. O(n log n) in the length of the body.
pub fn is_sound_row(
    alloc: Global,
    reader: &mut JsonReader,
    row: &StoredRow,
) -> Result<bool, NoMemory>
    ensures { IfOk result (λ sound. IsTrue sound ↔ IsSoundRow row.now) }
{
    match read_body(reader, row)? {
        Some(object) => is_row_of(alloc, row, &object),
        None => Ok(false),
    }
}

/// Whether the row is the one that the object gives.
fn is_row_of(alloc: Global, row: &StoredRow, object: &Json) -> Result<bool, NoMemory>
    requires { IsOrdered (data_of object.now) }
    ensures { IfOk result (λ own. IsTrue own ↔ IsRowOf row.now (data_of object.now)) }
{
    // The writer reserves one byte more than a text has. Without it, the text would move to a
    // buffer of twice its size, half of which would stay unused between the rows that are kept.
    let room = row.body.len().saturating_add(1);
    let text = write_json_with_capacity(alloc, object, room)?;
    let own = has_body(row, text.as_str());
    Ok(own && has_id_and_version(row, object))
}

fn has_body(row: &StoredRow, text: &str) -> bool
    ensures { IsTrue result ↔ (row.now.body ≡ text.now) }
{
    row.body.as_str() == text
}

/// Whether the row has the object's identifier and version.
fn has_id_and_version(row: &StoredRow, object: &Json) -> bool
    ensures { IsTrue result
        ↔ (HasId (data_of object.now) row.now.id × Fits row.now (data_of object.now)) }
{
    has_id(object, &row.id) && fits(row, object)
}

/// The JSON value of the row's body, if it is one.
fn read_body(reader: &mut JsonReader, row: &StoredRow) -> Result<Option<Json>, NoMemory>
    ensures { IfOk result (FindsExactly (IsJsonOf row.now.body)) }
{
    match reader.read(row.body.as_str().as_bytes()) {
        Ok(object) => Ok(Some(object)),
        Err(JsonRefusal::NoMemory) => Err(NoMemory),
        Err(
            JsonRefusal::NotJson
            | JsonRefusal::TooDeep { .. }
            | JsonRefusal::NotWhole { .. }
            | JsonRefusal::Null { .. }
            | JsonRefusal::OutOfRange { .. }
            | JsonRefusal::NotList,
        ) => Ok(None),
    }
}

fn has_id(object: &Json, id: &Id) -> bool
    ensures { IsTrue result ↔ HasId (data_of object.now) id.now }
{
    match text_at(object, "id") {
        Some(text) => is_text_of(id, text),
        None => false,
    }
}

/// Whether the row's version is the object's under one of the two sets.
fn fits(row: &StoredRow, object: &Json) -> bool
    ensures { IsTrue result ↔ Fits row.now (data_of object.now) }
{
    fits_under(TypeSet::First, row, object) || fits_under(TypeSet::Second, row, object)
}

fn fits_under(set: TypeSet, row: &StoredRow, object: &Json) -> bool
    ensures { IsTrue result ↔ FitsUnder set row.now (data_of object.now) }
{
    one_version();
    match (version_of(object, set), row.dated) {
        (Some(version), true) => row.version == version,
        (None, false) => i128::from(row.version) == i128::from(row.date),
        (Some(_), false) | (None, true) => false,
    }
}
