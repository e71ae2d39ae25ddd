ghost use Rattle.std.specs.Prelude.{◌≡◌};
ghost use Rattle.taxii_index.specs.Presence.{agrees as agree, is_duplicate as is_present};

use taxii_rows::{Described, StoredRow};

/// Whether the row makes the object present in the collection.
pub(crate) fn is_duplicate(collection: u128, object: &Described, row: &StoredRow) -> bool
    ensures { result ≡ is_present collection object.now row.now }
{
    row.is_of(collection, &object.id) && agrees(object, row)
}

/// Whether the row has the object's version, or its text if the object is undated.
fn agrees(object: &Described, row: &StoredRow) -> bool
    ensures { result ≡ agree object.now.version object.now.body row.now }
{
    match object.version {
        Some(version) => row.dated && row.version == version,
        None => row.body.as_str() == object.body.as_str(),
    }
}
