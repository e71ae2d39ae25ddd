ghost use Rattle.std.specs.Prelude.{◌≡◌, IfOk, map};
ghost use Rattle.serde_json.specs.Written.{compact_text};
ghost use Rattle.stix_json.specs.DataOf.{data_of};
ghost use Rattle.taxii_bodies.specs.Collections.{collection_data, collections_data, has_name};

use crate::fields::Fields;
use flow_values::{Items, NoMemory, Text};
use std::alloc::Global;
use stix_ids::write_uuid;
use stix_json::{Json, write_json};

/// The media type of the objects in a collection.
pub(crate) const STIX_MEDIA_TYPE: &str = "application/stix+json;version=2.1";

/// The description of a collection (section 5.2.1).
#[derive(Drop)]
pub struct CollectionInfo {
    /// Its UUID as a number.
    pub id: u128,
    /// Its title.
    pub title: Text,
    /// Whether clients may read its objects.
    pub can_read: bool,
    /// Whether clients may add objects.
    pub can_write: bool,
}

impl CollectionInfo {
    /// Whether the text is the collection's UUID, in hexadecimal digits of either case. Allocates
    /// nothing.
    pub fn is_named(&self, text: &str) -> bool
        ensures { result ≡ has_name text.now self.now }
    {
        let mut buffer = [0; 36];
        text.eq_ignore_ascii_case(write_uuid(self.id, &mut buffer))
    }
}

/// The body of a collection resource (section 5.2.1).
pub fn collection_body(alloc: Global, info: &CollectionInfo) -> Result<Text, NoMemory>
    ensures { IfOk result (λ text. text ≡ compact_text (collection_data info.now)) }
{
    let collection = collection_value(alloc, info)?;
    write_json(alloc, &collection)
}

/// The body of the collections resource, in this order (section 5.1.1).
pub fn collections_body(alloc: Global, infos: &[CollectionInfo]) -> Result<Text, NoMemory>
    ensures { IfOk result (λ text. text ≡ compact_text (collections_data infos.now)) }
{
    let values = collection_values(alloc, infos)?;
    let mut collections = Fields::new(alloc);
    collections.add_list("collections", values)?;
    collections.into_text()
}

fn collection_values(alloc: Global, infos: &[CollectionInfo]) -> Result<Items<Json>, NoMemory>
    ensures { IfOk result (λ values. map data_of values ≡ map collection_data infos.now) }
{
    let mut values = Items::with_capacity(alloc, infos.len())?;
    for info in infos {
        values.push(collection_value(alloc, info)?)?;
    }
    Ok(values)
}

fn collection_value(alloc: Global, info: &CollectionInfo) -> Result<Json, NoMemory>
    ensures { IfOk result (λ value. data_of value ≡ collection_data info.now) }
{
    let mut buffer = [0; 36];
    let mut collection = Fields::new(alloc);
    collection.add_truth("can_read", info.can_read)?;
    collection.add_truth("can_write", info.can_write)?;
    collection.add_text("id", write_uuid(info.id, &mut buffer))?;
    collection.add_one_text("media_types", STIX_MEDIA_TYPE)?;
    collection.add_text("title", info.title.as_str())?;
    Ok(collection.into_object())
}
