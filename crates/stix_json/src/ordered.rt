ghost use Rattle.std.specs.Prelude.{◌≡◌, ◌↔◌, ◌+◌, ◌<◌, IsTrue, length, map, drop, Some, slice_get};
ghost use Rattle.serde_json.specs.View.{items_of};
ghost use Rattle.stix_json.specs.declared.value.Field.{Field};
ghost use Rattle.stix_json.specs.DataOf.{data_of, field_data, members_of};
ghost use Rattle.stix_json.specs.Ordered.{IsNameBefore, IsOrdered, ItemsAreOrdered};
ghost use Rattle.stix_json.specs.Ordered.{MembersAreOrdered};

use crate::{Field, Json};

/// Whether the names of each object in the value are strictly ascending by their bytes, as they are
/// after `read_json`. Allocates nothing.
#[cycle(ordered)]
pub fn is_ordered(value: &Json) -> bool
    ensures { IsTrue result ↔ IsOrdered (data_of value.now) }
{
    match value {
        Json::Bool(_) | Json::Integer(_) | Json::String(_) => true,
        Json::Array(items) => are_ordered_items(items.as_slice()),
        Json::Object(fields) => are_ordered_fields(fields.as_slice()),
    }
}

#[cycle(ordered)]
fn are_ordered_items(items: &[Json]) -> bool
    ensures { IsTrue result ↔ ItemsAreOrdered (items_of (map data_of items.now)) }
{
    for item in items {
        if !is_ordered(item) {
            return false;
        }
    }
    true
}

#[cycle(ordered)]
fn are_ordered_fields(fields: &[Field]) -> bool
    ensures { IsTrue result ↔ MembersAreOrdered (members_of (map field_data fields.now)) }
{
    for (at, field) in fields.iter().enumerate() {
        if !is_before_next(fields, at) || !is_ordered(&field.value) {
            return false;
        }
    }
    true
}

/// Whether the name at an index is less than the next one, if any.
fn is_before_next(fields: &[Field], at: usize) -> bool
    requires { at < length fields.now }
    ensures { (field : Field) → slice_get fields.now at ≡ Some field
        → IsTrue result ↔ IsNameBefore field.name
        (members_of (map field_data (drop (at + 1) fields.now))) }
{
    match fields.get(at + 1) {
        Some(next) => fields[at].name.as_str() < next.name.as_str(),
        None => true,
    }
}
