ghost use Rattle.std.specs.Prelude.{◌≡◌, ◌↔◌, IsTrue, map};
ghost use Rattle.stix_json.specs.DataOf.{data_of, field_data};

use stix_json::{Field, Json};

/// Whether two JSON values are equal.
#[cycle(same)]
pub(crate) fn is_same(first: &Json, second: &Json) -> bool
    ensures { IsTrue result ↔ (data_of first.now ≡ data_of second.now) }
{
    match (first, second) {
        (Json::Bool(first), Json::Bool(second)) => first == second,
        (Json::Integer(first), Json::Integer(second)) => first == second,
        (Json::String(first), Json::String(second)) => first.as_str() == second.as_str(),
        (Json::Array(first), Json::Array(second)) => {
            are_same_items(first.as_slice(), second.as_slice())
        }
        (Json::Object(first), Json::Object(second)) => {
            are_same_fields(first.as_slice(), second.as_slice())
        }
        (
            Json::Bool(_) | Json::Integer(_) | Json::String(_) | Json::Array(_) | Json::Object(_),
            _,
        ) => { false }
    }
}

/// Whether two lists have equal items.
#[cycle(same)]
fn are_same_items(first: &[Json], second: &[Json]) -> bool
    ensures { IsTrue result ↔ (map data_of first.now ≡ map data_of second.now) }
{
    if first.len() != second.len() {
        return false;
    }
    for (at, item) in first.iter().enumerate() {
        if !is_same(item, &second[at]) {
            return false;
        }
    }
    true
}

/// Whether two objects have equal fields, in order.
#[cycle(same)]
fn are_same_fields(first: &[Field], second: &[Field]) -> bool
    ensures { IsTrue result ↔ (map field_data first.now ≡ map field_data second.now) }
{
    if first.len() != second.len() {
        return false;
    }
    for (at, field) in first.iter().enumerate() {
        if !is_same_field(field, &second[at]) {
            return false;
        }
    }
    true
}

#[cycle(same)]
fn is_same_field(first: &Field, second: &Field) -> bool
    ensures { IsTrue result ↔ (field_data first.now ≡ field_data second.now) }
{
    first.name.as_str() == second.name.as_str() && is_same(&first.value, &second.value)
}
