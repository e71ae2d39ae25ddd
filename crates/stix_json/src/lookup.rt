//! Lookup of a field by name: a linear search in any object, a binary search in an ordered one.
//! Both return the same value, since the names of an ordered object are unique.

ghost use Rattle.std.specs.Prelude.{◌≡◌, bytes_eq, None, IfSome, IfNone, map, option_map};
ghost use Rattle.serde_json.specs.Find.{get_member, get as member_of};
ghost use Rattle.stix_json.specs.DataOf.{data_of, field_data, members_of};
ghost use Rattle.stix_json.specs.Ordered.{IsOrdered, MembersAreOrdered};
ghost use Rattle.stix_json.specs.inner.Naming.{IsFieldAt};

use crate::{Field, Json};

/// The value of the first field of this name. `None` if there is none, or the value isn't an
/// object. Linear in the number of fields.
pub fn get<'a>(json: &'a Json, name: &str) -> Option<&'a Json>
    ensures { option_map (λ value. data_of value.now) result
        ≡ member_of name.now (data_of json.now) }
{
    match json {
        Json::Object(fields) => first_named(fields.as_slice(), name),
        Json::Bool(_) | Json::Integer(_) | Json::String(_) | Json::Array(_) => None,
    }
}

/// The value of the field of this name in an ordered value, by binary search. Logarithmic in the
/// number of fields; `is_ordered` checks the precondition.
pub fn get_ordered<'a>(json: &'a Json, name: &str) -> Option<&'a Json>
    // Binary search needs sorted and unique names.
    requires ordered { IsOrdered (data_of json.now) }
    ensures value { option_map (λ value. data_of value.now) result
        ≡ member_of name.now (data_of json.now) }
    ensures ordered { IfSome result (λ value. IsOrdered (data_of value.now)) }
{
    match json {
        Json::Object(fields) => named_in_order(fields.as_slice(), name),
        Json::Bool(_) | Json::Integer(_) | Json::String(_) | Json::Array(_) => None,
    }
}

/// Moves the value of the first field of this name out of an object, like `get`. Linear in the
/// number of fields.
pub fn take(json: Json, name: &str) -> Option<Json>
    ensures { option_map data_of result ≡ member_of name.now (data_of json) }
{
    match json {
        Json::Object(fields) => take_first_named(fields.into_vec(), name),
        Json::Bool(_) | Json::Integer(_) | Json::String(_) | Json::Array(_) => None,
    }
}

fn first_named<'a>(fields: &'a [Field], name: &str) -> Option<&'a Json>
    ensures { option_map (λ value. data_of value.now) result
        ≡ get_member name.now (members_of (map field_data fields.now)) }
{
    for field in fields {
        if is_named(field, name) {
            return Some(&field.value);
        }
    }
    None
}

/// Whether the field has this name. Compares the lengths first, since most names differ in length.
fn is_named(field: &Field, name: &str) -> bool
    ensures { result ≡ bytes_eq field.now.name name.now }
{
    let own = field.name.as_str();
    own.len() == name.len() && own == name
}

fn named_in_order<'a>(fields: &'a [Field], name: &str) -> Option<&'a Json>
    requires { MembersAreOrdered (members_of (map field_data fields.now)) }
    ensures value { option_map (λ value. data_of value.now) result
        ≡ get_member name.now (members_of (map field_data fields.now)) }
    ensures ordered { IfSome result (λ value. IsOrdered (data_of value.now)) }
{
    let at = sorted_index_of(fields, name)?;
    Some(&fields[at].value)
}

/// The index of the field of this name, by binary search among fields sorted by name.
fn sorted_index_of(fields: &[Field], name: &str) -> Option<usize>
    requires { MembersAreOrdered (members_of (map field_data fields.now)) }
    ensures some { IfSome result (λ at. IsFieldAt name.now fields.now at) }
    ensures none { IfNone result (get_member name.now (members_of (map field_data fields.now))
        ≡ None) }
{
    match fields.binary_search_by(|field| field.name.as_str().cmp(name)) {
        Ok(at) => Some(at),
        Err(_) => None,
    }
}

fn take_first_named(fields: Vec<Field>, name: &str) -> Option<Json>
    ensures { option_map data_of result
        ≡ get_member name.now (members_of (map field_data fields.items)) }
{
    let at = index_of(&fields, name)?;
    let mut fields = fields;
    let field = fields.swap_remove(at);
    Some(field.value)
}

/// The index of the first field of this name. Linear in the number of fields.
fn index_of(fields: &[Field], name: &str) -> Option<usize>
    ensures some { IfSome result (λ at. IsFieldAt name.now fields.now at) }
    ensures none { IfNone result (get_member name.now (members_of (map field_data fields.now))
        ≡ None) }
{
    for at in 0..fields.len() {
        if is_named(&fields[at], name) {
            return Some(at);
        }
    }
    None
}
