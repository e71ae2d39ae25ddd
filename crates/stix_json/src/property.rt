ghost use Rattle.std.specs.Prelude.{◌≡◌, map, option_map};
ghost use Rattle.serde_json.specs.Find.{as_str, as_array};
ghost use Rattle.serde_json.specs.View.{items_of};
ghost use Rattle.stix_json.specs.DataOf.{data_of};
ghost use Rattle.stix_json.specs.Properties.{property_text as text_under, list_at as list_under};

use crate::{Json, get};

/// The text of a string value. The functions of this module allocate nothing.
pub fn text_of(value: &Json) -> Option<&str>
    ensures { option_map (λ text. text.now) result ≡ as_str (data_of value.now) }
{
    match value {
        Json::String(text) => Some(text.as_str()),
        Json::Bool(_) | Json::Integer(_) | Json::Array(_) | Json::Object(_) => None,
    }
}

/// The items of a list value.
pub fn list_of(value: &Json) -> Option<&[Json]>
    ensures { option_map (λ items. items_of (map data_of items.now)) result
        ≡ as_array (data_of value.now) }
{
    match value {
        Json::Array(items) => Some(items.as_slice()),
        Json::Bool(_) | Json::Integer(_) | Json::String(_) | Json::Object(_) => None,
    }
}

/// The text of a property. `None` if the property is absent or isn't a string, or the value isn't
/// an object.
pub fn text_at<'a>(object: &'a Json, name: &str) -> Option<&'a str>
    ensures { option_map (λ text. text.now) result ≡ text_under name.now (data_of object.now) }
{
    text_of(get(object, name)?)
}

/// The items of a property. `None` if the property is absent or isn't a list, or the value isn't an
/// object.
pub fn list_at<'a>(object: &'a Json, name: &str) -> Option<&'a [Json]>
    ensures { option_map (λ items. items_of (map data_of items.now)) result
        ≡ list_under name.now (data_of object.now) }
{
    list_of(get(object, name)?)
}
