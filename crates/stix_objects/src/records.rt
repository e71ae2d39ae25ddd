ghost use Rattle.std.specs.Prelude.{◌↔◌, IsTrue, option_map, map};
ghost use Rattle.serde_json.specs.View.{items_of};
ghost use Rattle.stix_json.specs.DataOf.{data_of};
ghost use Rattle.stix_objects.specs.Form.{records};
ghost use Rattle.stix_objects.specs.Forms.{ChecksHere, ChecksItems, LacksAll, ChecksUnder};
ghost use Rattle.stix_objects.specs.Forms.{ChecksPart, ChecksParts, ChecksForm};
ghost use Rattle.stix_objects.specs.inner.Views.{single_view, part_view, item_break_view};
ghost use Rattle.stix_objects.specs.inner.Views.{value_break_view};

use crate::Rule;
use crate::form::{Part, Single};
use crate::list::check_filled;
use crate::object::Object;
use crate::row_break::{ItemBreak, ValueBreak};
use crate::single::check_single;
use stix_json::Json;

/// The violation by a value that must be a list of objects with these parts.
pub(crate) fn check_records(parts: &[Part], value: &Json) -> Option<ValueBreak>
    ensures { ChecksForm (records (map part_view parts.now)) (data_of value.now)
        (option_map value_break_view result) }
{
    let Json::Array(items) = value else {
        return Some(ValueBreak::here(Rule::WrongKind));
    };
    match check_filled(&Single::Object, items.as_slice()) {
        Some(value_break) => Some(value_break),
        None => first_broken_record(parts, items.as_slice()),
    }
}

/// The violation by the first object that lacks or breaks a part.
fn first_broken_record(parts: &[Part], items: &[Json]) -> Option<ValueBreak>
    ensures { ChecksItems (ChecksParts (map part_view parts.now)) 0
        (items_of (map data_of items.now))
        (option_map value_break_view result) }
{
    for (at, item) in items.iter().enumerate() {
        if let Some(item_break) = check_parts(parts, &Object::new(item)) {
            return Some(item_break.in_item(at));
        }
    }
    None
}

/// The violation of the first part that an object breaks.
fn check_parts(parts: &[Part], object: &Object<'_>) -> Option<ItemBreak>
    ensures { ChecksParts (map part_view parts.now) (data_of object.now)
        (option_map item_break_view result) }
{
    for part in parts {
        if let Some(item_break) = check_part(part, object) {
            return Some(item_break);
        }
    }
    None
}

fn check_part(part: &Part, object: &Object<'_>) -> Option<ItemBreak>
    ensures { ChecksPart (part_view part.now) (data_of object.now)
        (option_map item_break_view result) }
{
    match part {
        Part::Must(name, single) => match object.get(name) {
            Some(value) => check_in(name, single, value),
            None => Some(ItemBreak {
                rule: Rule::Missing,
                part: Some(name),
            }),
        },
        Part::May(name, single) => match object.get(name) {
            Some(value) => check_in(name, single, value),
            None => None,
        },
        Part::SomeOf(names) => {
            if lacks_all(object, names) {
                Some(ItemBreak {
                    rule: Rule::NeedsOneOf,
                    part: None,
                })
            } else {
                None
            }
        }
    }
}

/// The violation by the value of a part.
fn check_in(name: &'static str, single: &Single, value: &Json) -> Option<ItemBreak>
    ensures { ChecksUnder name.now (ChecksHere (single_view single.now) (data_of value.now))
        (option_map item_break_view result) }
{
    match check_single(single, value) {
        Some(rule) => Some(ItemBreak {
            rule,
            part: Some(name),
        }),
        None => None,
    }
}

/// Whether none of the properties is present.
pub(crate) fn lacks_all(object: &Object<'_>, names: &[&str]) -> bool
    ensures { IsTrue result ↔ LacksAll (map (λ name. name.now) names.now) (data_of object.now) }
{
    for name in names {
        if object.get(name).is_some() {
            return false;
        }
    }
    true
}
