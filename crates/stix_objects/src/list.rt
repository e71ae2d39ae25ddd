ghost use Rattle.std.specs.Prelude.{option_map, map};
ghost use Rattle.serde_json.specs.View.{items_of};
ghost use Rattle.stix_json.specs.DataOf.{data_of};
ghost use Rattle.stix_objects.specs.Form.{list};
ghost use Rattle.stix_objects.specs.Forms.{ChecksHere, ChecksItems, ChecksList, ChecksForm};
ghost use Rattle.stix_objects.specs.inner.Views.{single_view, form_view, value_break_view};

use crate::Rule;
use crate::form::{Form, Single};
use crate::records::check_records;
use crate::row_break::{ItemBreak, ValueBreak};
use crate::single::check_single;
use stix_json::Json;

/// The violation of a form by a property's value, if any.
pub(crate) fn check_form(form: &Form, value: &Json) -> Option<ValueBreak>
    ensures { ChecksForm (form_view form.now) (data_of value.now)
        (option_map value_break_view result) }
{
    match form {
        Form::One(single) => check_here(single, value),
        Form::List(single) => check_list(single, value),
        Form::Records(parts) => check_records(parts, value),
    }
}

fn check_here(single: &Single, value: &Json) -> Option<ValueBreak>
    ensures { ChecksHere (single_view single.now) (data_of value.now)
        (option_map value_break_view result) }
{
    match check_single(single, value) {
        Some(rule) => Some(ValueBreak::here(rule)),
        None => None,
    }
}

fn check_list(single: &Single, value: &Json) -> Option<ValueBreak>
    ensures { ChecksForm (list (single_view single.now)) (data_of value.now)
        (option_map value_break_view result) }
{
    let Json::Array(items) = value else {
        return Some(ValueBreak::here(Rule::WrongKind));
    };
    check_filled(single, items.as_slice())
}

/// The violation by a list that must not be empty, if any.
pub(crate) fn check_filled(single: &Single, items: &[Json]) -> Option<ValueBreak>
    ensures { ChecksList (ChecksHere (single_view single.now)) (items_of (map data_of items.now))
        (option_map value_break_view result) }
{
    if items.is_empty() {
        return Some(ValueBreak::here(Rule::EmptyList));
    }
    first_broken(single, items)
}

/// The violation by the first invalid item, if any.
fn first_broken(single: &Single, items: &[Json]) -> Option<ValueBreak>
    ensures { ChecksItems (ChecksHere (single_view single.now)) 0 (items_of (map data_of items.now))
        (option_map value_break_view result) }
{
    for (at, item) in items.iter().enumerate() {
        if let Some(rule) = check_single(single, item) {
            return Some(ItemBreak { rule, part: None }.in_item(at));
        }
    }
    None
}
