//! One step of an object path (STIX 2.1, section 9.7).

ghost use Rattle.std.specs.Prelude.{◌≡◌, ◌↔◌, ◌<◌, ◌≤◌, ◌^◌, None, MatchOption, IfSome, All};
ghost use Rattle.std.specs.Prelude.{Contains, length, option_map, option_to_list, slice_get};
ghost use Rattle.serde_json.specs.Data.{Data};
ghost use Rattle.serde_json.specs.Find.{as_str};
ghost use Rattle.flow_values.specs.Answers.{FindsExactly};
ghost use Rattle.stix_json.specs.DataOf.{data_of};
ghost use Rattle.stix_json.specs.Ordered.{IsOrdered};
ghost use Rattle.stix_bundles.specs.Objects.{data_in};
ghost use Rattle.stix_bundles.specs.Lookup.{ResolvesTo};
ghost use Rattle.match_comparisons.specs.Selection.{RefersTo, LeadsTo, members, StepSelects};
ghost use Rattle.match_comparisons.specs.Selection.{StepReaches};
ghost use Rattle.match_comparisons.specs.inner.PropertyOf.{property_of};

use crate::name::is_reference;
use crate::object::{object_at, value_at};
use pattern_types::Step;
use std::slice;
use stix_bundles::laws::one_meaning;
use stix_bundles::{Bundle, find};
use stix_json::laws::ordered_parts;
use stix_json::{Json, get_ordered, list_of};

/// The values that one step selects from a value, in order. `last` is the last property name before
/// it. Takes no memory.
pub fn selected<'a>(
    bundle: &'a Bundle,
    last: Option<&str>,
    step: &Step,
    value: &'a Json,
) -> &'a [Json]
    requires { IsOrdered (data_of value.now) }
    ensures all { StepSelects (data_in bundle.now) (option_map (λ name. name.now) last.entry)
        step.now (data_of value.now) (data_in result.now) }
    ensures reached { (next : Data) → Contains (data_in result.now) next
        ↔ StepReaches (data_in bundle.now) (option_map (λ name. name.now) last.entry) step.now
        (data_of value.now) next }
    ensures ordered { All IsOrdered (data_in result.now) }
    // The termination measure of a walk counts values below 2^64.
    ensures counted { length result.now < 2 ^ 64 }
{
    one_meaning();
    listed(bundle, last, step, value)
}

/// The values that one step selects, with a shorter contract.
fn listed<'a>(bundle: &'a Bundle, last: Option<&str>, step: &Step, value: &'a Json) -> &'a [Json]
    requires { IsOrdered (data_of value.now) }
    ensures all { StepSelects (data_in bundle.now) (option_map (λ name. name.now) last.entry)
        step.now (data_of value.now) (data_in result.now) }
    ensures ordered { All IsOrdered (data_in result.now) }
    ensures counted { length result.now < 2 ^ 64 }
{
    match step {
        Step::Name(name) => slice_of(named(bundle, last, name.as_str(), value)),
        Step::Place(at) => slice_of(member_at(value, *at)),
        Step::Each => members_of(value),
    }
}

/// An optional value as a slice.
pub(crate) fn slice_of<'a>(found: Option<&'a Json>) -> &'a [Json]
    ensures all { data_in result.now
        ≡ option_to_list (option_map (λ tree. data_of tree.now) found.entry) }
    ensures ordered { IfSome found.entry (λ tree. IsOrdered (data_of tree.now))
        → All IsOrdered (data_in result.now) }
    ensures counted { length result.now ≤ 1 }
{
    match found {
        Some(value) => slice::from_ref(value),
        None => &[],
    }
}

/// The members of a list. Empty for any other value.
fn members_of(value: &Json) -> &[Json]
    ensures all { data_in result.now ≡ members (data_of value.now) }
    ensures ordered { IsOrdered (data_of value.now) → All IsOrdered (data_in result.now) }
    ensures counted { length result.now < 2 ^ 64 }
{
    ordered_parts();
    match list_of(value) {
        Some(items) => {
            let _count = items.len();
            items
        }
        None => &[],
    }
}

/// The member of a list at an index.
fn member_at(value: &Json, at: u32) -> Option<&Json>
    ensures found { option_map (λ tree. data_of tree.now) result
        ≡ slice_get (members (data_of value.now)) at }
    ensures ordered { IsOrdered (data_of value.now)
        → IfSome result (λ tree. IsOrdered (data_of tree.now)) }
{
    value_at(members_of(value), at)
}

/// The value that a property name leads to: of the object itself, or of the object that it refers
/// to.
fn named<'a>(
    bundle: &'a Bundle,
    last: Option<&str>,
    name: &str,
    value: &'a Json,
) -> Option<&'a Json>
    requires { IsOrdered (data_of value.now) }
    ensures found { FindsExactly (LeadsTo (data_in bundle.now)
        (option_map (λ name. name.now) last.entry) name.now (data_of value.now))
        (option_map (λ tree. data_of tree.now) result) }
    ensures ordered { IfSome result (λ tree. IsOrdered (data_of tree.now)) }
{
    one_meaning();
    match get_ordered(value, name) {
        Some(found) => Some(found),
        None => match reference(bundle, last, value) {
            Some(at) => property_at(bundle, at, name),
            None => None,
        },
    }
}

/// The property of the object at this position.
fn property_at<'a>(bundle: &'a Bundle, at: u32, name: &str) -> Option<&'a Json>
    ensures found { option_map (λ tree. data_of tree.now) result
        ≡ property_of (data_in bundle.now) name.now at }
    ensures ordered { IfSome result (λ tree. IsOrdered (data_of tree.now)) }
{
    match object_at(bundle, at) {
        Some(object) => get_ordered(object, name),
        None => None,
    }
}

/// The position of the object that a value refers to, where `last`, the last property name before
/// it, is one of references. Takes no memory.
pub fn reference(bundle: &Bundle, last: Option<&str>, value: &Json) -> Option<u32>
    ensures { FindsExactly (RefersTo (data_in bundle.now)
        (option_map (λ name. name.now) last.entry) (data_of value.now)) result }
{
    one_meaning();
    if is_reference(last) {
        position_of(bundle, value)
    } else {
        None
    }
}

/// The position of the object that a text names.
fn position_of(bundle: &Bundle, value: &Json) -> Option<u32>
    ensures { MatchOption (as_str (data_of value.now)) (result ≡ None)
        (λ text. ResolvesTo (data_in bundle.now) text result) }
{
    match value {
        Json::String(text) => find(bundle, text.as_str()),
        Json::Bool(_) | Json::Integer(_) | Json::Array(_) | Json::Object(_) => None,
    }
}
