ghost use Rattle.std.specs.Prelude.{◌≡◌, ◌↔◌, IsTrue, Any, All, codes};
ghost use Rattle.stix_json.specs.DataOf.{data_of};
ghost use Rattle.stix_json.specs.Ordered.{IsOrdered};
ghost use Rattle.stix_bundles.specs.Objects.{data_in};
ghost use Rattle.stix_versions.specs.Markings.{HasProperty, HasOne, RefersToMarking, IsBreakOf};
ghost use Rattle.stix_versions.specs.inner.Selectors.{IsSelectorText, Misses, IsWellNamed};
ghost use Rattle.stix_versions.specs.inner.Selectors.{IsListAt};

use crate::MarkingRule;
use crate::selector::{is_selector, selected};
use stix_ids::is_of_kind;
use stix_json::{Json, get, list_at, text_at};

/// The first rule that a marking of the object breaks.
pub(crate) fn broken_rule(object: &Json, marking: &Json) -> Option<MarkingRule>
    requires { IsOrdered (data_of object.now) }
    ensures { IsBreakOf (data_of object.now) (data_of marking.now) result }
{
    if !has_one(marking) {
        return Some(MarkingRule::MarkingOrLang);
    }
    if has(marking, "marking_ref") && !refers_to_marking(marking) {
        return Some(MarkingRule::BadMarkingRef);
    }
    broken_by_selectors(object, marking)
}

/// Whether exactly one of `marking_ref` and `lang` is present.
fn has_one(marking: &Json) -> bool
    ensures { IsTrue result ↔ HasOne (data_of marking.now) }
{
    has(marking, "marking_ref") != has(marking, "lang")
}

/// Whether the property is present.
fn has(object: &Json, name: &str) -> bool
    ensures { IsTrue result ↔ HasProperty name.now (data_of object.now) }
{
    get(object, name).is_some()
}

/// Whether `marking_ref` is the identifier of a marking-definition.
fn refers_to_marking(marking: &Json) -> bool
    ensures { IsTrue result ↔ RefersToMarking (data_of marking.now) }
{
    match text_at(marking, "marking_ref") {
        Some(text) => is_of_kind(text, "marking-definition"),
        None => false,
    }
}

/// The first rule that the selectors of a marking break. The marking names one marking or language.
fn broken_by_selectors(object: &Json, marking: &Json) -> Option<MarkingRule>
    requires named { IsWellNamed (data_of marking.now) }
    requires ordered { IsOrdered (data_of object.now) }
    ensures { IsBreakOf (data_of object.now) (data_of marking.now) result }
{
    let Some(selectors) = list_at(marking, "selectors") else {
        return Some(MarkingRule::BadSelector);
    };
    broken_in_list(object, marking, selectors)
}

/// The first rule that these selectors break.
fn broken_in_list(object: &Json, marking: &Json, selectors: &[Json]) -> Option<MarkingRule>
    requires named { IsWellNamed (data_of marking.now) }
    requires ordered { IsOrdered (data_of object.now) }
    requires listed { IsListAt (codes "selectors") (data_of marking.now) (data_in selectors.now) }
    ensures { IsBreakOf (data_of object.now) (data_of marking.now) result }
{
    if selectors.is_empty() || !are_selectors(selectors) {
        return Some(MarkingRule::BadSelector);
    }
    if misses_one(object, selectors) {
        return Some(MarkingRule::SelectorMissing);
    }
    None
}

/// Whether each of the values is the text of a selector.
fn are_selectors(values: &[Json]) -> bool
    ensures { IsTrue result ↔ All (λ value. IsSelectorText (data_of value)) values.now }
{
    values.iter().all(|value| is_selector_text(value))
}

fn is_selector_text(value: &Json) -> bool
    ensures { IsTrue result ↔ IsSelectorText (data_of value.now) }
{
    match value {
        Json::String(text) => is_selector(text.as_str()),
        Json::Bool(_) | Json::Integer(_) | Json::Array(_) | Json::Object(_) => false,
    }
}

/// Whether one of the values is a selector that selects nothing in the object.
fn misses_one(object: &Json, values: &[Json]) -> bool
    requires { IsOrdered (data_of object.now) }
    ensures { IsTrue result ↔ Any (λ value. Misses (data_of object.now) (data_of value))
        values.now }
{
    values.iter().any(|value| misses(object, value))
}

fn misses(object: &Json, value: &Json) -> bool
    requires { IsOrdered (data_of object.now) }
    ensures { IsTrue result ↔ Misses (data_of object.now) (data_of value.now) }
{
    match value {
        Json::String(text) => is_selector(text.as_str())
            && selected(text.as_str(), object).is_none(),
        Json::Bool(_) | Json::Integer(_) | Json::Array(_) | Json::Object(_) => false,
    }
}
