ghost use Rattle.std.specs.Prelude.{◌≡◌, ◌↔◌, ℕ, List, IsTrue, map};
ghost use Rattle.stix_json.specs.DataOf.{data_of, field_data, members_of};
ghost use Rattle.stix_objects.specs.Form.{any_text, kind as kind_form, version as version_form};
ghost use Rattle.stix_objects.specs.Form.{one_of, any_boolean, integer_in, object, texts_by_name};
ghost use Rattle.stix_objects.specs.Singles.{AreTexts, ChecksTexts, ChecksSingle};
ghost use Rattle.stix_objects.specs.inner.Views.{single_view};

use crate::Rule;
use crate::form::Single;
use crate::identifier::{check_any_reference, check_reference};
use crate::timestamp::check_timestamp;
use stix_ids::read_kind;
use stix_json::{Field, Json, text_of};

/// The violation of a type by a value, if any.
pub(crate) fn check_single(single: &Single, value: &Json) -> Option<Rule>
    ensures { ChecksSingle (single_view single.now) (data_of value.now) result }
{
    match single {
        Single::Text => check_text(value),
        Single::Kind => check_kind(value),
        Single::Version => check_version(value),
        Single::Word(known) => check_word(known, value),
        Single::Timestamp(precision) => check_timestamp(*precision, value),
        Single::AnyRef => check_any_reference(value),
        Single::Ref(kinds) => check_reference(kinds, value),
        Single::Boolean => check_boolean(value),
        Single::Integer(least, most) => check_integer(*least, *most, value),
        Single::Object => check_object(value),
        Single::Hashes => check_hashes(value),
    }
}

fn check_text(value: &Json) -> Option<Rule>
    ensures { ChecksSingle any_text (data_of value.now) result }
{
    match text_of(value) {
        Some(_) => None,
        None => Some(Rule::WrongKind),
    }
}

fn check_kind(value: &Json) -> Option<Rule>
    ensures { ChecksSingle kind_form (data_of value.now) result }
{
    let Some(text) = text_of(value) else {
        return Some(Rule::WrongKind);
    };
    match read_kind(text) {
        Ok(()) => None,
        Err(_) => Some(Rule::BadWord),
    }
}

fn check_version(value: &Json) -> Option<Rule>
    ensures { ChecksSingle version_form (data_of value.now) result }
{
    let Some(text) = text_of(value) else {
        return Some(Rule::WrongKind);
    };
    if text == "2.1" {
        None
    } else {
        Some(Rule::BadSpec)
    }
}

fn check_word(known: &[&str], value: &Json) -> Option<Rule>
    ensures { ChecksSingle (one_of (map (λ word. word.now) known.now)) (data_of value.now) result }
{
    let Some(text) = text_of(value) else {
        return Some(Rule::WrongKind);
    };
    if known.contains(&text) {
        None
    } else {
        Some(Rule::BadWord)
    }
}

fn check_boolean(value: &Json) -> Option<Rule>
    ensures { ChecksSingle any_boolean (data_of value.now) result }
{
    match value {
        Json::Bool(_) => None,
        Json::Integer(_) | Json::String(_) | Json::Array(_) | Json::Object(_) => Some(
            Rule::WrongKind,
        ),
    }
}

fn check_integer(least: i64, most: i64, value: &Json) -> Option<Rule>
    ensures { ChecksSingle (integer_in least most) (data_of value.now) result }
{
    let Json::Integer(integer) = value else {
        return Some(Rule::WrongKind);
    };
    if *integer < least || *integer > most {
        return Some(Rule::OutOfRange);
    }
    None
}

fn check_object(value: &Json) -> Option<Rule>
    ensures { ChecksSingle object (data_of value.now) result }
{
    match value {
        Json::Object(_) => None,
        Json::Bool(_) | Json::Integer(_) | Json::String(_) | Json::Array(_) => Some(
            Rule::WrongKind,
        ),
    }
}

fn check_hashes(value: &Json) -> Option<Rule>
    ensures { ChecksSingle texts_by_name (data_of value.now) result }
{
    match value {
        Json::Object(hashes) => check_texts(hashes.as_slice()),
        Json::Bool(_) | Json::Integer(_) | Json::String(_) | Json::Array(_) => Some(
            Rule::WrongKind,
        ),
    }
}

/// The violation by the members of an object of hashes, if any.
fn check_texts(fields: &[Field]) -> Option<Rule>
    ensures { ChecksTexts (members_of (map field_data fields.now)) result }
{
    if !are_texts(fields) {
        return Some(Rule::WrongKind);
    }
    if fields.is_empty() {
        return Some(Rule::EmptyList);
    }
    None
}

/// Whether each value is a text.
fn are_texts(fields: &[Field]) -> bool
    ensures { IsTrue result ↔ AreTexts (members_of (map field_data fields.now)) }
{
    for field in fields {
        if text_of(&field.value).is_none() {
            return false;
        }
    }
    true
}
