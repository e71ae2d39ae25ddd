ghost use Rattle.std.specs.Prelude.{◌≡◌, ◌↔◌, ℤ, Some, IsTrue, IfSome};
ghost use Rattle.flow_values.specs.Answers.{FindsExactly};
ghost use Rattle.stix_json.specs.DataOf.{data_of};
ghost use Rattle.stix_objects.specs.declared.form.Precision.TheVariants.{Any, Millis};
ghost use Rattle.stix_objects.specs.Form.{timestamp};
ghost use Rattle.stix_objects.specs.Singles.{IsTimestampOf, ChecksTimestamp, ChecksSingle};
ghost use Rattle.stix_objects.specs.Conditions.{SecondIsEarlier, SecondIsNotLater};
ghost use Rattle.stix_objects.specs.Properties.{IsTimestampAt};
ghost use Rattle.stix_objects.specs.inner.InTurn.{AreInTurn};

use crate::Rule;
use crate::form::Precision;
use crate::object::Object;
use stix_json::{Json, text_at, text_of};
use stix_times::laws::{is_before, one_instant};
use stix_times::{Instant, TimeRefusal, read, read_millis};

/// The violation by a value that must be a timestamp, if any.
pub(crate) fn check_timestamp(precision: Precision, value: &Json) -> Option<Rule>
    ensures { ChecksSingle (timestamp precision) (data_of value.now) result }
{
    let Some(text) = text_of(value) else {
        return Some(Rule::WrongKind);
    };
    check_timestamp_text(precision, text)
}

fn check_timestamp_text(precision: Precision, text: &str) -> Option<Rule>
    ensures { ChecksTimestamp precision text.now result }
{
    match precision {
        Precision::Any => check_time(text),
        Precision::Millis => check_millis(text),
    }
}

fn check_time(text: &str) -> Option<Rule>
    ensures { ChecksTimestamp Any text.now result }
{
    match read(text) {
        Ok(_) => None,
        Err(_) => Some(Rule::BadTime),
    }
}

fn check_millis(text: &str) -> Option<Rule>
    ensures { ChecksTimestamp Millis text.now result }
{
    match read_millis(text) {
        Ok(_) => None,
        Err(TimeRefusal::NotMillis) => Some(Rule::NotMillis),
        Err(TimeRefusal::Shape { .. }) => Some(Rule::BadTime),
        Err(TimeRefusal::NoSuchDay) => Some(Rule::BadTime),
        Err(TimeRefusal::TooFine) => Some(Rule::BadTime),
    }
}

/// The instant of a text with this precision.
fn instant_of(precision: Precision, text: &str) -> Option<Instant>
    ensures some { IfSome result (IsTimestampOf precision text.now) }
    ensures only { (instant : ℤ) → IsTimestampOf precision text.now instant
        → result ≡ Some instant }
{
    match precision {
        Precision::Any => time_of(text),
        Precision::Millis => millis_of(text),
    }
}

fn time_of(text: &str) -> Option<Instant>
    ensures some { IfSome result (IsTimestampOf Any text.now) }
    ensures only { (instant : ℤ) → IsTimestampOf Any text.now instant → result ≡ Some instant }
{
    match read(text) {
        Ok(instant) => Some(instant),
        Err(_) => None,
    }
}

fn millis_of(text: &str) -> Option<Instant>
    ensures some { IfSome result (IsTimestampOf Millis text.now) }
    ensures only { (instant : ℤ) → IsTimestampOf Millis text.now instant → result ≡ Some instant }
{
    match read_millis(text) {
        Ok(instant) => Some(instant),
        Err(_) => None,
    }
}

/// The instant of a property with this precision. `None` if it is absent or not such a timestamp.
/// Allocates nothing.
pub fn timestamp_at(object: &Json, precision: Precision, name: &str) -> Option<Instant>
    ensures { FindsExactly (IsTimestampAt precision name.now (data_of object.now)) result }
{
    instant_at(object, precision, name)
}

/// The instant of a property with this precision.
fn instant_at(object: &Json, precision: Precision, name: &str) -> Option<Instant>
    ensures there { IfSome result (IsTimestampAt precision name.now (data_of object.now)) }
    ensures only { (instant : ℤ) → IsTimestampAt precision name.now (data_of object.now) instant
        → result ≡ Some instant }
{
    instant_of(precision, text_at(object, name)?)
}

/// Whether both properties are timestamps, and the second is earlier than the first. A fast path
/// skips parsing if the texts are equal, as they mostly are.
pub(crate) fn second_is_earlier(
    object: &Object<'_>,
    precision: Precision,
    first: &str,
    second: &str,
) -> bool
    ensures { IsTrue result ↔ SecondIsEarlier precision first.now second.now (data_of object.now) }
{
    one_instant();
    let Some(from) = object.text_at(first) else {
        return false;
    };
    match object.text_at(second) {
        Some(to) => from != to && is_text_earlier(precision, to, from),
        None => false,
    }
}

/// Whether both texts are timestamps, and the first is earlier than the second.
fn is_text_earlier(precision: Precision, first: &str, second: &str) -> bool
    ensures { IsTrue result ↔ AreInTurn precision first.now second.now }
{
    let Some(from) = instant_of(precision, first) else {
        return false;
    };
    match instant_of(precision, second) {
        Some(to) => is_before(from, to),
        None => false,
    }
}

/// Whether both properties are timestamps, and the second isn't later than the first.
pub(crate) fn second_is_not_later(
    object: &Object<'_>,
    precision: Precision,
    first: &str,
    second: &str,
) -> bool
    ensures { IsTrue result ↔ SecondIsNotLater precision first.now second.now (data_of object.now) }
{
    let object = object.json();
    let Some(from) = instant_at(object, precision, first) else {
        return false;
    };
    match instant_at(object, precision, second) {
        Some(to) => !is_before(from, to),
        None => false,
    }
}
