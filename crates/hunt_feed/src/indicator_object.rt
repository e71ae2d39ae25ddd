//! The properties of an indicator that breaks no rule of its type.

ghost use Rattle.std.specs.Prelude.{◌≡◌, ◌≢◌, ◌↔◌, ℤ, [], IsTrue, IfOk, Some, codes};
ghost use Rattle.stix_json.specs.DataOf.{data_of};
ghost use Rattle.stix_json.specs.Properties.{property_text as text_under};
ghost use Rattle.stix_objects.specs.Breaks.{AreBreaksOf};
ghost use Rattle.stix_objects.specs.Properties.{IsTimestampAt, HasId};
ghost use Rattle.hunt_feed.specs.Indicators.{Revokes, IsStixIndicator};
ghost use Rattle.hunt_feed.specs.declared.kept.KeptPattern.TheVariants.{Dropped};
ghost use Rattle.hunt_feed.specs.Gathering.{IsKeptAs, indicator_id};
ghost use Rattle.hunt_feed.specs.inner.Adding.{IsIndicator, HasFields, IsIndicatorVersion};
ghost use Rattle.hunt_feed.specs.inner.Adding.{IsToKeep, IsKeptPattern};

use crate::kept::{Kept, KeptPattern};
use crate::version::Version;
use flow_values::{NoMemory, Text};
use pattern_reader::MAX_TEXT;
use std::alloc::Global;
use stix_json::{Json, get, text_at};
use stix_objects::laws::{no_breaks, one_id};
use stix_objects::{Precision, object_id, timestamp_at};
use stix_times::Instant;

/// Such an indicator has an identifier, times and a pattern.
fn indicators_have_fields(object: &Json)
    requires unbroken { AreBreaksOf (data_of object.now) [] }
    requires indicator { IsIndicator (data_of object.now) }
    ensures { HasFields (data_of object.now) }
{
    no_breaks();
}

/// Whether an object is an indicator. Takes no memory.
pub(crate) fn is_indicator(object: &Json) -> bool
    ensures { IsTrue result ↔ IsIndicator (data_of object.now) }
{
    text_at(object, "type") == Some("indicator")
}

/// Whether an object is an indicator with a STIX pattern (`pattern_type` is `stix`).
fn is_stix_indicator(object: &Json) -> bool
    ensures { IsTrue result ↔ IsStixIndicator (data_of object.now) }
{
    is_indicator(object) && text_at(object, "pattern_type") == Some("stix")
}

/// Whether an object has `revoked` set.
fn revokes(object: &Json) -> bool
    ensures { IsTrue result ↔ Revokes (data_of object.now) }
{
    match get(object, "revoked") {
        Some(Json::Bool(truth)) => *truth,
        Some(Json::Integer(_) | Json::String(_) | Json::Array(_) | Json::Object(_)) | None => false,
    }
}

/// The UUID of an indicator, as a number.
pub(crate) fn number_of(object: &Json) -> u128
    requires unbroken { AreBreaksOf (data_of object.now) [] }
    requires indicator { IsIndicator (data_of object.now) }
    ensures { HasId (data_of object.now) (indicator_id result) }
{
    indicators_have_fields(object);
    one_id();
    match object_id(object) {
        Some(id) => id.number,
        None => unreachable!(),
    }
}

/// The time in a property of an indicator.
fn time_of(object: &Json, precision: Precision, name: &str) -> Instant
    requires there { (instant : ℤ) × IsTimestampAt precision name.now (data_of object.now) instant }
    ensures { IsTimestampAt precision name.now (data_of object.now) result }
{
    match timestamp_at(object, precision, name) {
        Some(instant) => instant,
        None => unreachable!(),
    }
}

/// The text of an indicator's pattern.
fn pattern_of(object: &Json) -> &str
    requires { HasFields (data_of object.now) }
    ensures { text_under (codes "pattern") (data_of object.now) ≡ Some result.now }
{
    match text_at(object, "pattern") {
        Some(text) => text,
        None => unreachable!(),
    }
}

/// Extracts what is kept of a pattern with this text.
fn kept_pattern(alloc: Global, text: &str) -> Result<KeptPattern, NoMemory>
    ensures { IfOk result (IsKeptPattern text.now) }
{
    if text.len() > MAX_TEXT {
        return Ok(KeptPattern::TooLong);
    }
    let text = Text::from_text(alloc, text)?;
    Ok(KeptPattern::Unread(text))
}

/// The version information of the indicator at a position.
pub(crate) fn version_at(object: &Json, at: u32) -> Version
    requires unbroken { AreBreaksOf (data_of object.now) [] }
    requires indicator { IsIndicator (data_of object.now) }
    ensures at { result.at ≡ at }
    ensures version { IsIndicatorVersion (data_of object.now) result }
{
    indicators_have_fields(object);
    Version {
        at,
        modified: time_of(object, Precision::Millis, "modified"),
        revoked: revokes(object),
    }
}

/// Extracts what is kept of the indicator at a position, if it is its latest version and may be
/// hunted.
pub(crate) fn to_keep(
    alloc: Global,
    object: &Json,
    at: u32,
    number: u128,
    versions: &Version,
) -> Result<Option<Kept>, NoMemory>
    requires unbroken { AreBreaksOf (data_of object.now) [] }
    requires indicator { IsIndicator (data_of object.now) }
    requires numbered { HasId (data_of object.now) (indicator_id number) }
    ensures { IfOk result (IsToKeep (data_of object.now) at number versions.now) }
{
    if versions.at != at || versions.revoked || !is_stix_indicator(object) {
        return Ok(None);
    }
    let kept = kept_at(alloc, object, at, number)?;
    Ok(Some(kept))
}

/// Extracts what is kept of an indicator.
fn kept_at(alloc: Global, object: &Json, at: u32, number: u128) -> Result<Kept, NoMemory>
    requires unbroken { AreBreaksOf (data_of object.now) [] }
    requires indicator { IsStixIndicator (data_of object.now) }
    requires numbered { HasId (data_of object.now) (indicator_id number) }
    ensures kept { IfOk result (IsKeptAs (data_of object.now)) }
    ensures at { IfOk result (λ kept. kept.at ≡ at) }
    ensures whole { IfOk result (λ kept. kept.pattern ≢ Dropped) }
{
    indicators_have_fields(object);
    let pattern = kept_pattern(alloc, pattern_of(object))?;
    Ok(Kept {
        at,
        number,
        created: time_of(object, Precision::Millis, "created"),
        from: time_of(object, Precision::Any, "valid_from"),
        until: timestamp_at(object, Precision::Any, "valid_until"),
        pattern,
    })
}
