ghost use Rattle.std.specs.Prelude.{◌≡◌, IfOk, IfSome};
ghost use Rattle.flow_values.specs.Answers.{FindsExactly};
ghost use Rattle.stix_ids.specs.Identifier.{canonical_text};
ghost use Rattle.stix_ids.specs.Kind.{IsKind};
ghost use Rattle.stix_ids.specs.PartsOf.{id_of};
ghost use Rattle.stix_json.specs.DataOf.{data_of};
ghost use Rattle.stix_times.specs.Writing.{IsWhole};
ghost use Rattle.taxii_rows.specs.Version.{IsVersionTime};
ghost use Rattle.taxii_bodies.specs.Details.{detail_at_path, refusal_message, IsMomentText};
ghost use Rattle.taxii_bodies.specs.Details.{IsIdOrUnknown};
ghost use Rattle.taxii_bodies.specs.Details.{IsVersionOrMoment, IsSuccessOf, IsFailureOf};
ghost use Rattle.taxii_bodies.specs.Details.{IsRefusalDetail};
ghost use Rattle.taxii_bodies.specs.Times.{IsWritable};

use crate::times::{date_text, stated_text, version_text};
use flow_values::{Name, NoMemory, Text};
use std::alloc::Global;
use stix_ids::{Id, IdRef, write_id};
use stix_json::{Json, JsonRefusal};
use stix_objects::{Break, Precision, object_id, timestamp_at};
use stix_times::Instant;
use taxii_rows::{LAST_DATE, StoredRow};

const UNKNOWN_ID: &str = "unknown--00000000-0000-4000-8000-000000000000";

/// The status detail of one object of a POST (section 4.3.1).
#[derive(Drop)]
pub struct Detail {
    /// The object's identifier, or a placeholder if it has none.
    pub id: Text,
    /// Why the object was refused, if it was.
    pub message: Option<Text>,
    /// The object's version, or the time of the request.
    pub version: Text,
}

/// The detail of a stored row.
pub fn success_detail(alloc: Global, row: &StoredRow) -> Result<Detail, NoMemory>
    requires { IsWritable row.now }
    ensures { IfOk result (IsSuccessOf row.now) }
{
    let id = write_id(alloc, &row.id)?;
    let version = version_text(alloc, row)?;
    Ok(Detail {
        id,
        message: None,
        version,
    })
}

/// The detail of an object that violates a rule, in a request at `moment` (microseconds since
/// 1970).
pub fn failure_detail(
    alloc: Global,
    object: &Json,
    found: &Break,
    moment: u64,
) -> Result<Detail, NoMemory>
    ensures { IfOk result (IsFailureOf (data_of object.now) found.now moment) }
{
    let id = id_or_unknown(alloc, object)?;
    let message = message_at(alloc, found.rule.name(), found.path.as_str())?;
    let version = version_or_moment(alloc, object, moment)?;
    Ok(Detail {
        id,
        message: Some(message),
        version,
    })
}

/// The detail of an entry that is no JSON value, in a request at `moment` (microseconds since
/// 1970).
pub fn refused_detail(alloc: Global, refusal: &JsonRefusal, moment: u64) -> Result<Detail, NoMemory>
    ensures { IfOk result (IsRefusalDetail refusal.now moment) }
{
    let id = Text::from_text(alloc, UNKNOWN_ID)?;
    let message = refusal_text(alloc, refusal)?;
    let version = moment_text(alloc, moment)?;
    Ok(Detail {
        id,
        message: Some(message),
        version,
    })
}

/// The timestamp of a moment, at most the last valid date.
pub(crate) fn moment_text(alloc: Global, moment: u64) -> Result<Text, NoMemory>
    ensures { IfOk result (IsMomentText moment) }
{
    date_text(alloc, moment.min(LAST_DATE))
}

/// The object's identifier, or the placeholder.
fn id_or_unknown(alloc: Global, object: &Json) -> Result<Text, NoMemory>
    ensures { IfOk result (IsIdOrUnknown (data_of object.now)) }
{
    match object_id(object) {
        Some(parts) => id_text(alloc, parts),
        None => Text::from_text(alloc, UNKNOWN_ID),
    }
}

fn id_text(alloc: Global, parts: IdRef<'_>) -> Result<Text, NoMemory>
    requires { IsKind parts.kind.now }
    ensures { IfOk result (λ text. text ≡ canonical_text (id_of parts.entry)) }
{
    let kind = Name::from_text(alloc, parts.kind)?;
    let id = Id {
        kind,
        number: parts.number,
    };
    write_id(alloc, &id)
}

/// The object's version, or the moment.
fn version_or_moment(alloc: Global, object: &Json, moment: u64) -> Result<Text, NoMemory>
    ensures { IfOk result (IsVersionOrMoment (data_of object.now) moment) }
{
    match version_time(object) {
        Some(instant) => stated_text(alloc, instant),
        None => moment_text(alloc, moment),
    }
}

/// The object's `modified`, else its `created`.
fn version_time(object: &Json) -> Option<Instant>
    ensures found { FindsExactly (IsVersionTime (data_of object.now)) result }
    ensures whole { IfSome result (IsWhole 1000) }
{
    match timestamp_at(object, Precision::Millis, "modified") {
        Some(modified) => Some(modified),
        None => timestamp_at(object, Precision::Millis, "created"),
    }
}

/// The name of a rule, and the path of the value that violates it.
fn message_at(alloc: Global, name: &str, path: &str) -> Result<Text, NoMemory>
    ensures { IfOk result (λ text. text ≡ detail_at_path name.now path.now) }
{
    let mut text = Text::from_text(alloc, name)?;
    if !path.is_empty() {
        text.push(" at ")?;
        text.push(path)?;
    }
    Ok(text)
}

/// The message for an entry that is no JSON value.
fn refusal_text(alloc: Global, refusal: &JsonRefusal) -> Result<Text, NoMemory>
    ensures { IfOk result (λ text. text ≡ refusal_message refusal.now) }
{
    Text::from_text(alloc, refusal_name(refusal))
}

fn refusal_name(refusal: &JsonRefusal) -> &'static str
    ensures { result.now ≡ refusal_message refusal.now }
{
    match refusal {
        JsonRefusal::NotJson => "NotJson",
        JsonRefusal::TooDeep { .. } => "TooDeep",
        JsonRefusal::NotWhole { .. } => "NotWhole",
        JsonRefusal::Null { .. } => "Null",
        JsonRefusal::OutOfRange { .. } => "OutOfRange",
        JsonRefusal::NotList => "NotList",
        JsonRefusal::NoMemory => "out of memory",
    }
}
