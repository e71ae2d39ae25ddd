//! One line of a feed: from bytes to an object, or the rule by which the line is refused.

ghost use Rattle.std.specs.Prelude.{ℕ, List, IfErr, IfOk};
ghost use Rattle.stix_json.specs.DataOf.{data_of};
ghost use Rattle.stix_json.specs.Reading.{IsJsonOf};
ghost use Rattle.hunt_feed.specs.Line.{IsObjectOf, IsRefusedFeedLine};

use crate::FeedRule;
use flow_values::NoMemory;
use std::alloc::Global;
use stix_json::{Json, JsonRefusal, read_json};
use stix_objects::breaks;

/// Parses a line as an object.
pub(crate) fn read_object(alloc: Global, bytes: &[u8]) -> Result<Result<Json, FeedRule>, NoMemory>
    ensures ok { IfOk result (λ outcome. IfOk outcome
        (λ object. IsObjectOf bytes.now (data_of object))) }
    ensures refused { IfOk result (λ outcome. IfErr outcome (IsRefusedFeedLine bytes.now)) }
{
    match json_of(alloc, bytes)? {
        Ok(json) => unbroken(alloc, json),
        Err(rule) => Ok(Err(rule)),
    }
}

/// Parses bytes as JSON.
fn json_of(alloc: Global, bytes: &[u8]) -> Result<Result<Json, FeedRule>, NoMemory>
    ensures ok { IfOk result (λ outcome. IfOk outcome (IsJsonOf bytes.now)) }
    ensures refused { IfOk result (λ outcome. IfErr outcome (IsRefusedFeedLine bytes.now)) }
{
    match read_json(alloc, bytes) {
        Ok(json) => Ok(Ok(json)),
        Err(JsonRefusal::NoMemory) => Err(NoMemory),
        Err(refusal) => Ok(Err(FeedRule::Json(refusal))),
    }
}

/// The value, where it is an object that breaks no rule of its type.
fn unbroken(alloc: Global, json: Json) -> Result<Result<Json, FeedRule>, NoMemory>
    ensures ok { (bytes : List ℕ) → IsJsonOf bytes json
        → IfOk result (λ outcome. IfOk outcome (λ object. IsObjectOf bytes (data_of object))) }
    ensures refused { (bytes : List ℕ) → IsJsonOf bytes json
        → IfOk result (λ outcome. IfErr outcome (IsRefusedFeedLine bytes)) }
{
    let found = breaks(alloc, &json)?;
    if found.is_empty() {
        Ok(Ok(json))
    } else {
        Ok(Err(FeedRule::Breaks(found)))
    }
}
