//! One line: from bytes to a bundle with its observations, or the rule by which it is refused.

ghost use Rattle.std.specs.Prelude.{◌≡◌, ◌≤◌, ◌+◌, ◌^◌, ℤ, List, ℕ, Option, length, IfOk, IfErr};
ghost use Rattle.std.specs.Prelude.{IfSome, IfNone};
ghost use Rattle.stix_json.specs.DataOf.{data_of};
ghost use Rattle.stix_json.specs.Ordered.{IsOrdered};
ghost use Rattle.stix_json.specs.Reading.{IsJsonOf};
ghost use Rattle.stix_bundles.specs.declared.outline.TheConstants.{MAX_OBJECTS};
ghost use Rattle.stix_bundles.specs.Objects.{data_in};
ghost use Rattle.stix_bundles.specs.Bundle.{IsBundle};
ghost use Rattle.match_input.specs.Line.{IsTextOfBundle, IsInOrderAfter, Decreases, last_after};
ghost use Rattle.match_input.specs.Line.{IsBundleLine};
ghost use Rattle.match_input.specs.Line.{IsRefusedInputLine};

use crate::InputRule;
use flow_values::{Items, NoMemory};
use std::alloc::Global;
use stix_bundles::{
    Bundle, BundleRefusal, Observation, ObservationRefusal, observations, read_bundle,
};
use stix_json::{Json, JsonReader, JsonRefusal};
use stix_times::Instant;
use stix_times::laws::is_before;

/// The bundle of a line, and its observations.
#[derive(Drop)]
pub(crate) struct BundleLine {
    pub(crate) bundle: Bundle,
    pub(crate) observations: Items<Observation>,
}

/// Parses a line. `last` is when the observation before it was last observed, `next` the number of
/// its first observation.
pub(crate) fn read_line(
    alloc: Global,
    reader: &mut JsonReader,
    last: Option<Instant>,
    next: u64,
    bytes: &[u8],
) -> Result<Result<BundleLine, InputRule>, NoMemory>
    requires { next + MAX_OBJECTS ≤ 2 ^ 64 }
    ensures ok { IfOk result (λ outcome. IfOk outcome (λ line.
        IsBundleLine last next bytes.now (data_in line.bundle) line.observations)) }
    ensures refused { IfOk result (λ outcome. IfErr outcome
        (IsRefusedInputLine last next bytes.now)) }
    ensures few { IfOk result (λ outcome. IfOk outcome (λ line. length line.observations
        ≤ MAX_OBJECTS)) }
{
    let json = match json_of(reader, bytes)? {
        Ok(json) => json,
        Err(rule) => return Ok(Err(rule)),
    };
    let bundle = match bundle_of(alloc, json)? {
        Ok(bundle) => bundle,
        Err(rule) => return Ok(Err(rule)),
    };
    in_order(alloc, last, next, bundle)
}

/// Parses bytes as JSON.
fn json_of(reader: &mut JsonReader, bytes: &[u8]) -> Result<Result<Json, InputRule>, NoMemory>
    ensures ok { IfOk result (λ outcome. IfOk outcome (IsJsonOf bytes.now)) }
    ensures refused { (last : Option ℤ) (next : ℕ)
        → IfOk result (λ outcome. IfErr outcome (IsRefusedInputLine last next bytes.now)) }
{
    match reader.read(bytes) {
        Ok(json) => Ok(Ok(json)),
        Err(JsonRefusal::NoMemory) => Err(NoMemory),
        Err(refusal) => Ok(Err(InputRule::Json(refusal))),
    }
}

/// Reads a JSON value as a bundle.
fn bundle_of(alloc: Global, json: Json) -> Result<Result<Bundle, InputRule>, NoMemory>
    requires { IsOrdered (data_of json) }
    ensures ok { IfOk result (λ outcome. IfOk outcome
        (λ bundle. IsBundle (data_of json) (data_in bundle))) }
    ensures refused { (last : Option ℤ) (next : ℕ) (bytes : List ℕ) → IsJsonOf bytes json
        → IfOk result (λ outcome. IfErr outcome (IsRefusedInputLine last next bytes)) }
{
    match read_bundle(alloc, json) {
        Ok(bundle) => Ok(Ok(bundle)),
        Err(BundleRefusal::NoMemory) => Err(NoMemory),
        Err(refusal) => Ok(Err(InputRule::Bundle(refusal))),
    }
}

/// A bundle with its observations, where no observed-data embeds its objects, and the first
/// observation isn't out of order.
fn in_order(
    alloc: Global,
    last: Option<Instant>,
    next: u64,
    bundle: Bundle,
) -> Result<Result<BundleLine, InputRule>, NoMemory>
    requires { next + MAX_OBJECTS ≤ 2 ^ 64 }
    ensures ok { (bytes : List ℕ) → IsTextOfBundle bytes (data_in bundle)
        → IfOk result (λ outcome. IfOk outcome (λ line.
        IsBundleLine last next bytes (data_in line.bundle) line.observations)) }
    ensures refused { (bytes : List ℕ) → IsTextOfBundle bytes (data_in bundle)
        → IfOk result (λ outcome. IfErr outcome (IsRefusedInputLine last next bytes)) }
    ensures few { IfOk result (λ outcome. IfOk outcome (λ line. length line.observations
        ≤ MAX_OBJECTS)) }
{
    let _counted = bundle.objects();
    let observations = match observations(alloc, &bundle, next) {
        Ok(observations) => observations,
        Err(ObservationRefusal::EmbeddedObjects { object }) => {
            return Ok(Err(InputRule::Embedded { object }));
        }
        Err(ObservationRefusal::NoMemory) => return Err(NoMemory),
    };
    match decreasing_time(last, observations.as_slice()) {
        Some((last, now)) => Ok(Err(InputRule::OutOfOrder { last, now })),
        None => Ok(Ok(BundleLine {
            bundle,
            observations,
        })),
    }
}

/// The time before and the time of the first observation, where this is earlier.
fn decreasing_time(
    last: Option<Instant>,
    observations: &[Observation],
) -> Option<(Instant, Instant)>
    ensures some { IfSome result (λ (before, now). Decreases last observations.now before now) }
    ensures none { IfNone result (IsInOrderAfter last observations.now) }
{
    let before = last?;
    let [first, ..] = observations else {
        return None;
    };
    if is_before(first.last, before) {
        Some((before, first.last))
    } else {
        None
    }
}

/// When the last of some observations was last observed; `last` if there are none.
pub(crate) fn last_time(last: Option<Instant>, observations: &[Observation]) -> Option<Instant>
    ensures { result ≡ last_after last observations.now }
{
    match observations.last() {
        Some(observation) => Some(observation.last),
        None => last,
    }
}
