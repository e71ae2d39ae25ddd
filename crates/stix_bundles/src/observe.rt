ghost use Rattle.std.specs.Prelude.{◌≡◌, ◌↔◌, IsTrue, ◌+◌, ◌≤◌, ◌^◌, [], length, All, filter_map};
ghost use Rattle.std.specs.Prelude.{None, MatchOption, IfSome, IfNone, IfOk, IfErr, OnOk, codes};
ghost use Rattle.serde_json.specs.Find.{as_str};
ghost use Rattle.stix_json.specs.DataOf.{data_of};
ghost use Rattle.stix_objects.specs.Breaks.{AreBreaksOf};
ghost use Rattle.stix_objects.specs.declared.form.Precision.TheVariants.{Any};
ghost use Rattle.stix_bundles.specs.Objects.{data_in};
ghost use Rattle.stix_bundles.specs.declared.outline.TheConstants.{MAX_OBJECTS};
ghost use Rattle.stix_objects.specs.Properties.{IsTimestampAt, HasId};
ghost use Rattle.stix_bundles.specs.Lookup.{ResolvesTo};
ghost use Rattle.stix_bundles.specs.Observations.{observation_count, NoneEmbeds, Embeds};
ghost use Rattle.stix_bundles.specs.Observations.{IsFirstEmbedding};
ghost use Rattle.stix_bundles.specs.Observations.{IsObservedData, references, AreResolved};
ghost use Rattle.stix_bundles.specs.Observations.{IsObservationAt, AreObservations, AreRefused};
ghost use Rattle.stix_bundles.specs.inner.LastTimes.{IsLastTimeOf, AreObservationsAt};

use crate::last_time::{LastTime, last_times_in_order};
use crate::property::is_observed_data;
use crate::{Bundle, Observation, ObservationRefusal, find};
use flow_values::{Items, NoMemory};
use std::alloc::Global;
use stix_ids::{Id, read_id};
use stix_json::{Json, get, text_at};
use stix_objects::laws::no_breaks;
use stix_objects::{Precision, timestamp_at};
use stix_times::Instant;

/// The observations of a bundle: its observed-data objects sorted by `last_observed`, then by
/// position, and numbered from `first` on. Each has the positions of the objects in its
/// `object_refs`.
///
/// `EmbeddedObjects` if an observed-data object has the deprecated property `objects`.
pub fn observations(
    alloc: Global,
    bundle: &Bundle,
    first: u64,
) -> Result<Items<Observation>, ObservationRefusal>
    requires { first + observation_count (data_in bundle.now) ≤ 2 ^ 64 }
    ensures ok { IfOk result (AreObservations (data_in bundle.now) first) }
    ensures counted { IfOk result (λ observations. length observations
        ≡ observation_count (data_in bundle.now)) }
    ensures whole { OnOk result (NoneEmbeds (data_in bundle.now)) }
    ensures err { IfErr result (AreRefused (data_in bundle.now)) }
{
    if let Some(object) = first_embedding(bundle.objects()) {
        return Err(ObservationRefusal::EmbeddedObjects { object });
    }
    match all_observed(alloc, bundle, first) {
        Ok(observations) => Ok(observations),
        Err(NoMemory) => Err(ObservationRefusal::NoMemory),
    }
}

/// The observations of a bundle, whether or not some observed-data embeds its objects.
fn all_observed(alloc: Global, bundle: &Bundle, first: u64) -> Result<Items<Observation>, NoMemory>
    requires { first + observation_count (data_in bundle.now) ≤ 2 ^ 64 }
    ensures ok { IfOk result (AreObservations (data_in bundle.now) first) }
    ensures counted { IfOk result (λ observations. length observations
        ≡ observation_count (data_in bundle.now)) }
{
    let last_times = last_times_in_order(alloc, bundle.objects())?;
    observed(alloc, bundle, first, last_times.as_slice())
}

/// The position of the first observed-data that embeds its objects.
fn first_embedding(objects: &[Json]) -> Option<u32>
    requires { length objects.now ≤ MAX_OBJECTS }
    ensures some { IfSome result (IsFirstEmbedding (data_in objects.now)) }
    ensures none { IfNone result (NoneEmbeds (data_in objects.now)) }
{
    for at in 0..objects.len() {
        if embeds(&objects[at]) {
            return Some(at as u32);
        }
    }
    None
}

/// Whether an object is an observed-data that embeds its objects.
fn embeds(object: &Json) -> bool
    ensures { IsTrue result ↔ Embeds (data_of object.now) }
{
    get(object, "objects").is_some() && is_observed_data(object)
}

/// The observations at these last times, numbered from `first` on.
fn observed(
    alloc: Global,
    bundle: &Bundle,
    first: u64,
    last_times: &[LastTime],
) -> Result<Items<Observation>, NoMemory>
    requires each { All (IsLastTimeOf (data_in bundle.now)) last_times.now }
    requires fits { first + length last_times.now ≤ 2 ^ 64 }
    ensures { IfOk result (AreObservationsAt (data_in bundle.now) first last_times.now) }
{
    let mut observations = Items::new(alloc);
    for at in 0..last_times.len() {
        observations.push(observation(alloc, bundle, last_times[at], first + at as u64)?)?;
    }
    Ok(observations)
}

/// The observation of one last time.
fn observation(
    alloc: Global,
    bundle: &Bundle,
    last_time: LastTime,
    number: u64,
) -> Result<Observation, NoMemory>
    requires { IsLastTimeOf (data_in bundle.now) last_time }
    ensures seen { IfOk result (IsObservationAt (data_in bundle.now) last_time.at number) }
    ensures last { IfOk result (λ observation. observation.last ≡ last_time.last) }
{
    let object = &bundle.objects()[last_time.at as usize];
    let id = own_id(alloc, object)?;
    let roots = roots_of(alloc, bundle, object)?;
    Ok(Observation {
        number,
        id,
        first: first_observed(object),
        last: last_time.last,
        roots,
    })
}

/// The identifier of an object without violations.
fn own_id(alloc: Global, object: &Json) -> Result<Id, NoMemory>
    requires { AreBreaksOf (data_of object.now) [] }
    ensures { IfOk result (HasId (data_of object.now)) }
{
    no_breaks();
    let Some(text) = text_at(object, "id") else {
        unreachable!();
    };
    read_id(alloc, text).map_err(|_refusal| NoMemory)
}

/// The `first_observed` of an observed-data without violations.
fn first_observed(object: &Json) -> Instant
    requires unbroken { AreBreaksOf (data_of object.now) [] }
    requires observed { IsObservedData (data_of object.now) }
    ensures { IsTimestampAt Any (codes "first_observed") (data_of object.now) result }
{
    no_breaks();
    match timestamp_at(object, Precision::Any, "first_observed") {
        Some(first) => first,
        None => unreachable!(),
    }
}

/// The positions that an object's `object_refs` resolve to.
fn roots_of(alloc: Global, bundle: &Bundle, object: &Json) -> Result<Items<u32>, NoMemory>
    ensures { IfOk result (AreResolved (data_in bundle.now) (references (data_of object.now))) }
{
    match get(object, "object_refs") {
        Some(Json::Array(items)) => resolved(alloc, bundle, items.as_slice()),
        Some(Json::Bool(_) | Json::Integer(_) | Json::String(_) | Json::Object(_)) | None => {
            Ok(Items::new(alloc))
        }
    }
}

/// The positions that the texts of a list resolve to.
fn resolved(alloc: Global, bundle: &Bundle, items: &[Json]) -> Result<Items<u32>, NoMemory>
    ensures { IfOk result (AreResolved (data_in bundle.now)
        (filter_map as_str (data_in items.now))) }
{
    let mut places = Items::new(alloc);
    for item in items {
        if let Some(place) = place_of(bundle, item) {
            places.push(place)?;
        }
    }
    Ok(places)
}

/// The position that an item resolves to, if it is a text.
fn place_of(bundle: &Bundle, item: &Json) -> Option<u32>
    ensures { MatchOption (as_str (data_of item.now)) (result ≡ None)
        (λ text. ResolvesTo (data_in bundle.now) text result) }
{
    match item {
        Json::String(text) => find(bundle, text.as_str()),
        Json::Bool(_) | Json::Integer(_) | Json::Array(_) | Json::Object(_) => None,
    }
}
