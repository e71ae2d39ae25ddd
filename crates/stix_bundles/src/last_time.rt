ghost use Rattle.std.specs.Prelude.{◌≤◌, ◌<◌, [], length, IfSome, IfNone, IfOk};
ghost use Rattle.stix_bundles.specs.Objects.{data_in};
ghost use Rattle.stix_bundles.specs.declared.outline.TheConstants.{MAX_OBJECTS};
ghost use Rattle.stix_bundles.specs.Bundle.{AreAllBreaks};
ghost use Rattle.stix_bundles.specs.Observations.{IsObservedAt};
ghost use Rattle.stix_bundles.specs.inner.LastTimes.{IsLastTimeOf, AreLastTimes, AreInOrder};

use crate::property::is_observed_data;
use flow_values::NoMemory;
use std::alloc::Global;
use stix_json::Json;
use stix_objects::laws::no_breaks;
use stix_objects::{Precision, timestamp_at};
use stix_times::Instant;

/// The `last_observed` of an observed-data object, and its position. The order is by time, then by
/// position.
#[derive(Clone, Copy, Debug, PartialEq, Eq, PartialOrd, Ord)]
pub(crate) struct LastTime {
    pub(crate) last: Instant,
    pub(crate) at: u32,
}

/// The last times of all observed-data objects, sorted.
pub(crate) fn last_times_in_order(
    alloc: Global,
    objects: &[Json],
) -> Result<Vec<LastTime>, NoMemory>
    requires counted { length objects.now ≤ MAX_OBJECTS }
    requires unbroken { AreAllBreaks 0 (data_in objects.now) [] }
    ensures all { IfOk result (λ last_times. AreLastTimes (data_in objects.now) last_times.items) }
    ensures ordered { IfOk result (λ last_times. AreInOrder last_times.items) }
{
    let mut last_times = last_times_of(alloc, objects)?;
    last_times.sort()?;
    Ok(last_times)
}

/// The last times of all observed-data objects, by position.
fn last_times_of(alloc: Global, objects: &[Json]) -> Result<Vec<LastTime>, NoMemory>
    requires counted { length objects.now ≤ MAX_OBJECTS }
    requires unbroken { AreAllBreaks 0 (data_in objects.now) [] }
    ensures { IfOk result (λ last_times. AreLastTimes (data_in objects.now) last_times.items) }
{
    let mut last_times = Vec::new(alloc);
    for at in 0..objects.len() {
        if let Some(last) = last_observed(objects, at) {
            last_times.push(LastTime {
                last,
                at: at as u32,
            })?;
        }
    }
    Ok(last_times)
}

/// The `last_observed` of the object at a position, if it is an observed-data.
fn last_observed(objects: &[Json], at: usize) -> Option<Instant>
    requires there { at < length objects.now }
    requires unbroken { AreAllBreaks 0 (data_in objects.now) [] }
    ensures some { IfSome result (λ last. IsLastTimeOf (data_in objects.now)
        (record { last = last; at = at })) }
    ensures none { IfNone result (¬ IsObservedAt (data_in objects.now) at) }
{
    let object = &objects[at];
    if !is_observed_data(object) {
        return None;
    }
    no_breaks();
    match timestamp_at(object, Precision::Any, "last_observed") {
        Some(last) => Some(last),
        None => unreachable!(),
    }
}
