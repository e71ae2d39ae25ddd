//! The index of latest versions, in one pass: a running maximum of `modified` for each identifier.
//! A tie goes to the later position, so after the last object the map is what specs/Lookup.antt
//! defines.

ghost use Rattle.std.specs.Prelude.{◌≡◌, ◌↔◌, ◌+◌, ◌≤◌, ◌<◌, length, take as first, Some, IsTrue};
ghost use Rattle.std.specs.Prelude.{All, IfOk, OnOk};
ghost use Rattle.stix_ids.specs.declared.id.Id.{Id};
ghost use Rattle.stix_ids.specs.PartsOf.{id_of};
ghost use Rattle.stix_json.specs.Ordered.{IsOrdered};
ghost use Rattle.stix_bundles.specs.Objects.{data_in};
ghost use Rattle.stix_bundles.specs.Lookup.{IsEarlier, IsOf, IsLatest};
ghost use Rattle.stix_bundles.specs.declared.outline.TheConstants.{MAX_OBJECTS};
ghost use Rattle.stix_bundles.specs.inner.Index.{IsPositionOf, ArePositionsOf, IsIndexOfObjects};
ghost use Rattle.stix_bundles.specs.inner.Index.{Supersedes};

use crate::index::{Index, MAX_UNINDEXED_OBJECTS};
use crate::laws::one_modified;
use crate::positions::Positions;
use crate::property::{has_id, modified, ordered_id};
use flow_values::NoMemory;
use std::alloc::Global;
use stix_ids::IdRef;
use stix_json::Json;
use stix_objects::laws::one_id;
use stix_times::Instant;
use stix_times::laws::is_before;

/// Builds the index of these objects.
pub(crate) fn index_of(alloc: Global, objects: &[Json]) -> Result<Index, NoMemory>
    requires counted { length objects.now ≤ MAX_OBJECTS }
    requires ordered { All IsOrdered (data_in objects.now) }
    ensures { IfOk result (IsIndexOfObjects (data_in objects.now)) }
{
    if objects.len() <= MAX_UNINDEXED_OBJECTS {
        return Ok(Index::Unindexed);
    }
    let positions = positions_of(alloc, objects)?;
    Ok(Index::Many(positions))
}

/// The positions of the latest versions of the objects, as a map from identifiers.
fn positions_of(alloc: Global, objects: &[Json]) -> Result<Positions, NoMemory>
    requires counted { length objects.now ≤ MAX_OBJECTS }
    requires ordered { All IsOrdered (data_in objects.now) }
    ensures { IfOk result (ArePositionsOf (data_in objects.now)) }
{
    let mut positions = Positions::new(alloc);
    for at in 0..objects.len() {
        add(alloc, objects, at, &mut positions)?;
    }
    Ok(positions)
}

/// Updates the map with the object at a position.
fn add(
    alloc: Global,
    objects: &[Json],
    at: usize,
    positions: &mut Positions,
) -> Result<(), NoMemory>
    requires counted { length objects.now ≤ MAX_OBJECTS }
    requires ordered { All IsOrdered (data_in objects.now) }
    requires there { at < length objects.now }
    // The loop invariant: the map is right for the objects before `at`.
    requires before { ArePositionsOf (first at (data_in objects.now)) positions.old }
    ensures { OnOk result (ArePositionsOf (first (at + 1) (data_in objects.now)) positions.new) }
{
    let Some(id) = ordered_id(&objects[at]) else {
        return Ok(());
    };
    one_id();
    let latest = later(objects, positions.get(id), at);
    positions.put(alloc, id, latest)
}

/// The position of the latest version of an identifier, by linear search over few objects.
/// Logarithmic in the number of their fields. Allocates nothing.
pub(crate) fn latest_of(objects: &[Json], id: IdRef<'_>) -> Option<u32>
    requires counted { length objects.now ≤ MAX_OBJECTS }
    requires ordered { All IsOrdered (data_in objects.now) }
    ensures { IsPositionOf (data_in objects.now) (id_of id.entry) result }
{
    let mut latest = None;
    for at in 0..objects.len() {
        if has_id(&objects[at], id) {
            latest = Some(later(objects, latest, at));
        }
    }
    latest
}

/// The position of the later of two versions of an identifier: the one at `at`, unless the earlier
/// one was modified later.
fn later(objects: &[Json], held: Option<u32>, at: usize) -> u32
    requires counted { length objects.now ≤ MAX_OBJECTS }
    requires ordered { All IsOrdered (data_in objects.now) }
    requires there { at < length objects.now }
    ensures { (id : Id) → IsOf (data_in objects.now) id at
        → IsPositionOf (first at (data_in objects.now)) id held
        → IsLatest (first (at + 1) (data_in objects.now)) id result }
{
    one_modified();
    let time = modified(&objects[at]);
    let Some(held) = held else {
        return at as u32;
    };
    if is_superseded(objects, held, time) {
        held
    } else {
        at as u32
    }
}

/// Whether the object at the position was modified later than this time.
fn is_superseded(objects: &[Json], at: u32, time: Option<Instant>) -> bool
    requires { All IsOrdered (data_in objects.now) }
    ensures { IsTrue result ↔ Supersedes (data_in objects.now) (Some at) time }
{
    one_modified();
    match objects.get(at as usize) {
        Some(object) => is_earlier(time, modified(object)),
        None => false,
    }
}

/// Whether the first time is earlier than the second. No time is earlier than any time.
fn is_earlier(first: Option<Instant>, second: Option<Instant>) -> bool
    ensures { IsTrue result ↔ IsEarlier first second }
{
    match (first, second) {
        (Some(first), Some(second)) => is_before(first, second),
        (None, Some(_)) => true,
        (_, None) => false,
    }
}
