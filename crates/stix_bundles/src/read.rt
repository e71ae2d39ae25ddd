ghost use Rattle.std.specs.Prelude.{◌≡◌, ◌⊎◌, ◌≤◌, ◌++◌, List, [], Err, length, map, All, IfOk};
ghost use Rattle.std.specs.Prelude.{IfErr, OnOk};
ghost use Rattle.serde_json.specs.Data.{Data};
ghost use Rattle.stix_json.specs.DataOf.{data_of};
ghost use Rattle.stix_json.specs.Ordered.{IsOrdered};
ghost use Rattle.stix_bundles.specs.declared.refusal.BundleRefusal.{BundleRefusal};
ghost use Rattle.stix_bundles.specs.declared.outline.TheConstants.{MAX_OBJECTS};
ghost use Rattle.stix_bundles.specs.Objects.{data_in};
ghost use Rattle.stix_bundles.specs.Bundle.{IsObject, IsListOf, HasObjects, AreAllBreaks};
ghost use Rattle.stix_bundles.specs.Bundle.{break_of_object, IsBundle, IsBundleRefused};

use crate::latest::index_of;
use crate::outline::first_failure;
use crate::{Bundle, BundleRefusal, ObjectBreak};
use flow_values::{Items, NoMemory};
use std::alloc::Global;
use stix_json::laws::ordered_parts;
use stix_json::{Json, take};
use stix_objects::{Break, breaks};

/// Reads a bundle and takes over the objects of the value. `NotBundle` with the path of the first
/// requirement that fails. `Breaks` with all violations of its objects.
///
/// The value must be ordered: `read_json` guarantees this, and `is_ordered` checks it. A value that
/// isn't an object is refused as such even without memory.
pub fn read_bundle(alloc: Global, value: Json) -> Result<Bundle, BundleRefusal>
    requires { IsOrdered (data_of value) }
    ensures ok { IfOk result (λ bundle. IsBundle (data_of value) (data_in bundle)) }
    ensures err { IfErr result (λ refusal. (refusal ≡ BundleRefusal.NoMemory)
        ⊎ IsBundleRefused (data_of value) refusal) }
    ensures told { (¬ IsObject (data_of value)) → result ≡ Err (BundleRefusal.NotBundle []) }
{
    if let Some(failure) = first_failure(&value) {
        let path = failure.path(alloc)?;
        return Err(BundleRefusal::NotBundle { path });
    }
    let objects = take_objects(alloc, value);
    let breaks = all_breaks(alloc, objects.as_slice())?;
    if !breaks.is_empty() {
        return Err(BundleRefusal::Breaks(breaks));
    }
    let index = index_of(alloc, objects.as_slice())?;
    Ok(Bundle::new(objects, index))
}

/// Moves the objects out of a bundle's value.
fn take_objects(alloc: Global, value: Json) -> Items<Json>
    requires outlined { (objects : List Data) × HasObjects (data_of value) objects }
    requires ordered { IsOrdered (data_of value) }
    ensures all { HasObjects (data_of value) (data_in result) }
    ensures ordered { All IsOrdered (data_in result) }
{
    ordered_parts();
    match take(value, "objects") {
        Some(list) => items_of(alloc, list),
        None => Items::new(alloc),
    }
}

/// The items of a list.
fn items_of(alloc: Global, value: Json) -> Items<Json>
    requires { IsOrdered (data_of value) }
    ensures all { (members : List Data) → IsListOf (data_of value) members
        → members ≡ data_in result }
    ensures ordered { All IsOrdered (data_in result) }
{
    ordered_parts();
    match value {
        Json::Array(items) => items,
        Json::Bool(_) | Json::Integer(_) | Json::String(_) | Json::Object(_) => Items::new(alloc),
    }
}

/// The violations of all objects, object by object.
fn all_breaks(alloc: Global, objects: &[Json]) -> Result<Items<ObjectBreak>, NoMemory>
    requires { length objects.now ≤ MAX_OBJECTS }
    ensures { IfOk result (AreAllBreaks 0 (data_in objects.now)) }
{
    let mut found = Items::new(alloc);
    for at in 0..objects.len() {
        let own = breaks(alloc, &objects[at])?;
        add_breaks(at as u32, own, &mut found)?;
    }
    Ok(found)
}

/// Adds the violations of the object at a position.
fn add_breaks(
    object: u32,
    own: Items<Break>,
    found: &mut Items<ObjectBreak>,
) -> Result<(), NoMemory>
    ensures { OnOk result (found.new ≡ found.old ++ map (break_of_object object) own) }
{
    for broken in own.into_vec() {
        found.push(ObjectBreak {
            object,
            found: broken,
        })?;
    }
    Ok(())
}
