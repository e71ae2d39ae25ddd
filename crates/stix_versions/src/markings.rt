ghost use Rattle.std.specs.Prelude.{◌≡◌, ◌++◌, ◌≤◌, List, All, length, IfOk, OnOk};
ghost use Rattle.stix_json.specs.DataOf.{data_of};
ghost use Rattle.stix_json.specs.Ordered.{IsOrdered};
ghost use Rattle.stix_bundles.specs.Objects.{data_in};
ghost use Rattle.stix_bundles.specs.declared.outline.TheConstants.{MAX_OBJECTS};
ghost use Rattle.stix_versions.specs.declared.marking_break.MarkingBreak.{MarkingBreak};
ghost use Rattle.stix_versions.specs.Markings.{AreBreaksOfMarkings, AreMarkingBreaks};
ghost use Rattle.stix_versions.specs.inner.Selectors.{AreOwnBreaks};

use crate::MarkingBreak;
use crate::marking::broken_rule;
use flow_values::{Items, NoMemory};
use std::alloc::Global;
use stix_bundles::Bundle;
use stix_json::{Json, list_at};

/// The violations of granular markings in a bundle (STIX 2.1, section 7.2.3), object by object, in
/// the order of the markings. Reports only the first rule that a marking breaks. `NoMemory` is the
/// only error.
pub fn marking_breaks(alloc: Global, bundle: &Bundle) -> Result<Items<MarkingBreak>, NoMemory>
    ensures { IfOk result (AreMarkingBreaks (data_in bundle.now)) }
{
    all_breaks(alloc, bundle.objects())
}

/// The violations in a list of objects.
fn all_breaks(alloc: Global, objects: &[Json]) -> Result<Items<MarkingBreak>, NoMemory>
    requires counted { length objects.now ≤ MAX_OBJECTS }
    requires ordered { All IsOrdered (data_in objects.now) }
    ensures { IfOk result (AreMarkingBreaks (data_in objects.now)) }
{
    let mut found = Items::new(alloc);
    for at in 0..objects.len() {
        add_breaks(at as u32, &objects[at], &mut found)?;
    }
    Ok(found)
}

/// Adds the violations of the object at a position.
fn add_breaks(at: u32, object: &Json, found: &mut Items<MarkingBreak>) -> Result<(), NoMemory>
    requires { IsOrdered (data_of object.now) }
    ensures { OnOk result ((own : List MarkingBreak) × AreOwnBreaks at (data_of object.now) own
        × (found.new ≡ found.old ++ own)) }
{
    match list_at(object, "granular_markings") {
        Some(markings) => add_list(at, object, markings, found),
        None => Ok(()),
    }
}

/// Adds the violations of these markings of the object.
fn add_list(
    object_at: u32,
    object: &Json,
    markings: &[Json],
    found: &mut Items<MarkingBreak>,
) -> Result<(), NoMemory>
    requires { IsOrdered (data_of object.now) }
    ensures { OnOk result ((own : List MarkingBreak)
        × AreBreaksOfMarkings object_at (data_of object.now) 0 (data_in markings.now) own
        × (found.new ≡ found.old ++ own)) }
{
    for at in 0..markings.len() {
        if let Some(rule) = broken_rule(object, &markings[at]) {
            found.push(MarkingBreak {
                object: object_at,
                marking: at as u64,
                rule,
            })?;
        }
    }
    Ok(())
}
