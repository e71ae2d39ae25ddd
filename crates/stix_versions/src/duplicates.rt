//! A running check for differing versions of one `modified` time. It is enough to keep the first
//! one and whether a later one differs: a version conflicts with an earlier one exactly if it
//! differs from the first, or an earlier one does.

ghost use Rattle.std.specs.Prelude.{◌≡◌, ◌↔◌, ◌+◌, ◌<◌, ◌≤◌, List, length, IsTrue, IfOk, OnOk};
ghost use Rattle.std.specs.Prelude.{Some, slice_get};
ghost use Rattle.serde_json.specs.Data.{Data};
ghost use Rattle.stix_json.specs.DataOf.{data_of};
ghost use Rattle.stix_bundles.specs.Objects.{data_in};
ghost use Rattle.stix_bundles.specs.declared.outline.TheConstants.{MAX_OBJECTS};
ghost use Rattle.stix_versions.specs.declared.version_break.VersionRule.TheVariants as rule;
ghost use Rattle.stix_versions.specs.Versions.{BreaksVersionRule};
ghost use Rattle.stix_versions.specs.inner.Version.{IsVersionAs};
ghost use Rattle.stix_versions.specs.inner.Duplicates.{IsNextDuplicate, AreDuplicatesBefore};

use crate::same::is_same;
use crate::version::Version;
use flow_values::NoMemory;
use std::alloc::Global;
use std::collections::BTreeMap;
use stix_bundles::laws::one_meaning;
use stix_json::Json;
use stix_objects::laws::{one_id, one_timestamp};
use stix_times::nanos;

/// Of an object's versions with one `modified` so far: the position of the first, and whether a
/// later one differs from it.
#[derive(Clone, Copy)]
pub(crate) struct FirstDuplicate {
    pub(crate) at: u32,
    pub(crate) differs: bool,
}

/// A map from objects and `modified` times to their `FirstDuplicate`. The key is the group of
/// versions and the instant.
#[derive(Drop)]
pub(crate) struct Duplicates {
    instants: BTreeMap<(u32, i128), FirstDuplicate>,
}

impl Duplicates {
    /// The empty map. Allocates nothing.
    pub(crate) fn new(alloc: Global) -> Duplicates
        ensures { (objects : List Data) → AreDuplicatesBefore objects 0 result }
    {
        Duplicates {
            instants: BTreeMap::new(alloc),
        }
    }

    /// Adds the version at a position, and returns whether an earlier one with the same `modified`
    /// differs from it.
    pub(crate) fn add(
        &mut self,
        objects: &[Json],
        at: usize,
        version: &Version,
    ) -> Result<bool, NoMemory>
        requires counted { length objects.now ≤ MAX_OBJECTS }
        requires there { at < length objects.now }
        requires version { IsVersionAs (data_in objects.now) at version.now }
        requires before { AreDuplicatesBefore (data_in objects.now) at self.old }
        ensures told { IfOk result (λ differs. IsTrue differs
            ↔ BreaksVersionRule (data_in objects.now) at rule.SameVersionTwice) }
        ensures kept { OnOk result (AreDuplicatesBefore (data_in objects.now) (at + 1) self.new) }
    {
        one_id();
        one_meaning();
        one_timestamp();
        let instant = (version.group, nanos(version.modified));
        let place = at as u32;
        let none_differs = FirstDuplicate {
            at: place,
            differs: false,
        };
        let first = self.instants.entry(instant)?.or_insert(none_differs);
        let next = next_duplicate(objects, *first, &objects[at], place);
        let differs = next.differs;
        *first = next;
        Ok(differs)
    }
}

/// The state after this object at this position.
fn next_duplicate(objects: &[Json], first: FirstDuplicate, object: &Json, at: u32) -> FirstDuplicate
    requires { slice_get (data_in objects.now) at ≡ Some (data_of object.now) }
    ensures { IsNextDuplicate (data_in objects.now) (Some first) (data_of object.now) at result }
{
    let same = first.at == at || stands_at(objects, first.at, object);
    FirstDuplicate {
        at: first.at,
        differs: first.differs || !same,
    }
}

/// Whether the object at a position equals this one.
fn stands_at(objects: &[Json], at: u32, object: &Json) -> bool
    ensures { IsTrue result ↔ (slice_get (data_in objects.now) at ≡ Some (data_of object.now)) }
{
    match objects.get(at as usize) {
        Some(other) => is_same(other, object),
        None => false,
    }
}
