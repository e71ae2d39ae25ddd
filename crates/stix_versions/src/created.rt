//! A running check for changed `created` times. It is enough to keep the first one and whether a
//! later one differs: a version conflicts with an earlier one exactly if it differs from the first,
//! or an earlier one does.

ghost use Rattle.std.specs.Prelude.{◌↔◌, ◌+◌, ℕ, List, IsTrue, IfOk, OnOk, Some};
ghost use Rattle.serde_json.specs.Data.{Data};
ghost use Rattle.stix_versions.specs.declared.version_break.VersionRule.TheVariants as rule;
ghost use Rattle.stix_versions.specs.Versions.{BreaksVersionRule};
ghost use Rattle.stix_versions.specs.inner.Version.{IsVersionAs};
ghost use Rattle.stix_versions.specs.inner.FirstVersions.{IsNextCreated, AreCreatedBefore};

use crate::version::Version;
use flow_values::NoMemory;
use std::alloc::Global;
use std::collections::BTreeMap;
use stix_bundles::laws::one_meaning;
use stix_objects::laws::{one_id, one_timestamp};
use stix_times::{Instant, nanos};

/// The `created` of an object's first version so far, and whether a later version has another one.
#[derive(Clone, Copy)]
pub(crate) struct FirstCreated {
    pub(crate) created: Instant,
    pub(crate) changed: bool,
}

/// A map from objects to their `FirstCreated`. The key is the group of versions.
#[derive(Drop)]
pub(crate) struct Created {
    groups: BTreeMap<u32, FirstCreated>,
}

impl Created {
    /// The empty map. Allocates nothing.
    pub(crate) fn new(alloc: Global) -> Created
        ensures { (objects : List Data) → AreCreatedBefore objects 0 result }
    {
        Created {
            groups: BTreeMap::new(alloc),
        }
    }

    /// Adds the version at the next position, and returns whether an earlier one has another
    /// `created`.
    pub(crate) fn add(&mut self, version: &Version) -> Result<bool, NoMemory>
        // The map is right for the objects before `at`, and then for one more.
        ensures told { IfOk result (λ changed. (objects : List Data) (at : ℕ)
            → IsVersionAs objects at version.now
            → AreCreatedBefore objects at self.old
            → IsTrue changed ↔ BreaksVersionRule objects at rule.CreatedChanged) }
        ensures kept { OnOk result ((objects : List Data) (at : ℕ)
            → IsVersionAs objects at version.now
            → AreCreatedBefore objects at self.old → AreCreatedBefore objects (at + 1) self.new) }
    {
        one_id();
        one_meaning();
        one_timestamp();
        let created = version.created;
        let none_changed = FirstCreated {
            created,
            changed: false,
        };
        let first = self.groups.entry(version.group)?.or_insert(none_changed);
        let next = next_created(*first, created);
        let changed = next.changed;
        *first = next;
        Ok(changed)
    }
}

/// The state after one more version with this `created`.
fn next_created(first: FirstCreated, created: Instant) -> FirstCreated
    ensures { IsNextCreated (Some first) created result }
{
    FirstCreated {
        created: first.created,
        changed: first.changed || nanos(first.created) != nanos(created),
    }
}
