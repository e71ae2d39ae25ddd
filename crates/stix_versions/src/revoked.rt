//! The earliest revocation of each object: a running minimum of `modified` over its revoked
//! versions. A version follows a revocation exactly if it follows the earliest one.

ghost use Rattle.std.specs.Prelude.{◌↔◌, ◌+◌, ◌<◌, ℕ, List, length, IsTrue, IfOk, IfSome, IfNone};
ghost use Rattle.std.specs.Prelude.{OnOk};
ghost use Rattle.serde_json.specs.Data.{Data};
ghost use Rattle.stix_bundles.specs.Objects.{data_in};
ghost use Rattle.stix_versions.specs.declared.version_break.VersionRule.TheVariants as rule;
ghost use Rattle.stix_versions.specs.Versions.{BreaksVersionRule};
ghost use Rattle.stix_versions.specs.inner.Version.{IsVersionAs};
ghost use Rattle.stix_versions.specs.inner.FirstVersions.{IsRevokedAs, IsNotRevoked, IsNextRevoked};
ghost use Rattle.stix_versions.specs.inner.FirstVersions.{AreRevokedBefore};

use crate::version::{Version, is_revoked, version_at};
use flow_values::NoMemory;
use std::alloc::Global;
use std::collections::BTreeMap;
use stix_bundles::Bundle;
use stix_bundles::laws::one_meaning;
use stix_objects::laws::{one_id, one_timestamp};
use stix_times::Instant;
use stix_times::laws::is_before;

/// For each object with a revoked version, the earliest `modified` of such a version. The key is
/// the group of versions.
#[derive(Drop)]
pub(crate) struct Revoked {
    groups: BTreeMap<u32, Instant>,
}

impl Revoked {
    /// Collects the revoked versions of a bundle.
    pub(crate) fn of(alloc: Global, bundle: &Bundle) -> Result<Revoked, NoMemory>
        ensures { IfOk result (AreRevokedBefore (data_in bundle.now) (length bundle.now)) }
    {
        let mut revoked = Revoked {
            groups: BTreeMap::new(alloc),
        };
        for at in 0..bundle.len() {
            if let Some(version) = revoked_at(bundle, at) {
                revoked.add(&version)?;
            }
        }
        Ok(revoked)
    }

    /// Adds the version at the next position, which is revoked.
    fn add(&mut self, version: &Version) -> Result<(), NoMemory>
        ensures { OnOk result ((objects : List Data) (at : ℕ) → IsRevokedAs objects at version.now
            → AreRevokedBefore objects at self.old → AreRevokedBefore objects (at + 1) self.new) }
    {
        one_id();
        one_meaning();
        one_timestamp();
        let group = version.group;
        let modified = version.modified;
        let first = self.groups.get(&group).copied();
        let next = earlier(first, modified);
        self.groups.insert(group, next)?;
        Ok(())
    }

    /// Whether a version of the same object is revoked and was modified earlier.
    pub(crate) fn precedes(&self, version: &Version) -> bool
        // The map must be complete: a later object in the bundle may be the revoked version.
        ensures { (objects : List Data) (at : ℕ) → IsVersionAs objects at version.now
            → AreRevokedBefore objects (length objects) self.now
            → IsTrue result ↔ BreaksVersionRule objects at rule.AfterRevoked }
    {
        one_id();
        one_meaning();
        one_timestamp();
        let group = version.group;
        let modified = version.modified;
        match self.groups.get(&group) {
            Some(first) => is_before(*first, modified),
            None => false,
        }
    }
}

/// The version at a position, if it is revoked. Checks `revoked` first, since few objects are, and
/// parses the version only then.
fn revoked_at(bundle: &Bundle, at: usize) -> Option<Version>
    requires { at < length bundle.now }
    ensures some { IfSome result (IsRevokedAs (data_in bundle.now) at) }
    ensures none { IfNone result (IsNotRevoked (data_in bundle.now) at) }
{
    if is_revoked(&bundle.objects()[at]) {
        version_at(bundle, at)
    } else {
        None
    }
}

/// The earlier of two times.
fn earlier(first: Option<Instant>, modified: Instant) -> Instant
    ensures { IsNextRevoked first modified result }
{
    match first {
        Some(first) => {
            if is_before(first, modified) {
                first
            } else {
                modified
            }
        }
        None => modified,
    }
}
