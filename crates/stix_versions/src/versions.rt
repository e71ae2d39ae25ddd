ghost use Rattle.std.specs.Prelude.{◌≡◌, ◌↔◌, ◌+◌, ◌<◌, ◌++◌, List, length, map, take, IsTrue};
ghost use Rattle.std.specs.Prelude.{IfOk, OnOk};
ghost use Rattle.stix_bundles.specs.Objects.{data_in};
ghost use Rattle.stix_versions.specs.declared.version_break.VersionRule.{VersionRule};
ghost use Rattle.stix_versions.specs.Versions.{BreaksVersionRule, AreBroken, rules_reported};
ghost use Rattle.stix_versions.specs.Versions.{break_of_version, AreVersionBreaksFrom};
ghost use Rattle.stix_versions.specs.Versions.{AreVersionBreaks};
ghost use Rattle.stix_versions.specs.inner.FirstVersions.{AreCreatedBefore, AreRevokedBefore};
ghost use Rattle.stix_versions.specs.inner.Duplicates.{AreDuplicatesBefore};
ghost use Rattle.stix_versions.specs.inner.History.{AreVersionsBefore, violation_if};

use crate::created::Created;
use crate::duplicates::Duplicates;
use crate::revoked::Revoked;
use crate::version::version_at;
use crate::{VersionBreak, VersionRule};
use flow_values::{Items, NoMemory};
use std::alloc::Global;
use stix_bundles::Bundle;

/// The violations of the rules of versions in a bundle (STIX 2.1, section 3.6), object by object,
/// in the order of the rules. Only objects with both `created` and `modified` that aren't
/// cyber-observables have versions. `NoMemory` is the only error.
pub fn version_breaks(alloc: Global, bundle: &Bundle) -> Result<Items<VersionBreak>, NoMemory>
    ensures { IfOk result (AreVersionBreaks (data_in bundle.now)) }
{
    let revoked = Revoked::of(alloc, bundle)?;
    let mut seen = History {
        created: Created::new(alloc),
        duplicates: Duplicates::new(alloc),
    };
    let mut found = Items::new(alloc);
    for at in 0..bundle.len() {
        add_breaks(bundle, at, &revoked, &mut seen, &mut found)?;
    }
    Ok(found)
}

/// The state of the pass: what is known of the versions so far.
#[derive(Drop)]
pub(crate) struct History {
    created: Created,
    duplicates: Duplicates,
}

/// Adds the violations of the object at a position.
fn add_breaks(
    bundle: &Bundle,
    at: usize,
    revoked: &Revoked,
    seen: &mut History,
    found: &mut Items<VersionBreak>,
) -> Result<(), NoMemory>
    requires there { at < length bundle.now }
    requires revoked { AreRevokedBefore (data_in bundle.now) (length (data_in bundle.now))
        revoked.now }
    requires before { AreVersionsBefore (data_in bundle.now) at seen.old }
    ensures told { OnOk result ((own : List VersionRule)
        × AreBroken (BreaksVersionRule (data_in bundle.now) at) rules_reported own
        × (found.new ≡ found.old ++ map (break_of_version at) own)) }
    ensures kept { OnOk result (AreVersionsBefore (data_in bundle.now) (at + 1) seen.new) }
{
    let Some(version) = version_at(bundle, at) else {
        return Ok(());
    };
    let objects = bundle.objects();
    let object = at as u32;
    let changed = seen.created.add(&version)?;
    let after = revoked.precedes(&version);
    let twice = seen.duplicates.add(objects, at, &version)?;
    add(changed, object, VersionRule::CreatedChanged, found)?;
    add(after, object, VersionRule::AfterRevoked, found)?;
    add(twice, object, VersionRule::SameVersionTwice, found)?;
    Ok(())
}

/// Adds the violation of a rule, if `broken`.
fn add(
    broken: bool,
    object: u32,
    rule: VersionRule,
    found: &mut Items<VersionBreak>,
) -> Result<(), NoMemory>
    ensures { OnOk result (found.new
        ≡ found.old ++ violation_if broken (break_of_version object rule)) }
{
    if broken {
        found.push(VersionBreak { object, rule })?;
    }
    Ok(())
}
