ghost use Rattle.std.specs.Prelude.{◌≡◌, ◌↔◌, ◌<◌, ◌^◌, List, [], ◌∷◌, ◌++◌, IsTrue, IfOk, OnOk};
ghost use Rattle.std.specs.Prelude.{OnErr};
ghost use Rattle.serde_json.specs.Data.{Data};
ghost use Rattle.stix_json.specs.DataOf.{data_of};
ghost use Rattle.stix_objects.specs.Breaks.{AreBreaksOf};
ghost use Rattle.hunt_feed.specs.Indicators.{IsHuntOf};
ghost use Rattle.hunt_feed.specs.Gathering.{GathersFor};
ghost use Rattle.hunt_feed.specs.inner.Adding.{IsIndicator, PutsVersion, DropsOutdated};
ghost use Rattle.hunt_feed.specs.inner.Adding.{AddsIndicator};

use crate::Hunt;
use crate::candidates::hunt_among;
use crate::indicator_object::{is_indicator, number_of, to_keep, version_at};
use crate::kept::{Kept, drop_pattern};
use crate::version::{Version, with_version};
use flow_values::NoMemory;
use std::alloc::Global;
use std::collections::BTreeMap;
use std::marker::Model;
use stix_bundles::laws::{one_meaning, one_modified};
use stix_json::Json;
use stix_objects::laws::{no_breaks, one_id};
use stix_times::Instant;

/// The indicators of a feed, gathered from objects one by one. Contracts observe how many objects
/// came, what is kept of the indicators that may be hunted, and the versions of each. `GathersFor`
/// relates them to the objects.
///
/// Of other objects nothing is kept. The pattern of a version is dropped as soon as a later or a
/// revoked one comes. Takes O(log n) for each object.
#[derive(Drop)]
pub struct Gathering {
    alloc: Global,
    count: u64,
    kept: Vec<Kept>,
    versions: BTreeMap<u128, Version>,
}

impl Model for Gathering {
    ghost use Rattle.hunt_feed.specs.Gathering.{Gathered};

    ghost Value = { Gathered };

    ghost view = { λ g. record {
      count = g.count;
      kept = g.kept.items;
      versions = g.versions.entries;
    } };
}

impl Gathering {
    /// No objects. Takes no memory.
    pub fn new(alloc: Global) -> Gathering
        ensures { GathersFor result [] }
    {
        Gathering {
            alloc,
            count: 0,
            kept: Vec::new(alloc),
            versions: BTreeMap::new(alloc),
        }
    }

    /// Whether as many objects came as a u32 can count. Takes no memory.
    pub fn is_full(&self) -> bool
        ensures { IsTrue result ↔ ¬ (self.now.count < 2 ^ 32) }
    {
        self.count > u64::from(u32::MAX)
    }

    /// Adds an object that breaks no rule. Out of memory leaves all unchanged.
    pub fn add(&mut self, object: &Json) -> Result<(), NoMemory>
        requires unbroken { AreBreaksOf (data_of object.now) [] }
        requires room { self.old.count < 2 ^ 32 }
        ensures ok { (objects : List Data) → GathersFor self.old objects
            → OnOk result (GathersFor self.new (objects ++ data_of object.now ∷ [])) }
        // Out of memory leaves all unchanged.
        ensures err { OnErr result (self.new ≡ self.old) }
    {
        no_breaks();
        one_id();
        one_modified();
        one_meaning();
        if is_indicator(object) {
            self.add_indicator(object)?;
        }
        self.count += 1;
        Ok(())
    }

    /// Adds an indicator without counting it.
    fn add_indicator(&mut self, object: &Json) -> Result<(), NoMemory>
        requires unbroken { AreBreaksOf (data_of object.now) [] }
        requires indicator { IsIndicator (data_of object.now) }
        requires room { self.old.count < 2 ^ 32 }
        ensures ok { OnOk result (AddsIndicator self.old self.new (data_of object.now)) }
        ensures err { OnErr result (self.new ≡ self.old) }
    {
        let alloc = self.alloc;
        let at = self.count as u32;
        let number = number_of(object);
        let known = self.versions.get(&number).copied();
        let versions = with_version(&known, version_at(object, at));
        let kept = to_keep(alloc, object, at, number, &versions)?;
        self.put_next(number, &versions, kept)?;
        self.drop_outdated(&known, &versions);
        Ok(())
    }

    /// Keeps the versions of an indicator, and what is kept of the last one.
    fn put_next(
        &mut self,
        number: u128,
        versions: &Version,
        kept: Option<Kept>,
    ) -> Result<(), NoMemory>
        ensures ok { OnOk result (PutsVersion self.old self.new number versions.now kept) }
        ensures err { OnErr result (self.new ≡ self.old) }
    {
        match kept {
            Some(kept) => self.put_kept(number, *versions, kept),
            None => self.put(number, *versions),
        }
    }

    /// Drops the pattern of the version that was the latest, if it can't be hunted any more.
    fn drop_outdated(&mut self, known: &Option<Version>, versions: &Version)
        ensures { DropsOutdated known.now versions.now self.old self.new }
    {
        if let Some(known) = known {
            if versions.at != known.at || versions.revoked {
                drop_pattern(&mut self.kept, known.at);
            }
        }
    }

    /// Keeps an indicator and its versions.
    fn put_kept(&mut self, number: u128, versions: Version, kept: Kept) -> Result<(), NoMemory>
        ensures ok { OnOk result (PutsVersion self.old self.new number versions (Some kept)) }
        ensures err { OnErr result (self.new ≡ self.old) }
    {
        self.kept.push(kept)?;
        let put = self.put(number, versions);
        if put.is_err() {
            self.kept.pop();
        }
        put
    }

    /// Keeps the versions of an indicator.
    fn put(&mut self, number: u128, versions: Version) -> Result<(), NoMemory>
        ensures ok { OnOk result (PutsVersion self.old self.new number versions None) }
        ensures err { OnErr result (self.new ≡ self.old) }
    {
        self.versions.insert(number, versions)?;
        Ok(())
    }

    /// The hunt at a moment. Parses the patterns of the candidates only.
    pub fn hunt(self, moment: Instant) -> Result<Hunt, NoMemory>
        ensures { (objects : List Data) → GathersFor self objects
            → IfOk result (IsHuntOf objects moment) }
    {
        let Gathering {
            alloc,
            count: _,
            kept,
            versions,
        } = self;
        hunt_among(alloc, kept, &versions, moment)
    }
}
