//! Selects the candidates among the kept indicators, and parses their patterns.

ghost use Rattle.std.specs.Prelude.{◌≡◌, ◌↔◌, ℕ, List, IsTrue, IfOk, OnOk};
ghost use Rattle.serde_json.specs.Data.{Data};
ghost use Rattle.hunt_feed.specs.Indicators.{IsHuntOf};
ghost use Rattle.hunt_feed.specs.Gathering.{GathersFor, indicator_id};
ghost use Rattle.hunt_feed.specs.inner.Hunting.{IsLast, IsValidIndicator, IsClassified};

use crate::kept::{Kept, KeptPattern};
use crate::version::Version;
use crate::{Hunt, Hunted, Skipped};
use flow_values::{Items, Name, NoMemory, Text};
use pattern_reader::{PatternRefusal, read_pattern};
use std::alloc::Global;
use std::collections::BTreeMap;
use stix_bundles::laws::one_meaning;
use stix_ids::Id;
use stix_objects::laws::{one_id, one_timestamp};
use stix_times::Instant;
use stix_times::laws::is_before;

/// The hunt at a moment among the kept indicators, given the versions of each.
pub(crate) fn hunt_among(
    alloc: Global,
    kept: Vec<Kept>,
    versions: &BTreeMap<u128, Version>,
    moment: Instant,
) -> Result<Hunt, NoMemory>
    ensures { (objects : List Data) (count : ℕ)
        → GathersFor (record { count = count; kept = kept.items; versions = versions.now.entries })
        objects
        → IfOk result (IsHuntOf objects moment) }
{
    one_id();
    one_timestamp();
    one_meaning();
    let mut hunt = Hunt {
        hunted: Items::new(alloc),
        skipped: Items::new(alloc),
    };
    for indicator in kept {
        if is_last(&indicator, versions) && is_valid(&indicator, moment) {
            classify(alloc, indicator, &mut hunt)?;
        }
    }
    Ok(hunt)
}

/// Whether an indicator is its latest version, and none of its versions is revoked.
fn is_last(kept: &Kept, versions: &BTreeMap<u128, Version>) -> bool
    ensures { IsTrue result ↔ IsLast versions.now.entries kept.now }
{
    match versions.get(&kept.number) {
        Some(version) => version.at == kept.at && !version.revoked,
        None => false,
    }
}

/// Whether an indicator is valid at a moment.
fn is_valid(kept: &Kept, moment: Instant) -> bool
    ensures { IsTrue result ↔ IsValidIndicator moment kept.now }
{
    if is_before(moment, kept.from) {
        return false;
    }
    match kept.until {
        Some(until) => is_before(moment, until),
        None => true,
    }
}

/// Parses the pattern of a candidate, and adds it to the hunted or the skipped indicators. An
/// indicator whose pattern was dropped is neither.
fn classify(alloc: Global, kept: Kept, hunt: &mut Hunt) -> Result<(), NoMemory>
    ensures { OnOk result (IsClassified kept hunt.old hunt.new) }
{
    let id = indicator_id(alloc, kept.number)?;
    let at = kept.at;
    let created = kept.created;
    let read = match &kept.pattern {
        KeptPattern::Unread(text) => read_pattern(alloc, text.as_str()),
        KeptPattern::TooLong => Err(PatternRefusal::TooLong),
        KeptPattern::Dropped => return Ok(()),
    };
    match read {
        Ok(pattern) => hunt.hunted.push(Hunted {
            at,
            id,
            created,
            pattern,
        }),
        Err(PatternRefusal::NoMemory) => Err(NoMemory),
        Err(refusal) => hunt.skipped.push(Skipped { at, id, refusal }),
    }
}

/// The identifier of an indicator, from its UUID as a number.
fn indicator_id(alloc: Global, number: u128) -> Result<Id, NoMemory>
    ensures { IfOk result (λ id. id ≡ indicator_id number) }
{
    let kind = Name::from_text(alloc, "indicator")?;
    Ok(Id { kind, number })
}
