//! One sighting.

ghost use Rattle.std.specs.Prelude.{◌≡◌, [], IfOk, min};
ghost use Rattle.stix_json.specs.DataOf.{data_of};
ghost use Rattle.stix_json.specs.Ordered.{IsOrdered};
ghost use Rattle.stix_objects.specs.Breaks.{AreBreaksOf};
ghost use Rattle.hunt_report.specs.declared.seen.TheConstants.{MAX_COUNT as most};
ghost use Rattle.hunt_report.specs.Sightings.{IsSightingInput, IsSightingOf, IsSightingText};

use crate::fields::Fields;
use crate::moment::modified_at;
use crate::{MAX_COUNT, SightingInput};
use flow_values::{Name, NoMemory, Text};
use std::alloc::Global;
use stix_ids::Id;
use stix_ids::laws::written_reads_back as written_ids;
use stix_json::{Json, write_json};
use stix_times::Instant;
use stix_times::laws::{one_instant, written_reads_back};

/// The sighting of an indicator, made at a moment. It breaks no rule of its type.
pub fn sighting(alloc: Global, moment: Instant, seen: &SightingInput<'_>) -> Result<Json, NoMemory>
    requires { IsSightingInput seen.now }
    ensures sighting { IfOk result (λ json. IsSightingOf moment seen.now (data_of json)) }
    ensures unbroken { IfOk result (λ json. AreBreaksOf (data_of json) []) }
    ensures ordered { IfOk result (λ json. IsOrdered (data_of json)) }
{
    written_ids();
    written_reads_back();
    one_instant();
    object_of(alloc, moment, seen)
}

/// The sighting, with a shorter contract.
fn object_of(alloc: Global, moment: Instant, seen: &SightingInput<'_>) -> Result<Json, NoMemory>
    requires { IsSightingInput seen.now }
    ensures { IfOk result (λ json. IsSightingOf moment seen.now (data_of json)) }
{
    let modified = modified_at(seen.created, moment);
    let kind = Name::from_text(alloc, "sighting")?;
    let id = Id {
        kind,
        number: seen.indicator.number,
    };
    let mut fields = Fields::new(alloc);
    fields.add_count(alloc, "count", count_of(seen))?;
    fields.add_version(alloc, "created", seen.created)?;
    fields.add_time(alloc, "first_seen", seen.first)?;
    fields.add_id(alloc, "id", &id)?;
    fields.add_time(alloc, "last_seen", seen.last)?;
    fields.add_version(alloc, "modified", modified)?;
    fields.add_id(alloc, "sighting_of_ref", seen.indicator)?;
    fields.add_word(alloc, "spec_version", "2.1")?;
    fields.add_word(alloc, "type", "sighting")?;
    Ok(fields.into_object())
}

/// How often the indicator was seen, at most the greatest count of a sighting.
fn count_of(seen: &SightingInput<'_>) -> u32
    ensures { result ≡ min seen.now.count most }
{
    seen.count.min(MAX_COUNT) as u32
}

/// The sighting as compact JSON.
pub fn sighting_text(
    alloc: Global,
    moment: Instant,
    seen: &SightingInput<'_>,
) -> Result<Text, NoMemory>
    requires { IsSightingInput seen.now }
    ensures { IfOk result (IsSightingText moment seen.now) }
{
    let sighting = sighting(alloc, moment, seen)?;
    write_json(alloc, &sighting)
}
