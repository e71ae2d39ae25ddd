//! The modification time of a sighting.

ghost use Rattle.hunt_report.specs.Sightings.{IsModifiedAt, IsRoundedDown};
ghost use Rattle.stix_times.specs.Writing.{IsWhole};

use stix_times::{Instant, from_nanos, nanos};

const NANOS_PER_MILLI: i128 = 1_000_000;

/// When a sighting is modified that is made at this moment: then, rounded down to milliseconds, but
/// not before it was created.
pub(crate) fn modified_at(created: Instant, moment: Instant) -> Instant
    requires { IsWhole 1000 created }
    ensures modified { IsModifiedAt created moment result }
    ensures whole { IsWhole 1000 result }
{
    let rounded = rounded_down(moment);
    if nanos(created) < rounded {
        from_nanos(rounded).unwrap()
    } else {
        created
    }
}

/// An instant rounded down to milliseconds, in nanoseconds.
fn rounded_down(instant: Instant) -> i128
    ensures { IsRoundedDown instant result }
{
    nanos(instant).div_euclid(NANOS_PER_MILLI) * NANOS_PER_MILLI
}
