//! The expiry test for stored partial matches.

ghost use Rattle.std.specs.Prelude.{◌↔◌, ◌≤ℤ◌, ◌<ℤ◌, IsTrue};
ghost use Rattle.match_pruning.specs.Expiry.{HasExpired, ArePast, IsBeforeStart, IsStopped};

use crate::Window;
use stix_times::{Instant, nanos};

const NANOS_PER_SECOND: i128 = 1_000_000_000;

/// Whether a stored partial match that begins at `earliest` has left the window at `now`, the end
/// of the last observation. Takes no memory.
pub fn expired(window: &Window, earliest: Instant, now: Instant) -> bool
    ensures { IsTrue result ↔ HasExpired window.now earliest now }
{
    are_past(window.seconds, earliest, now)
        || is_before_start(window.start, earliest)
        || is_stopped(window.stop, now)
        || (window.after_left && earliest < now)
}

/// Whether the seconds of a `WITHIN` have passed.
fn are_past(seconds: Option<u32>, earliest: Instant, now: Instant) -> bool
    ensures { IsTrue result ↔ ArePast seconds earliest now }
{
    match seconds {
        Some(seconds) => { nanos(earliest) + NANOS_PER_SECOND * i128::from(seconds) <= nanos(now) }
        None => false,
    }
}

/// Whether it begins before the `START`.
fn is_before_start(start: Option<Instant>, earliest: Instant) -> bool
    ensures { IsTrue result ↔ IsBeforeStart start earliest }
{
    match start {
        Some(start) => earliest < start,
        None => false,
    }
}

/// Whether the `STOP` is reached.
fn is_stopped(stop: Option<Instant>, now: Instant) -> bool
    ensures { IsTrue result ↔ IsStopped stop now }
{
    match stop {
        Some(stop) => stop <= now,
        None => false,
    }
}
