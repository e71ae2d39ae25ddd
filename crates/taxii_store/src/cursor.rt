ghost use Rattle.std.specs.Prelude.{ℕ, ◌*◌, ◌<◌, ◌↔◌, pos, ◌<ℤ◌};
ghost use Rattle.taxii_store.specs.inner.Candidates.{IsAddedAfter};

use stix_times::{Instant, nanos};
use taxii_routes::Query;

/// The cursor of a query: the later of `added_after` and `next`, in microseconds since 1970. A row
/// matches only if it was added after it.
pub(crate) fn cursor(query: &Query) -> u64
    ensures { (date : ℕ) → 0 < date → (result < date) ↔ IsAddedAfter query.now date }
{
    let added = match query.added_after {
        Some(instant) => micros(instant),
        None => 0,
    };
    added.max(query.next.unwrap_or(0))
}

/// Microseconds since 1970, rounded towards the past, or 0 if earlier.
fn micros(instant: Instant) -> u64
    ensures { (date : ℕ) → 0 < date → (result < date) ↔ (instant <ℤ pos (1000 * date)) }
{
    u64::try_from(nanos(instant) / 1000).unwrap_or(0)
}
