ghost use Rattle.std.specs.Prelude.{◌≡◌};
ghost use Rattle.hunt_report.specs.inner.Noting.{hit_summary_after};

use crate::MAX_COUNT;
use stix_times::Instant;

/// The hits of one indicator so far, in numbers.
#[derive(Clone, Copy, Debug)]
pub struct HitSummary {
    /// How many there were, at most the greatest count of a sighting.
    pub count: u64,
    /// When the observation was last observed at which the first of them ended.
    pub first: Instant,
    /// When the observation was last observed at which the last of them ended.
    pub last: Instant,
}

/// Includes one more hit, which ended at an observation with this last time.
pub(crate) fn hit_summary_after(hit_summary: Option<HitSummary>, last: Instant) -> HitSummary
    ensures { result ≡ hit_summary_after last hit_summary }
{
    match hit_summary {
        Some(hit_summary) => HitSummary {
            count: hit_summary.count.saturating_add(1).min(MAX_COUNT),
            first: hit_summary.first,
            last,
        },
        None => HitSummary {
            count: 1,
            first: last,
            last,
        },
    }
}
