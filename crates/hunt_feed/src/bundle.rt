ghost use Rattle.std.specs.Prelude.{IfOk};
ghost use Rattle.stix_bundles.specs.Objects.{data_in};
ghost use Rattle.hunt_feed.specs.Indicators.{IsHuntOf};

use crate::{Gathering, Hunt};
use flow_values::NoMemory;
use std::alloc::Global;
use stix_bundles::Bundle;
use stix_times::Instant;

/// Which indicators of a bundle are hunted at a moment, and which are skipped. O(n log n) for n
/// objects, plus the time to parse the patterns of the candidates.
pub fn hunt(alloc: Global, bundle: &Bundle, moment: Instant) -> Result<Hunt, NoMemory>
    ensures { IfOk result (IsHuntOf (data_in bundle.now) moment) }
{
    let mut gathering = Gathering::new(alloc);
    for object in bundle.objects() {
        gathering.add(object)?;
    }
    gathering.hunt(moment)
}
