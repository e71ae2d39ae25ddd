ghost use Rattle.std.specs.Prelude.{◌≡◌, Some};
ghost use Rattle.match_bindings.specs.Log.{truth};

use flow_values::Items;
use stix_times::Instant;

/// A row of a log: the first and last time of an observation, and for each leaf of a pattern
/// whether it holds.
#[derive(Drop)]
pub struct LogEntry {
    pub first: Instant,
    pub last: Instant,
    pub truths: Items<bool>,
}

impl LogEntry {
    /// Whether a leaf holds for the observation.
    pub(crate) fn holds(&self, leaf: u32) -> bool
        ensures { result ≡ truth (Some self.now) leaf }
    {
        self.truths
            .as_slice()
            .get(leaf as usize)
            .copied()
            .unwrap_or(false)
    }
}
