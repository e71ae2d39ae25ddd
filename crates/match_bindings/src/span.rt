ghost use Rattle.std.specs.Prelude.{◌≡◌};
ghost use Rattle.match_bindings.specs.inner.Candidates.{joined_span, lies_within, lies_between};

use stix_times::{Instant, nanos};

const NANOS_PER_SECOND: i128 = 1_000_000_000;

/// The earliest and the latest time of a binding, and its greatest number.
#[derive(Drop)]
pub(crate) struct Span {
    pub earliest: Instant,
    pub latest: Instant,
    pub greatest: u64,
}

impl Span {
    /// The span of two bindings together.
    pub fn joined(&self, other: &Span) -> Span
        ensures { result ≡ joined_span self.now other.now }
    {
        Span {
            earliest: if other.earliest < self.earliest {
                other.earliest
            } else {
                self.earliest
            },
            latest: if other.latest < self.latest {
                self.latest
            } else {
                other.latest
            },
            greatest: self.greatest.max(other.greatest),
        }
    }

    /// A copy.
    pub fn copied(&self) -> Span
        ensures { result ≡ self.now }
    {
        Span {
            earliest: self.earliest,
            latest: self.latest,
            greatest: self.greatest,
        }
    }

    /// Whether it covers less than this many seconds.
    pub fn is_within(&self, seconds: u32) -> bool
        ensures { result ≡ lies_within seconds self.now }
    {
        nanos(self.latest) < nanos(self.earliest) + NANOS_PER_SECOND * i128::from(seconds)
    }

    /// Whether it begins at `start` or later, and ends before `stop`.
    pub fn is_between(&self, start: Instant, stop: Instant) -> bool
        ensures { result ≡ lies_between start stop self.now }
    {
        start <= self.earliest && self.latest < stop
    }
}
