ghost use Rattle.std.specs.Prelude.{◌≡◌};
ghost use Rattle.match_bindings.specs.Bounds.{no_bounds, within, between};
ghost use Rattle.match_bindings.specs.inner.Candidates.{span_fits};

use crate::span::Span;
use stix_times::Instant;

/// The combined limits of all qualifiers above a part of a pattern (STIX 2.1, section 9.5.1).
#[derive(Clone, Copy, Debug)]
pub struct Bounds {
    /// The smallest number of seconds of a `WITHIN`, if any.
    pub seconds: Option<u32>,
    /// The latest `START`, if any.
    pub start: Option<Instant>,
    /// The earliest `STOP`, if any.
    pub stop: Option<Instant>,
}

impl Bounds {
    /// No limits.
    pub fn open() -> Bounds
        ensures { result ≡ no_bounds }
    {
        Bounds {
            seconds: None,
            start: None,
            stop: None,
        }
    }

    /// Whether a span respects all limits.
    pub(crate) fn fits(&self, span: &Span) -> bool
        ensures { result ≡ span_fits self.now span.now }
    {
        let in_seconds = match self.seconds {
            Some(seconds) => span.is_within(seconds),
            None => true,
        };
        let from_start = match self.start {
            Some(start) => start <= span.earliest,
            None => true,
        };
        let before_stop = match self.stop {
            Some(stop) => span.latest < stop,
            None => true,
        };
        in_seconds && from_start && before_stop
    }

    /// The limits below a `WITHIN` of this many seconds.
    pub fn within(&self, seconds: u32) -> Bounds
        ensures { result ≡ within self.now seconds }
    {
        let least = match self.seconds {
            Some(other) => other.min(seconds),
            None => seconds,
        };
        Bounds {
            seconds: Some(least),
            start: self.start,
            stop: self.stop,
        }
    }

    /// The limits below a `START` and `STOP`.
    pub fn between(&self, start: Instant, stop: Instant) -> Bounds
        ensures { result ≡ between self.now start stop }
    {
        let latest_start = match self.start {
            Some(other) if start < other => other,
            Some(_) => start,
            None => start,
        };
        let earliest_stop = match self.stop {
            Some(other) if other <= stop => other,
            Some(_) => stop,
            None => stop,
        };
        Bounds {
            seconds: self.seconds,
            start: Some(latest_start),
            stop: Some(earliest_stop),
        }
    }
}
