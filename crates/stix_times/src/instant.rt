ghost use Rattle.std.specs.Prelude.{◌≡◌, ◌*◌, ◌≤◌, pos, SomeIff};
ghost use Rattle.stix_times.specs.Instant.{IsInstant};

use std::marker::Model;

/// An instant of the years 0000 to 9999, to the nanosecond. The order of instants is that of time.
#[derive(Clone, Copy, Debug, PartialEq, Eq, PartialOrd, Ord, Hash)]
pub struct Instant {
    nanos: i128,
}

impl Model for Instant {
    ghost use Rattle.std.specs.Prelude.{ℤ};
    ghost use Rattle.stix_times.specs.Instant.{IsInstant};

    ghost Value = { ℤ };

    ghost view = { λ a. a.nanos };

    ghost invariant = { λ a. IsInstant a.nanos };

    ghost inverse = { λ z. record { nanos = z } };
}

pub(crate) const NANOS_PER_SECOND: u64 = 1_000_000_000;

const FIRST: i128 = -62_167_219_200_000_000_000;

const LAST: i128 = 253_402_300_799_999_999_999;

impl Instant {
    /// The instant `nanos` nanoseconds after 1970-01-01T00:00:00Z.
    pub(crate) fn new(nanos: i128) -> Instant
        requires { IsInstant nanos }
        ensures { result ≡ nanos }
    {
        Instant { nanos }
    }
}

/// The nanoseconds from 1970-01-01T00:00:00Z to the instant, negative before it.
pub fn nanos(instant: Instant) -> i128
    ensures value { result ≡ instant }
    ensures range { IsInstant instant }
{
    instant.nanos
}

/// The instant `nanos` nanoseconds after 1970-01-01T00:00:00Z. `None` outside the years 0000 to
/// 9999.
pub fn from_nanos(nanos: i128) -> Option<Instant>
    ensures { SomeIff result (IsInstant nanos) nanos }
{
    if nanos < FIRST || nanos > LAST {
        return None;
    }
    Some(Instant { nanos })
}

/// The instant `micros` microseconds after 1970-01-01T00:00:00Z. `None` from the year 10000 on.
pub fn from_micros(micros: u64) -> Option<Instant>
    ensures { SomeIff result (micros ≤ 253_402_300_799_999_999) (pos (1000 * micros)) }
{
    from_nanos(1000 * i128::from(micros))
}
