ghost use Rattle.std.specs.Prelude.{◌≡◌, ◌+◌, ◌<◌, ◌≤◌, ◌↔◌, IsSome, IfSome, IfOk};
ghost use Rattle.std.specs.Duration.{as_nanos};
ghost use Rattle.std.specs.Time.{instant_nanos};

use std::io;
use std::io::ErrorKind;
use std::marker::Model;
use std::time::{Clock as Timer, Duration, Instant};

/// A point in time on the monotonic clock. Its value in contracts is in nanoseconds since the
/// clock's start.
#[derive(Drop)]
pub struct Deadline<'r, C: Timer> {
    clock: &'r C,
    end: Instant,
}

impl<'r, C: Timer> Model for Deadline<'r, C> {
    ghost use Rattle.std.specs.Prelude.{ℕ};
    ghost use Rattle.std.specs.Time.{instant_nanos};

    ghost Value = { ℕ };

    ghost view = { λ deadline. instant_nanos deadline.end };
}

impl<'r, C: Timer> Deadline<'r, C> {
    /// The deadline this long from now. An error if the sum overflows.
    pub fn after(clock: &'r C, time: Duration) -> io::Result<Deadline<'r, C>>
        ensures { IfOk result (λ deadline. as_nanos time ≤ deadline) }
    {
        match Instant::now(clock)?.checked_add(time) {
            Some(end) => Ok(Deadline { clock, end }),
            None => Err(io::Error::from(ErrorKind::InvalidInput)),
        }
    }

    /// The time left at `now`, or `None` once the deadline has passed.
    pub fn left_at(&self, now: Instant) -> Option<Duration>
        ensures some { IsSome result ↔ (instant_nanos now < self.now) }
        ensures time { IfSome result (λ time. instant_nanos now + as_nanos time ≡ self.now) }
    {
        let time = self.end.duration_since(now);
        if time.is_zero() { None } else { Some(time) }
    }

    /// The time left now. The error `TimedOut` once the deadline has passed.
    pub fn left(&self) -> io::Result<Duration>
        ensures { IfOk result (λ time. (0 < as_nanos time) × (as_nanos time ≤ self.now)) }
    {
        match self.left_at(Instant::now(self.clock)?) {
            Some(time) => Ok(time),
            None => Err(io::Error::from(ErrorKind::TimedOut)),
        }
    }
}
