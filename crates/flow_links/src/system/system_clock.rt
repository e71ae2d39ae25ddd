ghost use Rattle.std.specs.Prelude.{◌≡◌, None};
ghost use Rattle.flow_links.specs.Moments.{IsNext, Continues};

use crate::Clock;
use std::marker::Model;
use std::time::{Clock as Timer, SystemTime, UNIX_EPOCH};

/// The operating system's clock. If the system gives no time, `now` repeats the last one, or
/// returns 0 at first. The value in contracts is the last time returned.
#[derive(Drop)]
pub struct SystemClock<'r, R: Timer> {
    rt: &'r R,
    last: u64,
}

impl<'r, R: Timer> Model for SystemClock<'r, R> {
    ghost use Rattle.std.specs.Prelude.{ℕ};

    ghost Value = { ℕ };

    ghost view = { λ clock. clock.last };
}

impl<'r, R: Timer> SystemClock<'r, R> {
    /// A clock over this runtime.
    pub fn new(rt: &'r R) -> SystemClock<'r, R>
        ensures { result ≡ 0 }
    {
        SystemClock { rt, last: 0 }
    }

    fn moment(&self) -> Option<u64> {
        let now = SystemTime::now(self.rt).ok()?;
        let since = now.duration_since(UNIX_EPOCH).ok()?;
        u64::try_from(since.as_micros()).ok()
    }
}

impl<'r, R: Timer> Clock for SystemClock<'r, R> {
    ghost moments = { λ _ _. None };

    fn now(&mut self) -> u64
        ensures next { IsNext (λ _. None) result }
        ensures continues { Continues (λ _. None) (λ _. None) }

        ensures last { self.new ≡ result }
    {
        if let Some(moment) = self.moment() {
            self.last = moment;
        }
        self.last
    }
}
