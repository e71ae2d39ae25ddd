ghost use Rattle.std.specs.Prelude.{◌≡◌, ◌≤◌, ◌<◌, length};
ghost use Rattle.flow_memory.specs.Links.{moment_at};
ghost use Rattle.flow_links.specs.Moments.{IsNext, Continues};

use flow_links::Clock;
use flow_values::Items;
use std::marker::Model;

/// A clock that returns the times of a list in turn, and then repeats the last one.
#[derive(Drop)]
pub struct ListClock {
    moments: Items<u64>,
    at: usize,
}

impl Model for ListClock {
    ghost use Rattle.std.specs.Prelude.{◌<◌, ℕ, List, length, drop};

    ghost Value = { List ℕ };

    ghost view = { λ clock. drop clock.at clock.moments };

    ghost invariant = { λ clock. clock.at < length clock.moments };
}

impl ListClock {
    /// A clock of these moments, in microseconds since 1970: one at least.
    pub fn new(moments: Items<u64>) -> ListClock
        requires some { 1 ≤ length moments }
        ensures { result ≡ moments }
    {
        ListClock { moments, at: 0 }
    }
}

impl Clock for ListClock {
    ghost moments = { λ clock. moment_at clock };

    fn now(&mut self) -> u64
        ensures next { IsNext (moment_at self.old) result }
        ensures continues { Continues (moment_at self.old) (moment_at self.new) }
    {
        let moments = self.moments.as_slice();
        let moment = moments[self.at];
        if self.at + 1 < moments.len() {
            self.at += 1;
        }
        moment
    }
}
