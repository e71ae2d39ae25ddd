ghost use Rattle.std.specs.Prelude.{◌≡◌, ◌<◌, ◌↔◌, min, IsOk, IfOk};
ghost use Rattle.std.specs.Duration.{as_nanos};
ghost use Rattle.flow_links.specs.Phase.{left_of, seconds};

use std::io;
use std::io::ErrorKind;
use std::marker::Model;
use std::time::{Duration, Instant};

/// Seconds for which all calls of a connection together may wait.
const CONNECTION_TIME: u64 = 60;

/// How long the calls of one connection may still wait, of 60 seconds in all. A server of one
/// client at a time keeps the next one waiting no longer. The value in contracts is in nanoseconds.
#[derive(Drop)]
pub struct ConnectionTime {
    left: Duration,
}

impl Model for ConnectionTime {
    ghost use Rattle.std.specs.Prelude.{ℕ};
    ghost use Rattle.std.specs.Duration.{as_nanos};

    ghost Value = { ℕ };

    ghost view = { λ time. as_nanos time.left };
}

impl ConnectionTime {
    /// That of a connection that was just accepted.
    pub fn new() -> ConnectionTime
        ensures { result ≡ seconds 60 }
    {
        ConnectionTime {
            left: Duration::from_secs(CONNECTION_TIME),
        }
    }

    /// The timeout of a call: this one, or what is left if that is less. The error `TimedOut` if
    /// nothing is left.
    pub fn limit(&self, timeout: Duration) -> io::Result<Duration>
        ensures some { IsOk result ↔ (0 < min (as_nanos timeout) self.now) }
        ensures time { IfOk result (λ time. as_nanos time ≡ min (as_nanos timeout) self.now) }
    {
        let time = timeout.min(self.left);
        if time.is_zero() {
            Err(io::Error::from(ErrorKind::TimedOut))
        } else {
            Ok(time)
        }
    }

    /// Takes off the time of a call that began at one instant and ended at another.
    pub fn take(&mut self, begun: Instant, ended: Instant)
        ensures { self.new ≡ left_of self.old begun ended }
    {
        self.left = self.left.saturating_sub(ended.duration_since(begun));
    }
}
