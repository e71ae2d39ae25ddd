//! A finite state machine for timeouts. Each read and write moves it as `after_read` and
//! `after_write` of specs/Phase.antt say, and its contracts state the timeout of each state
//! exactly.

ghost use Rattle.std.specs.Prelude.{◌≡◌, ◌<◌, ◌↔◌, IsOk, IfOk};
ghost use Rattle.std.specs.Duration.{as_nanos};
ghost use Rattle.flow_links.specs.Phase.{left_of, request_time, read_time, write_time, after_read};
ghost use Rattle.flow_links.specs.Phase.{after_write};

use std::io;
use std::io::ErrorKind;
use std::time::{Duration, Instant};

/// Seconds until an idle client must begin a request.
const IDLE_TIME: u64 = 5;

/// Seconds to send a request no longer than a head.
const HEAD_TIME: u64 = 30;

/// Seconds to send a longer request, which has a body.
const BODY_TIME: u64 = 60;

/// Seconds to receive a response.
const ANSWER_TIME: u64 = 60;

/// The greatest length of a head, in bytes.
const MAX_HEAD: u64 = 16_384;

/// A state machine with the timeouts of a client's connection. A byte stream doesn't show where a
/// request ends. So the first byte read after a write begins a request, and the first write after a
/// read begins a response.
#[derive(Clone, Copy)]
pub enum Phase {
    /// Nothing was read since the last write, or since the connection was accepted. A read waits 5
    /// seconds.
    Waiting,
    /// A request is coming: `bytes` of it were read, the first at `since`. All its reads together
    /// have 30 seconds, or 60 seconds past 16,384 bytes.
    Receiving { since: Instant, bytes: u64 },
    /// A response is going out: its first write began at `since`. All its writes together have 60
    /// seconds.
    Answering { since: Instant },
}

impl Phase {
    /// The timeout of a read that begins now. The error `TimedOut` if no time is left.
    pub fn time_to_read(self, now: Instant) -> io::Result<Duration>
        ensures some { IsOk result ↔ (0 < read_time self now) }
        ensures time { IfOk result (λ time. as_nanos time ≡ read_time self now) }
    {
        match self {
            Phase::Receiving { since, bytes } => left_of(request_time(bytes), since, now),
            Phase::Waiting | Phase::Answering { .. } => Ok(Duration::from_secs(IDLE_TIME)),
        }
    }

    /// The timeout of a write that begins now. The error `TimedOut` if no time is left.
    pub fn time_to_write(self, now: Instant) -> io::Result<Duration>
        ensures some { IsOk result ↔ (0 < write_time self now) }
        ensures time { IfOk result (λ time. as_nanos time ≡ write_time self now) }
    {
        let time = Duration::from_secs(ANSWER_TIME);
        match self {
            Phase::Answering { since } => left_of(time, since, now),
            Phase::Waiting | Phase::Receiving { .. } => Ok(time),
        }
    }

    /// The phase after a read of `count` bytes that ended now.
    pub fn after_read(self, now: Instant, count: u64) -> Phase
        ensures { result ≡ after_read self now count }
    {
        match self {
            Phase::Receiving { since, bytes } => Phase::Receiving {
                since,
                bytes: bytes.saturating_add(count),
            },
            Phase::Waiting | Phase::Answering { .. } if count == 0 => Phase::Waiting,
            Phase::Waiting | Phase::Answering { .. } => Phase::Receiving {
                since: now,
                bytes: count,
            },
        }
    }

    /// The phase after a write that began now.
    pub fn after_write(self, now: Instant) -> Phase
        ensures { result ≡ after_write self now }
    {
        match self {
            Phase::Answering { since } => Phase::Answering { since },
            Phase::Waiting | Phase::Receiving { .. } => Phase::Answering { since: now },
        }
    }
}

/// The time limit of a request, by the number of its bytes so far.
fn request_time(bytes: u64) -> Duration
    ensures { as_nanos result ≡ request_time bytes }
{
    if bytes <= MAX_HEAD {
        Duration::from_secs(HEAD_TIME)
    } else {
        Duration::from_secs(BODY_TIME)
    }
}

/// The rest of a time limit that began at `since`. The error `TimedOut` if nothing is left.
fn left_of(time: Duration, since: Instant, now: Instant) -> io::Result<Duration>
    ensures some { IsOk result ↔ (0 < left_of (as_nanos time) since now) }
    ensures time { IfOk result (λ left. as_nanos left ≡ left_of (as_nanos time) since now) }
{
    let left = time.saturating_sub(now.duration_since(since));
    if left.is_zero() {
        Err(io::Error::from(ErrorKind::TimedOut))
    } else {
        Ok(left)
    }
}
