//! Streams with deadlines, by a clock that is set by hand.

use flow_edges::{Sink, Source};
use flow_links::{Deadline, DeadlineStream, Link, TcpLink, TimedStream};
use std::cell::Cell;
use std::io;
use std::io::{Read, Write};
use std::net::OpenStream;
use std::process::Abort;
use std::test::Fail;
use std::time::{Clock, Duration};

/// A clock that shows the seconds that it is set to.
#[derive(Drop)]
struct HandClock {
    seconds: Cell<u64>,
}

impl Clock for HandClock {
    fn monotonic(&self) -> io::Result<Duration> {
        Ok(Duration::from_secs(self.seconds.get()))
    }

    fn since_1970(&self) -> io::Result<Duration> {
        self.monotonic()
    }
}

/// A stream that fills each read and accepts each write, in so many seconds, and records the
/// timeout set.
#[derive(Drop)]
struct Steady<'w> {
    clock: &'w HandClock,
    wait: &'w Cell<Option<Duration>>,
    pace: u64,
}

impl<'w> Steady<'w> {
    fn pass(&self) {
        let now = self.clock.seconds.get();
        self.clock.seconds.set(now.saturating_add(self.pace));
    }
}

impl<'w> Read for Steady<'w> {
    fn read(&mut self, buf: &mut [u8]) -> io::Result<usize> {
        self.pass();
        Ok(buf.len())
    }
}

impl<'w> Write for Steady<'w> {
    fn write(&mut self, buf: &[u8]) -> io::Result<usize> {
        self.pass();
        Ok(buf.len())
    }

    fn flush(&mut self) -> io::Result<()> {
        Ok(())
    }
}

impl<'w> OpenStream for Steady<'w> {
    fn set_read_timeout(&self, wait: Option<Duration>) -> io::Result<()> {
        self.wait.set(wait);
        Ok(())
    }

    fn set_write_timeout(&self, wait: Option<Duration>) -> io::Result<()> {
        self.wait.set(wait);
        Ok(())
    }
}

/// A call of a link.
#[derive(Clone, Copy)]
enum Call {
    Read,
    Write,
}

/// Makes a call of 10,000 bytes and returns the seconds that it may take, or `None` if it fails.
fn timeout_of(link: &mut impl Link, wait: &Cell<Option<Duration>>, call: Call) -> Option<u64> {
    let mut buffer = [0u8; 10_000];
    let result = match call {
        Call::Read => link.read(&mut buffer),
        Call::Write => link.write(&buffer),
    };
    if result.is_ok() {
        wait.get().map(|time| time.as_secs())
    } else {
        None
    }
}

/// Makes each call at its second, and compares the seconds that it may take.
fn play(
    rt: &impl Abort,
    clock: &HandClock,
    wait: &Cell<Option<Duration>>,
    link: &mut impl Link,
    rows: &[(u64, Call, Option<u64>)],
) {
    for (seconds, call, wanted) in rows {
        clock.seconds.set(*seconds);
        let given = timeout_of(link, wait, *call);
        assert_eq!(rt; given, *wanted, "at {seconds}");
    }
}

#[test]
fn a_stream_waits_until_its_deadline(rt: HostRuntime) -> Result<(), Fail> {
    let clock = HandClock {
        seconds: Cell::new(7),
    };
    let wait = Cell::new(None);
    let deadline = Deadline::after(&clock, Duration::from_secs(40))?;
    let stream = Steady {
        clock: &clock,
        wait: &wait,
        pace: 0,
    };
    let mut link = TcpLink::new(DeadlineStream::new(stream, deadline));
    let rows = [
        (7, Call::Read, Some(30)),
        (46, Call::Write, Some(1)),
        (47, Call::Read, None),
        (47, Call::Write, None),
        (48, Call::Read, None),
    ];
    play(&rt, &clock, &wait, &mut link, &rows);
    Ok(())
}

/// Plays calls of a client's stream that takes so many seconds for each.
fn play_client(rt: &impl Abort, pace: u64, rows: &[(u64, Call, Option<u64>)]) {
    let clock = HandClock {
        seconds: Cell::new(0),
    };
    let wait = Cell::new(None);
    let stream = Steady {
        clock: &clock,
        wait: &wait,
        pace,
    };
    let mut link = TcpLink::new(TimedStream::new(stream, &clock));
    play(rt, &clock, &wait, &mut link, rows);
}

#[test]
fn a_client_has_the_times_of_its_phase(rt: HostRuntime) {
    let rows = [
        // Until a request begins a read waits 5 seconds, and then 30 from its first byte on.
        (100, Call::Read, Some(5)),
        (129, Call::Read, Some(1)),
        // More bytes than a head may have arrived, so the request has 60.
        (150, Call::Read, Some(10)),
        // All writes together have 60, and no more.
        (150, Call::Write, Some(60)),
        (209, Call::Write, Some(1)),
        (210, Call::Write, None),
        // The next request has a new deadline, again 30 seconds.
        (210, Call::Read, Some(5)),
        (240, Call::Read, None),
    ];
    play_client(&rt, 0, &rows);
}

#[test]
fn a_connection_has_a_minute(rt: HostRuntime) {
    // Each request and each response is in time, and yet the calls wait for a minute in all.
    let rows = [
        (0, Call::Read, Some(5)),
        (9, Call::Write, Some(51)),
        (18, Call::Read, Some(5)),
        (27, Call::Write, Some(33)),
        (36, Call::Read, Some(5)),
        (45, Call::Write, Some(15)),
        (54, Call::Read, Some(5)),
        (63, Call::Read, None),
        (63, Call::Write, None),
    ];
    play_client(&rt, 9, &rows);
}
