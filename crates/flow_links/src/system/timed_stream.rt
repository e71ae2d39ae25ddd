ghost use Rattle.std.specs.Prelude.{◌≡◌, IfOk, OnErr};
ghost use Rattle.std.specs.Io.{ReadsAtMost, WritesAtMost};
ghost use Rattle.std.specs.Io.KnownBytes.{Keeps, ReadConsumes, WriteAppends};
ghost use Rattle.std.specs.declared.time.Instant.{Instant as Moment};
ghost use Rattle.flow_links.specs.Phase.{after_read, after_write, left_of, seconds};
ghost use Rattle.flow_links.specs.declared.system.phase.Phase.TheVariants.{Waiting};

use super::{ConnectionTime, Deadline, DeadlineStream, Phase};
use std::io;
use std::io::{Read, Write};
use std::marker::Model;
use std::net::{OpenStream, Shutdown};
use std::time::{Clock as Timer, Duration, Instant};

/// Seconds for which `close` drops input.
const CLOSING_TIME: u64 = 2;

/// The most bytes of input that `close` drops: twice the greatest body of a request.
const CLOSING_BYTES: u64 = 16_777_216;

/// Milliseconds for which `close` waits to see whether input is pending.
const PENDING_TIME: u64 = 100;

/// A client's stream with the timeouts of its `Phase`, within the 60 seconds of its
/// `ConnectionTime`. A call with no time left is an error. The value in contracts is the stream's
/// observable bytes, the phase, and the nanoseconds that are left.
#[derive(Drop)]
pub struct TimedStream<'r, S: Read + Write + OpenStream, C: Timer> {
    stream: S,
    clock: &'r C,
    phase: Phase,
    left: ConnectionTime,
}

impl<'r, S: Read + Write + OpenStream, C: Timer> Model for TimedStream<'r, S, C> {
    ghost use Rattle.flow_links.specs.System.{TimedState};

    ghost Value = { TimedState };

    ghost view = { λ timed. record {
      remaining = S.remaining timed.stream;
      contents = S.contents timed.stream;
      phase = timed.phase;
      left = timed.left;
    } };
}

impl<'r, S: Read + Write + OpenStream + Drop, C: Timer> TimedStream<'r, S, C> {
    /// This stream, before its first byte.
    pub fn new(stream: S, clock: &'r C) -> TimedStream<'r, S, C>
        ensures { result ≡ record {
          remaining = S.remaining stream;
          contents = S.contents stream;
          phase = Waiting;
          left = seconds 60;
        } }
    {
        TimedStream {
            stream,
            clock,
            phase: Phase::Waiting,
            left: ConnectionTime::new(),
        }
    }

    /// Shuts down writing. If input is pending, or arrives within a tenth of a second, it then drops
    /// input for at most 2 seconds and 16,777,216 bytes. Closing a TCP socket with unread input
    /// would reset the connection and lose the end of the response.
    pub(super) fn close(mut self) -> io::Result<()> {
        self.stream.shutdown(Shutdown::Write)?;
        self.stream
            .set_read_timeout(Some(Duration::from_millis(PENDING_TIME)))?;
        if self.stream.read(&mut [0])? == 0 {
            return Ok(());
        }
        let deadline = Deadline::after(self.clock, Duration::from_secs(CLOSING_TIME))?;
        let rest = DeadlineStream::new(self.stream, deadline);
        io::copy(&mut rest.take(CLOSING_BYTES), &mut io::sink())?;
        Ok(())
    }
}

impl<'r, S: Read + Write + OpenStream, C: Timer> Read for TimedStream<'r, S, C> {
    ghost remaining = { λ timed. timed.remaining };

    fn read(&mut self, buf: &mut [u8]) -> io::Result<usize>
        ensures bound { ReadsAtMost result buf.new }
        ensures bytes { ReadConsumes self.old.remaining self.new.remaining result buf.new }

        ensures ok { IfOk result (λ count. (begun : Moment) × (ended : Moment)
            × (self.new.phase ≡ after_read self.old.phase ended count)
            × (self.new.left ≡ left_of self.old.left begun ended)) }
        ensures err { OnErr result (self.new.phase ≡ self.old.phase) }
        ensures err_left { OnErr result (self.new.left ≡ self.old.left) }
    {
        let begun = Instant::now(self.clock)?;
        let time = self.left.limit(self.phase.time_to_read(begun)?)?;
        self.stream.set_read_timeout(Some(time))?;
        let count = self.stream.read(buf)?;
        let ended = Instant::now(self.clock).unwrap_or(begun);
        self.phase = self.phase.after_read(ended, count as u64);
        self.left.take(begun, ended);
        Ok(count)
    }
}

impl<'r, S: Read + Write + OpenStream, C: Timer> Write for TimedStream<'r, S, C> {
    ghost contents = { λ timed. timed.contents };

    fn write(&mut self, buf: &[u8]) -> io::Result<usize>
        ensures bound { WritesAtMost result buf.now }
        ensures bytes { WriteAppends self.old.contents self.new.contents result buf.now }

        ensures ok { IfOk result (λ _. (begun : Moment) × (ended : Moment)
            × (self.new.phase ≡ after_write self.old.phase begun)
            × (self.new.left ≡ left_of self.old.left begun ended)) }
        ensures err { OnErr result (self.new.phase ≡ self.old.phase) }
        ensures err_left { OnErr result (self.new.left ≡ self.old.left) }
    {
        let begun = Instant::now(self.clock)?;
        let time = self.left.limit(self.phase.time_to_write(begun)?)?;
        self.stream.set_write_timeout(Some(time))?;
        let count = self.stream.write(buf)?;
        let ended = Instant::now(self.clock).unwrap_or(begun);
        self.phase = self.phase.after_write(begun);
        self.left.take(begun, ended);
        Ok(count)
    }

    fn flush(&mut self) -> io::Result<()>
        ensures bytes { Keeps self.old.contents self.new.contents }

        ensures stays { self.new.phase ≡ self.old.phase }
        ensures stays_left { self.new.left ≡ self.old.left }
    {
        self.stream.flush()
    }
}
