ghost use Rattle.std.specs.Prelude.{◌≡◌};
ghost use Rattle.std.specs.Io.{ReadsAtMost, WritesAtMost};
ghost use Rattle.std.specs.Io.KnownBytes.{Keeps, ReadConsumes, WriteAppends};

use super::{CALL_TIMEOUT, Deadline};
use std::io;
use std::io::{Read, Write};
use std::marker::Model;
use std::net::OpenStream;
use std::time::{Clock as Timer, Duration};

/// A stream whose reads and writes time out: each call waits at most 30 seconds, and never past the
/// deadline. After the deadline every call is an error. The value in contracts is the stream's
/// observable bytes and the deadline.
#[derive(Drop)]
pub struct DeadlineStream<'r, S: Read + Write + OpenStream, C: Timer> {
    stream: S,
    deadline: Deadline<'r, C>,
}

impl<'r, S: Read + Write + OpenStream, C: Timer> Model for DeadlineStream<'r, S, C> {
    ghost use Rattle.flow_links.specs.System.{DeadlineState};

    ghost Value = { DeadlineState };

    ghost view = { λ limited. record {
      remaining = S.remaining limited.stream;
      contents = S.contents limited.stream;
      deadline = limited.deadline;
    } };
}

impl<'r, S: Read + Write + OpenStream, C: Timer> DeadlineStream<'r, S, C> {
    /// This stream until this deadline.
    pub fn new(stream: S, deadline: Deadline<'r, C>) -> DeadlineStream<'r, S, C>
        ensures { result ≡ record {
          remaining = S.remaining stream;
          contents = S.contents stream;
          deadline = deadline.entry;
        } }
    {
        DeadlineStream { stream, deadline }
    }

    /// The timeout of a call that begins now. An error if no time is left.
    fn call_timeout(&self) -> io::Result<Option<Duration>> {
        let left = self.deadline.left()?;
        Ok(Some(left.min(Duration::from_secs(CALL_TIMEOUT))))
    }
}

impl<'r, S: Read + Write + OpenStream, C: Timer> Read for DeadlineStream<'r, S, C> {
    ghost remaining = { λ limited. limited.remaining };

    fn read(&mut self, buf: &mut [u8]) -> io::Result<usize>
        ensures bound { ReadsAtMost result buf.new }
        ensures bytes { ReadConsumes self.old.remaining self.new.remaining result buf.new }

        ensures stays { self.new.deadline ≡ self.old.deadline }
    {
        self.stream.set_read_timeout(self.call_timeout()?)?;
        self.stream.read(buf)
    }
}

impl<'r, S: Read + Write + OpenStream, C: Timer> Write for DeadlineStream<'r, S, C> {
    ghost contents = { λ limited. limited.contents };

    fn write(&mut self, buf: &[u8]) -> io::Result<usize>
        ensures bound { WritesAtMost result buf.now }
        ensures bytes { WriteAppends self.old.contents self.new.contents result buf.now }

        ensures stays { self.new.deadline ≡ self.old.deadline }
    {
        self.stream.set_write_timeout(self.call_timeout()?)?;
        self.stream.write(buf)
    }

    fn flush(&mut self) -> io::Result<()>
        ensures bytes { Keeps self.old.contents self.new.contents }

        ensures stays { self.new.deadline ≡ self.old.deadline }
    {
        self.stream.flush()
    }
}
