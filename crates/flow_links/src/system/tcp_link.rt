ghost use Rattle.std.specs.Prelude.{◌≡◌, ◌≤◌, ◌<◌, ◌↔◌, None, refl, length, IsSome, IfSome, IfOk};
ghost use Rattle.std.specs.Prelude.{IsErr};
ghost use Rattle.std.specs.Io.KnownBytes.{ReadConsumes, WriteAppends};
ghost use Rattle.flow_edges.specs.Faults.{Counted};

use crate::Link;
use flow_edges::{Sink, Source, counted_fault, read_uninterrupted, write_uninterrupted};
use flow_values::Fault;
use std::io::{Read, Write};
use std::marker::Model;

/// A stream as a `Link`. Its bytes are not observable, and errors of reads and of writes are
/// counted separately. A write of 0 bytes counts as an error. The value in contracts is the
/// stream's own bytes, if known, and the counts.
#[derive(Drop)]
pub struct TcpLink<S: Read + Write> {
    stream: S,
    read_faults: u64,
    write_faults: u64,
}

impl<S: Read + Write> Model for TcpLink<S> {
    ghost use Rattle.flow_links.specs.System.{StreamState};

    ghost Value = { StreamState };

    ghost view = { λ link. record {
      remaining = S.remaining link.stream;
      contents = S.contents link.stream;
      read_faults = link.read_faults;
      write_faults = link.write_faults;
    } };
}

impl<S: Read + Write> TcpLink<S> {
    /// A link over this stream, with no faults yet.
    pub fn new(stream: S) -> TcpLink<S>
        ensures { result ≡ record {
          remaining = S.remaining stream;
          contents = S.contents stream;
          read_faults = 0;
          write_faults = 0;
        } }
    {
        TcpLink {
            stream,
            read_faults: 0,
            write_faults: 0,
        }
    }

    /// The stream, if no read and no write failed.
    pub fn into_faultless(self) -> Option<S>
    where
        S: Drop,
        ensures some { IsSome result ↔ ((self.read_faults ≡ 0) × (self.write_faults ≡ 0)) }
        ensures stream { IfSome result (λ stream. (S.remaining stream ≡ self.remaining)
            × (S.contents stream ≡ self.contents)) }
    {
        if self.read_faults == 0 && self.write_faults == 0 {
            Some(self.stream)
        } else {
            None
        }
    }
}

impl<S: Read + Write> Source for TcpLink<S> {
    ghost left = { λ _. None };

    ghost faults = { λ link. link.read_faults };

    ghost other = { λ link. record { written = None; faults = link.write_faults } };

    /// Reads once from the stream, and again while a signal interrupts the call; each time the
    /// stream sets the time that is left. An I/O error is a `Fault`.
    fn read(&mut self, buffer: &mut [u8]) -> Result<usize, Fault>
        ensures within { IfOk result (λ n. n ≤ length buffer.old) }
        ensures causes { Counted (IsErr result) self.old.read_faults self.new.read_faults }
        ensures handed { ReadConsumes self.old.remaining self.new.remaining result buffer.new }
        ensures unwritten { self.new.write_faults ≡ self.old.write_faults }
    {
        match read_uninterrupted(&mut self.stream, buffer) {
            Ok(count) => Ok(count),
            Err(_) => Err(counted_fault(&mut self.read_faults)),
        }
    }
}

impl<S: Read + Write> Sink for TcpLink<S> {
    ghost written = { λ _. None };

    ghost faults = { λ link. link.write_faults };

    ghost other = { λ link. record { left = None; began = None; faults = link.read_faults } };

    /// Writes once to the stream, and again while a signal interrupts the call. An I/O error is a
    /// `Fault`, and so is a write of 0 bytes from a non-empty slice.
    fn write(&mut self, piece: &[u8]) -> Result<usize, Fault>
        ensures within { IfOk result (λ n. n ≤ length piece.now) }
        ensures some { IfOk result (λ n. 0 < length piece.now → 0 < n) }
        ensures causes { Counted (IsErr result) self.old.write_faults self.new.write_faults }
        ensures handed { WriteAppends self.old.contents self.new.contents result piece.now }
        ensures unread { self.new.read_faults ≡ self.old.read_faults }
    {
        match write_uninterrupted(&mut self.stream, piece) {
            Ok(0) if !piece.is_empty() => Err(counted_fault(&mut self.write_faults)),
            Ok(count) => Ok(count),
            Err(_) => Err(counted_fault(&mut self.write_faults)),
        }
    }
}

impl<S: Read + Write> Link for TcpLink<S> {
    ghost unwritten = { λ _. refl };

    ghost unread = { λ _. refl };
}
