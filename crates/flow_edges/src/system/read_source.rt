ghost use Rattle.std.specs.Prelude.{◌≡◌, ◌≤◌, ◌<◌, None, Ok, length, take, IfOk, OnErr, IsErr};
ghost use Rattle.std.specs.Io.KnownBytes.{ReadConsumes};
ghost use Rattle.flow_edges.specs.Faults.{Counted};

use crate::Source;
use crate::fault::counted_fault;
use crate::system::read_uninterrupted;
use flow_values::Fault;
use std::io::Read;
use std::marker::Model;

/// A `std::io::Read` as a `Source`. The bytes left are not observable, and each I/O error is
/// counted. The value in contracts is the reader's own remaining bytes, if known, and the count.
#[derive(Drop)]
pub struct ReadSource<R: Read> {
    reader: R,
    faults: u64,
}

impl<R: Read> Model for ReadSource<R> {
    ghost use Rattle.flow_edges.specs.System.{ReaderState};

    ghost Value = { ReaderState };

    ghost view = { λ source.
        record { remaining = R.remaining source.reader; faults = source.faults } };
}

impl<R: Read> ReadSource<R> {
    /// A source over this reader, with no faults yet.
    pub fn new(reader: R) -> ReadSource<R>
        ensures { result ≡ record { remaining = R.remaining reader; faults = 0 } }
    {
        ReadSource { reader, faults: 0 }
    }
}

impl<R: Read> Source for ReadSource<R> {
    ghost left = { λ _. None };

    ghost faults = { λ source. source.faults };

    /// Reads once from the reader, and again while a signal interrupts the call. An I/O error is a
    /// `Fault`.
    fn read(&mut self, buffer: &mut [u8]) -> Result<usize, Fault>
        ensures within { IfOk result (λ n. n ≤ length buffer.old) }
        ensures causes { Counted (IsErr result) self.old.faults self.new.faults }
        ensures handed { ReadConsumes self.old.remaining self.new.remaining result buffer.new }
    {
        match read_uninterrupted(&mut self.reader, buffer) {
            Ok(count) => Ok(count),
            Err(_) => Err(counted_fault(&mut self.faults)),
        }
    }
}
