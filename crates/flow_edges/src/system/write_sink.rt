ghost use Rattle.std.specs.Prelude.{◌≡◌, ◌≤◌, ◌<◌, None, length, take, IfOk, OnErr, IsErr};
ghost use Rattle.std.specs.Io.KnownBytes.{WriteAppends};
ghost use Rattle.flow_edges.specs.Faults.{Counted};

use crate::Sink;
use crate::fault::counted_fault;
use crate::system::write_uninterrupted;
use flow_values::Fault;
use std::io::Write;
use std::marker::Model;

/// A `std::io::Write` as a `Sink`. The bytes written are not observable, and each I/O error is
/// counted. A write of 0 bytes counts as an error. The value in contracts is the writer's own
/// contents, if known, and the count.
#[derive(Drop)]
pub struct WriteSink<W: Write> {
    writer: W,
    faults: u64,
}

impl<W: Write> Model for WriteSink<W> {
    ghost use Rattle.flow_edges.specs.System.{WriterState};

    ghost Value = { WriterState };

    ghost view = { λ sink. record { contents = W.contents sink.writer; faults = sink.faults } };
}

impl<W: Write> WriteSink<W> {
    /// A sink over this writer, with no faults yet.
    pub fn new(writer: W) -> WriteSink<W>
        ensures { result ≡ record { contents = W.contents writer; faults = 0 } }
    {
        WriteSink { writer, faults: 0 }
    }
}

impl<W: Write> Sink for WriteSink<W> {
    ghost written = { λ _. None };

    ghost faults = { λ sink. sink.faults };

    /// Writes once to the writer, and again while a signal interrupts the call. An I/O error is a
    /// `Fault`, and so is a write of 0 bytes from a non-empty slice.
    fn write(&mut self, piece: &[u8]) -> Result<usize, Fault>
        ensures within { IfOk result (λ n. n ≤ length piece.now) }
        ensures some { IfOk result (λ n. 0 < length piece.now → 0 < n) }
        ensures causes { Counted (IsErr result) self.old.faults self.new.faults }
        ensures handed { WriteAppends self.old.contents self.new.contents result piece.now }
    {
        match write_uninterrupted(&mut self.writer, piece) {
            Ok(0) if !piece.is_empty() => Err(counted_fault(&mut self.faults)),
            Ok(count) => Ok(count),
            Err(_) => Err(counted_fault(&mut self.faults)),
        }
    }
}
