//! A write buffer for the texts of a watcher.

ghost use Rattle.std.specs.Prelude.{◌≡◌, ◌++◌, ◌<◌, [], ℕ, List, Option, Err, IsErr, OnOk, OnErr};
ghost use Rattle.std.specs.Prelude.{length};
ghost use Rattle.flow_edges.specs.Faults.{Counted};
ghost use Rattle.flow_edges.specs.Flow.{written_with, WritesPrefix};
ghost use Rattle.match_run.specs.Buffered.{IsBuffered};
ghost use Rattle.match_run.specs.declared.pending.TheConstants.{PIECE};

use crate::CutShort;
use flow_edges::{Sink, write_whole};
use flow_values::{Fault, NoMemory};
use std::alloc::Global;
use std::marker::Model;

/// How many bytes are buffered before they are written.
pub const PIECE: usize = 65_536;

/// A write buffer. Contracts observe the bytes that are still to be written.
#[derive(Drop)]
pub struct Pending {
    bytes: Vec<u8>,
}

impl Model for Pending {
    ghost use Rattle.std.specs.Prelude.{ℕ, List};

    ghost Value = { List ℕ };

    ghost view = { λ pending. pending.bytes.items };
}

impl Pending {
    /// An empty buffer.
    pub fn new(alloc: Global) -> Pending
        ensures { result ≡ [] }
    {
        Pending {
            bytes: Vec::new(alloc),
        }
    }

    /// Appends a text, and writes the buffer when it is full. After an `Err` a prefix of the buffer
    /// and the text was written.
    pub fn add<O: Sink>(&mut self, text: &[u8], output: &mut O) -> Result<(), CutShort>
        ensures ok { (before : List ℕ) (first : Option (List ℕ))
            → IsBuffered before self.old first (O.written output.old)
            → OnOk result (IsBuffered (before ++ text.now) self.new first (O.written output.new)) }
        ensures err { (before : List ℕ) (first : Option (List ℕ))
            → IsBuffered before self.old first (O.written output.old)
            → OnErr result (WritesPrefix (before ++ text.now) first (O.written output.new)) }
        ensures few { OnOk result (length self.new < PIECE) }
        ensures causes { Counted (result ≡ Err CutShort.WriteFault) (O.faults output.old)
            (O.faults output.new) }
    {
        self.push(text)?;
        if self.bytes.len() < PIECE {
            return Ok(());
        }
        self.write(output)?;
        Ok(())
    }

    /// Writes the buffer. After a `Fault` a prefix of it was written.
    pub fn write<O: Sink>(&mut self, output: &mut O) -> Result<(), Fault>
        ensures ok { OnOk result ((self.new ≡ [])
            × (O.written output.new ≡ written_with self.old (O.written output.old))) }
        ensures all { (before : List ℕ) (first : Option (List ℕ))
            → IsBuffered before self.old first (O.written output.old)
            → OnOk result (O.written output.new ≡ written_with before first) }
        ensures err { (before : List ℕ) (first : Option (List ℕ))
            → IsBuffered before self.old first (O.written output.old)
            → OnErr result (WritesPrefix before first (O.written output.new)) }
        ensures causes { Counted (IsErr result) (O.faults output.old) (O.faults output.new) }
    {
        write_whole(output, &self.bytes)?;
        self.bytes.clear();
        Ok(())
    }

    /// Appends a text to the buffer.
    fn push(&mut self, text: &[u8]) -> Result<(), NoMemory>
        ensures { OnOk result (self.new ≡ self.old ++ text.now) }
    {
        self.bytes.extend_from_slice(text)?;
        Ok(())
    }
}
